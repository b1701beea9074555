//! What is told of a unit depends on the answers for its own files alone.
#![tactic(auto)]

pub use laws::{foreign_by_its_files, same_both_ways, shelf_is_of_answers, told_by_its_files};

mod laws;
