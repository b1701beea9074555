//! The configurations of a unit (the Cppcheck manual, "Preprocessor Settings").
#![tactic(auto)]

pub use configs::configurations;
pub use laws::{
    as_many_as_are_looked_at, names_ascend, no_list_stands_twice, settled_names_are_in_no_list,
    whole_sections_ask_alone,
};

mod asked;
mod configs;
mod groups;
#[cfg(test)]
mod groups_tests;
mod laws;
mod lists;
mod name_lists;
mod name_set;
mod settled;
#[cfg(test)]
mod tests;
