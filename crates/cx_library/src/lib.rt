//! What is known of the functions, macros and types of the C library: by the built-in library, and
//! by library files (the reference of Cppcheck's `.cfg` format).
#![tactic(auto)]

pub use described::{ArgNr, ArgRule, Bounds, Described, Direction, ReturnKind};
pub use draft::Draft;
pub use laws::{
    both_ends_are_valid, groups_are_apart, merging_is_associative, nothing_changes_nothing,
    the_later_wins, the_other_part_stays, what_is_built_in, what_is_not_named_stays,
};
pub use library::Library;
pub use pod::Pod;
pub use rules::valid;
pub use standard::built_in;

mod described;
mod draft;
mod join;
mod known;
mod laws;
mod library;
mod pod;
mod rules;
mod standard;
mod table;
#[cfg(test)]
mod tests;
