//! The lines of a source of C (ISO/IEC 9899:2011, 6.10), what each of them is, and how the sections
//! of conditional inclusion nest.
#![tactic(auto)]

pub use kind::{LineKind, kind_of};
pub use laws::{
    each_fault_is_there, front_is_a_front, lines_are_the_pieces, nested_lines_are_passed,
    no_line_begins_within_a_line, whole_lines_have_no_fault,
};
pub use lines::{first_line, front_text};
pub use nesting::{Extent, NestingFault, after_section, extent_of, from_part, place_of};

mod kind;
mod laws;
mod lines;
mod nesting;
mod sections;
#[cfg(test)]
mod tests;
