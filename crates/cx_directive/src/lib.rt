//! What the directives of a source say (ISO/IEC 9899:2011, 6.10), by the pieces after their names.
#![tactic(auto)]

pub use answers::{answered, is_bracketed_name, is_question};
pub use define::{Named, defined_by};
pub use include::{IncludeName, Target, header_name, target_of};
pub use laws::{
    distinct_names_are_told, each_question_is_answered, nothing_is_asked,
    what_is_defined_is_a_definition,
};
pub use marks::is_name;
pub use operand::{name_of, operands, spelled, token_copies};

mod answers;
mod body;
mod cuts;
mod define;
mod include;
mod laws;
mod marks;
mod operand;
mod parameters;
#[cfg(test)]
mod tests;
