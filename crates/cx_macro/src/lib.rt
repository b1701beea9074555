//! Macro replacement (ISO/IEC 9899:2011, 6.10.3) by hide sets.
#![tactic(auto)]

pub use fault::MacroFault;
pub use laws::{
    a_name_hides_itself, arguments_are_found, nothing_is_replaced, one_closing_bracket,
    one_outcome, some_outcome, the_bound_is_met,
};
pub use macros::{Expanded, Macro, Macros};
pub use replacement_laws::{standard_rules_alone, string_says_its_argument};

mod arguments;
mod buffer;
mod calls;
mod definable;
mod expansion;
mod fault;
mod frames;
mod hiding;
mod laws;
mod level;
mod lookup;
mod macros;
mod marks;
mod pasting;
mod replacement_laws;
mod replacing;
mod roles;
mod segment;
mod spelling;
mod stack;
mod steps;
mod stored;
mod substitutes;
#[cfg(test)]
mod tests;
mod walk;
