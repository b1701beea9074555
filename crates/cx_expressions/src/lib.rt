//! Expressions of C11 (ISO/IEC 9899:2011, 6.5): from tokens to the one tree.
#![tactic(auto)]

mod chains;
mod conditionals;
mod knot;
pub mod laws;
mod operands;
mod roles;

pub use knot::{assignment, conditional, expression};
pub use roles::{Begin, Behind, begin_of, behind_of, level_of};

#[cfg(test)]
mod tests;
#[cfg(test)]
mod written;
