//! The integer types of C11 (ISO/IEC 9899:2011), their conversions and their arithmetic.
//!
//! Values are whole numbers in an `i128`, and each function is total: its contract is one equation
//! with a definition in `specs/`, which speaks of whole numbers of any size.
#![tactic(auto)]

mod conversions;
pub mod laws;
mod operators;
mod types;

pub use conversions::{convert, promote, usual};
pub use operators::{Op, arith};
pub use types::{IntType, Kind, Platform, Width, bits, greatest, kind_of, least, width_of};

#[cfg(test)]
mod tests;
