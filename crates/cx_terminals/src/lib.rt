//! The terminal symbols of C (ISO/IEC 9899:2011, 6.4 and annex A.1): what the grammar sees of each
//! token of a list.
#![tactic(auto)]

pub use lexemes::Lexemes;

mod keywords;
mod lexemes;
mod names;
mod punctuators;
mod table;
mod terminal;
#[cfg(test)]
mod tests;
mod walk;
