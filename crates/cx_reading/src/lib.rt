//! Reading from a list of tokens: a cursor, rows of items, and the types without a body of C11
//! (ISO/IEC 9899:2011, 6.7.2, 6.7.6.1 and 6.7.7).
#![tactic(auto)]

mod cursor;
mod integers;
pub mod laws;
mod refusal;
mod rows;
mod types;

pub use cursor::{Cursor, is_mark, is_word};
pub use integers::integer_type;
pub use refusal::Refusal;
pub use rows::many;
pub use types::{
    bare_words, begins_type, one_storage, specifier, specifier_of, specifiers, stars, type_name,
};

#[cfg(test)]
mod tests;
