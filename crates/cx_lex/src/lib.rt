//! Preprocessing tokens of C (ISO/IEC 9899:2011, 6.4), with the places where they stand.
#![tactic(auto)]

pub use comment::Comment;
pub use lexer::{
    LexFault, Lexed, elements_are_the_text, lex, lex_within, one_outcome, some_outcome,
};
pub use piece::Piece;
pub use single::{one_kind, one_piece};

mod before;
mod bytes;
mod character;
mod comment;
mod cursor;
mod front;
mod lexer;
#[cfg(test)]
mod lexer_tests;
mod piece;
mod punctuator;
mod scan;
mod single;
