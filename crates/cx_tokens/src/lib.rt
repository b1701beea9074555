//! Preprocessing tokens of C (ISO/IEC 9899:2011, 6.4), and lists of them with edits.
#![tactic(auto)]

pub use bracket::is_punctuator;
pub use digraph::{is_digraph, plain_text};
pub use laws::{
    closes_after, from_itself, from_transitive, nested_are_not_unpaired, no_strings_adjoin,
    no_word_is_left, one_pairing, one_simplified, one_unpaired_place, order_is_kept,
    others_are_kept, simplified_once, spelling_is_kept,
};
pub use node::Node;
pub use token::{Kind, Token};
pub use token_list::{TokenList, Unpaired};

mod bracket;
mod digraph;
mod laws;
mod node;
mod simplify;
mod slots;
#[cfg(test)]
mod tests;
mod token;
mod token_list;
mod whole;
