//! A translation unit as a list of items (C11 6.9).
use crate::declarations::TreeDecl;
use crate::expressions::NameAt;
use crate::statements::TreeFunction;
use cx_base::{List, Place, Text};
use cx_tokens::Token;
use sqlite_items::Items;

/// A function that is not analysed: the name by which it is told, the number of that token, and
/// whether it is one with external linkage.
#[derive(Drop)]
pub struct Bailed {
    pub name: Text,
    pub at: Place,
    pub external: bool,
}

/// An item of a unit.
#[derive(Drop)]
pub enum Item {
    /// A function definition that reads.
    Function(TreeFunction),
    /// Another item that ends as a function does.
    Bailed(Bailed),
    /// A declaration that reads.
    Decl(TreeDecl),
    /// Any other item: the names that it taints, and the type name that it declares all the same.
    Skipped {
        tainted: Items<NameAt>,
        opaque: Option<NameAt>,
    },
}

/// A unit: the texts of its names, each once and in the order in which they come first, its tokens,
/// by which a tree gives its places, and its items.
#[derive(Drop)]
pub struct Unit {
    pub names: List<Text>,
    pub tokens: List<Token>,
    pub items: Items<Item>,
}
