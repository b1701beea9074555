//! Nodes of token lists.
ghost use Rattle.std.specs.Prelude.{◌≡◌};

use std::marker::Model;

/// A node of a token list, named by its number.
#[derive(Clone, Copy, Debug, PartialEq, Eq)]
pub struct Node {
    number: u32,
}

impl Model for Node {
    ghost use Rattle.std.specs.Prelude.{ℕ};

    ghost Value = { ℕ };

    ghost view = { λ n. n.number };

    ghost inverse = { λ n. record { number = n } };
}

impl Node {
    // The node of a number.
    pub(crate) fn of(number: u32) -> Node
        ensures { result ≡ number }
    {
        Node { number }
    }

    /// A node's number.
    pub fn number(self) -> u32
        ensures { result ≡ self }
    {
        self.number
    }
}
