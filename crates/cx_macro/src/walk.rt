//! Tokens read ahead.
ghost use Rattle.std.specs.Prelude.{◌≡◌, ◌+◌, [], ◌∷◌, None, IfOk, IfSome, IsTrue, MatchOption, length, take, ◌==◌};
ghost use Rattle.cx_tokens.specs.Nodes.{is_live, tokens};
ghost use Rattle.cx_macro.specs.Shapes.Walks.{walked};

use cx_base::{List, NoMemory};
use cx_tokens::{Node, Token, TokenList};
use std::alloc::Global;
use std::marker::Model;

/// A number and one more.
pub(crate) fn one_more(count: usize) -> Result<usize, NoMemory>
    ensures { IfOk result (λ n. n ≡ count + 1) }
{
    count.checked_add(1).ok_or(NoMemory)
}

/// Tokens of a list from a node on, all or so many, which contracts see as the list of them.
#[derive(Drop)]
pub(crate) struct Walk<'a> {
    list: &'a TokenList,
    at: Option<Node>,
    // How many are left, where not all are.
    left: Option<usize>,
}

impl<'a> Model for Walk<'a> {
    ghost use Rattle.std.specs.Prelude.{List, IfSome, IsTrue};
    ghost use Rattle.cx_tokens.specs.declared.token.Token.{Token};
    ghost use Rattle.cx_tokens.specs.Nodes.{is_live};
    ghost use Rattle.cx_macro.specs.Shapes.Walks.{walked};

    ghost Value = { List Token };

    ghost view = { λ w. walked w.left w.at w.list.now.nodes };

    ghost invariant = { λ w. IfSome w.at (λ n. IsTrue (is_live n w.list.now.nodes)) };
}

impl<'a> Walk<'a> {
    /// All tokens of a list.
    pub(crate) fn over(list: &'a TokenList) -> Walk<'a>
        ensures { result ≡ tokens list.now.nodes }
    {
        list.are_numbered();
        Walk::from(list, list.first())
    }

    /// The tokens from a node on.
    pub(crate) fn from(list: &'a TokenList, at: Option<Node>) -> Walk<'a>
        requires { IfSome at (λ n. IsTrue (is_live n list.now.nodes)) }
        ensures { result ≡ walked None at list.now.nodes }
    {
        Walk {
            list,
            at,
            left: None,
        }
    }

    /// The first of these, at most so many.
    pub(crate) fn within(self, count: usize) -> Walk<'a>
        ensures { result ≡ take count self.entry }
    {
        let left = match self.left {
            None => count,
            Some(left) => count.min(left),
        };
        Walk {
            list: self.list,
            at: self.at,
            left: Some(left),
        }
    }

    /// Whether no token is left.
    pub(crate) fn is_empty(&self) -> bool
        ensures { result ≡ (length self.now == 0) }
    {
        let mut walk = Walk {
            list: self.list,
            at: self.at,
            left: self.left,
        };
        walk.next().is_none()
    }

    /// Passes a token.
    pub(crate) fn next(&mut self) -> Option<&'a Token>
        ensures { MatchOption result ((self.old ≡ []) × (self.new ≡ []))
            (λ t. self.old ≡ t.now ∷ self.new) }
    {
        let list = self.list;
        list.are_numbered();
        let node = self.at?;
        if let Some(left) = self.left {
            self.left = Some(left.checked_sub(1)?);
        }
        self.at = list.next(node);
        Some(list.token(node))
    }

    /// How many tokens there are.
    pub(crate) fn count(self) -> Result<usize, NoMemory>
        ensures { IfOk result (λ n. n ≡ length self.entry) }
    {
        let mut walk = self;
        let mut found: usize = 0;
        while let Some(_token) = walk.next() {
            found = one_more(found)?;
        }
        Ok(found)
    }

    /// Copies of the tokens.
    pub(crate) fn copies(self, alloc: Global) -> Result<List<Token>, NoMemory>
        ensures { IfOk result (λ l. l ≡ self.entry) }
    {
        let mut walk = self;
        let mut found = List::new(alloc);
        while let Some(token) = walk.next() {
            found.push(token.copy()?)?;
        }
        Ok(found)
    }
}
