//! Lists that are being expanded.
ghost use Rattle.std.specs.Prelude.{◌≡◌, ℕ, List as list, [], ◌∷◌, ◌++◌, IfSome, MatchOption, OnOk, IsTrue, false};
ghost use Rattle.cx_tokens.specs.declared.token.Token.{Token as token_type};
ghost use Rattle.cx_tokens.specs.Nodes.{first_of, is_live, tokens};
ghost use Rattle.cx_macro.specs.Partners.{HasNoPartners};
ghost use Rattle.cx_macro.specs.Shapes.Levels.{nodes_ahead};

use crate::walk::Walk;
use cx_base::NoMemory;
use cx_tokens::{Node, Token, TokenList};
use std::marker::Model;

/// A list of tokens whose front is done, which contracts see as the tokens done and those ahead. It
/// is edited in place.
#[derive(Drop)]
pub(crate) struct Level {
    list: TokenList,
    // The last node that is done.
    last: Option<Node>,
}

impl Model for Level {
    ghost use Rattle.std.specs.Prelude.{IfSome, IsTrue};
    ghost use Rattle.cx_tokens.specs.Nodes.{is_live};
    ghost use Rattle.cx_macro.specs.Partners.{HasNoPartners};
    ghost use Rattle.cx_macro.specs.Shapes.Levels.{Standing, nodes_done, standing_of};

    ghost Value = { Standing };

    ghost view = { λ l. standing_of l.last l.list.nodes };

    ghost invariant = { λ l. IfSome l.last (λ n. IsTrue (is_live n l.list.nodes))
        × HasNoPartners (nodes_done l.last l.list.nodes) };
}

impl Level {
    /// A list of which nothing is done.
    pub(crate) fn new(list: TokenList) -> Level
        ensures { result ≡ record { done = []; ahead = tokens list.nodes } }
    {
        Level { list, last: None }
    }

    /// Reads the tokens ahead.
    pub(crate) fn walk(&self) -> Walk
        ensures { result ≡ self.now.ahead }
    {
        self.list.are_numbered();
        Walk::from(&self.list, node_ahead(&self.list, self.last))
    }

    /// Takes the first token ahead out of the list.
    pub(crate) fn pop(&mut self) -> Option<Token>
        ensures { MatchOption result ((self.old.ahead ≡ []) × (self.new ≡ self.old))
            (λ t. (self.old.ahead ≡ t ∷ self.new.ahead) × (self.new.done ≡ self.old.done)) }
    {
        self.list.are_numbered();
        let node = node_ahead(&self.list, self.last)?;
        Some(self.list.erase(node))
    }

    /// Passes the first token ahead, which is done then.
    pub(crate) fn pass(&mut self) -> Result<(), NoMemory>
        ensures { OnOk result ((token : token_type) (rest : list token_type)
            → self.old.ahead ≡ token ∷ rest
            → (self.new.done ≡ self.old.done ++ token ∷ []) × (self.new.ahead ≡ rest)) }
    {
        if self.pass_alone() {
            return Ok(());
        }
        match self.pop() {
            None => Ok(()),
            Some(token) => self.keep(token),
        }
    }

    /// Passes the first token ahead, where it has no partner.
    fn pass_alone(&mut self) -> bool
        ensures passed { IsTrue result → (token : token_type) (rest : list token_type)
            → self.old.ahead ≡ token ∷ rest
            → (self.new.done ≡ self.old.done ++ token ∷ []) × (self.new.ahead ≡ rest) }
        ensures left { result ≡ false → self.new ≡ self.old }
    {
        self.list.are_numbered();
        let Some(node) = node_ahead(&self.list, self.last) else {
            return false;
        };
        if self.list.partner(node).is_some() {
            return false;
        }
        self.last = Some(node);
        true
    }

    /// Puts a token behind those that are done, as done.
    fn keep(&mut self, token: Token) -> Result<(), NoMemory>
        ensures { OnOk result
            ((self.new.done ≡ self.old.done ++ token ∷ []) × (self.new.ahead ≡ self.old.ahead)) }
    {
        let node = self.list.insert_after(self.last, token)?;
        self.last = Some(node);
        Ok(())
    }

    /// Puts a token behind those that are done, as the first ahead.
    pub(crate) fn push(&mut self, token: Token) -> Result<(), NoMemory>
        ensures { OnOk result
            ((self.new.done ≡ self.old.done) × (self.new.ahead ≡ token ∷ self.old.ahead)) }
    {
        let _node = self.list.insert_after(self.last, token)?;
        Ok(())
    }

    /// The list, done or not.
    pub(crate) fn into_list(self) -> TokenList
        ensures tokens { tokens result.nodes ≡ self.done ++ self.ahead }
        ensures partners { self.ahead ≡ [] → HasNoPartners result.nodes }
    {
        self.list
    }
}

// The node behind the last that is done.
fn node_ahead(list: &TokenList, last: Option<Node>) -> Option<Node>
    requires { IfSome last (λ n. IsTrue (is_live n list.now.nodes)) }
    ensures node { result ≡ first_of (nodes_ahead last list.now.nodes) }
    ensures live { IfSome result (λ n. IsTrue (is_live n list.now.nodes)) }
{
    match last {
        None => list.first(),
        Some(node) => list.next(node),
    }
}
