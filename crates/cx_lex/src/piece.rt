//! Tokens as they stand in a source.
ghost use Rattle.std.specs.Prelude.{◌≡◌, IfOk};
ghost use Rattle.cx_tokens.specs.Digraphs.{plain_text};

use cx_base::{Duplicate, NoMemory, Text};
use cx_tokens::{Kind, Token, is_digraph, plain_text};
use std::alloc::Global;

/// A token as it stands in a source.
#[derive(Debug, Drop)]
pub struct Piece {
    pub token: Token,
    /// Whether no other piece stands before it on its line.
    pub first_on_line: bool,
}

impl Piece {
    pub fn copy(&self) -> Result<Piece, NoMemory>
        ensures { IfOk result (λ p. p ≡ self.now) }
    {
        let token = self.token.copy()?;
        Ok(Piece {
            token,
            first_on_line: self.first_on_line,
        })
    }
}

impl Duplicate for Piece {
    fn duplicate(&self) -> Result<Piece, NoMemory> {
        self.copy()
    }
}

/// The text of a piece: its spelling, and of a digraph the plain form (C11 6.4.6, paragraph 3).
#[tactic(auto, using(crate::proofs::Plain::plain_is_spelling))]
pub(crate) fn plain_form(alloc: Global, kind: Kind, spelled: Text) -> Result<Text, NoMemory>
    ensures { IfOk result (λ text. text ≡ plain_text kind spelled) }
{
    if !is_digraph(kind, spelled.as_slice()) {
        return Ok(spelled);
    }
    Text::from_slice(alloc, plain_text(kind, spelled.as_slice()))
}
