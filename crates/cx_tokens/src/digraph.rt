//! Digraphs: punctuators of another spelling (C11 6.4.6, paragraph 3).
ghost use Rattle.std.specs.Prelude.{◌≡◌};
ghost use Rattle.cx_tokens.specs.Digraphs.{digraph_of, is_digraph, plain_text, spelling_of};

use crate::token::{Kind, Token};

// The digraphs, each with its plain form.
const DIGRAPHS: [(&[u8], &[u8]); 6] = [
    (b"<:", b"["),
    (b":>", b"]"),
    (b"<%", b"{"),
    (b"%>", b"}"),
    (b"%:", b"#"),
    (b"%:%:", b"##"),
];

/// Whether a piece of a kind is a digraph, by its spelling (C11 6.4.6, paragraph 3).
#[tactic(auto, unfolding(crate::specs::Digraphs::is_digraph))]
pub fn is_digraph(kind: Kind, spelled: &[u8]) -> bool
    ensures { result ≡ is_digraph kind spelled.now }
{
    if kind != Kind::Punct {
        return false;
    }
    for (spelling, _) in DIGRAPHS {
        if spelling == spelled {
            return true;
        }
    }
    false
}

/// The text of a piece: its spelling, and of a digraph the plain form (C11 6.4.6, paragraph 3).
#[tactic(auto, unfolding(crate::specs::Digraphs::plain_text))]
pub fn plain_text<'a>(kind: Kind, spelled: &'a [u8]) -> &'a [u8]
    ensures { result.now ≡ plain_text kind spelled.now }
{
    if kind != Kind::Punct {
        return spelled;
    }
    for (spelling, plain) in DIGRAPHS {
        if spelling == spelled {
            return plain;
        }
    }
    spelled
}

// The digraph of a plain form.
#[tactic(auto, unfolding(crate::specs::Digraphs::digraph_of))]
fn digraph_of<'a>(text: &'a [u8]) -> &'a [u8]
    ensures { result.now ≡ digraph_of text.now }
{
    for (spelling, plain) in DIGRAPHS {
        if plain == text {
            return spelling;
        }
    }
    text
}

impl Token {
    /// The bytes that the token was spelt with.
    #[tactic(auto, unfolding(crate::specs::Digraphs::spelling_of))]
    pub fn spelling(&self) -> &[u8]
        ensures { result.now ≡ spelling_of self.now }
    {
        if !self.digraph {
            return self.text.as_slice();
        }
        digraph_of(self.text.as_slice())
    }
}
