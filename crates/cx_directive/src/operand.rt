//! What stands after the name of a directive.
ghost use Rattle.std.specs.Prelude.{◌≡◌, [], ◌∷◌, ◌++◌, IfOk, OnOk, MatchOption, None, Some, drop};
ghost use Rattle.cx_directive.specs.Operands.{name_of, spelled, spelled_on, tokens_of};

use cx_base::{NoMemory, Text};
use cx_lex::Piece;
use cx_tokens::{Kind, Token};
use std::alloc::Global;

/// The pieces after the `#` and the name of a directive.
pub fn operands(line: &[Piece]) -> &[Piece]
    ensures { result.now ≡ drop 2 line.now }
{
    line.get(2..).unwrap_or(&[])
}

/// The name that `ifdef`, `ifndef` and `undef` have (C11 6.10.1, 6.10.3.5): the first operand,
/// where it is a name. What stands behind it is passed over.
pub fn name_of(operands: &[Piece]) -> Option<&[u8]>
    ensures { MatchOption result (name_of (tokens_of operands.now) ≡ None)
        (λ name. name_of (tokens_of operands.now) ≡ Some name.now) }
{
    let first = operands.first()?;
    if first.token.kind == Kind::Name {
        Some(first.token.text.as_slice())
    } else {
        None
    }
}

/// The first of pieces, and those after it.
pub(crate) fn first(pieces: &[Piece]) -> Option<(&Piece, &[Piece])>
    ensures { MatchOption result (pieces.now ≡ []) (λ x. pieces.now ≡ x.0.now ∷ x.1.now) }
{
    match pieces {
        [] => None,
        [piece, rest @ ..] => Some((piece, rest)),
    }
}

/// Adds a token to text, after others: one space before it, where it is separated.
fn push_after(text: &mut Text, token: &Token) -> Result<(), NoMemory>
    ensures { OnOk result (text.new ≡ text.old ++ spelled_on (token.now ∷ [])) }
{
    if token.space {
        text.push(b' ')?;
        text.push_all(token.text.as_slice())
    } else {
        text.push_all(token.text.as_slice())
    }
}

/// Adds pieces to text, after others.
fn push_all_after(text: &mut Text, pieces: &[Piece]) -> Result<(), NoMemory>
    ensures { OnOk result (text.new ≡ text.old ++ spelled_on (tokens_of pieces.now)) }
{
    for piece in pieces {
        push_after(text, &piece.token)?;
    }
    Ok(())
}

/// Copies of the tokens of pieces, in order.
pub fn token_copies(alloc: Global, pieces: &[Piece]) -> Result<Vec<Token>, NoMemory>
    ensures { IfOk result (λ made. made.items ≡ tokens_of pieces.now) }
{
    let mut made = Vec::new(alloc);
    for piece in pieces {
        made.push(piece.token.copy()?)?;
    }
    Ok(made)
}

/// Pieces as text, with one space between two that are separated.
#[tactic(auto, unfolding(crate::specs::Operands::spelled))]
pub fn spelled(alloc: Global, pieces: &[Piece]) -> Result<Text, NoMemory>
    ensures { IfOk result (λ text. text ≡ spelled (tokens_of pieces.now)) }
{
    let mut text = Text::new(alloc);
    let Some((piece, rest)) = first(pieces) else {
        return Ok(text);
    };
    text.push_all(piece.token.text.as_slice())?;
    push_all_after(&mut text, rest)?;
    Ok(text)
}
