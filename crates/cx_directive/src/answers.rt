//! The `defined` of a condition (C11 6.10.1, paragraph 1).
ghost use Rattle.std.specs.Prelude.{◌≡◌, ◌≤◌, ◌∷◌, IfOk, IfSome, codes, if◌then◌else◌, length, option_map};
ghost use Rattle.cx_directive.specs.Answers.{answer, answered, is_bracketed_name, is_question};
ghost use Rattle.cx_directive.specs.Operands.{tokens_of};
ghost use Rattle.cx_directive.specs.Shapes.Asked as shapes;

use crate::marks::{is_name, is_named};
use crate::operand::first;
use cx_base::{NoMemory, SharedList, Text};
use cx_lex::Piece;
use cx_macro::Macros;
use cx_tokens::{Kind, Token, is_punctuator};
use std::alloc::Global;

/// Whether a token is `defined` (C11 6.10.1).
pub fn is_question(token: &Token) -> bool
    ensures { result ≡ is_question token.now }
{
    is_named(b"defined", token)
}

/// Whether three tokens are a name in round brackets.
pub fn is_bracketed_name(opening: &Token, name: &Token, closing: &Token) -> bool
    ensures { result ≡ is_bracketed_name opening.now name.now closing.now }
{
    is_punctuator(b"(", opening) && is_name(name) && is_punctuator(b")", closing)
}

/// The name in brackets that pieces begin with, and the pieces after it.
fn bracketed(pieces: &[Piece]) -> Option<(&[u8], &[Piece])>
    ensures name { option_map (λ x. (x.0.now, tokens_of x.1.now)) result
        ≡ shapes.bracketed (tokens_of pieces.now) }
    ensures shorter { IfSome result (λ x. length x.1.now ≤ length pieces.now) }
{
    let (opening, after) = first(pieces)?;
    let (name, after) = first(after)?;
    let (closing, after) = first(after)?;
    if is_bracketed_name(&opening.token, &name.token, &closing.token) {
        Some((name.token.text.as_slice(), after))
    } else {
        None
    }
}

/// The name that pieces begin with, bare or in brackets, and the pieces after it.
fn asked(pieces: &[Piece]) -> Option<(&[u8], &[Piece])>
    ensures name { option_map (λ x. (x.0.now, tokens_of x.1.now)) result
        ≡ shapes.asked (tokens_of pieces.now) }
    ensures shorter { IfSome result (λ x. length x.1.now ≤ length pieces.now) }
{
    let (name, after) = first(pieces)?;
    if is_name(&name.token) {
        Some((name.token.text.as_slice(), after))
    } else {
        bracketed(pieces)
    }
}

/// The name that a token asks for with the pieces after it, and the pieces after that name.
fn asked_by<'a>(token: &Token, after: &'a [Piece]) -> Option<(&'a [u8], &'a [Piece])>
    ensures name { option_map (λ x. (x.0.now, tokens_of x.1.now)) result
        ≡ shapes.asked_by token.now (tokens_of after.now) }
    ensures shorter { IfSome result (λ x. length x.1.now ≤ length after.now) }
{
    if is_question(token) {
        asked(after)
    } else {
        None
    }
}

/// The text of an answer.
fn answer_text(is_true: bool) -> &'static [u8]
    ensures { result.now ≡ (if is_true then codes "1" else codes "0") }
{
    if is_true { b"1" } else { b"0" }
}

/// The answer, which stands where the `defined` stood.
fn answer(alloc: Global, is_true: bool, question: &Token) -> Result<Token, NoMemory>
    ensures { IfOk result (λ t. t ≡ answer is_true question.now) }
{
    let text = Text::from_slice(alloc, answer_text(is_true))?;
    Ok(Token {
        kind: Kind::Number,
        text,
        place: question.place,
        hide: SharedList::new(),
        space: question.space,
        parts: SharedList::new(),
        digraph: false,
    })
}

/// The tokens of a condition, of which each `defined name` and `defined ( name )` is answered: 1
/// where the name is that of a macro, else 0. Any other `defined` stays a name.
pub fn answered(alloc: Global, macros: &Macros, operands: &[Piece]) -> Result<Vec<Token>, NoMemory>
    ensures { IfOk result (λ made. made.items ≡ answered macros.now (tokens_of operands.now)) }
{
    let mut made = Vec::new(alloc);
    let mut left = operands;
    while let Some((piece, after)) = first(left) {
        match asked_by(&piece.token, after) {
            Some((name, rest)) => {
                let token = answer(alloc, macros.is_defined(name), &piece.token)?;
                made.push(token)?;
                left = rest;
                continue;
            }
            None => {
                made.push(piece.token.copy()?)?;
                left = after;
                continue;
            }
        }
    }
    Ok(made)
}
