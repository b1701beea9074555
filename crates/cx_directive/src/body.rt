//! The body of a macro (C11 6.10.3).
ghost use Rattle.std.specs.Prelude.{◌≡◌, IfOk, map};
ghost use Rattle.cx_macro.specs.Macros.{is_paste};
ghost use Rattle.cx_directive.specs.Defines.{begins_paste, ends_paste, pastes_stand, renamed, with_variable};
ghost use Rattle.cx_directive.specs.Operands.{tokens_of};

use crate::marks::is_named;
use crate::operand::token_copies;
use cx_base::{NoMemory, Text};
use cx_lex::Piece;
use cx_tokens::{Token, is_punctuator};
use std::alloc::Global;

/// Whether a token is `##`.
fn is_paste(token: &Token) -> bool
    ensures { result ≡ is_paste token.now }
{
    is_punctuator(b"##", token)
}

/// Whether a body begins with `##`.
fn begins_paste(body: &[Piece]) -> bool
    ensures { result ≡ begins_paste (tokens_of body.now) }
{
    match body.first() {
        None => false,
        Some(piece) => is_paste(&piece.token),
    }
}

/// Whether a body ends with `##`.
fn ends_paste(body: &[Piece]) -> bool
    ensures { result ≡ ends_paste (tokens_of body.now) }
{
    match body.last() {
        None => false,
        Some(piece) => is_paste(&piece.token),
    }
}

/// Whether a body neither begins nor ends with `##` (C11 6.10.3.3, paragraph 1).
pub(crate) fn pastes_stand(body: &[Piece]) -> bool
    ensures { result ≡ pastes_stand (tokens_of body.now) }
{
    !begins_paste(body) && !ends_paste(body)
}

/// A token of a body, which gets the one name of the variable argument where it has this one.
fn renamed(alloc: Global, name: &[u8], token: &Token) -> Result<Token, NoMemory>
    ensures { IfOk result (λ t. t ≡ renamed name.now token.now) }
{
    let mut copy = token.copy()?;
    if !is_named(name, token) {
        return Ok(copy);
    }
    copy.text = Text::from_slice(alloc, b"__VA_ARGS__")?;
    Ok(copy)
}

/// The tokens of a body, of which each name that is this one gets that of the variable argument.
fn all_renamed(alloc: Global, name: &[u8], body: &[Piece]) -> Result<Vec<Token>, NoMemory>
    ensures { IfOk result (λ made. made.items ≡ map (renamed name.now) (tokens_of body.now)) }
{
    let mut made = Vec::new(alloc);
    for piece in body {
        made.push(renamed(alloc, name, &piece.token)?)?;
    }
    Ok(made)
}

/// The tokens of a body in which the variable argument has this name, or only its own.
pub(crate) fn with_variable(
    alloc: Global,
    variable: &Option<Text>,
    body: &[Piece],
) -> Result<Vec<Token>, NoMemory>
    ensures { IfOk result
        (λ made. made.items ≡ with_variable variable.now (tokens_of body.now)) }
{
    match variable {
        None => token_copies(alloc, body),
        Some(name) => all_renamed(alloc, name.as_slice(), body),
    }
}
