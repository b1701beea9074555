//! The string that `#` makes of the spelling of tokens (C11 6.10.3.2).
ghost use Rattle.std.specs.Prelude.{◌≡◌, [], ◌∷◌, ◌++◌, IfOk, OnOk, MatchOption};
ghost use Rattle.cx_macro.specs.Replacement as meaning;

use crate::marks::is_quoted;
use cx_base::{NoMemory, SharedList, Text};
use cx_tokens::{Kind, Token};
use std::alloc::Global;

/// Adds a byte, with a `\` before a `"` and a `\`.
fn push_escaped_byte(out: &mut Text, byte: u8) -> Result<(), NoMemory>
    ensures { OnOk result (out.new ≡ out.old ++ meaning.escaped (byte ∷ [])) }
{
    if byte == b'"' || byte == b'\\' {
        out.push_all(&[b'\\', byte])
    } else {
        out.push_all(&[byte])
    }
}

/// Adds bytes, with a `\` before each `"` and each `\`.
fn push_escaped(out: &mut Text, text: &[u8]) -> Result<(), NoMemory>
    ensures { OnOk result (out.new ≡ out.old ++ meaning.escaped text.now) }
{
    for byte in text {
        push_escaped_byte(out, *byte)?;
    }
    Ok(())
}

/// Adds what a token gives to a string.
fn push_characters(out: &mut Text, token: &Token) -> Result<(), NoMemory>
    ensures { OnOk result (out.new ≡ out.old ++ meaning.characters_of token.now) }
{
    if is_quoted(token.kind) {
        push_escaped(out, token.spelling())
    } else {
        out.push_all(token.spelling())
    }
}

/// Adds what a token gives to a string after another: one space before it, if it has one.
fn push_after(out: &mut Text, token: &Token) -> Result<(), NoMemory>
    ensures { OnOk result (out.new ≡ out.old ++ meaning.characters_after (token.now ∷ [])) }
{
    if token.space {
        out.push_all(b" ")?;
        push_characters(out, token)
    } else {
        push_characters(out, token)
    }
}

/// Adds what tokens give to a string after others.
fn push_all_after(out: &mut Text, tokens: &[Token]) -> Result<(), NoMemory>
    ensures { OnOk result (out.new ≡ out.old ++ meaning.characters_after tokens.now) }
{
    for token in tokens {
        push_after(out, token)?;
    }
    Ok(())
}

/// Adds what tokens give to a string.
#[tactic(auto, unfolding(crate::specs::Replacement::characters_of_all))]
fn push_tokens(out: &mut Text, tokens: &[Token]) -> Result<(), NoMemory>
    ensures { OnOk result (out.new ≡ out.old ++ meaning.characters_of_all tokens.now) }
{
    match first(tokens) {
        None => Ok(()),
        Some((token, rest)) => {
            push_characters(out, token)?;
            push_all_after(out, rest)
        }
    }
}

/// The first of tokens, and those after it.
pub(crate) fn first(tokens: &[Token]) -> Option<(&Token, &[Token])>
    ensures { MatchOption result (tokens.now ≡ []) (λ x. tokens.now ≡ x.0.now ∷ x.1.now) }
{
    match tokens {
        [] => None,
        [token, rest @ ..] => Some((token, rest)),
    }
}

/// The string that a `#` makes of an argument.
#[tactic(auto, unfolding(crate::specs::Replacement::string_of))]
pub(crate) fn string_of(alloc: Global, hash: &Token, argument: &[Token]) -> Result<Token, NoMemory>
    ensures { IfOk result (λ t. t ≡ meaning.string_of hash.now argument.now) }
{
    let mut text = Text::from_slice(alloc, b"\"")?;
    push_tokens(&mut text, argument)?;
    text.push_all(b"\"")?;
    let hide = hash.hide.share()?;
    Ok(Token {
        kind: Kind::String,
        text,
        place: hash.place,
        hide,
        space: hash.space,
        parts: SharedList::new(),
        digraph: false,
    })
}
