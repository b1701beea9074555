//! What a token is to the grammar of a first text.
ghost use Rattle.std.specs.Prelude.{◌≡◌, [], ◌∷◌, MatchOption};
ghost use Rattle.cx_first.specs.Terminals as meaning;
ghost use Rattle.cx_first.specs.Descent.{TerminalAt, NoTerminal};

use crate::keywords::{equals, is_keyword};
use crate::number::number_value;
use cx_tokens::{Kind, Token};

/// The terminal of a token: all that the grammar asks of it but its text and its place.
#[derive(Clone, Copy, Debug, PartialEq, Eq)]
pub enum Terminal {
    /// `int`
    Int,
    /// `void`
    Void,
    /// `return`
    Return,
    /// An identifier that is no keyword (C11 6.4.2.1).
    Name,
    /// A decimal constant of type int (C11 6.4.4.1), with its value.
    Number(u32),
    /// `(`
    Open,
    /// `)`
    Close,
    /// `{`
    Begin,
    /// `}`
    End,
    /// `,`
    Comma,
    /// `;`
    Semicolon,
    /// `=`
    Equals,
    /// `+`
    Plus,
    /// `-`
    Minus,
    /// `*`
    Star,
    /// `/`
    Slash,
    /// No token of a first text.
    Foreign,
}

/// A word's terminal.
#[tactic(auto, unfolding(crate::specs::Terminals::word))]
fn word(text: &[u8]) -> Terminal
    ensures { result ≡ meaning.word text.now }
{
    if equals(text, b"int") {
        Terminal::Int
    } else if equals(text, b"void") {
        Terminal::Void
    } else if equals(text, b"return") {
        Terminal::Return
    } else if is_keyword(text) {
        Terminal::Foreign
    } else {
        Terminal::Name
    }
}

/// A punctuator's terminal, by its one byte.
fn mark_of(byte: u8) -> Terminal
    ensures { result ≡ meaning.mark_of byte }
{
    match byte {
        b'(' => Terminal::Open,
        b')' => Terminal::Close,
        b'{' => Terminal::Begin,
        b'}' => Terminal::End,
        b',' => Terminal::Comma,
        b';' => Terminal::Semicolon,
        b'=' => Terminal::Equals,
        b'+' => Terminal::Plus,
        b'-' => Terminal::Minus,
        b'*' => Terminal::Star,
        b'/' => Terminal::Slash,
        _ => Terminal::Foreign,
    }
}

/// A punctuator's terminal.
fn mark(text: &[u8]) -> Terminal
    ensures { result ≡ meaning.mark text.now }
{
    match text {
        [byte] => mark_of(*byte),
        _ => Terminal::Foreign,
    }
}

/// A number's terminal.
#[tactic(auto, using(crate::proofs::TerminalLaws::number_is, crate::proofs::TerminalLaws::number_none))]
fn number(text: &[u8]) -> Terminal
    ensures { result ≡ meaning.number text.now }
{
    match number_value(text) {
        Some(value) => Terminal::Number(value),
        None => Terminal::Foreign,
    }
}

/// The terminal of a token.
#[tactic(auto, unfolding(crate::specs::Terminals::terminal))]
pub(crate) fn terminal_of(token: &Token) -> Terminal
    ensures { result ≡ meaning.terminal token.now }
{
    let text = token.text.as_slice();
    match token.kind {
        Kind::Name => word(text),
        Kind::Number => number(text),
        Kind::Punct => mark(text),
        Kind::Char | Kind::String | Kind::Unclosed | Kind::Header | Kind::Other =>
            Terminal::Foreign,
    }
}

/// The first token, and those behind it.
pub(crate) fn first<'a>(tokens: &'a [Token]) -> Option<(&'a Token, &'a [Token])>
    ensures { MatchOption result (tokens.now ≡ []) (λ x. tokens.now ≡ x.0.now ∷ x.1.now) }
{
    match tokens {
        [] => None,
        [token, rest @ ..] => Some((token, rest)),
    }
}

/// What stands behind a token of this terminal.
pub(crate) fn after_terminal<'a>(wanted: Terminal, tokens: &'a [Token]) -> Option<&'a [Token]>
    ensures { MatchOption result (NoTerminal wanted tokens.now)
        (λ rest. TerminalAt wanted tokens.now rest.now) }
{
    let (token, rest) = first(tokens)?;
    if terminal_of(token) == wanted {
        Some(rest)
    } else {
        None
    }
}
