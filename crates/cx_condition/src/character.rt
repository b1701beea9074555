//! Character constants (C11 6.4.4.4).
ghost use Rattle.std.specs.Prelude.{◌≡◌};
ghost use Rattle.cx_condition.specs.Constants.{character_value, closed, content, escape, numeric_escape, simple_escape};

use crate::bytes::first;
use crate::digits::{Base, begins_with_digit, digits, is_digit};

// The quote that ends a character constant.
const QUOTE: &[u8] = b"'";

#[tactic(auto, unfolding(crate::specs::Constants::closed))]
fn closed(value: u8, text: &[u8]) -> Option<u8>
    ensures { result ≡ closed value text.now }
{
    if text == QUOTE {
        return Some(value);
    }
    None
}

#[tactic(auto, unfolding(crate::specs::Constants::simple_escape))]
fn simple_escape(byte: u8) -> Option<u8>
    ensures { result ≡ simple_escape byte }
{
    match byte {
        b'\'' | b'"' | b'?' | b'\\' => Some(byte),
        b'a' => Some(7),
        b'b' => Some(8),
        b'f' => Some(12),
        b'n' => Some(10),
        b'r' => Some(13),
        b't' => Some(9),
        b'v' => Some(11),
        _ => None,
    }
}

#[tactic(auto, using(crate::proofs::DigitLaws::escape_none, crate::proofs::DigitLaws::escape_great, crate::proofs::DigitLaws::escape_large, crate::proofs::DigitLaws::escape_some))]
fn numeric_escape(base: Base, text: &[u8]) -> Option<u8>
    ensures { result ≡ numeric_escape base text.now }
{
    if !begins_with_digit(base, text) {
        return None;
    }
    let (value, rest) = digits(base, text)?;
    if value > 255 {
        return None;
    }
    closed(value as u8, rest)
}

// What is behind a backslash.
#[tactic(auto, unfolding(crate::specs::Constants::escape))]
fn escape(text: &[u8]) -> Option<u8>
    ensures { result ≡ escape text.now }
{
    let (byte, rest) = first(text)?;
    if byte == b'x' {
        return numeric_escape(Base::Hexadecimal, rest);
    }
    if is_digit(Base::Octal, byte) {
        if rest.len() > 3 {
            return None;
        }
        return numeric_escape(Base::Octal, text);
    }
    let value = simple_escape(byte)?;
    closed(value, rest)
}

// What is behind the quote.
#[tactic(auto, unfolding(crate::specs::Constants::content))]
fn content(text: &[u8]) -> Option<u8>
    ensures { result ≡ content text.now }
{
    let (byte, rest) = first(text)?;
    if byte == b'\\' {
        return escape(rest);
    }
    if byte == b'\'' {
        return None;
    }
    closed(byte, rest)
}

/// The byte that a character constant is, or `None` where there is not one byte or escape
/// sequence between its quotes, or its escape sequence has a value above 255.
#[tactic(auto, unfolding(crate::specs::Constants::character_value))]
pub fn character_value(text: &[u8]) -> Option<u8>
    ensures { result ≡ character_value text.now }
{
    let (quote, rest) = first(text)?;
    if quote != b'\'' {
        return None;
    }
    content(rest)
}
