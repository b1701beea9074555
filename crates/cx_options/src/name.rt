//! The names of macros, and their definitions.
ghost use Rattle.std.specs.Prelude.{◌≡◌, [], ◌∷◌, MatchOption, IfOk};
ghost use Rattle.std.specs.List.{list_all};
ghost use Rattle.cx_options.specs.Arguments.{definition, is_name, is_nondigit, is_word_byte};

use cx_base::{Define, NoMemory, Text};
use std::alloc::Global;

fn is_nondigit(byte: u8) -> bool
    ensures { result ≡ is_nondigit byte }
{
    byte.is_ascii_alphabetic() || byte == b'_'
}

fn is_word_byte(byte: u8) -> bool
    ensures { result ≡ is_word_byte byte }
{
    byte.is_ascii_alphanumeric() || byte == b'_'
}

fn are_word_bytes(bytes: &[u8]) -> bool
    ensures { result ≡ list_all is_word_byte bytes.now }
{
    bytes.iter().all(|byte| is_word_byte(*byte))
}

/// Whether a text is the name of a macro: an identifier (C11 6.4.2.1).
#[tactic(auto, unfolding(crate::specs::Arguments::is_name))]
pub fn is_name(text: &[u8]) -> bool
    ensures { result ≡ is_name text.now }
{
    match text {
        [] => false,
        [byte, bytes @ ..] => is_nondigit(*byte) && are_word_bytes(bytes),
    }
}

// The name and the text of a macro, from `NAME` or `NAME=TEXT`.
#[tactic(auto, unfolding(crate::specs::Arguments::definition))]
fn parts(text: &str) -> (&str, &str)
    ensures name { result.0.now ≡ (definition text.now).name }
    ensures value { result.1.now ≡ (definition text.now).value }
{
    match text.split_once('=') {
        Some((name, value)) => (name, value),
        None => (text, "1"),
    }
}

/// The macro that `NAME` or `NAME=TEXT` defines.
pub fn definition(alloc: Global, text: &str) -> Result<Define, NoMemory>
    ensures { IfOk result (λ d. d ≡ definition text.now) }
{
    let (name, value) = parts(text);
    Ok(Define {
        name: Text::from_slice(alloc, name.as_bytes())?,
        value: Text::from_slice(alloc, value.as_bytes())?,
    })
}
