//! What a token is to the grammar.
ghost use Rattle.std.specs.Prelude.{◌≡◌, IfOk, OnOk};
ghost use Rattle.cx_terminals.specs.Terminals.{keywords, looked_up, mark_terminal, punctuators, terminal_of, word_terminal};
ghost use Rattle.cx_terminals.specs.Shapes.Names.{with_identifier, with_word};

use crate::keywords::keyword;
use crate::names::Names;
use crate::punctuators::punctuator;
use cx_base::NoMemory;
use cx_syntax_tree::Terminal;
use cx_tokens::{Kind, Token};

/// The terminal symbol of a punctuator.
fn mark(text: &[u8]) -> Terminal
    ensures { result ≡ mark_terminal (looked_up text.now punctuators) }
{
    match punctuator(text) {
        Some(mark) => Terminal::Punctuator(mark),
        None => Terminal::Foreign,
    }
}

/// The terminal symbol of a word. An identifier is put among the names.
#[tactic(auto, using(crate::proofs::NameLaws::put_at))]
fn word<'a>(names: &mut Names<'a>, text: &'a [u8]) -> Result<Terminal, NoMemory>
    ensures names { OnOk result (names.new ≡ with_word names.old text.now) }
    ensures terminal { IfOk result
        (λ t. t ≡ word_terminal names.new text.now (looked_up text.now keywords)) }
{
    match keyword(text) {
        Some(word) => Ok(Terminal::Keyword(word)),
        None => Ok(Terminal::Name(names.number_of(text)?)),
    }
}

/// The terminal symbol of a token. An identifier is put among the names.
#[tactic(auto, unfolding(crate::specs::Terminals::terminal_of, crate::specs::Terminals::is_identifier))]
pub(crate) fn terminal<'a>(names: &mut Names<'a>, token: &'a Token) -> Result<Terminal, NoMemory>
    ensures names { OnOk result (names.new ≡ with_identifier names.old token.now) }
    ensures terminal { IfOk result (λ t. t ≡ terminal_of names.new token.now) }
{
    let text = token.text.as_slice();
    match token.kind {
        Kind::Name => word(names, text),
        Kind::Number => Ok(Terminal::Number),
        Kind::Char => Ok(Terminal::Char),
        Kind::String => Ok(Terminal::String),
        Kind::Punct => Ok(mark(text)),
        Kind::Unclosed | Kind::Header | Kind::Other => Ok(Terminal::Foreign),
    }
}
