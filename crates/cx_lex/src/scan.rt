//! How far a name, a number, a quoted text, a header name or a comment goes.
ghost use Rattle.std.specs.Prelude.{◌≡◌, ◌++◌, Some, None, IfOk, OnOk};
ghost use Rattle.cx_lex.specs.Lines.{bytes_of};
ghost use Rattle.cx_lex.specs.Shapes.Scanning.{block_step, closed_kind, header_step, is_closed, kept_if, quoted_step, scan_kind, scanned, step_of};

use crate::bytes::{goes_on, is_word};
use crate::character::Character;
use crate::cursor::Cursor;
use cx_base::{NoMemory, Text};
use cx_tokens::Kind;

/// What is being read.
#[derive(Clone, Copy, Debug, PartialEq, Eq)]
pub enum Scan {
    InName,
    /// A number, after this byte of it.
    InNumber(u8),
    /// A text after this quote; and whether a backslash pairs with the next byte.
    InQuotes(u8, bool),
    /// A header name that this byte ends.
    InHeader(u8),
    InLineComment,
    /// A comment; and whether a `*` of it stands directly before.
    InBlockComment(bool),
    /// What was being read has ended.
    Closed,
}

impl Scan {
    /// How it goes on with a character, or `None` where the character is no part of it.
    #[tactic(auto, unfolding(crate::specs::Shapes::Scanning::step_of))]
    fn step(self, next: Character) -> Option<Scan>
        ensures { result ≡ step_of self next }
    {
        match self {
            Scan::InName => kept_if(is_word(next.code), Scan::InName),
            Scan::InNumber(last) => kept_if(goes_on(last, next.code), Scan::InNumber(next.code)),
            Scan::InQuotes(quote, paired) => {
                kept_if(!next.in_newline, quoted_step(quote, paired, next.code))
            }
            Scan::InHeader(close) => kept_if(!next.in_newline, header_step(close, next.code)),
            Scan::InLineComment => kept_if(!next.in_newline, Scan::InLineComment),
            Scan::InBlockComment(star) => Some(block_step(star, next.code)),
            Scan::Closed => None,
        }
    }

    /// Whether it has ended.
    pub fn is_closed(self) -> bool
        ensures { result ≡ is_closed self }
    {
        matches!(self, Scan::Closed)
    }

    /// The kind of a piece that begins with this byte and ends so.
    #[tactic(auto, unfolding(crate::specs::Shapes::Scanning::scan_kind))]
    pub fn kind(self, begin: u8) -> Kind
        ensures { result ≡ scan_kind begin self }
    {
        match self {
            Scan::InName => Kind::Name,
            Scan::InNumber(_) => Kind::Number,
            Scan::Closed => closed_kind(begin),
            _ => Kind::Unclosed,
        }
    }
}

fn closed_kind(quote: u8) -> Kind
    ensures { result ≡ closed_kind quote }
{
    if quote == b'\'' {
        return Kind::Char;
    }
    Kind::String
}

#[tactic(auto, unfolding(crate::specs::Shapes::Scanning::kept_if))]
fn kept_if(keeps: bool, scan: Scan) -> Option<Scan>
    ensures { result ≡ kept_if keeps scan }
{
    if keeps {
        return Some(scan);
    }
    None
}

#[tactic(auto, unfolding(crate::specs::Shapes::Scanning::quoted_step))]
fn quoted_step(quote: u8, paired: bool, code: u8) -> Scan
    ensures { result ≡ quoted_step quote paired code }
{
    if paired {
        return Scan::InQuotes(quote, false);
    }
    if code == quote {
        return Scan::Closed;
    }
    Scan::InQuotes(quote, code == b'\\')
}

fn header_step(close: u8, code: u8) -> Scan
    ensures { result ≡ header_step close code }
{
    if code == close {
        return Scan::Closed;
    }
    Scan::InHeader(close)
}

fn block_step(star: bool, code: u8) -> Scan
    ensures { result ≡ block_step star code }
{
    if star && code == b'/' {
        return Scan::Closed;
    }
    Scan::InBlockComment(code == b'*')
}

/// A text with what belongs to it after the bytes so far, and how the reading ended.
#[derive(Drop)]
pub struct Scanned {
    pub text: Text,
    pub end: Scan,
}

/// Passes the characters that belong to what is being read, and adds them to the text so far.
#[tactic(auto, using(crate::proofs::Scans::reads_more, crate::proofs::Scans::reads_end, crate::proofs::Scans::reads_stop))]
pub fn read_on(so_far: Text, begin: Scan, cursor: &mut Cursor) -> Result<Scanned, NoMemory>
    ensures text { IfOk result (λ s. s.text ≡ so_far ++ bytes_of (scanned begin cursor.old).taken) }
    ensures end { IfOk result (λ s. s.end ≡ (scanned begin cursor.old).end) }
    ensures rest { OnOk result (cursor.new ≡ (scanned begin cursor.old).rest) }
{
    let mut text = so_far;
    let mut end = begin;
    let mut ahead = cursor.copy();
    while let Some(next) = ahead.next() {
        let Some(more) = end.step(next) else {
            return Ok(Scanned { text, end });
        };
        text.push(next.code)?;
        end = more;
        *cursor = ahead.copy();
    }
    Ok(Scanned { text, end })
}
