//! The element that stands in front of a text.
ghost use Rattle.std.specs.Prelude.{◌≡◌, List as list, ◌∷◌, IfOk, OnOk, ◌&&◌, ◌||◌, ◌==◌};
ghost use Rattle.cx_lex.specs.declared.character.Character.{Character as character};
ghost use Rattle.cx_lex.specs.declared.scan.Scan.TheVariants.{InHeader};
ghost use Rattle.cx_lex.specs.Characters.{is_digit};
ghost use Rattle.cx_lex.specs.Elements.{is_separator};
ghost use Rattle.cx_lex.specs.Shapes.Fronts.{comment_at, comment_scan, element_at, front_of, header_close, header_rest, header_text, piece_at, piece_scan, plain_piece, punctuator_or_byte, rest_of, solid_at, starts_digit};
ghost use Rattle.cx_lex.specs.Lexing.{place_of};
ghost use Rattle.cx_lex.specs.Shapes.Scanning.{longest, scanned, table};

use crate::before::Directive;
use crate::bytes::{is_digit, is_nondigit};
use crate::character::Character;
use crate::cursor::Cursor;
use crate::punctuator::punctuator;
use crate::scan::{Scan, read_on};
use cx_base::{NoMemory, Place, Text};
use cx_tokens::Kind;
use std::alloc::Global;

/// What stands in front of a text.
#[derive(Drop)]
pub enum Front {
    /// Nothing: the text is at its end.
    AtEnd,
    /// A separator, which may belong to a newline.
    Separator(bool),
    /// A comment, by its place and its text.
    OfComment(Place, Text),
    /// A piece, by its place, its kind and its spelling.
    OfPiece(Place, Kind, Text),
    /// A comment that has no end, and that begins at this place.
    OpenComment(Place),
}

/// Passes the element in front.
#[tactic(auto, unfolding(crate::specs::Shapes::Fronts::element_at, crate::specs::Shapes::Fronts::front_of, crate::specs::Shapes::Fronts::rest_of))]
pub fn front_element(
    alloc: Global,
    directive: Directive,
    cursor: &mut Cursor,
) -> Result<Front, NoMemory>
    ensures front { IfOk result (λ f. f ≡ front_of (element_at directive cursor.old)) }
    ensures rest { OnOk result (cursor.new ≡ rest_of (element_at directive cursor.old)) }
{
    let Some(begin) = cursor.next() else {
        return Ok(Front::AtEnd);
    };
    if is_separator(begin) {
        return Ok(Front::Separator(begin.in_newline));
    }
    solid(alloc, directive, begin, cursor)
}

// A newline, or a space, a tab, a vertical tab or a form feed.
#[tactic(auto, unfolding(crate::specs::Elements::is_separator))]
fn is_separator(c: Character) -> bool
    ensures { result ≡ is_separator c }
{
    c.in_newline || matches!(c.code, b' ' | b'\t' | 11 | 12)
}

// A comment or a piece that begins with a character.
#[tactic(auto, unfolding(crate::specs::Shapes::Fronts::solid_at))]
fn solid(
    alloc: Global,
    directive: Directive,
    begin: Character,
    cursor: &mut Cursor,
) -> Result<Front, NoMemory>
    ensures front { IfOk result (λ f. f ≡ front_of (solid_at directive begin cursor.old)) }
    ensures rest { OnOk result (cursor.new ≡ rest_of (solid_at directive begin cursor.old)) }
{
    let mut ahead = cursor.copy();
    let Some(second) = ahead.next() else {
        return piece(alloc, directive, begin, cursor);
    };
    let Some(reading) = comment_scan(begin.code, second.code) else {
        return piece(alloc, directive, begin, cursor);
    };
    *cursor = ahead;
    comment(alloc, begin.place, reading, cursor)
}

// How a comment is read after its opening.
#[tactic(auto, unfolding(crate::specs::Shapes::Fronts::comment_scan))]
fn comment_scan(begin: u8, second: u8) -> Option<Scan>
    ensures { result ≡ comment_scan begin second }
{
    if begin != b'/' {
        return None;
    }
    match second {
        b'/' => Some(Scan::InLineComment),
        b'*' => Some(Scan::InBlockComment(false)),
        _ => None,
    }
}

// A comment after its opening.
#[tactic(auto, using(crate::proofs::Texts::but_two_bytes), unfolding(crate::specs::Shapes::Fronts::comment_at, crate::specs::Shapes::Fronts::front_of, crate::specs::Shapes::Fronts::rest_of))]
fn comment(
    alloc: Global,
    place: Place,
    reading: Scan,
    cursor: &mut Cursor,
) -> Result<Front, NoMemory>
    ensures front { IfOk result (λ f. (opening : list character) → place_of opening ≡ place
        → f ≡ front_of (comment_at opening (scanned reading cursor.old))) }
    ensures rest { OnOk result ((opening : list character)
        → cursor.new ≡ rest_of (comment_at opening (scanned reading cursor.old))) }
{
    let scanned = read_on(Text::new(alloc), reading, cursor)?;
    let mut text = scanned.text;
    match scanned.end {
        Scan::Closed => {
            // Its `*/` was read with it.
            let length = text.len().saturating_sub(2);
            text.truncate(length);
            Ok(Front::OfComment(place, text))
        }
        Scan::InBlockComment(_) => Ok(Front::OpenComment(place)),
        _ => Ok(Front::OfComment(place, text)),
    }
}

// A piece that begins with a character.
#[tactic(auto, unfolding(crate::specs::Shapes::Fronts::piece_at, crate::specs::Shapes::Fronts::header_or, crate::specs::Shapes::Fronts::front_of, crate::specs::Shapes::Fronts::rest_of))]
fn piece(
    alloc: Global,
    directive: Directive,
    begin: Character,
    cursor: &mut Cursor,
) -> Result<Front, NoMemory>
    ensures front { IfOk result (λ f. f ≡ front_of (piece_at directive begin cursor.old)) }
    ensures rest { OnOk result (cursor.new ≡ rest_of (piece_at directive begin cursor.old)) }
{
    let Some(close) = header_close(directive, begin.code) else {
        return plain_piece(alloc, begin, cursor);
    };
    let Some(text) = header(alloc, begin, close, cursor)? else {
        return plain_piece(alloc, begin, cursor);
    };
    Ok(Front::OfPiece(begin.place, Kind::Header, text))
}

// The byte that ends the header name that a byte begins, where one is to stand there.
#[tactic(auto, unfolding(crate::specs::Shapes::Fronts::header_close))]
fn header_close(directive: Directive, begin: u8) -> Option<u8>
    ensures { result ≡ header_close directive begin }
{
    match directive {
        Directive::Include => match begin {
            b'<' => Some(b'>'),
            b'"' => Some(b'"'),
            _ => None,
        },
        _ => None,
    }
}

// Passes the header name that a character begins, where it ends on the line.
#[tactic(auto, using(crate::proofs::Barren::barren_open, crate::proofs::Barren::open_barren))]
fn header(
    alloc: Global,
    begin: Character,
    close: u8,
    cursor: &mut Cursor,
) -> Result<Option<Text>, NoMemory>
    ensures text { IfOk result
        (λ text. text ≡ header_text begin (scanned (InHeader close) cursor.old)) }
    ensures rest { OnOk result
        (cursor.new ≡ header_rest cursor.old (scanned (InHeader close) cursor.old)) }
{
    if close == b'>' && cursor.is_barren() {
        return Ok(None);
    }
    let mut ahead = cursor.copy();
    let text = Text::from_slice(alloc, &[begin.code])?;
    let scanned = read_on(text, Scan::InHeader(close), &mut ahead)?;
    if scanned.end.is_closed() {
        *cursor = ahead;
        return Ok(Some(scanned.text));
    }
    if close == b'>' {
        cursor.note_barren();
    }
    Ok(None)
}

// A piece that is no header name.
#[tactic(auto, unfolding(crate::specs::Shapes::Fronts::plain_piece, crate::specs::Shapes::Fronts::front_of, crate::specs::Shapes::Fronts::rest_of))]
fn plain_piece(alloc: Global, begin: Character, cursor: &mut Cursor) -> Result<Front, NoMemory>
    ensures front { IfOk result (λ f. f ≡ front_of (plain_piece begin cursor.old)) }
    ensures rest { OnOk result (cursor.new ≡ rest_of (plain_piece begin cursor.old)) }
{
    let Some(reading) = piece_scan(begin.code, cursor) else {
        return punctuator_or_byte(alloc, begin, cursor);
    };
    let text = Text::from_slice(alloc, &[begin.code])?;
    let scanned = read_on(text, reading, cursor)?;
    let kind = scanned.end.kind(begin.code);
    Ok(Front::OfPiece(begin.place, kind, scanned.text))
}

// How a piece is read after its first byte.
#[tactic(auto, unfolding(crate::specs::Shapes::Fronts::piece_scan))]
fn piece_scan(begin: u8, cursor: &Cursor) -> Option<Scan>
    ensures { result ≡ piece_scan begin cursor.now }
{
    if begin == b'\'' || begin == b'"' {
        return Some(Scan::InQuotes(begin, false));
    }
    if is_nondigit(begin) {
        return Some(Scan::InName);
    }
    if begins_number(begin, cursor) {
        return Some(Scan::InNumber(begin));
    }
    None
}

// Whether a number begins with this byte: a digit, or `.` with a digit after it.
fn begins_number(begin: u8, cursor: &Cursor) -> bool
    ensures { result ≡ (is_digit begin || ((begin == 46) && starts_digit cursor.now)) }
{
    if is_digit(begin) {
        return true;
    }
    if begin != b'.' {
        return false;
    }
    match cursor.peek() {
        None => false,
        Some(next) => is_digit(next.code),
    }
}

// A punctuator, or any other byte.
#[tactic(auto, unfolding(crate::specs::Shapes::Fronts::front_of, crate::specs::Shapes::Fronts::rest_of))]
fn punctuator_or_byte(
    alloc: Global,
    begin: Character,
    cursor: &mut Cursor,
) -> Result<Front, NoMemory>
    ensures front { IfOk result (λ f. f
        ≡ front_of (punctuator_or_byte begin cursor.old (longest table begin cursor.old))) }
    ensures rest { OnOk result (cursor.new
        ≡ rest_of (punctuator_or_byte begin cursor.old (longest table begin cursor.old))) }
{
    let Some(text) = punctuator(alloc, begin, cursor)? else {
        let text = Text::from_slice(alloc, &[begin.code])?;
        return Ok(Front::OfPiece(begin.place, Kind::Other, text));
    };
    Ok(Front::OfPiece(begin.place, Kind::Punct, text))
}
