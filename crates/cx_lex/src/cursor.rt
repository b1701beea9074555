//! A walk over the characters of a source.
ghost use Rattle.std.specs.Prelude.{◌≡◌, ℕ, ◌+◌, ◌<◌, ◌≤◌, ◌^◌, List as list, [], ◌∷◌, Some, None, MatchOption, IfSome, true, false, not, ◌&&◌, length};
ghost use Rattle.cx_base.specs.declared.place.Place.{Place as place_type};
ghost use Rattle.cx_lex.specs.declared.character.Character.{Character as character};
ghost use Rattle.cx_lex.specs.Lines.{begins_with_newline, characters, file_start, next_line, place_after, place_limit};
ghost use Rattle.cx_lex.specs.Shapes.Scanning.{is_barren, rest_after};
ghost use Rattle.cx_lex.specs.Shapes.Walking.{AfterNewline, IsKept};

use crate::bytes::first;
use crate::character::Character;
use cx_base::Place;
use std::marker::Model;

/// The characters that are left of a source. Deleted newlines are passed on the way.
#[derive(Drop)]
pub struct Cursor<'a> {
    rest: &'a [u8],
    place: Place,
    // Whether a search has found that no `>` is left on the line, so that it is not made again.
    barren: bool,
}

impl<'a> Model for Cursor<'a> {
    ghost use Rattle.std.specs.Prelude.{◌≡◌, ◌+◌, ◌<◌, ◌^◌, List, length, true};
    ghost use Rattle.cx_lex.specs.declared.character.Character.{Character};
    ghost use Rattle.cx_lex.specs.Lines.{characters};
    ghost use Rattle.cx_lex.specs.Shapes.Scanning.{is_barren};

    ghost Value = { List Character };

    ghost view = { λ c. characters c.place c.rest.now };

    ghost invariant = { λ c. (c.place.line + length c.rest.now < 2 ^ 32)
        × (c.place.column + length c.rest.now < 2 ^ 32)
        × (c.barren ≡ true → is_barren (characters c.place c.rest.now) ≡ true) };
}

impl<'a> Cursor<'a> {
    /// The characters of a file.
    pub fn new(bytes: &'a [u8], file: u32) -> Cursor<'a>
        requires { length bytes.now < place_limit }
        ensures { result ≡ characters (file_start file) bytes.now }
    {
        Cursor {
            rest: bytes,
            place: Place {
                file,
                line: 1,
                column: 1,
            },
            barren: false,
        }
    }

    /// A second cursor over the same characters.
    pub fn copy(&self) -> Cursor<'a>
        ensures { result ≡ self.now }
    {
        Cursor {
            rest: self.rest,
            place: self.place,
            barren: self.barren,
        }
    }

    /// Passes the next character.
    #[tactic(auto, using(crate::proofs::Walk::barren_behind))]
    pub fn next(&mut self) -> Option<Character>
        ensures { MatchOption result (self.old ≡ [] × self.new ≡ [])
            (λ c. self.old ≡ c ∷ self.new) }
    {
        let step = next_character(self.rest, self.place)?;
        self.rest = step.rest;
        self.place = step.place;
        self.barren = stays_barren(self.barren, step.character.in_newline);
        Some(step.character)
    }

    /// The next character.
    pub fn peek(&self) -> Option<Character>
        ensures { MatchOption result (self.now ≡ [])
            (λ c. (rest : list character) × (self.now ≡ c ∷ rest)) }
    {
        self.copy().next()
    }

    /// What is left after these bytes, where they stand in front.
    #[tactic(auto, using(crate::proofs::Behinds::behind_nothing, crate::proofs::Behinds::behind_end, crate::proofs::Behinds::behind_same, crate::proofs::Behinds::behind_other))]
    pub fn rest_after(&self, word: &[u8]) -> Option<Cursor<'a>>
        ensures { MatchOption result (rest_after word.now self.now ≡ None)
            (λ rest. rest_after word.now self.now ≡ Some rest) }
    {
        let mut ahead = self.copy();
        let mut left = word;
        while let Some((byte, more)) = first(left) {
            let Some(next) = ahead.next() else {
                return None;
            };
            if next.code != byte {
                return None;
            }
            left = more;
        }
        Some(ahead)
    }

    /// Whether no `>` is left on the line, as far as a search has found.
    pub fn is_barren(&self) -> bool
        ensures { result ≡ true → is_barren self.now ≡ true }
    {
        self.barren
    }

    /// Notes that no `>` is left on the line.
    pub fn note_barren(&mut self)
        requires { is_barren self.old ≡ true }
        ensures { self.new ≡ self.old }
    {
        self.barren = true;
    }
}

// The next character, and what stands after it.
#[derive(Drop)]
struct Step<'a> {
    character: Character,
    rest: &'a [u8],
    place: Place,
}

#[tactic(auto, using(crate::proofs::Walk::characters_end, crate::proofs::Walk::characters_kept))]
fn next_character<'a>(bytes: &'a [u8], at: Place) -> Option<Step<'a>>
    requires line { at.line + length bytes.now < 2 ^ 32 }
    requires column { at.column + length bytes.now < 2 ^ 32 }
    ensures characters { MatchOption result (characters at bytes.now ≡ [])
        (λ s. characters at bytes.now ≡ s.character ∷ characters s.place s.rest.now) }
    ensures line { IfSome result (λ s. s.place.line + length s.rest.now < 2 ^ 32) }
    ensures column { IfSome result (λ s. s.place.column + length s.rest.now < 2 ^ 32) }
{
    let mut rest = bytes;
    let mut place = at;
    while let Some(more) = after_deleted(rest) {
        rest = more;
        place = next_line(place);
    }
    let (code, more) = first(rest)?;
    let character = Character {
        code,
        in_newline: is_newline(rest),
        place,
    };
    Some(Step {
        character,
        rest: more,
        place: place_after(place, code),
    })
}

// What stands after the deleted newline in front, where there is one.
#[tactic(auto, using(crate::proofs::Walk::characters_deleted))]
fn after_deleted<'a>(bytes: &'a [u8]) -> Option<&'a [u8]>
    ensures rest { MatchOption result (IsKept bytes.now)
        (λ rest. (at : place_type) → characters at bytes.now ≡ characters (next_line at) rest.now) }
    ensures shorter { IfSome result (λ rest. length rest.now < length bytes.now) }
{
    let (code, more) = first(bytes)?;
    if code != b'\\' {
        return None;
    }
    after_newline(more)
}

// What stands after the newline in front, where there is one.
#[tactic(auto, using(crate::proofs::Walk::newline_one, crate::proofs::Walk::newline_two))]
fn after_newline<'a>(bytes: &'a [u8]) -> Option<&'a [u8]>
    ensures { MatchOption result (begins_with_newline bytes.now ≡ false)
        (λ rest. AfterNewline bytes.now rest.now) }
{
    let (code, more) = first(bytes)?;
    if code == b'\n' {
        return Some(more);
    }
    if code != b'\r' {
        return None;
    }
    let (next, rest) = first(more)?;
    if next != b'\n' {
        return None;
    }
    Some(rest)
}

// Whether what was found of a line holds after a character too.
fn stays_barren(barren: bool, in_newline: bool) -> bool
    ensures { result ≡ true → (barren ≡ true) × (in_newline ≡ false) }
{
    barren && !in_newline
}

// Whether a newline stands in front.
fn is_newline(bytes: &[u8]) -> bool
    ensures { result ≡ begins_with_newline bytes.now }
{
    match after_newline(bytes) {
        None => false,
        Some(_) => true,
    }
}

fn next_line(at: Place) -> Place
    requires { at.line + 1 < 2 ^ 32 }
    ensures { result ≡ next_line at }
{
    Place {
        file: at.file,
        line: at.line + 1,
        column: 1,
    }
}

// The place after a character that is not deleted.
#[tactic(auto, unfolding(crate::specs::Lines::place_after))]
fn place_after(at: Place, code: u8) -> Place
    requires line { at.line + 1 < 2 ^ 32 }
    requires column { at.column + 1 < 2 ^ 32 }
    ensures place { result ≡ place_after at code }
    ensures line { result.line ≤ at.line + 1 }
    ensures column { result.column ≤ at.column + 1 }
{
    if code == b'\n' {
        return next_line(at);
    }
    Place {
        file: at.file,
        line: at.line,
        column: at.column + 1,
    }
}
