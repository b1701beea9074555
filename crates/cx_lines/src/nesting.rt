//! How the sections of conditional inclusion nest (C11 6.10).
ghost use Rattle.std.specs.Prelude.{◌≡◌, ◌+◌, ◌<◌, ◌≤◌, [], ◌∷◌, IfOk, IfSome, MatchOption, length};
ghost use Rattle.cx_lines.specs.Lines.{lines_of};
ghost use Rattle.cx_lines.specs.Nesting.{after_section, extent_of, from_part, place_of};
ghost use Rattle.cx_lines.specs.Nesting as nesting;
ghost use Rattle.cx_lines.specs.Shapes.Counting.{nested_after};

use crate::kind::{LineKind, kind_of};
use crate::lines::{before, first_line};
use crate::sections::OpenSections;
use cx_base::{NoMemory, Place};
use cx_lex::Piece;
use std::alloc::Global;

/// Why lines do not nest.
#[derive(Clone, Copy, Debug, PartialEq, Eq)]
pub enum NestingFault {
    /// An `elif`, `else` or `endif` with no section that it goes on or ends.
    Stray { at: Place },
    /// The innermost section that is open at the end, at its first line.
    Unclosed { at: Place },
}

/// How far lines nest: up to a stray line, or all of them, of which the last sections may be open.
#[derive(Clone, Copy)]
pub struct Extent<'a> {
    /// The pieces of these lines.
    pub front: &'a [Piece],
    pub fault: Option<NestingFault>,
}

/// Where a line stands: its first piece.
#[tactic(auto, unfolding(crate::specs::Nesting::place_of))]
pub fn place_of(line: &[Piece]) -> Place
    ensures { result ≡ place_of line.now }
{
    match line.first() {
        None => Place {
            file: 0,
            line: 0,
            column: 0,
        },
        Some(piece) => piece.token.place,
    }
}

/// The lines from the one on that ends the group in which these stand: an `elif`, `else` or `endif`
/// outside of the sections nested in it.
pub fn from_part(lines: &[Piece]) -> &[Piece]
    ensures lines { from_part 0 (lines_of lines.now) ≡ lines_of result.now }
    ensures shorter { length result.now ≤ length lines.now }
{
    let mut nested: usize = 0;
    let mut rest = lines;
    while let Some((line, more)) = first_line(rest) {
        let kind = kind_of(line);
        if kind.ends_group() && nested == 0 {
            return rest;
        }
        nested = nested_after(nested, kind);
        rest = more;
    }
    rest
}

/// The lines after the `endif` of the section in which these stand.
pub fn after_section(lines: &[Piece]) -> &[Piece]
    ensures lines { after_section 0 (lines_of lines.now) ≡ lines_of result.now }
    ensures shorter { length result.now ≤ length lines.now }
{
    let mut nested: usize = 0;
    let mut rest = lines;
    while let Some((line, more)) = first_line(rest) {
        let kind = kind_of(line);
        rest = more;
        if kind.closes() && nested == 0 {
            return rest;
        }
        nested = nested_after(nested, kind);
    }
    rest
}

/// How many nested sections are open after a line.
#[tactic(auto, unfolding(crate::specs::Shapes::Counting::nested_after))]
fn nested_after(nested: usize, kind: LineKind) -> usize
    requires { nested < 18446744073709551615 }
    ensures count { result ≡ nested_after nested kind }
    ensures most { result ≤ nested + 1 }
{
    if kind.opens() {
        nested + 1
    } else if kind.closes() {
        nested.saturating_sub(1)
    } else {
        nested
    }
}

/// How far lines nest, from the first of them on.
pub fn extent_of<'a>(alloc: Global, lines: &'a [Piece]) -> Result<Extent<'a>, NoMemory>
    ensures { IfOk result (λ e. extent_of (lines_of lines.now)
        ≡ record { front = lines_of e.front.now; fault = e.fault }) }
{
    let mut sections = OpenSections::new(alloc);
    let mut rest = lines;
    while let Some((line, more)) = first_line(rest) {
        let kind = kind_of(line);
        if sections.is_stray(kind) {
            return Ok(Extent {
                front: before(lines, rest),
                fault: Some(NestingFault::Stray { at: place_of(line) }),
            });
        }
        sections.pass(kind, place_of(line))?;
        rest = more;
    }
    Ok(Extent {
        front: before(lines, rest),
        fault: sections.unclosed(),
    })
}
