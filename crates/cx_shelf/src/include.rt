//! The names of the headers that a source includes (C11 6.10.2).
ghost use Rattle.std.specs.Prelude.{◌≡◌, IfOk, MatchOption, None, Some};
ghost use Rattle.cx_directive.specs.Operands.{header_name, target_of, tokens_of};
ghost use Rattle.cx_shelf.specs.Includes as includes;

use cx_base::{List, NoMemory};
use cx_directive::{IncludeName, header_name, operands};
use cx_lex::{Lexed, Piece};
use cx_lines::{LineKind, first_line, kind_of};
use cx_tokens::{Kind, Token};
use std::alloc::Global;

/// The token of a header's name in front of the operands of an `include`.
#[tactic(auto, unfolding(cx_directive::specs::Operands::target_of))]
fn header_in(operands: &[Piece]) -> Option<&Token>
    ensures { MatchOption result (includes.header_in (target_of (tokens_of operands.now)) ≡ None)
        (λ t. includes.header_in (target_of (tokens_of operands.now)) ≡ Some (header_name t.now)) }
{
    match operands.first() {
        Some(first) if first.token.kind == Kind::Header => Some(&first.token),
        _ => None,
    }
}

/// The token of a header's name, where a line is a directive `include` with one.
fn header_of(line: &[Piece]) -> Option<&Token>
    ensures { MatchOption result (includes.include_name_of line.now ≡ None)
        (λ t. includes.include_name_of line.now ≡ Some (header_name t.now)) }
{
    match kind_of(line) {
        LineKind::Include => header_in(operands(line)),
        _ => None,
    }
}

/// The names of the headers that the directives `include` of a source have, in order, whatever
/// groups these stand in.
#[tactic(auto, unfolding(crate::specs::Includes::includes_of))]
pub fn includes_of(alloc: Global, lexed: &Lexed) -> Result<List<IncludeName>, NoMemory>
    ensures { IfOk result (λ names. names ≡ includes.includes_of lexed.now.pieces) }
{
    let mut names = List::new(alloc);
    let mut pieces = lexed.pieces.as_slice();
    while let Some((line, rest)) = first_line(pieces) {
        if let Some(header) = header_of(line) {
            names.push(header_name(alloc, header)?)?;
        }
        pieces = rest;
    }
    Ok(names)
}
