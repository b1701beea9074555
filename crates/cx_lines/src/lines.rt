//! The lines of a source.
ghost use Rattle.std.specs.Prelude.{◌≡◌, ◌<◌, ◌≤◌, [], ◌∷◌, ◌++◌, true, MatchOption, IfSome, length};
ghost use Rattle.std.specs.List.{position, position_or_len};
ghost use Rattle.cx_lines.specs.Kinds.{after_text, begins_text, front_text};
ghost use Rattle.cx_lines.specs.Lines.{lines_of};
ghost use Rattle.cx_lines.specs.Shapes.Cuts.{BeginsLine, IsCut};

use crate::kind::kind_of;
use cx_lex::Piece;

/// The index of the first piece that is the first on its line.
fn next_line(pieces: &[Piece]) -> Option<usize>
    ensures { result ≡ position (λ p. p.first_on_line) pieces.now }
{
    pieces.iter().position(|piece| piece.first_on_line)
}

/// How many pieces stand before the first that is the first on its line, or all.
fn rest_of_line(pieces: &[Piece]) -> usize
    ensures length { result ≡ position_or_len (λ p. p.first_on_line) pieces.now }
    ensures within { result ≤ length pieces.now }
{
    match next_line(pieces) {
        None => pieces.len(),
        Some(index) => index,
    }
}

/// The first line of pieces, and the pieces of the lines after it.
pub fn first_line(pieces: &[Piece]) -> Option<(&[Piece], &[Piece])>
    ensures lines { MatchOption result (pieces.now ≡ [])
        (λ x. lines_of pieces.now ≡ x.0.now ∷ lines_of x.1.now) }
    ensures whole { IfSome result (λ x. pieces.now ≡ x.0.now ++ x.1.now) }
    ensures next { IfSome result (λ x. BeginsLine x.1.now) }
    ensures shorter { IfSome result (λ x. length x.1.now < length pieces.now) }
{
    let (_, rest) = pieces.split_first()?;
    let length = rest_of_line(rest);
    let (_, behind) = rest.split_at(length);
    Some((&pieces[..length + 1], behind))
}

/// The pieces before the rest of them.
pub(crate) fn before<'a>(lines: &'a [Piece], rest: &[Piece]) -> &'a [Piece]
    requires { IsCut lines.now rest.now }
    ensures { (c : IsCut lines.now rest.now) → result.now ≡ c.front }
{
    let (front, _) = lines.split_at(lines.len() - rest.len());
    front
}

/// The text in front of lines, up to the first directive, and the lines from that on.
pub fn front_text(lines: &[Piece]) -> (&[Piece], &[Piece])
    ensures front { front_text (lines_of lines.now) ≡ lines_of result.0.now }
    ensures after { after_text (lines_of lines.now) ≡ lines_of result.1.now }
    ensures shorter { begins_text (lines_of lines.now) ≡ true
        → length result.1.now < length lines.now }
{
    let mut rest = lines;
    while let Some((line, more)) = first_line(rest) {
        if !kind_of(line).is_text() {
            return (before(lines, rest), rest);
        }
        rest = more;
    }
    (before(lines, rest), rest)
}
