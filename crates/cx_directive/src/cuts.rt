//! Pieces, cut at a punctuator.
ghost use Rattle.std.specs.Prelude.{◌≡◌, ◌<◌, IfSome, length, option_map};
ghost use Rattle.std.specs.List.{position};
ghost use Rattle.cx_tokens.specs.Brackets.{is_punctuator};
ghost use Rattle.cx_directive.specs.Operands.{tokens_of};
ghost use Rattle.cx_directive.specs.Shapes.Cuts.{cut_at};

use cx_lex::Piece;
use cx_tokens::is_punctuator;

/// The index of the first punctuator of this text.
fn index_of(mark: &[u8], pieces: &[Piece]) -> Option<usize>
    ensures { result ≡ position (λ p. is_punctuator mark.now p.token) pieces.now }
{
    pieces
        .iter()
        .position(|piece| is_punctuator(mark, &piece.token))
}

/// The pieces before the first punctuator of this text, and those after it.
pub(crate) fn cut_at<'a>(mark: &[u8], pieces: &'a [Piece]) -> Option<(&'a [Piece], &'a [Piece])>
    ensures parts { option_map (λ x. (tokens_of x.0.now, tokens_of x.1.now)) result
        ≡ cut_at (is_punctuator mark.now) (tokens_of pieces.now) }
    ensures shorter { IfSome result (λ x. length x.1.now < length pieces.now) }
{
    let index = index_of(mark, pieces)?;
    Some((&pieces[..index], &pieces[index + 1..]))
}
