//! Bytes that are one preprocessing token.
ghost use Rattle.std.specs.Prelude.{◌≡◌, ℕ, List as list, IfOk, MatchOption};
ghost use Rattle.cx_tokens.specs.declared.token.Kind.{Kind as kind_type};
ghost use Rattle.cx_lex.specs.Lexing.{IsOnePiece};

use crate::before::Directive;
use crate::cursor::Cursor;
use crate::front::{Front, front_element};
use crate::piece::plain_form;
use cx_base::{NoMemory, Text};
use cx_tokens::Kind;
use std::alloc::Global;

/// The kind and the text of the piece that the bytes are, where they are one piece and nothing
/// else, as those that a `##` makes are to be (C11 6.10.3.3, paragraph 3). Bytes that are too many
/// to be counted by places, 4,294,967,295 or more, are answered as want of memory.
pub fn one_piece(alloc: Global, bytes: &[u8]) -> Result<Option<(Kind, Text)>, NoMemory>
    ensures { IfOk result (λ found. MatchOption found
        ((kind : kind_type) (text : list ℕ) → ¬ IsOnePiece bytes.now kind text)
        (λ piece. IsOnePiece bytes.now piece.0 piece.1)) }
{
    if bytes.len() >= u32::MAX as usize {
        return Err(NoMemory);
    }
    let mut cursor = Cursor::new(bytes, 0);
    let front = front_element(alloc, Directive::Nothing, &mut cursor)?;
    let Front::OfPiece(_, kind, spelled) = front else {
        return Ok(None);
    };
    match cursor.peek() {
        Some(_) => Ok(None),
        None => {
            let text = plain_form(alloc, kind, spelled)?;
            Ok(Some((kind, text)))
        }
    }
}

/// Bytes are one piece in one way at most.
pub fn one_kind()
    ensures { (bytes : list ℕ) (some other : kind_type) (text second : list ℕ)
        → IsOnePiece bytes some text → IsOnePiece bytes other second
        → (some ≡ other) × (text ≡ second) }
{}
