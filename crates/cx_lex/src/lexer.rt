//! The lexer: preprocessing tokens and comments of a source (C11 5.1.1.2, phases 1 to 3).
ghost use Rattle.std.specs.Prelude.{◌≡◌, ℕ, ◌<◌, List as list, [], length, IfOk, MatchResult};
ghost use Rattle.cx_tokens.specs.Digraphs.{is_digraph, plain_text};
ghost use Rattle.cx_base.specs.declared.place.Place.{Place as place_type};
ghost use Rattle.cx_lex.specs.declared.comment.Comment.{Comment as comment_type};
ghost use Rattle.cx_lex.specs.declared.lexer.LexFault.TheVariants.{UnclosedComment, TooLong};
ghost use Rattle.cx_lex.specs.declared.piece.Piece.{Piece as piece};
ghost use Rattle.cx_lex.specs.Faults.{HasFault, IsFaultOf};
ghost use Rattle.cx_lex.specs.WholeText.{ConsistsOf};
ghost use Rattle.cx_lex.specs.Lexing.{Lexes, Outcome, lexed, piece_limit, too_long, unclosed_comment};
ghost use Rattle.cx_lex.specs.Lines.{place_limit};

use crate::before::Before;
use crate::comment::Comment;
use crate::cursor::Cursor;
use crate::front::{Front, front_element};
use crate::piece::{Piece, plain_form};
use cx_base::{Duplicate, List, NoMemory, Place, SharedList, Text};
use cx_tokens::{Kind, Token, is_digraph};
use std::alloc::Global;

/// What a source consists of besides its separators.
#[derive(Debug, Drop)]
pub struct Lexed {
    pub pieces: List<Piece>,
    pub comments: List<Comment>,
}

/// Why a source could not be read.
#[derive(Clone, Copy, Debug, PartialEq, Eq)]
pub enum LexFault {
    /// A comment has no end.
    UnclosedComment {
        /// Where its `/*` stands.
        at: Place,
    },
    /// There are more pieces than the limit.
    TooLong {
        /// Where the first piece beyond the limit stands.
        at: Place,
    },
    /// Memory ran out.
    NoMemory,
}

impl From<NoMemory> for LexFault {
    ghost use Rattle.std.specs.Prelude.{◌≡◌};
    ghost use Rattle.cx_lex.specs.declared.lexer.LexFault.TheVariants.{NoMemory as no_memory};

    ghost from_gives = { λ _ fault. fault ≡ no_memory };

    fn from(_error: NoMemory) -> LexFault {
        LexFault::NoMemory
    }
}

/// The greatest number of pieces that [`lex`] answers.
const PIECES: u32 = 1_048_576;

/// The pieces and the comments of a source, which may have 1,048,576 pieces (C11 5.1.1.2, phases 1
/// to 3). Places have the number `file`. The answer is a fault where a comment has no end, where
/// there are more pieces, whichever comes first in the source, or where memory runs out.
pub fn lex(alloc: Global, bytes: &[u8], file: u32) -> Result<Lexed, LexFault>
    requires { length bytes.now < place_limit }
    ensures ok { IfOk result (λ l. Lexes file piece_limit bytes.now (lexed l.pieces l.comments)) }
    ensures unclosed { (at : place_type) → result ≡ Err (UnclosedComment at)
        → Lexes file piece_limit bytes.now (unclosed_comment at) }
    ensures long { (at : place_type) → result ≡ Err (TooLong at)
        → Lexes file piece_limit bytes.now (too_long at) }
    ensures only { (outcome : Outcome) → Lexes file piece_limit bytes.now outcome
        → MatchResult result (λ l. outcome ≡ lexed l.pieces l.comments)
        (λ fault. IsFaultOf fault outcome) }
{
    lex_within(alloc, bytes, file, PIECES)
}

/// The same, where the source may have `limit` pieces.
pub fn lex_within(alloc: Global, bytes: &[u8], file: u32, limit: u32) -> Result<Lexed, LexFault>
    requires { length bytes.now < place_limit }
    ensures ok { IfOk result (λ l. Lexes file limit bytes.now (lexed l.pieces l.comments)) }
    ensures unclosed { (at : place_type) → result ≡ Err (UnclosedComment at)
        → Lexes file limit bytes.now (unclosed_comment at) }
    ensures long { (at : place_type) → result ≡ Err (TooLong at)
        → Lexes file limit bytes.now (too_long at) }
    ensures only { (outcome : Outcome) → Lexes file limit bytes.now outcome
        → MatchResult result (λ l. outcome ≡ lexed l.pieces l.comments)
        (λ fault. IsFaultOf fault outcome) }
{
    elements(alloc, bytes, file, limit)
}

/// A text has at most one outcome.
pub fn one_outcome()
    ensures { (file limit : ℕ) (text : list ℕ) (some other : Outcome)
        → Lexes file limit text some → Lexes file limit text other → some ≡ other }
{}

/// Every text has an outcome.
pub fn some_outcome()
    ensures { (file limit : ℕ) (text : list ℕ)
        → (outcome : Outcome) × Lexes file limit text outcome }
{}

/// The separators, the comments and the pieces are all of the text but its deleted newlines, in
/// order, and each piece keeps its spelling.
pub fn elements_are_the_text()
    ensures { (file limit : ℕ) (text : list ℕ) (pieces : list piece) (comments : list comment_type)
        → Lexes file limit text (lexed pieces comments) → ConsistsOf file text pieces comments }
{}

impl Lexed {
    fn new(alloc: Global) -> Lexed
        ensures { result ≡ record { pieces = []; comments = [] } }
    {
        Lexed {
            pieces: List::new(alloc),
            comments: List::new(alloc),
        }
    }

    /// An equal value.
    pub fn copy(&self) -> Result<Lexed, NoMemory>
        ensures { IfOk result (λ l. l ≡ self.now) }
    {
        let pieces = self.pieces.copy()?;
        let comments = self.comments.copy()?;
        Ok(Lexed { pieces, comments })
    }
}

impl Duplicate for Lexed {
    fn duplicate(&self) -> Result<Lexed, NoMemory> {
        self.copy()
    }
}

// Passes element by element.
fn elements(alloc: Global, bytes: &[u8], file: u32, limit: u32) -> Result<Lexed, LexFault>
    requires { length bytes.now < place_limit }
    ensures { MatchResult result (λ l. Lexes file limit bytes.now (lexed l.pieces l.comments))
        (HasFault file limit bytes.now) }
{
    let mut lexed = Lexed::new(alloc);
    let mut before = Before::at_start();
    let mut cursor = Cursor::new(bytes, file);
    'elements: loop {
        match front_element(alloc, before.directive, &mut cursor)? {
            Front::AtEnd => return Ok(lexed),
            Front::OpenComment(at) => return Err(LexFault::UnclosedComment { at }),
            Front::Separator(newline) => {
                before = before.after_separator(newline);
                continue;
            }
            Front::OfComment(place, text) => {
                lexed.comments.push(comment_of(before, place, text))?;
                before = before.after_comment();
                continue;
            }
            Front::OfPiece(at, kind, spelled) => {
                if lexed.pieces.len() >= limit as usize {
                    return Err(LexFault::TooLong { at });
                }
                let next = before.after_piece(kind, spelled.as_slice());
                let piece = piece_of(alloc, before, at, kind, spelled)?;
                lexed.pieces.push(piece)?;
                before = next;
                continue;
            }
        }
    }
}

fn comment_of(before: Before, place: Place, text: Text) -> Comment
    ensures { result ≡ record { place = place; text = text; alone = before.first_on_line } }
{
    Comment {
        place,
        text,
        alone: before.first_on_line,
    }
}

fn piece_of(
    alloc: Global,
    before: Before,
    place: Place,
    kind: Kind,
    spelled: Text,
) -> Result<Piece, NoMemory>
    ensures { IfOk result (λ piece. piece ≡ record {
      token = record {
        kind = kind;
        text = plain_text kind spelled;
        place = place;
        hide = [];
        space = before.space;
        parts = [];
        digraph = is_digraph kind spelled;
      };
      first_on_line = before.first_on_line;
    }) }
{
    let digraph = is_digraph(kind, spelled.as_slice());
    let text = plain_form(alloc, kind, spelled)?;
    Ok(Piece {
        token: Token {
            kind,
            text,
            place,
            hide: SharedList::new(),
            space: before.space,
            parts: SharedList::new(),
            digraph,
        },
        first_on_line: before.first_on_line,
    })
}
