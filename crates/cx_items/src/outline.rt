//! The tokens outside all brackets, and the outermost brackets.
ghost use Rattle.std.specs.Prelude.{◌≡◌, ◌++◌, IfOk, OnOk};
ghost use Rattle.cx_items.specs.Shapes.Outlines.{bracket_of, bracket_of_mark, outline, outside};

use cx_base::{List, NoMemory};
use cx_syntax_tree::{Lexeme, Punctuator, Terminal};
use std::alloc::Global;

/// What an outermost part of a list of tokens is to the end of an item.
#[derive(Clone, Copy)]
pub(crate) enum PartKind {
    /// `;`
    Semicolon,
    /// `=`
    Equal,
    /// A name or a keyword.
    Word,
    /// Round brackets and what they hold.
    Round,
    /// Braces and what they hold.
    Braces,
    Other,
}

/// An outermost part, and the number of its first token.
#[derive(Clone, Copy)]
pub(crate) struct Outermost {
    pub kind: PartKind,
    pub first: usize,
}

/// What a token is to brackets.
#[derive(Clone, Copy)]
pub(crate) enum Bracket {
    Opening(PartKind),
    Closing,
    Plain(PartKind),
}

/// What a punctuator is to brackets.
fn bracket_of_mark(mark: Punctuator) -> Bracket
    ensures { result ≡ bracket_of_mark mark }
{
    match mark {
        Punctuator::OpenRound => Bracket::Opening(PartKind::Round),
        Punctuator::OpenCurly => Bracket::Opening(PartKind::Braces),
        Punctuator::OpenSquare => Bracket::Opening(PartKind::Other),
        Punctuator::CloseRound | Punctuator::CloseCurly | Punctuator::CloseSquare =>
            Bracket::Closing,
        Punctuator::Semicolon => Bracket::Plain(PartKind::Semicolon),
        Punctuator::Equal => Bracket::Plain(PartKind::Equal),
        _ => Bracket::Plain(PartKind::Other),
    }
}

/// What a token is to brackets.
#[tactic(auto, unfolding(crate::specs::Shapes::Outlines::bracket_of))]
fn bracket_of(terminal: Terminal) -> Bracket
    ensures { result ≡ bracket_of terminal }
{
    match terminal {
        Terminal::Punctuator(mark) => bracket_of_mark(mark),
        Terminal::Name(_) | Terminal::TypeName(_) | Terminal::Keyword(_) => Bracket::Plain(
            PartKind::Word,
        ),
        Terminal::Number | Terminal::Char | Terminal::String | Terminal::Foreign => Bracket::Plain(
            PartKind::Other,
        ),
    }
}

/// Adds a part where it is outside all brackets.
fn push_outside(
    parts: &mut Vec<Outermost>,
    depth: usize,
    kind: PartKind,
    first: usize,
) -> Result<(), NoMemory>
    ensures { OnOk result (parts.new.items ≡ parts.old.items ++ outside depth kind first) }
{
    if depth == 0 {
        parts.push(Outermost { kind, first })?;
    }
    Ok(())
}

/// The outermost parts of tokens whose brackets are paired.
#[tactic(auto, unfolding(crate::specs::Shapes::Outlines::outline))]
pub(crate) fn outline(alloc: Global, lexemes: &[Lexeme]) -> Result<Vec<Outermost>, NoMemory>
    ensures { IfOk result (λ parts. parts.items ≡ outline 0 0 lexemes.now) }
{
    let mut parts = Vec::new(alloc);
    let mut depth = 0usize;
    for (index, lexeme) in lexemes.iter().enumerate() {
        match bracket_of(lexeme.terminal) {
            Bracket::Opening(kind) => {
                push_outside(&mut parts, depth, kind, index)?;
                depth += 1;
            }
            Bracket::Closing => depth = depth.saturating_sub(1),
            Bracket::Plain(kind) => push_outside(&mut parts, depth, kind, index)?,
        }
    }
    Ok(parts)
}
