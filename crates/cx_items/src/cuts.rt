//! Lists of tokens, cut into items.
ghost use Rattle.std.specs.Prelude.{◌≡◌, List as Items, IfOk, reverse};
ghost use Rattle.cx_items.specs.Brackets.{IsParts, Part};
ghost use Rattle.cx_items.specs.Cutting.{AreStarts};
ghost use Rattle.cx_items.specs.Shapes.Ends.{Walks, entries_of};

use crate::ends::Ahead;
use crate::outline::{Outermost, outline};
use cx_base::{List, NoMemory};
use cx_syntax_tree::Lexeme;
use std::alloc::Global;

/// Where items begin.
#[derive(Drop)]
pub struct Cuts {
    /// The number of the first token of each item, in order.
    pub starts: List<usize>,
    /// Whether the last item has an end.
    pub finished: bool,
}

/// A part's first token, and how many parts stand behind the item that begins with it, if it ends.
#[derive(Clone, Copy)]
pub(crate) struct Entry {
    pub first: usize,
    pub behind: Option<usize>,
}

/// The entries of parts, that of the first part last.
fn entries_of(alloc: Global, parts: Vec<Outermost>) -> Result<Vec<Entry>, NoMemory>
    ensures { IfOk result (λ entries. reverse entries.items ≡ entries_of parts.items) }
{
    let mut left = parts;
    let mut entries = Vec::new(alloc);
    let mut ahead = Ahead::nothing();
    while let Some(part) = left.pop() {
        ahead = ahead.before(part.kind, entries.len());
        entries.push(Entry {
            first: part.first,
            behind: ahead.item_behind(),
        })?;
    }
    Ok(entries)
}

/// The items, from one to the next.
fn walk(alloc: Global, entries: Vec<Entry>) -> Result<Cuts, NoMemory>
    ensures { IfOk result (λ cuts. Walks (reverse entries.items) cuts.starts cuts.finished) }
{
    let mut left = entries;
    let mut starts = List::new(alloc);
    while let Some(entry) = left.pop() {
        starts.push(entry.first)?;
        match entry.behind {
            Some(behind) => left.truncate(behind),
            None => {
                return Ok(Cuts {
                    starts,
                    finished: false,
                });
            }
        }
    }
    Ok(Cuts {
        starts,
        finished: true,
    })
}

/// The items of tokens whose brackets are paired: each begins where the one before ends. It takes
/// time for each token once.

pub fn cuts_of(alloc: Global, lexemes: &[Lexeme]) -> Result<Cuts, NoMemory>
    ensures { (parts : Items Part) → IsParts lexemes.now parts
        → IfOk result (λ cuts. AreStarts 0 parts cuts.starts cuts.finished) }
{
    let parts = outline(alloc, lexemes)?;
    let entries = entries_of(alloc, parts)?;
    walk(alloc, entries)
}
