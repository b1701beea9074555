//! The files that a unit is made of (C11 6.10.2).
ghost use Rattle.std.specs.Prelude.{◌≡◌, IfOk, OnOk, fold};
ghost use Rattle.cx_shelf.specs.Closures.{closure_of, included, led_to, with_file};

use crate::files::{path_of, pieces_of};
use crate::indexed::IndexedShelf;
use crate::search::found;
use cx_base::NoMemory;
use cx_directive::{operands, target_of};
use cx_lex::Piece;
use cx_lines::{LineKind, first_line, kind_of};
use cx_table::NameKey;
use indexmap::IndexSet;
use std::alloc::Global;

/// The number of the file that a line leads to, where it is a directive `include`.
fn led_to(
    alloc: Global,
    shelf: &IndexedShelf,
    includer: &str,
    line: &[Piece],
) -> Result<Option<usize>, NoMemory>
    ensures { IfOk result (λ r. r ≡ led_to shelf.now includer.now line.now) }
{
    match kind_of(line) {
        LineKind::Include => match target_of(alloc, operands(line))? {
            Some(target) => found(alloc, shelf, includer, &target),
            None => Ok(None),
        },
        _ => Ok(None),
    }
}

/// Adds the files that a file includes, each at the end unless it is there.
#[tactic(auto, using(crate::proofs::FollowLaws::all_of_file, crate::proofs::FollowLaws::line_leads, crate::proofs::FollowLaws::line_leads_nowhere, crate::proofs::FollowLaws::at_the_end))]
fn follow(
    alloc: Global,
    shelf: &IndexedShelf,
    file: usize,
    files: &mut IndexSet<usize, NameKey>,
) -> Result<(), NoMemory>
    ensures { OnOk result (files.new.keys
        ≡ fold with_file files.old.keys (included shelf.now file)) }
{
    let includer = path_of(shelf.shelf(), file);
    let mut pieces = pieces_of(shelf.shelf(), file);
    while let Some((line, rest)) = first_line(pieces) {
        if let Some(other) = led_to(alloc, shelf, includer, line)? {
            files.insert(other)?;
        }
        pieces = rest;
    }
    Ok(())
}

/// The files of a unit, by their numbers on the shelf, each once: the unit's file, and then,
/// breadth first, what the includes of each file lead to, whatever groups they stand in (C11
/// 6.10.2). An include whose name is computed leads nowhere. The lines of each file are gone over
/// once. The numbers are hashed under this key, which the sources give.
pub fn closure(
    alloc: Global,
    key: NameKey,
    shelf: &IndexedShelf,
    unit: u32,
) -> Result<Vec<usize>, NoMemory>
    ensures { IfOk result (λ files. files.items ≡ closure_of shelf.now unit) }
{
    let mut files = IndexSet::with_hasher(alloc, key);
    files.insert(unit as usize)?;
    let mut followed = 0;
    while let Some(&file) = files.as_slice().get(followed) {
        follow(alloc, shelf, file, &mut files)?;
        followed += 1;
    }
    Ok(Vec::from_slice(alloc, files.as_slice())?)
}
