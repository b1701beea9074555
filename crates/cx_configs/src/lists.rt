//! The lists of names for which the lines of files ask.
ghost use Rattle.std.specs.Prelude.{◌≡◌, OnOk};
ghost use Rattle.std.specs.List.{flat_map};
ghost use Rattle.cx_lines.specs.Lines.{lines_of};
ghost use Rattle.cx_configs.specs.Configurations.{lines_in};
ghost use Rattle.cx_configs.specs.Shapes.Lists.{lists_of, with_lists};

use crate::groups::OpenGroups;
use crate::name_lists::NameLists;
use crate::settled::Settled;
use cx_base::NoMemory;
use cx_lex::Piece;
use cx_lines::first_line;
use cx_shelf::{Shelf, pieces_of};
use std::alloc::Global;

/// Adds the lists for which the lines of a file ask, up to so many in all.
#[tactic(auto, using(crate::proofs::AskingLaws::asks_start))]
fn add_file<'a>(
    alloc: Global,
    lists: &mut NameLists<'a>,
    most: Option<usize>,
    settled: &Settled,
    pieces: &'a [Piece],
) -> Result<(), NoMemory>
    ensures { OnOk result (lists.new
        ≡ with_lists most lists.old (lists_of settled.now (lines_of pieces.now))) }
{
    let mut groups = OpenGroups::new(alloc);
    let mut rest = pieces;
    while let Some((line, more)) = first_line(rest) {
        if lists.are_full(most) {
            return Ok(());
        }
        groups.pass(alloc, lists, settled, line)?;
        rest = more;
    }
    Ok(())
}

/// Adds the lists for which the lines of files ask, up to so many in all.
pub(crate) fn add_files<'a>(
    alloc: Global,
    lists: &mut NameLists<'a>,
    most: Option<usize>,
    settled: &Settled,
    shelf: &'a Shelf,
    files: &[usize],
) -> Result<(), NoMemory>
    ensures { OnOk result (lists.new ≡ with_lists most lists.old
        (flat_map (lists_of settled.now) (lines_in shelf.now files.now))) }
{
    for file in files {
        add_file(alloc, lists, most, settled, pieces_of(shelf, *file))?;
    }
    Ok(())
}
