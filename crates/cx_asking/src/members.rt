//! The members of folders.
ghost use Rattle.std.specs.Prelude.{◌≡◌, ◌++◌, [], IfOk, OnOk, fold, map, slice_get};
ghost use Rattle.std.specs.Option.{option_and_then, option_to_list};
ghost use Rattle.std.specs.BTreeSet.{insert_key as insert_in_order};
ghost use Rattle.cx_asking.specs.Members.{is_source, member_path, numbered, numbered_cmp};
ghost use Rattle.cx_asking.specs.Shapes.Steps.{member_of, members_of};

use crate::candidates::simple_of;
use cx_base::{Entry, NoMemory, Path};
use cx_shelf::in_folder;
use std::alloc::Global;
use std::collections::BTreeSet;

/// A member of a folder that is asked: a subfolder, or a file whose name ends in `.c`.
#[derive(Debug, Drop)]
pub(crate) struct Member {
    pub(crate) path: Path,
    pub(crate) folder: bool,
}

/// Whether the name of a file ends in `.c`.
pub(crate) fn is_source(name: &[u8]) -> bool
    ensures { result ≡ is_source name.now }
{
    name.ends_with(b".c")
}

/// The path of a member of a folder.
fn member_path(alloc: Global, folder: &Path, name: &Path) -> Result<Path, NoMemory>
    ensures { IfOk result (λ path. path ≡ member_path folder.now name.now) }
{
    let path = in_folder(alloc, folder.as_str(), name.as_str())?;
    simple_of(alloc, path.as_str())
}

/// A member that is asked.
fn member_of(alloc: Global, folder: &Path, entry: &Entry) -> Result<Option<Member>, NoMemory>
    ensures { IfOk result (λ member. member ≡ member_of folder.now entry.now) }
{
    if !entry.folder && !is_source(entry.name.as_bytes()) {
        return Ok(None);
    }
    let path = member_path(alloc, folder, &entry.name)?;
    Ok(Some(Member {
        path,
        folder: entry.folder,
    }))
}

/// The numbers of the members by the bytes of their names, and those of one name in their order.
fn numbers_in_order<'a>(
    alloc: Global,
    entries: &'a [Entry],
) -> Result<BTreeSet<(&'a [u8], usize)>, NoMemory>
    ensures { IfOk result (λ set. map (λ k. (k.0.now, k.1)) set.keys
        ≡ fold (insert_in_order numbered_cmp) [] (numbered 0 entries.now)) }
{
    let mut numbers = BTreeSet::new(alloc);
    for (number, entry) in entries.iter().enumerate() {
        numbers.insert((entry.name.as_bytes(), number))?;
    }
    Ok(numbers)
}

/// Adds the member with a number, where it is asked.
fn push_member(
    alloc: Global,
    members: &mut Vec<Member>,
    folder: &Path,
    entries: &[Entry],
    number: usize,
) -> Result<(), NoMemory>
    ensures { OnOk result (members.new.items ≡ members.old.items
        ++ option_to_list (option_and_then (member_of folder.now) (slice_get entries.now number))) }
{
    let Some(entry) = entries.get(number) else {
        return Ok(());
    };
    if let Some(member) = member_of(alloc, folder, entry)? {
        members.push(member)?;
    }
    Ok(())
}

/// The members of a folder that are asked, in order.
pub(crate) fn members_of(
    alloc: Global,
    folder: &Path,
    entries: &[Entry],
) -> Result<Vec<Member>, NoMemory>
    ensures { IfOk result (λ members. members.items ≡ members_of folder.now entries.now) }
{
    let numbers = numbers_in_order(alloc, entries)?;
    let mut members = Vec::new(alloc);
    for (_, number) in numbers.iter() {
        push_member(alloc, &mut members, folder, entries, *number)?;
    }
    Ok(members)
}
