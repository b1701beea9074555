//! The members of a folder, in order and each once.
ghost use Rattle.std.specs.Prelude.{◌≡◌, [], ◌∷◌, ◌++◌, ◌≤◌, length, take, drop, IfOk, OnOk, MatchOption, Some, None};
ghost use Rattle.cx_base.specs.Folders.{entry_at, entry_cmp, AreMembers, IsOrdered};
ghost use Rattle.cx_base.specs.Shapes.Members.{added, with_entry, members_with};

use crate::answers::{Entry, Stored};
use crate::errors::NoMemory;
use crate::folders::{first_entry, inside};
use std::alloc::Global;
use std::cmp::Ordering;

// By the bytes of the names, and at one name files before folders.
fn entry_order(one: &Entry, other: &Entry) -> Ordering
    ensures { result ≡ entry_cmp one.now other.now }
{
    match one.name.as_bytes().cmp(other.name.as_bytes()) {
        Ordering::Equal => one.folder.cmp(&other.folder),
        order => order,
    }
}

// Where an entry belongs in an ordered list, and None where it stands there.
fn place_of(entries: &[Entry], entry: &Entry) -> Option<usize>
    ensures { MatchOption result
        (added entry.now entries.now ≡ entries.now)
        (λ at. (at ≤ length entries.now) × (added entry.now entries.now
        ≡ take at entries.now ++ entry.now ∷ drop at entries.now)) }
{
    for (at, other) in entries.iter().enumerate() {
        match entry_order(entry, other) {
            Ordering::Less => return Some(at),
            Ordering::Equal => return None,
            Ordering::Greater => {}
        }
    }
    Some(entries.len())
}

fn add(entries: &mut Vec<Entry>, entry: Entry) -> Result<(), NoMemory>
    ensures { OnOk result (entries.new.items ≡ added entry entries.old.items) }
{
    if let Some(at) = place_of(entries.as_slice(), &entry) {
        entries.insert(at, entry)?;
    }
    Ok(())
}

fn entry_at(alloc: Global, folder: &str, path: &str) -> Result<Option<Entry>, NoMemory>
    ensures { IfOk result (λ found. found ≡ entry_at folder.now path.now) }
{
    match inside(folder, path) {
        Some(rest) => {
            let entry = first_entry(alloc, rest)?;
            Ok(Some(entry))
        }
        None => Ok(None),
    }
}

fn add_found(entries: &mut Vec<Entry>, found: Option<Entry>) -> Result<(), NoMemory>
    ensures { OnOk result (entries.new.items ≡ with_entry found entries.old.items) }
{
    match found {
        Some(entry) => add(entries, entry),
        None => Ok(()),
    }
}

/// The members of a folder beside these files, by the bytes of their names.
pub(crate) fn members_of(
    alloc: Global,
    stored: &[Stored],
    folder: &str,
) -> Result<Vec<Entry>, NoMemory>
    ensures { IfOk result (λ entries. entries.items ≡ members_with [] stored.now folder.now) }
{
    let mut entries = Vec::new(alloc);
    for file in stored {
        let found = entry_at(alloc, folder, file.path.as_str())?;
        add_found(&mut entries, found)?;
    }
    Ok(entries)
}
