//! Tables of names that are joined, the later over the earlier.
ghost use Rattle.std.specs.Prelude.{◌≡◌, IfOk, IfSome, OnOk, slice_get};
ghost use Rattle.std.specs.Option.{option_map_or};
ghost use Rattle.cx_table.specs.NameTable.{HasDistinctNames, value_of, with_entry};
ghost use Rattle.cx_library.specs.Joined.{joined, latest};
ghost use Rattle.cx_library.specs.Known.{over, renumbered};
ghost use Rattle.cx_library.specs.Library.{all_renumbered};

use crate::known::Known;
use crate::table::put;
use cx_base::{Duplicate, NoMemory, Text};
use cx_table::NameTable;
use std::alloc::Global;

/// Gives the name at an index of the later table its value there.
fn put_at<V: Duplicate + Drop>(
    alloc: Global,
    table: &mut NameTable<V>,
    later: &NameTable<V>,
    index: usize,
) -> Result<(), NoMemory>
    requires { HasDistinctNames table.old }
    ensures ok { OnOk result (IfSome (slice_get later.now index)
        (λ entry. table.new ≡ with_entry entry.0 entry.1 table.old)) }
    ensures distinct { OnOk result (HasDistinctNames table.new) }
{
    match later.entry_at(index) {
        None => Ok(()),
        Some((name, value)) => {
            let name = Text::from_slice(alloc, name)?;
            let value = value.duplicate()?;
            put(table, name, value)
        }
    }
}

/// The names of both tables, each with its later value. A refused call gives the earlier table up.
pub(crate) fn joined<V: Duplicate + Drop>(
    alloc: Global,
    earlier: NameTable<V>,
    later: &NameTable<V>,
) -> Result<NameTable<V>, NoMemory>
    requires { HasDistinctNames earlier }
    ensures ok { IfOk result (λ table. table ≡ joined latest earlier later.now) }
    ensures distinct { IfOk result (λ table. HasDistinctNames table) }
{
    let mut table = earlier;
    for index in 0..later.len() {
        put_at(alloc, &mut table, later, index)?;
    }
    Ok(table)
}

/// What the table and a later library know of a name.
fn known_over(functions: &NameTable<Known>, name: &[u8], known: Known) -> Result<Known, NoMemory>
    ensures { IfOk result (λ both. both
        ≡ option_map_or (λ earlier. over earlier known) (value_of functions.now name.now) known) }
{
    match functions.get(name) {
        None => Ok(known),
        Some(earlier) => known.over(earlier),
    }
}

/// Adds to a name what a later library knows of it, whose memory groups have numbers that are
/// higher by this.
fn put_known(
    alloc: Global,
    functions: &mut NameTable<Known>,
    groups: u32,
    name: &[u8],
    known: &Known,
) -> Result<(), NoMemory>
    ensures ok { OnOk result (let later = renumbered groups known.now
        in functions.new ≡ with_entry name.now
        (option_map_or (λ earlier. over earlier later) (value_of functions.old name.now) later)
        functions.old) }
    ensures distinct { OnOk result (HasDistinctNames functions.new) }
{
    let known = known.copy()?.renumbered(groups)?;
    let known = known_over(functions, name, known)?;
    let name = Text::from_slice(alloc, name)?;
    put(functions, name, known)
}

/// Adds to the name at an index of the later table what is known of it there.
fn put_known_at(
    alloc: Global,
    functions: &mut NameTable<Known>,
    groups: u32,
    later: &NameTable<Known>,
    index: usize,
) -> Result<(), NoMemory>
    requires { HasDistinctNames functions.old }
    ensures ok { OnOk result (IfSome (slice_get later.now index) (λ entry.
        let known = renumbered groups entry.1 in functions.new ≡ with_entry entry.0
        (option_map_or (λ earlier. over earlier known) (value_of functions.old entry.0) known)
        functions.old)) }
    ensures distinct { OnOk result (HasDistinctNames functions.new) }
{
    match later.entry_at(index) {
        None => Ok(()),
        Some((name, known)) => put_known(alloc, functions, groups, name, known),
    }
}

/// The functions of both tables, each with what is known of it later over what is known earlier.
/// There are so many memory groups before those of the later table. A refused call gives the
/// earlier table up.
pub(crate) fn joined_functions(
    alloc: Global,
    earlier: NameTable<Known>,
    groups: u32,
    later: &NameTable<Known>,
) -> Result<NameTable<Known>, NoMemory>
    requires { HasDistinctNames earlier }
    ensures ok { IfOk result (λ table.
        table ≡ joined over earlier (all_renumbered groups later.now)) }
    ensures distinct { IfOk result (λ table. HasDistinctNames table) }
{
    let mut functions = earlier;
    for index in 0..later.len() {
        put_known_at(alloc, &mut functions, groups, later, index)?;
    }
    Ok(functions)
}
