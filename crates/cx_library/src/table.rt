//! Tables of names, and lists of what stands in them.
ghost use Rattle.std.specs.Prelude.{◌≡◌, ◌∷◌, ◌++◌, [], map, IfOk, IfSome, OnErr, OnOk, slice_get};
ghost use Rattle.cx_table.specs.NameTable.{HasDistinctNames, names_of, with_entry};
ghost use Rattle.cx_library.specs.Library.{define_of};

use crate::pod::Pod;
use cx_base::{Define, List, NoMemory, Text};
use cx_table::NameTable;
use std::alloc::Global;

/// Gives a name a value, in the place of the one that it has. A refused call changes nothing.
pub(crate) fn put<V: Drop>(table: &mut NameTable<V>, name: Text, value: V) -> Result<(), NoMemory>
    ensures ok { OnOk result (table.new ≡ with_entry name value table.old) }
    ensures err { OnErr result (table.new ≡ table.old) }
    ensures distinct { OnOk result (HasDistinctNames table.new) }
{
    table.insert(name, value)?;
    Ok(())
}

/// Adds the name at an index to a list.
fn push_name(
    alloc: Global,
    names: &mut List<Text>,
    table: &NameTable<Pod>,
    index: usize,
) -> Result<(), NoMemory>
    ensures { OnOk result (IfSome (slice_get table.now index)
        (λ entry. names.new ≡ names.old ++ entry.0 ∷ [])) }
{
    match table.entry_at(index) {
        None => Ok(()),
        Some((name, _)) => {
            let name = Text::from_slice(alloc, name)?;
            names.push(name)
        }
    }
}

/// The names as a list.
pub(crate) fn names_in(alloc: Global, table: &NameTable<Pod>) -> Result<List<Text>, NoMemory>
    ensures { IfOk result (λ names. names ≡ names_of table.now) }
{
    let mut names = List::new(alloc);
    for index in 0..table.len() {
        push_name(alloc, &mut names, table, index)?;
    }
    Ok(names)
}

/// A macro.
fn define(alloc: Global, name: &[u8], value: &Text) -> Result<Define, NoMemory>
    ensures { IfOk result (λ define. define ≡ define_of (name.now, value.now)) }
{
    let name = Text::from_slice(alloc, name)?;
    let value = value.copy()?;
    Ok(Define { name, value })
}

/// Adds the macro at an index to a list.
fn push_define(
    alloc: Global,
    defines: &mut List<Define>,
    table: &NameTable<Text>,
    index: usize,
) -> Result<(), NoMemory>
    ensures { OnOk result (IfSome (slice_get table.now index)
        (λ entry. defines.new ≡ defines.old ++ define_of entry ∷ [])) }
{
    match table.entry_at(index) {
        None => Ok(()),
        Some((name, value)) => {
            let define = define(alloc, name, value)?;
            defines.push(define)
        }
    }
}

/// The macros as a list.
pub(crate) fn defines_in(alloc: Global, table: &NameTable<Text>) -> Result<List<Define>, NoMemory>
    ensures { IfOk result (λ defines. defines ≡ map define_of table.now) }
{
    let mut defines = List::new(alloc);
    for index in 0..table.len() {
        push_define(alloc, &mut defines, table, index)?;
    }
    Ok(defines)
}
