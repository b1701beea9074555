//! Tables of names, and what their keys are good for.
use crate::key::NameKey;
use crate::name_table::NameTable;
use cx_base::{NoMemory, Text};
use std::alloc::Global;

/// A table of these names, each with its length.
fn table_of(alloc: Global, key: NameKey, names: &[&str]) -> Result<NameTable<usize>, NoMemory> {
    let mut table = NameTable::new(alloc, key);
    for name in names {
        let text = Text::from_slice(alloc, name.as_bytes())?;
        table.insert(text, name.len())?;
    }
    Ok(table)
}

/// The names of a table in their order, each with a space after it.
fn names_of(alloc: Global, table: &NameTable<usize>) -> Result<Text, NoMemory> {
    let mut names = Text::new(alloc);
    for index in 0..table.len() {
        if let Some((name, _)) = table.entry_at(index) {
            names.push_all(name)?;
            names.push_all(b" ")?;
        }
    }
    Ok(names)
}

#[test]
fn tables_by_two_keys_hold_the_same(rt: HostRuntime) {
    let names = ["b", "a", "ab", "a", "", "ba", "c"];
    for source in ["int a;", "int b;", ""] {
        let key = NameKey::of(source.as_bytes());
        let table = table_of(rt.alloc(), key, &names).expect(&rt, "memory");
        let shown = names_of(rt.alloc(), &table).expect(&rt, "memory");
        assert_eq!(rt; table.len(), 6);
        assert_eq!(rt; shown.as_slice(), b"b a ab  ba c ".as_slice());
    }
}

#[test]
fn names_come_and_go(rt: HostRuntime) {
    let alloc = rt.alloc();
    let mut table = table_of(alloc, NameKey::of(b""), &["b", "a", "ab"]).expect(&rt, "memory");
    let again = Text::from_slice(alloc, b"a").expect(&rt, "memory");
    assert_eq!(rt; table.insert(again, 9).expect(&rt, "memory"), Some(1));
    assert_eq!(rt; table.get(b"a").copied(), Some(9));
    assert_eq!(rt; table.index_of(b"a"), Some(1));
    assert_eq!(rt; table.index_of(b"abc"), None);
    assert_eq!(rt; table.remove(b"b"), Some(1));
    assert_eq!(rt; table.remove(b"b"), None);
    assert!(rt; !table.contains(b"b"));
    assert!(rt; table.contains(b"ab"));
    let shown = names_of(alloc, &table).expect(&rt, "memory");
    assert_eq!(rt; shown.as_slice(), b"a ab ".as_slice());
}

/// Names enough that a table grows many times.
#[test]
fn many_names_stay_in_order(rt: HostRuntime) {
    let alloc = rt.alloc();
    let mut table: NameTable<()> = NameTable::new(alloc, NameKey::of(b"many"));
    for number in 0..10_000u32 {
        let mut name = Text::from_slice(alloc, b"n").expect(&rt, "memory");
        name.push_number(number).expect(&rt, "memory");
        table.insert(name, ()).expect(&rt, "memory");
    }
    assert_eq!(rt; table.len(), 10_000);
    assert_eq!(rt; table.index_of(b"n0"), Some(0));
    assert_eq!(rt; table.index_of(b"n9999"), Some(9_999));
}
