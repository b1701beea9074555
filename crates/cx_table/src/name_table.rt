//! Names with their values.
ghost use Rattle.std.specs.Prelude.{◌≡◌, ◌<◌, [], length, is_some, slice_get};
ghost use Rattle.std.specs.Prelude.{IfOk, IfSome, OnOk, OnErr};
ghost use Rattle.std.specs.Option.{option_copied, option_map};
ghost use Rattle.cx_table.specs.NameTable.{HasDistinctNames, index_of, value_of};
ghost use Rattle.cx_table.specs.NameTable.{with_entry, without_entry};

use crate::key::NameKey;
use cx_base::{NoMemory, Text};
use indexmap::IndexMap;
use std::alloc::Global;
use std::marker::Model;

/// Names with their values, in the order in which the names came. Contracts see the list of the
/// pairs. A set of names is a `NameTable<()>`.
#[derive(Drop)]
pub struct NameTable<V> {
    entries: IndexMap<Vec<u8>, V, NameKey>,
}

impl<V> Model for NameTable<V> {
    ghost use Rattle.std.specs.Prelude.{map};
    ghost use Rattle.std.specs.Coded.{coded_list, coded×, coded_ℕ};
    ghost use Rattle.cx_table.specs.NameTable.{Entries};

    ghost Value = { Entries V };

    ghost coded = { coded_list (coded× (coded_list coded_ℕ) V.code) };

    ghost view = { λ t. map (λ e. (e.0.items, e.1)) t.entries.entries };
}

impl<V> NameTable<V> {
    /// No names. Those to come are hashed with this key.
    pub fn new(alloc: Global, key: NameKey) -> NameTable<V>
        ensures { result ≡ [] }
    {
        NameTable {
            entries: IndexMap::with_hasher(alloc, key),
        }
    }

    /// How many names there are.
    pub fn len(&self) -> usize
        ensures len { result ≡ length self.now }
        ensures distinct { HasDistinctNames self.now }
    {
        self.entries.len()
    }

    /// The value of a name.
    pub fn get(&self, name: &[u8]) -> Option<&V>
        ensures { option_copied result ≡ value_of self.now name.now }
    {
        self.entries.get(name)
    }

    /// Whether a name has a value.
    pub fn contains(&self, name: &[u8]) -> bool
        ensures { result ≡ is_some (value_of self.now name.now) }
    {
        self.entries.get(name).is_some()
    }

    /// The index of a name: how many names came before it.
    pub fn index_of(&self, name: &[u8]) -> Option<usize>
        ensures index { result ≡ index_of self.now name.now }
        ensures within { IfSome result (λ i. i < length self.now) }
    {
        self.entries.get_index_of(name)
    }

    /// The name at an index, and its value.
    pub fn entry_at(&self, index: usize) -> Option<(&[u8], &V)>
        ensures { option_map (λ e. (e.0.now, e.1.now)) result ≡ slice_get self.now index }
    {
        match self.entries.get_index(index) {
            Some((name, value)) => Some((name.as_slice(), value)),
            None => None,
        }
    }
}

impl<V: Drop> NameTable<V> {
    /// Gives a name a value, and returns the one that it had. A name that is there keeps its place,
    /// and another goes last. A refused call changes nothing and gives the pair up.
    pub fn insert(&mut self, name: Text, value: V) -> Result<Option<V>, NoMemory>
        ensures ok { OnOk result (self.new ≡ with_entry name value self.old) }
        ensures before { IfOk result (λ before. before ≡ value_of self.old name) }
        ensures err { OnErr result (self.new ≡ self.old) }
        ensures distinct { OnOk result (HasDistinctNames self.new) }
    {
        let alloc = *self.entries.allocator();
        let name = Vec::from_slice(alloc, name.as_slice())?;
        let before = self.entries.insert(name, value)?;
        Ok(before)
    }

    /// Takes a name out, and returns its value. The other names keep their order, so this takes
    /// time for each name that came after it.
    pub fn remove(&mut self, name: &[u8]) -> Option<V>
        ensures value { result ≡ value_of self.old name.now }
        ensures others { self.new ≡ without_entry name.now self.old }
        ensures distinct { HasDistinctNames self.new }
    {
        self.entries.shift_remove(name)
    }
}
