//! The names that a text has declared so far, in order, each of them once.
ghost use Rattle.std.specs.Prelude.{◌≡◌, [], ◌∷◌, ◌++◌, IfOk, None, OnOk, ◌≤◌, length};
ghost use Rattle.cx_first.specs.Names.{index_of};

use cx_base::{List, NoMemory, Text};
use cx_table::{NameKey, NameTable};
use std::alloc::Global;
use std::marker::Model;

/// Names with their indices, which contracts see as the list of their bytes.
#[derive(Drop)]
pub(crate) struct Names {
    names: NameTable<()>,
}

impl Model for Names {
    ghost use Rattle.std.specs.Prelude.{List, ℕ};
    ghost use Rattle.cx_table.specs.NameTable.{names_of};

    ghost Value = { List (List ℕ) };

    ghost view = { λ n. names_of n.names };
}

impl Names {
    /// No names. Those to come are hashed with this key.
    pub(crate) fn new(alloc: Global, key: NameKey) -> Names
        ensures { result ≡ [] }
    {
        Names {
            names: NameTable::new(alloc, key),
        }
    }

    /// The index of a name.
    pub(crate) fn find(&self, name: &[u8]) -> Option<u32>
        requires { length self.now ≤ 4294967296 }
        ensures { result ≡ index_of self.now name.now }
    {
        match self.names.index_of(name) {
            Some(index) => Some(index as u32),
            None => None,
        }
    }

    /// How many names there are.
    pub(crate) fn len(&self) -> usize
        ensures { result ≡ length self.now }
    {
        self.names.len()
    }

    /// Declares a name that is not declared yet.
    pub(crate) fn declare(&mut self, alloc: Global, name: &[u8]) -> Result<(), NoMemory>
        requires { index_of self.old name.now ≡ None }
        ensures { OnOk result (self.new ≡ self.old ++ name.now ∷ []) }
    {
        let name = Text::from_slice(alloc, name)?;
        self.names.insert(name, ())?;
        Ok(())
    }

    /// The names as a list.
    pub(crate) fn to_list(&self, alloc: Global) -> Result<List<Text>, NoMemory>
        ensures { IfOk result (λ l. l ≡ self.now) }
    {
        let mut list = List::new(alloc);
        for index in 0..self.names.len() {
            if let Some((name, _)) = self.names.entry_at(index) {
                list.push(Text::from_slice(alloc, name)?)?;
            }
        }
        Ok(list)
    }
}
