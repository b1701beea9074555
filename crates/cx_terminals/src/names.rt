//! Names and their numbers.
ghost use Rattle.std.specs.Prelude.{◌≡◌, [], IfOk, OnOk, bytes_eq, length, map};
ghost use Rattle.std.specs.List.{position_or_len};
ghost use Rattle.indexmap.specs.IndexSet.{insert_key};

use cx_base::{List, NoMemory, Text};
use cx_table::NameKey;
use indexmap::IndexSet;
use std::alloc::Global;
use std::marker::Model;

/// Names, each once, in the order in which they came. The number of a name says how many came
/// before it.
#[derive(Drop)]
pub(crate) struct Names<'a> {
    alloc: Global,
    names: IndexSet<&'a [u8], NameKey>,
}

impl<'a> Model for Names<'a> {
    ghost use Rattle.std.specs.Prelude.{List, ℕ, map};

    ghost Value = { List (List ℕ) };

    ghost view = { λ s. map (λ name. name.now) s.names.keys };
}

impl<'a> Names<'a> {
    /// No names. Those to come are hashed under this key.
    pub(crate) fn new(alloc: Global, key: NameKey) -> Names<'a>
        ensures { result ≡ [] }
    {
        Names {
            alloc,
            names: IndexSet::with_hasher(alloc, key),
        }
    }

    /// Puts a name in, unless it is there, and answers its number.
    fn put(&mut self, name: &'a [u8]) -> Result<usize, NoMemory>
        ensures names { OnOk result (self.new ≡ insert_key bytes_eq self.old name.now) }
        ensures number { IfOk result (λ n. n ≡ position_or_len (bytes_eq name.now) self.old) }
    {
        let (number, _) = self.names.insert_full(name)?;
        Ok(number)
    }

    /// The number of a name, which is put in unless it is there.
    pub(crate) fn number_of(&mut self, name: &'a [u8]) -> Result<u32, NoMemory>
        ensures names { OnOk result (self.new ≡ insert_key bytes_eq self.old name.now) }
        ensures number { IfOk result (λ n. n ≡ position_or_len (bytes_eq name.now) self.old) }
    {
        let number = self.put(name)?;
        match u32::try_from(number) {
            Ok(number) => Ok(number),
            Err(_) => Err(NoMemory),
        }
    }

    /// The texts of the names, in order.
    pub(crate) fn texts(&self) -> Result<List<Text>, NoMemory>
        ensures { IfOk result (λ texts. texts ≡ self.now) }
    {
        let mut texts = List::new(self.alloc);
        for name in self.names.as_slice() {
            texts.push(Text::from_slice(self.alloc, *name)?)?;
        }
        Ok(texts)
    }
}
