//! Lists of names.
ghost use Rattle.std.specs.Prelude.{◌≡◌, [], IfOk, IfSome, MatchOption, None, OnOk, Some, map, true};
ghost use Rattle.cx_configs.specs.Configurations.{has_names};
ghost use Rattle.cx_configs.specs.Shapes.Found.{IsFound, IsListed, names_at};
ghost use Rattle.cx_configs.specs.Shapes.Lists.{is_full, with_list};
ghost use Rattle.cx_configs.specs.Shapes.Sets.{with_all};

use crate::name_set::NameSet;
use cx_base::NoMemory;
use cx_table::NameKey;
use indexmap::{IndexMap, IndexSet};
use std::alloc::Global;
use std::collections::BTreeSet;
use std::marker::Model;

/// How a list is found: the number of a list, if it stands within one, and the names that it has
/// besides.
type Step<'a> = (Option<usize>, Vec<&'a [u8]>);

/// Lists of names, each once, in the order in which they came. The number of a list says how many
/// came before it.
#[derive(Drop)]
pub(crate) struct NameLists<'a> {
    lists: IndexSet<BTreeSet<&'a [u8]>, NameKey>,
    // How lists were found, with their numbers: none is written out where it is found so again.
    found: IndexMap<Step<'a>, usize, NameKey>,
}

impl<'a> Model for NameLists<'a> {
    ghost use Rattle.std.specs.Prelude.{List, map};
    ghost use Rattle.cx_configs.specs.Questions.{Name};
    ghost use Rattle.cx_configs.specs.Shapes.Found.{AreFound};

    ghost Value = { List (List Name) };

    ghost view = { λ l. map (λ k. map (λ n. n.now) k.keys) l.lists.keys };

    ghost invariant = { λ l. AreFound (map (λ k. map (λ n. n.now) k.keys) l.lists.keys)
        (map (λ e. record {
          around = e.0.0;
          added = map (λ n. n.now) e.0.1.items;
          number = e.1;
        }) l.found.entries) };
}

impl<'a> NameLists<'a> {
    /// No lists. Those to come are hashed with this key.
    pub(crate) fn new(alloc: Global, key: NameKey) -> NameLists<'a>
        ensures { result ≡ [] }
    {
        NameLists {
            lists: IndexSet::with_hasher(alloc, key),
            found: IndexMap::with_hasher(alloc, key),
        }
    }

    /// Whether there are as many as there may be.
    pub(crate) fn are_full(&self, most: Option<usize>) -> bool
        ensures { result ≡ is_full most self.now }
    {
        match most {
            None => false,
            Some(most) => most <= self.lists.len(),
        }
    }

    /// The names of the list with a number.
    pub(crate) fn names_at(&self, number: Option<usize>) -> Option<&BTreeSet<&'a [u8]>>
        ensures { MatchOption result (names_at self.now number ≡ [])
            (λ names. map (λ n. n.now) names.now.keys ≡ names_at self.now number) }
    {
        self.lists.get_index(number?)
    }

    /// The same as a set of its own.
    fn copied_names(&self, alloc: Global, number: Option<usize>) -> Result<NameSet<'a>, NoMemory>
        ensures { IfOk result (λ names. names ≡ names_at self.now number) }
    {
        match self.names_at(number) {
            None => Ok(NameSet::new(alloc)),
            Some(names) => NameSet::copy_of(names),
        }
    }

    /// Those of names that a list may lack: the others add nothing to it.
    fn lacking(
        &self,
        alloc: Global,
        number: Option<usize>,
        names: &NameSet<'a>,
    ) -> Result<Vec<&'a [u8]>, NoMemory>
        ensures { IfOk result (λ added. with_all (names_at self.now number)
            (map (λ n. n.now) added.items) ≡ with_all (names_at self.now number) names.now) }
    {
        match self.names_at(number) {
            None => names.to_vec(alloc),
            Some(list) => names.lacking_in(alloc, list),
        }
    }

    /// The number of a list that was found so before.
    fn found_before(&self, step: &Step<'a>) -> Option<usize>
        ensures { IfSome result (λ number. IsFound self.now (record {
          around = step.now.0;
          added = map (λ n. n.now) step.now.1.items;
          number = number;
        })) }
    {
        self.found.get(step).copied()
    }

    /// Puts in a list that is found so, unless it is there, and remembers how it was found. The result
    /// is its number.
    fn put(&mut self, step: Step<'a>, names: NameSet<'a>) -> Result<usize, NoMemory>
        requires around { IsListed self.old step.0 }
        requires names { names
            ≡ with_all (names_at self.old step.0) (map (λ n. n.now) step.1.items) }
        requires given { has_names names ≡ true }
        ensures lists { OnOk result (self.new ≡ with_list None self.old names.entry) }
        ensures listed { IfOk result (λ number. IsListed self.new (Some number)) }
        ensures names { IfOk result (λ number. names_at self.new (Some number) ≡ names.entry) }
    {
        let (number, _) = self.lists.insert_full(names.into_tree())?;
        self.found.insert(step, number)?;
        Ok(number)
    }

    /// Puts in the list with the names of another, or with none, and with these besides, unless it
    /// has no names or is there. The result is its number, if it has names.
    pub(crate) fn add(
        &mut self,
        alloc: Global,
        around: Option<usize>,
        names: &NameSet<'a>,
    ) -> Result<Option<usize>, NoMemory>
        requires { IsListed self.old around }
        ensures lists { OnOk result (self.new
            ≡ with_list None self.old (with_all (names_at self.old around) names.now)) }
        ensures listed { IfOk result (IsListed self.new) }
        ensures names { IfOk result (λ number. names_at self.new number
            ≡ with_all (names_at self.old around) names.now) }
    {
        let added = self.lacking(alloc, around, names)?;
        if added.is_empty() {
            return Ok(around);
        }
        let step = (around, added);
        if let Some(number) = self.found_before(&step) {
            return Ok(Some(number));
        }
        let mut names = self.copied_names(alloc, around)?;
        names.insert_all(step.1.as_slice())?;
        let number = self.put(step, names)?;
        Ok(Some(number))
    }

    /// The lists, in order.
    pub(crate) fn as_slice(&self) -> &[BTreeSet<&'a [u8]>]
        ensures { map (λ k. map (λ n. n.now) k.keys) result.now ≡ self.now }
    {
        self.lists.as_slice()
    }
}
