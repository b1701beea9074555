//! Sets of names.
ghost use Rattle.std.specs.Prelude.{◌≡◌, [], IfOk, OnOk, map};
ghost use Rattle.cx_configs.specs.Shapes.Sets.{holds, lacking, with_all, with_name};

use cx_base::NoMemory;
use std::alloc::Global;
use std::collections::BTreeSet;
use std::marker::Model;

/// Names in the order of their bytes, each once.
#[derive(Drop)]
pub(crate) struct NameSet<'a> {
    names: BTreeSet<&'a [u8]>,
}

impl<'a> Model for NameSet<'a> {
    ghost use Rattle.std.specs.Prelude.{List, map};
    ghost use Rattle.cx_configs.specs.Questions.{Name};

    ghost Value = { List Name };

    ghost view = { λ s. map (λ k. k.now) s.names.keys };
}

/// Whether a tree has a name.
fn holds(tree: &BTreeSet<&[u8]>, name: &[u8]) -> bool
    ensures { result ≡ holds (map (λ n. n.now) tree.now.keys) name.now }
{
    tree.contains(name)
}

impl<'a> NameSet<'a> {
    /// No names.
    pub(crate) fn new(alloc: Global) -> NameSet<'a>
        ensures { result ≡ [] }
    {
        NameSet {
            names: BTreeSet::new(alloc),
        }
    }

    /// The names of a tree, copied.
    pub(crate) fn copy_of(names: &BTreeSet<&'a [u8]>) -> Result<NameSet<'a>, NoMemory>
        ensures { IfOk result (λ s. s ≡ map (λ n. n.now) names.now.keys) }
    {
        let names = names.clone()?;
        Ok(NameSet { names })
    }

    /// The tree of the names, with no copy.
    pub(crate) fn into_tree(self) -> BTreeSet<&'a [u8]>
        ensures { map (λ n. n.now) result.keys ≡ self.entry }
    {
        self.names
    }

    /// Puts a name in.
    pub(crate) fn insert(&mut self, name: &'a [u8]) -> Result<(), NoMemory>
        ensures { OnOk result (self.new ≡ with_name self.old name.now) }
    {
        self.names.insert(name)?;
        Ok(())
    }

    /// Puts names in.
    pub(crate) fn insert_all(&mut self, names: &[&'a [u8]]) -> Result<(), NoMemory>
        ensures { OnOk result (self.new ≡ with_all self.old (map (λ n. n.now) names.now)) }
    {
        for name in names {
            self.insert(*name)?;
        }
        Ok(())
    }

    /// The names, in order.
    pub(crate) fn to_vec(&self, alloc: Global) -> Result<Vec<&'a [u8]>, NoMemory>
        ensures { IfOk result (λ names. map (λ n. n.now) names.items ≡ self.now) }
    {
        let mut names = Vec::new(alloc);
        for name in self.names.iter() {
            names.push(*name)?;
        }
        Ok(names)
    }

    /// Those of the names that a tree lacks, in order. The others add nothing to it.
    pub(crate) fn lacking_in(
        &self,
        alloc: Global,
        tree: &BTreeSet<&'a [u8]>,
    ) -> Result<Vec<&'a [u8]>, NoMemory>
        ensures names { IfOk result (λ names. map (λ n. n.now) names.items
            ≡ lacking (map (λ n. n.now) tree.now.keys) self.now) }
        ensures enough { IfOk result (λ names.
            with_all (map (λ n. n.now) tree.now.keys) (map (λ n. n.now) names.items)
            ≡ with_all (map (λ n. n.now) tree.now.keys) self.now) }
    {
        // (which says that the tree is in order)
        let _ = tree.len();
        let mut names = Vec::new(alloc);
        for name in self.names.iter() {
            if holds(tree, name) {
                continue;
            }
            names.push(*name)?;
        }
        Ok(names)
    }
}
