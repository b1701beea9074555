//! Paths, each once.
ghost use Rattle.std.specs.Prelude.{◌≡◌, ◌+◌, ◌^◌, ◌<◌, [], IfOk, IfSome, bytes_eq, slice_get};
ghost use Rattle.std.specs.Option.{option_map};
ghost use Rattle.indexmap.specs.IndexSet.{insert_key};

use cx_base::{NoMemory, Path, Text};
use cx_table::{NameKey, NameTable};
use std::alloc::Global;
use std::marker::Model;

/// Paths, each once, in the order in which they came.
#[derive(Drop)]
pub(crate) struct PathSet {
    alloc: Global,
    paths: Vec<Path>,
    names: NameTable<()>,
}

impl Model for PathSet {
    ghost use Rattle.std.specs.Prelude.{◌≡◌, List, ℕ};
    ghost use Rattle.cx_table.specs.NameTable.{names_of};

    ghost Value = { List (List ℕ) };

    ghost view = { λ s. s.paths.items };

    ghost invariant = { λ s. names_of s.names ≡ s.paths.items };
}

impl PathSet {
    /// No paths. Those to come are hashed with this key.
    pub(crate) fn new(alloc: Global, key: NameKey) -> PathSet
        ensures { result ≡ [] }
    {
        PathSet {
            alloc,
            paths: Vec::new(alloc),
            names: NameTable::new(alloc, key),
        }
    }

    /// The path at an index.
    pub(crate) fn get(&self, index: usize) -> Option<&Path>
        ensures path { option_map (λ path. path.now) result ≡ slice_get self.now index }
        ensures few { IfSome result (λ path. index + 1 < 2 ^ 64) }
    {
        self.paths.get(index)
    }

    /// The paths, in order.
    pub(crate) fn into_vec(self) -> Vec<Path>
        ensures { result.items ≡ self }
    {
        self.paths
    }

    /// The set with a path, at the end unless it is there.
    pub(crate) fn with(self, path: &Path) -> Result<PathSet, NoMemory>
        ensures { IfOk result (λ set. set ≡ insert_key bytes_eq self path.now) }
    {
        if self.names.contains(path.as_bytes()) {
            return Ok(self);
        }
        let PathSet {
            alloc,
            mut paths,
            mut names,
        } = self;
        let name = Text::from_slice(alloc, path.as_bytes())?;
        names.insert(name, ())?;
        paths.push(path.copy()?)?;
        Ok(PathSet {
            alloc,
            paths,
            names,
        })
    }
}
