//! A shelf whose files are found by their paths.
ghost use Rattle.std.specs.Prelude.{◌≡◌, ◌++◌, [], ◌∷◌, IfOk};
ghost use Rattle.cx_shelf.specs.Shelves.{number_of};
ghost use Rattle.cx_shelf.specs.Shapes.Searching.{AreNumbers};

use crate::search::Paths;
use crate::shelf::{Shelf, Shelved};
use cx_base::{List, NoMemory, Path};
use cx_table::NameKey;
use std::alloc::Global;
use std::marker::Model;

/// A shelf, with a table from the paths of its files to their numbers. Contracts see the shelf.
/// No contract bounds the time in which a file is found, nor pins the key of the table.
#[derive(Drop)]
pub struct IndexedShelf {
    alloc: Global,
    shelf: Shelf,
    paths: Paths,
}

impl Model for IndexedShelf {
    ghost use Rattle.cx_shelf.specs.declared.shelf.Shelf.{Shelf};
    ghost use Rattle.cx_shelf.specs.Shapes.Searching.{AreNumbers};

    ghost Value = { Shelf };

    ghost view = { λ s. s.shelf };

    ghost invariant = { λ s. AreNumbers s.paths s.shelf };
}

impl IndexedShelf {
    /// A shelf without folders and files. The paths to come are hashed under this key.
    #[tactic(auto, using(crate::proofs::SearchLaws::no_numbers))]
    pub fn new(alloc: Global, key: NameKey) -> IndexedShelf
        ensures { result ≡ record { folders = []; files = [] } }
    {
        IndexedShelf {
            alloc,
            shelf: Shelf {
                folders: List::new(alloc),
                files: List::new(alloc),
            },
            paths: Paths::new(alloc, key),
        }
    }

    /// The shelf with these folders of `-I`, and no others.
    #[tactic(auto, using(crate::proofs::SearchLaws::other_folders))]
    pub fn with_folders(self, folders: List<Path>) -> IndexedShelf
        ensures { result ≡ record { folders = folders; files = self.files } }
    {
        let IndexedShelf {
            alloc,
            shelf,
            paths,
        } = self;
        IndexedShelf {
            alloc,
            shelf: Shelf {
                folders,
                files: shelf.files,
            },
            paths,
        }
    }

    /// The shelf with a file more, behind the others.
    #[tactic(auto, using(crate::proofs::SearchLaws::one_number_more))]
    pub fn with(self, file: Shelved) -> Result<IndexedShelf, NoMemory>
        ensures { IfOk result (λ s. s
            ≡ record { folders = self.folders; files = self.files ++ file ∷ [] }) }
    {
        let IndexedShelf {
            alloc,
            mut shelf,
            mut paths,
        } = self;
        paths.insert_first(alloc, &file.path, shelf.files.len())?;
        shelf.files.push(file)?;
        Ok(IndexedShelf {
            alloc,
            shelf,
            paths,
        })
    }

    /// The shelf.
    pub fn shelf(&self) -> &Shelf
        ensures { result.now ≡ self.now }
    {
        &self.shelf
    }

    /// The number of the file with a path.
    pub fn number_of(&self, path: &Path) -> Option<usize>
        ensures { result ≡ number_of self.now path.now }
    {
        self.paths.number_of(path)
    }

    /// The paths of the files.
    pub(crate) fn paths(&self) -> &Paths
        ensures { AreNumbers result.now self.now }
    {
        &self.paths
    }
}
