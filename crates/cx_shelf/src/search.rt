//! Where the file of an include is looked for (C11 6.10.2).
ghost use Rattle.std.specs.Prelude.{◌≡◌, ◌++◌, [], IfOk, OnOk, map, string_bytes};
ghost use Rattle.cx_base.specs.Simple.{is_rooted, simple_path};
ghost use Rattle.cx_table.specs.NameTable.{value_of};
ghost use Rattle.cx_shelf.specs.Searches.{candidates, folder_part, found, in_folder, own_candidates};
ghost use Rattle.cx_shelf.specs.Shapes.Searching.{first_among, with_first};

use crate::indexed::IndexedShelf;
use cx_base::{NoMemory, Path, Text, simple};
use cx_directive::{IncludeName, Target};
use cx_table::{NameKey, NameTable};
use std::alloc::Global;
use std::marker::Model;
use std::str;

/// The paths of the files of a shelf, each with the number of its file.
#[derive(Drop)]
pub(crate) struct Paths {
    numbers: NameTable<usize>,
}

impl Model for Paths {
    ghost use Rattle.std.specs.Prelude.{ℕ};
    ghost use Rattle.cx_table.specs.NameTable.{Entries};

    ghost Value = { Entries ℕ };

    ghost view = { λ p. p.numbers };
}

impl Paths {
    /// No paths. Those to come are hashed under this key.
    pub(crate) fn new(alloc: Global, key: NameKey) -> Paths
        ensures { result ≡ [] }
    {
        Paths {
            numbers: NameTable::new(alloc, key),
        }
    }

    /// Gives a path a number, unless it has one.
    #[tactic(auto, using(crate::proofs::SearchLaws::first_there, crate::proofs::SearchLaws::first_new))]
    pub(crate) fn insert_first(
        &mut self,
        alloc: Global,
        path: &Path,
        number: usize,
    ) -> Result<(), NoMemory>
        ensures { OnOk result (self.new ≡ with_first path.now number self.old) }
    {
        if !self.numbers.contains(path.as_bytes()) {
            let name = Text::from_slice(alloc, path.as_bytes())?;
            self.numbers.insert(name, number)?;
        }
        Ok(())
    }

    /// The number of the file with a path.
    pub(crate) fn number_of(&self, path: &Path) -> Option<usize>
        ensures { result ≡ value_of self.now path.now }
    {
        self.numbers.get(path.as_bytes()).copied()
    }
}

/// The number of the file that an include in a file leads to, where it leads to one.
pub fn found(
    alloc: Global,
    shelf: &IndexedShelf,
    includer: &str,
    target: &Target,
) -> Result<Option<usize>, NoMemory>
    ensures { IfOk result (λ r. r ≡ found shelf.now includer.now target.now) }
{
    if target.computed {
        return Ok(None);
    }
    let Ok(name) = str::from_utf8(target.name.name.as_slice()) else {
        return Ok(None);
    };
    found_by_name(
        alloc,
        shelf.paths(),
        shelf.shelf().folders.as_slice(),
        includer,
        &target.name,
        name,
    )
}

/// The number of the first candidate that is the path of a file, where `name` is what stands
/// between the delimiters of the include.
fn found_by_name(
    alloc: Global,
    paths: &Paths,
    folders: &[Path],
    includer: &str,
    include: &IncludeName,
    name: &str,
) -> Result<Option<usize>, NoMemory>
    requires { name.now ≡ include.now.name }
    ensures { IfOk result
        (λ r. r ≡ first_among paths.now (candidates folders.now includer.now include.now)) }
{
    if is_rooted(name) {
        return found_at(alloc, paths, name);
    }
    let own = found_beside(alloc, paths, includer, include, name)?;
    if own.is_some() {
        return Ok(own);
    }
    found_in_folders(alloc, paths, folders, name)
}

/// The number of the file with a name in the folder of the file that includes, where the name
/// stands in `"`.
#[tactic(auto, using(crate::proofs::SearchLaws::among_nothing, crate::proofs::SearchLaws::among_one))]
fn found_beside(
    alloc: Global,
    paths: &Paths,
    includer: &str,
    include: &IncludeName,
    name: &str,
) -> Result<Option<usize>, NoMemory>
    requires { name.now ≡ include.now.name }
    ensures { IfOk result
        (λ r. r ≡ first_among paths.now (own_candidates includer.now include.now)) }
{
    if include.quoted {
        let path = beside(alloc, includer, name)?;
        found_at(alloc, paths, path.as_str())
    } else {
        Ok(None)
    }
}

/// Whether a path begins with `/`.
fn is_rooted(path: &str) -> bool
    ensures { result ≡ is_rooted path.now }
{
    path.starts_with("/")
}

/// The number of the file that a path leads to.
fn found_at(alloc: Global, paths: &Paths, path: &str) -> Result<Option<usize>, NoMemory>
    ensures { IfOk result (λ r. r ≡ value_of paths.now (simple_path path.now)) }
{
    let path = Path::from_str(alloc, path)?;
    let path = simple(&path)?;
    Ok(paths.number_of(&path))
}

/// A name in the folder of the file that includes.
fn beside(alloc: Global, includer: &str, name: &str) -> Result<String, NoMemory>
    ensures { IfOk result (λ path. string_bytes path ≡ folder_part includer.now ++ name.now) }
{
    let mut path = String::from_str(alloc, folder_part(includer))?;
    path.push_str(name)?;
    Ok(path)
}

/// The path of a file up to its last `/`.
pub fn folder_part(path: &str) -> &str
    ensures { result.now ≡ folder_part path.now }
{
    match path.rfind('/') {
        Some(at) => &path[..at + 1],
        None => "",
    }
}

/// The number of the file with a name in the first folder that has one.
fn found_in_folders(
    alloc: Global,
    paths: &Paths,
    folders: &[Path],
    name: &str,
) -> Result<Option<usize>, NoMemory>
    ensures { IfOk result (λ r. r ≡ first_among paths.now
        (map (λ folder. simple_path (in_folder folder name.now)) folders.now)) }
{
    for folder in folders {
        let number = found_in_folder(alloc, paths, folder.as_str(), name)?;
        if number.is_some() {
            return Ok(number);
        }
    }
    Ok(None)
}

/// The number of the file with a name in a folder.
fn found_in_folder(
    alloc: Global,
    paths: &Paths,
    folder: &str,
    name: &str,
) -> Result<Option<usize>, NoMemory>
    ensures { IfOk result
        (λ r. r ≡ value_of paths.now (simple_path (in_folder folder.now name.now))) }
{
    let path = in_folder(alloc, folder, name)?;
    found_at(alloc, paths, path.as_str())
}

/// A folder before a name; the empty one is the present folder.
pub fn in_folder(alloc: Global, folder: &str, name: &str) -> Result<String, NoMemory>
    ensures { IfOk result (λ path. string_bytes path ≡ in_folder folder.now name.now) }
{
    let mut path = String::from_str(alloc, folder)?;
    if !folder.is_empty() {
        path.push_str("/")?;
    }
    path.push_str(name)?;
    Ok(path)
}
