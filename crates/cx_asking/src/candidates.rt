//! The paths that are tried for an include (C11 6.10.2).
ghost use Rattle.std.specs.Prelude.{◌≡◌, ◌++◌, [], ◌∷◌, IfOk, OnOk, if◌then◌else◌, map};
ghost use Rattle.cx_base.specs.Simple.{simple_path};
ghost use Rattle.cx_shelf.specs.Searches.{folder_part, in_folder};
ghost use Rattle.cx_asking.specs.Includes.{tried};

use cx_base::{NoMemory, Path, simple};
use cx_shelf::{IncludeName, folder_part, in_folder};
use std::alloc::Global;
use std::str;

/// The simple path of a text.
pub(crate) fn simple_of(alloc: Global, text: &str) -> Result<Path, NoMemory>
    ensures { IfOk result (λ path. path ≡ simple_path text.now) }
{
    let path = Path::from_str(alloc, text)?;
    simple(&path)
}

/// Adds the path in the folder of the file that includes, where the name stands in `"`.
fn push_own(
    alloc: Global,
    paths: &mut Vec<Path>,
    includer: &str,
    quoted: bool,
    name: &str,
) -> Result<(), NoMemory>
    ensures { OnOk result (paths.new.items ≡ paths.old.items ++ (if quoted
        then simple_path (folder_part includer.now ++ name.now) ∷ [] else [])) }
{
    if !quoted {
        return Ok(());
    }
    let mut path = String::from_str(alloc, folder_part(includer))?;
    path.push_str(name)?;
    paths.push(simple_of(alloc, path.as_str())?)?;
    Ok(())
}

/// Adds the paths in the folders of `-I`.
fn push_in_folders(
    alloc: Global,
    paths: &mut Vec<Path>,
    folders: &[Path],
    name: &str,
) -> Result<(), NoMemory>
    ensures { OnOk result (paths.new.items ≡ paths.old.items
        ++ map (λ folder. simple_path (in_folder folder name.now)) folders.now) }
{
    for folder in folders {
        let path = in_folder(alloc, folder.as_str(), name)?;
        paths.push(simple_of(alloc, path.as_str())?)?;
    }
    Ok(())
}

/// The paths that are tried for an include in a file. A name that is not UTF-8 has none.
pub(crate) fn tried(
    alloc: Global,
    folders: &[Path],
    includer: &Path,
    include: &IncludeName,
) -> Result<Vec<Path>, NoMemory>
    ensures { IfOk result (λ paths. paths.items ≡ tried folders.now includer.now include.now) }
{
    let mut paths = Vec::new(alloc);
    let Ok(name) = str::from_utf8(include.name.as_slice()) else {
        return Ok(paths);
    };
    if name.starts_with("/") {
        paths.push(simple_of(alloc, name)?)?;
        return Ok(paths);
    }
    push_own(alloc, &mut paths, includer.as_str(), include.quoted, name)?;
    push_in_folders(alloc, &mut paths, folders, name)?;
    Ok(paths)
}
