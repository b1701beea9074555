//! The folders that the paths of stored files make, and their members.
ghost use Rattle.std.specs.Prelude.{◌≡◌, MatchOption, Some, None, IfOk};
ghost use Rattle.cx_base.specs.Folders.{rest_after, inside, first_entry, is_elsewhere, is_folder, is_slash};
ghost use Rattle.std.specs.List.{before_first, list_any};

use crate::answers::{Entry, Stored};
use crate::errors::NoMemory;
use crate::path::Path;
use std::alloc::Global;

// The rest of a text after a front, where the text begins with it.
pub(crate) fn rest_after<'a>(front: &str, text: &'a str) -> Option<&'a str>
    ensures { MatchOption result
        (rest_after front.now text.now ≡ None)
        (λ rest. rest_after front.now text.now ≡ Some rest.now) }
{
    text.strip_prefix(front)
}

fn is_elsewhere(path: &str) -> bool
    ensures { result ≡ is_elsewhere path.now }
{
    path.starts_with("/") || path.starts_with("../")
}

// A path as it is seen from inside a folder, where it is in there.
pub(crate) fn inside<'a>(folder: &str, path: &'a str) -> Option<&'a str>
    ensures { MatchOption result
        (inside folder.now path.now ≡ None)
        (λ rest. inside folder.now path.now ≡ Some rest.now) }
{
    if folder == "." {
        if is_elsewhere(path) { None } else { Some(path) }
    } else {
        rest_after("/", rest_after(folder, path)?)
    }
}

// What stands before the first `/`, or all where there is none.
fn first_component(path: &str) -> &str
    ensures { result.now ≡ before_first is_slash path.now }
{
    match path.split_once('/') {
        Some((name, _)) => name,
        None => path,
    }
}

fn has_slash(path: &str) -> bool
    ensures { result ≡ list_any is_slash path.now }
{
    path.as_bytes().iter().any(|b| *b == b'/')
}

// The first component of a path, which is a folder where more follow.
pub(crate) fn first_entry(alloc: Global, path: &str) -> Result<Entry, NoMemory>
    ensures { IfOk result (λ entry. entry ≡ first_entry path.now) }
{
    let name = Path::from_str(alloc, first_component(path))?;
    Ok(Entry {
        name,
        folder: has_slash(path),
    })
}

/// Whether a path is a folder beside these files.
pub(crate) fn is_folder(stored: &[Stored], path: &str) -> bool
    ensures { result ≡ is_folder stored.now path.now }
{
    if path == "." {
        return true;
    }
    for file in stored {
        if inside(path, file.path.as_str()).is_some() {
            return true;
        }
    }
    false
}
