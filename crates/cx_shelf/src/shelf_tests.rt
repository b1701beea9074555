//! Shelves for tests.
use crate::indexed::IndexedShelf;
use crate::shelf::Shelved;
use cx_base::{List, NoMemory, Path};
use cx_lex::lex;
use cx_table::NameKey;
use std::alloc::{AllocError, Global};

/// The pieces of a file.
pub(crate) fn shelved(
    alloc: Global,
    path: &str,
    text: &str,
    number: u32,
) -> Result<Shelved, NoMemory> {
    if text.len() >= 4_294_967_295 {
        return Err(NoMemory);
    }
    let Ok(lexed) = lex(alloc, text.as_bytes(), number) else {
        return Err(NoMemory);
    };
    let path = Path::from_str(alloc, path)?;
    Ok(Shelved { path, lexed })
}

/// A shelf of no files, with the folders `i` and `j`.
pub(crate) fn no_files(alloc: Global) -> Result<IndexedShelf, NoMemory> {
    let mut folders = List::new(alloc);
    for folder in ["i", "j"] {
        folders.push(Path::from_str(alloc, folder)?)?;
    }
    Ok(IndexedShelf::new(alloc, NameKey::of(b"shelf")).with_folders(folders))
}

/// Files as a shelf with the folders `i` and `j`.
pub(crate) fn shelf_of(alloc: Global, files: &[(&str, &str)]) -> Result<IndexedShelf, NoMemory> {
    let mut shelf = no_files(alloc)?;
    let mut number: u32 = 0;
    for (path, text) in files {
        shelf = shelf.with(shelved(alloc, path, text, number)?)?;
        number = number.saturating_add(1);
    }
    Ok(shelf)
}

/// A unit, and so many headers of which each includes the next, but for the last.
pub(crate) fn chain_of(alloc: Global, count: u32) -> Result<IndexedShelf, NoMemory> {
    let mut shelf = shelf_of(alloc, &[("a.c", "#include \"1.h\"\n")])?;
    for number in 1..count {
        let next = number.saturating_add(1);
        let path = format!(in alloc; "{number}.h")?;
        let text = format!(in alloc; "#include \"{next}.h\"\n")?;
        shelf = shelf.with(shelved(alloc, path.as_str(), text.as_str(), number)?)?;
    }
    let path = format!(in alloc; "{count}.h")?;
    shelf.with(shelved(alloc, path.as_str(), "last\n", count)?)
}
