//! Where the file of an include is found.
use crate::indexed::IndexedShelf;
use crate::search::found;
use crate::shelf::Shelved;
use cx_base::{List, NoMemory, Path, Place, Text};
use cx_directive::{IncludeName, Target, header_name};
use cx_lex::{Lexed, lex};
use cx_table::NameKey;
use std::alloc::Global;

/// The paths of the files, the folders of `-I`, the file that includes, what it includes, and the
/// number of the file that is found.
const SEARCHES: [(&[&str], &[&str], &str, &str, Option<usize>); 28] = [
    (&["a.c", "x.h"], &[], "a.c", "\"x.h\"", Some(1)),
    (&["x.h", "s/x.h"], &[], "s/a.c", "\"x.h\"", Some(1)),
    (&["x.h", "s/x.h"], &[], "a.c", "\"s/x.h\"", Some(1)),
    (&["x.h", "s/x.h"], &[], "s/a.c", "\"../x.h\"", Some(0)),
    (&["x.h", "s/x.h"], &[], "s/a.c", "\"./.././x.h\"", Some(0)),
    (&["s/u/x.h"], &[], "s/t/a.c", "\"../u/x.h\"", Some(0)),
    (&["../x.h"], &[], "s/a.c", "\"../../x.h\"", Some(0)),
    (&["/x.h"], &[], "/a.c", "\"x.h\"", Some(0)),
    (&["/x.h", "/../x.h"], &[], "/a.c", "\"../x.h\"", Some(1)),
    (&["b/x.h", "/b/x.h"], &["b"], "a.c", "</b/x.h>", Some(1)),
    (&["/x.h"], &[], "a.c", "\"/b/../x.h\"", Some(0)),
    (&["b/b/x.h", "b/x.h"], &["b", ""], "a.c", "</b/x.h>", None),
    (&["x.h"], &[""], "s/a.c", "<x.h>", Some(0)),
    (&["x.h"], &["."], "s/a.c", "<x.h>", Some(0)),
    (&["x.h"], &["s/.."], "s/a.c", "<x.h>", Some(0)),
    (&["x.h"], &[], "s/a.c", "\"x.h\"", None),
    (&["s/x.h"], &[], "s/a.c", "<x.h>", None),
    (&["s/x.h", "i/x.h"], &["i"], "s/a.c", "<x.h>", Some(1)),
    (&["s/x.h", "i/x.h"], &["i"], "s/a.c", "\"x.h\"", Some(0)),
    (&["i/x.h", "j/x.h"], &["j", "i"], "a.c", "<x.h>", Some(1)),
    (&["i/x.h"], &["j", "i"], "a.c", "\"x.h\"", Some(0)),
    (&["i/s/x.h"], &["i/"], "a.c", "<s/x.h>", Some(0)),
    (&["../x.h"], &[".."], "a.c", "<x.h>", Some(0)),
    (&["i/x.h"], &["i", "i"], "a.c", "<x.h>", Some(0)),
    (&["x.h", "x.h"], &[], "a.c", "\"x.h\"", Some(0)),
    (&["./x.h"], &[""], "a.c", "\"x.h\"", None),
    (&["i/é.h"], &["i"], "a.c", "<é.h>", Some(0)),
    (&[], &["i"], "a.c", "\"x.h\"", None),
];

/// The paths of these texts.
fn paths_of(alloc: Global, texts: &[&str]) -> Result<List<Path>, NoMemory> {
    let mut paths = List::new(alloc);
    for text in texts {
        paths.push(Path::from_str(alloc, text)?)?;
    }
    Ok(paths)
}

/// A shelf of empty files.
fn shelf_of(alloc: Global, files: &[&str], folders: &[&str]) -> Result<IndexedShelf, NoMemory> {
    let folders = paths_of(alloc, folders)?;
    let mut shelf = IndexedShelf::new(alloc, NameKey::of(b"search")).with_folders(folders);
    for file in files {
        let lexed = Lexed {
            pieces: List::new(alloc),
            comments: List::new(alloc),
        };
        let path = Path::from_str(alloc, file)?;
        shelf = shelf.with(Shelved { path, lexed })?;
    }
    Ok(shelf)
}

/// The header's name that these bytes are.
fn include_of(alloc: Global, bytes: &[u8]) -> Result<Option<IncludeName>, NoMemory> {
    let mut line = Text::from_slice(alloc, b"#include ")?;
    line.push_all(bytes)?;
    if line.len() > 100 {
        return Ok(None);
    }
    let Ok(lexed) = lex(alloc, line.as_slice(), 0) else {
        return Ok(None);
    };
    match lexed.pieces.as_slice().get(2) {
        Some(piece) => Ok(Some(header_name(alloc, &piece.token)?)),
        None => Ok(None),
    }
}

#[test]
fn files_are_found(rt: HostRuntime) {
    let alloc = rt.alloc();
    for (files, folders, includer, include, expected) in SEARCHES {
        let shelf = shelf_of(alloc, files, folders).expect(&rt, "memory");
        let Some(name) = include_of(alloc, include.as_bytes()).expect(&rt, "memory") else {
            panic!(rt; "no header's name: {include}");
        };
        let target = Target {
            name,
            computed: false,
        };
        let number = found(alloc, &shelf, includer, &target).expect(&rt, "memory");
        assert_eq!(rt; number, expected, "at {include} in {includer}");
    }
}

/// A quoted name, and whether it is computed.
fn target_of(alloc: Global, name: &[u8], computed: bool) -> Result<Target, NoMemory> {
    Ok(Target {
        name: IncludeName {
            name: Text::from_slice(alloc, name)?,
            quoted: true,
            at: Place {
                file: 0,
                line: 1,
                column: 10,
            },
        },
        computed,
    })
}

#[test]
fn some_names_lead_nowhere(rt: HostRuntime) {
    let alloc = rt.alloc();
    let shelf = shelf_of(alloc, &["x.h"], &["", "i"]).expect(&rt, "memory");
    for (name, computed, expected) in [
        (b"x.h".as_slice(), false, Some(0)),
        (b"x.h", true, None),
        (b"\xff", false, None),
        (b"\xc3", true, None),
    ] {
        let target = target_of(alloc, name, computed).expect(&rt, "memory");
        let number = found(alloc, &shelf, "a.c", &target).expect(&rt, "memory");
        assert_eq!(rt; number, expected);
    }
}
