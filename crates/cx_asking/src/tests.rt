//! Askings of a few files, with the calls and answers that follow from them by hand.
ghost use Rattle.std.specs.Prelude.{◌≤◌, IfOk, None, length};

use crate::limits::Limits;
use crate::list_fault::FileFault;
use crate::{all_units, ask, closure, refused_list};
use cx_base::{Answer, Bytes, Entry, Files, List, Lost, NoMemory, Path};
use cx_options::{Options, are_in_bounds, options};
use cx_table::NameKey;
use std::alloc::Global;
use std::test::Fail;

/// What stands at a path.
#[derive(Clone, Copy)]
enum Content {
    File(&'static [u8]),
    /// The names of the members, in the order of the answer, none of them a folder.
    Folder(&'static [&'static str]),
}

/// A path, and what stands there.
type Row = (&'static str, Content);

/// A few files, which note each call in a line.
#[derive(Drop)]
struct FewFiles {
    alloc: Global,
    rows: &'static [Row],
    calls: Bytes,
}

fn few_files(alloc: Global, rows: &'static [Row]) -> FewFiles {
    FewFiles {
        alloc,
        rows,
        calls: Bytes::new(alloc),
    }
}

fn content_at(rows: &[Row], path: &str) -> Option<Content> {
    for (at, content) in rows {
        if *at == path {
            return Some(*content);
        }
    }
    None
}

fn front_of(alloc: Global, bytes: &[u8], most: u64) -> Result<Bytes, NoMemory>
    ensures { IfOk result (λ front. length front ≤ most) }
{
    let length = bytes.len().min(most as usize);
    Bytes::from_slice(alloc, &bytes[..length])
}

fn entries_of(alloc: Global, names: &[&'static str]) -> Result<List<Entry>, NoMemory> {
    let mut entries = List::new(alloc);
    for name in names {
        let name = Path::from_str(alloc, name)?;
        entries.push(Entry {
            name,
            folder: false,
        })?;
    }
    Ok(entries)
}

/// Adds a line: a word, and a path.
fn push_line(lines: &mut Bytes, word: &[u8], path: &Path) -> Result<(), NoMemory> {
    lines.push_all(word)?;
    lines.push_all(path.as_bytes())?;
    lines.push_all(b"\n")
}

impl Files for FewFiles {
    ghost state = { λ files. record { told = None; faults = 0 } };

    fn read(&mut self, path: &Path, most: u64) -> Result<Option<Bytes>, Lost> {
        push_line(&mut self.calls, b"read ", path)?;
        match content_at(self.rows, path.as_str()) {
            Some(Content::File(bytes)) => {
                let front = front_of(self.alloc, bytes, most)?;
                Ok(Some(front))
            }
            _ => Ok(None),
        }
    }

    fn list(&mut self, path: &Path) -> Result<Option<List<Entry>>, Lost> {
        push_line(&mut self.calls, b"list ", path)?;
        match content_at(self.rows, path.as_str()) {
            Some(Content::Folder(names)) => {
                let entries = entries_of(self.alloc, names)?;
                Ok(Some(entries))
            }
            _ => Ok(None),
        }
    }
}

const LIMITS: Limits = Limits {
    read: 100,
    kept: 60,
    folders: 10,
    depth: 5,
};

/// The options of words, each behind a space but the first.
fn options_of(alloc: Global, words: &str) -> Result<Options, Fail> {
    let mut paths = Vec::new(alloc);
    for word in words.split(' ') {
        paths.push(Path::from_str(alloc, word)?)?;
    }
    if !are_in_bounds(paths.as_slice()) {
        return Err(Fail::from("these words are too many or too long"));
    }
    match options(alloc, paths.as_slice()) {
        Ok(options) => Ok(options),
        Err(_) => Err(Fail::from("these words are refused")),
    }
}

/// Paths, each in a line.
fn lines_of(alloc: Global, paths: &[Path]) -> Result<Bytes, NoMemory> {
    let mut lines = Bytes::new(alloc);
    for path in paths {
        push_line(&mut lines, b"", path)?;
    }
    Ok(lines)
}

/// A folder whose members are answered in another order than that of their names. A header stands
/// in it and in `i`.
const FOLDER: &[Row] = &[
    ("d", Content::Folder(&["b.c", "n.h", "a.c"])),
    ("d/a.c", Content::File(b"#include \"n.h\"\n")),
    ("d/b.c", Content::File(b"#if 0\n#include <m.h>\n#endif\n")),
    ("d/n.h", Content::File(b"")),
    ("i/n.h", Content::File(b"")),
];

/// The folder is given twice, and a file of it is given too. The header in `i` stands behind one
/// that is there, and the include in the group that is skipped is asked.
#[test]
fn each_path_is_asked_once_in_order(rt: HostRuntime) -> Result<(), Fail> {
    let alloc = rt.alloc();
    let options = options_of(alloc, "-Ii d ./d d/a.c")?;
    let mut files = few_files(alloc, FOLDER);
    let asked = ask(alloc, NameKey::of(b"key"), &LIMITS, &options, &mut files)?;
    assert_eq!(rt;
        files.calls.as_slice(),
        b"list d\nread d/a.c\nread d/b.c\nread d/n.h\nread i/m.h\n".as_slice()
    );
    assert_eq!(rt; asked.faults.len(), 5);
    Ok(())
}

/// A list of two lines, with an empty one between them.
const LIST: &[Row] = &[
    ("l", Content::File(b"b.c\r\n\n./d/../a.c\n")),
    ("a.c", Content::File(b"")),
    ("b.c", Content::File(b"")),
];

#[test]
fn paths_of_lists_are_asked_behind_those_of_the_words(rt: HostRuntime) -> Result<(), Fail> {
    let alloc = rt.alloc();
    let key = NameKey::of(b"key");
    let options = options_of(alloc, "--file-list=l x.c")?;
    let mut files = few_files(alloc, LIST);
    let asked = ask(alloc, key, &LIMITS, &options, &mut files)?;
    let refused = refused_list(&asked.answers, options.lists.as_slice())?;
    if refused.is_some() {
        return Err(Fail::from("a list is refused"));
    }
    let units = all_units(alloc, key, &LIMITS, &options, &asked.answers)?;
    let lines = lines_of(alloc, units.as_slice())?;
    assert_eq!(rt; lines.as_slice(), b"b.c\na.c\n".as_slice());
    assert_eq!(rt;
        files.calls.as_slice(),
        b"read l\nlist x.c\nread x.c\nlist b.c\nread b.c\nlist a.c\nread a.c\n".as_slice()
    );
    Ok(())
}

/// A list whose second line is not UTF-8.
const BAD_LIST: &[Row] = &[
    ("l", Content::File(b"a.c\n\xff\n")),
    ("m", Content::File(b"a.c\n")),
];

#[test]
fn nothing_is_asked_behind_a_list_that_is_refused(rt: HostRuntime) -> Result<(), Fail> {
    let alloc = rt.alloc();
    let options = options_of(alloc, "a.c --file-list=l --file-list=m")?;
    let mut files = few_files(alloc, BAD_LIST);
    let asked = ask(alloc, NameKey::of(b"key"), &LIMITS, &options, &mut files)?;
    assert_eq!(rt; files.calls.as_slice(), b"read l\n".as_slice());
    let Some(refused) = refused_list(&asked.answers, options.lists.as_slice())? else {
        return Err(Fail::from("no list is refused"));
    };
    assert_eq!(rt; refused.word, 1);
    assert_eq!(rt; refused.path.as_str(), "l");
    assert_eq!(rt; refused.fault, FileFault::BadLine { line: 2 });
    Ok(())
}

/// A unit, a header beside it, and a header in `i` that both include.
const HEADERS: &[Row] = &[
    ("a.c", Content::File(b"#include <m.h>\n#include \"n.h\"\n")),
    ("n.h", Content::File(b"#include \"m.h\"\n")),
    ("i/m.h", Content::File(b"")),
];

#[test]
fn the_files_of_a_unit_stand_each_once(rt: HostRuntime) -> Result<(), Fail> {
    let alloc = rt.alloc();
    let key = NameKey::of(b"key");
    let options = options_of(alloc, "-Ii a.c")?;
    let mut files = few_files(alloc, HEADERS);
    let asked = ask(alloc, key, &LIMITS, &options, &mut files)?;
    let unit = Path::from_str(alloc, "a.c")?;
    let found = closure(alloc, key, &asked.answers, &asked.shelf, &unit)?;
    let lines = lines_of(alloc, found.as_slice())?;
    assert_eq!(rt; lines.as_slice(), b"a.c\ni/m.h\nn.h\n".as_slice());
    Ok(())
}

/// Files of 40, 30 and 20 bytes, of which 60 are kept.
const LONG: &[Row] = &[
    (
        "a.c",
        Content::File(b"//34567890//34567890//34567890//34567890"),
    ),
    ("b.c", Content::File(b"//34567890//34567890//34567890")),
    ("c.c", Content::File(b"//34567890//34567890")),
];

#[test]
fn a_file_past_the_bytes_that_are_kept_is_too_large(rt: HostRuntime) -> Result<(), Fail> {
    let alloc = rt.alloc();
    let options = options_of(alloc, "a.c b.c c.c")?;
    let mut files = few_files(alloc, LONG);
    let asked = ask(alloc, NameKey::of(b"key"), &LIMITS, &options, &mut files)?;
    let second = asked.answers.get(&Path::from_str(alloc, "b.c")?);
    assert!(rt; matches!(second, Some(Answer::TooLarge)));
    let third = asked.answers.get(&Path::from_str(alloc, "c.c")?);
    assert!(rt; matches!(third, Some(Answer::Present(_))));
    Ok(())
}
