//! Tables of paths, folders and copies.
use cx_base::{
    Answer, Bytes, DiskFiles, Entry, FileRequest, Files, Finding, Id, List, Lost, MemoryFiles,
    Path, Place, SeenEntry, Severity, SharedList, StdSink, Stored, Text, Word, can_stand,
    is_simple, simple, write_whole,
};
use std::alloc::Global;
use std::io;
use std::io::{ErrorKind, Write};
use std::process::Abort;
use std::test::Fail;

/// Paths, and whether they are simple.
const PATHS: [(&str, bool); 27] = [
    ("a.c", true),
    ("a/c.c", true),
    ("./a//b/../c.c", false),
    (".", true),
    ("/", true),
    ("", false),
    ("..", true),
    ("../..", true),
    ("../../a", true),
    ("a/..", false),
    ("a/../b", false),
    ("/..", true),
    ("/../a", true),
    ("/../../a", true),
    ("/../a/..", false),
    ("/./..", false),
    ("../a", true),
    ("a//b", false),
    ("/a", true),
    ("/a/b", true),
    ("a/", false),
    ("//", false),
    ("//a", false),
    ("./a", false),
    ("a/./b", false),
    ("..c", true),
    (".c", true),
];

/// Folders of files, and their members: a name behind `/` is that of a folder.
const FOLDERS: [(&str, Option<&str>); 11] = [
    (".", Some("a.c d/ d0 ")),
    ("d", Some("b.c b.h e/ ")),
    ("d/e", Some("c.c ")),
    ("/r", Some("x.c ")),
    ("..", Some("u.c ")),
    ("", Some("r/ ")),
    ("/", None),
    ("none", None),
    ("a.c", None),
    ("d/b", None),
    ("./d", None),
];

const FILES: [&str; 7] = ["d/e/c.c", "d/b.h", "a.c", "d0", "d/b.c", "/r/x.c", "../u.c"];

/// Paths of files, and whether the files can stand side by side.
const SIDE_BY_SIDE: [(&[&str], bool); 7] = [
    (&[], true),
    (&FILES, true),
    (&["a.c", "b.c", "a.c"], false),
    (&["./a.c"], false),
    (&["."], false),
    (&["a", "a/b"], false),
    (&["a/b", "a.b"], true),
];

fn stored_of(alloc: Global, paths: &[&'static str]) -> Result<List<Stored>, Fail> {
    let mut list = List::new(alloc);
    for path in paths {
        list.push(Stored {
            path: Path::from_str(alloc, path)?,
            bytes: Bytes::from_slice(alloc, path.as_bytes())?,
        })?;
    }
    Ok(list)
}

fn files_in_memory(
    alloc: Global,
    paths: &[&'static str],
    failing: List<u64>,
) -> Result<MemoryFiles, Fail> {
    let stored = stored_of(alloc, paths)?;
    if !can_stand(stored.as_slice()) {
        return Err(Fail::from("these files cannot stand side by side"));
    }
    Ok(MemoryFiles::new(alloc, stored, failing))
}

// The members as one text.
fn members_text(alloc: Global, entries: &[Entry]) -> Result<Bytes, Fail> {
    let mut text = Bytes::new(alloc);
    for entry in entries {
        text.push_all(entry.name.as_bytes())?;
        text.push_all(if entry.folder {
            b"/ ".as_slice()
        } else {
            b" ".as_slice()
        })?;
    }
    Ok(text)
}

#[test]
fn simple_paths_have_one_form(rt: HostRuntime) -> Result<(), Fail> {
    for (path, simple) in PATHS {
        assert_eq!(rt;
            is_simple(&Path::from_str(rt.alloc(), path)?),
            simple,
            "{path}"
        );
    }
    Ok(())
}

/// Paths, and the simple path that leads where each does.
const SIMPLE_PATHS: [(&str, &str); 14] = [
    ("./a//b/../c.c", "a/c.c"),
    ("a.c", "a.c"),
    ("", "."),
    (".", "."),
    ("a/..", "."),
    ("a/../..", ".."),
    ("../a", "../a"),
    ("../../a/./../b", "../../b"),
    ("/", "/"),
    ("//", "/"),
    ("/a/..", "/"),
    ("/..", "/.."),
    ("/../a//", "/../a"),
    ("a/b/c/../../d", "a/d"),
];

#[test]
fn simple_paths_lead_where_the_path_does(rt: HostRuntime) -> Result<(), Fail> {
    for (path, expected) in SIMPLE_PATHS {
        let found = simple(&Path::from_str(rt.alloc(), path)?)?;
        assert_eq!(rt; found.as_str(), expected, "{path}");
        assert!(rt; is_simple(&found), "{path}");
    }
    Ok(())
}

#[test]
fn a_shared_list_has_its_members_in_each_copy(rt: HostRuntime) -> Result<(), Fail> {
    let mut list = List::new(rt.alloc());
    list.push(3usize)?;
    list.push(5)?;
    let shared = SharedList::from_list(rt.alloc(), list)?;
    let copy = shared.share()?;
    drop(shared);
    assert_eq!(rt; copy.as_slice(), [3, 5].as_slice());
    let empty: SharedList<usize> = SharedList::new();
    assert_eq!(rt; empty.share()?.len(), 0);
    Ok(())
}

#[test]
fn files_stand_side_by_side(rt: HostRuntime) -> Result<(), Fail> {
    for (paths, stand) in SIDE_BY_SIDE {
        let stored = stored_of(rt.alloc(), paths)?;
        assert_eq!(rt; can_stand(stored.as_slice()), stand, "{paths:?}");
    }
    Ok(())
}

// Lists a folder, and compares what it gives.
fn try_list(
    rt: &(impl Abort + AllocGlobal),
    files: &mut MemoryFiles,
    folder: &'static str,
    members: Option<&'static str>,
) -> Result<(), Fail> {
    let path = Path::from_str(rt.alloc(), folder)?;
    let Ok(listed) = files.list(&path) else {
        return Err(Fail::from("a list that failed"));
    };
    let Some(entries) = listed else {
        assert!(rt; members.is_none(), "{folder}");
        return Ok(());
    };
    let text = members_text(rt.alloc(), entries.as_slice())?;
    assert!(rt;
        text.as_slice() == members.unwrap_or("none").as_bytes(),
        "{folder}"
    );
    Ok(())
}

#[test]
fn folders_have_their_members_in_order(rt: HostRuntime) -> Result<(), Fail> {
    let mut files = files_in_memory(rt.alloc(), &FILES, List::new(rt.alloc()))?;
    for (folder, members) in FOLDERS {
        try_list(&rt, &mut files, folder, members)?;
    }
    Ok(())
}

/// Reads of files: how many bytes at most, and what they give.
const READS: [(&str, u64, Option<&str>); 4] = [
    ("d/b.c", 3, Some("d/b")),
    ("d/b.c", 9, Some("d/b.c")),
    ("d", 9, None),
    ("x", 9, None),
];

// Reads a file, and compares what it gives.
fn try_read(
    rt: &(impl Abort + AllocGlobal),
    files: &mut MemoryFiles,
    path: &'static str,
    most: u64,
    front: Option<&'static str>,
) -> Result<(), Fail> {
    let name = Path::from_str(rt.alloc(), path)?;
    let Ok(got) = files.read(&name, most) else {
        return Err(Fail::from("a read that failed"));
    };
    let Some(bytes) = got else {
        assert!(rt; front.is_none(), "{path}");
        return Ok(());
    };
    assert!(rt;
        bytes.as_slice() == front.unwrap_or("none").as_bytes(),
        "{path}"
    );
    Ok(())
}

#[test]
fn files_give_their_front(rt: HostRuntime) -> Result<(), Fail> {
    let mut files = files_in_memory(rt.alloc(), &FILES, List::new(rt.alloc()))?;
    for (path, most, front) in READS {
        try_read(&rt, &mut files, path, most, front)?;
    }
    Ok(())
}

#[test]
fn answered_calls_are_noted_in_order(rt: HostRuntime) -> Result<(), Fail> {
    let mut failing = List::new(rt.alloc());
    failing.push(1)?;
    let mut files = files_in_memory(rt.alloc(), &FILES, failing)?;
    let path = Path::from_str(rt.alloc(), "d")?;
    assert!(rt; files.list(&path).is_ok());
    assert!(rt; files.read(&path, 5).is_err());
    match files.calls() {
        [first, second] => {
            assert!(rt; first.path.as_str() == "d" && second.path.as_str() == "d");
            assert!(rt; first.request == FileRequest::List && !first.failed);
            assert!(rt; second.request == FileRequest::Read { most: 5 } && second.failed);
        }
        _ => return Err(Fail::from("another number of calls")),
    }
    Ok(())
}

/// A stream that takes a few bytes a call, and of which the first calls are interrupted.
#[derive(Drop)]
struct SlowStream {
    taken: Vec<u8>,
    most: usize,
    interruptions: u64,
}

impl Write for SlowStream {
    fn write(&mut self, bytes: &[u8]) -> io::Result<usize> {
        if self.interruptions > 0 {
            self.interruptions -= 1;
            return Err(io::Error::from(ErrorKind::Interrupted));
        }
        let count = bytes.len().min(self.most);
        self.taken.extend_from_slice(&bytes[..count])?;
        Ok(count)
    }

    fn flush(&mut self) -> io::Result<()> {
        Ok(())
    }
}

/// Streams by the bytes that they take a call and by their interruptions, and what they then have
/// of `one two`; a stream that takes nothing fails.
const STREAMS: [(usize, u64, bool, &str); 4] = [
    (1, 0, true, "one two"),
    (4, 1, true, "one two"),
    (100, 3, true, "one two"),
    (0, 0, false, ""),
];

#[test]
fn streams_get_the_bytes_that_are_written(rt: HostRuntime) -> Result<(), Fail> {
    for (most, interruptions, whole, text) in STREAMS {
        let mut stream = SlowStream {
            taken: Vec::new(rt.alloc()),
            most,
            interruptions,
        };
        let written = write_whole(&mut StdSink::new(&mut stream), b"one two");
        assert!(rt; written == if whole { Ok(()) } else { Err(Lost::Failed) });
        assert!(rt; stream.taken.as_slice() == text.as_bytes());
    }
    Ok(())
}

/// Reads of the system's own files, of at most 3 bytes, and what they give.
const SYSTEM_READS: [(&str, Option<&[u8]>); 5] = [
    ("/dev/null", Some(b"")),
    ("/dev/zero", Some(b"\0\0\0")),
    ("/dev", None),
    ("/dev/null/x", None),
    ("/dev/there is no such device", None),
];

#[test]
fn devices_are_read_and_folders_are_not(rt: HostRuntime) -> Result<(), Fail> {
    let mut files = DiskFiles::new(rt.clone()?);
    for (path, bytes) in SYSTEM_READS {
        let name = Path::from_str(rt.alloc(), path)?;
        let Ok(read) = files.read(&name, 3) else {
            return Err(Fail::from("a read that failed"));
        };
        match (&read, bytes) {
            (Some(front), Some(bytes)) => assert!(rt; front.as_slice() == bytes, "{path}"),
            (None, None) => {}
            _ => return Err(Fail::from("another answer")),
        }
    }
    let devices = files.list(&Path::from_str(rt.alloc(), "/dev")?);
    assert!(rt; matches!(devices, Ok(Some(_))));
    Ok(())
}

fn finding(alloc: Global) -> Result<Finding, Fail> {
    let mut words = List::new(alloc);
    words.push(Word::Text(Text::from_slice(alloc, b"x")?))?;
    words.push(Word::Number(-1))?;
    let place = Place {
        file: 0,
        line: 1,
        column: 2,
    };
    let mut others = List::new(alloc);
    others.push(place)?;
    Ok(Finding {
        id: Id::UninitVar,
        severity: Severity::Error,
        place,
        others,
        words,
    })
}

#[test]
fn copies_are_equal(rt: HostRuntime) -> Result<(), Fail> {
    let alloc = rt.alloc();
    let mut entries = List::new(alloc);
    entries.push(Entry {
        name: Path::from_str(alloc, "b.c")?,
        folder: false,
    })?;
    let mut seen = List::new(alloc);
    seen.push(SeenEntry {
        path: Path::from_str(alloc, "d")?,
        answer: Answer::Folder(entries),
    })?;
    let copy = seen.copy()?;
    match copy.as_slice() {
        [
            SeenEntry {
                path,
                answer: Answer::Folder(entries),
            },
        ] => {
            assert!(rt; path.as_str() == "d");
            assert_eq!(rt; entries.len(), 1);
        }
        _ => return Err(Fail::from("another answer")),
    }
    let copy = finding(alloc)?.copy()?;
    assert_eq!(rt; copy.words.len(), 2);
    assert_eq!(rt;
        copy.others.as_slice(),
        [Place {
            file: 0,
            line: 1,
            column: 2
        }]
        .as_slice()
    );
    Ok(())
}
