//! How a case is written, and how it is run.
use crate::shown::shown_asked;
use crate::within::Within;
use cx_base::{Bytes, List, MemoryFiles, MemorySink, Path, Stored, can_stand};
use cx_options::are_in_bounds;
use cx_run::{Cause, Ended, run, run_within};
use std::alloc::Global;
use std::process::Abort;
use std::test::Fail;

/// A file: its path, and its bytes.
pub type File = (&'static str, &'static [u8]);

/// A sink to write to.
#[derive(Clone, Copy)]
pub enum Taking {
    /// One that takes all.
    All,
    /// One with room for so many bytes.
    Room(u64),
    /// One that takes so many bytes a call.
    Slow(u64),
    /// One of which the call with this number fails.
    Failing(u64),
}

/// What is run, and what it is to give.
#[derive(Clone, Copy)]
pub struct Case {
    pub name: &'static str,
    pub words: &'static [&'static str],
    pub files: &'static [File],
    /// The numbers of the calls on the files that fail.
    pub failing: &'static [u64],
    pub within: Within,
    pub out_sink: Taking,
    pub err_sink: Taking,
    pub cause: Cause,
    pub status: u8,
    pub out: &'static str,
    pub err: &'static str,
    /// The calls on the files in order, and behind the last call of each path what stands there.
    pub asked: &'static str,
}

/// A case of one word over whole sinks; its further fields are changed by the tables.
pub const PLAIN: Case = Case {
    name: "the empty file",
    words: &["a.c"],
    files: &[("a.c", b"")],
    failing: &[],
    within: Within::Command,
    out_sink: Taking::All,
    err_sink: Taking::All,
    cause: Cause::Done,
    status: 0,
    out: "Checking a.c ...\n",
    err: "",
    asked: "list a.c, read a.c: file",
};

/// A case where nothing is checked.
pub const REFUSED: Case = Case {
    status: 1,
    out: "",
    ..PLAIN
};

/// What is told where what was asked for is not served yet.
pub const NOT_BUILT: &str = "cppcheck: error: not built yet.\n";

fn files_of(alloc: Global, files: &[File]) -> Result<List<Stored>, Fail> {
    let mut list = List::new(alloc);
    for (path, bytes) in files {
        list.push(Stored {
            path: Path::from_str(alloc, path)?,
            bytes: Bytes::from_slice(alloc, bytes)?,
        })?;
    }
    Ok(list)
}

fn words_of(alloc: Global, texts: &[&'static str]) -> Result<Vec<Path>, Fail> {
    let mut words = Vec::new(alloc);
    for text in texts {
        words.push(Path::from_str(alloc, text)?)?;
    }
    Ok(words)
}

fn numbers_of(alloc: Global, numbers: &[u64]) -> Result<List<u64>, Fail> {
    let mut list = List::new(alloc);
    for number in numbers {
        list.push(*number)?;
    }
    Ok(list)
}

fn sink_of(alloc: Global, taking: Taking) -> Result<MemorySink, Fail> {
    match taking {
        Taking::All => Ok(MemorySink::new(alloc, List::new(alloc))),
        Taking::Room(room) => Ok(MemorySink::with_room(alloc, room)),
        Taking::Slow(most) => {
            if most == 0 {
                return Err(Fail::from("a slow sink takes at least a byte"));
            }
            Ok(MemorySink::slow(alloc, most))
        }
        Taking::Failing(number) => Ok(MemorySink::new(alloc, numbers_of(alloc, &[number])?)),
    }
}

// Runs the words with the limits of a case.
fn run_case(
    rt: &impl Abort,
    alloc: Global,
    case: &Case,
    files: &mut MemoryFiles,
    out: &mut MemorySink,
    err: &mut MemorySink,
) -> Result<Ended, Fail> {
    let words = words_of(alloc, case.words)?;
    assert!(rt; are_in_bounds(words.as_slice()), "the words");
    let words = words.as_slice();
    match case.within.limits() {
        None => Ok(run(alloc, words, files, out, err)),
        Some(limits) => {
            assert!(rt; limits.asking.read <= 4_294_967_295, "the limit of a file");
            Ok(run_within(alloc, &limits, words, files, out, err))
        }
    }
}

/// Runs a case over these files, and compares what it gave.
pub(crate) fn try_over(
    rt: &impl Abort,
    alloc: Global,
    case: &Case,
    stored: List<Stored>,
) -> Result<(), Fail> {
    let name = case.name;
    let known = stored.copy()?;
    assert!(rt; can_stand(stored.as_slice()), "{name}: the files");
    let mut files = MemoryFiles::new(alloc, stored, numbers_of(alloc, case.failing)?);
    let mut out = sink_of(alloc, case.out_sink)?;
    let mut err = sink_of(alloc, case.err_sink)?;
    let ended = run_case(rt, alloc, case, &mut files, &mut out, &mut err)?;
    assert_eq!(rt; ended.cause, case.cause, "{name}: the cause");
    assert_eq!(rt; ended.status, case.status, "{name}: the status");
    let seen = ended.seen.as_slice();
    let most = case.within.most_read();
    let asked = shown_asked(alloc, seen, files.calls(), known.as_slice(), most)?;
    assert_eq!(rt; asked.as_str(), case.asked, "{name}: what was asked");
    let shown = std::str::from_utf8(out.bytes().as_slice()).unwrap_or("no text");
    assert_eq!(rt; shown, case.out, "{name}: out");
    let shown = std::str::from_utf8(err.bytes().as_slice()).unwrap_or("no text");
    assert_eq!(rt; shown, case.err, "{name}: err");
    Ok(())
}

/// Runs the case of a text of `a.c`, of which that is told on err.
pub(crate) fn try_text(
    rt: &(impl Abort + AllocGlobal),
    name: &'static str,
    bytes: Bytes,
    told: &'static str,
) -> Result<(), Fail> {
    let alloc = rt.alloc();
    let plain = if told == NOT_BUILT {
        Case {
            cause: Cause::NotBuilt,
            ..REFUSED
        }
    } else {
        PLAIN
    };
    let case = Case {
        name,
        err: told,
        ..plain
    };
    let mut files = List::new(alloc);
    let path = Path::from_str(alloc, "a.c")?;
    files.push(Stored { path, bytes })?;
    try_over(rt, alloc, &case, files)
}

/// Runs cases over their files.
pub(crate) fn try_cases(rt: &(impl Abort + AllocGlobal), cases: &[Case]) -> Result<(), Fail> {
    let alloc = rt.alloc();
    for case in cases {
        try_over(rt, alloc, case, files_of(alloc, case.files)?)?;
    }
    Ok(())
}
