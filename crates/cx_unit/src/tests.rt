//! What is told of units, by lines written by hand.
use crate::{Ground, UnitLimits, UnitReport, unit_report};
use cx_asking::{Limits, ask};
use cx_base::{Bytes, List, MemoryFiles, NoMemory, Path, Stored, Text, can_stand};
use cx_finding::finding_line;
use cx_library::built_in;
use cx_options::{Options, are_in_bounds, options};
use cx_table::NameKey;
use std::alloc::Global;

/// A unit with a finding in each of two configurations, and an include that leads nowhere.
const DIVIDES: &str = "#include \"h.h\"\n#ifdef A\n#endif\nint f(void) { return 1 / 0; }\n";

// The options of one word.
fn options_of(alloc: Global, word: &str) -> Result<Options, NoMemory> {
    let mut words = Vec::new(alloc);
    words.push(Path::from_str(alloc, word)?)?;
    if !are_in_bounds(words.as_slice()) {
        return Err(NoMemory);
    }
    match options(alloc, words.as_slice()) {
        Ok(options) => Ok(options),
        Err(_) => Err(NoMemory),
    }
}

// The file `a.c` with this text, where the calls with these numbers fail.
fn files_of(alloc: Global, text: &str, failing: &[u64]) -> Result<MemoryFiles, NoMemory> {
    let path = Path::from_str(alloc, "a.c")?;
    let bytes = Bytes::from_slice(alloc, text.as_bytes())?;
    let mut stored = List::new(alloc);
    stored.push(Stored { path, bytes })?;
    if !can_stand(stored.as_slice()) {
        return Err(NoMemory);
    }
    let mut numbers = List::new(alloc);
    for number in failing {
        numbers.push(*number)?;
    }
    Ok(MemoryFiles::new(alloc, stored, numbers))
}

// What is told of `a.c`.
fn told(alloc: Global, text: &str, failing: &[u64]) -> Result<Option<UnitReport>, NoMemory> {
    let key = NameKey::of(b"key");
    let options = options_of(alloc, "a.c")?;
    let library = built_in(alloc, key)?;
    let mut files = files_of(alloc, text, failing)?;
    let limits = Limits {
        read: 1_000,
        kept: 10_000,
        folders: 10,
        depth: 10,
    };
    let all = ask(alloc, key, &limits, &options, &mut files)?;
    let ground = Ground {
        limits: UnitLimits {
            read: 1_000,
            files: 10,
            bytes: 10_000,
        },
        options: &options,
        library: &library,
        answers: &all.answers,
        shelf: &all.shelf,
        faults: all.faults.as_slice(),
    };
    let path = Path::from_str(alloc, "a.c")?;
    unit_report(alloc, key, &ground, &path)
}

// The progress lines of a report and the lines of its findings.
fn lines_of(alloc: Global, report: &UnitReport) -> Result<Text, NoMemory> {
    let mut files = List::new(alloc);
    files.push(Path::from_str(alloc, "a.c")?)?;
    let mut lines = Text::new(alloc);
    for line in report.progress.as_slice() {
        lines.push_all(line.as_slice())?;
        lines.push_all(b"\n")?;
    }
    for finding in report.findings.as_slice() {
        let line = finding_line(alloc, files.as_slice(), finding)?;
        lines.push_all(line.as_slice())?;
    }
    Ok(lines)
}

// The same of what is told of `a.c`; nothing where its tokens are no first text.
fn told_lines(alloc: Global, text: &str, failing: &[u64]) -> Result<Option<Text>, NoMemory> {
    match told(alloc, text, failing)? {
        Some(report) => {
            let lines = lines_of(alloc, &report)?;
            Ok(Some(lines))
        }
        None => Ok(None),
    }
}

#[test]
fn a_finding_of_two_configurations_is_told_once(rt: HostRuntime) {
    let alloc = rt.alloc();
    let expected = "Checking a.c ...\nChecking a.c: A...\n\
        a.c:1:10: information: Include file: \"h.h\" not found. [missingInclude]\n\
        a.c:4:24: error: Division by zero. [zerodiv]\n";
    match told_lines(alloc, DIVIDES, &[]).expect(&rt, "memory") {
        Some(lines) => assert_eq!(rt; lines.as_slice(), expected.as_bytes()),
        None => panic!(rt; "nothing is told"),
    }
}

#[test]
fn of_a_file_that_cannot_be_read_that_alone_is_told(rt: HostRuntime) {
    let alloc = rt.alloc();
    let expected = "Checking a.c ...\n\
        a.c:0:0: error: File could not be read: h.h [readFault]\n";
    match told_lines(alloc, DIVIDES, &[2]).expect(&rt, "memory") {
        Some(lines) => assert_eq!(rt; lines.as_slice(), expected.as_bytes()),
        None => panic!(rt; "nothing is told"),
    }
}

#[test]
fn of_tokens_that_are_no_first_text_nothing_is_told(rt: HostRuntime) {
    let alloc = rt.alloc();
    let told = told(alloc, "int f(int a) { return 1 / 0; }\n", &[]).expect(&rt, "memory");
    assert!(rt; told.is_none());
}
