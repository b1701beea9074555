//! Findings, by values from outside.
use crate::distinct::Findings;
use crate::kinds::{error_directive, limit_passed, missing_include, read_fault, syntax_error};
use crate::line::finding_line;
use cx_base::{Bytes, Finding, Id, List, NoMemory, Path, Place, Text, Word};
use cx_table::NameKey;
use std::alloc::Global;

/// How a finding is made, at line 7 and column 10 of the first file.
#[derive(Clone, Copy)]
enum Told {
    /// By its kind, with one word.
    Kind(Id, &'static str),
    Syntax(&'static str),
    Limit(&'static str, u64, u64),
    Fault(&'static str),
    Directive(&'static str),
    /// The name of an include, and whether it stands between quotes.
    Include(&'static str, bool),
}

const LINES: [(Told, &str); 13] = [
    (
        Told::Kind(Id::UninitVar, "x"),
        "a.c:7:10: error: Uninitialized variable: x [uninitvar]\n",
    ),
    (
        Told::Kind(Id::ZeroDiv, "x"),
        "a.c:7:10: error: Division by zero. [zerodiv]\n",
    ),
    (
        Told::Kind(Id::IntegerOverflow, "a+1"),
        "a.c:7:10: error: Signed integer overflow for expression 'a+1'. [integerOverflow]\n",
    ),
    (
        Told::Syntax("unclosed comment"),
        "a.c:7:10: error: syntax error: unclosed comment [syntaxError]\n",
    ),
    (
        Told::Limit("file bytes", 4_194_304, 4_194_305),
        "a.c:7:10: error: Limit reached: file bytes 4194304, counted 4194305. [unitLimit]\n",
    ),
    (
        Told::Limit("include depth", 64, 65),
        "a.c:7:10: error: Limit reached: include depth 64, counted 65. [unitLimit]\n",
    ),
    (
        Told::Limit("x", 0, u64::MAX),
        "a.c:7:10: error: Limit reached: x 0, counted 18446744073709551615. [unitLimit]\n",
    ),
    (
        Told::Fault("d/a.c"),
        "a.c:0:0: error: File could not be read: d/a.c [readFault]\n",
    ),
    (
        Told::Directive("stop"),
        "a.c:7:10: error: #error stop [preprocessorErrorDirective]\n",
    ),
    (
        Told::Include("x.h", true),
        "a.c:7:10: information: Include file: \"x.h\" not found. [missingInclude]\n",
    ),
    (
        Told::Include("x.h", false),
        "a.c:7:10: information: Include file: <x.h> not found. [missingIncludeSystem]\n",
    ),
    (
        Told::Include("", false),
        "a.c:7:10: information: Include file: <> not found. [missingIncludeSystem]\n",
    ),
    (
        Told::Kind(Id::MemLeak, "x"),
        "a.c:7:10: error:  [memleak]\n",
    ),
];

fn one_word(alloc: Global, word: Word) -> Result<List<Word>, NoMemory> {
    let mut words = List::new(alloc);
    words.push(word)?;
    Ok(words)
}

fn finding_of(alloc: Global, told: &Told) -> Result<Finding, NoMemory> {
    let at = Place {
        file: 0,
        line: 7,
        column: 10,
    };
    match told {
        Told::Kind(id, word) => {
            let word = Word::Text(Text::from_slice(alloc, word.as_bytes())?);
            let words = one_word(alloc, word)?;
            Ok(Finding {
                id: *id,
                severity: id.severity(),
                place: at,
                others: List::new(alloc),
                words,
            })
        }
        Told::Syntax(reason) => syntax_error(alloc, reason.as_bytes(), at),
        Told::Limit(limit, most, counted) => {
            limit_passed(alloc, limit.as_bytes(), *most, *counted, at)
        }
        Told::Fault(path) => {
            let path = Path::from_str(alloc, path)?;
            read_fault(alloc, &path, 0)
        }
        Told::Directive(text) => {
            let text = Text::from_slice(alloc, text.as_bytes())?;
            error_directive(alloc, text, at)
        }
        Told::Include(name, quoted) => {
            let name = Text::from_slice(alloc, name.as_bytes())?;
            missing_include(alloc, &name, *quoted, at)
        }
    }
}

fn line_of(alloc: Global, told: &Told, files: &[Path]) -> Result<Bytes, NoMemory> {
    let finding = finding_of(alloc, told)?;
    finding_line(alloc, files, &finding)
}

#[test]
fn each_kind_has_its_line(rt: HostRuntime) {
    let alloc = rt.alloc();
    let path = Path::from_str(alloc, "a.c").expect(&rt, "memory");
    let files = [path];
    for (told, line) in &LINES {
        let got = line_of(alloc, told, &files).expect(&rt, "memory");
        assert_eq!(rt; got.as_slice(), line.as_bytes(), "{line}");
    }
}

#[test]
fn a_place_outside_of_files_is_no_place(rt: HostRuntime) {
    let told = Told::Kind(Id::ZeroDiv, "");
    let got = line_of(rt.alloc(), &told, &[]).expect(&rt, "memory");
    let want: &[u8] = b"nofile:0:0: error: Division by zero. [zerodiv]\n";
    assert_eq!(rt; got.as_slice(), want);
}

/// A finding in parts: its kind, its place, the line of its other place (0 where it has none), and
/// a word, which is a number where the text is empty.
type Parts = (Id, (u32, u32, u32), u32, &'static str, i128);

/// What stands beside the first of these, and how many the two are.
const PAIRS: [(Parts, usize); 10] = [
    ((Id::ZeroDiv, (1, 2, 3), 4, "x", 0), 1),
    ((Id::ZeroDivCond, (1, 2, 3), 4, "x", 0), 2),
    ((Id::ZeroDiv, (0, 2, 3), 4, "x", 0), 2),
    ((Id::ZeroDiv, (1, 3, 3), 4, "x", 0), 2),
    ((Id::ZeroDiv, (1, 2, 2), 4, "x", 0), 2),
    ((Id::ZeroDiv, (1, 2, 3), 5, "x", 0), 2),
    ((Id::ZeroDiv, (1, 2, 3), 0, "x", 0), 2),
    ((Id::ZeroDiv, (1, 2, 3), 4, "xy", 0), 2),
    ((Id::ZeroDiv, (1, 2, 3), 4, "", 120), 2),
    ((Id::ZeroDiv, (1, 2, 3), 4, "", -120), 2),
];

fn finding_in_parts(alloc: Global, parts: &Parts) -> Result<Finding, NoMemory> {
    let (id, (file, line, column), other, text, number) = *parts;
    let mut others = List::new(alloc);
    if other != 0 {
        others.push(Place {
            file,
            line: other,
            column,
        })?;
    }
    let word = if text.is_empty() {
        Word::Number(number)
    } else {
        Word::Text(Text::from_slice(alloc, text.as_bytes())?)
    };
    let words = one_word(alloc, word)?;
    Ok(Finding {
        id,
        severity: id.severity(),
        place: Place { file, line, column },
        others,
        words,
    })
}

/// How many findings these are, the first of them told a second time at the end.
fn count_of_pair(alloc: Global, first: &Parts, second: &Parts) -> Result<usize, NoMemory> {
    let mut findings = Findings::new(alloc, NameKey::of(b"int a;"));
    findings = findings.with(finding_in_parts(alloc, first)?)?;
    findings = findings.with(finding_in_parts(alloc, second)?)?;
    findings = findings.with(finding_in_parts(alloc, first)?)?;
    Ok(findings.as_slice().len())
}

#[test]
fn kinds_places_and_words_tell_two_apart(rt: HostRuntime) {
    let (first, _) = &PAIRS[0];
    for (second, count) in &PAIRS {
        let got = count_of_pair(rt.alloc(), first, second).expect(&rt, "memory");
        assert_eq!(rt; got, *count);
    }
}

/// Findings at these lines, each once, whatever their keys are hashed under.
fn lines_of(alloc: Global, source: &[u8], lines: &[u32]) -> Result<Bytes, NoMemory> {
    let mut findings = Findings::new(alloc, NameKey::of(source));
    for line in lines {
        let parts = (Id::ZeroDiv, (0, *line, 1), 0, "x", 0);
        findings = findings.with(finding_in_parts(alloc, &parts)?)?;
    }
    let mut shown = Bytes::new(alloc);
    let findings = findings.into_list();
    for finding in findings.as_slice() {
        shown.push_number(finding.place.line)?;
        shown.push_all(b" ")?;
    }
    Ok(shown)
}

#[test]
fn findings_stand_where_they_came_first(rt: HostRuntime) {
    for source in ["int a;", "int b;", ""] {
        let lines = [7, 3, 7, 9, 1, 3, 9, 2];
        let shown = lines_of(rt.alloc(), source.as_bytes(), &lines).expect(&rt, "memory");
        assert_eq!(rt; shown.as_slice(), b"7 3 9 1 2 ".as_slice());
    }
}
