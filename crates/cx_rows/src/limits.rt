//! What is past a limit: small limits first, and then those of the command on large files.
use crate::cases::{Case, NOT_BUILT, PLAIN, REFUSED, try_cases, try_over, try_text};
use crate::within::Within;
use cx_asking::FileFault;
use cx_base::{Bytes, List, Path, Stored};
use cx_run::Cause;
use std::alloc::Global;
use std::test::Fail;

/// Files of bytes that are few or many.
static BYTES: [Case; 7] = [
    Case {
        name: "a byte less than the limit",
        files: &[("a.c", b"       ")],
        within: Within::Bytes { read: 8, kept: 7 },
        ..PLAIN
    },
    Case {
        name: "as many bytes as the limit",
        words: &["a.c", "--error-exitcode=1", "--enable=all"],
        files: &[("a.c", b"#include \"n.h\"\n")],
        within: Within::Bytes { read: 8, kept: 100 },
        status: 1,
        err: "a.c:1:1: error: Limit reached: file bytes 7, counted 8. [unitLimit]\n",
        asked: "list a.c, read a.c: too large",
        ..PLAIN
    },
    Case {
        name: "a large file that is no source",
        words: &["a.h"],
        files: &[("a.h", b"12345678")],
        within: Within::Bytes { read: 8, kept: 100 },
        cause: Cause::NoInput,
        err: "cppcheck: error: could not find any file to check.\n",
        asked: "list a.h, read a.h: too large",
        ..REFUSED
    },
    Case {
        name: "a large list",
        words: &["--file-list=l", "a.c"],
        files: &[("l", b"a.c\nb.c\n"), ("a.c", b"")],
        within: Within::Bytes { read: 8, kept: 100 },
        cause: Cause::ListRefused {
            word: 0,
            fault: FileFault::TooLarge,
        },
        err: "cppcheck: error: file \"l\" is too large.\n",
        asked: "read l: too large",
        ..REFUSED
    },
    Case {
        name: "bytes of all files",
        words: &["a.c", "b.c", "c.c"],
        files: &[("a.c", b"      "), ("b.c", b"     "), ("c.c", b"\n\n\n\n")],
        within: Within::Bytes { read: 8, kept: 10 },
        out: "Checking a.c ...\nChecking b.c ...\nChecking c.c ...\n",
        err: "b.c:1:1: error: Limit reached: file bytes 7, counted 8. [unitLimit]\n",
        asked: "list a.c, read a.c: file, list b.c, read b.c: too large, list c.c, read c.c: file",
        ..PLAIN
    },
    Case {
        name: "a large header in front of one that has no pieces",
        files: &[
            ("a.c", b"#include \"h.h\"\n#include \"i.h\"\n"),
            ("h.h", b"                                        "),
            ("i.h", b"/*"),
        ],
        within: Within::Bytes {
            read: 40,
            kept: 100,
        },
        err: "h.h:1:1: error: Limit reached: file bytes 39, counted 40. [unitLimit]\n",
        asked: "list a.c, read a.c: file, read h.h: too large, read i.h: file",
        ..PLAIN
    },
    Case {
        name: "a header that has no pieces in front of a large one",
        files: &[
            ("a.c", b"#include \"i.h\"\n#include \"h.h\"\n"),
            ("h.h", b"                                        "),
            ("i.h", b" /*"),
        ],
        within: Within::Bytes {
            read: 40,
            kept: 100,
        },
        err: "i.h:1:2: error: syntax error: unclosed comment [syntaxError]\n",
        asked: "list a.c, read a.c: file, read i.h: file, read h.h: too large",
        ..PLAIN
    },
];

/// Folders within folders.
const DEEP: Case = Case {
    name: "a folder",
    words: &["d"],
    files: &[
        ("d/a.c", b""),
        ("d/d/b.c", b""),
        ("d/d/d/c.c", b""),
        ("d/e/f.c", b""),
    ],
    within: Within::Folders {
        folders: 100,
        depth: 3,
    },
    out: "Checking d/a.c ...\nChecking d/d/b.c ...\nChecking d/d/d/c.c ...\nChecking d/e/f.c ...\n",
    asked: "list d: folder, read d/a.c: file, list d/d: folder, read d/d/b.c: file, \
        list d/d/d: folder, read d/d/d/c.c: file, list d/e: folder, read d/e/f.c: file",
    ..PLAIN
};

/// Folders that are many or deep.
static FOLDERS: [Case; 6] = [
    DEEP,
    Case {
        name: "one folder deep",
        within: Within::Folders {
            folders: 100,
            depth: 1,
        },
        out: "Checking d/a.c ...\n",
        asked: "list d: folder, read d/a.c: file",
        ..DEEP
    },
    Case {
        name: "two folders deep",
        within: Within::Folders {
            folders: 100,
            depth: 2,
        },
        out: "Checking d/a.c ...\nChecking d/d/b.c ...\nChecking d/e/f.c ...\n",
        asked: "list d: folder, read d/a.c: file, list d/d: folder, read d/d/b.c: file, \
            list d/e: folder, read d/e/f.c: file",
        ..DEEP
    },
    Case {
        name: "a folder that is met twice",
        words: &["d", "d/d"],
        within: Within::Folders {
            folders: 100,
            depth: 2,
        },
        out: "Checking d/a.c ...\nChecking d/d/b.c ...\nChecking d/e/f.c ...\n\
            Checking d/d/d/c.c ...\n",
        asked: "list d: folder, read d/a.c: file, list d/d: folder, read d/d/b.c: file, \
            list d/e: folder, read d/e/f.c: file, list d/d/d: folder, read d/d/d/c.c: file",
        ..DEEP
    },
    Case {
        name: "two folders",
        within: Within::Folders {
            folders: 2,
            depth: 64,
        },
        out: "Checking d/a.c ...\nChecking d/d/b.c ...\n",
        asked: "list d: folder, read d/a.c: file, list d/d: folder, read d/d/b.c: file",
        ..DEEP
    },
    Case {
        name: "a folder that is given behind the last",
        words: &["d/d", "d", "d/e"],
        within: Within::Folders {
            folders: 2,
            depth: 64,
        },
        out: "Checking d/d/b.c ...\nChecking d/d/d/c.c ...\nChecking d/a.c ...\n\
            Checking d/e/f.c ...\n",
        asked: "list d/d: folder, read d/d/b.c: file, list d/d/d: folder, read d/d/d/c.c: file, \
            list d: folder, read d/a.c: file, list d/e: folder, read d/e/f.c: file",
        ..DEEP
    },
];

/// A unit of four files.
const FOUR: Case = Case {
    name: "four files of fifty bytes",
    files: &[
        ("a.c", b"#include \"h.h\"\n#include \"n.h\"\n"),
        ("h.h", b"#include \"i.h\"\n#include \"j.h\"\n"),
        ("i.h", b"\n"),
        ("j.h", b"/*"),
    ],
    within: Within::Closure {
        files: 4,
        bytes: 63,
    },
    err: "j.h:1:1: error: syntax error: unclosed comment [syntaxError]\n",
    asked: "list a.c, read a.c: file, read h.h: file, read n.h: nothing, read i.h: file, \
        read j.h: file",
    ..PLAIN
};

/// Units that are many, or large.
static UNITS: [Case; 9] = [
    FOUR,
    Case {
        name: "the bytes of the first file",
        within: Within::Closure { files: 3, bytes: 0 },
        err: "a.c:1:1: error: Limit reached: closure bytes 0, counted 30. [unitLimit]\n",
        ..FOUR
    },
    Case {
        name: "the fourth file",
        within: Within::Closure {
            files: 3,
            bytes: 62,
        },
        err: "a.c:1:1: error: Limit reached: files 3, counted 4. [unitLimit]\n",
        ..FOUR
    },
    Case {
        name: "the bytes of the third file",
        within: Within::Closure {
            files: 3,
            bytes: 60,
        },
        err: "a.c:1:1: error: Limit reached: closure bytes 60, counted 61. [unitLimit]\n",
        ..FOUR
    },
    Case {
        name: "the bytes of the fourth file",
        within: Within::Closure {
            files: 4,
            bytes: 62,
        },
        err: "a.c:1:1: error: Limit reached: closure bytes 62, counted 63. [unitLimit]\n",
        ..FOUR
    },
    Case {
        name: "two units",
        within: Within::Units(2),
        ..MANY
    },
    Case {
        name: "a unit too many",
        within: Within::Units(1),
        out: "Checking b.c ...\n",
        err: "nofile:0:0: error: Limit reached: units 1, counted 2. [unitLimit]\n\
            b.c:1:24: error: Division by zero. [zerodiv]\n",
        ..MANY
    },
    Case {
        name: "no unit",
        words: &["-q", "b.c", "a.c", "--error-exitcode=6"],
        within: Within::Units(0),
        status: 6,
        out: "",
        err: "nofile:0:0: error: Limit reached: units 0, counted 1. [unitLimit]\n",
        ..MANY
    },
    Case {
        name: "a unit that is no first text behind the last",
        files: &[
            ("a.c", b"int x;\n#include \"h.h\""),
            ("b.c", b""),
            ("h.h", b"/*"),
        ],
        within: Within::Units(1),
        out: "Checking b.c ...\n",
        err: "nofile:0:0: error: Limit reached: units 1, counted 2. [unitLimit]\n",
        ..MANY
    },
];

/// Two units, of which the second includes a file.
const MANY: Case = Case {
    words: &["b.c", "a.c"],
    files: &[
        ("a.c", b"#include \"h.h\"\n"),
        ("b.c", b"int f(void) { return 1 / 0; }"),
        ("h.h", b""),
    ],
    out: "Checking b.c ...\nChecking a.c ...\n",
    err: "b.c:1:24: error: Division by zero. [zerodiv]\n",
    asked: "list b.c, read b.c: file, list a.c, read a.c: file, read h.h: file",
    ..PLAIN
};

#[test]
fn what_is_past_a_small_limit_is_told(rt: HostRuntime) -> Result<(), Fail> {
    try_cases(&rt, &BYTES)?;
    try_cases(&rt, &FOLDERS)?;
    try_cases(&rt, &UNITS)
}

/// A text: a front, so many times another, and a back.
type Repeated = (&'static str, &'static str, usize, &'static str);

/// Large texts of `a.c`, and what is told of each.
static LARGE: [(Repeated, &str); 6] = [
    (
        ("", ";", 262_145, ""),
        "a.c:1:1: error: Limit reached: tokens 262144, counted 262145. [unitLimit]\n",
    ),
    (
        ("#define A ", ";", 131_072, "\nA A\n"),
        "a.c:2:3: error: Limit reached: tokens 262144, counted 262148. [unitLimit]\n",
    ),
    (
        ("#if 0\n", ";", 1_048_572, "\n#endif\n"),
        "a.c:3:2: error: Limit reached: pieces 1048576, counted 1048577. [unitLimit]\n",
    ),
    (
        (
            "int f(void) { int x = 0; ",
            "x = x + 1; ",
            40_000,
            "return 1 / (x - 40000); }",
        ),
        "a.c:1:440035: error: Division by zero. [zerodiv]\n",
    ),
    (("int f(void) { return ", "(", 200_000, ""), NOT_BUILT),
    (("int f(void) { return ", "- ", 200_000, "1; }"), NOT_BUILT),
];

fn bytes_of(alloc: Global, text: &Repeated) -> Result<Bytes, Fail> {
    let (front, repeated, count, back) = *text;
    let mut bytes = Bytes::from_slice(alloc, front.as_bytes())?;
    for _ in 0..count {
        bytes.push_all(repeated.as_bytes())?;
    }
    bytes.push_all(back.as_bytes())?;
    Ok(bytes)
}

#[test]
fn large_texts_are_told(rt: HostRuntime) -> Result<(), Fail> {
    for (text, told) in &LARGE {
        try_text(&rt, text.1, bytes_of(rt.alloc(), text)?, told)?;
    }
    Ok(())
}

/// A comment of a byte more than a file may have.
#[test]
fn a_file_of_too_many_bytes_is_told(rt: HostRuntime) -> Result<(), Fail> {
    let alloc = rt.alloc();
    let bytes = bytes_of(alloc, &("/*", "x", 4_194_301, "*/"))?;
    let case = Case {
        name: "a large file",
        err: "a.c:1:1: error: Limit reached: file bytes 4194304, counted 4194305. [unitLimit]\n",
        asked: "list a.c, read a.c: too large",
        ..PLAIN
    };
    let mut files = List::new(alloc);
    let path = Path::from_str(alloc, "a.c")?;
    files.push(Stored { path, bytes })?;
    try_over(&rt, alloc, &case, files)
}
