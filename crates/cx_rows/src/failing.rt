//! Calls on files that fail, and sinks that fail or are slow.
use crate::cases::{Case, PLAIN, REFUSED, Taking, try_cases};
use cx_asking::FileFault;
use cx_options::WordKind;
use cx_run::{Cause, SinkName};
use std::test::Fail;

/// A list, a file, a folder in a folder, and a header.
const TREE: Case = Case {
    name: "a tree, and a failing call behind the last",
    words: &["--file-list=l", "a.c", "--error-exitcode=2"],
    files: &[
        ("l", b"d\n"),
        ("a.c", b"#include \"h.h\"\n"),
        ("d/e/c.c", b"#include \"../b.c\"\n"),
        ("d/b.c", b""),
        ("h.h", b"int f(void) { return 1 / 0; }"),
    ],
    failing: &[8],
    status: 2,
    out: "Checking a.c ...\nChecking d/b.c ...\nChecking d/e/c.c ...\n",
    err: "h.h:1:24: error: Division by zero. [zerodiv]\n",
    asked: "read l: file, list a.c, read a.c: file, list d: folder, read d/b.c: file, \
        list d/e: folder, read d/e/c.c: file, read h.h: file",
    ..PLAIN
};

const UNREAD: &str = "a.c:0:0: error: File could not be read: a.c [readFault]\n";

/// The same with each call failing in turn.
static CALLS: [Case; 10] = [
    TREE,
    Case {
        name: "the list",
        failing: &[0],
        cause: Cause::ListRefused {
            word: 0,
            fault: FileFault::Unreadable,
        },
        status: 1,
        out: "",
        err: "cppcheck: error: file \"l\" could not be read.\n",
        asked: "read! l: unreadable",
        ..TREE
    },
    Case {
        name: "the listing of a file",
        failing: &[1],
        err: UNREAD,
        asked: "read l: file, list! a.c: unreadable, list d: folder, read d/b.c: file, \
            list d/e: folder, read d/e/c.c: file",
        ..TREE
    },
    Case {
        name: "the reading of a file",
        failing: &[2],
        err: UNREAD,
        asked: "read l: file, list a.c, read! a.c: unreadable, list d: folder, \
            read d/b.c: file, list d/e: folder, read d/e/c.c: file",
        ..TREE
    },
    Case {
        name: "a folder that is given",
        failing: &[3],
        out: "Checking a.c ...\nChecking d ...\n",
        err: "h.h:1:24: error: Division by zero. [zerodiv]\n\
            d:0:0: error: File could not be read: d [readFault]\n",
        asked: "read l: file, list a.c, read a.c: file, list! d: unreadable, read h.h: file",
        ..TREE
    },
    Case {
        name: "a file in a folder, which another unit includes",
        failing: &[4],
        err: "h.h:1:24: error: Division by zero. [zerodiv]\n\
            d/b.c:0:0: error: File could not be read: d/b.c [readFault]\n\
            d/e/c.c:0:0: error: File could not be read: d/b.c [readFault]\n",
        asked: "read l: file, list a.c, read a.c: file, list d: folder, read! d/b.c: unreadable, \
            list d/e: folder, read d/e/c.c: file, read h.h: file",
        ..TREE
    },
    Case {
        name: "a subfolder",
        failing: &[5],
        out: "Checking a.c ...\nChecking d/b.c ...\nChecking d/e ...\n",
        err: "h.h:1:24: error: Division by zero. [zerodiv]\n\
            d/e:0:0: error: File could not be read: d/e [readFault]\n",
        asked: "read l: file, list a.c, read a.c: file, list d: folder, read d/b.c: file, \
            list! d/e: unreadable, read h.h: file",
        ..TREE
    },
    Case {
        name: "a header",
        failing: &[7],
        err: "a.c:0:0: error: File could not be read: h.h [readFault]\n",
        asked: "read l: file, list a.c, read a.c: file, list d: folder, read d/b.c: file, \
            list d/e: folder, read d/e/c.c: file, read! h.h: unreadable",
        ..TREE
    },
    Case {
        name: "two headers, beside other faults",
        words: &["a.c", "--enable=all"],
        files: &[
            (
                "a.c",
                b"#include \"h.h\"\n#include \"n.h\"\n#include \"j.h\"\nint x;\n",
            ),
            ("h.h", b""),
            ("j.h", b""),
        ],
        failing: &[2, 4],
        out: "Checking a.c ...\n",
        err: "a.c:0:0: error: File could not be read: h.h [readFault]\n\
            a.c:0:0: error: File could not be read: j.h [readFault]\n",
        asked: "list a.c, read a.c: file, read! h.h: unreadable, read n.h: nothing, \
            read! j.h: unreadable",
        ..PLAIN
    },
    Case {
        name: "a header that cannot be read, and another behind it",
        words: &["a.c", "-Ii"],
        files: &[("a.c", b"#include \"h.h\"\n"), ("h.h", b""), ("i/h.h", b"")],
        failing: &[2],
        err: "a.c:0:0: error: File could not be read: h.h [readFault]\n",
        asked: "list a.c, read a.c: file, read! h.h: unreadable",
        ..PLAIN
    },
];

/// Two units, each with a line on both sinks.
const PAIR: Case = Case {
    name: "two units",
    words: &["a.c", "b.c"],
    files: &[
        ("a.c", b"int f(void) { return 1 / 0; }"),
        ("b.c", b"int f(void) { return 1 / 0; }"),
    ],
    out: "Checking a.c ...\nChecking b.c ...\n",
    err: "a.c:1:24: error: Division by zero. [zerodiv]\n\
        b.c:1:24: error: Division by zero. [zerodiv]\n",
    asked: "list a.c, read a.c: file, list b.c, read b.c: file",
    ..PLAIN
};

const OUT_FAULT: Case = Case {
    cause: Cause::WriteFault {
        sink: SinkName::Out,
    },
    status: 3,
    err: "",
    ..PAIR
};

const ERR_FAULT: Case = Case {
    cause: Cause::WriteFault {
        sink: SinkName::Err,
    },
    status: 3,
    ..PAIR
};

const A_TOLD: &str = "a.c:1:24: error: Division by zero. [zerodiv]\n";

/// Sinks that fail hold a front of the pieces, and nothing is written after.
static SINKS: [Case; 17] = [
    Case {
        name: "room for all",
        out_sink: Taking::Room(34),
        err_sink: Taking::Room(90),
        ..PAIR
    },
    Case {
        name: "slow sinks",
        out_sink: Taking::Slow(1),
        err_sink: Taking::Slow(7),
        ..PAIR
    },
    Case {
        name: "calls behind the last",
        out_sink: Taking::Failing(2),
        err_sink: Taking::Failing(2),
        ..PAIR
    },
    Case {
        name: "no room on out",
        out_sink: Taking::Room(0),
        out: "",
        ..OUT_FAULT
    },
    Case {
        name: "room for some on out",
        out_sink: Taking::Room(16),
        out: "Checking a.c ...",
        ..OUT_FAULT
    },
    Case {
        name: "room for the first line on out",
        out_sink: Taking::Room(17),
        out: "Checking a.c ...\n",
        err: A_TOLD,
        ..OUT_FAULT
    },
    Case {
        name: "the first call on out",
        words: &["a.c", "b.c", "--error-exitcode=9"],
        out_sink: Taking::Failing(0),
        out: "",
        ..OUT_FAULT
    },
    Case {
        name: "the second call on out",
        out_sink: Taking::Failing(1),
        out: "Checking a.c ...\n",
        err: A_TOLD,
        ..OUT_FAULT
    },
    Case {
        name: "both sinks",
        out_sink: Taking::Room(3),
        err_sink: Taking::Room(0),
        out: "Che",
        ..OUT_FAULT
    },
    Case {
        name: "no room on err",
        words: &["a.c", "b.c", "--error-exitcode=9"],
        err_sink: Taking::Room(0),
        out: "Checking a.c ...\n",
        err: "",
        ..ERR_FAULT
    },
    Case {
        name: "room for some on err",
        err_sink: Taking::Room(20),
        out: "Checking a.c ...\n",
        err: "a.c:1:24: error: Div",
        ..ERR_FAULT
    },
    Case {
        name: "the second call on err",
        err_sink: Taking::Failing(1),
        err: A_TOLD,
        ..ERR_FAULT
    },
    Case {
        name: "no room for a finding that is not told",
        words: &["a.c"],
        files: &[("a.c", b"#include <n.h>\n")],
        err_sink: Taking::Room(0),
        asked: "list a.c, read a.c: file",
        ..PLAIN
    },
    Case {
        name: "a refused word that cannot be told",
        words: &["a.c", "--bogus"],
        err_sink: Taking::Room(5),
        out: "",
        err: "cppch",
        asked: "",
        ..ERR_FAULT
    },
    Case {
        name: "a refused list that cannot be told",
        words: &["--file-list=l"],
        err_sink: Taking::Failing(0),
        out: "",
        err: "",
        asked: "read l: nothing",
        ..ERR_FAULT
    },
    Case {
        name: "a slow refusal",
        words: &["-U"],
        out_sink: Taking::Room(0),
        err_sink: Taking::Slow(3),
        cause: Cause::BadWords {
            word: 0,
            kind: WordKind::MissingValue,
        },
        err: "cppcheck: error: argument to \"-U\" is missing.\n",
        asked: "",
        ..REFUSED
    },
    Case {
        name: "what is not built, and cannot be told",
        files: &[("a.c", b"int x;"), ("b.c", b"")],
        err_sink: Taking::Room(1),
        out: "",
        err: "c",
        ..ERR_FAULT
    },
];

#[test]
fn each_call_that_fails_is_told(rt: HostRuntime) -> Result<(), Fail> {
    try_cases(&rt, &CALLS)
}

#[test]
fn sinks_that_fail_hold_a_front(rt: HostRuntime) -> Result<(), Fail> {
    try_cases(&rt, &SINKS)
}
