//! Words that are refused, and what other words change.
use crate::cases::{Case, PLAIN, REFUSED, try_cases};
use cx_options::WordKind;
use cx_run::Cause;
use std::test::Fail;

/// A case where a word is refused, so that nothing is asked.
const WRONG: Case = Case {
    asked: "",
    ..REFUSED
};

/// The first word that is refused, and what is told of it.
static REFUSALS: [Case; 12] = [
    Case {
        name: "an unknown option",
        words: &["--bogus", "a.c"],
        cause: Cause::BadWords {
            word: 0,
            kind: WordKind::Unknown,
        },
        err: "cppcheck: error: unrecognized command line option: \"--bogus\".\n",
        ..WRONG
    },
    Case {
        name: "no macro",
        words: &["-D1x", "a.c"],
        cause: Cause::BadWords {
            word: 0,
            kind: WordKind::BadName,
        },
        err: "cppcheck: error: \"-D1x\" does not name a macro.\n",
        ..WRONG
    },
    Case {
        name: "the next word is no macro",
        words: &["a.c", "-D", "-q"],
        cause: Cause::BadWords {
            word: 1,
            kind: WordKind::BadName,
        },
        err: "cppcheck: error: \"-D\" does not name a macro.\n",
        ..WRONG
    },
    Case {
        name: "no argument",
        words: &["a.c", "-I"],
        cause: Cause::BadWords {
            word: 1,
            kind: WordKind::MissingValue,
        },
        err: "cppcheck: error: argument to \"-I\" is missing.\n",
        ..WRONG
    },
    Case {
        name: "another value",
        words: &["-I", "i", "a.c", "--enable=style,"],
        cause: Cause::BadWords {
            word: 3,
            kind: WordKind::BadValue,
        },
        err: "cppcheck: error: argument of \"--enable=style,\" \
            is not one of the permitted values.\n",
        ..WRONG
    },
    Case {
        name: "a number out of range, and another fault behind it",
        words: &["-q", "--error-exitcode=256", "--bogus"],
        cause: Cause::BadWords {
            word: 1,
            kind: WordKind::BadNumber,
        },
        err: "cppcheck: error: argument to \"--error-exitcode=256\" is not a number in range.\n",
        ..WRONG
    },
    Case {
        name: "the empty word",
        words: &["a.c", ""],
        cause: Cause::BadWords {
            word: 1,
            kind: WordKind::Unknown,
        },
        err: "cppcheck: error: unrecognized command line option: \"\".\n",
        ..WRONG
    },
    Case {
        name: "two dashes",
        words: &["--", "a.c"],
        cause: Cause::BadWords {
            word: 0,
            kind: WordKind::Unknown,
        },
        err: "cppcheck: error: unrecognized command line option: \"--\".\n",
        ..WRONG
    },
    Case {
        name: "an option that is not served yet",
        words: &["a.c", "-j"],
        cause: Cause::BadWords {
            word: 1,
            kind: WordKind::Unknown,
        },
        err: "cppcheck: error: unrecognized command line option: \"-j\".\n",
        ..WRONG
    },
    Case {
        name: "a letter that is not ASCII",
        words: &["--\u{e4}", "a.c"],
        cause: Cause::BadWords {
            word: 0,
            kind: WordKind::Unknown,
        },
        err: "cppcheck: error: unrecognized command line option: \"--\u{e4}\".\n",
        ..WRONG
    },
    Case {
        name: "a list without a name",
        words: &["a.c", "--file-list="],
        cause: Cause::BadWords {
            word: 1,
            kind: WordKind::BadValue,
        },
        err: "cppcheck: error: argument of \"--file-list=\" is not one of the permitted values.\n",
        ..WRONG
    },
    Case {
        name: "no word",
        words: &[],
        cause: Cause::NoInput,
        err: "cppcheck: error: could not find any file to check.\n",
        ..WRONG
    },
];

const ZERO: &[u8] = b"int f(void) {\nint x = 0;\nreturn 10 / x;\n}\n";

const ZERO_TOLD: &str = "a.c:3:11: error: Division by zero. [zerodiv]\n";

/// A division by zero.
const FOUND: Case = Case {
    name: "a finding",
    files: &[("a.c", ZERO)],
    err: ZERO_TOLD,
    ..PLAIN
};

/// Includes that lead to nothing.
const MISSING: Case = Case {
    name: "missing includes",
    files: &[(
        "a.c",
        b"#include \"n.h\"\n # include <m.h> // m\n#include M (y)\n",
    )],
    ..PLAIN
};

const MISSING_TOLD: &str =
    "a.c:1:10: information: Include file: \"n.h\" not found. [missingInclude]\n\
    a.c:2:12: information: Include file: <m.h> not found. [missingIncludeSystem]\n\
    a.c:3:10: information: Include file: \"M (y)\" not found. [missingInclude]\n";

/// What words change of the report.
static CHANGES: [Case; 12] = [
    FOUND,
    Case {
        words: &["--error-exitcode=7", "a.c"],
        status: 7,
        ..FOUND
    },
    Case {
        words: &["-q", "--error-exitcode=7", "a.c", "--error-exitcode=0003"],
        out: "",
        status: 3,
        ..FOUND
    },
    Case {
        name: "no finding",
        words: &["--error-exitcode=7", "--quiet", "a.c"],
        out: "",
        ..PLAIN
    },
    Case {
        name: "words that change nothing",
        words: &["--std=c11", "--language=c", "--enable=style,warning", "a.c"],
        ..PLAIN
    },
    Case {
        asked: "list a.c, read a.c: file, read n.h: nothing",
        ..MISSING
    },
    Case {
        words: &["--enable=information,style", "a.c"],
        asked: "list a.c, read a.c: file, read n.h: nothing",
        ..MISSING
    },
    Case {
        words: &["--enable=missingInclude", "--error-exitcode=7", "a.c"],
        asked: "list a.c, read a.c: file, read n.h: nothing",
        err: MISSING_TOLD,
        ..MISSING
    },
    Case {
        words: &["--enable=all", "-Ii", "a.c"],
        asked: "list a.c, read a.c: file, read n.h: nothing, read i/n.h: nothing, \
            read i/m.h: nothing",
        err: MISSING_TOLD,
        ..MISSING
    },
    Case {
        name: "a macro of a word",
        words: &["-DZ=0", "a.c"],
        files: &[("a.c", b"int f(void) { return 1 / Z; }")],
        out: "Checking a.c: Z=0...\n",
        err: "a.c:1:24: error: Division by zero. [zerodiv]\n",
        ..PLAIN
    },
    Case {
        name: "macros of words, one of them undefined",
        words: &["-DX", "-D", "Y=", "-UX", "-DZ=a b", "a.c"],
        out: "Checking a.c: Y=;Z=a b...\n",
        ..PLAIN
    },
    Case {
        name: "a macro that is defined and undefined",
        words: &["-UX", "-DX", "a.c"],
        files: &[("a.c", b"#ifdef X\n1\n#endif\n#ifdef Y\n2\n#endif\n")],
        ..PLAIN
    },
];

#[test]
fn words_are_refused_or_change_the_report(rt: HostRuntime) -> Result<(), Fail> {
    try_cases(&rt, &REFUSALS)?;
    try_cases(&rt, &CHANGES)
}
