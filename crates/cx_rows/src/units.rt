//! What is told of units: their configurations, the faults of their files, and findings of several.
use crate::cases::{Case, PLAIN, REFUSED, try_cases};
use cx_run::Cause;
use std::test::Fail;

/// A text with two conditions, one within the other.
const NESTED: Case = Case {
    name: "nested conditions",
    files: &[(
        "a.c",
        b"int f(void) {\n#ifdef B\n#ifdef A\nint z = 0;\nreturn 1 / z;\n#endif\n#endif\n\
        return 1;\n}\n",
    )],
    out: "Checking a.c ...\nChecking a.c: B...\nChecking a.c: A;B...\n",
    err: "a.c:5:10: error: Division by zero. [zerodiv]\n",
    ..PLAIN
};

/// A text that asks for thirteen macros.
const MANY: Case = Case {
    name: "thirteen conditions",
    files: &[(
        "a.c",
        b"#ifdef A01\n#endif\n#ifdef A02\n#endif\n#ifdef A03\n#endif\n#ifdef A04\n#endif\n\
        #ifdef A05\n#endif\n#ifdef A06\n#endif\n#ifdef A07\n#endif\n#ifdef A08\n#endif\n\
        #ifdef A09\n#endif\n#ifdef A10\n#endif\n#ifdef A11\n#endif\n#ifdef A12\n#endif\n\
        #ifdef A13\n#endif\n",
    )],
    ..PLAIN
};

const ALL_OF_MANY: &str = "Checking a.c ...\nChecking a.c: A01...\nChecking a.c: A02...\n\
    Checking a.c: A03...\nChecking a.c: A04...\nChecking a.c: A05...\nChecking a.c: A06...\n\
    Checking a.c: A07...\nChecking a.c: A08...\nChecking a.c: A09...\nChecking a.c: A10...\n\
    Checking a.c: A11...\nChecking a.c: A12...\nChecking a.c: A13...\n";

const TWELVE_OF_MANY: &str = "Checking a.c ...\nChecking a.c: A01...\nChecking a.c: A02...\n\
    Checking a.c: A03...\nChecking a.c: A04...\nChecking a.c: A05...\nChecking a.c: A06...\n\
    Checking a.c: A07...\nChecking a.c: A08...\nChecking a.c: A09...\nChecking a.c: A10...\n\
    Checking a.c: A11...\n";

/// The configurations of a unit.
static CONFIGURATIONS: [Case; 17] = [
    NESTED,
    Case {
        words: &["-UA", "a.c"],
        out: "Checking a.c ...\nChecking a.c: B...\n",
        err: "",
        ..NESTED
    },
    Case {
        words: &["-DA", "a.c"],
        out: "Checking a.c: A=1...\n",
        err: "",
        ..NESTED
    },
    Case {
        words: &["-DA", "--force", "a.c", "--error-exitcode=3"],
        out: "Checking a.c: A=1...\nChecking a.c: A=1;B...\n",
        status: 3,
        ..NESTED
    },
    Case {
        words: &["--max-configs=2", "a.c"],
        out: "Checking a.c ...\nChecking a.c: B...\n",
        err: "",
        ..NESTED
    },
    Case {
        out: TWELVE_OF_MANY,
        ..MANY
    },
    Case {
        words: &["a.c", "--force"],
        out: ALL_OF_MANY,
        ..MANY
    },
    Case {
        words: &["--force", "--max-configs=2", "a.c"],
        out: "Checking a.c ...\nChecking a.c: A01...\n",
        ..MANY
    },
    Case {
        words: &["--max-configs=2", "--force", "a.c"],
        out: ALL_OF_MANY,
        ..MANY
    },
    Case {
        name: "names that are defined",
        files: &[
            (
                "a.c",
                b"#include \"h.h\"\n#ifdef __STDC__\n#endif\n#ifdef INT_MAX\n#endif\n",
            ),
            (
                "h.h",
                b"#ifndef H_H\n#define H_H\n#endif\n#if defined(H_H)\n#endif\n",
            ),
        ],
        asked: "list a.c, read a.c: file, read h.h: file",
        ..PLAIN
    },
    Case {
        name: "a condition of a header",
        files: &[
            ("a.c", b"#include \"h.h\"\nint f(void) { return Z; }"),
            (
                "h.h",
                b"#ifdef A\n#define Z 1 / 0\n#else\n#define Z 1\n#endif\n",
            ),
        ],
        out: "Checking a.c ...\nChecking a.c: A...\n",
        err: "a.c:2:22: error: Division by zero. [zerodiv]\n",
        asked: "list a.c, read a.c: file, read h.h: file",
        ..PLAIN
    },
    Case {
        name: "a finding in two configurations",
        files: &[("a.c", b"#ifdef A\n#endif\nint f(void) { return 1 / 0; }")],
        out: "Checking a.c ...\nChecking a.c: A...\n",
        err: "a.c:3:24: error: Division by zero. [zerodiv]\n",
        ..PLAIN
    },
    Case {
        name: "findings in the order of configurations",
        words: &["a.c", "--enable=missingInclude"],
        files: &[(
            "a.c",
            b"#ifdef A\n#include <n.h>\nint f(void) { return 1 / 0; }\n#else\n#if\n#endif\n#endif",
        )],
        out: "Checking a.c ...\nChecking a.c: A...\n",
        err: "a.c:5:1: error: syntax error: bad condition [syntaxError]\n\
            a.c:2:10: information: Include file: <n.h> not found. [missingIncludeSystem]\n\
            a.c:3:24: error: Division by zero. [zerodiv]\n",
        ..PLAIN
    },
    Case {
        name: "an error directive of one configuration",
        files: &[("a.c", b"#ifdef X\n#error stop\n#endif\n")],
        out: "Checking a.c ...\nChecking a.c: X...\n",
        ..PLAIN
    },
    Case {
        name: "an error directive of each configuration",
        words: &["a.c", "--enable=all"],
        files: &[(
            "a.c",
            b"#include <n.h>\n#ifdef X\n#error one\n#else\n#error  two\n#endif\nint",
        )],
        out: "Checking a.c ...\nChecking a.c: X...\n",
        err: "a.c:5:1: error: #error two [preprocessorErrorDirective]\n",
        ..PLAIN
    },
    Case {
        name: "tokens that are no first text in one configuration",
        files: &[("a.c", b"#ifdef X\nint x;\n#endif\n")],
        cause: Cause::NotBuilt,
        status: 1,
        out: "",
        err: "cppcheck: error: not built yet.\n",
        ..PLAIN
    },
    Case {
        name: "a configuration that is left out",
        words: &["-U", "X", "a.c"],
        files: &[("a.c", b"#ifdef X\nint x;\n#endif\n")],
        ..PLAIN
    },
];

/// Two units that include one header.
const TWO: Case = Case {
    name: "a header of two units",
    words: &["a.c", "b.c"],
    files: &[
        ("a.c", b"#include \"h.h\"\n"),
        ("b.c", b"\n#include \"h.h\"\n"),
        ("h.h", b"int f(void) {\nreturn 1 / 0;\n}\n"),
    ],
    out: "Checking a.c ...\nChecking b.c ...\n",
    err: "h.h:2:10: error: Division by zero. [zerodiv]\n",
    asked: "list a.c, read a.c: file, list b.c, read b.c: file, read h.h: file",
    ..PLAIN
};

/// Several units.
static SEVERAL: [Case; 6] = [
    TWO,
    Case {
        words: &["-q", "a.c", "b.c", "./a.c"],
        out: "",
        ..TWO
    },
    Case {
        name: "the same text twice",
        words: &["b.c", "a.c", "--error-exitcode=255"],
        files: &[
            ("a.c", b"int f(void) { return 1 / 0; }"),
            ("b.c", b"int f(void) { return 1 / 0; }"),
        ],
        status: 255,
        out: "Checking b.c ...\nChecking a.c ...\n",
        err: "b.c:1:24: error: Division by zero. [zerodiv]\n\
            a.c:1:24: error: Division by zero. [zerodiv]\n",
        asked: "list b.c, read b.c: file, list a.c, read a.c: file",
        ..PLAIN
    },
    Case {
        name: "a second unit that is no first text",
        files: &[
            ("a.c", b"#include \"h.h\"\n#include <n.h>\n"),
            ("b.c", b"int x;\n#include \"i.h\"\n"),
            ("h.h", b"int f(void) { return 1 / 0; }\n"),
        ],
        cause: Cause::NotBuilt,
        err: "cppcheck: error: not built yet.\n",
        asked: "list a.c, read a.c: file, list b.c, read b.c: file, read h.h: file, \
            read i.h: nothing",
        words: &["a.c", "b.c"],
        ..REFUSED
    },
    Case {
        name: "a unit with a fault beside one with a finding",
        files: &[
            ("a.c", b"#if 1\nint x;\n"),
            ("b.c", b"int f(void) { int x; return x; }"),
        ],
        err: "a.c:1:1: error: syntax error: unclosed group [syntaxError]\n\
            b.c:1:29: error: Uninitialized variable: x [uninitvar]\n",
        asked: "list a.c, read a.c: file, list b.c, read b.c: file",
        ..TWO
    },
    Case {
        name: "a unit that is included by another",
        files: &[
            ("a.c", b"#define Z 0\n#include \"b.c\"\n"),
            ("b.c", b"#ifdef Z\nint f(void) { return 1 / Z; }\n#endif\n"),
        ],
        out: "Checking a.c ...\nChecking b.c ...\nChecking b.c: Z...\n",
        err: "b.c:2:24: error: Division by zero. [zerodiv]\n",
        asked: "list a.c, read a.c: file, list b.c, read b.c: file",
        ..TWO
    },
];

#[test]
fn each_configuration_of_each_unit_is_told(rt: HostRuntime) -> Result<(), Fail> {
    try_cases(&rt, &CONFIGURATIONS)?;
    try_cases(&rt, &SEVERAL)
}
