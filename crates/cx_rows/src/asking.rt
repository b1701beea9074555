//! What is asked: paths, folders, lists and includes.
use crate::cases::{Case, PLAIN, REFUSED, try_cases};
use cx_asking::FileFault;
use cx_run::Cause;
use std::test::Fail;

/// A case that has nothing to check.
const NO_INPUT: Case = Case {
    cause: Cause::NoInput,
    err: "cppcheck: error: could not find any file to check.\n",
    ..REFUSED
};

/// A case of a list that is refused.
const WRONG_LIST: Case = Case {
    words: &["a.c", "--file-list=l"],
    cause: Cause::ListRefused {
        word: 1,
        fault: FileFault::Absent,
    },
    err: "cppcheck: error: file \"l\" was not found.\n",
    ..REFUSED
};

/// Paths that are given.
static PATHS: [Case; 17] = [
    PLAIN,
    Case {
        name: "an absent file",
        words: &["none.c"],
        asked: "list none.c, read none.c: nothing",
        ..NO_INPUT
    },
    Case {
        name: "a file that is no source",
        words: &["a.h", "a.C", "a.cc", "a"],
        files: &[("a", b""), ("a.C", b""), ("a.cc", b""), ("a.h", b"")],
        asked: "list a.h, read a.h: file, list a.C, read a.C: file, list a.cc, read a.cc: file, \
            list a, read a: file",
        ..NO_INPUT
    },
    Case {
        name: "names of a source",
        words: &[".c", "..c", "#x y.c", "\u{e4}.c"],
        files: &[
            (".c", b""),
            ("..c", b""),
            ("#x y.c", b""),
            ("\u{e4}.c", b""),
        ],
        out: "Checking .c ...\nChecking ..c ...\nChecking #x y.c ...\nChecking \u{e4}.c ...\n",
        asked: "list .c, read .c: file, list ..c, read ..c: file, list #x y.c, read #x y.c: file, \
            list \u{e4}.c, read \u{e4}.c: file",
        ..PLAIN
    },
    Case {
        name: "a path that is not simple",
        words: &["./a//b/../c.c"],
        files: &[("a/c.c", b"")],
        out: "Checking a/c.c ...\n",
        asked: "list a/c.c, read a/c.c: file",
        ..PLAIN
    },
    Case {
        name: "one path three times",
        words: &["b.c", "a.c", "./a.c", "d/../a.c"],
        files: &[("a.c", b""), ("b.c", b"")],
        out: "Checking b.c ...\nChecking a.c ...\n",
        asked: "list b.c, read b.c: file, list a.c, read a.c: file",
        ..PLAIN
    },
    Case {
        name: "a file as a folder",
        words: &["a.c/b.c", "a.c"],
        asked: "list a.c/b.c, read a.c/b.c: nothing, list a.c, read a.c: file",
        ..PLAIN
    },
    Case {
        name: "a path behind the root, and one above",
        words: &["//r/../a.c", "../../b.c", "/.."],
        files: &[("/a.c", b""), ("../../b.c", b"")],
        out: "Checking /a.c ...\nChecking ../../b.c ...\n",
        asked: "list /a.c, read /a.c: file, list ../../b.c, read ../../b.c: file, \
            list /.., read /..: nothing",
        ..PLAIN
    },
    Case {
        name: "a folder",
        words: &["d/"],
        files: &[
            ("d/x.h", b""),
            ("d/e/z.c", b""),
            ("d/e/f/y.c", b""),
            ("d/c.c/k.c", b""),
            ("d/b.c", b""),
            ("d/B.c", b""),
        ],
        out: "Checking d/B.c ...\nChecking d/b.c ...\nChecking d/c.c/k.c ...\n\
            Checking d/e/f/y.c ...\nChecking d/e/z.c ...\n",
        asked: "list d: folder, read d/B.c: file, read d/b.c: file, list d/c.c: folder, \
            read d/c.c/k.c: file, list d/e: folder, list d/e/f: folder, read d/e/f/y.c: file, \
            read d/e/z.c: file",
        ..PLAIN
    },
    Case {
        name: "the current folder",
        words: &["."],
        files: &[("../b.c", b""), ("/c.c", b""), ("a.c", b""), ("d/a.h", b"")],
        asked: "list .: folder, read a.c: file, list d: folder",
        ..PLAIN
    },
    Case {
        name: "a folder without sources",
        words: &["d"],
        files: &[("d/a.h", b""), ("d/e/a.h", b"")],
        asked: "list d: folder, list d/e: folder",
        ..NO_INPUT
    },
    Case {
        name: "a folder and its file",
        words: &["d", "d/a.c", "d"],
        files: &[("d/a.c", b""), ("d/b.c", b"")],
        out: "Checking d/a.c ...\nChecking d/b.c ...\n",
        asked: "list d: folder, read d/a.c: file, read d/b.c: file",
        ..PLAIN
    },
    Case {
        name: "a file and its folder",
        words: &["d/b.c", "d"],
        files: &[("d/a.c", b""), ("d/b.c", b"")],
        out: "Checking d/b.c ...\nChecking d/a.c ...\n",
        asked: "list d/b.c, read d/b.c: file, list d: folder, read d/a.c: file",
        ..PLAIN
    },
    Case {
        name: "paths of a list behind those of the words",
        words: &["--file-list=l", "w.c"],
        files: &[
            ("l", b"b.c\n\n./a.c\r\nd\nb.c\n# x.c\n"),
            ("# x.c", b""),
            ("a.c", b""),
            ("b.c", b""),
            ("d/e.c", b""),
            ("w.c", b""),
        ],
        out: "Checking w.c ...\nChecking b.c ...\nChecking a.c ...\nChecking d/e.c ...\n\
            Checking # x.c ...\n",
        asked: "read l: file, list w.c, read w.c: file, list b.c, read b.c: file, list a.c, \
            read a.c: file, list d: folder, read d/e.c: file, list # x.c, read # x.c: file",
        ..PLAIN
    },
    Case {
        name: "lines that name nothing",
        words: &["--file-list=l"],
        files: &[("l", b"a.c\r\r\n a.c\n-q\na\0.c\na.c\r"), ("a.c", b"")],
        asked: "read l: file, list a.c\r, read a.c\r: nothing, list  a.c, read  a.c: nothing, \
            list -q, read -q: nothing, list a\0.c, read a\0.c: nothing",
        ..NO_INPUT
    },
    Case {
        name: "a list that is a source",
        words: &["--file-list=./a.c", "a.c"],
        asked: "read a.c: file",
        ..PLAIN
    },
    Case {
        name: "lists without paths",
        words: &["--file-list=l", "--file-list=m"],
        files: &[("l", b""), ("m", b"\n\r\n")],
        asked: "read l: file, read m: file",
        ..NO_INPUT
    },
];

/// Lists that are refused: of the paths given nothing is asked then.
static LISTS: [Case; 6] = [
    Case {
        name: "no list",
        asked: "read l: nothing",
        ..WRONG_LIST
    },
    Case {
        name: "a folder as a list",
        words: &["-q", "-D", "X", "--file-list=./l//"],
        files: &[("l/a.c", b"")],
        cause: Cause::ListRefused {
            word: 3,
            fault: FileFault::Absent,
        },
        err: "cppcheck: error: file \"./l//\" was not found.\n",
        asked: "read l: nothing",
        ..WRONG_LIST
    },
    Case {
        name: "a list that cannot be read",
        files: &[("l", b"a.c"), ("a.c", b"")],
        failing: &[0],
        cause: Cause::ListRefused {
            word: 1,
            fault: FileFault::Unreadable,
        },
        err: "cppcheck: error: file \"l\" could not be read.\n",
        asked: "read! l: unreadable",
        ..WRONG_LIST
    },
    Case {
        name: "a line that is no text",
        files: &[("l", b"a.c\n\nb\xff.c\n\xfe"), ("a.c", b"")],
        cause: Cause::ListRefused {
            word: 1,
            fault: FileFault::BadLine { line: 3 },
        },
        err: "cppcheck: error: file \"l\" was refused at line 3.\n",
        asked: "read l: file",
        ..WRONG_LIST
    },
    Case {
        name: "the second of three lists",
        words: &["--file-list=l", "--file-list=m", "--file-list=n"],
        files: &[("l", b"a.c"), ("n", b"\xff"), ("a.c", b"")],
        err: "cppcheck: error: file \"m\" was not found.\n",
        asked: "read l: file, read m: nothing",
        ..WRONG_LIST
    },
    Case {
        name: "one list twice",
        words: &["--file-list=m", "--file-list=./m"],
        cause: Cause::ListRefused {
            word: 0,
            fault: FileFault::Absent,
        },
        err: "cppcheck: error: file \"m\" was not found.\n",
        asked: "read m: nothing",
        ..WRONG_LIST
    },
];

/// What files include.
static INCLUDES: [Case; 11] = [
    Case {
        name: "the folder of the file, and then those of the words",
        words: &["d/a.c", "-Ii", "-I", "j/"],
        files: &[
            (
                "d/a.c",
                b"#include \"x.h\"\n#include <y.h>\n#include \"z.h\"\n",
            ),
            ("d/y.h", b""),
            ("d/z.h", b""),
            ("i/x.h", b""),
            ("i/z.h", b""),
            ("j/x.h", b""),
            ("j/y.h", b""),
        ],
        out: "Checking d/a.c ...\n",
        asked: "list d/a.c, read d/a.c: file, read d/x.h: nothing, read i/x.h: file, \
            read i/y.h: nothing, read j/y.h: file, read d/z.h: file",
        ..PLAIN
    },
    Case {
        name: "a name from the root, and one above",
        words: &["d/a.c", "-Ii"],
        files: &[
            ("/x.h", b""),
            (
                "d/a.c",
                b"#include \"/x.h\"\n#include \"../i/../y.h\"\n#include </n.h>\n",
            ),
            ("y.h", b""),
        ],
        out: "Checking d/a.c ...\n",
        asked: "list d/a.c, read d/a.c: file, read /x.h: file, read y.h: file, read /n.h: nothing",
        ..PLAIN
    },
    Case {
        name: "breadth first, over all units",
        words: &["a.c", "b.c"],
        files: &[
            ("a.c", b"#include \"1.h\"\n"),
            ("b.c", b"#include \"3.h\"\n#include \"1.h\"\n"),
            ("1.h", b"#include \"2.h\"\n"),
            ("2.h", b""),
            ("3.h", b""),
        ],
        out: "Checking a.c ...\nChecking b.c ...\n",
        asked: "list a.c, read a.c: file, list b.c, read b.c: file, read 1.h: file, \
            read 3.h: file, read 2.h: file",
        ..PLAIN
    },
    Case {
        name: "groups that are not chosen",
        files: &[(
            "a.c",
            b"#if 0\n#include \"x.h\"\n#endif\n/*\n#include \"y.h\"\n*/\n",
        )],
        asked: "list a.c, read a.c: file, read x.h: nothing",
        ..PLAIN
    },
    Case {
        name: "no name",
        words: &["d", "-Ii"],
        files: &[("d/a.c", b"#include \"\"\n#include <>\n#include \"x\xff\"\n")],
        out: "Checking d/a.c ...\n",
        asked: "list d: folder, read d/a.c: file, read i: nothing",
        ..PLAIN
    },
    Case {
        name: "the empty folder of a word",
        words: &["d/a.c", "-I", ""],
        files: &[("d/a.c", b"#include <x.h>\n"), ("x.h", b"")],
        out: "Checking d/a.c ...\n",
        asked: "list d/a.c, read d/a.c: file, read x.h: file",
        ..PLAIN
    },
    Case {
        name: "another unit, and itself",
        words: &["a.c", "b.c"],
        files: &[
            ("a.c", b"#pragma once\n#include \"b.c\"\n"),
            (
                "b.c",
                b"#pragma once\n#include \"a.c\"\n#include \"./b.c\"\n",
            ),
        ],
        out: "Checking a.c ...\nChecking b.c ...\n",
        asked: "list a.c, read a.c: file, list b.c, read b.c: file",
        ..PLAIN
    },
    Case {
        name: "a path that was given, and is nothing",
        words: &["a.c", "x.h"],
        files: &[("a.c", b"#include \"x.h\"\n")],
        asked: "list a.c, read a.c: file, list x.h, read x.h: nothing",
        ..PLAIN
    },
    Case {
        name: "a folder that was given",
        words: &["a.c", "d", "-Ii"],
        files: &[("a.c", b"#include \"d\"\n"), ("d/x.h", b""), ("i/d", b"")],
        asked: "list a.c, read a.c: file, list d: folder, read i/d: file",
        ..PLAIN
    },
    Case {
        name: "a list",
        words: &["--file-list=l"],
        files: &[
            ("l", b"a.c"),
            ("a.c", b"#undef a\n#include \"m\"\n"),
            ("m", b""),
        ],
        asked: "read l: file, list a.c, read a.c: file, read m: file",
        ..PLAIN
    },
    Case {
        name: "what a file that has no pieces includes",
        files: &[("a.c", b"#include \"x.h\"\n/*"), ("x.h", b"")],
        err: "a.c:2:1: error: syntax error: unclosed comment [syntaxError]\n",
        ..PLAIN
    },
];

#[test]
fn what_the_words_ask_is_asked_once_and_in_order(rt: HostRuntime) -> Result<(), Fail> {
    try_cases(&rt, &PATHS)?;
    try_cases(&rt, &LISTS)?;
    try_cases(&rt, &INCLUDES)
}
