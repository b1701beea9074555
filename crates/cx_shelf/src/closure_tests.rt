//! The files that units are made of.
use crate::closures::closure;
use crate::indexed::IndexedShelf;
use crate::shelf_tests::{chain_of, no_files, shelf_of, shelved};
use cx_base::NoMemory;
use cx_table::NameKey;
use std::alloc::Global;

/// The files of shelves with the folders `i` and `j`, and those of the unit that the first file is.
const CLOSURES: [(&[(&str, &str)], &[usize]); 27] = [
    (&[("a.c", "")], &[0]),
    (&[("a.c", "int x;\n"), ("b.h", "")], &[0]),
    (&[("a.c", "#include \"a.c\"\n")], &[0]),
    (&[("a.c", "#include \"b.h\""), ("b.h", "")], &[0, 1]),
    (
        &[
            ("a.c", "#include \"b.h\"\n"),
            ("b.h", "#include \"c.h\"\n"),
            ("c.h", ""),
        ],
        &[0, 1, 2],
    ),
    (
        &[
            ("a.c", "#include \"c.h\"\n"),
            ("b.h", ""),
            ("c.h", "#include \"b.h\"\n"),
        ],
        &[0, 2, 1],
    ),
    (
        &[
            ("a.c", "#include \"b.h\"\n#include \"c.h\"\n"),
            ("b.h", "#include \"d.h\"\n"),
            ("c.h", "#include \"d.h\"\n"),
            ("d.h", ""),
        ],
        &[0, 1, 2, 3],
    ),
    (
        &[
            ("a.c", "#include \"c.h\"\n#include \"b.h\"\n"),
            ("b.h", "#include \"d.h\"\n"),
            ("c.h", "#include \"e.h\"\n#include \"d.h\"\n"),
            ("d.h", "#include \"f.h\"\n"),
            ("e.h", ""),
            ("f.h", ""),
        ],
        &[0, 2, 1, 4, 3, 5],
    ),
    (
        &[
            ("a.c", "#include \"b.h\"\n"),
            ("b.h", "#include \"c.h\"\n"),
            ("c.h", "#include \"a.c\"\n#include \"b.h\"\n"),
        ],
        &[0, 1, 2],
    ),
    (
        &[("a.c", "#include \"b.h\"\n#include \"b.h\"\n"), ("b.h", "")],
        &[0, 1],
    ),
    (
        &[
            (
                "a.c",
                "#include \"n.h\"\n#include <b.h>\n#include \"c.h\"\n",
            ),
            ("b.h", ""),
            ("c.h", ""),
        ],
        &[0, 2],
    ),
    (
        &[
            (
                "a.c",
                "#if 0\n#include \"b.h\"\n#else\n#include \"c.h\"\n#endif\n",
            ),
            ("b.h", "#ifdef A\n#if 0\n#include \"d.h\"\n#endif\n#endif\n"),
            ("c.h", ""),
            ("d.h", ""),
        ],
        &[0, 1, 2, 3],
    ),
    (
        &[
            (
                "a.c",
                "#endif\n#error no\n#foo\n#include\n#include \"b.h\"\n#if\n",
            ),
            ("b.h", ""),
        ],
        &[0, 1],
    ),
    (
        &[
            ("a.c", "#define B \"b.h\"\n#include B\n#include b.h\n"),
            ("b.h", ""),
            ("B", ""),
        ],
        &[0],
    ),
    (
        &[
            (
                "a.c",
                "/*\n#include \"b.h\"\n*/ // \\\n#include \"b.h\"\nx #include \"b.h\"\n",
            ),
            ("b.h", ""),
        ],
        &[0],
    ),
    (&[("s/a.c", "#include \"../b.h\"\n"), ("b.h", "")], &[0, 1]),
    (
        &[
            ("s/a.c", "#include \"../t/b.h\"\n"),
            ("t/b.h", "#include \"../s/c.h\"\n#include \"../../d.h\"\n"),
            ("s/c.h", ""),
            ("../d.h", ""),
            ("d.h", ""),
        ],
        &[0, 1, 2, 3],
    ),
    (
        &[
            ("a.c", "#include \"s/b.h\"\n"),
            ("s/b.h", "#include \"c.h\"\n"),
            ("c.h", ""),
            ("s/c.h", ""),
        ],
        &[0, 1, 3],
    ),
    (
        &[
            (
                "a.c",
                "#include \"b.h\"\n#include \"./b.h\"\n#include \"s/../b.h\"\n",
            ),
            ("b.h", ""),
        ],
        &[0, 1],
    ),
    (
        &[
            ("a.c", "#include <b.h>\n"),
            ("b.h", ""),
            ("j/b.h", ""),
            ("i/b.h", ""),
        ],
        &[0, 3],
    ),
    (
        &[
            ("a.c", "#include \"b.h\"\n#include <b.h>\n"),
            ("i/b.h", ""),
            ("b.h", ""),
        ],
        &[0, 2, 1],
    ),
    (
        &[
            ("a.c", "#include <s/b.h>\n"),
            ("s/c.h", ""),
            ("j/s/b.h", "#include \"c.h\"\n#include <c.h>\n"),
            ("j/s/c.h", ""),
            ("j/c.h", ""),
        ],
        &[0, 2, 3, 4],
    ),
    (
        &[
            ("a.c", "#include \"b.h\"\n"),
            ("i/b.h", "#include \"a.c\"\n"),
        ],
        &[0, 1],
    ),
    (
        &[
            ("a.c", "#include \"/r/b.h\"\n"),
            ("i/r/b.h", ""),
            ("/r/b.h", ""),
        ],
        &[0, 2],
    ),
    (
        &[
            ("a.c", "#include \"b.h\"\n"),
            ("b.h", ""),
            ("b.h", "#include \"a.c\""),
        ],
        &[0, 1],
    ),
    (
        &[
            ("a.c", "#include \"b.h\"\n#include \"b.h\"\n"),
            ("b.h", "#pragma once\n#include \"c.h\"\n"),
            ("c.h", "#ifndef C\n#define C\n#include \"b.h\"\n#endif\n"),
        ],
        &[0, 1, 2],
    ),
    (
        &[
            ("a.c", "%:include \"b.h\" x\n# /* */ inc\\\nlude <c.h>\n"),
            ("b.h", ""),
            ("i/c.h", ""),
        ],
        &[0, 1, 2],
    ),
];

/// The files of a unit, under a key of its own.
fn files_of(alloc: Global, shelf: &IndexedShelf, unit: u32) -> Result<Vec<usize>, NoMemory> {
    closure(alloc, NameKey::of(b"closure"), shelf, unit)
}

#[test]
fn units_are_made_of_what_they_include(rt: HostRuntime) {
    let alloc = rt.alloc();
    for (files, expected) in CLOSURES {
        let shelf = shelf_of(alloc, files).expect(&rt, "memory");
        let found = files_of(alloc, &shelf, 0).expect(&rt, "memory");
        assert_eq!(rt; found.as_slice(), expected);
    }
}

#[test]
fn each_file_may_be_the_unit(rt: HostRuntime) {
    let alloc = rt.alloc();
    let files: [(&str, &str); 4] = [
        ("a.c", "#include \"b.h\"\n"),
        ("b.h", "#include \"c.h\"\n"),
        ("c.h", ""),
        ("d.c", "#include \"a.c\"\n"),
    ];
    let shelf = shelf_of(alloc, &files).expect(&rt, "memory");
    let rows: [(u32, &[usize]); 6] = [
        (0, &[0, 1, 2]),
        (1, &[1, 2]),
        (2, &[2]),
        (3, &[3, 0, 1, 2]),
        (4, &[4]),
        (u32::MAX, &[4_294_967_295]),
    ];
    for (unit, expected) in rows {
        let found = files_of(alloc, &shelf, unit).expect(&rt, "memory");
        assert_eq!(rt; found.as_slice(), expected, "of {unit}");
    }
}

#[test]
fn an_empty_shelf_has_the_unit_alone(rt: HostRuntime) {
    let alloc = rt.alloc();
    let shelf = shelf_of(alloc, &[]).expect(&rt, "memory");
    let found = files_of(alloc, &shelf, 0).expect(&rt, "memory");
    assert_eq!(rt; found.as_slice(), [0].as_slice());
}

#[test]
fn a_chain_of_three_hundred_files_is_followed(rt: HostRuntime) {
    let alloc = rt.alloc();
    let shelf = chain_of(alloc, 299).expect(&rt, "memory");
    let found = files_of(alloc, &shelf, 0).expect(&rt, "memory");
    assert_eq!(rt; found.len(), 300);
    for (index, file) in found.as_slice().iter().enumerate() {
        assert_eq!(rt; *file, index);
    }
}

/// A unit that includes itself and a header a thousand times.
fn crowded(alloc: Global) -> Result<IndexedShelf, NoMemory> {
    let mut text = String::new(alloc);
    for _ in 0..1000 {
        text.push_str("#include \"a.c\"\n#include \"b.h\"\n")?;
    }
    let shelf = no_files(alloc)?.with(shelved(alloc, "a.c", text.as_str(), 0)?)?;
    shelf.with(shelved(alloc, "b.h", text.as_str(), 1)?)
}

#[test]
fn a_file_that_is_included_a_thousand_times_stands_once(rt: HostRuntime) {
    let alloc = rt.alloc();
    let shelf = crowded(alloc).expect(&rt, "memory");
    let found = files_of(alloc, &shelf, 0).expect(&rt, "memory");
    assert_eq!(rt; found.as_slice(), [0, 1].as_slice());
}
