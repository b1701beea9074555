//! The names for which the groups of a source ask.
use crate::groups::OpenGroups;
use crate::name_lists::NameLists;
use crate::settled::Settled;
use cx_base::{List, NoMemory, Text};
use cx_lex::{Piece, lex};
use cx_lines::{first_line, kind_of};
use cx_options::options;
use cx_shelf::Shelf;
use cx_table::NameKey;
use std::alloc::Global;
use std::str;

/// Conditions, and the names for which they ask.
const CONDITIONS: [(&str, &str); 37] = [
    ("defined A", "A"),
    ("defined(A)", "A"),
    ("defined ( A )", "A"),
    ("!defined A", ""),
    ("!defined(A)", ""),
    ("! defined(A)", ""),
    ("!(defined A)", "A"),
    ("! !defined A", ""),
    ("!(!defined A)", ""),
    ("!A && defined B", "B"),
    ("defined A && defined(B)", "A;B"),
    ("defined(B) || defined A", "A;B"),
    ("defined A && !defined B", "A"),
    ("!defined A || defined B", "B"),
    ("defined A && defined A", "A"),
    ("defined A && !defined A", "A"),
    (
        "defined b && defined B && defined AB && defined A",
        "A;AB;B;b",
    ),
    ("(defined A) + 1 > B", "A"),
    ("A", "A"),
    ("A /* more */", "A"),
    ("(A)", ""),
    ("!A", ""),
    ("A + 1", ""),
    ("A B", ""),
    ("A == 1 && B", ""),
    ("F(A)", ""),
    ("1", ""),
    ("0 && defined A", "A"),
    ("'A'", ""),
    ("", ""),
    ("defined", "defined"),
    ("defined 1", ""),
    ("defined (A", ""),
    ("defined A)", "A"),
    ("defined ((A))", ""),
    ("defined (1) A", ""),
    ("defined defined A", "A;defined"),
];

/// Sources, and the names for which the group asks that each conditional line begins, in brackets.
const SECTIONS: [(&str, &str); 43] = [
    ("", ""),
    ("int x;\n#define A\n#include \"a.h\"\n", ""),
    ("#ifdef A\nint x;\n#endif\n", "[A]"),
    ("#ifndef A\n#endif\n", "[]"),
    ("#if A\n#endif\n", "[A]"),
    ("#if 1\n#endif\n", "[]"),
    ("#ifdef A\n#else\n#endif\n", "[A][]"),
    ("#ifndef A\n#else\n#endif\n", "[][A]"),
    ("#if A\n#else\n#endif\n", "[A][]"),
    ("#if !defined A\n#else\n#endif\n", "[][]"),
    (
        "#ifdef A\n#elif B\n#elif defined C\n#else\n#endif\n",
        "[A][B][C][]",
    ),
    ("#ifndef A\n#elif defined(B)\n#else\n#endif\n", "[][B][A]"),
    (
        "#ifndef A\n#ifdef B\n#else\n#endif\n#else\n#endif\n",
        "[][B][][A]",
    ),
    (
        "#ifdef A\n#ifdef B\n#endif\n#ifdef C\n#endif\n#endif\n",
        "[A][A;B][A;C]",
    ),
    (
        "#ifdef B\n#ifdef A\n#ifdef C\n#endif\n#endif\n#endif\n",
        "[B][A;B][A;B;C]",
    ),
    ("#ifdef A\n#ifdef A\n#endif\n#endif\n", "[A][A]"),
    ("#ifdef A\n#else\n#ifdef C\n#endif\n#endif\n", "[A][][C]"),
    (
        "#if defined A\n#elif defined(B)\n#ifdef C\n#endif\n#endif\n",
        "[A][B][B;C]",
    ),
    (
        "#ifndef A\n#elif defined(B)\n#else\n#ifdef C\n#endif\n#endif\n",
        "[][B][A][A;C]",
    ),
    ("#ifdef A\n#if 1\n#else\n#endif\n#endif\n", "[A][A][A]"),
    (
        "#ifdef A\n#ifndef B\n#else\n#endif\n#else\n#endif\n",
        "[A][A][A;B][]",
    ),
    ("#ifdef A\n#endif\n#ifdef B\n#endif\n", "[A][B]"),
    (
        "#ifdef A\n#if B\n#endif\n#elif C\n#if D\n#endif\n#endif\n",
        "[A][A;B][C][C;D]",
    ),
    (
        "#if A\nx\n#elif B\ny\n#else\nz\n#endif\n#if C\n",
        "[A][B][][C]",
    ),
    ("#ifdef\n#else\n#endif\n", "[][]"),
    ("#ifndef\n#else\n#endif\n", "[][]"),
    ("#ifdef 1\n#endif\n#ifndef \"A\"\n#else\n#endif\n", "[][][]"),
    (
        "#ifdef A B\n#endif\n#ifndef A B\n#else\n#endif\n",
        "[A][][A]",
    ),
    ("#if\n#elif\n#endif\n", "[][]"),
    ("#endif\n#ifdef A\n#endif\n", "[A]"),
    ("#else\n#elif A\n#ifdef B\n#endif\n", "[][][B]"),
    ("#ifndef A\n#else\n#else\n#elif B\n#endif\n", "[][A][A][B]"),
    ("#ifdef A\n#endif\n#endif\n#ifdef B\n", "[A][B]"),
    ("#ifdef A\n#ifdef B\n#ifdef C\n", "[A][A;B][A;B;C]"),
    ("#ifdef A\n#if defined \\\n B\n#endif\n", "[A][A;B]"),
    ("x #ifdef A\n #  ifdef B\n%:ifdef C\n", "[B][B;C]"),
    (
        "#if defined A || defined B\n#if 1\n#ifdef C\n#endif\n#endif\n\
        #if 1\n#ifdef C\n#endif\n#endif\n#endif\n",
        "[A;B][A;B][A;B;C][A;B][A;B;C]",
    ),
    (
        "#ifdef A\n#ifdef B\n#endif\n#ifdef B\n#ifdef C\n#endif\n#endif\n#endif\n",
        "[A][A;B][A;B][A;B;C]",
    ),
    (
        "#ifdef A\n#if defined C || defined B\n#endif\n\
        #if defined B && defined C && defined B\n#endif\n#endif\n",
        "[A][A;B;C][A;B;C]",
    ),
    (
        "#if defined A || defined B\n#if defined A || defined C\n#endif\n\
        #if defined C || defined B\n#endif\n#if defined B\n#endif\n#endif\n",
        "[A;B][A;B;C][A;B;C][A;B]",
    ),
    (
        "#ifdef A\n#ifdef B\n#endif\n#endif\n#ifdef B\n#ifdef A\n#ifdef C\n",
        "[A][A;B][B][A;B][A;B;C]",
    ),
    (
        "#ifdef A\n#ifdef C\n#endif\n#endif\n#ifdef B\n#ifdef C\n#endif\n#endif\n",
        "[A][A;C][B][B;C]",
    ),
    (
        "#ifndef A\n#if 1\n#endif\n#ifdef B\n#endif\n#elif C\n#ifdef B\n#endif\n\
        #else\n#ifdef B\n#endif\n#endif\n#ifdef B\n#endif\n",
        "[][][B][C][B;C][A][A;B][B]",
    ),
];

/// The same, where `S` and `T` are settled.
const SETTLED: [(&str, &str); 10] = [
    ("#ifdef S\n#endif\n", "[]"),
    ("#ifdef S\n#ifdef A\n#endif\n#endif\n", "[][A]"),
    (
        "#ifdef A\n#ifdef S\n#ifdef T\n#endif\n#endif\n#endif\n",
        "[A][A][A]",
    ),
    ("#ifndef S\n#else\n#endif\n", "[][]"),
    ("#if S\n#elif T\n#elif A\n#endif\n", "[][][A]"),
    ("#if defined S && defined A\n#endif\n", "[A]"),
    (
        "#if defined A || defined(T) || defined B\n#endif\n",
        "[A;B]",
    ),
    ("#ifdef s\n#ifdef SS\n#endif\n#endif\n", "[s][SS;s]"),
    ("#ifdef __FILE__\n#ifdef __STDC__\n#endif\n#endif\n", "[][]"),
    (
        "#ifdef A\n#ifdef S\n#ifdef B\n#endif\n#endif\n#if defined T || defined B\n#endif\n",
        "[A][A][A;B][A;B]",
    ),
];

fn pieces(alloc: Global, source: &str) -> Result<List<Piece>, NoMemory> {
    if source.len() >= 4_294_967_295 {
        return Err(NoMemory);
    }
    match lex(alloc, source.as_bytes(), 0) {
        Ok(lexed) => Ok(lexed.pieces),
        Err(_) => Err(NoMemory),
    }
}

/// Names that are settled, besides those of the macros that stand before every unit.
fn settled(alloc: Global, names: &[&str]) -> Result<Settled, NoMemory> {
    let shelf = Shelf {
        folders: List::new(alloc),
        files: List::new(alloc),
    };
    let Ok(mut options) = options(alloc, &[]) else {
        return Err(NoMemory);
    };
    for name in names {
        options
            .undefined
            .push(Text::from_slice(alloc, name.as_bytes())?)?;
    }
    Settled::of(alloc, NameKey::of(b""), &shelf, &[], &[], &options)
}

/// The names of the innermost group, joined by `;`.
fn shown_names(alloc: Global, lists: &NameLists, groups: &OpenGroups) -> Result<String, NoMemory> {
    let mut shown = String::new(alloc);
    let Some(names) = lists.names_at(groups.number()) else {
        return Ok(shown);
    };
    for name in names.iter() {
        if !shown.is_empty() {
            shown.push_str(";")?;
        }
        shown.push_str(str::from_utf8(*name).unwrap_or("?"))?;
    }
    Ok(shown)
}

/// The names of the group that each line begins, in brackets.
fn shown_groups(alloc: Global, settled: &Settled, pieces: &[Piece]) -> Result<String, NoMemory> {
    let mut shown = String::new(alloc);
    let mut groups = OpenGroups::new(alloc);
    let mut lists = NameLists::new(alloc, NameKey::of(b""));
    let mut rest = pieces;
    for _ in 0..pieces.len() {
        let Some((line, more)) = first_line(rest) else {
            break;
        };
        groups.pass(alloc, &mut lists, settled, line)?;
        let kind = kind_of(line);
        if kind.opens() || kind.parts() {
            let names = shown_names(alloc, &lists, &groups)?;
            shown.push_str(format!(in alloc; "[{}]", names)?.as_str())?;
        }
        rest = more;
    }
    Ok(shown)
}

/// The same of a source.
fn shown_source(alloc: Global, settled: &Settled, source: &str) -> Result<String, NoMemory> {
    let pieces = pieces(alloc, source)?;
    shown_groups(alloc, settled, pieces.as_slice())
}

#[test]
fn conditions_ask_for_names(rt: HostRuntime) {
    let alloc = rt.alloc();
    let settled = settled(alloc, &[]).expect(&rt, "memory");
    for (condition, names) in CONDITIONS {
        let source = format!(in alloc; "#if {condition}\n").expect(&rt, "memory");
        let expected = format!(in alloc; "[{names}]").expect(&rt, "memory");
        let shown = shown_source(alloc, &settled, source.as_str()).expect(&rt, "memory");
        assert_eq!(rt; shown.as_str(), expected.as_str(), "at {source}");
        let source = format!(in alloc; "#if 0\n#elif {condition}\n").expect(&rt, "memory");
        let expected = format!(in alloc; "[][{names}]").expect(&rt, "memory");
        let shown = shown_source(alloc, &settled, source.as_str()).expect(&rt, "memory");
        assert_eq!(rt; shown.as_str(), expected.as_str(), "at {source}");
    }
}

#[test]
fn groups_ask_with_those_around_them(rt: HostRuntime) {
    let alloc = rt.alloc();
    let settled = settled(alloc, &[]).expect(&rt, "memory");
    for (source, expected) in SECTIONS {
        let shown = shown_source(alloc, &settled, source).expect(&rt, "memory");
        assert_eq!(rt; shown.as_str(), expected, "at {source}");
    }
}

#[test]
fn settled_names_are_left_out(rt: HostRuntime) {
    let alloc = rt.alloc();
    let settled = settled(alloc, &["S", "T"]).expect(&rt, "memory");
    for (source, expected) in SETTLED {
        let shown = shown_source(alloc, &settled, source).expect(&rt, "memory");
        assert_eq!(rt; shown.as_str(), expected, "at {source}");
    }
}
