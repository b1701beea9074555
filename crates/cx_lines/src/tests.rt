//! Lines and how they nest.
use crate::kind::{LineKind, kind_of};
use crate::lines::{first_line, front_text};
use crate::nesting::{NestingFault, after_section, extent_of, from_part, place_of};
use cx_base::{List, NoMemory};
use cx_lex::{Piece, lex};
use std::alloc::{AllocError, Global};
use std::str;

/// Sources, and what their lines are, each with the place where it stands.
const KINDS: [(&str, &str); 25] = [
    ("", ""),
    ("int x;\n\n  int y;", "Text@1:1 Text@3:3"),
    ("#", "Passed@1:1"),
    (" # /* c */\n#", "Passed@1:2 Passed@2:1"),
    ("#if 1\n#endif", "If@1:1 Endif@2:1"),
    ("#ifdef A\n#elif B\n#else\n", "Ifdef@1:1 Elif@2:1 Else@3:1"),
    ("# ifndef A\n%: endif\n", "Ifndef@1:1 Endif@2:1"),
    ("#include <a>\n#include\"a\"", "Include@1:1 Include@2:1"),
    ("#define f(x) x \\\n # x\n#undef f", "Define@1:1 Undef@3:1"),
    ("#error no\n#warning yes", "Error@1:1 Passed@2:1"),
    ("#pragma once\n#pragma Once", "Once@1:1 Passed@2:1"),
    ("#pragma\n#pragma pack(1) once", "Passed@1:1 Passed@2:1"),
    ("#pragma \"once\"\n#pragma once more", "Passed@1:1 Once@2:1"),
    (
        "#line 3\n#ident \"x\"\n#sccs \"x\"",
        "Passed@1:1 Passed@2:1 Passed@3:1",
    ),
    (
        "#include_next <a>\n#assert a(b)\n#unassert a",
        "Passed@1:1 Passed@2:1 Passed@3:1",
    ),
    ("# 1 \"a.c\" 2\n#1", "Passed@1:1 Passed@2:1"),
    ("#If\n#endi\n#els e\n", "Bad@1:1 Bad@2:1 Bad@3:1"),
    ("#include_\n#lines\n#+", "Bad@1:1 Bad@2:1 Bad@3:1"),
    ("#\"if\"\n#'i'\n##if", "Bad@1:1 Bad@2:1 Text@3:1"),
    ("x #if\n#else", "Text@1:1 Else@2:1"),
    ("#i\\\nf 0\n", "If@1:1"),
    ("\"#if\"\n'#'\n", "Text@1:1 Text@2:1"),
    ("/* a\n b */ #if 1", "If@2:7"),
    ("// #if\n#if", "If@2:1"),
    ("#if\nif\n#\nif", "If@1:1 Text@2:1 Passed@3:1 Text@4:1"),
];

/// Sources, the text in front of their first directive, and what is behind that text.
const FRONTS: [(&str, &str, &str); 6] = [
    ("", "", ""),
    ("a b\nc", "|a b|c", ""),
    ("#if\na", "", "|# if|a"),
    ("a\n\nb c\n#if\nd", "|a|b c", "|# if|d"),
    ("a\n#\n", "|a", "|#"),
    ("a #\nb\n%:x", "|a #|b", "|# x"),
];

/// Lines, those from the part on that ends their group, and those after their section.
const PASSED_OVER: [(&str, &str, &str); 12] = [
    ("", "", ""),
    ("a\nb", "", ""),
    ("#else\na\n#endif\nb", "|# else|a|# endif|b", "|b"),
    ("a\n#endif\nb", "|# endif|b", "|b"),
    ("a\n#elif 1\nb\n#endif\nc", "|# elif 1|b|# endif|c", "|c"),
    ("#if 1\na\n#endif\n#endif\nb", "|# endif|b", "|b"),
    (
        "#if 1\n#else\n#endif\n#else\n#endif\nb",
        "|# else|# endif|b",
        "|b",
    ),
    (
        "#ifdef A\n#ifndef B\n#endif\n#elif 2\n#endif\n#elif 3\n",
        "|# elif 3",
        "",
    ),
    (
        "#if 1\n#if 2\n#endif\n#endif\n#endif\n#endif",
        "|# endif|# endif",
        "|# endif",
    ),
    ("#if 1\n#if 2\n#endif\n#endif", "", ""),
    ("#if 1\n#else\n#else", "", ""),
    ("x\n#endif", "|# endif", ""),
];

/// Sources, the lines of them that nest, and the fault.
const EXTENTS: [(&str, &str, &str); 22] = [
    ("", "", ""),
    ("a\nb c", "|a|b c", ""),
    (
        "#if 1\na\n#elif 2\nb\n#elif 3\n#else\nc\n#endif",
        "|# if 1|a|# elif 2|b|# elif 3|# else|c|# endif",
        "",
    ),
    (
        "#if 1\n#if 2\n#else\n#endif\n#else\n#endif\nx",
        "|# if 1|# if 2|# else|# endif|# else|# endif|x",
        "",
    ),
    (
        "#if 1\n#endif\n#ifdef A\n#endif",
        "|# if 1|# endif|# ifdef A|# endif",
        "",
    ),
    ("#endif", "", "stray@1:1"),
    ("a\n #else\nb", "|a", "stray@2:2"),
    ("#elif 1", "", "stray@1:1"),
    ("#if 1\n#endif\n#endif", "|# if 1|# endif", "stray@3:1"),
    ("#if 1\n#else\n#else\n#endif", "|# if 1|# else", "stray@3:1"),
    (
        "#if 1\n#else\n  #elif 1\n#endif",
        "|# if 1|# else",
        "stray@3:3",
    ),
    (
        "#if 1\n#else\n#if 2\n#elif 3\n#else\n#endif\n#endif",
        "|# if 1|# else|# if 2|# elif 3|# else|# endif|# endif",
        "",
    ),
    (
        "#if 1\n#if 2\n#else\n#endif\n#else\n#else",
        "|# if 1|# if 2|# else|# endif|# else",
        "stray@6:1",
    ),
    (
        "#if 1\n#if 2\n#else\n#elif 3\n#endif\n#endif",
        "|# if 1|# if 2|# else",
        "stray@4:1",
    ),
    ("#if 1\na", "|# if 1|a", "unclosed@1:1"),
    (
        "#if 1\n  #ifdef A\nb",
        "|# if 1|# ifdef A|b",
        "unclosed@2:3",
    ),
    (
        "#if 1\n#if 2\n#endif\nb",
        "|# if 1|# if 2|# endif|b",
        "unclosed@1:1",
    ),
    (
        "#if 1\n#elif 2\n#else\n",
        "|# if 1|# elif 2|# else",
        "unclosed@1:1",
    ),
    (
        "#if 1\n#ifndef A\n#else\n#if 3\n#endif\n",
        "|# if 1|# ifndef A|# else|# if 3|# endif",
        "unclosed@2:1",
    ),
    (
        "#if 1\n#endif\n#if 2\n",
        "|# if 1|# endif|# if 2",
        "unclosed@3:1",
    ),
    ("#if 1\n#bad\n#\n#endif", "|# if 1|# bad|#|# endif", ""),
    ("#if 1\n#endif x", "|# if 1|# endif x", ""),
];

fn pieces(alloc: Global, source: &str) -> Result<List<Piece>, NoMemory> {
    if source.len() >= 4_294_967_295 {
        return Err(NoMemory);
    }
    match lex(alloc, source.as_bytes(), 0) {
        Ok(lexed) => Ok(lexed.pieces),
        Err(_) => Err(NoMemory),
    }
}

fn kind_name(kind: LineKind) -> &'static str {
    match kind {
        LineKind::Text => "Text",
        LineKind::If => "If",
        LineKind::Ifdef => "Ifdef",
        LineKind::Ifndef => "Ifndef",
        LineKind::Elif => "Elif",
        LineKind::Else => "Else",
        LineKind::Endif => "Endif",
        LineKind::Include => "Include",
        LineKind::Define => "Define",
        LineKind::Undef => "Undef",
        LineKind::Error => "Error",
        LineKind::Once => "Once",
        LineKind::Passed => "Passed",
        LineKind::Bad => "Bad",
    }
}

/// What the lines of pieces are, and where they stand.
fn shown_kinds(alloc: Global, pieces: &[Piece]) -> Result<String, AllocError> {
    let mut shown = String::new(alloc);
    let mut rest = pieces;
    for _ in 0..pieces.len() {
        let Some((line, more)) = first_line(rest) else {
            break;
        };
        if !shown.is_empty() {
            shown.push_str(" ")?;
        }
        let name = kind_name(kind_of(line));
        let at = place_of(line);
        shown.push_str(format!(in alloc; "{}@{}:{}", name, at.line, at.column)?.as_str())?;
        rest = more;
    }
    Ok(shown)
}

/// Pieces, with a bar before each that is the first on its line.
fn shown_pieces(alloc: Global, pieces: &[Piece]) -> Result<String, AllocError> {
    let mut shown = String::new(alloc);
    for piece in pieces {
        shown.push_str(if piece.first_on_line { "|" } else { " " })?;
        shown.push_str(str::from_utf8(piece.token.text.as_slice()).unwrap_or("?"))?;
    }
    Ok(shown)
}

fn shown_fault(alloc: Global, fault: Option<NestingFault>) -> Result<String, AllocError> {
    match fault {
        None => Ok(String::new(alloc)),
        Some(NestingFault::Stray { at }) => format!(in alloc; "stray@{}:{}", at.line, at.column),
        Some(NestingFault::Unclosed { at }) => {
            format!(in alloc; "unclosed@{}:{}", at.line, at.column)
        }
    }
}

#[test]
fn lines_are_of_their_kind(rt: HostRuntime) {
    for (source, expected) in KINDS {
        let pieces = pieces(rt.alloc(), source).expect(&rt, "memory");
        let shown = shown_kinds(rt.alloc(), pieces.as_slice()).expect(&rt, "memory");
        assert_eq!(rt; shown.as_str(), expected, "at {source}");
    }
}

#[test]
fn text_goes_to_the_first_directive(rt: HostRuntime) {
    let alloc = rt.alloc();
    for (source, front, behind) in FRONTS {
        let pieces = pieces(alloc, source).expect(&rt, "memory");
        let (text, rest) = front_text(pieces.as_slice());
        let shown = shown_pieces(alloc, text).expect(&rt, "memory");
        assert_eq!(rt; shown.as_str(), front, "at {source}");
        let shown = shown_pieces(alloc, rest).expect(&rt, "memory");
        assert_eq!(rt; shown.as_str(), behind, "behind {source}");
    }
}

#[test]
fn groups_are_passed_over(rt: HostRuntime) {
    let alloc = rt.alloc();
    for (source, part, after) in PASSED_OVER {
        let pieces = pieces(alloc, source).expect(&rt, "memory");
        let shown = shown_pieces(alloc, from_part(pieces.as_slice())).expect(&rt, "memory");
        assert_eq!(rt; shown.as_str(), part, "part of {source}");
        let shown = shown_pieces(alloc, after_section(pieces.as_slice())).expect(&rt, "memory");
        assert_eq!(rt; shown.as_str(), after, "after {source}");
    }
}

#[test]
fn lines_nest_up_to_a_fault(rt: HostRuntime) {
    let alloc = rt.alloc();
    for (source, front, fault) in EXTENTS {
        let pieces = pieces(alloc, source).expect(&rt, "memory");
        let extent = extent_of(alloc, pieces.as_slice()).expect(&rt, "memory");
        let shown = shown_pieces(alloc, extent.front).expect(&rt, "memory");
        assert_eq!(rt; shown.as_str(), front, "front of {source}");
        let shown = shown_fault(alloc, extent.fault).expect(&rt, "memory");
        assert_eq!(rt; shown.as_str(), fault, "fault of {source}");
    }
}
