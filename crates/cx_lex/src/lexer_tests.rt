//! What sources fall into.
use crate::comment::Comment;
use crate::lexer::{LexFault, Lexed, lex, lex_within};
use crate::piece::Piece;
use crate::single::one_piece;
use cx_tokens::Kind;
use std::alloc::{AllocError, Global};
use std::str;

fn shown_piece(alloc: Global, piece: &Piece) -> Result<String, AllocError> {
    let token = &piece.token;
    let text = str::from_utf8(token.text.as_slice()).unwrap_or("?");
    let space = if token.space { " space" } else { "" };
    let first = if piece.first_on_line { " first" } else { "" };
    format!(in alloc;
        "{}@{}:{} {:?}{}{};",
        text, token.place.line, token.place.column, token.kind, space, first
    )
}

fn shown_comment(alloc: Global, comment: &Comment) -> Result<String, AllocError> {
    let text = str::from_utf8(comment.text.as_slice()).unwrap_or("?");
    let alone = if comment.alone { " alone" } else { "" };
    format!(in alloc;
        "/{}@{}:{}{};",
        text, comment.place.line, comment.place.column, alone
    )
}

fn shown_lexed(alloc: Global, lexed: &Lexed) -> Result<String, AllocError> {
    let mut shown = String::new(alloc);
    for piece in lexed.pieces.as_slice() {
        shown.push_str(&shown_piece(alloc, piece)?)?;
    }
    for comment in lexed.comments.as_slice() {
        shown.push_str(&shown_comment(alloc, comment)?)?;
    }
    Ok(shown)
}

fn shown(alloc: Global, answer: &Result<Lexed, LexFault>) -> Result<String, AllocError> {
    match answer {
        Ok(lexed) => shown_lexed(alloc, lexed),
        Err(LexFault::UnclosedComment { at }) => {
            format!(in alloc; "unclosed@{}:{}", at.line, at.column)
        }
        Err(LexFault::TooLong { at }) => format!(in alloc; "long@{}:{}", at.line, at.column),
        Err(LexFault::NoMemory) => format!(in alloc; "memory"),
    }
}

// Each piece as TEXT@LINE:COLUMN KIND, with `space` and `first` where its flags are set; each
// comment after them as /TEXT@LINE:COLUMN, with `alone`.
const PIECES: [(&str, &str); 24] = [
    ("", ""),
    (" \t\n\u{b}\u{c}\r\n", ""),
    (
        "a+++b",
        "a@1:1 Name first;++@1:2 Punct;+@1:4 Punct;b@1:5 Name;",
    ),
    ("'x", "'x@1:1 Unclosed first;"),
    ("'x\ny", "'x@1:1 Unclosed first;y@2:1 Name space first;"),
    ("'\\\\' x", "'\\\\'@1:1 Char first;x@1:6 Name space;"),
    (
        "\"a\\\"'b\" c",
        "\"a\\\"'b\"@1:1 String first;c@1:9 Name space;",
    ),
    ("'\"' '", "'\"'@1:1 Char first;'@1:5 Unclosed space;"),
    (
        "u8\"x\"\\u00e9",
        "u8@1:1 Name first;\"x\"@1:3 String;\\@1:6 Other;u00e9@1:7 Name;",
    ),
    ("\r\\\n\nb", "\r@1:1 Other first;b@3:1 Name space first;"),
    ("L\"x\"", "L@1:1 Name first;\"x\"@1:2 String;"),
    (
        "%:%:<::>%%>",
        "##@1:1 Punct first;[@1:5 Punct;]@1:7 Punct;%@1:9 Punct;}@1:10 Punct;",
    ),
    ("%:%", "#@1:1 Punct first;%@1:3 Punct;"),
    ("1e+5-2", "1e+5@1:1 Number first;-@1:5 Punct;2@1:6 Number;"),
    ("0x1p-3", "0x1p-3@1:1 Number first;"),
    (".5.5", ".5.5@1:1 Number first;"),
    ("1..2", "1..2@1:1 Number first;"),
    (
        "..5 ...",
        ".@1:1 Punct first;.5@1:2 Number;...@1:5 Punct space;",
    ),
    ("a\\\nb c", "ab@1:1 Name first;c@2:3 Name space;"),
    ("a\\\r\nb", "ab@1:1 Name first;"),
    (
        "1\\\n2 \"a\\\n\\\nb\"",
        "12@1:1 Number first;\"ab\"@2:3 String space;",
    ),
    ("\\\n\\\n x", "x@3:2 Name space first;"),
    ("\\\\\nx", "\\@1:1 Other first;x@2:1 Name;"),
    (
        "a\rb\r\nc",
        "a@1:1 Name first;\r@1:2 Other;b@1:3 Name;c@2:1 Name space first;",
    ),
];

const LINES: [(&str, &str); 23] = [
    (
        "#include <a b>c",
        "#@1:1 Punct first;include@1:2 Name;<a b>@1:10 Header space;c@1:15 Name;",
    ),
    (
        "%: include \"a\\\"b\"",
        "#@1:1 Punct first;include@1:4 Name space;\"a\\\"@1:12 Header space;b@1:16 Name;\"@1:17 Unclosed;",
    ),
    (
        "#include\n\"x\"",
        "#@1:1 Punct first;include@1:2 Name;\"x\"@2:1 String space first;",
    ),
    (
        "#/**/include /*\n*/ <x>",
        "#@1:1 Punct first;include@1:6 Name space;<x>@2:4 Header space;/@1:2;/\n@1:14;",
    ),
    (
        "#inc\\\nlude\\\n<\\\nx>",
        "#@1:1 Punct first;include@1:2 Name;<x>@3:1 Header;",
    ),
    (
        "x # include <>",
        "x@1:1 Name first;#@1:3 Punct space;include@1:5 Name space;<>@1:13 Header space;",
    ),
    (
        "#include <a\n>",
        "#@1:1 Punct first;include@1:2 Name;<@1:10 Punct space;a@1:11 Name;>@2:1 Punct space first;",
    ),
    (
        "#include <#include <a",
        "#@1:1 Punct first;include@1:2 Name;<@1:10 Punct space;#@1:11 Punct;include@1:12 Name;<@1:20 Punct space;a@1:21 Name;",
    ),
    (
        "#include <\n#include <a>",
        "#@1:1 Punct first;include@1:2 Name;<@1:10 Punct space;#@2:1 Punct space first;include@2:2 Name;<a>@2:10 Header space;",
    ),
    (
        "#include </*\n*/#include <a>",
        "#@1:1 Punct first;include@1:2 Name;<@1:10 Punct space;#@2:3 Punct space;include@2:4 Name;<a>@2:12 Header space;/\n@1:11;",
    ),
    (
        "##include <a>",
        "##@1:1 Punct first;include@1:3 Name;<@1:11 Punct space;a@1:12 Name;>@1:13 Punct;",
    ),
    ("a/**/b", "a@1:1 Name first;b@1:6 Name space;/@1:2;"),
    ("/***/x", "x@1:6 Name space first;/*@1:1 alone;"),
    ("// a\\\nb\nc", "c@3:1 Name space first;/ ab@1:1 alone;"),
    ("x// a", "x@1:1 Name first;/ a@1:2;"),
    ("//\n//x\r\n", "/@1:1 alone;/x@2:1 alone;"),
    ("/\\\n/ x\ny", "y@3:1 Name space first;/ x@1:1 alone;"),
    ("/\\\r\n* *\\\n/y", "y@3:2 Name space first;/ @1:1 alone;"),
    ("/*", "unclosed@1:1"),
    ("a\\\n/\\\n*", "unclosed@2:1"),
    (" x\n /*/", "unclosed@2:2"),
    ("a /* b", "unclosed@1:3"),
    (
        "'/*' \"//\"",
        "'/*'@1:1 Char first;\"//\"@1:6 String space;",
    ),
];

// Bytes that are one piece, with its kind and its text.
const ONE: [(&[u8], Kind, &[u8]); 4] = [
    (b"+=", Kind::Punct, b"+="),
    (b"%:", Kind::Punct, b"#"),
    (b"1e+", Kind::Number, b"1e+"),
    (b"\"a", Kind::Unclosed, b"\"a"),
];

// Bytes that are none, or more than one.
const NONE: [&[u8]; 4] = [b"", b"//", b"a ", b"<a>"];

// Punctuators, each with its text and its spelling; the digraphs of C11 6.4.6, paragraph 3, among
// them.
const SPELLINGS: [(&[u8], &[u8]); 8] = [
    (b"<:", b"["),
    (b":>", b"]"),
    (b"<%", b"{"),
    (b"%>", b"}"),
    (b"%:", b"#"),
    (b"%:%:", b"##"),
    (b"[", b"["),
    (b"##", b"##"),
];

#[test]
fn pieces_are_found(rt: HostRuntime) {
    for (text, expected) in PIECES {
        assert!(rt; text.len() < 1000);
        let answer = lex(rt.alloc(), text.as_bytes(), 0);
        let shown = shown(rt.alloc(), &answer).expect(&rt, "memory");
        assert_eq!(rt; shown.as_str(), expected, "at {text}");
    }
}

#[test]
fn lines_are_read(rt: HostRuntime) {
    for (text, expected) in LINES {
        assert!(rt; text.len() < 1000);
        let answer = lex(rt.alloc(), text.as_bytes(), 0);
        let shown = shown(rt.alloc(), &answer).expect(&rt, "memory");
        assert_eq!(rt; shown.as_str(), expected, "at {text}");
    }
}

#[test]
fn any_byte_is_a_piece(rt: HostRuntime) {
    let answer = lex(rt.alloc(), &[0, 255, b'x'], 7).expect(&rt, "memory");
    let copy = answer.copy().expect(&rt, "memory");
    for (number, piece) in copy.pieces.as_slice().iter().enumerate() {
        assert_eq!(rt; piece.token.text.len(), 1);
        assert_eq!(rt; piece.token.place.file, 7);
        assert_eq!(rt; piece.token.place.column as usize, number + 1);
    }
    assert_eq!(rt; copy.pieces.len(), 3);
    assert_eq!(rt; copy.comments.len(), 0);
}

#[test]
fn a_piece_past_the_limit_is_a_fault(rt: HostRuntime) {
    for (limit, expected) in [
        (
            3,
            "a@1:1 Name first;b@1:3 Name space;c@2:1 Name space first;/*@2:2;",
        ),
        (2, "long@2:1"),
        (0, "long@1:1"),
    ] {
        let answer = lex_within(rt.alloc(), b"a b\nc/***/", 0, limit);
        let shown = shown(rt.alloc(), &answer).expect(&rt, "memory");
        assert_eq!(rt; shown.as_str(), expected);
    }
}

#[test]
fn a_digraph_keeps_its_spelling(rt: HostRuntime) {
    for (spelled, text) in SPELLINGS {
        let answer = lex(rt.alloc(), spelled, 0).expect(&rt, "memory");
        assert_eq!(rt; answer.pieces.len(), 1);
        let piece = answer.pieces.as_slice().first().expect(&rt, "a piece");
        let token = &piece.token;
        assert_eq!(rt; token.text.as_slice(), text);
        assert_eq!(rt; token.digraph, spelled != text);
        assert_eq!(rt; token.spelling(), spelled);
    }
}

#[test]
fn bytes_are_one_piece_or_none(rt: HostRuntime) {
    for (bytes, kind, text) in ONE {
        let found = one_piece(rt.alloc(), bytes).expect(&rt, "memory");
        let (found, spelling) = found.expect(&rt, "a piece");
        assert_eq!(rt; found, kind);
        assert_eq!(rt; spelling.as_slice(), text);
    }
    for bytes in NONE {
        let found = one_piece(rt.alloc(), bytes).expect(&rt, "memory");
        assert!(rt; found.is_none());
    }
}
