//! What is chosen of units.
use crate::chosen::Chosen;
use crate::config::Config;
use crate::fault::PreFault;
use crate::unit::preprocess;
use cx_base::{Define, List, NoMemory, Path, Place, Text};
use cx_directive::IncludeName;
use cx_lex::lex;
use cx_macro::MacroFault;
use cx_shelf::{IndexedShelf, Shelved};
use cx_table::NameKey;
use cx_tokens::TokenList;
use std::alloc::{AllocError, Global};
use std::process::Abort;
use std::str;

/// Units of one file, and what is chosen of each: the tokens with a space between each two, or the
/// fault with its file, line and column.
const DIRECTIVES: [(&str, &str); 36] = [
    ("", ""),
    ("int x;\n", "int x ;"),
    ("int x;", "int x ;"),
    ("#\n#define A 1\n#undef A", ""),
    ("# 1 \"a.c\"\nx\n", "x"),
    ("#pragma x\n#warning y\n#line 3\n#pragma\nx\n", "x"),
    (
        "#ident \"v\"\n#sccs \"v\"\n#assert m(x)\n#unassert m\n#include_next <a>\nx\n",
        "x",
    ),
    ("#if 1\na\n#else\nb\n#endif\nc\n", "a c"),
    ("#if 0\na\n#else\nb\n#endif\nc\n", "b c"),
    ("#if 0\na\n#elif 1\nb\n#elif 1\nc\n#else\nd\n#endif\n", "b"),
    ("#if 0\na\n#elif 0\nb\n#endif\nc\n", "c"),
    ("#if 1\na\n#elif x y z\nb\n#endif\n", "a"),
    ("#if 0\n#define A 1\n#endif\nA\n", "A"),
    (
        "#if 0\n#if x y\n#else\n#endif\n#bad\n#ifdef\n#endif\n#elif 1\nb\n#endif\n",
        "b",
    ),
    ("#if 1\n#if 0\na\n#endif\nb\n#else\nc\n#endif\n", "b"),
    ("#ifdef A\na\n#else\nb\n#endif\n", "b"),
    (
        "#define A\n#ifdef A x\na\n#endif\n#ifndef A\nb\n#endif y\n",
        "a",
    ),
    ("#define A 1\n#undef A x\nA\n", "A"),
    ("#undef A\nx\n", "x"),
    ("#define A 1\nA\n#define A 2\nA\n", "1 2"),
    ("#define f(x) x\nf(1)\n#undef f\nf(1)\n", "1 f ( 1 )"),
    ("#define f(x) [x]\nf\n#define g\n(1)\n", "f ( 1 )"),
    ("#define f(x) [x]\nf\n(\n1)\n", "[ 1 ]"),
    ("#define A # b\nA\n", "# b"),
    ("#define f(a, r...) [r]\nf(1, 2, 3)\n", "[ 2 , 3 ]"),
    (
        "#define __LINE__ 7\n#define __FILE__ 8\n#undef __LINE__\n__LINE__ __FILE__\n",
        "4 \"a.c\"",
    ),
    ("__STDC__ __STDC_VERSION__\n", "1 201112L"),
    ("a\n#error no  \"b\" c\n", "error@0:2:1 no \"b\" c"),
    ("#define f(x) x\nf(1,2)\n", "count@0:2:1"),
    ("#define f(x) x\nf(1\n#undef f\n", "call@0:2:1"),
    ("#define c(x,y) x ## y\nc(+,/)\n", "paste@0:2:1"),
    ("\"a\nb\n", "literal@0:1:1"),
    ("#if 0\n\"a\n#endif\nb\n", "b"),
    ("#if 1\n\"a\n", "unclosed@0:1:1"),
    ("'a\n#bad\n", "bad@0:2:1"),
    ("%:define A %:%: 1\n%:ifdef A\n", "bad@0:1:1"),
];

/// Units whose nesting or forms are wrong, and the fault of each.
const WRONG: [(&str, &str); 31] = [
    ("#foo\n", "bad@0:1:1"),
    (" # !\n", "bad@0:1:2"),
    ("#ifdef\n#endif\n", "bad@0:1:1"),
    ("#ifndef 3\n#endif\n", "bad@0:1:1"),
    ("#undef\n", "bad@0:1:1"),
    ("#undef \"a\"\n", "bad@0:1:1"),
    ("#define\n", "bad@0:1:1"),
    ("#define 3\n", "bad@0:1:1"),
    ("#define f(a,\nx\n", "bad@0:1:1"),
    ("#define f(a,a) a\n", "bad@0:1:1"),
    ("#define f(1) 1\n", "bad@0:1:1"),
    ("#define f(..., a) a\n", "bad@0:1:1"),
    ("#define f(r, r...) a\n", "bad@0:1:1"),
    ("#define A ## b\n", "bad@0:1:1"),
    ("#define A a ##\n", "bad@0:1:1"),
    ("#define f(a) #b\n", "bad@0:1:1"),
    ("#define f(a) #\n", "bad@0:1:1"),
    ("#define __LINE__(x,x) x\n", "bad@0:1:1"),
    ("#include\n", "bad@0:1:1"),
    ("#if 1\n#include // x\n#endif\n", "bad@0:2:1"),
    ("#else\n", "stray@0:1:1"),
    ("#endif\n", "stray@0:1:1"),
    ("x\n#elif 1\n", "stray@0:2:1"),
    ("#if 1\n#else\n#else\n#endif\n", "stray@0:3:1"),
    ("#if 0\n#else\n#elif 1\n#endif\n", "stray@0:3:1"),
    (
        "#if 0\n#if 0\n#else\n#else\n#endif\n#endif\n",
        "stray@0:4:1",
    ),
    ("#if 1\n#endif\n#endif\n", "stray@0:3:1"),
    ("#if 1\n#if 0\n", "unclosed@0:2:1"),
    ("#ifdef A\n#if 1\n#endif\nx\n", "unclosed@0:1:1"),
    ("#if 1\n#bad\n", "bad@0:2:1"),
    ("#if 0\n#bad\n", "unclosed@0:1:1"),
];

/// Conditions, and whether each holds: 1 or 0, or the fault.
const CONDITIONS: [(&str, &str); 44] = [
    ("1", "1"),
    ("0", "0"),
    ("", "condition@0:1:1"),
    ("x", "0"),
    ("defined", "0"),
    ("defined 3", "condition@0:1:1"),
    ("defined(X", "condition@0:1:1"),
    ("defined X", "0"),
    (
        "defined(__FILE__) && defined __LINE__ && defined __STDC__",
        "1",
    ),
    ("!defined(__STDC_VERSION__)", "0"),
    ("__STDC_VERSION__ >= 201112L", "1"),
    ("__LINE__ == 1", "1"),
    ("-1 > 0u", "1"),
    ("-1 > 0", "0"),
    ("(1 ? -1 : 0u) > 0", "1"),
    ("(0 ? 0u : -1) > 0", "1"),
    ("1 << 64", "0"),
    ("-1 >> 64 == -1", "1"),
    ("1 >> -1 == 2", "1"),
    ("0 && 1/0", "0"),
    ("1 || 1/0", "1"),
    ("0 ? 1/0 : 2", "1"),
    ("1/0", "condition@0:1:1"),
    ("1%0", "condition@0:1:1"),
    ("L'\\0' - 1 > 0", "0"),
    ("L 'a'", "condition@0:1:1"),
    ("'\\377' < 0", "1"),
    ("'ab'", "condition@0:1:1"),
    ("sizeof", "0"),
    ("sizeof(int)", "condition@0:1:1"),
    ("1 = 1", "condition@0:1:1"),
    ("1, 2", "condition@0:1:1"),
    ("18446744073709551615 == -1", "1"),
    ("18446744073709551616", "condition@0:1:1"),
    ("0x8000000000000000 > 0", "1"),
    ("9223372036854775807 + 1 < 0", "1"),
    ("1.0", "condition@0:1:1"),
    ("\"a\"", "condition@0:1:1"),
    ("(1", "condition@0:1:1"),
    ("1)", "condition@0:1:1"),
    ("f(1)", "condition@0:1:1"),
    ("~0 == -1 && !0 && -(-2) == +2", "1"),
    (
        "2 * 3 + 4 == 10 && 7 % 4 == 3 && (6 & 3 | 8 ^ 1) == 11",
        "1",
    ),
    ("1 < 2 && 2 <= 2 && 3 > 2 && 3 >= 3 && 1 != 2", "1"),
];

/// Units with macros in conditions, and what is chosen of each.
const REPLACED: [(&str, &str); 10] = [
    ("#define H defined(X)\n#if H\n#endif\n", "condition@0:2:1"),
    ("#define A 1\n#if defined A && A\na\n#endif\n", "a"),
    ("#define defined 1\n#if defined X\na\n#endif\n", ""),
    ("#define X Y\n#define Y 1\n#if X\na\n#endif\n", "a"),
    ("#define f(x) x\n#if f(1)\na\n#endif\n", "a"),
    ("#define f(x) x\n#if f(1,2)\n#endif\n", "count@0:2:5"),
    ("#define f(x) x\n#if f(1\n#endif\n", "call@0:2:5"),
    ("#define X\n#if X\n#endif\n", "condition@0:2:1"),
    ("#define X X\n#if X == 0\na\n#endif\n", "a"),
    ("#define defined\n#ifdef defined\na\n#endif\n", "a"),
];

/// Files, of which the first is the unit, and what is chosen: after a bar the includes that lead to
/// no file. The folders of `-I` are `i` and `j`.
const FILES: [(&[(&str, &str)], &str); 27] = [
    (&[("a.c", "#include \"x.h\"\nb\n"), ("x.h", "x\n")], "x b"),
    (
        &[
            ("s/a.c", "#include \"../x.h\"\n"),
            ("x.h", "#include \"s/y.h\"\nx\n"),
            ("s/y.h", "y"),
        ],
        "y x",
    ),
    (
        &[
            ("s/a.c", "#include \"x.h\"\n"),
            ("i/x.h", "i"),
            ("s/x.h", "s"),
        ],
        "s",
    ),
    (
        &[
            ("s/a.c", "#include <x.h>\n"),
            ("i/x.h", "i"),
            ("s/x.h", "s"),
        ],
        "i",
    ),
    (
        &[("a.c", "#include <x.h>\n"), ("j/x.h", "j"), ("i/x.h", "i")],
        "i",
    ),
    (
        &[("a.c", "#include \"/x.h\"\n"), ("/x.h", "r"), ("x.h", "x")],
        "r",
    ),
    (
        &[("a.c", "#include \"n.h\"\n#include <m.h>\nx\n")],
        "x | \"n.h\"@0:1:10 <m.h>@0:2:10",
    ),
    (
        &[
            ("a.c", "#define M <x.h>\n#include M  (y)\nx\n"),
            ("i/x.h", "i"),
        ],
        "x | \"M (y)\"@0:2:10",
    ),
    (
        &[
            ("a.c", "#include \"x.h\"\n#include \"x.h\"\n"),
            ("x.h", "#pragma once x\nx\n"),
        ],
        "x",
    ),
    (
        &[
            ("a.c", "#include \"x.h\"\n#include \"x.h\"\n"),
            ("x.h", "#ifndef X\n#define X\nx\n#endif\n"),
        ],
        "x",
    ),
    (
        &[
            ("a.c", "#include \"x.h\"\n#include \"x.h\"\n"),
            ("x.h", "x\n"),
        ],
        "x x",
    ),
    (
        &[
            ("a.c", "#include \"x.h\"\ny\n"),
            ("x.h", "#ifndef X\n#define X\n#include \"x.h\"\nx\n#endif\n"),
        ],
        "x y",
    ),
    (&[("a.c", "#include \"a.c\"\n")], "deep@0:1:10"),
    (&[("a.c", "#pragma once\n#include \"a.c\"\nx\n")], "x"),
    (
        &[
            ("a.c", "__FILE__\n#include \"x.h\"\n__FILE__\n"),
            ("x.h", "__FILE__ __LINE__\n"),
        ],
        "\"a.c\" \"x.h\" 1 \"a.c\"",
    ),
    (
        &[("a.c", "#include \"x.h\"\nA\n"), ("x.h", "#define A 1\n")],
        "1",
    ),
    (
        &[
            ("a.c", "#include \"x.h\"\n(1)\n"),
            ("x.h", "#define f(x) [x]\nf\n"),
        ],
        "f ( 1 )",
    ),
    (
        &[("a.c", "#include \"x.h\"\n"), ("x.h", "#error e\n")],
        "error@1:1:1 e",
    ),
    (
        &[("a.c", "#include \"n.h\"\n#error e\n#include \"m.h\"\n")],
        "error@0:2:1 e | \"n.h\"@0:1:10",
    ),
    (
        &[("a.c", "#include \"x.h\"\n#endif\n"), ("x.h", "#if 1\n")],
        "unclosed@1:1:1",
    ),
    (
        &[
            ("a.c", "#if 1\n#include \"x.h\"\n#endif\n"),
            ("x.h", "#endif\n"),
        ],
        "stray@1:1:1",
    ),
    (&[("a.c", "#if 0\n#include \"n.h\"\n#endif\nx\n")], "x"),
    (
        &[("a.c", "#include \"x.h\"\n"), ("x.h", "'x\n")],
        "literal@1:1:1",
    ),
    (
        &[("a.c", "#include <x.h\n#include \"x.h\" y\n"), ("x.h", "x")],
        "x | \"<x.h\"@0:1:10",
    ),
    (
        &[("a.c", "#include \"\"\n#include <>\n")],
        " | \"\"@0:1:10 <>@0:2:10",
    ),
    (
        &[
            ("a.c", "#include \"x.h\"\nA\n"),
            ("x.h", "#if 0\n#define A 1\n#endif\n"),
        ],
        "A",
    ),
    (
        &[
            ("a.c", "#include \"x.h\"\nb\n"),
            ("x.h", "#if 1\nx\n#else\ny\n#endif"),
        ],
        "x b",
    ),
];

/// The examples of C11 6.10.3.5 as whole texts.
const STANDARD: [(&str, &str); 5] = [
    (
        "#define x 3\n#define f(a) f(x * (a))\n#undef x\n#define x 2\n#define g f\n#define z z[0]\n\
         #define h g(~\n#define m(a) a(w)\n#define w 0,1\n#define t(a) a\n#define p() int\n\
         #define q(x) x\n#define r(x,y) x ## y\n#define str(x) # x\n\
         f(y+1) + f(f(z)) % t(t(g)(0) + t)(1);\n",
        "f ( 2 * ( y + 1 ) ) + f ( 2 * ( f ( 2 * ( z [ 0 ] ) ) ) ) % f ( 2 * ( 0 ) ) + t ( 1 ) ;",
    ),
    (
        "#define str(s) # s\n#define xstr(s) str(s)\n#define INCFILE(n) vers ## n\n\
         xstr(INCFILE(2).h)\n",
        "\"vers2.h\"",
    ),
    (
        "#define glue(a, b) a ## b\n#define xglue(a, b) glue(a, b)\n#define HIGHLOW \"hello\"\n\
         #define LOW LOW \", world\"\nglue(HIGH, LOW);\nxglue(HIGH, LOW)\n",
        "\"hello\" ; \"hello\" \", world\"",
    ),
    (
        "#define t(x,y,z) x ## y ## z\nint j[] = { t(1,2,3), t(,4,5), t(6,,7), t(8,9,),\n\
         t(10,,), t(,11,), t(,,12), t(,,) };\n",
        "int j [ ] = { 123 , 45 , 67 , 89 , 10 , 11 , 12 , } ;",
    ),
    (
        "#define debug(...) fprintf(stderr, __VA_ARGS__)\n#define showlist(...) puts(#__VA_ARGS__)\n\
         #define report(test, ...) ((test)?puts(#test):\\\nprintf(__VA_ARGS__))\n\
         debug(\"Flag\");\nshowlist(The first, second, and third items.);\nreport(x>y, \"x\", x);\n",
        "fprintf ( stderr , \"Flag\" ) ; puts ( \"The first, second, and third items.\" ) ; \
         ( ( x > y ) ? puts ( \"x>y\" ) : printf ( \"x\" , x ) ) ;",
    ),
];

/// The pieces of a file.
fn shelved(alloc: Global, path: &str, text: &str, number: u32) -> Result<Shelved, NoMemory> {
    if text.len() >= 4_294_967_295 {
        return Err(NoMemory);
    }
    let Ok(lexed) = lex(alloc, text.as_bytes(), number) else {
        return Err(NoMemory);
    };
    let path = Path::from_str(alloc, path)?;
    Ok(Shelved { path, lexed })
}

/// A shelf of no files, with the folders `i` and `j`.
fn no_files(alloc: Global) -> Result<IndexedShelf, NoMemory> {
    let mut folders = List::new(alloc);
    for folder in ["i", "j"] {
        folders.push(Path::from_str(alloc, folder)?)?;
    }
    Ok(IndexedShelf::new(alloc, NameKey::of(b"shelf")).with_folders(folders))
}

/// Files as a shelf with the folders `i` and `j`.
fn shelf_of(alloc: Global, files: &[(&str, &str)]) -> Result<IndexedShelf, NoMemory> {
    let mut shelf = no_files(alloc)?;
    let mut number: u32 = 0;
    for (path, text) in files {
        shelf = shelf.with(shelved(alloc, path, text, number)?)?;
        number = number.saturating_add(1);
    }
    Ok(shelf)
}

/// No definitions.
fn no_config(alloc: Global) -> Config {
    Config {
        defines: List::new(alloc),
        names: List::new(alloc),
    }
}

fn push_tokens(shown: &mut String, list: TokenList) -> Result<(), NoMemory> {
    let tokens = list.into_vec()?;
    for (index, token) in tokens.as_slice().iter().enumerate() {
        if index > 0 {
            shown.push_str(" ")?;
        }
        shown.push_str(str::from_utf8(token.text.as_slice()).unwrap_or("?"))?;
    }
    Ok(())
}

fn push_place(alloc: Global, shown: &mut String, word: &str, at: Place) -> Result<(), AllocError> {
    let (file, line, column) = (at.file, at.line, at.column);
    shown.push_str(format!(in alloc; "{word}@{file}:{line}:{column}")?.as_str())
}

fn push_macro_fault(
    alloc: Global,
    shown: &mut String,
    fault: MacroFault,
) -> Result<(), AllocError> {
    match fault {
        MacroFault::ArgumentCount { at } => push_place(alloc, shown, "count", at),
        MacroFault::UnclosedCall { at } => push_place(alloc, shown, "call", at),
        MacroFault::BadPaste { at } => push_place(alloc, shown, "paste", at),
        MacroFault::TooManyTokens { at, .. } => push_place(alloc, shown, "many", at),
        MacroFault::NoMemory => shown.push_str("no memory"),
    }
}

fn push_fault(alloc: Global, shown: &mut String, fault: &PreFault) -> Result<(), AllocError> {
    match fault {
        PreFault::ErrorDirective { at, text } => {
            push_place(alloc, shown, "error", *at)?;
            shown.push_str(" ")?;
            shown.push_str(str::from_utf8(text.as_slice()).unwrap_or("?"))
        }
        PreFault::BadDirective { at } => push_place(alloc, shown, "bad", *at),
        PreFault::UnclosedGroup { at } => push_place(alloc, shown, "unclosed", *at),
        PreFault::StrayElse { at } => push_place(alloc, shown, "stray", *at),
        PreFault::BadCondition { at } => push_place(alloc, shown, "condition", *at),
        PreFault::Deep { at } => push_place(alloc, shown, "deep", *at),
        PreFault::UnclosedLiteral { at } => push_place(alloc, shown, "literal", *at),
        PreFault::Macro(fault) => push_macro_fault(alloc, shown, *fault),
    }
}

fn push_name(alloc: Global, shown: &mut String, name: &IncludeName) -> Result<(), AllocError> {
    let text = str::from_utf8(name.name.as_slice()).unwrap_or("?");
    let (begin, end) = if name.quoted {
        ("\"", "\"")
    } else {
        ("<", ">")
    };
    push_place(
        alloc,
        shown,
        format!(in alloc; "{begin}{text}{end}")?.as_str(),
        name.at,
    )
}

/// What is chosen of the first file.
fn chosen(alloc: Global, shelf: &IndexedShelf, config: &Config) -> Result<String, NoMemory> {
    let Chosen { tokens, missing } = preprocess(alloc, NameKey::of(b"unit"), shelf, 0, config)?;
    let mut shown = String::new(alloc);
    match tokens {
        Ok(list) => push_tokens(&mut shown, list)?,
        Err(fault) => push_fault(alloc, &mut shown, &fault)?,
    }
    for (index, name) in missing.as_slice().iter().enumerate() {
        shown.push_str(if index == 0 { " | " } else { " " })?;
        push_name(alloc, &mut shown, name)?;
    }
    Ok(shown)
}

/// What is chosen of a unit of one file.
fn chosen_alone(alloc: Global, text: &str) -> Result<String, NoMemory> {
    let shelf = shelf_of(alloc, &[("a.c", text)])?;
    chosen(alloc, &shelf, &no_config(alloc))
}

#[test]
fn directives_choose_what_they_say(rt: HostRuntime) {
    for (text, expected) in DIRECTIVES {
        let found = chosen_alone(rt.alloc(), text).expect(&rt, "memory");
        assert_eq!(rt; found.as_str(), expected, "at {text}");
    }
}

#[test]
fn wrong_forms_are_told(rt: HostRuntime) {
    for (text, expected) in WRONG {
        let found = chosen_alone(rt.alloc(), text).expect(&rt, "memory");
        assert_eq!(rt; found.as_str(), expected, "at {text}");
    }
}

#[test]
fn conditions_hold_or_not(rt: HostRuntime) {
    let alloc = rt.alloc();
    for (condition, expected) in CONDITIONS {
        let text = format!(in alloc; "#if {condition}\n1\n#else\n0\n#endif\n").expect(
            &rt, "memory",
        );
        let found = chosen_alone(alloc, text.as_str()).expect(&rt, "memory");
        assert_eq!(rt; found.as_str(), expected, "at {condition}");
    }
}

#[test]
fn conditions_are_replaced_after_their_answers(rt: HostRuntime) {
    for (text, expected) in REPLACED {
        let found = chosen_alone(rt.alloc(), text).expect(&rt, "memory");
        assert_eq!(rt; found.as_str(), expected, "at {text}");
    }
}

#[test]
fn the_examples_of_the_standard_are_met(rt: HostRuntime) {
    for (text, expected) in STANDARD {
        let found = chosen_alone(rt.alloc(), text).expect(&rt, "memory");
        assert_eq!(rt; found.as_str(), expected, "at {text}");
    }
}

#[test]
fn includes_are_joined(rt: HostRuntime) {
    let alloc = rt.alloc();
    for (files, expected) in FILES {
        let shelf = shelf_of(alloc, files).expect(&rt, "memory");
        let found = chosen(alloc, &shelf, &no_config(alloc)).expect(&rt, "memory");
        assert_eq!(rt; found.as_str(), expected);
    }
}

/// A unit, and so many headers of which each includes the next, but for the last.
fn chain_of(alloc: Global, count: u32) -> Result<IndexedShelf, NoMemory> {
    let mut shelf = shelf_of(alloc, &[("a.c", "#include \"1.h\"\n")])?;
    for number in 1..count {
        let next = number.saturating_add(1);
        let path = format!(in alloc; "{number}.h")?;
        let text = format!(in alloc; "#include \"{next}.h\"\n")?;
        shelf = shelf.with(shelved(alloc, path.as_str(), text.as_str(), number)?)?;
    }
    let path = format!(in alloc; "{count}.h")?;
    shelf.with(shelved(alloc, path.as_str(), "last\n", count)?)
}

#[test]
fn sixty_four_includes_may_be_open(rt: HostRuntime) {
    let alloc = rt.alloc();
    for (count, expected) in [
        (1, "last"),
        (64, "last"),
        (65, "deep@64:1:10"),
        (66, "deep@64:1:10"),
    ] {
        let shelf = chain_of(alloc, count).expect(&rt, "memory");
        let found = chosen(alloc, &shelf, &no_config(alloc)).expect(&rt, "memory");
        assert_eq!(rt; found.as_str(), expected);
    }
}

/// A configuration that defines `A` as these bytes, and `N` as 1.
fn config_of(alloc: Global, value: &[u8]) -> Result<Config, NoMemory> {
    let mut config = no_config(alloc);
    config.defines.push(Define {
        name: Text::from_slice(alloc, b"A")?,
        value: Text::from_slice(alloc, value)?,
    })?;
    config.names.push(Text::from_slice(alloc, b"N")?)?;
    Ok(config)
}

#[test]
fn configurations_define(rt: HostRuntime) {
    let alloc = rt.alloc();
    let text = "#if N && defined A\nA\n#undef A\n#endif\nA N\n";
    let shelf = shelf_of(alloc, &[("a.c", text)]).expect(&rt, "memory");
    for (value, expected) in [
        (b"".as_slice(), "A 1"),
        (b"1 + 1", "1 + 1 A 1"),
        (b"2 // x\n y", "2 A 1"),
        (b"3 /* x", "3 A 1"),
        (b"\"a\nb\"", "\"a b\" A 1"),
    ] {
        let config = config_of(alloc, value).expect(&rt, "memory");
        let copy = config.copy().expect(&rt, "memory");
        let found = chosen(alloc, &shelf, &copy).expect(&rt, "memory");
        assert_eq!(rt; found.as_str(), expected);
    }
}
