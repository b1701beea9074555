//! What lists expand to.
use crate::fault::MacroFault;
use crate::level::Level;
use crate::macros::{Expanded, Macro, Macros};
use crate::walk::Walk;
use cx_base::{List, NoMemory, Text};
use cx_lex::{Piece, lex};
use cx_table::NameKey;
use cx_tokens::{Kind, Token, TokenList};
use std::alloc::{AllocError, AllocGlobal, Global};
use std::process::Abort;
use std::str;

/// Definitions, one a line, a text, and what it expands to: the tokens with a space between each
/// two, or the fault.
const EXPANSIONS: [(&str, &str, &str); 24] = [
    ("f(x) f(x) + 1", "f(f(2))", "f ( f ( 2 ) + 1 ) + 1"),
    ("s(x) #x", "s(a  b)", "\"a b\""),
    ("T 100", "int table[T];", "int table [ 100 ] ;"),
    (
        "max(a, b) ((a) > (b) ? (a) : (b))",
        "max(x, y+1)",
        "( ( x ) > ( y + 1 ) ? ( x ) : ( y + 1 ) )",
    ),
    ("s(x) #x", "s(1,2)", "count@1:1"),
    ("s(x) #x", " s()", "\"\""),
    ("s(x) #x", "s(s(1))", "\"s(1)\""),
    (
        "s(x) #x",
        "s( a( b ) \"c\\n\" '\\\\')",
        "\"a( b ) \\\"c\\\\n\\\" '\\\\\\\\'\"",
    ),
    ("s(x) #x", "s(\\)", "\"\\\""),
    ("s(x) #x", "s(\"a\n)", "\"\"a\""),
    ("s(x) #x\nx(x) s(x)\nm 1", "s(m) x(m)", "\"m\" \"1\""),
    ("f(x) x #x\nm 1", "f(m)", "1 \"m\""),
    (
        "f(a) f(x * (a))\nx 2\ng f\nz z[0]\nh g(~\nm(a) a(w)\nw 0,1\nt(a) a",
        "f(y+1) + f(f(z)) % t(t(g)(0) + t)(1);",
        "f ( 2 * ( y + 1 ) ) + f ( 2 * ( f ( 2 * ( z [ 0 ] ) ) ) ) % f ( 2 * ( 0 ) ) + t ( 1 ) ;",
    ),
    (
        "f(a) f(x * (a))\nx 2\ng f\nz z[0]\nh g(~\nm(a) a(w)\nw 0,1\nt(a) a",
        "g(x+(3,4)-w) | h 5) & m\n(f)^m(m);",
        "f ( 2 * ( 2 + ( 3 , 4 ) - 0 , 1 ) ) | f ( 2 * ( ~ 5 ) ) & f ( 2 * ( 0 , 1 ) ) ^ m ( 0 , 1 ) ;",
    ),
    (
        "p() int\nq(x) x\nr(x,y) x ## y\nstr(x) # x",
        "p() i[q()] = { q(1), r(2,3), r(4,), r(,5), r(,) };",
        "int i [ ] = { 1 , 23 , 4 , 5 , } ;",
    ),
    (
        "str(x) # x",
        "{ str(hello), str() };",
        "{ \"hello\" , \"\" } ;",
    ),
    (
        "debug(s, t) printf(\"x\" # s \"= %d, x\" # t \"= %s\", x ## s, x ## t)",
        "debug(1, 2);",
        "printf ( \"x\" \"1\" \"= %d, x\" \"2\" \"= %s\" , x1 , x2 ) ;",
    ),
    (
        "str(s) # s",
        "fputs(str(strncmp(\"abc\\0d\", \"abc\", '\\4') // this goes away\n== 0) str(: @\\n), s);",
        "fputs ( \"strncmp(\\\"abc\\\\0d\\\", \\\"abc\\\", '\\\\4') == 0\" \": @\\n\" , s ) ;",
    ),
    (
        "str(s) # s\nxstr(s) str(s)\nINCFILE(n) vers ## n",
        "xstr(INCFILE(2).h)",
        "\"vers2.h\"",
    ),
    (
        "glue(a, b) a ## b\nxglue(a, b) glue(a, b)\nHIGHLOW \"hello\"\nLOW LOW \", world\"",
        "glue(HIGH, LOW);\nxglue(HIGH, LOW)",
        "\"hello\" ; \"hello\" \", world\"",
    ),
    (
        "t(x,y,z) x ## y ## z",
        "{ t(1,2,3), t(,4,5), t(6,,7), t(8,9,), t(10,,), t(,11,), t(,,12), t(,,) };",
        "{ 123 , 45 , 67 , 89 , 10 , 11 , 12 , } ;",
    ),
    (
        "debug(...) fprintf(stderr, __VA_ARGS__)",
        "debug(\"Flag\"); debug(\"X = %d\\n\", x);",
        "fprintf ( stderr , \"Flag\" ) ; fprintf ( stderr , \"X = %d\\n\" , x ) ;",
    ),
    (
        "showlist(...) puts(#__VA_ARGS__)",
        "showlist(The first, second, and third items.);",
        "puts ( \"The first, second, and third items.\" ) ;",
    ),
    (
        "report(test, ...) ((test)?puts(#test): printf(__VA_ARGS__))",
        "report(x>y, \"x is %d but y is %d\", x, y);",
        "( ( x > y ) ? puts ( \"x>y\" ) : printf ( \"x is %d but y is %d\" , x , y ) ) ;",
    ),
];

/// The same: which arguments an invocation has, and GNU's comma.
const INVOCATIONS: [(&str, &str, &str); 23] = [
    ("f(x) x", "f f (1)", "f 1"),
    ("f(x) x", " f(1", "unclosed@1:2"),
    ("f(a,b) b a\ng(x) x", "f(g(1,2), g(3,4))", "count@1:3"),
    ("f(a,b) b a", "f((1,2),3)", "3 ( 1 , 2 )"),
    ("f(x) x", "f([1,2])", "count@1:1"),
    ("f(a,b) a", "f(1)", "count@1:1"),
    ("f() 1", "f() f( )", "1 1"),
    ("f() 1", "f(2)", "count@1:1"),
    (
        "f(...) [__VA_ARGS__]",
        "f() f(1) f(1,2)",
        "[ ] [ 1 ] [ 1 , 2 ]",
    ),
    (
        "f(a,...) a __VA_ARGS__",
        "f() f(1) f(1,) f(1,2,3)",
        "1 1 1 2 , 3",
    ),
    ("f(__VA_ARGS__) __VA_ARGS__", "f(1)", "1"),
    ("p(a, ...) q(a, ## __VA_ARGS__)", "p(1)", "q ( 1 )"),
    (
        "p(a, ...) q(a, ## __VA_ARGS__)",
        "p(1, 2) p(1, 2, 3)",
        "q ( 1 , 2 ) q ( 1 , 2 , 3 )",
    ),
    ("p(a, ...) q(a, ## __VA_ARGS__)", "p(1,)", "q ( 1 , )"),
    (
        "p(...) q(0, ## __VA_ARGS__)",
        "p() p(1)",
        "q ( 0 ) q ( 0 , 1 )",
    ),
    (
        "p(a, ...) q(a, ## __VA_ARGS__)\nm 7",
        "p(m, m)",
        "q ( 7 , 7 )",
    ),
    ("p(a, ...) a ## , ## __VA_ARGS__", "p(,2)", "paste@1:1"),
    ("p(a, ...) a ## , ## __VA_ARGS__", "p()", ","),
    ("p(a, ...) a, ## __VA_ARGS__ ## x", "p(1)", "paste@1:1"),
    ("p(a, ...) a, ## __VA_ARGS__ ## x", "p(1, 2)", "paste@1:1"),
    ("p(a, b) a, ## b", "p(1,)", "1 ,"),
    ("p(a, b) a, ## b", "p(1,2)", "paste@1:1"),
    ("p(a, ...) a; ## __VA_ARGS__", "p(1)", "1 ;"),
];

/// The same: `#` and `##`, and what is hidden.
const OPERATORS: [(&str, &str, &str); 23] = [
    (
        "s(x) #x",
        "s(<:) s(%:%: %>) s([)",
        "\"<:\" \"%:%: %>\" \"[\"",
    ),
    ("s(x) %:x", "s(1)", "\"1\""),
    ("c(x,y) x %:%: y", "c(1,2)", "12"),
    ("c(x,y) x ## y", "c(%:,#)", "paste@1:1"),
    (
        "c(x,y) x ## y\ns(x) #x\nt(x) s(x)",
        "t(c(%:,%:)) t(c(%,:)) t(c(#,#)) t(c(<,:))",
        "\"%:%:\" \"%:\" \"##\" \"<:\"",
    ),
    ("c(x,y) x ## y", "c(%:,%:) c(%,:) c(<,:)", "## # ["),
    ("f(x) x", "f<:1,2:>", "f [ 1 , 2 ]"),
    (
        "hash_hash # ## #\nmkstr(a) # a\nin_between(a) mkstr(a)\njoin(c, d) in_between(c hash_hash d)",
        "char p[] = join(x, y);",
        "char p [ ] = \"x ## y\" ;",
    ),
    (
        "str(s) # s\nxstr(s) str(s)",
        "xstr(strncmp(\"abc\\0d\", \"abc\", '\\4') == 0) str(: @\\n)",
        "\"strncmp(\\\"abc\\\\0d\\\", \\\"abc\\\", '\\\\4') == 0\" \": @\\n\"",
    ),
    ("o a ## b\nf ## b\ng b ##", "o f g", "ab b b"),
    ("o a ## ## b", "o", "paste@1:1"),
    ("d(x) x ## ## b", "d()", "## b"),
    ("c(x,y) x ## y", "c(%,:) c(a b,c d)", "# a bc d"),
    ("c(x,y) x ## y", "1 c(/,/)", "paste@1:3"),
    (
        "c(x,y) [x ## y]\ns(x) #x\nt(x) s(x)",
        "t(c(,b))",
        "\"[ b]\"",
    ),
    ("f(x) [ x]\ns(x) #x\nt(x) s(x)", "t(f())", "\"[]\""),
    ("c(x,y) x ## y\nm 1\nmm 2", "c(m,m) c(m,)", "2 1"),
    ("z z[0]\na b\nb a", "z a b", "z [ 0 ] a b"),
    ("f(x) x f", "f(1)(2)", "1 f ( 2 )"),
    ("N(x) x\nG(a) N(H)(a)\nH(a) N(a)", "G(42)", "42"),
    ("f(x) x", "f(\n__LINE__) __LINE__", "2 2"),
    ("f(x) x ## 1", "f(\n__LINE__)", "__LINE__1"),
    ("f(x) x ## __", "f(\n__LINE)", "1"),
];

/// Definitions, a text, how many tokens have been laid, how many may be, and what comes of it with
/// how many tokens are laid then.
const COUNTS: [(&str, &str, u32, u32, &str); 11] = [
    ("m 1", "m", 0, 4, "1 = 3"),
    ("m 1", "m", 0, 3, "1 = 3"),
    ("m 1", " m", 0, 2, "many@1:2 3"),
    ("m 1", "m", 7, 10, "1 = 10"),
    ("m 1", "m", 7, 9, "many@1:1 10"),
    ("", " x y z", 0, 3, "x y z = 3"),
    ("", " x y z", 1, 3, "many@1:2 4"),
    ("", "", 3, 3, " = 3"),
    ("f(x) x x\nm 1", "f(m)", 0, 9, "1 1 = 9"),
    ("a b b\nb c c\nc d d", "x a", 0, 10, "many@1:3 11"),
    ("f(x) #x\nm 1", "f(m)", 0, 6, "\"m\" = 6"),
];

/// Lines, and whether what they say can be defined.
const DEFINITIONS: [(&str, bool); 12] = [
    ("f(x,x) x", false),
    ("f(x,y) # x", true),
    ("f(x) #x", true),
    ("f(x) #y", false),
    ("f(x) # ", false),
    ("f(x) ##", true),
    ("f(x) #__VA_ARGS__", false),
    ("f(...) #__VA_ARGS__", true),
    ("f(x,...) #x #__VA_ARGS__", true),
    ("f() #", false),
    ("o #", true),
    ("f(x) #x x # #x", false),
];

/// The pieces of a text.
fn pieces(alloc: Global, text: &str) -> Result<List<Piece>, NoMemory> {
    if text.len() >= 4_294_967_295 {
        return Err(NoMemory);
    }
    match lex(alloc, text.as_bytes(), 0) {
        Ok(lexed) => Ok(lexed.pieces),
        Err(_) => Err(NoMemory),
    }
}

/// A list of tokens.
fn list_from(alloc: Global, tokens: Vec<Token>) -> Result<TokenList, NoMemory> {
    let mut level = Level::new(TokenList::new(alloc));
    let mut left = tokens;
    while let Some(token) = left.pop() {
        level.push(token)?;
    }
    Ok(level.into_list())
}

/// A list of the tokens of pieces.
fn list_of(alloc: Global, pieces: &[Piece]) -> Result<TokenList, NoMemory> {
    let mut tokens = Vec::new(alloc);
    for piece in pieces {
        tokens.push(piece.token.copy()?)?;
    }
    list_from(alloc, tokens)
}

fn is(piece: &Piece, text: &[u8]) -> bool {
    piece.token.text.as_slice() == text
}

/// Whether an opening bracket stands directly after a macro's name.
fn begins_parameters(rest: &[Piece]) -> bool {
    match rest.first() {
        Some(open) => is(open, b"(") && !open.token.space,
        None => false,
    }
}

/// The name and the macro that a line says, where it has any pieces.
fn definition(alloc: Global, line: &str) -> Result<Option<(Text, Macro)>, NoMemory> {
    let pieces = pieces(alloc, line)?;
    let Some((name, rest)) = pieces.as_slice().split_first() else {
        return Ok(None);
    };
    let mut in_brackets = begins_parameters(rest);
    let function_like = in_brackets;
    let mut names = List::new(alloc);
    let mut variadic = false;
    let mut body = Vec::new(alloc);
    for piece in rest {
        if !in_brackets {
            body.push(piece.token.copy()?)?;
        } else if is(piece, b")") {
            in_brackets = false;
        } else if is(piece, b"...") {
            variadic = true;
        } else if piece.token.kind == Kind::Name {
            names.push(piece.token.text.copy()?)?;
        }
    }
    let body = list_from(alloc, body)?;
    let parameters = if function_like { Some(names) } else { None };
    let made = Macro {
        parameters,
        variadic,
        body,
    };
    Ok(Some((name.token.text.copy()?, made)))
}

/// Defines what a line says, which has to be a definition.
fn define(
    rt: &(impl Abort + AllocGlobal),
    macros: &mut Macros,
    line: &str,
) -> Result<(), NoMemory> {
    let alloc = rt.alloc();
    let Some((name, made)) = definition(alloc, line)? else {
        return Ok(());
    };
    let can_be_defined = made.can_be_defined(alloc, NameKey::of(b"tests"))?;
    assert!(rt; can_be_defined, "cannot be defined: {line}");
    macros.define(name, made)
}

fn shown_fault(alloc: Global, fault: MacroFault) -> Result<String, AllocError> {
    match fault {
        MacroFault::ArgumentCount { at } => format!(in alloc; "count@{}:{}", at.line, at.column),
        MacroFault::UnclosedCall { at } => format!(in alloc; "unclosed@{}:{}", at.line, at.column),
        MacroFault::BadPaste { at } => format!(in alloc; "paste@{}:{}", at.line, at.column),
        MacroFault::TooManyTokens { at, laid } => {
            format!(in alloc; "many@{}:{} {}", at.line, at.column, laid)
        }
        MacroFault::NoMemory => format!(in alloc; "memory"),
    }
}

fn shown_list(alloc: Global, list: &TokenList) -> Result<String, AllocError> {
    let mut shown = String::new(alloc);
    let Ok(tokens) = Walk::over(list).copies(alloc) else {
        return format!(in alloc; "memory");
    };
    for token in tokens.as_slice() {
        if !shown.is_empty() {
            shown.push_str(" ")?;
        }
        shown.push_str(str::from_utf8(token.text.as_slice()).unwrap_or("?"))?;
    }
    Ok(shown)
}

/// What a text expands to, where so many tokens may be laid, and so many have been.
fn expansion(
    rt: &(impl Abort + AllocGlobal),
    lines: &str,
    text: &str,
    laid: u32,
    bound: u32,
) -> Result<Result<Expanded, MacroFault>, NoMemory> {
    let alloc = rt.alloc();
    let mut macros = Macros::new(alloc, NameKey::of(b"macros"));
    for line in lines.lines() {
        define(rt, &mut macros, line)?;
    }
    let pieces = pieces(alloc, text)?;
    let list = list_of(alloc, pieces.as_slice())?;
    if laid > bound {
        return Err(NoMemory);
    }
    Ok(macros.expand_within(alloc, list, laid, bound))
}

fn counted(alloc: Global, answer: Result<Expanded, MacroFault>) -> Result<String, AllocError> {
    match answer {
        Ok(expanded) => {
            let list = shown_list(alloc, &expanded.list)?;
            format!(in alloc; "{} = {}", list, expanded.laid)
        }
        Err(fault) => shown_fault(alloc, fault),
    }
}

fn shown(alloc: Global, answer: Result<Expanded, MacroFault>) -> Result<String, AllocError> {
    match answer {
        Ok(expanded) => shown_list(alloc, &expanded.list),
        Err(fault) => shown_fault(alloc, fault),
    }
}

#[test]
fn lists_are_expanded(rt: HostRuntime) {
    for (lines, text, expected) in EXPANSIONS {
        let answer = expansion(&rt, lines, text, 0, 262_144).expect(&rt, "memory");
        let shown = shown(rt.alloc(), answer).expect(&rt, "memory");
        assert_eq!(rt; shown.as_str(), expected, "at {text}");
    }
}

#[test]
fn invocations_have_their_arguments(rt: HostRuntime) {
    for (lines, text, expected) in INVOCATIONS {
        let answer = expansion(&rt, lines, text, 0, 262_144).expect(&rt, "memory");
        let shown = shown(rt.alloc(), answer).expect(&rt, "memory");
        assert_eq!(rt; shown.as_str(), expected, "at {text}");
    }
}

#[test]
fn operators_make_tokens(rt: HostRuntime) {
    for (lines, text, expected) in OPERATORS {
        let answer = expansion(&rt, lines, text, 0, 262_144).expect(&rt, "memory");
        let shown = shown(rt.alloc(), answer).expect(&rt, "memory");
        assert_eq!(rt; shown.as_str(), expected, "at {text}");
    }
}

#[test]
fn tokens_are_counted(rt: HostRuntime) {
    for (lines, text, laid, bound, expected) in COUNTS {
        let answer = expansion(&rt, lines, text, laid, bound).expect(&rt, "memory");
        let shown = counted(rt.alloc(), answer).expect(&rt, "memory");
        assert_eq!(rt; shown.as_str(), expected, "at {text}");
    }
}

/// A text with so many of one before it, and of another after it.
fn repeated(
    alloc: Global,
    front: &str,
    middle: &str,
    back: &str,
    count: usize,
) -> Result<String, AllocError> {
    let mut text = String::new(alloc);
    for _ in 0..count {
        text.push_str(front)?;
    }
    text.push_str(middle)?;
    for _ in 0..count {
        text.push_str(back)?;
    }
    Ok(text)
}

#[test]
fn many_names_are_replaced(rt: HostRuntime) {
    let text = repeated(rt.alloc(), "m ", "", "", 2000).expect(&rt, "memory");
    let answer = expansion(&rt, "m 1", text.as_str(), 0, 262_144).expect(&rt, "memory");
    let Ok(expanded) = answer else {
        panic!(rt; "refused");
    };
    assert_eq!(rt; expanded.laid, 6000);
}

#[test]
fn calls_are_nested(rt: HostRuntime) {
    let text = repeated(rt.alloc(), "f(", "1", ")", 100).expect(&rt, "memory");
    let answer = expansion(&rt, "f(x) x", text.as_str(), 0, 262_144).expect(&rt, "memory");
    let shown = shown(rt.alloc(), answer).expect(&rt, "memory");
    assert_eq!(rt; shown.as_str(), "1");
}

#[test]
fn what_can_be_defined(rt: HostRuntime) {
    let alloc = rt.alloc();
    for (line, expected) in DEFINITIONS {
        let Some((_, made)) = definition(alloc, line).expect(&rt, "memory") else {
            panic!(rt; "no pieces");
        };
        let answer = made
            .can_be_defined(alloc, NameKey::of(b"tests"))
            .expect(&rt, "memory");
        assert_eq!(rt; answer, expected, "at {line}");
    }
    let made = Macro {
        parameters: None,
        variadic: true,
        body: TokenList::new(alloc),
    };
    let answer = made
        .can_be_defined(alloc, NameKey::of(b"tests"))
        .expect(&rt, "memory");
    assert!(rt; !answer);
}

#[test]
fn macros_are_defined(rt: HostRuntime) {
    let alloc = rt.alloc();
    let mut macros = Macros::new(alloc, NameKey::of(b"macros"));
    let body = list_of(alloc, pieces(alloc, "1").expect(&rt, "memory").as_slice());
    let made = Macro {
        parameters: None,
        variadic: false,
        body: body.expect(&rt, "memory"),
    };
    let copy = made.copy().expect(&rt, "memory");
    assert!(rt; copy.parameters.is_none() && !copy.variadic);
    let name = Text::from_slice(alloc, b"m").expect(&rt, "memory");
    let can_be_defined = made
        .can_be_defined(alloc, NameKey::of(b"tests"))
        .expect(&rt, "memory");
    assert!(rt; can_be_defined);
    macros.define(name, made).expect(&rt, "memory");
    let list = list_of(alloc, pieces(alloc, "m").expect(&rt, "memory").as_slice());
    let answer = macros.expand(alloc, list.expect(&rt, "memory"), 0);
    let replaced = shown(alloc, answer).expect(&rt, "memory");
    assert_eq!(rt; replaced.as_str(), "1");
    macros.undef(b"m");
    let list = list_of(alloc, pieces(alloc, "m").expect(&rt, "memory").as_slice());
    let answer = macros.expand(alloc, list.expect(&rt, "memory"), 0);
    let kept = shown(alloc, answer).expect(&rt, "memory");
    assert_eq!(rt; kept.as_str(), "m");
}
