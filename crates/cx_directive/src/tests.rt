//! What directives say.
ghost use Rattle.std.specs.Prelude.{IfOk, IfSome};
ghost use Rattle.cx_macro.specs.Made.{definition_by};
ghost use Rattle.cx_macro.specs.Macros.{IsDefinition};

use crate::answers::answered;
use crate::define::{Named, defined_by};
use crate::include::target_of;
use crate::operand::{name_of, operands, spelled};
use cx_base::{List, NoMemory, Text};
use cx_lex::{Piece, lex};
use cx_macro::{Macro, Macros};
use cx_table::NameKey;
use cx_tokens::Token;
use std::alloc::{AllocError, Global};
use std::str;

/// What a `define` has, and what it defines: a name, parameters and a body.
const DEFINES: [(&str, &str); 29] = [
    ("A", "A = "),
    ("A 1", "A = 1"),
    ("A +1", "A = + 1"),
    ("A+1", "A = + 1"),
    ("A x ## y", "A = x ## y"),
    ("A #x", "A = # x"),
    ("A #", "A = #"),
    ("A(x) x", "A(x,) = x"),
    ("A(x)x", "A(x,) = x"),
    ("A (x) x", "A = ( x ) x"),
    ("A/**/(x) x", "A = ( x ) x"),
    ("A()", "A() = "),
    ("A( ) x", "A() = x"),
    ("A( a , b ) b(a)", "A(a,b,) = b ( a )"),
    ("A(...) __VA_ARGS__", "A(...) = __VA_ARGS__"),
    ("A(a,...) a __VA_ARGS__", "A(a,...) = a __VA_ARGS__"),
    ("A(a, b...) a b", "A(a,...) = a __VA_ARGS__"),
    ("A(b...) #b bb \"b\"", "A(...) = # __VA_ARGS__ bb \"b\""),
    ("A(a, b ...) a##b", "A(a,...) = a ## __VA_ARGS__"),
    ("A(b...) 'b' b b", "A(...) = 'b' __VA_ARGS__ __VA_ARGS__"),
    ("A(a) a ## 1", "A(a,) = a ## 1"),
    ("A(a) #a", "A(a,) = # a"),
    ("A(a) %:a", "A(a,) = # a"),
    ("A(...) #__VA_ARGS__", "A(...) = # __VA_ARGS__"),
    ("A(a,b,c,d) d", "A(a,b,c,d,) = d"),
    ("A(A) A", "A(A,) = A"),
    ("int long", "int = long"),
    ("A ()", "A = ( )"),
    ("A )", "A = )"),
];

/// What a `define` has where its form is wrong.
const WRONG_DEFINES: [&str; 31] = [
    "",
    "1",
    "(a) a",
    "\"A\" 1",
    "A(",
    "A(a",
    "A(a, b",
    "A(a,",
    "A(a,) a",
    "A(,a) a",
    "A(,) a",
    "A(a,,b) a",
    "A(a a) a",
    "A(a,a) a",
    "A(a,b,a) a",
    "A(a,a...) a",
    "A(..., a) a",
    "A(...,...) a",
    "A(a..., b) a",
    "A(a......) a",
    "A(... a) a",
    "A(1) a",
    "A((a)) a",
    "A ## a",
    "A a ##",
    "A ##",
    "A%:%:a",
    "A(a) ## a",
    "A(a) a ##",
    "A(a) #b",
    "A(a) a #",
];

/// A condition, and what is left where each `defined` is answered and `X` alone is a macro.
const CONDITIONS: [(&str, &str); 22] = [
    ("", ""),
    ("defined X", "1"),
    ("defined Y", "0"),
    ("defined(X)", "1"),
    ("defined ( X )", "1"),
    ("defined(Y)", "0"),
    ("defined", "defined"),
    ("defined 3", "defined 3"),
    ("defined(X", "defined ( X"),
    ("defined(", "defined ("),
    ("defined()", "defined ( )"),
    ("defined(3)", "defined ( 3 )"),
    ("defined(X+1)", "defined ( X + 1 )"),
    ("defined((X))", "defined ( ( X ) )"),
    ("X == 1 && defined X", "X == 1 && 1"),
    ("!defined X||defined Y", "! 1 || 0"),
    ("(defined X)", "( 1 )"),
    ("defined X X", "1 X"),
    ("defined(X)(X)", "1 ( X )"),
    ("defined defined X", "0 X"),
    ("defined(defined X)", "defined ( 1 )"),
    ("\"defined\" X undefined X", "\"defined\" X undefined X"),
];

/// A line, and what its `include` has.
const INCLUDES: [(&str, &str); 10] = [
    ("#include <a/b.h>", "header < a/b.h"),
    ("#include \"a.h\"", "header \" a.h"),
    ("# include <a> b", "header < a"),
    ("#include \"a.h\" \"b.h\"", "header \" a.h"),
    ("#include", "nothing"),
    ("#include A", "computed \" A"),
    ("#include A(x) +  y", "computed \" A(x) + y"),
    ("#include A/**/B", "computed \" A B"),
    ("#include A<x>", "computed \" A<x>"),
    ("#include 3", "computed \" 3"),
];

/// A line, and the name that stands after that of its directive.
const NAMES: [(&str, &str); 6] = [
    ("#ifdef A", "A"),
    ("#ifndef A B", "A"),
    ("# undef A(x)", "A"),
    ("#ifdef", "nothing"),
    ("#ifdef 1", "nothing"),
    ("#undef (A)", "nothing"),
];

/// The pieces of a text.
fn pieces(alloc: Global, text: &str) -> Result<List<Piece>, NoMemory> {
    if text.len() >= 4_294_967_295 {
        return Err(NoMemory);
    }
    match lex(alloc, text.as_bytes(), 0) {
        Ok(lexed) => Ok(lexed.pieces),
        Err(_) => Err(NoMemory),
    }
}

fn as_text(bytes: &[u8]) -> &str {
    str::from_utf8(bytes).unwrap_or("?")
}

/// Tokens, with a space before each but the first.
fn shown(alloc: Global, tokens: &[Token]) -> Result<String, AllocError> {
    let mut shown = String::new(alloc);
    for token in tokens {
        if !shown.is_empty() {
            shown.push_str(" ")?;
        }
        shown.push_str(as_text(token.text.as_slice()))?;
    }
    Ok(shown)
}

/// What a `define` with these operands defines.
fn defined(alloc: Global, text: &str) -> Result<Option<Named>, NoMemory>
    ensures { IfOk result (λ r. IfSome r (λ n. IsDefinition (definition_by n.made))) }
{
    let pieces = pieces(alloc, text)?;
    defined_by(alloc, NameKey::of(b"tests"), pieces.as_slice())
}

/// Parameters, each with a comma after it.
fn shown_parameters(
    alloc: Global,
    parameters: &List<Text>,
    variadic: bool,
) -> Result<String, AllocError> {
    let mut shown = String::new(alloc);
    shown.push_str("(")?;
    for name in parameters.as_slice() {
        shown.push_str(as_text(name.as_slice()))?;
        shown.push_str(",")?;
    }
    shown.push_str(if variadic { "...)" } else { ")" })?;
    Ok(shown)
}

/// A definition: the name, the parameters, and the body.
fn shown_definition(alloc: Global, named: Named) -> Result<String, NoMemory> {
    let Named { name, made } = named;
    let Macro {
        parameters,
        variadic,
        body,
    } = made;
    let parameters = match &parameters {
        None => String::new(alloc),
        Some(names) => shown_parameters(alloc, names, variadic)?,
    };
    let body = body.into_vec()?;
    let body = shown(alloc, body.as_slice())?;
    let name = as_text(name.as_slice());
    Ok(format!(in alloc; "{name}{parameters} = {body}")?)
}

/// The condition with each `defined` answered, where `X` alone is a macro.
fn answer(alloc: Global, text: &str) -> Result<String, NoMemory> {
    let mut macros = Macros::new(alloc, NameKey::of(b"tests"));
    if let Some(named) = defined(alloc, "X")? {
        macros.define(named.name, named.made)?;
    }
    let pieces = pieces(alloc, text)?;
    let tokens = answered(alloc, &macros, pieces.as_slice())?;
    Ok(shown(alloc, tokens.as_slice())?)
}

/// What an `include` has: the kind, how its name is delimited, and the name.
fn target(alloc: Global, line: &str) -> Result<String, NoMemory> {
    let pieces = pieces(alloc, line)?;
    let mut shown = String::new(alloc);
    let Some(target) = target_of(alloc, operands(pieces.as_slice()))? else {
        shown.push_str("nothing")?;
        return Ok(shown);
    };
    shown.push_str(if target.computed {
        "computed"
    } else {
        "header"
    })?;
    shown.push_str(if target.name.quoted { " \" " } else { " < " })?;
    shown.push_str(as_text(target.name.name.as_slice()))?;
    Ok(shown)
}

#[test]
fn macros_are_defined(rt: HostRuntime) {
    let alloc = rt.alloc();
    for (text, expected) in DEFINES {
        let Some(named) = defined(alloc, text).expect(&rt, "memory") else {
            panic!(rt; "wrong: {text}");
        };
        let shown = shown_definition(alloc, named).expect(&rt, "memory");
        assert_eq!(rt; shown.as_str(), expected, "at {text}");
    }
}

#[test]
fn wrong_forms_define_nothing(rt: HostRuntime) {
    for text in WRONG_DEFINES {
        let named = defined(rt.alloc(), text).expect(&rt, "memory");
        assert!(rt; named.is_none(), "at {text}");
    }
}

#[test]
fn conditions_are_answered(rt: HostRuntime) {
    for (text, expected) in CONDITIONS {
        let shown = answer(rt.alloc(), text).expect(&rt, "memory");
        assert_eq!(rt; shown.as_str(), expected, "at {text}");
    }
}

#[test]
fn includes_have_a_name(rt: HostRuntime) {
    for (line, expected) in INCLUDES {
        let shown = target(rt.alloc(), line).expect(&rt, "memory");
        assert_eq!(rt; shown.as_str(), expected, "at {line}");
    }
}

#[test]
fn names_stand_after_directives(rt: HostRuntime) {
    for (line, expected) in NAMES {
        let pieces = pieces(rt.alloc(), line).expect(&rt, "memory");
        let name = name_of(operands(pieces.as_slice())).map_or("nothing", as_text);
        assert_eq!(rt; name, expected, "at {line}");
    }
}

#[test]
fn text_is_spelled_with_its_spaces(rt: HostRuntime) {
    let alloc = rt.alloc();
    let pieces = pieces(alloc, "  a  b+c\t'd'").expect(&rt, "memory");
    let text = spelled(alloc, pieces.as_slice()).expect(&rt, "memory");
    assert_eq!(rt; as_text(text.as_slice()), "a b+c 'd'");
}
