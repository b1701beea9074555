//! The macros before a unit's text.
use crate::config::Config;
use crate::starts::{enter_file, start, undefine};
use cx_base::{Define, List, NoMemory, Path, Text};
use cx_lex::lex;
use cx_macro::Macros;
use cx_table::NameKey;
use cx_tokens::TokenList;
use std::alloc::Global;
use std::str;

/// The value of a macro that a configuration defines, and what the macro is replaced by.
const VALUES: [(&str, &str); 24] = [
    ("", ""),
    (" \t", ""),
    ("1", "1"),
    ("-1u", "- 1u"),
    ("f(x) + \"a b\"", "f ( x ) + \"a b\""),
    ("1 /* one", "1"),
    ("/*", ""),
    ("1/*", "1"),
    ("1 /* a */ + /* b", "1 +"),
    ("\"/*\" 'x' /*/", "\"/*\" 'x'"),
    ("1 // one", "1"),
    ("1 // one\n+ 1", "1"),
    ("1 // a /* b", "1"),
    ("1\n2", "1 2"),
    ("1\r\n2\r\n", "1 2"),
    ("a\rb", "a \r b"),
    ("a\\\nb", "a \\ b"),
    ("'a\nb'", "'a b'"),
    ("\"a", "\"a"),
    ("a ## b", "ab"),
    ("a # b", "a # b"),
    ("#include <x.h> /*", "# include <x.h>"),
    ("#include <x", "# include < x"),
    ("<:%>", "[ }"),
];

/// Definitions, names, the path of a file, a text in it, and what the text expands to.
const TEXTS: [(&[(&str, &str)], &[&str], &str, &str, &str); 24] = [
    (&[], &[], "a.c", "__STDC__ __STDC_VERSION__", "1 201112L"),
    (&[], &[], "a.c", "__FILE__", "\"a.c\""),
    (&[], &[], "", "__FILE__", "\"\""),
    (&[], &[], "a\"b\\c.c", "__FILE__", "\"a\\\"b\\\\c.c\""),
    (&[], &[], "é/'?'", "__FILE__", "\"é/'?'\""),
    (&[], &[], "a.c", "__LINE__\n__LINE__", "1 2"),
    (&[], &[], "a.c", "__COUNTER__", "__COUNTER__"),
    (&[], &["A"], "a.c", "A B", "1 B"),
    (&[], &["A", "A", "B"], "a.c", "A B", "1 1"),
    (&[("A", "2")], &["A"], "a.c", "A", "1"),
    (&[("A", "2"), ("A", "3")], &[], "a.c", "A", "3"),
    (&[("A", "B"), ("B", "2")], &[], "a.c", "A", "2"),
    (&[("A", "A + 1")], &[], "a.c", "A", "A + 1"),
    (&[("A", "__FILE__")], &[], "a.c", "A", "\"a.c\""),
    (&[("A", "x")], &[], "a.c", "A(1)", "x ( 1 )"),
    (&[("A", "(x) x")], &[], "a.c", "A(1)", "( x ) x ( 1 )"),
    (&[("__FILE__", "2")], &[], "a.c", "__FILE__", "\"a.c\""),
    (&[("__LINE__", "2")], &[], "a.c", " __LINE__", "1"),
    (&[], &["__FILE__"], "a.c", "__FILE__", "\"a.c\""),
    (&[], &["__LINE__"], "a.c", "\n__LINE__", "2"),
    (&[("__STDC__", "0")], &[], "a.c", "__STDC__", "0"),
    (&[], &["__STDC_VERSION__"], "a.c", "__STDC_VERSION__", "1"),
    (&[("__FILE", "2")], &[], "a.c", "__FILE", "2"),
    (&[("", "2")], &[""], "a.c", "A", "A"),
];

/// A configuration of these definitions and names.
fn config_of(alloc: Global, defines: &[(&str, &str)], names: &[&str]) -> Result<Config, NoMemory> {
    let mut config = Config {
        defines: List::new(alloc),
        names: List::new(alloc),
    };
    for (name, value) in defines {
        config.defines.push(Define {
            name: Text::from_slice(alloc, name.as_bytes())?,
            value: Text::from_slice(alloc, value.as_bytes())?,
        })?;
    }
    for name in names {
        config
            .names
            .push(Text::from_slice(alloc, name.as_bytes())?)?;
    }
    Ok(config)
}

/// The tokens of a text.
fn list_of(alloc: Global, text: &str) -> Result<TokenList, NoMemory> {
    let mut tokens = Vec::new(alloc);
    if text.len() > 1000 {
        return Err(NoMemory);
    }
    let Ok(lexed) = lex(alloc, text.as_bytes(), 0) else {
        return Err(NoMemory);
    };
    for piece in lexed.pieces.as_slice() {
        tokens.push(piece.token.copy()?)?;
    }
    TokenList::from_vec(alloc, tokens)
}

/// Tokens with a space between each two.
fn shown(alloc: Global, list: TokenList) -> Result<String, NoMemory> {
    let mut shown = String::new(alloc);
    let tokens = list.into_vec()?;
    for token in tokens.as_slice() {
        if !shown.is_empty() {
            shown.push_str(" ")?;
        }
        shown.push_str(str::from_utf8(token.text.as_slice()).unwrap_or("?"))?;
    }
    Ok(shown)
}

/// What a text expands to.
fn expansion(alloc: Global, macros: &Macros, text: &str) -> Result<String, NoMemory> {
    let list = list_of(alloc, text)?;
    match macros.expand(alloc, list, 0) {
        Ok(expanded) => shown(alloc, expanded.list),
        Err(_) => Err(NoMemory),
    }
}

/// The macros before the text of a file.
fn macros_of(alloc: Global, config: &Config, path: &str) -> Result<Macros, NoMemory> {
    let mut macros = start(alloc, NameKey::of(b"start"), config)?;
    enter_file(alloc, &mut macros, path)?;
    Ok(macros)
}

#[test]
fn values_are_read_as_one_line(rt: HostRuntime) {
    let alloc = rt.alloc();
    for (value, expected) in VALUES {
        let config = config_of(alloc, &[("A", value)], &[]).expect(&rt, "memory");
        let macros = macros_of(alloc, &config, "a.c").expect(&rt, "memory");
        let text = expansion(alloc, &macros, "A").expect(&rt, "memory");
        assert_eq!(rt; text.as_str(), expected, "at {value}");
    }
}

#[test]
fn a_text_has_its_macros(rt: HostRuntime) {
    let alloc = rt.alloc();
    for (defines, names, path, text, expected) in TEXTS {
        let config = config_of(alloc, defines, names).expect(&rt, "memory");
        let macros = macros_of(alloc, &config, path).expect(&rt, "memory");
        let text = expansion(alloc, &macros, text).expect(&rt, "memory");
        assert_eq!(rt; text.as_str(), expected);
    }
}

#[test]
fn files_are_entered_and_names_undefined(rt: HostRuntime) {
    let alloc = rt.alloc();
    let config = config_of(alloc, &[("A", "2")], &[]).expect(&rt, "memory");
    let mut macros = macros_of(alloc, &config, "a.c").expect(&rt, "memory");
    let path = Path::from_str(alloc, "b.h").expect(&rt, "memory");
    enter_file(alloc, &mut macros, path.as_str()).expect(&rt, "memory");
    for name in ["A", "__FILE__", "__LINE__", "__STDC__", "B"] {
        undefine(&mut macros, name.as_bytes());
    }
    let text = "A __FILE__ __LINE__ __STDC__ __STDC_VERSION__";
    let text = expansion(alloc, &macros, text).expect(&rt, "memory");
    assert_eq!(rt; text.as_str(), "A \"b.h\" 1 __STDC__ 201112L");
    assert!(rt; macros.is_defined(b"__LINE__"));
    assert!(rt; !macros.is_defined(b"A"));
}
