//! What the grammar sees of small lists of tokens.
use crate::lexemes::Lexemes;
use cx_base::{NoMemory, Place, SharedList, Text};
use cx_table::NameKey;
use cx_tokens::{Kind, Token, TokenList};
use std::alloc::{AllocError, Global};
use std::str;

/// Words with a blank between, their names, and what the grammar sees of them.
static ROWS: [(&str, &str, &str); 13] = [
    ("", "", ""),
    ("x", "x", "Name(0)@0"),
    ("y x y", "y x", "Name(0)@0 Name(1)@1 Name(0)@2"),
    ("while whiles", "whiles", "Keyword(While)@0 Name(0)@1"),
    (
        "int _Bool const double",
        "",
        "Keyword(Int)@0 Keyword(Bool)@1 Keyword(Const)@2 Keyword(Other)@3",
    ),
    (
        "volatile _Thread_local _thread_local",
        "_thread_local",
        "Keyword(Other)@0 Keyword(Other)@1 Name(0)@2",
    ),
    ("Int iNT", "Int iNT", "Name(0)@0 Name(1)@1"),
    ("1 0x 1.5e+", "", "Number@0 Number@1 Number@2"),
    ("'a' \"s\"", "", "Char@0 String@1"),
    (
        "<<= << < ... ## #",
        "",
        "Punctuator(LessLessEqual)@0 Punctuator(LessLess)@1 Punctuator(Less)@2 \
         Punctuator(Ellipsis)@3 Punctuator(HashHash)@4 Punctuator(Hash)@5",
    ),
    ("@ $ <:", "", "Foreign@0 Foreign@1 Foreign@2"),
    ("size_t size_t", "size_t", "Name(0)@0 Name(0)@1"),
    (
        "f ( f , g ) ;",
        "f g",
        "Name(0)@0 Punctuator(OpenRound)@1 Name(0)@2 Punctuator(Comma)@3 Name(1)@4 \
         Punctuator(CloseRound)@5 Punctuator(Semicolon)@6",
    ),
];

fn kind_of(word: &[u8]) -> Kind {
    match word {
        [b'"', ..] => Kind::String,
        [b'\'', ..] => Kind::Char,
        [b'a'..=b'z' | b'A'..=b'Z' | b'_', ..] => Kind::Name,
        [b'0'..=b'9', ..] => Kind::Number,
        [b'@' | b'$', ..] => Kind::Other,
        _ => Kind::Punct,
    }
}

fn token_of(alloc: Global, word: &[u8]) -> Result<Token, NoMemory> {
    Ok(Token {
        kind: kind_of(word),
        text: Text::from_slice(alloc, word)?,
        place: Place {
            file: 0,
            line: 1,
            column: 1,
        },
        hide: SharedList::new(),
        space: false,
        parts: SharedList::new(),
        digraph: false,
    })
}

/// The words of a text as tokens.
fn list_of(alloc: Global, text: &str) -> Result<TokenList, NoMemory> {
    let mut tokens = Vec::new(alloc);
    for word in text.as_bytes().split(|byte| *byte == b' ') {
        if !word.is_empty() {
            tokens.push(token_of(alloc, word)?)?;
        }
    }
    TokenList::from_vec(alloc, tokens)
}

fn shown_names(alloc: Global, lexemes: &Lexemes) -> Result<String, AllocError> {
    let mut shown = String::new(alloc);
    for name in lexemes.names.as_slice() {
        let name = str::from_utf8(name.as_slice()).unwrap_or("?");
        let blank = if shown.is_empty() { "" } else { " " };
        shown.push_str(format!(in alloc; "{blank}{name}")?.as_str())?;
    }
    Ok(shown)
}

fn shown_lexemes(alloc: Global, lexemes: &Lexemes) -> Result<String, AllocError> {
    let mut shown = String::new(alloc);
    for lexeme in lexemes.lexemes.as_slice() {
        let blank = if shown.is_empty() { "" } else { " " };
        let text = format!(in alloc; "{blank}{:?}@{}", lexeme.terminal, lexeme.at)?;
        shown.push_str(text.as_str())?;
    }
    Ok(shown)
}

fn lexemes_of(alloc: Global, text: &str) -> Result<Lexemes, NoMemory> {
    let list = list_of(alloc, text)?;
    Lexemes::of(alloc, NameKey::of(text.as_bytes()), &list)
}

#[test]
fn tokens_have_their_terminals_and_names_their_numbers(rt: HostRuntime) {
    let alloc = rt.alloc();
    for (text, names, terminals) in &ROWS {
        let lexemes = lexemes_of(alloc, text).expect(&rt, "memory");
        let shown = shown_names(alloc, &lexemes).expect(&rt, "memory");
        assert_eq!(rt; shown.as_str(), *names, "at {text}");
        let shown = shown_lexemes(alloc, &lexemes).expect(&rt, "memory");
        assert_eq!(rt; shown.as_str(), *terminals, "at {text}");
    }
}
