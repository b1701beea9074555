//! Where the items of small lists of tokens begin.
use crate::cuts::{Cuts, cuts_of};
use cx_base::NoMemory;
use cx_syntax_tree::{Keyword, Lexeme, Punctuator, Terminal};
use std::alloc::{AllocError, Global};

/// Tokens, one letter each, and the items with a bar between them; the last one is followed by a
/// question mark where it has no end. `x` is a name, `k` a keyword, `1` a number.
static ROWS: [(&str, &str); 28] = [
    ("", ""),
    (";", ";"),
    (";;", ";|;"),
    ("kx;", "kx;"),
    ("kx", "kx?"),
    ("kx=1;kx;", "kx=1;|kx;"),
    ("kx(k){kx;}", "kx(k){kx;}"),
    ("kx(){}kx(){}", "kx(){}|kx(){}"),
    ("kx(){};", "kx(){}|;"),
    ("kx{kx;};", "kx{kx;};"),
    ("kx{kx;}x(){}", "kx{kx;}x(){}"),
    ("kx[1]={1,1};", "kx[1]={1,1};"),
    ("kx(k)[1]{}", "kx(k)[1]{}?"),
    ("kx(k);kx(){}", "kx(k);|kx(){}"),
    ("(){}", "(){}"),
    ("kx({;}){;}", "kx({;}){;}"),
    // Old-style definitions: a word behind the brackets, declarations, and then the body.
    ("kx(x)kx;{}", "kx(x)kx;{}"),
    ("kx(x,x)kx;kx;{k;}kx;", "kx(x,x)kx;kx;{k;}|kx;"),
    ("kx(x)kx,*x;{}", "kx(x)kx,*x;{}"),
    // .. no word behind the brackets
    ("kx(x);kx;{}", "kx(x);|kx;|{}?"),
    // .. an initialiser among the declarations
    ("kx(x)kx;kx=1;{}", "kx(x)kx;|kx=1;|{}?"),
    // .. no ";" before the braces
    ("kx(x)kx;k{};", "kx(x)kx;|k{};"),
    // .. braces of a body behind another item
    ("kx()x;kx(){}", "kx()x;|kx(){}"),
    ("kx()x;kx()x;{}", "kx()x;kx()x;{}"),
    // .. no braces at all
    ("kx()x;kx;", "kx()x;|kx;"),
    ("kx()x{}", "kx()x{}?"),
    ("kx()x=1;{}", "kx()x=1;{}"),
    ("kx(){}x;{}", "kx(){}|x;|{}?"),
];

fn terminal_of(byte: u8) -> Terminal {
    match byte {
        b'k' => Terminal::Keyword(Keyword::Int),
        b'x' => Terminal::Name(0),
        b'1' => Terminal::Number,
        b'(' => Terminal::Punctuator(Punctuator::OpenRound),
        b')' => Terminal::Punctuator(Punctuator::CloseRound),
        b'[' => Terminal::Punctuator(Punctuator::OpenSquare),
        b']' => Terminal::Punctuator(Punctuator::CloseSquare),
        b'{' => Terminal::Punctuator(Punctuator::OpenCurly),
        b'}' => Terminal::Punctuator(Punctuator::CloseCurly),
        b';' => Terminal::Punctuator(Punctuator::Semicolon),
        b'=' => Terminal::Punctuator(Punctuator::Equal),
        b',' => Terminal::Punctuator(Punctuator::Comma),
        b'*' => Terminal::Punctuator(Punctuator::Star),
        _ => Terminal::Foreign,
    }
}

fn cuts_in(alloc: Global, text: &str) -> Result<Cuts, NoMemory> {
    let mut lexemes = Vec::new(alloc);
    for byte in text.as_bytes() {
        lexemes.push(Lexeme {
            terminal: terminal_of(*byte),
            at: 0,
        })?;
    }
    cuts_of(alloc, lexemes.as_slice())
}

/// A text with bars before all items but the first.
fn shown(alloc: Global, text: &str, cuts: &Cuts) -> Result<String, AllocError> {
    let mut shown = String::new(alloc);
    for (index, letter) in text.chars().enumerate() {
        if index > 0 && cuts.starts.as_slice().contains(&index) {
            shown.push('|')?;
        }
        shown.push(letter)?;
    }
    if !cuts.finished {
        shown.push('?')?;
    }
    Ok(shown)
}

#[test]
fn items_end_by_brackets_alone(rt: HostRuntime) {
    for (text, expected) in &ROWS {
        let cuts = cuts_in(rt.alloc(), text).expect(&rt, "memory");
        let shown = shown(rt.alloc(), text, &cuts).expect(&rt, "memory");
        assert_eq!(rt; shown.as_str(), *expected, "at {text}");
    }
}
