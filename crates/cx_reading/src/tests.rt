//! Types of C11 6.7.2 and 6.7.7, and lists of tokens that are none.
use crate::{Cursor, Refusal, integer_type, type_name};
use cx_syntax_tree::Keyword::{
    Bool, Char, Const, Enum, Extern, Int, Long, Other, Short, Signed, Static, Struct, Typedef,
    Union, Unsigned, Void,
};
use cx_syntax_tree::Punctuator::{CloseRound, Comma, OpenCurly, Star};
use cx_syntax_tree::{BareWords, Keyword, Lexeme, Punctuator, Terminal};
use cx_tree::IntType;
use std::alloc::{AllocError, Global};

/// Keywords, and the integer type that they name.
static INTEGERS: [(&[Keyword], Option<IntType>); 40] = [
    (&[Bool], Some(IntType::Bool)),
    (&[Char], Some(IntType::Char)),
    (&[Signed, Char], Some(IntType::SignedChar)),
    (&[Unsigned, Char], Some(IntType::UnsignedChar)),
    (&[Short], Some(IntType::Short)),
    (&[Int, Short], Some(IntType::Short)),
    (&[Short, Signed], Some(IntType::Short)),
    (&[Int, Signed, Short], Some(IntType::Short)),
    (&[Short, Unsigned], Some(IntType::UnsignedShort)),
    (&[Int, Short, Unsigned], Some(IntType::UnsignedShort)),
    (&[Int], Some(IntType::Int)),
    (&[Signed], Some(IntType::Int)),
    (&[Int, Signed], Some(IntType::Int)),
    (&[Unsigned], Some(IntType::UnsignedInt)),
    (&[Int, Unsigned], Some(IntType::UnsignedInt)),
    (&[Long], Some(IntType::Long)),
    (&[Int, Long], Some(IntType::Long)),
    (&[Long, Signed], Some(IntType::Long)),
    (&[Long, Int, Signed], Some(IntType::Long)),
    (&[Long, Unsigned], Some(IntType::UnsignedLong)),
    (&[Long, Unsigned, Int], Some(IntType::UnsignedLong)),
    (&[Long, Long], Some(IntType::LongLong)),
    (&[Long, Signed, Long], Some(IntType::LongLong)),
    (&[Long, Int, Long], Some(IntType::LongLong)),
    (&[Long, Int, Long, Signed], Some(IntType::LongLong)),
    (&[Long, Unsigned, Long], Some(IntType::UnsignedLongLong)),
    (
        &[Int, Long, Long, Unsigned],
        Some(IntType::UnsignedLongLong),
    ),
    (&[], None),
    (&[Char, Unsigned], None),
    (&[Char, Char], None),
    (&[Char, Int], None),
    (&[Bool, Int], None),
    (&[Short, Short], None),
    (&[Short, Long], None),
    (&[Signed, Unsigned], None),
    (&[Int, Int], None),
    (&[Long, Long, Long], None),
    (&[Unsigned, Unsigned, Long], None),
    (&[Void], None),
    (&[Const, Int], None),
];

/// Tokens, how the type in front of them is written, and how many tokens stand behind it.
static TYPES: [(&[Terminal], &str, usize); 28] = [
    (&[Terminal::Keyword(Void)], "void", 0),
    (
        &[Terminal::Keyword(Int), Terminal::Punctuator(CloseRound)],
        "integer",
        1,
    ),
    (
        &[Terminal::Keyword(Long), Terminal::Keyword(Unsigned)],
        "integer",
        0,
    ),
    (&[Terminal::Keyword(Struct), Terminal::Name(0)], "struct", 0),
    (
        &[Terminal::Keyword(Struct), Terminal::TypeName(0)],
        "struct",
        0,
    ),
    (&[Terminal::Keyword(Enum), Terminal::Name(0)], "enum", 0),
    (&[Terminal::TypeName(3)], "name", 0),
    (&[Terminal::TypeName(3), Terminal::Name(1)], "name", 1),
    (&[Terminal::TypeName(3), Terminal::TypeName(4)], "name", 1),
    (
        &[
            Terminal::Keyword(Const),
            Terminal::Keyword(Const),
            Terminal::TypeName(3),
        ],
        "name",
        0,
    ),
    (
        &[
            Terminal::Keyword(Static),
            Terminal::Keyword(Void),
            Terminal::Keyword(Const),
        ],
        "void",
        0,
    ),
    (
        &[
            Terminal::Keyword(Int),
            Terminal::Keyword(Const),
            Terminal::Punctuator(Star),
        ],
        "integer *",
        0,
    ),
    (
        &[
            Terminal::Keyword(Int),
            Terminal::Punctuator(Star),
            Terminal::Keyword(Const),
            Terminal::Punctuator(Star),
            Terminal::Punctuator(Comma),
        ],
        "integer **",
        1,
    ),
    (
        &[Terminal::Keyword(Int), Terminal::Keyword(Void)],
        "integer",
        1,
    ),
    (&[], "none", 0),
    (&[Terminal::Name(0)], "none", 0),
    (&[Terminal::Punctuator(Star)], "none", 0),
    (&[Terminal::Keyword(Const)], "none", 0),
    (&[Terminal::Keyword(Other)], "none", 0),
    (&[Terminal::Keyword(Union), Terminal::Name(0)], "none", 0),
    (&[Terminal::Keyword(Struct)], "none", 0),
    (
        &[Terminal::Keyword(Struct), Terminal::Punctuator(OpenCurly)],
        "none",
        0,
    ),
    (&[Terminal::Keyword(Enum), Terminal::Number], "none", 0),
    (
        &[Terminal::Keyword(Char), Terminal::Keyword(Unsigned)],
        "none",
        0,
    ),
    (&[Terminal::Keyword(Int), Terminal::Keyword(Int)], "none", 0),
    (
        &[
            Terminal::Keyword(Static),
            Terminal::Keyword(Extern),
            Terminal::Keyword(Int),
        ],
        "none",
        0,
    ),
    (
        &[
            Terminal::Keyword(Typedef),
            Terminal::Keyword(Int),
            Terminal::Keyword(Typedef),
        ],
        "none",
        0,
    ),
    (
        &[
            Terminal::Keyword(Unsigned),
            Terminal::Keyword(Const),
            Terminal::Keyword(Int),
        ],
        "integer",
        1,
    ),
];

/// The tokens with their numbers.
fn lexemes(alloc: Global, terminals: &[Terminal]) -> Result<Vec<Lexeme>, AllocError> {
    let mut found = Vec::new(alloc);
    let mut at = 0u32;
    for terminal in terminals {
        found.push(Lexeme {
            terminal: *terminal,
            at,
        })?;
        at = at.wrapping_add(1);
    }
    Ok(found)
}

/// Reads a type, and writes it with the number of its stars; and how many tokens are left.
fn read(alloc: Global, terminals: &[Terminal]) -> Result<(String, usize), AllocError> {
    let tokens = lexemes(alloc, terminals)?;
    let mut cursor = Cursor::new(tokens.as_slice());
    let found = match type_name(alloc, &mut cursor) {
        Ok(found) => found,
        Err(Refusal::Syntax) => return Ok((String::from_str(alloc, "none")?, 0)),
        Err(Refusal::NoMemory) => return Ok((String::from_str(alloc, "no memory")?, 0)),
    };
    let words = match &found.words {
        BareWords::Void { .. } => "void",
        BareWords::Integer { .. } => "integer",
        BareWords::Struct { .. } => "struct",
        BareWords::Enum { .. } => "enum",
        BareWords::TypeName(_) => "name",
    };
    let mut text = String::from_str(alloc, words)?;
    if !found.stars.stars.is_empty() {
        text.push(' ')?;
    }
    for _star in found.stars.stars.as_slice() {
        text.push('*')?;
    }
    Ok((text, cursor.left()))
}

#[test]
fn keywords_of_integer_types_in_any_order(rt: HostRuntime) {
    for (keywords, want) in &INTEGERS {
        assert_eq!(rt; integer_type(keywords), *want);
    }
}

#[test]
fn types_without_a_body(rt: HostRuntime) -> Result<(), AllocError> {
    for (terminals, want, left) in &TYPES {
        let (text, rest) = read(rt.alloc(), terminals)?;
        assert_eq!(rt; text.as_str(), *want);
        assert_eq!(rt; rest, *left, "behind {want}");
    }
    Ok(())
}

/// A row of 100,000 stars is read by a loop.
#[test]
fn many_stars(rt: HostRuntime) -> Result<(), AllocError> {
    let mut tokens = Vec::new(rt.alloc());
    tokens.push(Lexeme {
        terminal: Terminal::Keyword(Int),
        at: 0,
    })?;
    for at in 0..100_000u32 {
        tokens.push(Lexeme {
            terminal: Terminal::Punctuator(Punctuator::Star),
            at,
        })?;
    }
    let mut cursor = Cursor::new(tokens.as_slice());
    match type_name(rt.alloc(), &mut cursor) {
        Ok(found) => assert_eq!(rt; found.stars.stars.len(), 100_000),
        Err(_) => assert!(rt; false),
    }
    assert_eq!(rt; cursor.left(), 0);
    Ok(())
}
