//! Types without a body (C11 6.7.1 to 6.7.3, 6.7.6.1 and 6.7.7).
ghost use Rattle.std.specs.Prelude.{◌≡◌, ◌≤◌, List, map, IfOk};
ghost use Rattle.cx_syntax_tree.specs.declared.expressions.TreeType.{TreeType as Types};
ghost use Rattle.cx_syntax_tree.specs.declared.terminals.Lexeme.{Lexeme as Token};
ghost use Rattle.cx_reading.specs.Parsing.{Reads, Gives};
ghost use Rattle.cx_reading.specs.TypeFronts as fronts;
ghost use Rattle.cx_reading.specs.TypeFronts.{EndsType};
ghost use Rattle.cx_reading.specs.Types as meaning;
ghost use Rattle.cx_reading.specs.Shapes.TypeParsers as parsers;

use crate::cursor::Cursor;
use crate::integers::integer_type;
use crate::refusal::Refusal;
use crate::rows::many;
use cx_syntax_tree::{
    BareWords, Keyword, KeywordAt, Lexeme, NameAt, Punctuator, Specifier, SpecifierAt, Terminal,
    TreeStar, TreeStars, TreeType,
};
use sqlite_items::Items;
use std::alloc::{AllocError, Global};

/// The specifier that a keyword is (C11 6.7.1 and 6.7.3).
pub fn specifier_of(keyword: Keyword) -> Option<Specifier>
    ensures { result ≡ meaning.specifier_of keyword }
{
    match keyword {
        Keyword::Typedef => Some(Specifier::Typedef),
        Keyword::Static => Some(Specifier::Static),
        Keyword::Extern => Some(Specifier::Extern),
        Keyword::Const => Some(Specifier::Const),
        _ => None,
    }
}

/// The specifier that a token is.
#[tactic(auto, unfolding(crate::specs::Shapes::TypeParsers::specifier_at))]
fn specifier_at(token: Lexeme) -> Option<SpecifierAt>
    ensures { result ≡ parsers.specifier_at token }
{
    match token.terminal {
        Terminal::Keyword(keyword) => match specifier_of(keyword) {
            Some(specifier) => Some(SpecifierAt {
                specifier,
                at: token.at,
            }),
            None => None,
        },
        _ => None,
    }
}

/// The keyword of an integer type that a token is.
#[tactic(auto, unfolding(crate::specs::Shapes::TypeParsers::keyword_at))]
fn keyword_at(token: Lexeme) -> Option<KeywordAt>
    ensures { result ≡ parsers.keyword_at token }
{
    match token.terminal {
        Terminal::Keyword(
            keyword @ (Keyword::Short
            | Keyword::Int
            | Keyword::Long
            | Keyword::Signed
            | Keyword::Unsigned
            | Keyword::Char
            | Keyword::Bool),
        ) => Some(KeywordAt {
            keyword,
            at: token.at,
        }),
        _ => None,
    }
}

/// The place of a `const`.
#[tactic(auto, unfolding(crate::specs::Shapes::TypeParsers::const_at))]
fn const_at(token: Lexeme) -> Option<u32>
    ensures { result ≡ parsers.const_at token }
{
    match token.terminal {
        Terminal::Keyword(Keyword::Const) => Some(token.at),
        _ => None,
    }
}

/// Reads a specifier, if one comes next.
#[tactic(auto, unfolding(crate::specs::Parsing::one_of))]
pub fn specifier(cursor: &mut Cursor<'_>) -> Result<Option<SpecifierAt>, Refusal>
    ensures { Reads (parsers.specifier cursor.old) result cursor.new }
{
    let Some(token) = cursor.next() else {
        return Ok(None);
    };
    let Some(found) = specifier_at(token) else {
        return Ok(None);
    };
    cursor.take()?;
    Ok(Some(found))
}

/// Reads a keyword of an integer type, if one comes next.
#[tactic(auto, unfolding(crate::specs::Parsing::one_of))]
fn integer_word(cursor: &mut Cursor<'_>) -> Result<Option<KeywordAt>, Refusal>
    ensures { Reads (parsers.integer_word cursor.old) result cursor.new }
{
    let Some(token) = cursor.next() else {
        return Ok(None);
    };
    let Some(found) = keyword_at(token) else {
        return Ok(None);
    };
    cursor.take()?;
    Ok(Some(found))
}

/// Reads a `const`, if one comes next.
#[tactic(auto, unfolding(crate::specs::Parsing::one_of))]
fn constant(cursor: &mut Cursor<'_>) -> Result<Option<u32>, Refusal>
    ensures { Reads (parsers.constant cursor.old) result cursor.new }
{
    let Some(token) = cursor.next() else {
        return Ok(None);
    };
    let Some(found) = const_at(token) else {
        return Ok(None);
    };
    cursor.take()?;
    Ok(Some(found))
}

/// Reads all specifiers that come next.
#[tactic(auto, unfolding(crate::specs::Shapes::TypeParsers::specifiers))]
pub fn specifiers(alloc: Global, cursor: &mut Cursor<'_>) -> Result<Items<SpecifierAt>, Refusal>
    ensures { Reads (parsers.specifiers cursor.old) result cursor.new }
{
    many(alloc, cursor, specifier)
}

/// Reads a `*` and the `const`s behind it, if one comes next (C11 6.7.6.1).
#[tactic(auto, unfolding(crate::specs::Shapes::TypeParsers::star))]
fn star(alloc: Global, cursor: &mut Cursor<'_>) -> Result<Option<TreeStar>, Refusal>
    ensures { Reads (parsers.star cursor.old) result cursor.new }
{
    let Some(at) = cursor.eat(Punctuator::Star) else {
        return Ok(None);
    };
    let constants = many(alloc, cursor, constant)?;
    Ok(Some(TreeStar { at, constants }))
}

/// Reads all stars that come next (C11 6.7.6.1).
#[tactic(auto, unfolding(crate::specs::Shapes::TypeParsers::stars))]
pub fn stars(alloc: Global, cursor: &mut Cursor<'_>) -> Result<TreeStars, Refusal>
    ensures { Reads (parsers.stars cursor.old) result cursor.new }
{
    let stars = many(alloc, cursor, |cursor: &mut Cursor<'_>| star(alloc, cursor))?;
    Ok(TreeStars { stars })
}

/// The keywords alone.
fn keywords_of(alloc: Global, keywords: &[KeywordAt]) -> Result<Vec<Keyword>, AllocError>
    ensures { IfOk result (λ v. v.items ≡ map (λ k. k.keyword) keywords.now) }
{
    keywords.iter().map(|k| k.keyword).collect(alloc)
}

/// Reads the keywords of an integer type (C11 6.7.2).
#[tactic(auto, unfolding(crate::specs::Shapes::TypeParsers::integer_words))]
fn integer_words(alloc: Global, cursor: &mut Cursor<'_>) -> Result<BareWords, Refusal>
    ensures { Reads (parsers.integer_words cursor.old) result cursor.new }
{
    let keywords = many(alloc, cursor, integer_word)?;
    let found = keywords_of(alloc, keywords.as_slice())?;
    match integer_type(found.as_slice()) {
        Some(integer) => Ok(BareWords::Integer { keywords, integer }),
        None => Err(Refusal::Syntax),
    }
}

/// Reads a type without a body, but no specifier and no star (C11 6.7.2).
#[tactic(auto, unfolding(crate::specs::Shapes::TypeParsers::bare_words))]
pub fn bare_words(alloc: Global, cursor: &mut Cursor<'_>) -> Result<BareWords, Refusal>
    ensures { Reads (parsers.bare_words cursor.old) result cursor.new }
{
    match cursor.terminal() {
        Terminal::Keyword(Keyword::Void) => {
            let token = cursor.take()?;
            Ok(BareWords::Void { at: token.at })
        }
        Terminal::Keyword(Keyword::Struct) => {
            let token = cursor.take()?;
            let tag = cursor.tag_name()?;
            Ok(BareWords::Struct { at: token.at, tag })
        }
        Terminal::Keyword(Keyword::Enum) => {
            let token = cursor.take()?;
            let tag = cursor.tag_name()?;
            Ok(BareWords::Enum { at: token.at, tag })
        }
        Terminal::Keyword(_) => integer_words(alloc, cursor),
        Terminal::TypeName(name) => {
            let token = cursor.take()?;
            Ok(BareWords::TypeName(NameAt { name, at: token.at }))
        }
        _ => Err(Refusal::Syntax),
    }
}

/// 1 for a storage-class specifier, 0 for `const`.
fn is_storage(found: SpecifierAt) -> usize
    ensures value { result ≡ meaning.is_storage found }
    ensures bound { result ≤ 1 }
{
    match found.specifier {
        Specifier::Const => 0,
        _ => 1,
    }
}

/// How many storage-class specifiers there are.
#[tactic(auto, unfolding(crate::specs::Types::storage_count))]
fn storage_count(specifiers: &[SpecifierAt]) -> usize
    ensures { result ≡ meaning.storage_count specifiers.now }
{
    let mut count = 0;
    for found in specifiers {
        count += is_storage(*found);
    }
    count
}

/// Whether there is at most one storage-class specifier (C11 6.7.1p2).
#[tactic(auto, unfolding(crate::specs::Shapes::TypeParsers::one_storage))]
pub fn one_storage(before: &[SpecifierAt], behind: &[SpecifierAt]) -> bool
    ensures { result ≡ parsers.one_storage before.now behind.now }
{
    let first = storage_count(before);
    let second = storage_count(behind);
    if first <= 1 {
        second <= 1 - first
    } else {
        false
    }
}

/// Reads the name of a type.
#[tactic(auto, unfolding(crate::specs::Shapes::TypeParsers::type_name))]
fn parts_of_type(alloc: Global, cursor: &mut Cursor<'_>) -> Result<TreeType, Refusal>
    ensures { Reads (parsers.type_name cursor.old) result cursor.new }
{
    let before = specifiers(alloc, cursor)?;
    let words = bare_words(alloc, cursor)?;
    let behind = specifiers(alloc, cursor)?;
    let stars = stars(alloc, cursor)?;
    if one_storage(before.as_slice(), behind.as_slice()) {
        Ok(TreeType {
            before,
            words,
            behind,
            stars,
        })
    } else {
        Err(Refusal::Syntax)
    }
}

/// Reads the name of a type: specifiers and a type without a body, then stars (C11 6.7.7).
pub fn type_name(alloc: Global, cursor: &mut Cursor<'_>) -> Result<TreeType, Refusal>
    ensures reads { Reads (parsers.type_name cursor.old) result cursor.new }
    ensures found { IfOk result (λ t. meaning.IsType cursor.old t cursor.new) }
    ensures only { (t : Types) (rest : List Token) → meaning.IsType cursor.old t rest
        → EndsType rest
        → Gives t rest result cursor.new }
{
    parts_of_type(alloc, cursor)
}

/// Whether a token begins a type.
#[tactic(auto, unfolding(crate::specs::TypeFronts::begins_type))]
pub fn begins_type(terminal: Terminal) -> bool
    ensures { result ≡ fronts.begins_type terminal }
{
    matches!(
        terminal,
        Terminal::TypeName(_)
            | Terminal::Keyword(
                Keyword::Typedef
                    | Keyword::Static
                    | Keyword::Extern
                    | Keyword::Const
                    | Keyword::Void
                    | Keyword::Struct
                    | Keyword::Enum
                    | Keyword::Short
                    | Keyword::Int
                    | Keyword::Long
                    | Keyword::Signed
                    | Keyword::Unsigned
                    | Keyword::Char
                    | Keyword::Bool
            )
    )
}
