//! The integer type that keywords name (C11 6.7.2p2).
ghost use Rattle.std.specs.Prelude.{◌≡◌, ◌==◌, [], ◌∷◌, map, MatchOption};
ghost use Rattle.std.specs.List.{list_all};
ghost use Rattle.cx_syntax_tree.specs.declared.terminals.Keyword.TheVariants as word;
ghost use Rattle.cx_reading.specs.Types as meaning;

use cx_syntax_tree::Keyword;
use cx_tree::IntType;

/// Each set of keywords and its type, but those with `_Bool` and `char`.
const ROWS: [(&[Keyword], IntType); 23] = [
    (&[Keyword::Short], IntType::Short),
    (&[Keyword::Signed, Keyword::Short], IntType::Short),
    (&[Keyword::Short, Keyword::Int], IntType::Short),
    (
        &[Keyword::Signed, Keyword::Short, Keyword::Int],
        IntType::Short,
    ),
    (&[Keyword::Unsigned, Keyword::Short], IntType::UnsignedShort),
    (
        &[Keyword::Unsigned, Keyword::Short, Keyword::Int],
        IntType::UnsignedShort,
    ),
    (&[Keyword::Int], IntType::Int),
    (&[Keyword::Signed], IntType::Int),
    (&[Keyword::Signed, Keyword::Int], IntType::Int),
    (&[Keyword::Unsigned], IntType::UnsignedInt),
    (&[Keyword::Unsigned, Keyword::Int], IntType::UnsignedInt),
    (&[Keyword::Long], IntType::Long),
    (&[Keyword::Signed, Keyword::Long], IntType::Long),
    (&[Keyword::Long, Keyword::Int], IntType::Long),
    (
        &[Keyword::Signed, Keyword::Long, Keyword::Int],
        IntType::Long,
    ),
    (&[Keyword::Unsigned, Keyword::Long], IntType::UnsignedLong),
    (
        &[Keyword::Unsigned, Keyword::Long, Keyword::Int],
        IntType::UnsignedLong,
    ),
    (&[Keyword::Long, Keyword::Long], IntType::LongLong),
    (
        &[Keyword::Signed, Keyword::Long, Keyword::Long],
        IntType::LongLong,
    ),
    (
        &[Keyword::Long, Keyword::Long, Keyword::Int],
        IntType::LongLong,
    ),
    (
        &[Keyword::Signed, Keyword::Long, Keyword::Long, Keyword::Int],
        IntType::LongLong,
    ),
    (
        &[Keyword::Unsigned, Keyword::Long, Keyword::Long],
        IntType::UnsignedLongLong,
    ),
    (
        &[
            Keyword::Unsigned,
            Keyword::Long,
            Keyword::Long,
            Keyword::Int,
        ],
        IntType::UnsignedLongLong,
    ),
];

/// A number of its own for each keyword of an integer type, and 0 for the others.
fn keyword_number(keyword: Keyword) -> u8
    ensures { result ≡ meaning.keyword_number keyword }
{
    match keyword {
        Keyword::Short => 1,
        Keyword::Int => 2,
        Keyword::Long => 3,
        Keyword::Signed => 4,
        Keyword::Unsigned => 5,
        Keyword::Char => 6,
        Keyword::Bool => 7,
        _ => 0,
    }
}

/// Whether two keywords of integer types are equal.
fn same_keyword(keyword: Keyword, other: Keyword) -> bool
    ensures { result ≡ meaning.same_keyword keyword other }
{
    keyword_number(keyword) == keyword_number(other)
}

/// How often a keyword stands among others.
#[tactic(auto, unfolding(crate::specs::Types::occurrences))]
fn occurrences(keyword: Keyword, keywords: &[Keyword]) -> usize
    ensures { result ≡ meaning.occurrences keyword keywords.now }
{
    keywords
        .iter()
        .filter(|other| same_keyword(keyword, **other))
        .count()
}

/// Whether a keyword stands as often in either list.
fn is_as_often(keyword: Keyword, row: &[Keyword], keywords: &[Keyword]) -> bool
    ensures { result ≡ (meaning.occurrences keyword row.now
        == meaning.occurrences keyword keywords.now) }
{
    occurrences(keyword, row) == occurrences(keyword, keywords)
}

/// Whether each keyword stands as often in either list.
fn are_as_often(row: &[Keyword], keywords: &[Keyword]) -> bool
    ensures { result ≡ list_all
        (λ k. meaning.occurrences k row.now == meaning.occurrences k keywords.now) keywords.now }
{
    for keyword in keywords {
        if !is_as_often(*keyword, row, keywords) {
            return false;
        }
    }
    true
}

/// Whether the keywords are those of the row, in any order.
#[tactic(auto, unfolding(crate::specs::Types::is_rearranged))]
fn is_rearranged(row: &[Keyword], keywords: &[Keyword]) -> bool
    ensures { result ≡ meaning.is_rearranged row.now keywords.now }
{
    if row.len() == keywords.len() {
        are_as_often(row, keywords)
    } else {
        false
    }
}

/// The type of the first row of a table that the keywords are in any order.
#[tactic(auto, unfolding(crate::specs::Types::type_of_row))]
fn type_of_row(keywords: &[Keyword], mut table: &[(&[Keyword], IntType)]) -> Option<IntType>
    ensures { result ≡ meaning.type_of_row keywords.now (map (λ r.
        (r.0.now, r.1)) table.entry.now) }
{
    while let [row, rest @ ..] = table {
        if is_rearranged(row.0, keywords) {
            return Some(row.1);
        }
        table = rest;
    }
    None
}

/// The type of the first row that the keywords are in any order.
fn by_rows(keywords: &[Keyword]) -> Option<IntType>
    ensures { result ≡ meaning.type_of_row keywords.now meaning.rows }
{
    type_of_row(keywords, &ROWS)
}

/// The front keyword and those behind it.
fn split(keywords: &[Keyword]) -> Option<(Keyword, &[Keyword])>
    ensures { MatchOption result (keywords.now ≡ []) (λ x. keywords.now ≡ x.0 ∷ x.1.now) }
{
    match keywords {
        [] => None,
        [keyword, rest @ ..] => Some((*keyword, rest)),
    }
}

/// The type of keywords that begin with `signed`.
fn signed_type(rest: &[Keyword], keywords: &[Keyword]) -> Option<IntType>
    requires { keywords.now ≡ word.Signed ∷ rest.now }
    ensures { result ≡ meaning.integer_type (word.Signed ∷ rest.now) }
{
    match split(rest) {
        None => by_rows(keywords),
        Some((second, more)) => match second {
            Keyword::Char => match split(more) {
                None => Some(IntType::SignedChar),
                Some(_) => by_rows(keywords),
            },
            _ => by_rows(keywords),
        },
    }
}

/// The type of keywords that begin with `unsigned`.
fn unsigned_type(rest: &[Keyword], keywords: &[Keyword]) -> Option<IntType>
    requires { keywords.now ≡ word.Unsigned ∷ rest.now }
    ensures { result ≡ meaning.integer_type (word.Unsigned ∷ rest.now) }
{
    match split(rest) {
        None => by_rows(keywords),
        Some((second, more)) => match second {
            Keyword::Char => match split(more) {
                None => Some(IntType::UnsignedChar),
                Some(_) => by_rows(keywords),
            },
            _ => by_rows(keywords),
        },
    }
}

/// The integer type that the keywords name. Those with `char` are read in the order of C11 6.7.2p2
/// alone, all others in any order.
pub fn integer_type(keywords: &[Keyword]) -> Option<IntType>
    ensures { result ≡ meaning.integer_type keywords.now }
{
    match split(keywords) {
        None => by_rows(keywords),
        Some((first, rest)) => match first {
            Keyword::Bool => match split(rest) {
                None => Some(IntType::Bool),
                Some(_) => by_rows(keywords),
            },
            Keyword::Char => match split(rest) {
                None => Some(IntType::Char),
                Some(_) => by_rows(keywords),
            },
            Keyword::Signed => signed_type(rest, keywords),
            Keyword::Unsigned => unsigned_type(rest, keywords),
            _ => by_rows(keywords),
        },
    }
}
