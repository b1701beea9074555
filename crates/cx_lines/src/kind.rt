//! What a line is.
ghost use Rattle.std.specs.Prelude.{◌≡◌, if◌then◌else◌, bytes_eq};
ghost use Rattle.std.specs.List.{list_any};
ghost use Rattle.cx_lines.specs.Kinds.{closes, directive_kind, ends_group, is_text, is_word, kind_after_hash, kind_of, named_kind, opens, parts, passed_words, pragma_kind};
ghost use Rattle.cx_lines.specs.declared.kind.LineKind.TheVariants.{Bad, Passed};

use cx_lex::Piece;
use cx_tokens::{Kind, Token, is_punctuator};

/// What a line is: text, or a directive (C11 6.10).
#[derive(Clone, Copy, Debug, PartialEq, Eq)]
pub enum LineKind {
    /// No directive.
    Text,
    If,
    Ifdef,
    Ifndef,
    Elif,
    Else,
    Endif,
    Include,
    Define,
    Undef,
    Error,
    /// `pragma once`
    Once,
    /// A directive that says nothing here: a `#` alone, a line marker, any other pragma, `line`,
    /// `warning` and those of GNU that real headers have.
    Passed,
    /// A `#` with something after it that is no directive.
    Bad,
}

impl LineKind {
    /// Whether it opens a section (C11 6.10, if-group).
    pub fn opens(self) -> bool
        ensures { result ≡ opens self }
    {
        matches!(self, LineKind::If | LineKind::Ifdef | LineKind::Ifndef)
    }

    /// Whether it ends a group of a section and begins another.
    pub fn parts(self) -> bool
        ensures { result ≡ parts self }
    {
        matches!(self, LineKind::Elif | LineKind::Else)
    }

    /// Whether it ends a section.
    pub fn closes(self) -> bool
        ensures { result ≡ closes self }
    {
        self == LineKind::Endif
    }

    /// Whether it ends a group of a section.
    pub fn ends_group(self) -> bool
        ensures { result ≡ ends_group self }
    {
        self.parts() || self.closes()
    }

    /// Whether it is no directive.
    pub fn is_text(self) -> bool
        ensures { result ≡ is_text self }
    {
        self == LineKind::Text
    }
}

/// The directives that say nothing here: `warning`, `line` and some of GNU's.
const PASSED: [&[u8]; 7] = [
    b"warning",
    b"line",
    b"include_next",
    b"ident",
    b"sccs",
    b"assert",
    b"unassert",
];

/// Whether a directive of this name says nothing here.
fn is_passed(word: &[u8]) -> bool
    ensures { result ≡ list_any (bytes_eq word.now) passed_words }
{
    for passed in PASSED {
        if word == passed {
            return true;
        }
    }
    false
}

/// A directive by its name, but `pragma`.
#[tactic(auto, unfolding(crate::specs::Kinds::named_kind))]
fn named_kind(word: &[u8]) -> LineKind
    ensures { result ≡ named_kind word.now }
{
    if word == b"if".as_slice() {
        return LineKind::If;
    }
    if word == b"ifdef".as_slice() {
        return LineKind::Ifdef;
    }
    if word == b"ifndef".as_slice() {
        return LineKind::Ifndef;
    }
    if word == b"elif".as_slice() {
        return LineKind::Elif;
    }
    if word == b"else".as_slice() {
        return LineKind::Else;
    }
    if word == b"endif".as_slice() {
        return LineKind::Endif;
    }
    if word == b"include".as_slice() {
        return LineKind::Include;
    }
    if word == b"define".as_slice() {
        return LineKind::Define;
    }
    if word == b"undef".as_slice() {
        return LineKind::Undef;
    }
    if word == b"error".as_slice() {
        return LineKind::Error;
    }
    passed_or_bad(word)
}

/// What a directive of another name is.
fn passed_or_bad(word: &[u8]) -> LineKind
    ensures { result ≡ (if list_any (bytes_eq word.now) passed_words then Passed else Bad) }
{
    if is_passed(word) {
        LineKind::Passed
    } else {
        LineKind::Bad
    }
}

/// Whether a token is the name of this text.
fn is_word(word: &[u8], token: &Token) -> bool
    ensures { result ≡ is_word word.now token.now }
{
    token.kind == Kind::Name && token.text.as_slice() == word
}

/// A `pragma` by what stands after that word.
#[tactic(auto, unfolding(crate::specs::Kinds::pragma_kind))]
fn pragma_kind(rest: &[Piece]) -> LineKind
    ensures { result ≡ pragma_kind rest.now }
{
    let Some(piece) = rest.first() else {
        return LineKind::Passed;
    };
    if is_word(b"once", &piece.token) {
        LineKind::Once
    } else {
        LineKind::Passed
    }
}

/// A directive by the token after its `#`.
#[tactic(auto, unfolding(crate::specs::Kinds::kind_after_hash))]
fn kind_after_hash(token: &Token, rest: &[Piece]) -> LineKind
    ensures { result ≡ kind_after_hash token.now.kind token.now.text rest.now }
{
    let word = token.text.as_slice();
    match token.kind {
        Kind::Number => LineKind::Passed,
        Kind::Name => {
            if word == b"pragma".as_slice() {
                return pragma_kind(rest);
            }
            named_kind(word)
        }
        _ => LineKind::Bad,
    }
}

/// A directive by what stands after its `#`.
#[tactic(auto, unfolding(crate::specs::Kinds::directive_kind))]
fn directive_kind(behind: &[Piece]) -> LineKind
    ensures { result ≡ directive_kind behind.now }
{
    let Some((first, rest)) = behind.split_first() else {
        return LineKind::Passed;
    };
    kind_after_hash(&first.token, rest)
}

/// What a line is.
#[tactic(auto, unfolding(crate::specs::Kinds::kind_of))]
pub fn kind_of(line: &[Piece]) -> LineKind
    ensures { result ≡ kind_of line.now }
{
    let Some((hash, behind)) = line.split_first() else {
        return LineKind::Text;
    };
    if is_punctuator(b"#", &hash.token) {
        directive_kind(behind)
    } else {
        LineKind::Text
    }
}
