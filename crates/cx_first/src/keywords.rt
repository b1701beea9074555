//! The keywords of C (C11 6.4.1).
ghost use Rattle.std.specs.Prelude.{◌≡◌};
ghost use Rattle.cx_first.specs.Terminals as meaning;

const KEYWORDS: [&[u8]; 44] = [
    b"auto",
    b"break",
    b"case",
    b"char",
    b"const",
    b"continue",
    b"default",
    b"do",
    b"double",
    b"else",
    b"enum",
    b"extern",
    b"float",
    b"for",
    b"goto",
    b"if",
    b"inline",
    b"int",
    b"long",
    b"register",
    b"restrict",
    b"return",
    b"short",
    b"signed",
    b"sizeof",
    b"static",
    b"struct",
    b"switch",
    b"typedef",
    b"union",
    b"unsigned",
    b"void",
    b"volatile",
    b"while",
    b"_Alignas",
    b"_Alignof",
    b"_Atomic",
    b"_Bool",
    b"_Complex",
    b"_Generic",
    b"_Imaginary",
    b"_Noreturn",
    b"_Static_assert",
    b"_Thread_local",
];

/// Whether two words are equal.
pub(crate) fn equals(word: &[u8], other: &[u8]) -> bool
    ensures { result ≡ meaning.same word.now other.now }
{
    word == other
}

/// Whether a word is one of those in a table.
fn is_one_of(word: &[u8], table: &[&[u8]]) -> bool
    ensures { result ≡ meaning.is_one_of word.now table.now }
{
    for other in table {
        if equals(word, other) {
            return true;
        }
    }
    false
}

/// Whether a word is a keyword.
#[tactic(auto, unfolding(crate::specs::Terminals::is_keyword))]
pub(crate) fn is_keyword(word: &[u8]) -> bool
    ensures { result ≡ meaning.is_keyword word.now }
{
    is_one_of(word, &KEYWORDS)
}
