//! The keywords of C (C11 6.4.1).
ghost use Rattle.std.specs.Prelude.{◌≡◌};
ghost use Rattle.cx_terminals.specs.Terminals.{keywords, looked_up};

use crate::table::looked_up;
use cx_syntax_tree::Keyword;

const KEYWORDS: [(&[u8], Keyword); 44] = [
    (b"auto", Keyword::Other),
    (b"break", Keyword::Break),
    (b"case", Keyword::Case),
    (b"char", Keyword::Char),
    (b"const", Keyword::Const),
    (b"continue", Keyword::Continue),
    (b"default", Keyword::Default),
    (b"do", Keyword::Do),
    (b"double", Keyword::Other),
    (b"else", Keyword::Else),
    (b"enum", Keyword::Enum),
    (b"extern", Keyword::Extern),
    (b"float", Keyword::Other),
    (b"for", Keyword::For),
    (b"goto", Keyword::Goto),
    (b"if", Keyword::If),
    (b"inline", Keyword::Other),
    (b"int", Keyword::Int),
    (b"long", Keyword::Long),
    (b"register", Keyword::Other),
    (b"restrict", Keyword::Other),
    (b"return", Keyword::Return),
    (b"short", Keyword::Short),
    (b"signed", Keyword::Signed),
    (b"sizeof", Keyword::Sizeof),
    (b"static", Keyword::Static),
    (b"struct", Keyword::Struct),
    (b"switch", Keyword::Switch),
    (b"typedef", Keyword::Typedef),
    (b"union", Keyword::Union),
    (b"unsigned", Keyword::Unsigned),
    (b"void", Keyword::Void),
    (b"volatile", Keyword::Other),
    (b"while", Keyword::While),
    (b"_Alignas", Keyword::Other),
    (b"_Alignof", Keyword::Other),
    (b"_Atomic", Keyword::Other),
    (b"_Bool", Keyword::Bool),
    (b"_Complex", Keyword::Other),
    (b"_Generic", Keyword::Other),
    (b"_Imaginary", Keyword::Other),
    (b"_Noreturn", Keyword::Other),
    (b"_Static_assert", Keyword::Other),
    (b"_Thread_local", Keyword::Other),
];

/// The keyword with a text.
pub(crate) fn keyword(text: &[u8]) -> Option<Keyword>
    ensures { result ≡ looked_up text.now keywords }
{
    looked_up(text, &KEYWORDS)
}
