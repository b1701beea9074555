//! What a token is to macro replacement.
ghost use Rattle.std.specs.Prelude.{◌≡◌};
ghost use Rattle.cx_tokens.specs.Simplified as simplified;
ghost use Rattle.cx_macro.specs.Arguments as arguments;
ghost use Rattle.cx_macro.specs.Macros as macros;
ghost use Rattle.cx_macro.specs.Replacement as replacement;

use cx_tokens::{Kind, Token, is_punctuator};

pub(crate) fn is_open(token: &Token) -> bool
    ensures { result ≡ arguments.is_open token.now }
{
    is_punctuator(b"(", token)
}

pub(crate) fn is_close(token: &Token) -> bool
    ensures { result ≡ arguments.is_close token.now }
{
    is_punctuator(b")", token)
}

pub(crate) fn is_comma(token: &Token) -> bool
    ensures { result ≡ arguments.is_comma token.now }
{
    is_punctuator(b",", token)
}

pub(crate) fn is_hash(token: &Token) -> bool
    ensures { result ≡ macros.is_hash token.now }
{
    is_punctuator(b"#", token)
}

pub(crate) fn is_paste(token: &Token) -> bool
    ensures { result ≡ macros.is_paste token.now }
{
    is_punctuator(b"##", token)
}

pub(crate) fn is_name(kind: Kind) -> bool
    ensures { result ≡ simplified.is_name kind }
{
    matches!(kind, Kind::Name)
}

pub(crate) fn is_quoted(kind: Kind) -> bool
    ensures { result ≡ replacement.is_quoted kind }
{
    matches!(kind, Kind::Char | Kind::String)
}
