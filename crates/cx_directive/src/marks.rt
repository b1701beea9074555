//! What a token is to a directive.
ghost use Rattle.std.specs.Prelude.{◌≡◌, ◌&&◌, bytes_eq};
ghost use Rattle.cx_tokens.specs.Simplified.{is_name};

use cx_tokens::{Kind, Token};

/// Whether a token is a name.
pub fn is_name(token: &Token) -> bool
    ensures { result ≡ is_name token.now.kind }
{
    matches!(token.kind, Kind::Name)
}

/// Whether a token is this name.
pub(crate) fn is_named(name: &[u8], token: &Token) -> bool
    ensures { result ≡ (is_name token.now.kind && bytes_eq token.now.text name.now) }
{
    is_name(token) && token.text.as_slice() == name
}
