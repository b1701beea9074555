//! Classes of bytes.
ghost use Rattle.std.specs.Prelude.{◌≡◌, [], ◌∷◌, MatchOption};
ghost use Rattle.cx_lex.specs.Characters.{is_word, is_digit, is_nondigit};
ghost use Rattle.cx_lex.specs.Forms.{goes_on};

/// A letter, a digit or `_`.
#[tactic(auto, unfolding(crate::specs::Characters::is_word, crate::specs::Characters::is_nondigit, crate::specs::Characters::is_digit))]
pub fn is_word(byte: u8) -> bool
    ensures { result ≡ is_word byte }
{
    byte.is_ascii_alphanumeric() || byte == b'_'
}

/// A letter or `_`.
#[tactic(auto, unfolding(crate::specs::Characters::is_nondigit))]
pub fn is_nondigit(byte: u8) -> bool
    ensures { result ≡ is_nondigit byte }
{
    byte.is_ascii_alphabetic() || byte == b'_'
}

/// A digit.
#[tactic(auto, unfolding(crate::specs::Characters::is_digit))]
pub fn is_digit(byte: u8) -> bool
    ensures { result ≡ is_digit byte }
{
    byte.is_ascii_digit()
}

/// Whether a number goes on with a byte after its byte `last` (C11 6.4.8).
#[tactic(auto, unfolding(crate::specs::Forms::goes_on))]
pub fn goes_on(last: u8, byte: u8) -> bool
    ensures { result ≡ goes_on last byte }
{
    if is_word(byte) || byte == b'.' {
        return true;
    }
    if !matches!(last, b'e' | b'E' | b'p' | b'P') {
        return false;
    }
    matches!(byte, b'+' | b'-')
}

/// The first byte, and the bytes after it.
pub fn first<'a>(bytes: &'a [u8]) -> Option<(u8, &'a [u8])>
    ensures { MatchOption result (bytes.now ≡ []) (λ x. bytes.now ≡ x.0 ∷ x.1.now) }
{
    match bytes {
        [] => None,
        [byte, rest @ ..] => Some((*byte, rest)),
    }
}
