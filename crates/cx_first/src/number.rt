//! Values of numbers.
ghost use Rattle.std.specs.Prelude.{◌≡◌, ◌+◌, ◌-◌, ◌*◌, ◌≤◌, [], ◌∷◌, MatchOption, true, false};
ghost use Rattle.cx_first.specs.Shapes.Digits.{digits_from, takes_digit, value_of};
ghost use Rattle.cx_first.specs.Numbers.{IsIntConstant, greatest, number_of};

/// The greatest value of an `int` of 32 bits.
const GREATEST: u64 = 2_147_483_647;

/// The first byte, and the bytes after it.
fn first(bytes: &[u8]) -> Option<(u8, &[u8])>
    ensures { MatchOption result (bytes.now ≡ []) (λ x. bytes.now ≡ x.0 ∷ x.1.now) }
{
    match bytes {
        [] => None,
        [byte, rest @ ..] => Some((*byte, rest)),
    }
}

/// The value of a decimal constant of type `int`, or `None` where the text is none.
pub fn number_value(text: &[u8]) -> Option<u32>
    ensures { MatchOption result (¬ IsIntConstant text.now)
        (λ value. IsIntConstant text.now × (value ≡ number_of text.now)) }
{
    value_of(text)
}

/// The same, as it is computed.
#[tactic(auto, unfolding(crate::specs::Shapes::Digits::value_of))]
pub fn value_of(text: &[u8]) -> Option<u32>
    ensures { result ≡ value_of text.now }
{
    let (byte, more) = first(text)?;
    if byte == b'0' && !more.is_empty() {
        return None;
    }
    digits_value(text)
}

#[tactic(auto, using(crate::proofs::Digits::digits_step, crate::proofs::Digits::digits_stop, crate::proofs::Digits::digits_end, crate::proofs::Digits::zero_within))]
fn digits_value(text: &[u8]) -> Option<u32>
    ensures { result ≡ digits_from 0 text.now }
{
    let mut value = 0;
    let mut rest = text;
    while let Some((byte, more)) = first(rest) {
        value = with_digit(value, byte)?;
        rest = more;
    }
    Some(value)
}

// The value with one digit more, where that is not too great.
#[tactic(auto, unfolding(crate::specs::Shapes::Digits::takes_digit, cx_lex::specs::Characters::is_digit, crate::specs::Numbers::greatest))]
fn with_digit(value: u32, byte: u8) -> Option<u32>
    requires { value ≤ greatest }
    ensures { MatchOption result (takes_digit value byte ≡ false)
        (λ more. (takes_digit value byte ≡ true) × (more ≡ 10 * value + (byte - 48))
        × (more ≤ greatest)) }
{
    if !byte.is_ascii_digit() {
        return None;
    }
    let more = 10 * u64::from(value) + u64::from(byte - b'0');
    if more > GREATEST {
        return None;
    }
    Some(more as u32)
}
