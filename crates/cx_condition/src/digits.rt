//! Digits of the bases of constants.
ghost use Rattle.std.specs.Prelude.{◌≡◌, ℕ, ◌+◌, ◌*◌, ◌<◌, ◌≤◌, MatchOption, None, Some};
ghost use Rattle.cx_condition.specs.Digits.{begins_with_digit, digit_of, is_digit, radix};
ghost use Rattle.cx_condition.specs.Shapes.Reading.{digits_read, grown};

use crate::bytes::first;

/// The base of a constant (C11 6.4.4.1).
#[derive(Clone, Copy, Debug, PartialEq, Eq)]
pub enum Base {
    Octal,
    Decimal,
    Hexadecimal,
}

fn radix(base: Base) -> u8
    ensures { result ≡ radix base }
{
    match base {
        Base::Octal => 8,
        Base::Decimal => 10,
        Base::Hexadecimal => 16,
    }
}

// What a digit counts; 16 for what is none.
#[tactic(auto, unfolding(crate::specs::Digits::digit_of))]
fn digit_of(byte: u8) -> u8
    ensures value { result ≡ digit_of byte }
    ensures bound { result ≤ 16 }
{
    match byte {
        b'0'..=b'9' => byte - b'0',
        b'a'..=b'f' => byte - b'a' + 10,
        b'A'..=b'F' => byte - b'A' + 10,
        _ => 16,
    }
}

#[tactic(auto, unfolding(crate::specs::Digits::is_digit))]
pub fn is_digit(base: Base, byte: u8) -> bool
    ensures { result ≡ is_digit base byte }
{
    digit_of(byte) < radix(base)
}

#[tactic(auto, unfolding(crate::specs::Digits::begins_with_digit))]
pub fn begins_with_digit(base: Base, text: &[u8]) -> bool
    ensures { result ≡ begins_with_digit base text.now }
{
    let Some((byte, _)) = first(text) else {
        return false;
    };
    is_digit(base, byte)
}

// A value with one digit more, where 64 bits hold it.
#[tactic(auto, unfolding(crate::specs::Shapes::Reading::grown))]
fn grown(base: Base, value: u64, byte: u8) -> Option<u64>
    ensures { result ≡ grown base value byte }
{
    let more = u128::from(radix(base)) * u128::from(value) + u128::from(digit_of(byte));
    if more > 18_446_744_073_709_551_615 {
        return None;
    }
    Some(more as u64)
}

/// The value of the digits in front, where 64 bits hold it, and what is behind them.
#[tactic(auto, using(crate::proofs::DigitLaws::read_end, crate::proofs::DigitLaws::read_stop, crate::proofs::DigitLaws::read_more, crate::proofs::DigitLaws::read_great))]
pub fn digits<'a>(base: Base, text: &'a [u8]) -> Option<(u64, &'a [u8])>
    ensures { MatchOption result (digits_read base 0 text.now ≡ None)
        (λ x. digits_read base 0 text.now ≡ Some (x.0, x.1.now)) }
{
    let mut value = 0;
    let mut rest = text;
    while let Some((byte, more)) = first(rest) {
        if !is_digit(base, byte) {
            return Some((value, rest));
        }
        value = grown(base, value, byte)?;
        rest = more;
    }
    Some((value, rest))
}
