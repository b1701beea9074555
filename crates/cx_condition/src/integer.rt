//! Integer constants (C11 6.4.4.1).
ghost use Rattle.std.specs.Prelude.{◌≡◌, true, false, drop, MatchOption};
ghost use Rattle.cx_condition.specs.Constants.{begins_hexadecimal, begins_with_zero, constant_of, integer_constant, is_unsigned_suffix, long_front, long_front_of, suffix_of, suffixed, unsigned_ended, unsigned_or_ended};

use crate::bytes::first;
use crate::digits::{Base, begins_with_digit, digits};

/// How long the type is that a suffix asks for.
#[derive(Clone, Copy, Debug, PartialEq, Eq)]
pub enum Length {
    Plain,
    Long,
    LongLong,
}

/// An integer constant.
#[derive(Clone, Copy, Debug, PartialEq, Eq)]
pub struct IntegerConstant {
    pub value: u64,
    pub base: Base,
    /// Whether its suffix has `u` or `U`.
    pub is_unsigned: bool,
    pub length: Length,
}

// What the suffix of a constant says (C11 6.4.4.1).
#[derive(Clone, Copy)]
struct Suffix {
    is_unsigned: bool,
    length: Length,
}

fn is_unsigned_suffix(byte: u8) -> bool
    ensures { result ≡ is_unsigned_suffix byte }
{
    byte == b'u' || byte == b'U'
}

// The length that the front of a text tells, and what is behind that.
#[tactic(auto, unfolding(crate::specs::Constants::long_front))]
fn long_front<'a>(text: &'a [u8]) -> (Length, &'a [u8])
    ensures { long_front text.now ≡ long_front_of result.0 result.1.now }
{
    let Some((letter, more)) = first(text) else {
        return (Length::Plain, text);
    };
    if letter != b'l' && letter != b'L' {
        return (Length::Plain, text);
    }
    let Some((next, rest)) = first(more) else {
        return (Length::Long, more);
    };
    if letter == next {
        return (Length::LongLong, rest);
    }
    (Length::Long, more)
}

// What is left behind an unsigned suffix.
fn unsigned_ended(text: &[u8]) -> Option<Suffix>
    ensures { result ≡ unsigned_ended (long_front text.now) }
{
    let (length, rest) = long_front(text);
    if !rest.is_empty() {
        return None;
    }
    Some(Suffix {
        is_unsigned: true,
        length,
    })
}

// A suffix that does not begin with an unsigned one.
fn unsigned_or_ended(text: &[u8]) -> Option<Suffix>
    ensures { result ≡ unsigned_or_ended (long_front text.now) }
{
    let (length, rest) = long_front(text);
    let Some((letter, more)) = first(rest) else {
        return Some(Suffix {
            is_unsigned: false,
            length,
        });
    };
    if !more.is_empty() || !is_unsigned_suffix(letter) {
        return None;
    }
    Some(Suffix {
        is_unsigned: true,
        length,
    })
}

#[tactic(auto, unfolding(crate::specs::Constants::suffix_of))]
fn suffix_of(text: &[u8]) -> Option<Suffix>
    ensures { result ≡ suffix_of text.now }
{
    let Some((letter, rest)) = first(text) else {
        return Some(Suffix {
            is_unsigned: false,
            length: Length::Plain,
        });
    };
    if is_unsigned_suffix(letter) {
        return unsigned_ended(rest);
    }
    unsigned_or_ended(text)
}

#[tactic(auto, unfolding(crate::specs::Constants::suffixed))]
fn suffixed(base: Base, value: u64, text: &[u8]) -> Option<IntegerConstant>
    ensures { result ≡ suffixed base value text.now }
{
    let suffix = suffix_of(text)?;
    Some(IntegerConstant {
        value,
        base,
        is_unsigned: suffix.is_unsigned,
        length: suffix.length,
    })
}

#[tactic(auto, unfolding(crate::specs::Constants::begins_with_zero))]
fn begins_with_zero(text: &[u8]) -> bool
    ensures { result ≡ begins_with_zero text.now }
{
    let Some((byte, _)) = first(text) else {
        return false;
    };
    byte == b'0'
}

// What is behind `0x` or `0X`.
#[tactic(auto, unfolding(crate::specs::Constants::begins_hexadecimal))]
fn after_prefix<'a>(text: &'a [u8]) -> Option<&'a [u8]>
    ensures { MatchOption result (begins_hexadecimal text.now ≡ false) (λ rest.
        (begins_hexadecimal text.now ≡ true) × (rest.now ≡ drop 2 text.now)) }
{
    let (zero, more) = first(text)?;
    let (letter, rest) = first(more)?;
    if zero == b'0' && (letter == b'x' || letter == b'X') {
        return Some(rest);
    }
    None
}

#[tactic(auto, using(crate::proofs::DigitLaws::constant_none, crate::proofs::DigitLaws::constant_great, crate::proofs::DigitLaws::constant_some))]
fn constant_of(base: Base, text: &[u8]) -> Option<IntegerConstant>
    ensures { result ≡ constant_of base text.now }
{
    if !begins_with_digit(base, text) {
        return None;
    }
    let (value, rest) = digits(base, text)?;
    suffixed(base, value, rest)
}

/// The integer constant that a text spells, or `None` where it spells none, or one of a value
/// above 18446744073709551615.
#[tactic(auto, unfolding(crate::specs::Constants::integer_constant))]
pub fn integer_constant(text: &[u8]) -> Option<IntegerConstant>
    ensures { result ≡ integer_constant text.now }
{
    if let Some(digits) = after_prefix(text) {
        return constant_of(Base::Hexadecimal, digits);
    }
    if begins_with_zero(text) {
        return constant_of(Base::Octal, text);
    }
    constant_of(Base::Decimal, text)
}
