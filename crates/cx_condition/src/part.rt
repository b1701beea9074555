//! The parts of a condition.
ghost use Rattle.std.specs.Prelude.{◌≡◌, [], ◌∷◌, ◌++◌, ◌<◌, ◌^◌, ◌||◌, nat_lt, MatchOption, IfOk, false};
ghost use Rattle.cx_condition.specs.Shapes.NextPart.{NextIs};
ghost use Rattle.std.specs.Int.{cast_signed, w8};
ghost use Rattle.cx_condition.specs.Parts.{begins_joined_char, char_part, constant, double_sign, is_char, is_name, is_prefix, is_prefix_text, number_part, part_of, parts_behind, sign_part, single_sign, wide_part};
ghost use Rattle.cx_condition.specs.Values.{bits_of};

use crate::bytes::first;
use crate::character::character_value;
use crate::integer::integer_constant;
use crate::operator::Operator;
use crate::value::Value;
use cx_base::NoMemory;
use cx_tokens::{Kind, Token};
use std::alloc::Global;

/// A part of a condition: a constant or a punctuator (C11 6.10.1).
#[derive(Clone, Copy)]
pub enum Part {
    /// A constant, or a name that is left, which counts as 0.
    Constant(Value),
    /// An operator on two operands; `+` and `-` also stand before one.
    Operator(Operator),
    /// `~`
    Complement,
    /// `!`
    Not,
    /// `?`
    Question,
    /// `:`
    Colon,
    /// `(`
    Open,
    /// `)`
    Close,
    /// What stands in no condition.
    Other,
}

fn constant(is_unsigned: bool, bits: u64) -> Part
    ensures { result ≡ constant is_unsigned bits }
{
    Part::Constant(Value { is_unsigned, bits })
}

// The greatest value of the signed type.
const GREATEST: u64 = 9_223_372_036_854_775_807;

fn is_beyond_signed(is_unsigned: bool, value: u64) -> bool
    ensures { result ≡ (is_unsigned || nat_lt 9223372036854775807 value) }
{
    is_unsigned || value > GREATEST
}

#[tactic(auto, unfolding(crate::specs::Parts::number_part))]
fn number_part(text: &[u8]) -> Part
    ensures { result ≡ number_part text.now }
{
    let Some(number) = integer_constant(text) else {
        return Part::Other;
    };
    constant(
        is_beyond_signed(number.is_unsigned, number.value),
        number.value,
    )
}

// The bits of a byte as a signed char.
#[tactic(auto, using(crate::proofs::BitLaws::char_low, crate::proofs::BitLaws::char_high))]
fn signed_char(byte: u8) -> u64
    ensures { result ≡ bits_of (cast_signed w8 byte) }
{
    if byte < 128 {
        return u64::from(byte);
    }
    u64::from(byte) + 18_446_744_073_709_551_360
}

#[tactic(auto, unfolding(crate::specs::Parts::char_part))]
fn char_part(text: &[u8]) -> Part
    ensures { result ≡ char_part text.now }
{
    let Some(byte) = character_value(text) else {
        return Part::Other;
    };
    constant(false, signed_char(byte))
}

#[tactic(auto, unfolding(crate::specs::Parts::wide_part))]
fn wide_part(text: &[u8]) -> Part
    ensures { result ≡ wide_part text.now }
{
    let Some(byte) = character_value(text) else {
        return Part::Other;
    };
    if byte < 128 {
        return constant(false, u64::from(byte));
    }
    Part::Other
}

#[tactic(auto, unfolding(crate::specs::Parts::single_sign))]
fn single_sign(byte: u8) -> Part
    ensures { result ≡ single_sign byte }
{
    match byte {
        b'*' => Part::Operator(Operator::Multiply),
        b'/' => Part::Operator(Operator::Divide),
        b'%' => Part::Operator(Operator::Remainder),
        b'+' => Part::Operator(Operator::Add),
        b'-' => Part::Operator(Operator::Subtract),
        b'<' => Part::Operator(Operator::Less),
        b'>' => Part::Operator(Operator::Greater),
        b'&' => Part::Operator(Operator::And),
        b'^' => Part::Operator(Operator::ExclusiveOr),
        b'|' => Part::Operator(Operator::Or),
        b'~' => Part::Complement,
        b'!' => Part::Not,
        b'?' => Part::Question,
        b':' => Part::Colon,
        b'(' => Part::Open,
        b')' => Part::Close,
        _ => Part::Other,
    }
}

#[tactic(auto, unfolding(crate::specs::Parts::double_sign))]
fn double_sign(a: u8, b: u8) -> Part
    ensures { result ≡ double_sign a b }
{
    match (a, b) {
        (b'<', b'<') => Part::Operator(Operator::ShiftLeft),
        (b'>', b'>') => Part::Operator(Operator::ShiftRight),
        (b'<', b'=') => Part::Operator(Operator::AtMost),
        (b'>', b'=') => Part::Operator(Operator::AtLeast),
        (b'=', b'=') => Part::Operator(Operator::Equal),
        (b'!', b'=') => Part::Operator(Operator::Different),
        (b'&', b'&') => Part::Operator(Operator::LogicalAnd),
        (b'|', b'|') => Part::Operator(Operator::LogicalOr),
        _ => Part::Other,
    }
}

#[tactic(auto, unfolding(crate::specs::Parts::sign_part))]
fn sign_part(text: &[u8]) -> Part
    ensures { result ≡ sign_part text.now }
{
    let Some((a, more)) = first(text) else {
        return Part::Other;
    };
    let Some((b, rest)) = first(more) else {
        return single_sign(a);
    };
    if !rest.is_empty() {
        return Part::Other;
    }
    double_sign(a, b)
}

#[tactic(auto, unfolding(crate::specs::Parts::part_of))]
fn part_of(kind: Kind, text: &[u8]) -> Part
    ensures { result ≡ part_of kind text.now }
{
    match kind {
        Kind::Number => number_part(text),
        Kind::Char => char_part(text),
        Kind::Name => constant(false, 0),
        Kind::Punct => sign_part(text),
        _ => Part::Other,
    }
}

#[tactic(auto, unfolding(crate::specs::Parts::is_prefix_text))]
fn is_prefix_text(text: &[u8]) -> bool
    ensures { result ≡ is_prefix_text text.now }
{
    let Some((letter, rest)) = first(text) else {
        return false;
    };
    if !rest.is_empty() {
        return false;
    }
    letter == b'L' || letter == b'u' || letter == b'U'
}

// The first token, and the tokens after it.
fn first_token<'a>(tokens: &'a [Token]) -> Option<(&'a Token, &'a [Token])>
    ensures { MatchOption result (tokens.now ≡ []) (λ x. tokens.now ≡ x.0.now ∷ x.1.now) }
{
    match tokens {
        [] => None,
        [token, rest @ ..] => Some((token, rest)),
    }
}

#[tactic(auto, unfolding(crate::specs::Parts::begins_joined_char))]
fn begins_joined_char(tokens: &[Token]) -> bool
    ensures { result ≡ begins_joined_char tokens.now }
{
    let Some((token, _)) = first_token(tokens) else {
        return false;
    };
    token.kind == Kind::Char && !token.space
}

#[tactic(auto, unfolding(crate::specs::Parts::is_prefix))]
fn is_prefix(token: &Token, rest: &[Token]) -> bool
    ensures { result ≡ is_prefix token.now rest.now }
{
    token.kind == Kind::Name && is_prefix_text(token.text.as_slice()) && begins_joined_char(rest)
}

// The part of a token, or `None` where it is a prefix.
#[tactic(auto, using(crate::proofs::PartLaws::parts_wide, crate::proofs::PartLaws::parts_prefix, crate::proofs::PartLaws::parts_alone))]
fn next_part(prefixed: bool, token: &Token, rest: &[Token]) -> Option<Part>
    ensures { NextIs prefixed token.now rest.now result }
{
    if prefixed {
        return Some(wide_part(token.text.as_slice()));
    }
    if is_prefix(token, rest) {
        return None;
    }
    Some(part_of(token.kind, token.text.as_slice()))
}

/// The parts of tokens.
pub fn parts_of(alloc: Global, tokens: &[Token]) -> Result<Vec<Part>, NoMemory>
    ensures { IfOk result (λ parts. parts.items ≡ parts_behind false tokens.now) }
{
    let mut parts = Vec::new(alloc);
    let mut prefixed = false;
    let mut rest = tokens;
    while let Some((token, more)) = first_token(rest) {
        match next_part(prefixed, token, more) {
            None => prefixed = true,
            Some(part) => {
                parts.push(part)?;
                prefixed = false;
            }
        }
        rest = more;
    }
    Ok(parts)
}
