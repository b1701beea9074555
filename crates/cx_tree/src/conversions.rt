//! Conversions of values, and of the types of operands.
ghost use Rattle.std.specs.Prelude.{◌≡◌, pos, ◌≤ℤ◌};
ghost use Rattle.cx_tree.specs.ConversionRules as rules;
ghost use Rattle.cx_tree.specs.IntegerTypes as types;

use crate::types::{
    IntType, Kind, Platform, Width, bits, greatest_signed, kind_of, span, width_of,
};

/// The number that the low bits of a value's two's complement represent, from 0 up.
pub(crate) fn low_bits(w: Width, value: i128) -> i128
    ensures { result ≡ rules.low_bits w value }
{
    match w {
        Width::Bits8 => value.rem_euclid(256),
        Width::Bits16 => value.rem_euclid(65_536),
        Width::Bits32 => value.rem_euclid(4_294_967_296),
        Width::Bits64 => value.rem_euclid(18_446_744_073_709_551_616),
    }
}

/// The value that low bits have in a signed type.
fn signed_value(w: Width, low: i128) -> i128
    requires { pos 0 ≤ℤ low }
    ensures { result ≡ rules.signed_value w low }
{
    if low > greatest_signed(w) {
        low - span(w)
    } else {
        low
    }
}

/// What a value becomes when it is converted to a type (C11 6.3.1.2 and 6.3.1.3): 0 or 1 in
/// `_Bool`, the rest modulo a power of two in an unsigned type, and in a signed type the value that
/// its low bits have in two's complement.
#[tactic(auto, unfolding(crate::specs::ConversionRules::convert))]
pub fn convert(t: IntType, p: Platform, value: i128) -> i128
    ensures { result ≡ rules.convert t p value }
{
    match kind_of(t) {
        Kind::Boolean => if value == 0 { 0 } else { 1 },
        Kind::Signed => signed_value(width_of(t, p), low_bits(width_of(t, p), value)),
        Kind::Unsigned => low_bits(width_of(t, p), value),
    }
}

/// The type that an operand of type `t` is promoted to (C11 6.3.1.1p2).
#[tactic(auto, unfolding(crate::specs::ConversionRules::promote))]
pub fn promote(t: IntType, p: Platform) -> IntType
    ensures { result ≡ rules.promote t p }
{
    match t {
        IntType::Bool
        | IntType::Char
        | IntType::SignedChar
        | IntType::UnsignedChar
        | IntType::Short
        | IntType::UnsignedShort => IntType::Int,
        _ => t,
    }
}

/// The type's place in the order of the ranks (C11 6.3.1.1p1).
fn rank(t: IntType) -> u8
    ensures { result ≡ rules.rank t }
{
    match t {
        IntType::Bool => 0,
        IntType::Char | IntType::SignedChar | IntType::UnsignedChar => 1,
        IntType::Short | IntType::UnsignedShort => 2,
        IntType::Int | IntType::UnsignedInt => 3,
        IntType::Long | IntType::UnsignedLong => 4,
        IntType::LongLong | IntType::UnsignedLongLong => 5,
    }
}

/// The unsigned type that corresponds to a promoted type (C11 6.2.5p6).
fn unsigned_of(t: IntType) -> IntType
    ensures { result ≡ rules.unsigned_of t }
{
    match t {
        IntType::Int => IntType::UnsignedInt,
        IntType::Long => IntType::UnsignedLong,
        IntType::LongLong => IntType::UnsignedLongLong,
        _ => t,
    }
}

/// The type of an unsigned and a signed operand (C11 6.3.1.8p1).
fn mixed(unsigned: IntType, signed: IntType, p: Platform) -> IntType
    requires unsigned { types.kind unsigned ≡ Kind.Unsigned }
    requires signed { types.kind signed ≡ Kind.Signed }
    ensures { result ≡ rules.of_mixed unsigned signed p }
{
    if rank(signed) <= rank(unsigned) {
        unsigned
    } else if bits(unsigned, p) < bits(signed, p) {
        signed
    } else {
        unsigned_of(signed)
    }
}

/// The type of two promoted operands (C11 6.3.1.8p1).
fn common(a: IntType, b: IntType, p: Platform) -> IntType
    ensures { result ≡ rules.common a b p }
{
    match (kind_of(a), kind_of(b)) {
        (Kind::Signed, Kind::Unsigned) => mixed(b, a, p),
        (Kind::Unsigned, Kind::Signed) => mixed(a, b, p),
        _ => if rank(a) < rank(b) { b } else { a },
    }
}

/// The common type of two operands (C11 6.3.1.8, the usual arithmetic conversions).
#[tactic(auto, unfolding(crate::specs::ConversionRules::usual))]
pub fn usual(a: IntType, b: IntType, p: Platform) -> IntType
    ensures { result ≡ rules.usual a b p }
{
    common(promote(a, p), promote(b, p), p)
}
