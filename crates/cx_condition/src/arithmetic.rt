//! What the operators make of operands.
ghost use Rattle.std.specs.Prelude.{◌≡◌, Bool as boolean, neg_ℤ, negsuc, pos, ◌-ℤ◌, ◌*ℤ◌, ◌+ℤ◌, ◌^◌, int_lt, int_div, int_rem, ◌≢◌, ◌/◌, ◌<◌, ◌==◌, unsigned_abs, not, false, Some, option_map, option_and_then, if◌then◌else◌};
ghost use Rattle.cx_condition.specs.Shapes.Signs.{has_sign, is_below_zero};
ghost use Rattle.cx_condition.specs.Values.{binary, bits_of, both, shift_bits, unless_zero, choice, common, converted, either, is_relation, number_of, result_of, shift, shifted, truth, unary};

use crate::operator::{Operator, Unary};
use crate::value::{Operand, Value, operand_value};

// The bit of the sign.
const SIGN: u64 = 9_223_372_036_854_775_808;

fn has_sign(is_unsigned: bool, bits: u64) -> bool
    ensures { result ≡ has_sign is_unsigned bits }
{
    !is_unsigned && bits >= SIGN
}

// Whether bits stand for a number below zero.
#[tactic(auto, using(crate::proofs::BitLaws::sign_of))]
fn is_negative(is_unsigned: bool, bits: u64) -> bool
    ensures sign { result ≡ has_sign is_unsigned bits }
    ensures number { result ≡ is_below_zero (number_of is_unsigned bits) }
{
    has_sign(is_unsigned, bits)
}

#[tactic(auto, using(crate::proofs::BitLaws::sums))]
fn sum(x: u64, y: u64) -> u64
    ensures { (u : boolean) → result ≡ bits_of (number_of u x +ℤ number_of u y) }
{
    x.wrapping_add(y)
}

#[tactic(auto, using(crate::proofs::BitLaws::differences))]
fn difference(x: u64, y: u64) -> u64
    ensures { (u : boolean) → result ≡ bits_of (number_of u x -ℤ number_of u y) }
{
    x.wrapping_sub(y)
}

#[tactic(auto, using(crate::proofs::BitLaws::products))]
fn product(x: u64, y: u64) -> u64
    ensures { (u : boolean) → result ≡ bits_of (number_of u x *ℤ number_of u y) }
{
    x.wrapping_mul(y)
}

#[tactic(auto, using(crate::proofs::BitLaws::negatives))]
fn negative(x: u64) -> u64
    ensures { (u : boolean) → result ≡ bits_of (neg_ℤ (number_of u x)) }
{
    0_u64.wrapping_sub(x)
}

#[tactic(auto, using(crate::proofs::BitLaws::complements))]
fn complement(x: u64) -> u64
    ensures { (u : boolean) → result ≡ bits_of (negsuc 0 -ℤ number_of u x) }
{
    !x
}

// Bits moved down by a count.
#[tactic(auto, using(crate::proofs::BitLaws::nothing_left))]
fn moved_down(x: u64, count: u64) -> u64
    ensures { result ≡ x / 2 ^ count }
{
    if count >= 64 {
        return 0;
    }
    x >> count
}

#[tactic(auto, using(crate::proofs::BitLaws::zero_shift, crate::proofs::BitLaws::left_shifts, crate::proofs::BitLaws::left_shift))]
fn moved_left(x: u64, count: u64) -> u64
    ensures { (u : boolean) → result ≡ bits_of (shifted (number_of u x) (pos count)) }
{
    if count >= 64 {
        return 0;
    }
    x << count
}

// A number moved to the right; one below zero is rounded down.
#[tactic(auto, using(crate::proofs::BitLaws::right_low, crate::proofs::BitLaws::right_high))]
fn moved_right(is_unsigned: bool, x: u64, count: u64) -> u64
    ensures { result ≡ bits_of (shifted (number_of is_unsigned x) (neg_ℤ (pos count))) }
{
    if is_negative(is_unsigned, x) {
        return !moved_down(!x, count);
    }
    moved_down(x, count)
}

// A number shifted to the left by a number: to the right where that is below zero.
#[tactic(auto, using(crate::proofs::BitLaws::count_low, crate::proofs::BitLaws::count_high))]
fn shifted_left(a: Value, count: Value) -> u64
    ensures { result ≡ bits_of (shifted (number_of a.is_unsigned a.bits)
        (number_of count.is_unsigned count.bits)) }
{
    if is_negative(count.is_unsigned, count.bits) {
        return moved_right(a.is_unsigned, a.bits, 0_u64.wrapping_sub(count.bits));
    }
    moved_left(a.bits, count.bits)
}

#[tactic(auto, using(crate::proofs::BitLaws::count_low, crate::proofs::BitLaws::count_turned))]
fn shifted_right(a: Value, count: Value) -> u64
    ensures { result ≡ bits_of (shifted (number_of a.is_unsigned a.bits) (neg_ℤ
        (number_of count.is_unsigned count.bits))) }
{
    if is_negative(count.is_unsigned, count.bits) {
        return moved_left(a.bits, 0_u64.wrapping_sub(count.bits));
    }
    moved_right(a.is_unsigned, a.bits, count.bits)
}

// How far bits are from 0, as a number.
#[tactic(auto, using(crate::proofs::BitLaws::magnitude_low, crate::proofs::BitLaws::magnitude_high))]
fn magnitude(is_unsigned: bool, x: u64) -> u64
    ensures { result ≡ unsigned_abs (number_of is_unsigned x) }
{
    if is_negative(is_unsigned, x) {
        return 0_u64.wrapping_sub(x);
    }
    x
}

// A quotient, cut towards zero.
#[tactic(auto, using(crate::proofs::BitLaws::some_magnitude, crate::proofs::BitLaws::quotient_same, crate::proofs::BitLaws::quotient_other))]
fn quotient(is_unsigned: bool, x: u64, y: u64) -> u64
    requires { 0 < y }
    ensures { result ≡ bits_of (int_div (number_of is_unsigned x) (number_of is_unsigned y)) }
{
    let quotient = magnitude(is_unsigned, x) / magnitude(is_unsigned, y);
    if is_negative(is_unsigned, x) != is_negative(is_unsigned, y) {
        return 0_u64.wrapping_sub(quotient);
    }
    quotient
}

// A remainder, of the sign of the left side.
#[tactic(auto, using(crate::proofs::BitLaws::some_magnitude, crate::proofs::BitLaws::remainder_low, crate::proofs::BitLaws::remainder_high))]
fn remainder(is_unsigned: bool, x: u64, y: u64) -> u64
    requires { 0 < y }
    ensures { result ≡ bits_of (int_rem (number_of is_unsigned x) (number_of is_unsigned y)) }
{
    let remainder = magnitude(is_unsigned, x) % magnitude(is_unsigned, y);
    if is_negative(is_unsigned, x) {
        return 0_u64.wrapping_sub(remainder);
    }
    remainder
}

#[tactic(auto, using(crate::proofs::BitLaws::less_other, crate::proofs::BitLaws::less_same))]
fn is_less(is_unsigned: bool, x: u64, y: u64) -> bool
    ensures { result ≡ int_lt (number_of is_unsigned x) (number_of is_unsigned y) }
{
    let negative = is_negative(is_unsigned, x);
    if negative != is_negative(is_unsigned, y) {
        return negative;
    }
    x < y
}

fn truth(holds: bool) -> u64
    ensures { result ≡ truth holds }
{
    u64::from(holds)
}

fn divided(is_unsigned: bool, x: u64, y: u64) -> Option<u64>
    ensures { result ≡ unless_zero y (int_div (number_of is_unsigned x) (number_of is_unsigned y)) }
{
    if y == 0 {
        return None;
    }
    Some(quotient(is_unsigned, x, y))
}

fn rest_of(is_unsigned: bool, x: u64, y: u64) -> Option<u64>
    ensures { result ≡ unless_zero y (int_rem (number_of is_unsigned x) (number_of is_unsigned y)) }
{
    if y == 0 {
        return None;
    }
    Some(remainder(is_unsigned, x, y))
}

fn is_at_most(is_unsigned: bool, x: u64, y: u64) -> bool
    ensures { result ≡ not (int_lt (number_of is_unsigned y) (number_of is_unsigned x)) }
{
    !is_less(is_unsigned, y, x)
}

// The bits of what an operator makes of two sides of one type.
#[tactic(auto, unfolding(crate::specs::Values::result_of))]
fn result_of(operator: Operator, is_unsigned: bool, x: u64, y: u64) -> Option<u64>
    ensures { result ≡ result_of operator is_unsigned x y }
{
    match operator {
        Operator::Multiply => Some(product(x, y)),
        Operator::Divide => divided(is_unsigned, x, y),
        Operator::Remainder => rest_of(is_unsigned, x, y),
        Operator::Add => Some(sum(x, y)),
        Operator::Subtract => Some(difference(x, y)),
        Operator::Less => Some(truth(is_less(is_unsigned, x, y))),
        Operator::Greater => Some(truth(is_less(is_unsigned, y, x))),
        Operator::AtMost => Some(truth(is_at_most(is_unsigned, x, y))),
        Operator::AtLeast => Some(truth(is_at_most(is_unsigned, y, x))),
        Operator::Equal => Some(truth(x == y)),
        Operator::Different => Some(truth(x != y)),
        Operator::And => Some(x & y),
        Operator::ExclusiveOr => Some(x ^ y),
        Operator::Or => Some(x | y),
        _ => None,
    }
}

#[tactic(auto, unfolding(crate::specs::Values::is_relation))]
fn is_relation(operator: Operator) -> bool
    ensures { result ≡ is_relation operator }
{
    matches!(
        operator,
        Operator::Less
            | Operator::Greater
            | Operator::AtMost
            | Operator::AtLeast
            | Operator::Equal
            | Operator::Different
    )
}

fn common(a: Operand, b: Operand) -> bool
    ensures { result ≡ common a b }
{
    a.is_unsigned || b.is_unsigned
}

fn converted_bits(
    operator: Operator,
    is_unsigned: bool,
    a: Option<u64>,
    b: Option<u64>,
) -> Option<u64>
    ensures { result ≡ option_and_then (λ x. option_and_then
        (λ y. result_of operator is_unsigned x y) b) a }
{
    let x = a?;
    let y = b?;
    result_of(operator, is_unsigned, x, y)
}

#[tactic(auto, unfolding(crate::specs::Values::converted))]
fn converted(operator: Operator, a: Operand, b: Operand) -> Operand
    ensures { result ≡ converted operator a b }
{
    let is_unsigned = common(a, b);
    let bits = converted_bits(operator, is_unsigned, a.bits, b.bits);
    if is_relation(operator) {
        return Operand {
            is_unsigned: false,
            bits,
        };
    }
    Operand { is_unsigned, bits }
}

fn shift_left_bits(a: Operand, count: Operand) -> Option<u64>
    ensures { result ≡ shift_bits (λ n. n) a count }
{
    let value = operand_value(a)?;
    let count = operand_value(count)?;
    Some(shifted_left(value, count))
}

fn shift_right_bits(a: Operand, count: Operand) -> Option<u64>
    ensures { result ≡ shift_bits neg_ℤ a count }
{
    let value = operand_value(a)?;
    let count = operand_value(count)?;
    Some(shifted_right(value, count))
}

fn truth_of(bits: Option<u64>) -> Option<u64>
    ensures { result ≡ option_map (λ y. truth (not (y == 0))) bits }
{
    let bits = bits?;
    Some(truth(bits != 0))
}

#[tactic(auto, unfolding(crate::specs::Values::both))]
fn both(a: Operand, b: Operand) -> Operand
    ensures { result ≡ both a b }
{
    Operand {
        is_unsigned: false,
        bits: both_bits(a.bits, b.bits),
    }
}

fn both_bits(a: Option<u64>, b: Option<u64>) -> Option<u64>
    ensures { result ≡ option_and_then (λ x. if x == 0 then Some 0 else option_map (λ y. truth (not
        (y == 0))) b) a }
{
    if a? == 0 {
        return Some(0);
    }
    truth_of(b)
}

#[tactic(auto, unfolding(crate::specs::Values::either))]
fn either(a: Operand, b: Operand) -> Operand
    ensures { result ≡ either a b }
{
    Operand {
        is_unsigned: false,
        bits: either_bits(a.bits, b.bits),
    }
}

fn either_bits(a: Option<u64>, b: Option<u64>) -> Option<u64>
    ensures { result ≡ option_and_then (λ x. if x == 0 then option_map (λ y. truth (not
        (y == 0))) b else Some 1) a }
{
    if a? == 0 {
        return truth_of(b);
    }
    Some(1)
}

/// What an operator makes of two operands.
#[tactic(auto, unfolding(crate::specs::Values::binary, crate::specs::Values::shift))]
pub fn binary(operator: Operator, a: Operand, b: Operand) -> Operand
    ensures { result ≡ binary operator a b }
{
    match operator {
        Operator::LogicalAnd => both(a, b),
        Operator::LogicalOr => either(a, b),
        Operator::ShiftLeft => Operand {
            is_unsigned: a.is_unsigned,
            bits: shift_left_bits(a, b),
        },
        Operator::ShiftRight => Operand {
            is_unsigned: a.is_unsigned,
            bits: shift_right_bits(a, b),
        },
        _ => converted(operator, a, b),
    }
}

fn negative_bits(is_unsigned: bool, bits: Option<u64>) -> Option<u64>
    ensures { result ≡ option_map (λ x. bits_of (neg_ℤ (number_of is_unsigned x))) bits }
{
    Some(negative(bits?))
}

fn complement_bits(is_unsigned: bool, bits: Option<u64>) -> Option<u64>
    ensures { result ≡ option_map (λ x. bits_of (negsuc 0 -ℤ number_of is_unsigned x)) bits }
{
    Some(complement(bits?))
}

fn not_bits(bits: Option<u64>) -> Option<u64>
    ensures { result ≡ option_map (λ x. truth (x == 0)) bits }
{
    let bits = bits?;
    Some(truth(bits == 0))
}

/// What an operator makes of one operand.
#[tactic(auto, unfolding(crate::specs::Values::unary))]
pub fn unary(operator: Unary, a: Operand) -> Operand
    ensures { result ≡ unary operator a }
{
    match operator {
        Unary::Plus => a,
        Unary::Minus => Operand {
            is_unsigned: a.is_unsigned,
            bits: negative_bits(a.is_unsigned, a.bits),
        },
        Unary::Complement => Operand {
            is_unsigned: a.is_unsigned,
            bits: complement_bits(a.is_unsigned, a.bits),
        },
        Unary::Not => Operand {
            is_unsigned: false,
            bits: not_bits(a.bits),
        },
    }
}

fn chosen_bits(c: Option<u64>, a: Option<u64>, b: Option<u64>) -> Option<u64>
    ensures { result ≡ option_and_then (λ x. if x == 0 then b else a) c }
{
    if c? == 0 {
        return b;
    }
    a
}

/// What `c ? a : b` makes of three operands.
#[tactic(auto, unfolding(crate::specs::Values::choice))]
pub fn choice(c: Operand, a: Operand, b: Operand) -> Operand
    ensures { result ≡ choice c a b }
{
    Operand {
        is_unsigned: common(a, b),
        bits: chosen_bits(c.bits, a.bits, b.bits),
    }
}
