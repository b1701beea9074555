//! The integer operators, on whole numbers that are operands of one type.
ghost use Rattle.std.specs.Prelude.{◌≡◌, ℕ, ◌<◌, ◌^◌, pos, ◌+ℤ◌, ◌-ℤ◌, ◌*ℤ◌, neg_ℤ, IfSome};
ghost use Rattle.cx_tree.specs.Arithmetic as rules;
ghost use Rattle.cx_tree.specs.ConversionRules as conversions;
ghost use Rattle.cx_tree.specs.IntegerTypes as types;
ghost use Rattle.cx_tree.specs.Shapes.Outside.{fit_outside};

use crate::conversions::{convert, low_bits, promote};
use crate::types::{
    IntType, Kind, Platform, Width, bits, greatest_signed, kind_of, least_signed, width_of,
};

/// An operator on integers. `Complement` is `~` and `Negate` the unary `-`: they take the left
/// operand alone.
#[derive(Clone, Copy, Debug, PartialEq, Eq)]
pub enum Op {
    Multiply,
    Divide,
    Remainder,
    Add,
    Subtract,
    ShiftLeft,
    ShiftRight,
    BitAnd,
    BitXor,
    BitOr,
    Complement,
    Negate,
    Less,
    LessEqual,
    Greater,
    GreaterEqual,
    Equal,
    NotEqual,
}

/// A result in its type: converted to an unsigned type or `_Bool`, and `None` where a signed type
/// does not hold it.
#[tactic(auto, unfolding(crate::specs::ConversionRules::convert))]
fn fit(t: IntType, p: Platform, value: i128) -> Option<i128>
    ensures { result ≡ rules.fit t p value }
{
    match kind_of(t) {
        Kind::Signed => {
            let w = width_of(t, p);
            if least_signed(w) <= value && value <= greatest_signed(w) {
                Some(value)
            } else {
                None
            }
        }
        Kind::Boolean | Kind::Unsigned => Some(convert(t, p, value)),
    }
}

/// The same of a result that is no `i128`, of which `low` are the low 128 bits.
#[tactic(auto, unfolding(crate::specs::Shapes::Outside::fit_outside))]
fn fit_outside(t: IntType, p: Platform, low: i128) -> Option<i128>
    ensures { result ≡ fit_outside t p low }
{
    match kind_of(t) {
        Kind::Boolean => Some(1),
        Kind::Signed => None,
        Kind::Unsigned => Some(low_bits(width_of(t, p), low)),
    }
}

/// The sum.
fn add(t: IntType, p: Platform, a: i128, b: i128) -> Option<i128>
    ensures { result ≡ rules.fit t p (a +ℤ b) }
{
    match a.checked_add(b) {
        Some(sum) => fit(t, p, sum),
        None => fit_outside(t, p, a.wrapping_add(b)),
    }
}

/// The difference.
fn subtract(t: IntType, p: Platform, a: i128, b: i128) -> Option<i128>
    ensures { result ≡ rules.fit t p (a -ℤ b) }
{
    match a.checked_sub(b) {
        Some(rest) => fit(t, p, rest),
        None => fit_outside(t, p, a.wrapping_sub(b)),
    }
}

/// The product.
fn multiply(t: IntType, p: Platform, a: i128, b: i128) -> Option<i128>
    ensures { result ≡ rules.fit t p (a *ℤ b) }
{
    match a.checked_mul(b) {
        Some(product) => fit(t, p, product),
        None => fit_outside(t, p, a.wrapping_mul(b)),
    }
}

/// The negated value.
fn negate(t: IntType, p: Platform, a: i128) -> Option<i128>
    ensures { result ≡ rules.fit t p (neg_ℤ a) }
{
    match a.checked_neg() {
        Some(opposite) => fit(t, p, opposite),
        None => fit_outside(t, p, a.wrapping_neg()),
    }
}

/// The quotient, without its fraction.
fn divide(t: IntType, p: Platform, a: i128, b: i128) -> Option<i128>
    ensures { result ≡ rules.divide t p a b }
{
    match b {
        0 => None,
        -1 => negate(t, p, a),
        _ => fit(t, p, a / b),
    }
}

/// What a division leaves.
fn remainder(t: IntType, p: Platform, a: i128, b: i128) -> Option<i128>
    ensures { result ≡ rules.remainder t p a b }
{
    if b == 0 {
        return None;
    }
    let _quotient = divide(t, p, a, b)?;
    fit(t, p, a.wrapping_rem(b))
}

/// The count of a shift, where it is below the width of the promoted type.
fn shift_count(t: IntType, p: Platform, count: i128) -> Option<u32>
    ensures value { result ≡ rules.shift_count t p count }
    ensures below { IfSome result (λ n. n < 64) }
{
    let n = u32::try_from(count).ok()?;
    if n < bits(promote(t, p), p) {
        Some(n)
    } else {
        None
    }
}

/// Whether the value is one that `<<` is undefined at, whatever the count is.
fn is_negative_of_signed(t: IntType, a: i128) -> bool
    ensures { result ≡ rules.is_negative_of_signed (types.kind t) a }
{
    match kind_of(t) {
        Kind::Signed => a < 0,
        Kind::Boolean | Kind::Unsigned => false,
    }
}

/// Two to a power.
fn power_of_two(exponent: u32) -> i128
    requires { exponent < 64 }
    ensures { result ≡ pos (2 ^ exponent) }
{
    1 << exponent
}

/// The value times two to the power of the count.
fn shift_left(t: IntType, p: Platform, a: i128, b: i128) -> Option<i128>
    ensures { result ≡ rules.shift_left t p a b }
{
    let count = shift_count(t, p, b)?;
    if is_negative_of_signed(t, a) {
        return None;
    }
    multiply(t, p, a, power_of_two(count))
}

/// The value divided by two to the power of the count, rounded down.
fn shift_right(t: IntType, p: Platform, a: i128, b: i128) -> Option<i128>
    ensures { result ≡ rules.shift_right t p a b }
{
    let count = shift_count(t, p, b)?;
    fit(t, p, a >> count)
}

/// The value with each bit turned.
fn complement(t: IntType, p: Platform, a: i128) -> Option<i128>
    ensures { result ≡ rules.fit t p (neg_ℤ a -ℤ pos 1) }
{
    fit(t, p, -1 - a)
}

/// The bits of a value in two's complement.
fn pattern(t: IntType, p: Platform, value: i128) -> u64
    ensures { result ≡ rules.pattern (types.width t p) value }
{
    low_bits(width_of(t, p), value) as u64
}

/// The value of the type that has these bits.
fn of_bits(t: IntType, p: Platform, bits: u64) -> Option<i128>
    ensures { result ≡ Some (conversions.convert t p (pos bits)) }
{
    Some(convert(t, p, i128::from(bits)))
}

/// The value of a comparison.
fn truth(holds: bool) -> Option<i128>
    ensures { result ≡ rules.truth holds }
{
    Some(if holds { 1 } else { 0 })
}

/// The result of an operator on two operands of type `t`, `None` exactly where C11 leaves it
/// undefined (6.5p5, 6.5.5 to 6.5.12; for `Complement` and `Negate` 6.5.3.3).
#[tactic(auto, unfolding(crate::specs::Arithmetic::arith))]
pub fn arith(op: Op, t: IntType, p: Platform, a: i128, b: i128) -> Option<i128>
    ensures { result ≡ rules.arith op t p a b }
{
    match op {
        Op::Multiply => multiply(t, p, a, b),
        Op::Divide => divide(t, p, a, b),
        Op::Remainder => remainder(t, p, a, b),
        Op::Add => add(t, p, a, b),
        Op::Subtract => subtract(t, p, a, b),
        Op::ShiftLeft => shift_left(t, p, a, b),
        Op::ShiftRight => shift_right(t, p, a, b),
        Op::BitAnd => of_bits(t, p, pattern(t, p, a) & pattern(t, p, b)),
        Op::BitXor => of_bits(t, p, pattern(t, p, a) ^ pattern(t, p, b)),
        Op::BitOr => of_bits(t, p, pattern(t, p, a) | pattern(t, p, b)),
        Op::Complement => complement(t, p, a),
        Op::Negate => negate(t, p, a),
        Op::Less => truth(a < b),
        Op::LessEqual => truth(a <= b),
        Op::Greater => truth(a > b),
        Op::GreaterEqual => truth(a >= b),
        Op::Equal => truth(a == b),
        Op::NotEqual => truth(a != b),
    }
}
