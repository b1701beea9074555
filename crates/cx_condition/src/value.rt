//! Values of 64 bits, signed or unsigned.
ghost use Rattle.std.specs.Prelude.{◌≡◌};
ghost use Rattle.cx_condition.specs.Values.{value_of};

/// A value: 64 bits in two's complement, of a signed or an unsigned type (C11 6.10.1, paragraph 4:
/// all types act as `intmax_t` and `uintmax_t`).
#[derive(Clone, Copy, Debug, PartialEq, Eq)]
pub struct Value {
    pub is_unsigned: bool,
    pub bits: u64,
}

/// What an expression is evaluated to: its type, and its bits, or `None` where an evaluated
/// division or remainder is by zero.
#[derive(Clone, Copy, Debug, PartialEq, Eq)]
pub struct Operand {
    pub is_unsigned: bool,
    pub bits: Option<u64>,
}

/// The value of an operand.
pub fn operand_value(operand: Operand) -> Option<Value>
    ensures { result ≡ value_of operand }
{
    Some(Value {
        is_unsigned: operand.is_unsigned,
        bits: operand.bits?,
    })
}
