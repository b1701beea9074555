//! The operators of a condition.
ghost use Rattle.std.specs.Prelude.{◌≡◌};
ghost use Rattle.cx_condition.specs.Levels.{level_of};

/// An operator on one operand (C11 6.5.3.3).
#[derive(Clone, Copy, Debug, PartialEq, Eq)]
pub enum Unary {
    Plus,
    Minus,
    Complement,
    Not,
}

/// An operator on two operands (C11 6.5.5 to 6.5.14).
#[derive(Clone, Copy, Debug, PartialEq, Eq)]
pub enum Operator {
    Multiply,
    Divide,
    Remainder,
    Add,
    Subtract,
    ShiftLeft,
    ShiftRight,
    Less,
    Greater,
    AtMost,
    AtLeast,
    Equal,
    Different,
    And,
    ExclusiveOr,
    Or,
    LogicalAnd,
    LogicalOr,
}

impl Operator {
    /// How loosely it binds: from 1 for `*` up to 10 for `||`.
    #[tactic(auto, unfolding(crate::specs::Levels::level_of))]
    pub fn level(self) -> u8
        ensures { result ≡ level_of self }
    {
        match self {
            Operator::Multiply | Operator::Divide | Operator::Remainder => 1,
            Operator::Add | Operator::Subtract => 2,
            Operator::ShiftLeft | Operator::ShiftRight => 3,
            Operator::Less | Operator::Greater | Operator::AtMost | Operator::AtLeast => 4,
            Operator::Equal | Operator::Different => 5,
            Operator::And => 6,
            Operator::ExclusiveOr => 7,
            Operator::Or => 8,
            Operator::LogicalAnd => 9,
            Operator::LogicalOr => 10,
        }
    }
}
