//! What a token is in front of an operand and behind one.
ghost use Rattle.std.specs.Prelude.{◌≡◌};
ghost use Rattle.cx_expressions.specs.Operators as meaning;
ghost use Rattle.cx_expressions.specs.Shapes.Roles as roles;

use cx_reading::{Cursor, begins_type};
use cx_syntax_tree::{
    AssignOperator, BinaryOperator, Keyword, Punctuator, Step, Terminal, UnaryOperator,
};

/// What a token is in front of an operand (C11 6.5.1 to 6.5.3).
#[derive(Clone, Copy)]
pub enum Begin {
    /// `++` or `--` before its operand.
    Step(Step),
    /// Another operator before its operand.
    Operator(UnaryOperator),
    Sizeof,
    /// `(`.
    Open,
    /// An identifier that is no type name, by the number of its text.
    Name(u32),
    Number,
    Char,
    String,
    /// Nothing that begins an operand.
    Nothing,
}

/// What a token is behind an operand (C11 6.5.2 and 6.5.5 to 6.5.17).
#[derive(Clone, Copy)]
pub enum Behind {
    /// `(`.
    Call,
    /// `[`.
    Index,
    Dot,
    Arrow,
    /// `++` or `--` behind its operand.
    Step(Step),
    /// An operator between two operands.
    Binary(BinaryOperator),
    Question,
    Assign(AssignOperator),
    Comma,
    /// Nothing that goes on with an expression.
    Nothing,
}

/// What a token is in front of an operand.
#[tactic(auto, unfolding(crate::specs::Shapes::Roles::begin_of))]
pub fn begin_of(terminal: Terminal) -> Begin
    ensures { result ≡ roles.begin_of terminal }
{
    match terminal {
        Terminal::Name(name) => Begin::Name(name),
        Terminal::Number => Begin::Number,
        Terminal::Char => Begin::Char,
        Terminal::String => Begin::String,
        Terminal::Keyword(Keyword::Sizeof) => Begin::Sizeof,
        Terminal::Punctuator(mark) => match mark {
            Punctuator::PlusPlus => Begin::Step(Step::Increment),
            Punctuator::MinusMinus => Begin::Step(Step::Decrement),
            Punctuator::Ampersand => Begin::Operator(UnaryOperator::AddressOf),
            Punctuator::Star => Begin::Operator(UnaryOperator::Indirection),
            Punctuator::Plus => Begin::Operator(UnaryOperator::Plus),
            Punctuator::Minus => Begin::Operator(UnaryOperator::Minus),
            Punctuator::Tilde => Begin::Operator(UnaryOperator::Complement),
            Punctuator::Exclamation => Begin::Operator(UnaryOperator::Not),
            Punctuator::OpenRound => Begin::Open,
            _ => Begin::Nothing,
        },
        _ => Begin::Nothing,
    }
}

/// The operator between two operands that a punctuator is (C11 6.5.5 to 6.5.14).
fn binary_mark(mark: Punctuator) -> Option<BinaryOperator>
    ensures { result ≡ meaning.binary_mark mark }
{
    match mark {
        Punctuator::Star => Some(BinaryOperator::Multiply),
        Punctuator::Slash => Some(BinaryOperator::Divide),
        Punctuator::Percent => Some(BinaryOperator::Remainder),
        Punctuator::Plus => Some(BinaryOperator::Add),
        Punctuator::Minus => Some(BinaryOperator::Subtract),
        Punctuator::LessLess => Some(BinaryOperator::ShiftLeft),
        Punctuator::GreaterGreater => Some(BinaryOperator::ShiftRight),
        Punctuator::Less => Some(BinaryOperator::Less),
        Punctuator::Greater => Some(BinaryOperator::Greater),
        Punctuator::LessEqual => Some(BinaryOperator::LessEqual),
        Punctuator::GreaterEqual => Some(BinaryOperator::GreaterEqual),
        Punctuator::EqualEqual => Some(BinaryOperator::Equal),
        Punctuator::ExclamationEqual => Some(BinaryOperator::NotEqual),
        Punctuator::Ampersand => Some(BinaryOperator::BitAnd),
        Punctuator::Caret => Some(BinaryOperator::BitXor),
        Punctuator::Bar => Some(BinaryOperator::BitOr),
        Punctuator::AmpersandAmpersand => Some(BinaryOperator::And),
        Punctuator::BarBar => Some(BinaryOperator::Or),
        _ => None,
    }
}

/// The assignment operator that a punctuator is (C11 6.5.16).
fn assign_mark(mark: Punctuator) -> Option<AssignOperator>
    ensures { result ≡ meaning.assign_mark mark }
{
    match mark {
        Punctuator::Equal => Some(AssignOperator::Simple),
        Punctuator::StarEqual => Some(AssignOperator::Compound(BinaryOperator::Multiply)),
        Punctuator::SlashEqual => Some(AssignOperator::Compound(BinaryOperator::Divide)),
        Punctuator::PercentEqual => Some(AssignOperator::Compound(BinaryOperator::Remainder)),
        Punctuator::PlusEqual => Some(AssignOperator::Compound(BinaryOperator::Add)),
        Punctuator::MinusEqual => Some(AssignOperator::Compound(BinaryOperator::Subtract)),
        Punctuator::LessLessEqual => Some(AssignOperator::Compound(BinaryOperator::ShiftLeft)),
        Punctuator::GreaterGreaterEqual => {
            Some(AssignOperator::Compound(BinaryOperator::ShiftRight))
        }
        Punctuator::AmpersandEqual => Some(AssignOperator::Compound(BinaryOperator::BitAnd)),
        Punctuator::CaretEqual => Some(AssignOperator::Compound(BinaryOperator::BitXor)),
        Punctuator::BarEqual => Some(AssignOperator::Compound(BinaryOperator::BitOr)),
        _ => None,
    }
}

/// What a punctuator is behind an operand, where it is no operator.
fn other_mark(mark: Punctuator) -> Behind
    ensures { result ≡ roles.behind_step (meaning.step_mark mark) mark }
{
    match mark {
        Punctuator::PlusPlus => Behind::Step(Step::Increment),
        Punctuator::MinusMinus => Behind::Step(Step::Decrement),
        Punctuator::OpenRound => Behind::Call,
        Punctuator::OpenSquare => Behind::Index,
        Punctuator::Dot => Behind::Dot,
        Punctuator::Arrow => Behind::Arrow,
        Punctuator::Question => Behind::Question,
        Punctuator::Comma => Behind::Comma,
        _ => Behind::Nothing,
    }
}

/// What a token is behind an operand.
#[tactic(auto, unfolding(crate::specs::Shapes::Roles::behind_of))]
pub fn behind_of(terminal: Terminal) -> Behind
    ensures { result ≡ roles.behind_of terminal }
{
    match terminal {
        Terminal::Punctuator(mark) => match binary_mark(mark) {
            Some(operator) => Behind::Binary(operator),
            None => match assign_mark(mark) {
                Some(operator) => Behind::Assign(operator),
                None => other_mark(mark),
            },
        },
        _ => Behind::Nothing,
    }
}

/// How loosely an operator binds: 1 for 6.5.5 up to 10 for 6.5.14.
pub fn level_of(operator: BinaryOperator) -> usize
    ensures { result ≡ meaning.level_of operator }
{
    match operator {
        BinaryOperator::Multiply | BinaryOperator::Divide | BinaryOperator::Remainder => 1,
        BinaryOperator::Add | BinaryOperator::Subtract => 2,
        BinaryOperator::ShiftLeft | BinaryOperator::ShiftRight => 3,
        BinaryOperator::Less
        | BinaryOperator::Greater
        | BinaryOperator::LessEqual
        | BinaryOperator::GreaterEqual => 4,
        BinaryOperator::Equal | BinaryOperator::NotEqual => 5,
        BinaryOperator::BitAnd => 6,
        BinaryOperator::BitXor => 7,
        BinaryOperator::BitOr => 8,
        BinaryOperator::And => 9,
        BinaryOperator::Or => 10,
    }
}

/// What the next token is in front of an operand.
#[tactic(auto, unfolding(crate::specs::Shapes::Roles::begins))]
pub(crate) fn begins(cursor: &Cursor<'_>) -> Begin
    ensures { result ≡ roles.begins cursor.now }
{
    begin_of(cursor.terminal())
}

/// What the next token is behind an operand.
#[tactic(auto, unfolding(crate::specs::Shapes::Roles::follows))]
pub(crate) fn follows(cursor: &Cursor<'_>) -> Behind
    ensures { result ≡ roles.follows cursor.now }
{
    behind_of(cursor.terminal())
}

/// Whether a cast comes next, and no expression in brackets.
#[tactic(auto, unfolding(crate::specs::Shapes::Roles::begins_cast))]
pub(crate) fn begins_cast(cursor: &Cursor<'_>) -> bool
    ensures { result ≡ roles.begins_cast cursor.now }
{
    match begins(cursor) {
        Begin::Open => begins_type(cursor.second()),
        _ => false,
    }
}
