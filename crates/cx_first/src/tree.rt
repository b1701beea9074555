//! The tree of a first text.
use cx_base::{List, Place, Text};
use sqlite_items::Boxed;

/// An operator on two operands (C11 6.5.5 and 6.5.6).
#[derive(Clone, Copy, Debug, PartialEq, Eq)]
pub enum Operator {
    Add,
    Subtract,
    Multiply,
    Divide,
}

/// An expression. `at` is the place of the number, of the name or of the operator, and a variable
/// is its index in the names of its text.
#[derive(Debug, Drop)]
pub enum Expr {
    /// A decimal constant (C11 6.4.4.1).
    Number {
        value: u32,
        at: Place,
    },
    /// The value of a variable (C11 6.5.1).
    Variable {
        variable: u32,
        at: Place,
    },
    /// A unary `-` (C11 6.5.3.3).
    Negation {
        at: Place,
        operand: Boxed<Expr>,
    },
    /// An operator between two operands (C11 6.5.5 and 6.5.6).
    Binary {
        operator: Operator,
        at: Place,
        left: Boxed<Expr>,
        right: Boxed<Expr>,
    },
    /// An expression in brackets (C11 6.5.1p5), which makes no value of its own.
    Brackets {
        inner: Boxed<Expr>,
    },
}

/// A statement or a declarator. `at` is the place of the declared or assigned name, or of `return`.
#[derive(Debug, Drop)]
pub enum Statement {
    /// One declarator of an int, and its initialiser if it has one (C11 6.7, 6.7.9).
    Declare {
        variable: u32,
        at: Place,
        value: Option<Expr>,
    },
    /// A simple assignment (C11 6.5.16.1).
    Assign {
        variable: u32,
        at: Place,
        value: Expr,
    },
    /// A `return` with its expression (C11 6.8.6.4).
    Return {
        at: Place,
        value: Expr,
    },
}

/// A first text: its declared names and its statements, both in order.
#[derive(Debug, Drop)]
pub struct FirstText {
    pub names: List<Text>,
    pub statements: List<Statement>,
}
