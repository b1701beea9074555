//! The value of an expression in a memory.
ghost use Rattle.std.specs.Prelude.{◌≡◌, ◌+◌, ◌<◌, ◌≤◌, ◌^◌, pos};
ghost use Rattle.cx_tree.specs.declared.operators.Op.TheVariants as operation;
ghost use Rattle.cx_first.specs.Tree.{tree_of};
ghost use Rattle.cx_first.specs.Evaluation as meaning;
ghost use Rattle.cx_first.specs.Counting.{last_counted, then_count, counts_on, counted};

use crate::tree::{Expr, Operator};
use cx_tree::{IntType, Op, Platform, arith};

/// Why an evaluation has no value.
#[derive(Clone, Copy, Debug, PartialEq, Eq)]
pub enum Undefined {
    /// A variable without a value is read (C11 6.3.2.1p2).
    Uninitialized,
    /// A divisor is 0 (C11 6.5.5p5).
    ZeroDivisor,
    /// A result is no int (C11 6.5p5).
    Overflow,
}

/// What an evaluation comes to.
#[derive(Clone, Copy, Debug, PartialEq, Eq)]
pub enum Evaluated {
    /// The value.
    Value(i128),
    /// It stops at the node of this number, counted from 0 in the order in which values are made.
    Stopped { node: u32, cause: Undefined },
}

/// How an evaluation ends.
#[derive(Clone, Copy, Debug, PartialEq, Eq)]
pub enum End {
    Value(i128),
    Undefined(Undefined),
}

/// How many nodes made a value, and how that ended.
#[derive(Clone, Copy)]
struct Tally {
    nodes: u32,
    end: End,
}

/// The value of a variable, where the memory holds one.
fn held(memory: &[Option<i128>], variable: u32) -> Option<i128>
    ensures { result ≡ meaning.held memory.now variable }
{
    match memory.get(variable as usize) {
        Some(value) => *value,
        None => None,
    }
}

/// The operation on int that an operator stands for.
fn operation_of(operator: Operator) -> Op
    ensures { result ≡ meaning.operation_of operator }
{
    match operator {
        Operator::Add => Op::Add,
        Operator::Subtract => Op::Subtract,
        Operator::Multiply => Op::Multiply,
        Operator::Divide => Op::Divide,
    }
}

/// Why an operation with this right operand is undefined, where it is.
fn cause_of(operator: Operator, right: i128) -> Undefined
    ensures { result ≡ meaning.cause_of operator right }
{
    match operator {
        Operator::Divide => {
            if right == 0 {
                Undefined::ZeroDivisor
            } else {
                Undefined::Overflow
            }
        }
        Operator::Add | Operator::Subtract | Operator::Multiply => Undefined::Overflow,
    }
}

/// The arithmetic of int.
fn on_int(operation: Op, left: i128, right: i128) -> Option<i128>
    ensures { result ≡ meaning.on_int operation left right }
{
    arith(operation, IntType::Int, Platform::Unix64, left, right)
}

/// The last node behind so many others: its value, or why it has none.
fn last_node(before: u32, cause: Undefined, value: Option<i128>) -> Tally
    requires { before + 1 < 2 ^ 32 }
    ensures { result ≡ counts_on before (End.Value (pos 0)) (λ _. last_counted cause value) }
{
    match value {
        Some(value) => Tally {
            nodes: before + 1,
            end: End::Value(value),
        },
        None => Tally {
            nodes: before,
            end: End::Undefined(cause),
        },
    }
}

#[tactic(auto, using(crate::proofs::CountingLaws::counts))]
fn counted(expr: &Expr, memory: &[Option<i128>]) -> Tally
    requires { meaning.size (tree_of expr.now) < 2 ^ 32 }
    ensures counted { result ≡ counted (tree_of expr.now) memory.now }
    ensures within { result.nodes ≤ meaning.size (tree_of expr.now) }
{
    match expr {
        Expr::Number { value, .. } => {
            last_node(0, Undefined::Overflow, Some(i128::from(*value)))
        }
        Expr::Variable { variable, .. } => {
            last_node(0, Undefined::Uninitialized, held(memory, *variable))
        }
        Expr::Negation { operand, .. } => negated(counted(operand.get(), memory)),
        Expr::Binary {
            operator,
            left,
            right,
            ..
        } => {
            let first = counted(left.get(), memory);
            match first.end {
                End::Undefined(_) => first,
                End::Value(_) => operated(*operator, first, counted(right.get(), memory)),
            }
        }
        Expr::Brackets { inner } => counted(inner.get(), memory),
    }
}

/// A unary `-` behind its operand.
fn negated(operand: Tally) -> Tally
    requires { operand.nodes + 1 < 2 ^ 32 }
    ensures { result
        ≡ then_count operand
        (λ v. last_counted Undefined.Overflow (meaning.on_int operation.Negate v (pos 0))) }
{
    match operand.end {
        End::Undefined(_) => operand,
        End::Value(value) => last_node(
            operand.nodes,
            Undefined::Overflow,
            on_int(Op::Negate, value, 0),
        ),
    }
}

/// An operator behind its operands.
fn operated(operator: Operator, left: Tally, right: Tally) -> Tally
    requires { left.nodes + right.nodes + 1 < 2 ^ 32 }
    ensures within { result.nodes ≤ left.nodes + right.nodes + 1 }
    ensures counted { result ≡ then_count left
        (λ v. then_count right
        (λ w. last_counted (meaning.cause_of operator w)
        (meaning.on_int (meaning.operation_of operator) v w))) }
{
    match (left.end, right.end) {
        (End::Undefined(_), _) => left,
        (End::Value(_), End::Undefined(_)) => Tally {
            nodes: left.nodes + right.nodes,
            end: right.end,
        },
        (End::Value(first), End::Value(second)) => last_node(
            left.nodes + right.nodes,
            cause_of(operator, second),
            on_int(operation_of(operator), first, second),
        ),
    }
}

/// The value of the expression in the memory, by int arithmetic from left to right (C11 6.5), or
/// the node that has none. A variable that the memory does not hold has no value.
#[tactic(auto, using(crate::proofs::CountingLaws::agrees))]
pub fn evaluate(expr: &Expr, memory: &[Option<i128>]) -> Evaluated
    requires { meaning.size (tree_of expr.now) < 2 ^ 32 }
    ensures { result ≡ meaning.evaluated (tree_of expr.now) memory.now }
{
    let counted = counted(expr, memory);
    match counted.end {
        End::Value(value) => Evaluated::Value(value),
        End::Undefined(cause) => Evaluated::Stopped {
            node: counted.nodes,
            cause,
        },
    }
}
