//! How the runs of a first text end.
ghost use Rattle.std.specs.Prelude.{◌≡◌, length, replicate, IfOk};
ghost use Rattle.cx_first.specs.Tree.{tree_of, form_of, source_of};
ghost use Rattle.cx_first.specs.Runs as meaning;
ghost use Rattle.cx_first.specs.Steps.{StepIs, StoresIs, LeavesIs};

use crate::evaluation::{Evaluated, Undefined, evaluate};
use crate::tree::{Expr, FirstText, Statement};
use cx_base::NoMemory;
use std::alloc::Global;

/// How the longest run of a text ends.
#[derive(Clone, Copy, Debug, PartialEq, Eq)]
pub enum RunEnd {
    /// Behind the last statement, or by a `return`.
    Finished,
    /// At a statement whose value is undefined, at this node and for this cause.
    Stuck {
        statement: u32,
        node: u32,
        cause: Undefined,
    },
}

/// Where a statement leads.
#[derive(Clone, Copy)]
enum Next {
    /// To the statement behind it.
    Behind,
    /// To the end.
    Ended,
    /// Nowhere: its value is undefined.
    Nowhere { node: u32, cause: Undefined },
}

/// Stores the value of an expression in the memory.
fn store(memory: &mut Vec<Option<i128>>, variable: u32, value: &Expr) -> Next
    requires { meaning.IsSmall (tree_of value.now) }
    ensures { StoresIs (tree_of value.now) variable memory.old.items memory.new.items result }
{
    match evaluate(value, memory.as_slice()) {
        Evaluated::Stopped { node, cause } => Next::Nowhere { node, cause },
        Evaluated::Value(value) => {
            let index = variable as usize;
            if index < memory.len() {
                memory[index] = Some(value);
            }
            Next::Behind
        }
    }
}

/// Evaluates what a `return` gives.
fn leave(memory: &[Option<i128>], value: &Expr) -> Next
    requires { meaning.IsSmall (tree_of value.now) }
    ensures { LeavesIs (tree_of value.now) memory.now result }
{
    match evaluate(value, memory) {
        Evaluated::Stopped { node, cause } => Next::Nowhere { node, cause },
        Evaluated::Value(_) => Next::Ended,
    }
}

/// Runs one statement.
fn step(memory: &mut Vec<Option<i128>>, statement: &Statement) -> Next
    requires { meaning.IsSmallForm (form_of statement.now) }
    ensures { StepIs (form_of statement.now) memory.old.items memory.new.items result }
{
    match statement {
        Statement::Declare { value: None, .. } => Next::Behind,
        Statement::Declare {
            variable,
            value: Some(value),
            ..
        } => store(memory, *variable, value),
        Statement::Assign {
            variable,
            value,
            ..
        } => store(memory, *variable, value),
        Statement::Return { value, .. } => leave(memory.as_slice(), value),
    }
}

/// A memory of so many variables without a value.
fn no_values(alloc: Global, count: usize) -> Result<Vec<Option<i128>>, NoMemory>
    ensures { IfOk result (λ v. v.items ≡ replicate count None) }
{
    let memory = vec![in alloc; None; count]?;
    Ok(memory)
}

/// How the longest run of the text ends, in a memory without values.
fn end_in(memory: &mut Vec<Option<i128>>, text: &FirstText) -> RunEnd
    requires numbered { meaning.IsNumbered (source_of text.now) }
    requires empty { memory.old.items ≡ replicate (length text.now.names) None }
    ensures { meaning.Ends (source_of text.now) result }
{
    let mut number: u32 = 0;
    for statement in text.statements.as_slice() {
        match step(memory, statement) {
            Next::Behind => {}
            Next::Ended => return RunEnd::Finished,
            Next::Nowhere { node, cause } => {
                return RunEnd::Stuck {
                    statement: number,
                    node,
                    cause,
                };
            }
        }
        number += 1;
    }
    RunEnd::Finished
}

/// How the longest run of the text ends: each statement is run in one memory, which starts with
/// no values, up to the end or to a value that is undefined (C11 6.8p3, 6.8.6.4).
#[tactic(auto, using(crate::proofs::RunLaws::ends_same))]
pub fn run(alloc: Global, text: &FirstText) -> Result<RunEnd, NoMemory>
    requires { meaning.IsNumbered (source_of text.now) }
    ensures ends { IfOk result (meaning.Ends (source_of text.now)) }
    ensures only { (end : RunEnd) → meaning.Ends (source_of text.now) end
        → IfOk result (λ r. r ≡ end) }
{
    let mut memory = no_values(alloc, text.names.len())?;
    Ok(end_in(&mut memory, text))
}
