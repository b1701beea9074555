//! Expressions however deep they nest.
ghost use Rattle.std.specs.Prelude.{ℕ, ◌≤◌, List, IfOk};
ghost use Rattle.cx_syntax_tree.specs.declared.expressions.TreeAssign.{TreeAssign as Assignments};
ghost use Rattle.cx_syntax_tree.specs.declared.expressions.TreeCond.{TreeCond as Conditionals};
ghost use Rattle.cx_syntax_tree.specs.declared.expressions.TreeExpr.{TreeExpr as Expressions};
ghost use Rattle.cx_syntax_tree.specs.declared.terminals.Lexeme.{Lexeme as Token};
ghost use Rattle.cx_reading.specs.Parsing.{Reads, Gives};
ghost use Rattle.cx_expressions.specs.Expressions as meaning;
ghost use Rattle.cx_expressions.specs.Limits as limits;
ghost use Rattle.cx_expressions.specs.Shapes.Parsers as spec;

use crate::operands::Grammar;
use cx_reading::{Cursor, Refusal};
use cx_syntax_tree::{TreeAssign, TreeCast, TreeCond, TreeExpr, TreeUnary};
use std::alloc::Global;

/// Reads a cast that nests at most so deep.
#[cycle(knot)]
fn cast(alloc: Global, cursor: &mut Cursor<'_>, depth: usize) -> Result<TreeCast, Refusal>
    ensures { Reads ((spec.readers depth).cast cursor.old) result cursor.new }
{
    if depth == 0 {
        return Err(Refusal::Syntax);
    }
    Grammar {
        alloc,
        depth: depth - 1,
        cast,
        unary,
        cond,
        assign,
    }
    .cast(cursor)
}

/// Reads a unary expression that nests at most so deep.
#[cycle(knot)]
fn unary(alloc: Global, cursor: &mut Cursor<'_>, depth: usize) -> Result<TreeUnary, Refusal>
    ensures { Reads ((spec.readers depth).unary cursor.old) result cursor.new }
{
    if depth == 0 {
        return Err(Refusal::Syntax);
    }
    Grammar {
        alloc,
        depth: depth - 1,
        cast,
        unary,
        cond,
        assign,
    }
    .unary(cursor)
}

/// Reads a conditional that nests at most so deep.
#[cycle(knot)]
fn cond(alloc: Global, cursor: &mut Cursor<'_>, depth: usize) -> Result<TreeCond, Refusal>
    ensures { Reads ((spec.readers depth).cond cursor.old) result cursor.new }
{
    if depth == 0 {
        return Err(Refusal::Syntax);
    }
    Grammar {
        alloc,
        depth: depth - 1,
        cast,
        unary,
        cond,
        assign,
    }
    .cond(cursor)
}

/// Reads an assignment that nests at most so deep.
#[cycle(knot)]
fn assign(alloc: Global, cursor: &mut Cursor<'_>, depth: usize) -> Result<TreeAssign, Refusal>
    ensures { Reads ((spec.readers depth).assign cursor.old) result cursor.new }
{
    if depth == 0 {
        return Err(Refusal::Syntax);
    }
    Grammar {
        alloc,
        depth: depth - 1,
        cast,
        unary,
        cond,
        assign,
    }
    .assign(cursor)
}

/// Reads an expression whose assignments nest at most so deep.
fn rows(alloc: Global, cursor: &mut Cursor<'_>, depth: usize) -> Result<TreeExpr, Refusal>
    ensures { Reads (spec.expr (spec.readers depth) cursor.old) result cursor.new }
{
    Grammar {
        alloc,
        depth,
        cast,
        unary,
        cond,
        assign,
    }
    .expr(cursor)
}

/// Reads an expression (C11 6.5.17), whose operands nest at most so deep in brackets and behind
/// operators.
pub fn expression(alloc: Global, cursor: &mut Cursor<'_>, depth: usize) -> Result<TreeExpr, Refusal>
    ensures reads { Reads (spec.expr (spec.readers depth) cursor.old) result cursor.new }
    ensures found { IfOk result (λ t. meaning.Expr cursor.old t cursor.new) }
    ensures only { (deep : ℕ) (t : Expressions) (rest : List Token) → deep ≤ depth
        → limits.ExprWithin deep cursor.old t rest → limits.EndsExpr rest
        → Gives t rest result cursor.new }
{
    rows(alloc, cursor, depth)
}

/// Reads an assignment (C11 6.5.16), whose operands nest less deep in brackets and behind
/// operators.
pub fn assignment(
    alloc: Global,
    cursor: &mut Cursor<'_>,
    depth: usize,
) -> Result<TreeAssign, Refusal>
    ensures reads { Reads ((spec.readers depth).assign cursor.old) result cursor.new }
    ensures found { IfOk result (λ t. meaning.Assign cursor.old t cursor.new) }
    ensures only { (deep : ℕ) (t : Assignments) (rest : List Token) → deep ≤ depth
        → limits.AssignWithin deep cursor.old t rest → limits.EndsAssign rest
        → Gives t rest result cursor.new }
{
    assign(alloc, cursor, depth)
}

/// Reads a conditional (C11 6.5.15), whose operands nest less deep in brackets and behind
/// operators.
pub fn conditional(
    alloc: Global,
    cursor: &mut Cursor<'_>,
    depth: usize,
) -> Result<TreeCond, Refusal>
    ensures reads { Reads ((spec.readers depth).cond cursor.old) result cursor.new }
    ensures found { IfOk result (λ t. meaning.Cond cursor.old t cursor.new) }
    ensures only { (deep : ℕ) (t : Conditionals) (rest : List Token) → deep ≤ depth
        → limits.CondWithin deep cursor.old t rest → limits.EndsCond rest
        → Gives t rest result cursor.new }
{
    cond(alloc, cursor, depth)
}
