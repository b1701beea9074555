//! The nodes of expressions, by their numbers: where each stands, and how it reads.
ghost use Rattle.std.specs.Prelude.{◌≡◌, [], ◌∷◌, ◌++◌, ℕ, decimal, slice_get, option_map, IfOk, OnOk, IsSome, IsSomeAnd};
ghost use Rattle.cx_first.specs.declared.evaluation.Undefined.{Undefined};
ghost use Rattle.cx_first.specs.Tree.{Source, tree_of, form_of, source_of};
ghost use Rattle.cx_first.specs.Runs as runs;
ghost use Rattle.cx_first.specs.Nodes as meaning;

use crate::tree::{Expr, FirstText, Operator, Statement};
use cx_base::{NoMemory, Place, Text};
use std::alloc::Global;

/// A node of an expression: its place, and its text without the spaces and comments between tokens.
#[derive(Debug, Drop)]
pub struct Node {
    pub place: Place,
    pub text: Text,
}

/// What a search for a node by its number finds.
#[derive(Clone, Copy)]
enum Found<'a> {
    /// The node.
    Node(&'a Expr),
    /// The number is past all nodes, by so much.
    Past(u32),
}

/// Finds the node behind its operands.
fn here<'a>(expr: &'a Expr, number: u32) -> Found<'a>
    ensures { meaning.FoundIs (tree_of expr.now ∷ []) number result }
{
    if number == 0 {
        Found::Node(expr)
    } else {
        Found::Past(number - 1)
    }
}

/// Finds the node of this number.
#[tactic(auto, using(crate::proofs::NodeLaws::nodes_are))]
fn find<'a>(expr: &'a Expr, number: u32) -> Found<'a>
    ensures { meaning.FoundIs (meaning.nodes (tree_of expr.now)) number result }
{
    match expr {
        Expr::Number { .. } | Expr::Variable { .. } => here(expr, number),
        Expr::Negation { operand, .. } => match find(operand.get(), number) {
            Found::Node(node) => Found::Node(node),
            Found::Past(more) => here(expr, more),
        },
        Expr::Binary { left, right, .. } => match find(left.get(), number) {
            Found::Node(node) => Found::Node(node),
            Found::Past(more) => match find(right.get(), more) {
                Found::Node(node) => Found::Node(node),
                Found::Past(more) => here(expr, more),
            },
        },
        Expr::Brackets { inner } => find(inner.get(), number),
    }
}

/// The place of an expression.
#[tactic(auto, using(crate::proofs::NodeLaws::places))]
fn place_of(expr: &Expr) -> Place
    ensures { result ≡ meaning.place_of (tree_of expr.now) }
{
    match expr {
        Expr::Number { at, .. } => *at,
        Expr::Variable { at, .. } => *at,
        Expr::Negation { at, .. } => *at,
        Expr::Binary { at, .. } => *at,
        Expr::Brackets { inner } => place_of(inner.get()),
    }
}

/// Adds the name of a variable.
fn push_name(text: &mut Text, names: &[Text], variable: u32) -> Result<(), NoMemory>
    ensures { OnOk result (text.new ≡ text.old ++ meaning.name_of names.now variable) }
{
    match names.get(variable as usize) {
        Some(name) => text.push_all(name.as_slice()),
        None => Ok(()),
    }
}

/// Adds the symbol of an operator.
fn push_symbol(text: &mut Text, operator: Operator) -> Result<(), NoMemory>
    ensures { OnOk result (text.new ≡ text.old ++ meaning.symbol_of operator) }
{
    match operator {
        Operator::Add => text.push_all(b"+"),
        Operator::Subtract => text.push_all(b"-"),
        Operator::Multiply => text.push_all(b"*"),
        Operator::Divide => text.push_all(b"/"),
    }
}

/// Adds the text of an expression.
#[tactic(auto, using(crate::proofs::NodeLaws::texts))]
fn push_text(text: &mut Text, names: &[Text], expr: &Expr) -> Result<(), NoMemory>
    ensures { OnOk result (text.new ≡ text.old ++ meaning.text_of names.now (tree_of expr.now)) }
{
    match expr {
        Expr::Number { value, .. } => text.push_number(*value),
        Expr::Variable { variable, .. } => push_name(text, names, *variable),
        Expr::Negation { operand, .. } => {
            text.push_all(b"-")?;
            push_text(text, names, operand.get())
        }
        Expr::Binary {
            operator,
            left,
            right,
            ..
        } => {
            push_text(text, names, left.get())?;
            push_symbol(text, *operator)?;
            push_text(text, names, right.get())
        }
        Expr::Brackets { inner } => {
            text.push_all(b"(")?;
            push_text(text, names, inner.get())?;
            text.push_all(b")")
        }
    }
}

/// The expression that a statement evaluates.
fn evaluates(statement: &Statement) -> Option<&Expr>
    ensures { option_map (λ e. tree_of e.now) result ≡ runs.evaluates (form_of statement.now) }
{
    match statement {
        Statement::Declare { value: None, .. } => None,
        Statement::Declare {
            value: Some(value),
            ..
        } => Some(value),
        Statement::Assign { value, .. } => Some(value),
        Statement::Return { value, .. } => Some(value),
    }
}

/// The expression of the statement of this number.
#[tactic(auto, using(crate::proofs::NodeLaws::expression_past, crate::proofs::NodeLaws::expression_at))]
fn expression(text: &FirstText, statement: u32) -> Option<&Expr>
    ensures { option_map (λ e. tree_of e.now) result
        ≡ runs.expression (source_of text.now) statement }
{
    match text.statements.as_slice().get(statement as usize) {
        Some(statement) => evaluates(statement),
        None => None,
    }
}

/// A node with its place and its text.
fn written(alloc: Global, names: &[Text], expr: &Expr) -> Result<Node, NoMemory>
    ensures { IfOk result (λ node. node ≡ meaning.written names.now (tree_of expr.now)) }
{
    let mut text = Text::new(alloc);
    push_text(&mut text, names, expr)?;
    Ok(Node {
        place: place_of(expr),
        text,
    })
}

/// The node of a statement's expression by its number, counted from 0 in the order in which the
/// nodes make their values. Brackets are no node of their own (C11 6.5.1p5).
#[tactic(auto, using(crate::proofs::NodeLaws::node_there, crate::proofs::NodeLaws::node_past))]
pub fn node_at(
    alloc: Global,
    text: &FirstText,
    statement: u32,
    node: u32,
) -> Result<Option<Node>, NoMemory>
    ensures { IfOk result (λ found. found ≡ meaning.node_of (source_of text.now) statement node) }
{
    let Some(expr) = expression(text, statement) else {
        return Ok(None);
    };
    match find(expr, node) {
        Found::Past(_) => Ok(None),
        Found::Node(expr) => {
            let node = written(alloc, text.names.as_slice(), expr)?;
            Ok(Some(node))
        }
    }
}

/// Where a text is stuck there is a node, and one that can be undefined for that cause.
pub fn stuck_at_a_node()
    ensures node { (text : Source) (statement node : ℕ) (cause : Undefined)
        → runs.IsStuck text statement node cause → IsSome (meaning.node_of text statement node) }
    ensures fits { (text : Source) (statement node : ℕ) (cause : Undefined)
        → runs.IsStuck text statement node cause
        → IsSomeAnd (meaning.node_tree text statement node) (meaning.CanStop cause) }
{}

#[cfg(test)]
mod tests {
    use super::*;
    use cx_base::List;
    use sqlite_items::Boxed;

    fn place(column: u32) -> Place {
        Place {
            file: 0,
            line: 1,
            column,
        }
    }

    fn number(value: u32, column: u32) -> Expr {
        Expr::Number {
            value,
            at: place(column),
        }
    }

    fn variable(variable: u32, column: u32) -> Expr {
        Expr::Variable {
            variable,
            at: place(column),
        }
    }

    fn negation(alloc: Global, column: u32, operand: Expr) -> Result<Expr, NoMemory> {
        Ok(Expr::Negation {
            at: place(column),
            operand: Boxed::new(alloc, operand)?,
        })
    }

    fn binary(
        alloc: Global,
        operator: Operator,
        column: u32,
        left: Expr,
        right: Expr,
    ) -> Result<Expr, NoMemory> {
        Ok(Expr::Binary {
            operator,
            at: place(column),
            left: Boxed::new(alloc, left)?,
            right: Boxed::new(alloc, right)?,
        })
    }

    fn brackets(alloc: Global, inner: Expr) -> Result<Expr, NoMemory> {
        Ok(Expr::Brackets {
            inner: Boxed::new(alloc, inner)?,
        })
    }

    // `(2147483647 + 1) / 2`
    fn quotient(alloc: Global) -> Result<Expr, NoMemory> {
        let sum = binary(
            alloc,
            Operator::Add,
            13,
            number(2147483647, 2),
            number(1, 15),
        )?;
        let operand = brackets(alloc, sum)?;
        binary(alloc, Operator::Divide, 18, operand, number(2, 20))
    }

    // `(1 + 2147483647) * 2`
    fn product(alloc: Global) -> Result<Expr, NoMemory> {
        let sum = binary(alloc, Operator::Add, 4, number(1, 2), number(2147483647, 6))?;
        let operand = brackets(alloc, sum)?;
        binary(alloc, Operator::Multiply, 18, operand, number(2, 20))
    }

    // `-(-2147483647 - 1)`
    fn negated(alloc: Global) -> Result<Expr, NoMemory> {
        let least = negation(alloc, 3, number(2147483647, 4))?;
        let difference = binary(alloc, Operator::Subtract, 15, least, number(1, 17))?;
        let operand = brackets(alloc, difference)?;
        negation(alloc, 1, operand)
    }

    // `y + x`, where `y` is declared first
    fn sum(alloc: Global) -> Result<Expr, NoMemory> {
        binary(alloc, Operator::Add, 3, variable(0, 1), variable(1, 5))
    }

    fn returned(value: Expr) -> Statement {
        Statement::Return {
            at: place(1),
            value,
        }
    }

    fn example(alloc: Global) -> Result<FirstText, NoMemory> {
        let mut names = List::new(alloc);
        names.push(Text::from_slice(alloc, b"y")?)?;
        names.push(Text::from_slice(alloc, b"x")?)?;
        let mut statements = List::new(alloc);
        statements.push(returned(quotient(alloc)?))?;
        statements.push(returned(product(alloc)?))?;
        statements.push(returned(negated(alloc)?))?;
        statements.push(returned(sum(alloc)?))?;
        Ok(FirstText { names, statements })
    }

    #[test]
    fn nodes_have_places_and_texts(rt: HostRuntime) {
        let text = example(rt.alloc()).expect(&rt, "memory");
        for (statement, node, column, expected) in [
            (0, 2, 13, "2147483647+1"),
            (0, 4, 18, "(2147483647+1)/2"),
            (1, 2, 4, "1+2147483647"),
            (2, 1, 3, "-2147483647"),
            (2, 4, 1, "-(-2147483647-1)"),
            (3, 1, 5, "x"),
        ] {
            let found = node_at(rt.alloc(), &text, statement, node).expect(&rt, "memory");
            let node = found.expect(&rt, "a node");
            assert_eq!(rt; node.place, place(column), "at {expected}");
            assert_eq!(rt; node.text.as_slice(), expected.as_bytes(), "at {expected}");
        }
    }

    #[test]
    fn none_stands_past_the_last(rt: HostRuntime) {
        let text = example(rt.alloc()).expect(&rt, "memory");
        for (statement, node) in [(3, 3), (4, 0)] {
            let found = node_at(rt.alloc(), &text, statement, node).expect(&rt, "memory");
            assert!(rt; found.is_none(), "at {statement}, {node}");
        }
    }
}
