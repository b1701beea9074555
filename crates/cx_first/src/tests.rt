//! Texts, their trees and how their runs end.
ghost use Rattle.std.specs.Prelude.{◌<◌, length, IfOk, IfSome};
ghost use Rattle.cx_first.specs.Tree.{source_of};
ghost use Rattle.cx_first.specs.Runs.{IsNumbered};

use crate::{Expr, FirstText, Operator, Statement, read, run};
use cx_base::{List, NoMemory};
use cx_lex::lex;
use std::alloc::{AllocError, Global};

/// Texts, with their statements where they are first texts: a variable by its index, an operation
/// in `( )` and written brackets as `[ ]`.
const TREES: [(&str, &str); 27] = [
    ("", ""),
    ("int f(void) { }", ""),
    (
        "int f(void) { int a = 1, b, c = a; }",
        "int 0 = 1; int 1; int 2 = 0v; ",
    ),
    (
        "int f(void) { int a; a = a - a - a; }",
        "int 0; 0 = ((0v - 0v) - 0v); ",
    ),
    (
        "int f(void) { return 1 + 2 * 3 / 4 - 5; }",
        "return ((1 + ((2 * 3) / 4)) - 5); ",
    ),
    (
        "int f(void) { return (1 + 2) * - -3; }",
        "return ([(1 + 2)] * (-(-3))); ",
    ),
    ("int f(void) { int x = x; }", "int 0 = 0v; "),
    (
        "int f(void) { return 1; return 2; }",
        "return 1; return 2; ",
    ),
    ("int f(void) { int a = a = 1; }", "none"),
    ("int f(void) { a = 1; int a; }", "none"),
    ("int f(void) { int b = a, a; }", "none"),
    ("int f(void) { int a; int a; }", "none"),
    ("int f(void) { int a, b, a = 2; }", "none"),
    ("int f(void) { int f; }", "none"),
    ("int f(void) { return f; }", "none"),
    ("int f(void) { int while; }", "none"),
    ("int f(void) { int _Bool; }", "none"),
    ("int f(void) { int _Bo; }", "int 0; "),
    ("int return(void) { }", "none"),
    ("int f(void) { return; }", "none"),
    ("int f(void) { return 1, 2; }", "none"),
    ("int f(void) { return (1; }", "none"),
    ("int f(void) { return 1 2; }", "none"),
    ("int f(void) { int a, }", "none"),
    ("int f(void) { } }", "none"),
    ("int f(void) {", "none"),
    ("int f() { }", "none"),
];

/// Texts, and how their runs end.
const ENDS: [(&str, &str); 16] = [
    ("", "Finished"),
    (
        "int f(void) { int a = 7, b = a / 2; a = a * b; return a - b; }",
        "Finished",
    ),
    ("int f(void) { return 1; return 1 / 0; }", "Finished"),
    (
        "int f(void) { int x = x; }",
        "Stuck { statement: 0, node: 0, cause: Uninitialized }",
    ),
    (
        "int f(void) { int a = 1, b; b = a + b; }",
        "Stuck { statement: 2, node: 1, cause: Uninitialized }",
    ),
    (
        "int f(void) { return 2147483647 + 1; }",
        "Stuck { statement: 0, node: 2, cause: Overflow }",
    ),
    (
        "int f(void) { return 1 / 0; }",
        "Stuck { statement: 0, node: 2, cause: ZeroDivisor }",
    ),
    (
        "int f(void) { return (1) / ((0)); }",
        "Stuck { statement: 0, node: 2, cause: ZeroDivisor }",
    ),
    (
        "int f(void) { return (-2147483647 - 1) / -1; }",
        "Stuck { statement: 0, node: 6, cause: Overflow }",
    ),
    (
        "int f(void) { return -(-2147483647 - 1); }",
        "Stuck { statement: 0, node: 4, cause: Overflow }",
    ),
    ("int f(void) { return -2147483647 - 1; }", "Finished"),
    (
        "int f(void) { int a = 65536; return a * a / 0; }",
        "Stuck { statement: 1, node: 2, cause: Overflow }",
    ),
    ("int f(void) { return - -1; }", "Finished"),
    ("int f(void) { int a; a = 1; return a; }", "Finished"),
    (
        "int f(void) { return 1 / (2 - 1 - 1); }",
        "Stuck { statement: 0, node: 6, cause: ZeroDivisor }",
    ),
    ("int f(void) { return 1 / (2 - (1 - 1)); }", "Finished"),
];

/// What stands before, an item, how often it stands, what stands behind them, an item that stands
/// there as often, what stands at the end, and how the run of that text ends.
const LONG: [(&str, &str, usize, &str, &str, &str, &str); 11] = [
    (
        "int f(void) { return 0",
        "",
        127,
        "",
        "+ 1 ",
        "; }",
        "Finished",
    ),
    (
        "int f(void) { return -0",
        "",
        127,
        "",
        "+ 1 ",
        "; }",
        "Finished",
    ),
    (
        "int f(void) { return - -0",
        "",
        127,
        "",
        "+ 1 ",
        "; }",
        "none",
    ),
    (
        "int f(void) { int a = 0",
        "",
        128,
        "",
        "- 1 ",
        ", b; }",
        "none",
    ),
    (
        "int f(void) { return ",
        "- ",
        255,
        "1",
        "",
        "; }",
        "Finished",
    ),
    (
        "int f(void) { return ",
        "(",
        127,
        "1",
        ")",
        "; }",
        "Finished",
    ),
    ("int f(void) { return ", "(", 128, "1", ")", "; }", "none"),
    (
        "int f(void) { return ",
        "- ",
        200000,
        "1",
        "",
        "; }",
        "none",
    ),
    (
        "int f(void) { return ",
        "(",
        200000,
        "1",
        ")",
        "; }",
        "none",
    ),
    (
        "int f(void) { int a = 0; ",
        "a = a + 1; ",
        100000,
        "return a; ",
        "",
        "}",
        "Finished",
    ),
    (
        "int f(void) { int a; ",
        "",
        100000,
        "",
        "a = a; ",
        "}",
        "Stuck { statement: 1, node: 0, cause: Uninitialized }",
    ),
];

fn terminal_of(operator: Operator) -> &'static str {
    match operator {
        Operator::Add => "+",
        Operator::Subtract => "-",
        Operator::Multiply => "*",
        Operator::Divide => "/",
    }
}

fn show(alloc: Global, expr: &Expr) -> Result<String, AllocError> {
    match expr {
        Expr::Number { value, .. } => format!(in alloc; "{value}"),
        Expr::Variable { variable, .. } => format!(in alloc; "{variable}v"),
        Expr::Negation { operand, .. } => {
            let operand = show(alloc, operand.get())?;
            format!(in alloc; "(-{operand})")
        }
        Expr::Binary {
            operator,
            left,
            right,
            ..
        } => {
            let left = show(alloc, left.get())?;
            let right = show(alloc, right.get())?;
            format!(in alloc; "({left} {} {right})", terminal_of(*operator))
        }
        Expr::Brackets { inner } => {
            let inner = show(alloc, inner.get())?;
            format!(in alloc; "[{inner}]")
        }
    }
}

fn show_statement(alloc: Global, statement: &Statement) -> Result<String, AllocError> {
    match statement {
        Statement::Declare {
            variable,
            value: None,
            ..
        } => format!(in alloc; "int {variable}; "),
        Statement::Declare {
            variable,
            value: Some(value),
            ..
        } => {
            let value = show(alloc, value)?;
            format!(in alloc; "int {variable} = {value}; ")
        }
        Statement::Assign {
            variable,
            value,
            ..
        } => {
            let value = show(alloc, value)?;
            format!(in alloc; "{variable} = {value}; ")
        }
        Statement::Return { value, .. } => {
            let value = show(alloc, value)?;
            format!(in alloc; "return {value}; ")
        }
    }
}

fn show_text(alloc: Global, text: &FirstText) -> Result<String, AllocError> {
    let mut shown = String::new(alloc);
    for statement in text.statements.as_slice() {
        shown.push_str(&show_statement(alloc, statement)?)?;
    }
    Ok(shown)
}

/// A text with an item so many times behind it.
fn repeated(alloc: Global, front: &str, item: &str, count: usize) -> Result<String, AllocError> {
    let mut text = String::from_str(alloc, front)?;
    for _ in 0..count {
        text.push_str(item)?;
    }
    Ok(text)
}

/// The first text that a text is.
fn read_text(alloc: Global, text: &str) -> Result<Option<FirstText>, NoMemory>
    requires { length text.now < 4294967295 }
    ensures { IfOk result (λ f. IfSome f (λ t. IsNumbered (source_of t))) }
{
    let Ok(lexed) = lex(alloc, text.as_bytes(), 0) else {
        return Ok(None);
    };
    let mut tokens = List::new(alloc);
    for piece in lexed.pieces.as_slice() {
        tokens.push(piece.token.copy()?)?;
    }
    let tokens = tokens.as_slice();
    if tokens.len() < 4_000_000 {
        read(alloc, tokens)
    } else {
        Ok(None)
    }
}

/// How the run of a text ends, or that it is no first text.
fn end_of(alloc: Global, text: &str) -> Result<String, NoMemory>
    requires { length text.now < 4294967295 }
{
    match read_text(alloc, text)? {
        None => Ok(format!(in alloc; "none")?),
        Some(text) => {
            let end = run(alloc, &text)?;
            Ok(format!(in alloc; "{end:?}")?)
        }
    }
}

/// The statements of a text, or that it is no first text.
fn tree_of_text(alloc: Global, text: &str) -> Result<String, NoMemory>
    requires { length text.now < 4294967295 }
{
    match read_text(alloc, text)? {
        None => Ok(format!(in alloc; "none")?),
        Some(text) => Ok(show_text(alloc, &text)?),
    }
}

#[test]
fn texts_have_their_trees(rt: HostRuntime) {
    for (text, expected) in TREES {
        assert!(rt; text.len() < 1000);
        let shown = tree_of_text(rt.alloc(), text).expect(&rt, "memory");
        assert_eq!(rt; shown.as_str(), expected, "at {text}");
    }
}

#[test]
fn runs_end(rt: HostRuntime) {
    for (text, expected) in ENDS {
        assert!(rt; text.len() < 1000);
        let end = end_of(rt.alloc(), text).expect(&rt, "memory");
        assert_eq!(rt; end.as_str(), expected, "at {text}");
    }
}

#[test]
fn long_texts_end(rt: HostRuntime) {
    for (front, opens, count, middle, closes, back, expected) in LONG {
        let mut text = repeated(rt.alloc(), front, opens, count).expect(&rt, "memory");
        let rest = repeated(rt.alloc(), middle, closes, count).expect(&rt, "memory");
        text.push_str(rest.as_str()).expect(&rt, "memory");
        text.push_str(back).expect(&rt, "memory");
        assert!(rt; text.len() < 4_000_000);
        let end = end_of(rt.alloc(), text.as_str()).expect(&rt, "memory");
        assert_eq!(rt;
            end.as_str(),
            expected,
            "at {count} of {opens} and {closes}"
        );
    }
}
