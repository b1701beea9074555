//! Expressions from tokens, by recursive descent. An expression is at most as deep as it has
//! tokens, and these are counted before the descent.
ghost use Rattle.std.specs.Prelude.{◌≡◌, ◌≤◌, ◌<◌, ℕ, List as Items, [], ◌∷◌, length, IfOk, IfSome, IfNone, IsSomeAnd, None, Some, MatchOption};
ghost use Rattle.cx_tokens.specs.declared.token.Token.{Token};
ghost use Rattle.cx_first.specs.Tree as tree;
ghost use Rattle.cx_first.specs.Grammar.{Reads, Chains, operator_of, level_of};
ghost use Rattle.cx_first.specs.Terminals.{terminal};
ghost use Rattle.cx_first.specs.Descent.{Stops, OperatorAt, NoOperator, TerminalAt, NoTerminal};

use crate::names::Names;
use crate::terminals::{Terminal, after_terminal, first, terminal_of};
use crate::tree::{Expr, Operator};
use cx_base::NoMemory;
use cx_tokens::Token;
use sqlite_items::Boxed;
use std::alloc::Global;

/// The operator that a terminal is between two operands.
#[tactic(auto, unfolding(crate::specs::Grammar::operator_of))]
fn operator_of(terminal: Terminal) -> Option<Operator>
    ensures { result ≡ operator_of terminal }
{
    match terminal {
        Terminal::Plus => Some(Operator::Add),
        Terminal::Minus => Some(Operator::Subtract),
        Terminal::Star => Some(Operator::Multiply),
        Terminal::Slash => Some(Operator::Divide),
        _ => None,
    }
}

/// How loosely an operator binds.
#[tactic(auto, unfolding(crate::specs::Grammar::level_of))]
fn level_of(operator: Operator) -> u8
    ensures { result ≡ level_of operator }
{
    match operator {
        Operator::Multiply | Operator::Divide => 1,
        Operator::Add | Operator::Subtract => 2,
    }
}

/// The operator of a level at the front of tokens, its token, and those behind it.
fn operator_at<'a>(level: u8, tokens: &'a [Token]) -> Option<(Operator, &'a Token, &'a [Token])>
    ensures none { IfNone result (NoOperator level tokens.now) }
    ensures some { IfSome result (λ x. OperatorAt level tokens.now x.0 x.1.now x.2.now) }
{
    let (token, rest) = first(tokens)?;
    let operator = operator_of(terminal_of(token))?;
    if level_of(operator) == level {
        Some((operator, token, rest))
    } else {
        None
    }
}

/// A name's variable.
#[tactic(auto, using(crate::proofs::TreeLaws::trees, crate::proofs::DescentLaws::reads_variable))]
fn variable<'a>(names: &Names, token: &'a Token, rest: &'a [Token]) -> Option<(Expr, &'a [Token])>
    requires few { length names.now ≤ 4294967296 }
    requires name { terminal token.now ≡ Terminal.Name }
    ensures found { IfSome result
        (λ x. Reads names.now 0 (token.now ∷ rest.now) (tree.tree_of x.0) x.1.now) }
    ensures only { (t : tree.Tree) (behind : Items Token)
        → Reads names.now 0 (token.now ∷ rest.now) t behind
        → IsSomeAnd result (λ x. (tree.tree_of x.0 ≡ t) × (x.1.now ≡ behind)) }
    ensures shorter { IfSome result (λ x. length x.1.now ≤ length rest.now) }
{
    let variable = names.find(token.text.as_slice())?;
    let at = token.place;
    Some((Expr::Variable { variable, at }, rest))
}

/// An operand: a number, a name, a negation or an expression in brackets.
#[cycle(expression)]
#[tactic(auto, using(crate::proofs::TreeLaws::trees))]
fn operand<'a>(
    alloc: Global,
    names: &Names,
    tokens: &'a [Token],
) -> Result<Option<(Expr, &'a [Token])>, NoMemory>
    requires { length names.now ≤ 4294967296 }
    ensures found { IfOk result
        (λ f. IfSome f (λ x. Reads names.now 0 tokens.now (tree.tree_of x.0) x.1.now)) }
    ensures only { (t : tree.Tree) (rest : Items Token) → Reads names.now 0 tokens.now t rest
        → IfOk result (λ f. IsSomeAnd f (λ x. (tree.tree_of x.0 ≡ t) × (x.1.now ≡ rest))) }
    ensures shorter { IfOk result (λ f. IfSome f (λ x. length x.1.now < length tokens.now)) }
{
    let Some((token, rest)) = first(tokens) else {
        return Ok(None);
    };
    match terminal_of(token) {
        Terminal::Number(value) => {
            let at = token.place;
            Ok(Some((Expr::Number { value, at }, rest)))
        }
        Terminal::Name => Ok(variable(names, token, rest)),
        Terminal::Minus => negation(alloc, names, token, rest),
        Terminal::Open => bracketed(alloc, names, token, rest),
        _ => Ok(None),
    }
}

/// A negation, behind its `-`.
#[cycle(expression)]
#[tactic(auto, using(crate::proofs::TreeLaws::trees))]
fn negation<'a>(
    alloc: Global,
    names: &Names,
    token: &'a Token,
    tokens: &'a [Token],
) -> Result<Option<(Expr, &'a [Token])>, NoMemory>
    requires few { length names.now ≤ 4294967296 }
    requires minus { terminal token.now ≡ Terminal.Minus }
    ensures found { IfOk result
        (λ f. IfSome f
        (λ x. Reads names.now 0 (token.now ∷ tokens.now) (tree.tree_of x.0) x.1.now)) }
    ensures only { (t : tree.Tree) (rest : Items Token)
        → Reads names.now 0 (token.now ∷ tokens.now) t rest
        → IfOk result (λ f. IsSomeAnd f (λ x. (tree.tree_of x.0 ≡ t) × (x.1.now ≡ rest))) }
    ensures shorter { IfOk result (λ f. IfSome f (λ x. length x.1.now < length tokens.now)) }
{
    match operand(alloc, names, tokens)? {
        None => Ok(None),
        Some((inner, rest)) => {
            let at = token.place;
            let operand = Boxed::new(alloc, inner)?;
            Ok(Some((Expr::Negation { at, operand }, rest)))
        }
    }
}

/// An expression in brackets, behind the first of them.
#[cycle(expression)]
#[tactic(auto, using(crate::proofs::TreeLaws::trees))]
fn bracketed<'a>(
    alloc: Global,
    names: &Names,
    token: &'a Token,
    tokens: &'a [Token],
) -> Result<Option<(Expr, &'a [Token])>, NoMemory>
    requires few { length names.now ≤ 4294967296 }
    requires open { terminal token.now ≡ Terminal.Open }
    ensures found { IfOk result
        (λ f. IfSome f
        (λ x. Reads names.now 0 (token.now ∷ tokens.now) (tree.tree_of x.0) x.1.now)) }
    ensures only { (t : tree.Tree) (rest : Items Token)
        → Reads names.now 0 (token.now ∷ tokens.now) t rest
        → IfOk result (λ f. IsSomeAnd f (λ x. (tree.tree_of x.0 ≡ t) × (x.1.now ≡ rest))) }
    ensures shorter { IfOk result (λ f. IfSome f (λ x. length x.1.now < length tokens.now)) }
{
    match chain(alloc, names, 2, tokens)? {
        None => Ok(None),
        Some((inner, behind)) => match after_terminal(Terminal::Close, behind) {
            None => Ok(None),
            Some(rest) => {
                let inner = Boxed::new(alloc, inner)?;
                Ok(Some((Expr::Brackets { inner }, rest)))
            }
        },
    }
}

/// An expression of the operators up to a level.
#[cycle(expression)]
#[tactic(auto, using(crate::proofs::TreeLaws::trees))]
pub(crate) fn chain<'a>(
    alloc: Global,
    names: &Names,
    level: u8,
    tokens: &'a [Token],
) -> Result<Option<(Expr, &'a [Token])>, NoMemory>
    requires few { length names.now ≤ 4294967296 }
    requires level { level ≤ 2 }
    ensures found { IfOk result
        (λ f. IfSome f (λ x. Reads names.now level tokens.now (tree.tree_of x.0) x.1.now)) }
    ensures only { (t : tree.Tree) (rest : Items Token) → Reads names.now level tokens.now t rest
        → Stops level rest
        → IfOk result (λ f. IsSomeAnd f (λ x. (tree.tree_of x.0 ≡ t) × (x.1.now ≡ rest))) }
    ensures shorter { IfOk result (λ f. IfSome f (λ x. length x.1.now < length tokens.now)) }
{
    if level == 0 {
        return operand(alloc, names, tokens);
    }
    match chain(alloc, names, level - 1, tokens)? {
        None => Ok(None),
        Some((left, rest)) => operators(alloc, names, level, left, rest),
    }
}

/// The operators of a level behind their first operand, from left to right.
#[cycle(expression)]
#[tactic(auto, using(crate::proofs::TreeLaws::trees))]
fn operators<'a>(
    alloc: Global,
    names: &Names,
    level: u8,
    left: Expr,
    tokens: &'a [Token],
) -> Result<Option<(Expr, &'a [Token])>, NoMemory>
    requires few { length names.now ≤ 4294967296 }
    requires low { 0 < level }
    requires level { level ≤ 2 }
    ensures found { IfOk result
        (λ f. IfSome f
        (λ x. Chains names.now level (tree.tree_of left) tokens.now (tree.tree_of x.0) x.1.now)) }
    ensures only { (t : tree.Tree) (rest : Items Token)
        → Chains names.now level (tree.tree_of left) tokens.now t rest → Stops level rest
        → IfOk result (λ f. IsSomeAnd f (λ x. (tree.tree_of x.0 ≡ t) × (x.1.now ≡ rest))) }
    ensures shorter { IfOk result (λ f. IfSome f (λ x. length x.1.now ≤ length tokens.now)) }
{
    let mut left = left;
    let mut rest = tokens;
    while let Some((operator, token, behind)) = operator_at(level, rest) {
        match chain(alloc, names, level - 1, behind)? {
            None => return Ok(None),
            Some((right, after)) => {
                left = Expr::Binary {
                    operator,
                    at: token.place,
                    left: Boxed::new(alloc, left)?,
                    right: Boxed::new(alloc, right)?,
                };
                rest = after;
            }
        }
    }
    Ok(Some((left, rest)))
}
