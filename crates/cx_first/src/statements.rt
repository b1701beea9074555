//! Statements and declarators from tokens, one at a time.
ghost use Rattle.std.specs.Prelude.{◌≡◌, ◌≤◌, ◌<◌, ◌+◌, ℕ, List as Items, [], ◌∷◌, ◌++◌, length, IfOk, IfSome, IfNone, IsSomeAnd, IsTrue, Option as Maybe, None, Some, option_map};
ghost use Rattle.cx_tokens.specs.declared.token.Token.{Token};
ghost use Rattle.cx_first.specs.Tree.{Tree, Form, tree_of, form_of};
ghost use Rattle.cx_first.specs.Names.{Names as NamesSoFar, index_of};
ghost use Rattle.cx_first.specs.Grammar.{Expression, Initialiser, Declarator, Simple, Reading, IsNew, follows};
ghost use Rattle.cx_first.specs.Terminals.{terminal};
ghost use Rattle.cx_first.specs.Descent.{ends_expression, ends_after, NewNameAt, NoNewName};

use crate::expressions::chain;
use crate::keywords::equals;
use crate::names::Names;
use crate::terminals::{Terminal, after_terminal, first, terminal_of};
use crate::tree::{Expr, Statement};
use cx_base::NoMemory;
use cx_tokens::Token;
use std::alloc::Global;

/// What the reader awaits.
#[derive(Clone, Copy, Debug, PartialEq, Eq)]
pub enum Awaits {
    /// A statement, a declaration, or the end of the body.
    Statement,
    /// A further declarator of a declaration.
    Declarator,
}

/// Whether a mark stands behind expressions, and never in them.
#[tactic(auto, unfolding(crate::specs::Descent::ends_expression))]
fn ends_expression(terminal: Terminal) -> bool
    ensures { result ≡ ends_expression terminal }
{
    match terminal {
        Terminal::Comma | Terminal::Semicolon => true,
        _ => false,
    }
}

/// How many tokens stand before the first mark that ends an expression, where they are at most so
/// many.
fn length_of(limit: usize, tokens: &[Token]) -> Option<usize>
    ensures { result ≡ ends_after limit tokens.now }
{
    let mut count = 0;
    let mut rest = tokens;
    while let Some((token, behind)) = first(rest) {
        if ends_expression(terminal_of(token)) {
            return Some(count);
        }
        if count == limit {
            return None;
        }
        count += 1;
        rest = behind;
    }
    None
}

/// An expression of at most so many tokens, and the mark behind it.
fn expression<'a>(
    alloc: Global,
    names: &Names,
    limit: usize,
    tokens: &'a [Token],
) -> Result<Option<(Expr, Terminal, &'a [Token])>, NoMemory>
    requires { length names.now ≤ 4294967296 }
    ensures found { IfOk result
        (λ f. IfSome f (λ x. Expression limit names.now tokens.now (tree_of x.0) x.1 x.2.now)) }
    ensures only { (t : Tree) (mark : Terminal) (rest : Items Token)
        → Expression limit names.now tokens.now t mark rest → IsTrue (ends_expression mark)
        → IfOk result
        (λ f. IsSomeAnd f (λ x. (tree_of x.0 ≡ t) × (x.1 ≡ mark) × (x.2.now ≡ rest))) }
    ensures shorter { IfOk result (λ f. IfSome f (λ x. length x.2.now < length tokens.now)) }
{
    let Some(count) = length_of(limit, tokens) else {
        return Ok(None);
    };
    let (front, behind) = tokens.split_at(count);
    let Some((last, rest)) = first(behind) else {
        return Ok(None);
    };
    match chain(alloc, names, 2, front)? {
        None => Ok(None),
        Some((value, left)) => {
            if left.is_empty() {
                Ok(Some((value, terminal_of(last), rest)))
            } else {
                Ok(None)
            }
        }
    }
}

/// What may follow behind the mark at the end of a declarator.
#[tactic(auto, unfolding(crate::specs::Grammar::follows))]
fn follows(mark: Terminal) -> Option<Awaits>
    ensures { result ≡ follows mark }
{
    match mark {
        Terminal::Comma => Some(Awaits::Declarator),
        Terminal::Semicolon => Some(Awaits::Statement),
        _ => None,
    }
}

/// The name that a declarator begins with, where it may be declared, and the tokens behind it.
fn new_name<'a>(
    function: &[u8],
    names: &Names,
    tokens: &'a [Token],
) -> Option<(&'a Token, &'a [Token])>
    requires { length names.now ≤ 4294967296 }
    ensures none { IfNone result (NoNewName function.now names.now tokens.now) }
    ensures some { IfSome result
        (λ x. NewNameAt function.now names.now tokens.now x.0.now x.1.now) }
{
    let (token, rest) = first(tokens)?;
    let text = token.text.as_slice();
    match terminal_of(token) {
        Terminal::Name => {
            if equals(text, function) {
                return None;
            }
            match names.find(text) {
                Some(_) => None,
                None => Some((token, rest)),
            }
        }
        _ => None,
    }
}

/// A declarator's initialiser, if it has one, and the mark behind it.
fn initialiser<'a>(
    alloc: Global,
    names: &Names,
    limit: usize,
    tokens: &'a [Token],
) -> Result<Option<(Option<Expr>, Terminal, &'a [Token])>, NoMemory>
    requires { length names.now ≤ 4294967296 }
    ensures found { IfOk result
        (λ f. IfSome f
        (λ x. Initialiser limit names.now tokens.now (option_map tree_of x.0) x.1 x.2.now)) }
    ensures only { (t : Maybe Tree) (mark : Terminal) (rest : Items Token)
        → Initialiser limit names.now tokens.now t mark rest → IsTrue (ends_expression mark)
        → IfOk result
        (λ f. IsSomeAnd f (λ x. (option_map tree_of x.0 ≡ t) × (x.1 ≡ mark) × (x.2.now ≡ rest))) }
    ensures shorter { IfOk result (λ f. IfSome f (λ x. length x.2.now < length tokens.now)) }
{
    let Some((token, rest)) = first(tokens) else {
        return Ok(None);
    };
    match terminal_of(token) {
        Terminal::Equals => match expression(alloc, names, limit, rest)? {
            None => Ok(None),
            Some((value, mark, rest)) => Ok(Some((Some(value), mark, rest))),
        },
        mark => Ok(Some((None, mark, rest))),
    }
}

/// One declarator: its name counts as declared from its own initialiser on.
fn declarator<'a>(
    alloc: Global,
    function: &[u8],
    limit: usize,
    names: &mut Names,
    tokens: &'a [Token],
) -> Result<Option<(Statement, Terminal, &'a [Token])>, NoMemory>
    requires { length names.old < 4294967296 }
    ensures found { IfOk result
        (λ f. IfSome f
        (λ x. Declarator limit function.now names.old tokens.now
        (form_of x.0) x.1 names.new x.2.now)) }
    ensures only { (form : Form) (mark : Terminal) (then : NamesSoFar) (rest : Items Token)
        → Declarator limit function.now names.old tokens.now form mark then rest
        → IsTrue (ends_expression mark)
        → IfOk result
        (λ f. IsSomeAnd f
        (λ x. (form_of x.0 ≡ form) × (x.1 ≡ mark) × (names.new ≡ then) × (x.2.now ≡ rest))) }
    ensures shorter { IfOk result (λ f. IfSome f (λ x. length x.2.now < length tokens.now)) }
    ensures grown { IfOk result (λ _. length names.new ≤ length names.old + 1) }
{
    let Some((token, rest)) = new_name(function, names, tokens) else {
        return Ok(None);
    };
    let variable = names.len() as u32;
    names.declare(alloc, token.text.as_slice())?;
    match initialiser(alloc, names, limit, rest)? {
        None => Ok(None),
        Some((value, mark, rest)) => {
            let at = token.place;
            Ok(Some((
                Statement::Declare {
                    variable,
                    at,
                    value,
                },
                mark,
                rest,
            )))
        }
    }
}

/// One declarator, with what may follow it.
fn declaration<'a>(
    alloc: Global,
    function: &[u8],
    limit: usize,
    names: &mut Names,
    tokens: &'a [Token],
) -> Result<Option<(Statement, Awaits, &'a [Token])>, NoMemory>
    requires { length names.old < 4294967296 }
    ensures found { IfOk result
        (λ f. IfSome f
        (λ x. Reading limit function.now names.old Awaits.Declarator tokens.now
        (form_of x.0) x.1 names.new x.2.now)) }
    ensures only { (form : Form) (next : Awaits) (then : NamesSoFar) (rest : Items Token)
        → Reading limit function.now names.old Awaits.Declarator tokens.now form next then rest
        → IfOk result
        (λ f. IsSomeAnd f
        (λ x. (form_of x.0 ≡ form) × (x.1 ≡ next) × (names.new ≡ then) × (x.2.now ≡ rest))) }
    ensures shorter { IfOk result (λ f. IfSome f (λ x. length x.2.now < length tokens.now)) }
    ensures grown { IfOk result (λ _. length names.new ≤ length names.old + 1) }
{
    match declarator(alloc, function, limit, names, tokens)? {
        None => Ok(None),
        Some((statement, mark, rest)) => match follows(mark) {
            None => Ok(None),
            Some(next) => Ok(Some((statement, next, rest))),
        },
    }
}

/// An expression with a `;` behind it.
fn closed_expression<'a>(
    alloc: Global,
    limit: usize,
    names: &Names,
    tokens: &'a [Token],
) -> Result<Option<(Expr, &'a [Token])>, NoMemory>
    requires { length names.now ≤ 4294967296 }
    ensures found { IfOk result
        (λ f. IfSome f
        (λ x. Expression limit names.now tokens.now (tree_of x.0) Terminal.Semicolon x.1.now)) }
    ensures only { (t : Tree) (rest : Items Token)
        → Expression limit names.now tokens.now t Terminal.Semicolon rest
        → IfOk result (λ f. IsSomeAnd f (λ x. (tree_of x.0 ≡ t) × (x.1.now ≡ rest))) }
    ensures shorter { IfOk result (λ f. IfSome f (λ x. length x.1.now < length tokens.now)) }
{
    match expression(alloc, names, limit, tokens)? {
        None => Ok(None),
        Some((value, mark, rest)) => match mark {
            Terminal::Semicolon => Ok(Some((value, rest))),
            _ => Ok(None),
        },
    }
}

/// An assignment, behind its name.
fn assignment<'a>(
    alloc: Global,
    limit: usize,
    names: &Names,
    token: &Token,
    tokens: &'a [Token],
) -> Result<Option<(Statement, &'a [Token])>, NoMemory>
    requires few { length names.now ≤ 4294967296 }
    requires name { terminal token.now ≡ Terminal.Name }
    ensures found { IfOk result
        (λ f. IfSome f
        (λ x. Simple limit names.now (token.now ∷ tokens.now) (form_of x.0) x.1.now)) }
    ensures only { (form : Form) (rest : Items Token)
        → Simple limit names.now (token.now ∷ tokens.now) form rest
        → IfOk result (λ f. IsSomeAnd f (λ x. (form_of x.0 ≡ form) × (x.1.now ≡ rest))) }
    ensures shorter { IfOk result (λ f. IfSome f (λ x. length x.1.now < length tokens.now)) }
{
    let Some(variable) = names.find(token.text.as_slice()) else {
        return Ok(None);
    };
    let Some(rest) = after_terminal(Terminal::Equals, tokens) else {
        return Ok(None);
    };
    match closed_expression(alloc, limit, names, rest)? {
        None => Ok(None),
        Some((value, rest)) => {
            let at = token.place;
            Ok(Some((
                Statement::Assign {
                    variable,
                    at,
                    value,
                },
                rest,
            )))
        }
    }
}

/// What a `return` gives, behind its word.
fn returned<'a>(
    alloc: Global,
    limit: usize,
    names: &Names,
    token: &Token,
    tokens: &'a [Token],
) -> Result<Option<(Statement, &'a [Token])>, NoMemory>
    requires few { length names.now ≤ 4294967296 }
    requires word { terminal token.now ≡ Terminal.Return }
    ensures found { IfOk result
        (λ f. IfSome f
        (λ x. Simple limit names.now (token.now ∷ tokens.now) (form_of x.0) x.1.now)) }
    ensures only { (form : Form) (rest : Items Token)
        → Simple limit names.now (token.now ∷ tokens.now) form rest
        → IfOk result (λ f. IsSomeAnd f (λ x. (form_of x.0 ≡ form) × (x.1.now ≡ rest))) }
    ensures shorter { IfOk result (λ f. IfSome f (λ x. length x.1.now < length tokens.now)) }
{
    match closed_expression(alloc, limit, names, tokens)? {
        None => Ok(None),
        Some((value, rest)) => {
            let at = token.place;
            Ok(Some((Statement::Return { at, value }, rest)))
        }
    }
}

/// An assignment or a `return`.
fn simple<'a>(
    alloc: Global,
    limit: usize,
    names: &Names,
    tokens: &'a [Token],
) -> Result<Option<(Statement, &'a [Token])>, NoMemory>
    requires { length names.now ≤ 4294967296 }
    ensures found { IfOk result
        (λ f. IfSome f (λ x. Simple limit names.now tokens.now (form_of x.0) x.1.now)) }
    ensures only { (form : Form) (rest : Items Token) → Simple limit names.now tokens.now form rest
        → IfOk result (λ f. IsSomeAnd f (λ x. (form_of x.0 ≡ form) × (x.1.now ≡ rest))) }
    ensures shorter { IfOk result (λ f. IfSome f (λ x. length x.1.now < length tokens.now)) }
{
    let Some((token, rest)) = first(tokens) else {
        return Ok(None);
    };
    match terminal_of(token) {
        Terminal::Name => assignment(alloc, limit, names, token, rest),
        Terminal::Return => returned(alloc, limit, names, token, rest),
        _ => Ok(None),
    }
}

/// One statement or declarator, and what is awaited behind it.
pub(crate) fn statement<'a>(
    alloc: Global,
    function: &[u8],
    limit: usize,
    names: &mut Names,
    awaits: Awaits,
    tokens: &'a [Token],
) -> Result<Option<(Statement, Awaits, &'a [Token])>, NoMemory>
    requires { length names.old < 4294967296 }
    ensures found { IfOk result
        (λ f. IfSome f
        (λ x. Reading limit function.now names.old awaits tokens.now
        (form_of x.0) x.1 names.new x.2.now)) }
    ensures only { (form : Form) (next : Awaits) (then : NamesSoFar) (rest : Items Token)
        → Reading limit function.now names.old awaits tokens.now form next then rest
        → IfOk result
        (λ f. IsSomeAnd f
        (λ x. (form_of x.0 ≡ form) × (x.1 ≡ next) × (names.new ≡ then) × (x.2.now ≡ rest))) }
    ensures shorter { IfOk result (λ f. IfSome f (λ x. length x.2.now < length tokens.now)) }
    ensures grown { IfOk result (λ _. length names.new ≤ length names.old + 1) }
{
    match awaits {
        Awaits::Declarator => declaration(alloc, function, limit, names, tokens),
        Awaits::Statement => match after_terminal(Terminal::Int, tokens) {
            Some(rest) => declaration(alloc, function, limit, names, rest),
            None => match simple(alloc, limit, names, tokens)? {
                None => Ok(None),
                Some((statement, rest)) => Ok(Some((statement, Awaits::Statement, rest))),
            },
        },
    }
}
