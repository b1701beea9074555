//! First texts from tokens.
ghost use Rattle.std.specs.Prelude.{◌≡◌, ◌≤◌, ◌<◌, List as Items, [], ◌∷◌, length, map, IfOk, IfSome, IfNone, IsSomeAnd};
ghost use Rattle.cx_tokens.specs.declared.token.Token.{Token};
ghost use Rattle.cx_first.specs.Tree.{Form, Source, form_of, source_of};
ghost use Rattle.cx_first.specs.Names.{Names as NamesSoFar};
ghost use Rattle.cx_first.specs.Grammar.{Body, ReadsText, IsFirstText};
ghost use Rattle.cx_first.specs.Descent.{is_closed, HeaderAt, NoHeader, OpeningAt, NoOpening};
ghost use Rattle.cx_first.specs.Runs.{IsNumbered};

use crate::names::Names;
use crate::statements::{Awaits, statement};
use crate::terminals::{Terminal, after_terminal, first, terminal_of};
use crate::tree::{FirstText, Statement};
use cx_base::{List, NoMemory};
use cx_table::NameKey;
use cx_tokens::Token;
use sha2::{Digest, Sha256};
use std::alloc::Global;

/// The most tokens that an expression may have.
const LONGEST: usize = 256;

/// Whether the body ends here, with the last of its tokens.
#[tactic(auto, unfolding(crate::specs::Descent::is_closed))]
fn is_closed(awaits: Awaits, tokens: &[Token]) -> bool
    ensures { result ≡ is_closed awaits tokens.now }
{
    match (awaits, tokens) {
        (Awaits::Statement, [token]) => matches!(terminal_of(token), Terminal::End),
        _ => false,
    }
}

/// The statements of a function's body, up to its end.
fn body(
    alloc: Global,
    function: &[u8],
    limit: usize,
    names: &mut Names,
    tokens: &[Token],
) -> Result<Option<List<Statement>>, NoMemory>
    requires few { length tokens.now < 4294967296 }
    requires none { names.old ≡ [] }
    ensures found { IfOk result
        (λ f. IfSome f
        (λ x. Body limit function.now Awaits.Statement [] tokens.now (map form_of x) names.new)) }
    ensures only { (forms : Items Form) (all : NamesSoFar)
        → Body limit function.now Awaits.Statement [] tokens.now forms all
        → IfOk result (λ f. IsSomeAnd f (λ x. (map form_of x ≡ forms) × (names.new ≡ all))) }
{
    let mut statements = List::new(alloc);
    let mut awaits = Awaits::Statement;
    let mut rest = tokens;
    while !is_closed(awaits, rest) {
        match statement(alloc, function, limit, names, awaits, rest)? {
            None => return Ok(None),
            Some((form, next, behind)) => {
                statements.push(form)?;
                awaits = next;
                rest = behind;
            }
        }
    }
    Ok(Some(statements))
}

/// What stands behind `( void ) {`.
fn opening(tokens: &[Token]) -> Option<&[Token]>
    ensures none { IfNone result (NoOpening tokens.now) }
    ensures some { IfSome result (λ rest. OpeningAt tokens.now rest.now) }
{
    let Some(rest) = after_terminal(Terminal::Open, tokens) else {
        return None;
    };
    let Some(rest) = after_terminal(Terminal::Void, rest) else {
        return None;
    };
    let Some(rest) = after_terminal(Terminal::Close, rest) else {
        return None;
    };
    after_terminal(Terminal::Begin, rest)
}

/// The name of a function, and the tokens of its body.
fn header(tokens: &[Token]) -> Option<(&Token, &[Token])>
    ensures none { IfNone result (NoHeader tokens.now) }
    ensures some { IfSome result (λ x. HeaderAt tokens.now x.0.now x.1.now) }
{
    let Some(named) = after_terminal(Terminal::Int, tokens) else {
        return None;
    };
    let Some((name, _)) = first(named) else {
        return None;
    };
    let Some(rest) = after_terminal(Terminal::Name, named) else {
        return None;
    };
    match opening(rest) {
        None => None,
        Some(body) => Some((name, body)),
    }
}

/// The key that the names of these tokens are hashed with, from all their texts.
fn key_of(tokens: &[Token]) -> NameKey {
    let mut hasher = Sha256::new();
    for token in tokens {
        hasher.update(token.text.as_slice());
        hasher.update(b"\n");
    }
    let digest: [u8; 32] = hasher.finalize();
    NameKey::of(digest.as_slice())
}

/// A function's text, behind its head.
fn function(
    alloc: Global,
    name: &[u8],
    limit: usize,
    tokens: &[Token],
) -> Result<Option<FirstText>, NoMemory>
    requires { length tokens.now < 4294967296 }
    ensures found { IfOk result
        (λ f. IfSome f
        (λ x. Body limit name.now Awaits.Statement [] tokens.now
        (map form_of x.statements) x.names)) }
    ensures only { (forms : Items Form) (all : NamesSoFar)
        → Body limit name.now Awaits.Statement [] tokens.now forms all
        → IfOk result
        (λ f. IsSomeAnd f (λ x. (map form_of x.statements ≡ forms) × (x.names ≡ all))) }
{
    let mut names = Names::new(alloc, key_of(tokens));
    match body(alloc, name, limit, &mut names, tokens)? {
        None => Ok(None),
        Some(statements) => {
            let names = names.to_list(alloc)?;
            Ok(Some(FirstText { names, statements }))
        }
    }
}

/// The first text that the tokens are, with expressions of at most so many tokens.
fn read_within(alloc: Global, limit: usize, tokens: &[Token]) -> Result<Option<FirstText>, NoMemory>
    requires { length tokens.now < 4294967296 }
    ensures found { IfOk result
        (λ f. IfSome f (λ text. ReadsText limit tokens.now (source_of text))) }
    ensures only { (source : Source) → ReadsText limit tokens.now source
        → IfOk result (λ f. IsSomeAnd f (λ text. source_of text ≡ source)) }
{
    if tokens.is_empty() {
        return Ok(Some(FirstText {
            names: List::new(alloc),
            statements: List::new(alloc),
        }));
    }
    match header(tokens) {
        None => Ok(None),
        Some((name, rest)) => function(alloc, name.text.as_slice(), limit, rest),
    }
}

/// The first text that the tokens are: none at all, or one function `int Name ( void ) { .. }` of
/// int declarations, assignments and returns, each name declared once and before its uses, and no
/// expression of more than 256 tokens (C11 6.9.1, 6.8.2, 6.7, 6.5). `None` where they are no first
/// text.
#[tactic(auto, using(crate::proofs::SizeLaws::text_numbered))]
pub fn read(alloc: Global, tokens: &[Token]) -> Result<Option<FirstText>, NoMemory>
    requires { length tokens.now < 4294967295 }
    ensures found { IfOk result (λ f. IfSome f (λ text. IsFirstText tokens.now (source_of text))) }
    ensures only { (source : Source) → IsFirstText tokens.now source
        → IfOk result (λ f. IsSomeAnd f (λ text. source_of text ≡ source)) }
    ensures numbered { IfOk result (λ f. IfSome f (λ text. IsNumbered (source_of text))) }
{
    read_within(alloc, LONGEST, tokens)
}
