//! A replacement list with its arguments put in (C11 6.10.3.1).
ghost use Rattle.std.specs.Prelude.{◌≡◌, [], ◌∷◌, ◌++◌, IfOk, OnOk, MatchOption, slice_index_or};
ghost use Rattle.cx_macro.specs.Replacement as meaning;
ghost use Rattle.cx_macro.specs.Shapes.Roles.{nearest_or, position_of, role_at};
ghost use Rattle.cx_macro.specs.Shapes.Substitutes.{arguments_of_code, substitutes_of_code};

use crate::roles::{Position, Positions, Role, nearest};
use crate::spelling::string_of;
use crate::stored::Stored;
use cx_base::{List, NoMemory};
use cx_tokens::Token;
use std::alloc::Global;

/// What stands for a token of a replacement list: tokens, or a `##` operator.
#[derive(Drop)]
pub(crate) enum Substitute {
    Operand(Vec<Token>),
    PasteOperator(Token),
}

/// Arguments as they are given, and expanded; and whether the call leaves the variable one out.
#[derive(Clone, Copy)]
pub(crate) struct Arguments<'a> {
    pub(crate) given: &'a [List<Token>],
    pub(crate) left_out: bool,
    pub(crate) expanded: &'a [List<Token>],
}

/// Copies of tokens.
pub(crate) fn copies(alloc: Global, tokens: &[Token]) -> Result<Vec<Token>, NoMemory>
    ensures { IfOk result (λ v. v.items ≡ tokens.now) }
{
    let mut copies = Vec::new(alloc);
    for token in tokens {
        copies.push(token.copy()?)?;
    }
    Ok(copies)
}

/// One token.
fn one(alloc: Global, token: Token) -> Result<Vec<Token>, NoMemory>
    ensures { IfOk result (λ v. v.items ≡ token ∷ []) }
{
    let mut tokens = Vec::new(alloc);
    tokens.push(token)?;
    Ok(tokens)
}

/// Gives the first of tokens a space, or none.
pub(crate) fn set_space(tokens: &mut Vec<Token>, space: bool)
    ensures { tokens.new.items ≡ meaning.with_space space tokens.old.items }
{
    if let Some(token) = tokens.first_mut() {
        token.space = space;
    }
}

/// The tokens of an argument.
fn argument(arguments: &[List<Token>], index: usize) -> &[Token]
    ensures { result.now ≡ slice_index_or arguments.now index [] }
{
    match arguments.get(index) {
        Some(argument) => argument.as_slice(),
        None => &[],
    }
}

/// The tokens of an argument, of which the first gets the space of the parameter.
fn argument_for(
    alloc: Global,
    parameter: &Token,
    arguments: &[List<Token>],
    index: usize,
) -> Result<Vec<Token>, NoMemory>
    ensures { IfOk result (λ v. v.items
        ≡ meaning.with_space parameter.now.space (slice_index_or arguments.now index [])) }
{
    let mut tokens = copies(alloc, argument(arguments, index))?;
    set_space(&mut tokens, parameter.space);
    Ok(tokens)
}

/// Adds tokens, that stand for one.
fn push_operand(out: &mut Vec<Substitute>, tokens: Vec<Token>) -> Result<(), NoMemory>
    ensures { OnOk result (substitutes_of_code out.new.items ≡ substitutes_of_code out.old.items
        ++ meaning.operand tokens.items ∷ []) }
{
    out.push(Substitute::Operand(tokens))?;
    Ok(())
}

/// The token directly before a position's.
fn token_before<'a>(position: Position<'a>) -> &'a Token
    ensures { let p = position_of position.entry in result.now ≡ nearest_or p.token p.before }
{
    match nearest(position.before) {
        Some((token, _)) => token,
        None => position.token,
    }
}

/// Adds what stands for the token at a position with a role.
fn push_substitute(
    out: &mut Vec<Substitute>,
    arguments: Arguments,
    position: Position,
    role: Role,
) -> Result<(), NoMemory>
    ensures { OnOk result (substitutes_of_code out.new.items ≡ substitutes_of_code out.old.items
        ++ meaning.substitutes_by (arguments_of_code arguments.entry)
        arguments.entry.expanded.now position.entry.token.now
        (role_at (position_of position.entry) role)) }
{
    let token = position.token;
    let alloc = *out.allocator();
    match role {
        Role::Itself => push_operand(out, one(alloc, token.copy()?)?),
        Role::Paste => {
            out.push(Substitute::PasteOperator(token.copy()?))?;
            Ok(())
        }
        Role::Hash | Role::GnuPaste => Ok(()),
        Role::HashOperand(index) => {
            let hash = token_before(position);
            let string = string_of(alloc, hash, argument(arguments.given, index))?;
            push_operand(out, one(alloc, string)?)
        }
        Role::Given(index) => {
            let tokens = argument_for(alloc, token, arguments.given, index)?;
            push_operand(out, tokens)
        }
        Role::Expanded(index) => {
            let tokens = argument_for(alloc, token, arguments.expanded, index)?;
            push_operand(out, tokens)
        }
        Role::GnuComma => {
            if arguments.left_out {
                return Ok(());
            }
            push_operand(out, one(alloc, token.copy()?)?)
        }
        Role::GnuVariable(index) => {
            if arguments.left_out {
                return Ok(());
            }
            let tokens = argument_for(alloc, token, arguments.expanded, index)?;
            push_operand(out, tokens)
        }
    }
}

/// The first of roles, and those after it.
fn next_role(roles: &[Role]) -> Option<(Role, &[Role])>
    ensures { MatchOption result (roles.now ≡ []) (λ x. roles.now ≡ x.0 ∷ x.1.now) }
{
    match roles {
        [] => None,
        [role, rest @ ..] => Some((*role, rest)),
    }
}

/// A macro's replacement list with its arguments put in.
#[tactic(auto, unfolding(crate::specs::Replacement::substitutes_of))]
pub(crate) fn substitutes_of(
    alloc: Global,
    stored: &Stored,
    arguments: Arguments,
) -> Result<Vec<Substitute>, NoMemory>
    ensures { IfOk result (λ v. substitutes_of_code v.items
        ≡ meaning.substitutes_of stored.now (arguments_of_code arguments.entry)
        arguments.entry.expanded.now) }
{
    let mut out = Vec::new(alloc);
    let mut positions = Positions::of(stored.body());
    let mut roles = stored.roles();
    while let Some(position) = positions.next() {
        let Some((role, rest)) = next_role(roles) else {
            return Ok(out);
        };
        push_substitute(&mut out, arguments, position, role)?;
        roles = rest;
    }
    Ok(out)
}
