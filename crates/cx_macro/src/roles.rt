//! What stands in a replacement list, by its neighbours (C11 6.10.3.1 to 6.10.3.3).
ghost use Rattle.std.specs.Prelude.{◌≡◌, [], ◌∷◌, ◌||◌, ◌==◌, ℕ, MatchOption, IfOk, OnOk, reverse};
ghost use Rattle.std.specs.Prelude.{false, slice_index_or};
ghost use Rattle.cx_macro.specs.Macros as macros;
ghost use Rattle.cx_macro.specs.Replacement as meaning;
ghost use Rattle.cx_macro.specs.Shapes.Roles.{code_of, position_of, role_at, takes_given};
ghost use Rattle.cx_macro.specs.Shapes.Uses.{AreUses};

use crate::lookup::Lookup;
use crate::marks::{is_comma, is_hash, is_paste};
use crate::spelling::first;
use cx_base::NoMemory;
use cx_tokens::Token;
use std::alloc::Global;
use std::marker::Model;

/// A token of a replacement list, with those before it and those after it.
#[derive(Clone, Copy)]
pub(crate) struct Position<'a> {
    pub(crate) before: &'a [Token],
    pub(crate) token: &'a Token,
    pub(crate) after: &'a [Token],
}

/// What a token of a replacement list is.
#[derive(Clone, Copy)]
pub(crate) enum Role {
    /// It stands for itself.
    Itself,
    /// A `##` operator.
    Paste,
    /// A `#` operator, before its operand.
    Hash,
    /// The operand of the `#` directly before it: the parameter with this index.
    HashOperand(usize),
    /// The parameter with this index, an operand of a `##`.
    Given(usize),
    /// The parameter with this index, elsewhere.
    Expanded(usize),
    /// GNU's comma.
    GnuComma,
    /// The `##` behind GNU's comma.
    GnuPaste,
    /// The variable argument behind that, with this index.
    GnuVariable(usize),
}

/// The positions of a list that are left, which contracts see as the list of them.
#[derive(Drop)]
pub(crate) struct Positions<'a> {
    tokens: &'a [Token],
    index: usize,
}

impl<'a> Model for Positions<'a> {
    ghost use Rattle.std.specs.Prelude.{List};
    ghost use Rattle.cx_macro.specs.Replacement.{Position};
    ghost use Rattle.cx_macro.specs.Shapes.Roles.{positions_from};

    ghost Value = { List Position };

    ghost view = { λ p. positions_from p.index p.tokens.now };
}

impl<'a> Positions<'a> {
    /// The positions of a list.
    pub(crate) fn of(tokens: &'a [Token]) -> Positions<'a>
        ensures { result ≡ meaning.positions_of tokens.now }
    {
        Positions { tokens, index: 0 }
    }

    /// Takes the next position.
    pub(crate) fn next(&mut self) -> Option<Position<'a>>
        ensures { MatchOption result (self.old ≡ []) (λ p. self.old ≡ position_of p ∷ self.new) }
    {
        let (before, rest) = self.tokens.split_at_checked(self.index)?;
        let (token, after) = first(rest)?;
        self.index += 1;
        Some(Position {
            before,
            token,
            after,
        })
    }
}

/// The last of tokens, and those before it.
pub(crate) fn nearest(before: &[Token]) -> Option<(&Token, &[Token])>
    ensures { MatchOption result (reverse before.now ≡ []) (λ x. reverse before.now
        ≡ x.0.now ∷ reverse x.1.now) }
{
    match before {
        [] => None,
        [rest @ .., token] => Some((token, rest)),
    }
}

/// Whether a `##` is the last of tokens.
fn ends_with_paste(before: &[Token]) -> bool
    ensures { result ≡ meaning.begins_with macros.is_paste (reverse before.now) }
{
    match nearest(before) {
        Some((token, _)) => is_paste(token),
        None => false,
    }
}

/// Whether a `##` is the first of tokens.
fn begins_with_paste(after: &[Token]) -> bool
    ensures { result ≡ meaning.begins_with macros.is_paste after.now }
{
    match first(after) {
        Some((token, _)) => is_paste(token),
        None => false,
    }
}

/// Whether a parameter is the first of tokens.
fn begins_with_parameter(lookup: &Lookup, after: &[Token]) -> bool
    ensures { result
        ≡ meaning.begins_with (meaning.is_parameter lookup.now) after.now }
{
    match first(after) {
        Some((token, _)) => lookup.parameter_at(token).is_some(),
        None => false,
    }
}

/// Whether a `,` that no `##` precedes, a `##` and the variable argument, which no `##` follows,
/// are GNU's comma.
fn is_gnu_comma(
    lookup: &Lookup,
    before: &[Token],
    comma: &Token,
    operator: &Token,
    variable: &Token,
    after: &[Token],
) -> bool
    ensures { result
        ≡ meaning.is_gnu_comma lookup.now (reverse before.now)
        (comma.now ∷ operator.now ∷ variable.now ∷ after.now) }
{
    is_comma(comma)
        && is_paste(operator)
        && lookup.is_parameter(variable, lookup.variable_index())
        && !ends_with_paste(before)
        && !begins_with_paste(after)
}

/// Whether GNU's comma begins at a position.
fn begins_gnu_comma(lookup: &Lookup, position: Position) -> bool
    ensures { let p = position_of position.entry in result
        ≡ meaning.is_gnu_comma lookup.now p.before (p.token ∷ p.after) }
{
    let Some((operator, after)) = first(position.after) else {
        return false;
    };
    let Some((variable, after)) = first(after) else {
        return false;
    };
    is_gnu_comma(
        lookup,
        position.before,
        position.token,
        operator,
        variable,
        after,
    )
}

/// Whether it begins one token before a position.
fn follows_gnu_comma(lookup: &Lookup, position: Position) -> bool
    ensures { let p = position_of position.entry in result
        ≡ meaning.follows_gnu_comma lookup.now p.before (p.token ∷ p.after) }
{
    let Some((comma, before)) = nearest(position.before) else {
        return false;
    };
    let Some((variable, after)) = first(position.after) else {
        return false;
    };
    is_gnu_comma(lookup, before, comma, position.token, variable, after)
}

/// Whether it begins two tokens before a position.
fn ends_gnu_comma(lookup: &Lookup, position: Position) -> bool
    ensures { let p = position_of position.entry in result
        ≡ meaning.ends_gnu_comma lookup.now p.before (p.token ∷ p.after) }
{
    let Some((operator, before)) = nearest(position.before) else {
        return false;
    };
    let Some((comma, before)) = nearest(before) else {
        return false;
    };
    is_gnu_comma(
        lookup,
        before,
        comma,
        operator,
        position.token,
        position.after,
    )
}

/// What the parameter with an index is, where it is no operand of a `#`.
fn substituted(position: Position, index: usize) -> Role
    ensures { result ≡ code_of (meaning.substituted (position_of position.entry) index) }
{
    if ends_with_paste(position.before) || begins_with_paste(position.after) {
        return Role::Given(index);
    }
    Role::Expanded(index)
}

/// What the parameter with an index is.
fn role_of_parameter(position: Position, index: usize) -> Role
    ensures { let p = position_of position.entry in result
        ≡ code_of (meaning.role_of_parameter p p.before index) }
{
    match nearest(position.before) {
        None => substituted(position, index),
        Some((token, _)) => {
            if is_hash(token) {
                Role::HashOperand(index)
            } else {
                substituted(position, index)
            }
        }
    }
}

/// What the standard makes of a token.
fn standard_role(lookup: &Lookup, position: Position) -> Role
    ensures { result ≡ code_of (meaning.standard_role lookup.now (position_of position.entry)) }
{
    if is_paste(position.token) {
        return Role::Paste;
    }
    if is_hash(position.token) && begins_with_parameter(lookup, position.after) {
        return Role::Hash;
    }
    match lookup.parameter_at(position.token) {
        None => Role::Itself,
        Some(index) => role_of_parameter(position, index),
    }
}

/// What a token of the replacement list is.
#[tactic(auto, unfolding(crate::specs::Replacement::role_of))]
fn role_of(lookup: &Lookup, position: Position) -> Role
    ensures { result ≡ code_of (meaning.role_of lookup.now (position_of position.entry)) }
{
    if begins_gnu_comma(lookup, position) {
        return Role::GnuComma;
    }
    if follows_gnu_comma(lookup, position) {
        return Role::GnuPaste;
    }
    if ends_gnu_comma(lookup, position) {
        return Role::GnuVariable(lookup.variable_index());
    }
    standard_role(lookup, position)
}

/// What each token of a body is, and of which arguments one stands expanded somewhere, and of which
/// as it is given.
#[derive(Drop)]
pub(crate) struct Uses {
    pub(crate) roles: Vec<Role>,
    pub(crate) expanded: Vec<bool>,
    pub(crate) raw: Vec<bool>,
}

/// Sets the flag at an index. Those that are not there are not set.
fn set_flag(flags: &mut Vec<bool>, index: usize) -> Result<(), NoMemory>
    ensures { OnOk result ((i : ℕ) → slice_index_or flags.new.items i false
        ≡ ((i == index) || slice_index_or flags.old.items i false)) }
{
    while flags.len() <= index {
        flags.push(false)?;
    }
    flags[index] = true;
    Ok(())
}

/// Notes which argument stands expanded at a position with a role.
fn note_expanded(flags: &mut Vec<bool>, role: Role) -> Result<(), NoMemory>
    ensures { OnOk result ((p : meaning.Position) (i : ℕ) → slice_index_or flags.new.items i false
        ≡ (meaning.takes_expanded i (role_at p role) || slice_index_or flags.old.items i false)) }
{
    match role {
        Role::Expanded(index) | Role::GnuVariable(index) => set_flag(flags, index),
        Role::Itself
        | Role::Paste
        | Role::Hash
        | Role::HashOperand(_)
        | Role::Given(_)
        | Role::GnuComma
        | Role::GnuPaste => Ok(()),
    }
}

/// Notes which argument stands as it is given at a position with a role.
fn note_raw(flags: &mut Vec<bool>, role: Role) -> Result<(), NoMemory>
    ensures { OnOk result ((p : meaning.Position) (i : ℕ) → slice_index_or flags.new.items i false
        ≡ (takes_given i (role_at p role) || slice_index_or flags.old.items i false)) }
{
    match role {
        Role::HashOperand(index) | Role::Given(index) => set_flag(flags, index),
        Role::Itself
        | Role::Paste
        | Role::Hash
        | Role::Expanded(_)
        | Role::GnuComma
        | Role::GnuPaste
        | Role::GnuVariable(_) => Ok(()),
    }
}

/// What each token of a macro's body is, and how its arguments stand there.
pub(crate) fn uses_of(alloc: Global, lookup: &Lookup) -> Result<Uses, NoMemory>
    ensures { IfOk result (λ uses. AreUses lookup.now uses) }
{
    let mut roles = Vec::new(alloc);
    let mut expanded = Vec::new(alloc);
    let mut raw = Vec::new(alloc);
    let mut positions = Positions::of(lookup.body());
    while let Some(position) = positions.next() {
        let role = role_of(lookup, position);
        note_expanded(&mut expanded, role)?;
        note_raw(&mut raw, role)?;
        roles.push(role)?;
    }
    Ok(Uses {
        roles,
        expanded,
        raw,
    })
}
