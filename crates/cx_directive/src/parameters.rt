//! The parameters of a macro (C11 6.10.3).
ghost use Rattle.std.specs.Prelude.{◌≡◌, ◌∷◌, ◌++◌, [], IfOk, bytes_eq, not, option_map, true};
ghost use Rattle.std.specs.List.{list_any, slice_split};
ghost use Rattle.cx_table.specs.NameTable.{names_of};
ghost use Rattle.cx_macro.specs.Arguments.{is_comma};
ghost use Rattle.cx_directive.specs.Defines.{all_names, are_distinct, is_dots, joined_parameters, last_parameter, one_name, parameters_of};
ghost use Rattle.cx_directive.specs.Operands.{tokens_of};
ghost use Rattle.cx_directive.specs.Shapes.Found.{parameters_by, with_names};

use crate::cuts::cut_at;
use crate::marks::is_name;
use crate::operand::first;
use cx_base::{List, NoMemory, Text};
use cx_lex::Piece;
use cx_table::{NameKey, NameTable};
use cx_tokens::{Token, is_punctuator};
use std::alloc::Global;

/// The parameters of a macro.
#[derive(Drop)]
pub(crate) struct Parameters {
    /// Their names.
    pub(crate) names: List<Text>,
    /// Whether a variable argument stands after these.
    pub(crate) variadic: bool,
    /// The name that GNU's form `name...` gives it.
    pub(crate) variable: Option<Text>,
}

/// Whether a token is `...`.
fn is_dots(token: &Token) -> bool
    ensures { result ≡ is_dots token.now }
{
    is_punctuator(b"...", token)
}

/// What stands between two commas, where it is a name.
fn one_name(part: &[Piece]) -> Option<&Text>
    ensures { option_map (λ name. name.now) result ≡ one_name (tokens_of part.now) }
{
    let (piece, after) = first(part)?;
    if after.is_empty() && is_name(&piece.token) {
        Some(&piece.token.text)
    } else {
        None
    }
}

/// Parameters of these names, and last of one token.
fn ended_by_one(names: List<Text>, last: &Token) -> Result<Option<Parameters>, NoMemory>
    ensures { IfOk result (λ p. option_map parameters_by p
        ≡ option_map (with_names names) (last_parameter (last.now ∷ []))) }
{
    if is_name(last) {
        let mut all = names;
        all.push(last.text.copy()?)?;
        return Ok(Some(Parameters {
            names: all,
            variadic: false,
            variable: None,
        }));
    }
    if is_dots(last) {
        return Ok(Some(Parameters {
            names,
            variadic: true,
            variable: None,
        }));
    }
    Ok(None)
}

/// Parameters of these names, and last of two tokens.
fn ended_by_two(
    names: List<Text>,
    last: &Token,
    dots: &Token,
) -> Result<Option<Parameters>, NoMemory>
    ensures { IfOk result (λ p. option_map parameters_by p
        ≡ option_map (with_names names) (last_parameter (last.now ∷ dots.now ∷ []))) }
{
    if !is_name(last) {
        return Ok(None);
    }
    if !is_dots(dots) {
        return Ok(None);
    }
    Ok(Some(Parameters {
        names,
        variadic: true,
        variable: Some(last.text.copy()?),
    }))
}

/// Parameters of these names, and last of what stands after the last comma.
fn ended_by(names: List<Text>, last: &[Piece]) -> Result<Option<Parameters>, NoMemory>
    ensures { IfOk result (λ p. option_map parameters_by p
        ≡ option_map (with_names names) (last_parameter (tokens_of last.now))) }
{
    let Some((piece, after)) = first(last) else {
        return Ok(None);
    };
    let Some((dots, more)) = first(after) else {
        return ended_by_one(names, &piece.token);
    };
    if more.is_empty() {
        ended_by_two(names, &piece.token, &dots.token)
    } else {
        Ok(None)
    }
}

/// Parameters, by what stands between their brackets, where something does.
fn joined_parameters(alloc: Global, inner: &[Piece]) -> Result<Option<Parameters>, NoMemory>
    ensures { IfOk result (λ p. option_map parameters_by p
        ≡ joined_parameters (slice_split is_comma (tokens_of inner.now))) }
{
    let mut names = List::new(alloc);
    let mut left = inner;
    while let Some((part, after)) = cut_at(b",", left) {
        let Some(name) = one_name(part) else {
            return Ok(None);
        };
        names.push(name.copy()?)?;
        left = after;
    }
    ended_by(names, left)
}

/// Parameters, by what stands between their brackets.
#[tactic(auto, unfolding(crate::specs::Defines::parameters_of))]
pub(crate) fn parameters_of(alloc: Global, inner: &[Piece]) -> Result<Option<Parameters>, NoMemory>
    ensures { IfOk result (λ p. option_map parameters_by p ≡ parameters_of (tokens_of inner.now)) }
{
    if !inner.is_empty() {
        return joined_parameters(alloc, inner);
    }
    Ok(Some(Parameters {
        names: List::new(alloc),
        variadic: false,
        variable: None,
    }))
}

/// Adds a name to a set, and answers whether it was not there.
fn add_new(set: &mut NameTable<()>, name: &Text) -> Result<bool, NoMemory>
    ensures new { IfOk result
        (λ is_new. is_new ≡ not (list_any (bytes_eq name.now) (names_of set.old))) }
    ensures names { IfOk result
        (λ is_new. is_new ≡ true → names_of set.new ≡ names_of set.old ++ name.now ∷ []) }
{
    let before = set.insert(name.copy()?, ())?;
    Ok(before.is_none())
}

/// Whether no two names of parameters are one, that of the variable argument among them. They are
/// looked up under this key.
pub(crate) fn are_distinct(
    alloc: Global,
    key: NameKey,
    parameters: &Parameters,
) -> Result<bool, NoMemory>
    ensures { IfOk result (λ b. b ≡ are_distinct (all_names (parameters_by parameters.now))) }
{
    let names = parameters.names.as_slice();
    let mut set = NameTable::new(alloc, key);
    for name in names {
        if !add_new(&mut set, name)? {
            return Ok(false);
        }
    }
    match &parameters.variable {
        None => Ok(true),
        Some(name) => add_new(&mut set, name),
    }
}
