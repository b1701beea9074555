//! What `define` says (C11 6.10.3).
ghost use Rattle.std.specs.Prelude.{◌≡◌, IfOk, IfSome, option_map, true};
ghost use Rattle.cx_macro.specs.Made.{definition_by};
ghost use Rattle.cx_macro.specs.Macros.{IsDefinition};
ghost use Rattle.cx_directive.specs.Defines.{checked_function, defined_by, definition_after, function_definition, function_like, object_like, well_formed};
ghost use Rattle.cx_directive.specs.Operands.{tokens_of};
ghost use Rattle.cx_directive.specs.Shapes.Cuts.{after_bracket};
ghost use Rattle.cx_directive.specs.Shapes.Found.{parameters_by};

use crate::body::{pastes_stand, with_variable};
use crate::cuts::cut_at;
use crate::marks::is_name;
use crate::operand::{first, token_copies};
use crate::parameters::{Parameters, are_distinct, parameters_of};
use cx_base::{NoMemory, Text};
use cx_lex::Piece;
use cx_macro::Macro;
use cx_table::NameKey;
use cx_tokens::{TokenList, is_punctuator};
use std::alloc::Global;

/// A name and the macro that it is defined as.
#[derive(Drop)]
pub struct Named {
    pub name: Text,
    pub made: Macro,
}

/// The macro of this body without parameters.
fn object_like(alloc: Global, body: &[Piece]) -> Result<Macro, NoMemory>
    ensures { IfOk result (λ m. definition_by m ≡ object_like (tokens_of body.now)) }
{
    let body = TokenList::from_vec(alloc, token_copies(alloc, body)?)?;
    Ok(Macro {
        parameters: None,
        variadic: false,
        body,
    })
}

/// The macro of this body without parameters, where its form is not wrong.
fn object_definition(alloc: Global, body: &[Piece]) -> Result<Option<Macro>, NoMemory>
    ensures meaning { IfOk result (λ r. option_map definition_by r
        ≡ well_formed true (object_like (tokens_of body.now))) }
    ensures definition { IfOk result (λ r. IfSome r (λ m. IsDefinition (definition_by m))) }
{
    if !pastes_stand(body) {
        return Ok(None);
    }
    let made = object_like(alloc, body)?;
    Ok(Some(made))
}

/// The macro of these parameters and this body.
fn function_like(alloc: Global, parameters: Parameters, body: &[Piece]) -> Result<Macro, NoMemory>
    ensures { IfOk result (λ m. definition_by m
        ≡ function_like (parameters_by parameters) (tokens_of body.now)) }
{
    let tokens = with_variable(alloc, &parameters.variable, body)?;
    let body = TokenList::from_vec(alloc, tokens)?;
    Ok(Macro {
        parameters: Some(parameters.names),
        variadic: parameters.variadic,
        body,
    })
}

/// The macro of these parameters and this body, where its form is not wrong.
fn checked_function(
    alloc: Global,
    key: NameKey,
    parameters: Parameters,
    body: &[Piece],
) -> Result<Option<Macro>, NoMemory>
    ensures meaning { IfOk result (λ r. option_map definition_by r
        ≡ checked_function (parameters_by parameters) (tokens_of body.now)) }
    ensures definition { IfOk result (λ r. IfSome r (λ m. IsDefinition (definition_by m))) }
{
    if !are_distinct(alloc, key, &parameters)? {
        return Ok(None);
    }
    if !pastes_stand(body) {
        return Ok(None);
    }
    let made = function_like(alloc, parameters, body)?;
    if !made.can_be_defined(alloc, key)? {
        return Ok(None);
    }
    Ok(Some(made))
}

/// A function-like macro, by what stands after its opening bracket.
fn function_definition(
    alloc: Global,
    key: NameKey,
    after: &[Piece],
) -> Result<Option<Macro>, NoMemory>
    ensures meaning { IfOk result (λ r. option_map definition_by r
        ≡ function_definition (tokens_of after.now)) }
    ensures definition { IfOk result (λ r. IfSome r (λ m. IsDefinition (definition_by m))) }
{
    let Some((inner, body)) = cut_at(b")", after) else {
        return Ok(None);
    };
    let Some(parameters) = parameters_of(alloc, inner)? else {
        return Ok(None);
    };
    checked_function(alloc, key, parameters, body)
}

/// The pieces after the bracket that opens parameters, where one stands directly after the name
/// (C11 6.10, lparen).
fn after_bracket(after: &[Piece]) -> Option<&[Piece]>
    ensures { option_map (λ x. tokens_of x.now) result ≡ after_bracket (tokens_of after.now) }
{
    let (piece, inner) = first(after)?;
    if is_punctuator(b"(", &piece.token) && !piece.token.space {
        Some(inner)
    } else {
        None
    }
}

/// The macro of a name, by what stands after it.
fn definition_after(alloc: Global, key: NameKey, after: &[Piece]) -> Result<Option<Macro>, NoMemory>
    ensures meaning { IfOk result (λ r. option_map definition_by r
        ≡ definition_after (tokens_of after.now)) }
    ensures definition { IfOk result (λ r. IfSome r (λ m. IsDefinition (definition_by m))) }
{
    match after_bracket(after) {
        Some(inner) => function_definition(alloc, key, inner),
        None => object_definition(alloc, after),
    }
}

/// What a `define` with these operands defines, or `None` where its form is wrong: there is no
/// name, the parameters are not distinct names (with `...` last, or GNU's `name...`), the body
/// begins or ends with `##`, or a `#` of a function-like body stands before no parameter. The
/// names of parameters are looked up under this key.
pub fn defined_by(
    alloc: Global,
    key: NameKey,
    operands: &[Piece],
) -> Result<Option<Named>, NoMemory>
    ensures meaning { IfOk result (λ r. option_map (λ n. (n.name, definition_by n.made)) r
        ≡ defined_by (tokens_of operands.now)) }
    ensures definition { IfOk result (λ r. IfSome r (λ n. IsDefinition (definition_by n.made))) }
{
    let Some((piece, after)) = first(operands) else {
        return Ok(None);
    };
    if !is_name(&piece.token) {
        return Ok(None);
    }
    let Some(made) = definition_after(alloc, key, after)? else {
        return Ok(None);
    };
    let name = piece.token.text.copy()?;
    Ok(Some(Named { name, made }))
}
