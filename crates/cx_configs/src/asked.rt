//! The names that a group asks for.
ghost use Rattle.std.specs.Prelude.{◌≡◌, false, OnOk, option_map, option_to_list};
ghost use Rattle.cx_lines.specs.Kinds.{kind_of};
ghost use Rattle.cx_directive.specs.Operands.{tokens_of};
ghost use Rattle.cx_configs.specs.Questions.{bracketed_name, condition_names, else_names, group_names, is_not, line_name, name_alone, name_asked, name_in_front, names_asked};
ghost use Rattle.cx_configs.specs.Shapes.Sets.{with_names};

use crate::name_set::NameSet;
use crate::settled::Settled;
use cx_base::NoMemory;
use cx_directive::{is_bracketed_name, is_name, is_question, name_of, operands};
use cx_lex::Piece;
use cx_lines::{LineKind, kind_of};
use cx_tokens::{Token, is_punctuator};

/// Whether a token is `!`.
fn is_not(token: &Token) -> bool
    ensures { result ≡ is_not token.now }
{
    is_punctuator(b"!", token)
}

/// The name in brackets that pieces begin with.
fn bracketed_name(pieces: &[Piece]) -> Option<&[u8]>
    ensures { option_map (λ name. name.now) result ≡ bracketed_name (tokens_of pieces.now) }
{
    let [opening, name, closing, ..] = pieces else {
        return None;
    };
    if is_bracketed_name(&opening.token, &name.token, &closing.token) {
        Some(name.token.text.as_slice())
    } else {
        None
    }
}

/// The name that pieces begin with, bare or in brackets.
#[tactic(auto, unfolding(crate::specs::Questions::name_in_front))]
fn name_in_front(pieces: &[Piece]) -> Option<&[u8]>
    ensures { option_map (λ name. name.now) result ≡ name_in_front (tokens_of pieces.now) }
{
    let first = pieces.first()?;
    if is_name(&first.token) {
        Some(first.token.text.as_slice())
    } else {
        bracketed_name(pieces)
    }
}

/// The name for which a token asks with the pieces after it: one that is `defined`, unless a `!`
/// stands before it.
fn name_asked<'a>(is_negated: bool, token: &Token, after: &'a [Piece]) -> Option<&'a [u8]>
    ensures { option_map (λ name. name.now) result
        ≡ name_asked is_negated token.now (tokens_of after.now) }
{
    if is_question(token) && !is_negated {
        name_in_front(after)
    } else {
        None
    }
}

/// The name that is a whole condition.
fn name_alone(condition: &[Piece]) -> Option<&[u8]>
    ensures { option_map (λ name. name.now) result ≡ name_alone (tokens_of condition.now) }
{
    let [only] = condition else {
        return None;
    };
    if is_name(&only.token) {
        Some(only.token.text.as_slice())
    } else {
        None
    }
}

/// Adds a name, where there is one, unless it is settled.
#[tactic(auto, unfolding(crate::specs::Shapes::Sets::with_names))]
fn add_name<'a>(
    names: &mut NameSet<'a>,
    settled: &Settled,
    name: Option<&'a [u8]>,
) -> Result<(), NoMemory>
    ensures { OnOk result (names.new
        ≡ with_names settled.now names.old (option_to_list (option_map (λ n. n.now) name.entry))) }
{
    let Some(name) = name else {
        return Ok(());
    };
    if settled.contains(name) {
        return Ok(());
    }
    names.insert(name)
}

/// Adds the names for which the `defined` of a condition ask.
#[tactic(auto, using(crate::proofs::GroupLaws::asks_next))]
fn add_names_asked<'a>(
    names: &mut NameSet<'a>,
    settled: &Settled,
    condition: &'a [Piece],
) -> Result<(), NoMemory>
    ensures { OnOk result (names.new
        ≡ with_names settled.now names.old (names_asked false (tokens_of condition.now))) }
{
    let mut is_negated = false;
    let mut left = condition;
    while let Some((piece, after)) = left.split_first() {
        add_name(names, settled, name_asked(is_negated, &piece.token, after))?;
        is_negated = is_not(&piece.token);
        left = after;
    }
    Ok(())
}

/// Adds the names for which a condition asks.
#[tactic(auto, using(crate::proofs::GroupLaws::with_names_append), unfolding(crate::specs::Questions::condition_names))]
fn add_condition_names<'a>(
    names: &mut NameSet<'a>,
    settled: &Settled,
    condition: &'a [Piece],
) -> Result<(), NoMemory>
    ensures { OnOk result (names.new
        ≡ with_names settled.now names.old (condition_names (tokens_of condition.now))) }
{
    add_name(names, settled, name_alone(condition))?;
    add_names_asked(names, settled, condition)
}

/// Adds the name for which an `ifdef` asks, and the `else` of an `ifndef`.
fn add_line_name<'a>(
    names: &mut NameSet<'a>,
    settled: &Settled,
    line: &'a [Piece],
) -> Result<(), NoMemory>
    ensures { OnOk result (names.new ≡ with_names settled.now names.old (line_name line.now)) }
{
    add_name(names, settled, name_of(operands(line)))
}

/// Adds the names for which the `else` of a section asks, by the line that opens the section.
fn add_else_names<'a>(
    names: &mut NameSet<'a>,
    settled: &Settled,
    opening: &'a [Piece],
) -> Result<(), NoMemory>
    ensures { OnOk result (names.new ≡ with_names settled.now names.old
        (else_names (kind_of opening.now) opening.now)) }
{
    match kind_of(opening) {
        LineKind::Ifndef => add_line_name(names, settled, opening),
        _ => Ok(()),
    }
}

/// Adds the names for which a group asks, by the line that begins it, and the line that opens its
/// section.
#[tactic(auto, unfolding(crate::specs::Questions::group_names))]
pub(crate) fn add_group_names<'a>(
    names: &mut NameSet<'a>,
    settled: &Settled,
    opening: &'a [Piece],
    start: &'a [Piece],
) -> Result<(), NoMemory>
    ensures { OnOk result (names.new ≡ with_names settled.now names.old
        (group_names (record { opening = opening.now; start = start.now }))) }
{
    match kind_of(start) {
        LineKind::If | LineKind::Elif => add_condition_names(names, settled, operands(start)),
        LineKind::Ifdef => add_line_name(names, settled, start),
        LineKind::Else => add_else_names(names, settled, opening),
        _ => Ok(()),
    }
}
