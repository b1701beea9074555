//! The arguments of calls of function-like macros (C11 6.10.3, paragraphs 4 and 10 to 12).
ghost use Rattle.std.specs.Prelude.{◌≡◌, ◌<◌, [], ◌∷◌, ◌⊎◌, true, IfOk, MatchOption, None, Some, Option as option, is_none, length, List as list, ◌||◌, reverse};
ghost use Rattle.cx_tokens.specs.declared.token.Token.{Token as token_type};
ghost use Rattle.cx_macro.specs.Shapes.Counting as counting;
ghost use Rattle.cx_macro.specs.Shapes.Frames.{IsAfter, IsInner};
ghost use Rattle.cx_macro.specs.Shapes.Segments.{Cuts, CutsText, left_behind};

use crate::segment::Segment;
use cx_base::NoMemory;
use std::alloc::Global;

/// What is left of the tokens between a call's brackets.
#[derive(Clone, Copy)]
pub(crate) struct Inner<'a> {
    /// How many tokens of the list are left, those behind the brackets too.
    pub(crate) left: usize,
    /// How many stand behind the closing bracket.
    pub(crate) behind: usize,
    /// How many stand behind each comma that is left outside of inner brackets, the first comma
    /// last.
    pub(crate) commas: &'a [usize],
}

impl<'a> Inner<'a> {
    /// How many tokens these are.
    pub(crate) fn len(&self) -> usize
        ensures { (ts : list token_type) (end : list token_type) → IsInner self.now ts end
            → result ≡ length ts }
    {
        self.left.saturating_sub(self.behind).saturating_sub(1)
    }
}

/// The first comma, and those behind it.
fn first_comma<'a>(commas: &'a [usize]) -> Option<(usize, &'a [usize])>
    ensures { MatchOption result (reverse commas.now ≡ [])
        (λ x. reverse commas.now ≡ x.0 ∷ reverse x.1.now) }
{
    let (comma, rest) = commas.split_last()?;
    Some((*comma, rest))
}

/// How many tokens stand before the first comma outside of brackets, and what is left behind it,
/// where it is there.
fn cut_at_comma<'a>(text: Inner<'a>) -> (usize, Option<Inner<'a>>)
    ensures { (ts : list token_type) (end : list token_type) → IsInner text.entry ts end
        → (front : list token_type) × (after : option (list token_type))
        × (counting.cut_at_comma 0 ts ≡ record { front = front; after = after })
        × (result.0 ≡ length front) × IsAfter result.1 after end }
{
    let Some((comma, commas)) = first_comma(text.commas) else {
        return (text.len(), None);
    };
    let front = text.left.saturating_sub(comma).saturating_sub(1);
    let after = Inner {
        left: comma,
        behind: text.behind,
        commas,
    };
    (front, Some(after))
}

/// The segments of what the named parameters are given, and what stands behind the comma behind
/// that.
#[derive(Drop)]
struct Named<'a> {
    segments: Vec<Segment>,
    after: Option<Inner<'a>>,
}

/// As many arguments as parameters have names.
fn named_arguments<'a>(
    alloc: Global,
    count: usize,
    text: Inner<'a>,
) -> Result<Option<Named<'a>>, NoMemory>
    ensures { IfOk result
        (λ found. (ts : list token_type) (end : list token_type) → IsInner text.entry ts end
        → MatchOption found (counting.named_arguments count (Some ts) ≡ None)
        (λ x. (raw : list (list token_type)) × (after : option (list token_type))
        × (counting.named_arguments count (Some ts)
        ≡ Some (record { arguments = raw; after = after }))
        × CutsText x.segments.items ts raw after × IsAfter x.after after end)) }
{
    let mut segments = Vec::new(alloc);
    let mut after = Some(text);
    let mut left = count;
    while left > 0 {
        let Some(text) = after else {
            return Ok(None);
        };
        let (tokens, rest) = cut_at_comma(text);
        segments.push(Segment {
            tokens,
            is_ended: true,
        })?;
        after = rest;
        left -= 1;
    }
    Ok(Some(Named { segments, after }))
}

/// The segment of the variable argument: empty where no comma stands before it (C11 6.10.3,
/// paragraph 12).
fn variable(after: Option<Inner>) -> Segment
    ensures { (behind : option (list token_type)) (end : list token_type)
        → IsAfter after.entry behind end → (closing : token_type) (rest : list token_type)
        → Cuts (result ∷ []) (left_behind behind closing rest)
        (counting.tokens_or_none behind ∷ []) rest }
{
    match after {
        None => Segment {
            tokens: 0,
            is_ended: false,
        },
        Some(text) => Segment {
            tokens: text.len(),
            is_ended: true,
        },
    }
}

/// The segments of a call's arguments, one for each parameter and behind them the variable one; and
/// whether the call leaves that out.
#[derive(Drop)]
pub(crate) struct ArgumentSegments {
    pub(crate) segments: Vec<Segment>,
    pub(crate) left_out: bool,
}

/// Whether nothing stands between the brackets of a call of a macro without named parameters.
fn is_nothing(count: usize, inner: &Inner) -> bool
    ensures { (ts : list token_type) (end : list token_type) → IsInner inner.now ts end
        → result ≡ counting.is_nothing count ts }
{
    count == 0 && inner.len() == 0
}

/// Whether a call leaves the variable argument out: no comma stands before it, or nothing between
/// the brackets at all.
fn is_left_out(nothing: bool, after: &Option<Inner>) -> bool
    ensures { (behind : option (list token_type)) (end : list token_type)
        → IsAfter after.now behind end → result ≡ (nothing || is_none behind) }
{
    nothing || after.is_none()
}

/// The segments with the variable argument's, where their number fits.
fn with_variable<'a>(
    variadic: bool,
    nothing: bool,
    named: Named<'a>,
) -> Result<Option<ArgumentSegments>, NoMemory>
    ensures { IfOk result
        (λ found. (after : option (list token_type)) (end : list token_type)
        → IsAfter named.entry.after after end → MatchOption found
        ((raw : list (list token_type))
        → counting.with_variable variadic nothing
        (Some (record { arguments = raw; after = after })) ≡ None)
        (λ a. (text : list token_type) (raw : list (list token_type))
        → CutsText named.entry.segments.items text raw after
        → (all : list (list token_type))
        × (counting.with_variable variadic nothing
        (Some (record { arguments = raw; after = after }))
        ≡ Some (record { given = all; left_out = a.left_out }))
        × CutsText a.segments.items text all None)) }
{
    let mut segments = named.segments;
    if variadic {
        let left_out = is_left_out(nothing, &named.after);
        segments.push(variable(named.after))?;
        return Ok(Some(ArgumentSegments { segments, left_out }));
    }
    match named.after {
        None => Ok(Some(ArgumentSegments {
            segments,
            left_out: false,
        })),
        Some(_) => Ok(None),
    }
}

/// The segments of the arguments of a call with these tokens between its brackets: one for each
/// parameter, and behind them the variable one; or `None` where their number does not fit.
pub(crate) fn arguments_of<'a>(
    alloc: Global,
    count: usize,
    variadic: bool,
    inner: Inner<'a>,
) -> Result<Option<ArgumentSegments>, NoMemory>
    requires { (0 < count) ⊎ (variadic ≡ true) }
    ensures { IfOk result
        (λ found. (ts : list token_type) (end : list token_type) → IsInner inner.entry ts end
        → MatchOption found (counting.arguments_of count variadic ts ≡ None)
        (λ a. (raw : list (list token_type))
        × (counting.arguments_of count variadic ts
        ≡ Some (record { given = raw; left_out = a.left_out }))
        × CutsText a.segments.items ts raw None)) }
{
    let nothing = is_nothing(count, &inner);
    match named_arguments(alloc, count, inner)? {
        None => Ok(None),
        Some(named) => with_variable(variadic, nothing, named),
    }
}
