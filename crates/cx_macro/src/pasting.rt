//! What `##` makes (C11 6.10.3.3).
ghost use Rattle.std.specs.Prelude.{◌≡◌, [], ◌∷◌, ◌++◌, IfOk, MatchOption};
ghost use Rattle.cx_macro.specs.Replacement as meaning;
ghost use Rattle.cx_macro.specs.Shapes.Substitutes.{items_of, substitute_of_code, substitutes_of_code};

use crate::hiding::common;
use crate::stack::Stack;
use crate::substitutes::Substitute;
use cx_base::{NoMemory, SharedList, Text};
use cx_lex::one_piece;
use cx_tokens::{Token, is_digraph};
use std::alloc::Global;

/// What a `##` makes of two tokens.
#[tactic(auto, using(crate::proofs::PastingLaws::pasting))]
fn join(alloc: Global, left: &Token, right: &Token) -> Result<Option<Token>, NoMemory>
    ensures { IfOk result (λ joined. meaning.Joins left.now right.now joined) }
{
    let mut spelling = Text::from_slice(alloc, left.spelling())?;
    spelling.push_all(right.spelling())?;
    match one_piece(alloc, spelling.as_slice())? {
        None => Ok(None),
        Some((kind, text)) => {
            let hide = common(alloc, &left.hide, &right.hide)?;
            Ok(Some(Token {
                kind,
                text,
                place: left.place,
                hide,
                space: left.space,
                parts: SharedList::new(),
                digraph: is_digraph(kind, spelling.as_slice()),
            }))
        }
    }
}

/// Takes the last of tokens.
fn pop_last(tokens: &mut Vec<Token>) -> Option<Token>
    ensures { MatchOption result (tokens.old.items ≡ []) (λ x. tokens.old.items ≡ tokens.new.items
        ++ x ∷ []) }
{
    tokens.pop()
}

/// What a `##` makes of its sides: of one that is empty, the other.
fn join_sides(
    alloc: Global,
    left: Vec<Token>,
    right: Vec<Token>,
) -> Result<Option<Vec<Token>>, NoMemory>
    ensures { IfOk result (λ joined. meaning.JoinsSides left.items right.items (items_of joined)) }
{
    let mut left = left;
    let mut rest = Stack::from_vec(right);
    let Some(first) = rest.pop() else {
        return Ok(Some(left));
    };
    let Some(last) = pop_last(&mut left) else {
        rest.push(first)?;
        return Ok(Some(rest.into_vec()));
    };
    match join(alloc, &last, &first)? {
        None => Ok(None),
        Some(joined) => {
            left.push(joined)?;
            left.append(&mut rest.into_vec())?;
            Ok(Some(left))
        }
    }
}

/// The tokens of a substitute.
fn tokens_of(alloc: Global, substitute: Substitute) -> Result<Vec<Token>, NoMemory>
    ensures { IfOk result (λ v. v.items ≡ meaning.tokens_of (substitute_of_code substitute)) }
{
    match substitute {
        Substitute::Operand(tokens) => Ok(tokens),
        Substitute::PasteOperator(token) => {
            let mut tokens = Vec::new(alloc);
            tokens.push(token)?;
            Ok(tokens)
        }
    }
}

/// The tokens of substitutes, with each `##` carried out from left to right, where each of them
/// makes a token.
pub(crate) fn glued(
    alloc: Global,
    substitutes: Vec<Substitute>,
) -> Result<Option<Vec<Token>>, NoMemory>
    ensures { IfOk result
        (λ glued. meaning.Glues [] (substitutes_of_code substitutes.items) (items_of glued)) }
{
    let mut substitutes = Stack::from_vec(substitutes);
    let mut front = Vec::new(alloc);
    let mut left = Vec::new(alloc);
    while let Some(substitute) = substitutes.pop() {
        match substitute {
            Substitute::Operand(tokens) => {
                front.append(&mut left)?;
                left = tokens;
                continue;
            }
            Substitute::PasteOperator(_) => {
                let Some(substitute) = substitutes.pop() else {
                    front.append(&mut left)?;
                    return Ok(Some(front));
                };
                let right = tokens_of(alloc, substitute)?;
                match join_sides(alloc, left, right)? {
                    None => return Ok(None),
                    Some(both) => {
                        left = both;
                        continue;
                    }
                }
            }
        }
    }
    front.append(&mut left)?;
    Ok(Some(front))
}
