//! The value of a condition.
ghost use Rattle.std.specs.Prelude.{◌≡◌, [], ◌∷◌, MatchOption, IfOk, IfSome, OnOk, Some, option_and_then};
ghost use Rattle.cx_condition.specs.Conditions.{Reads, Tree, unary_of, value};
ghost use Rattle.cx_condition.specs.Parts.{parts_of};
ghost use Rattle.cx_condition.specs.Values.{value_of as operand_value};
ghost use Rattle.cx_condition.specs.Shapes.Machine.{begun, closed, divided, finished, followed, ran, reach, step, went_on};
ghost use Rattle.cx_condition.specs.declared.condition.State.TheVariants.{Wait};

use crate::frame::{Frame, Frames};
use crate::operator::{Operator, Unary};
use crate::part::{Part, parts_of};
use crate::value::{Operand, Value, operand_value};
use cx_base::NoMemory;
use cx_tokens::Token;
use std::alloc::Global;

/// The value of the condition that tokens are, when each `defined` is answered and macros are
/// replaced. `None` where no tree reads all of them, or where the one that does evaluates a
/// division by zero.
pub fn value_of(alloc: Global, tokens: &[Token]) -> Result<Option<Value>, NoMemory>
    ensures found { IfOk result (λ r. IfSome r (λ v. (t : Tree) × Reads tokens.now t × (value t
        ≡ Some v))) }
    ensures only { (t : Tree) → Reads tokens.now t → IfOk result (λ r. r ≡ value t) }
{
    computed(alloc, tokens)
}

// The same, as it is computed.
fn computed(alloc: Global, tokens: &[Token]) -> Result<Option<Value>, NoMemory>
    ensures { IfOk result (λ r. r ≡ option_and_then operand_value (ran [] Wait
        (parts_of tokens.now))) }
{
    let parts = parts_of(alloc, tokens)?;
    let Some(operand) = evaluated(alloc, &parts)? else {
        return Ok(None);
    };
    Ok(operand_value(operand))
}

/// What is to come next.
#[derive(Clone, Copy)]
pub enum State {
    /// An operand.
    Wait,
    /// What follows this operand.
    Have(Operand),
}

// The operator on one operand that a part is.
fn unary_of(part: Part) -> Option<Unary>
    ensures { result ≡ unary_of part }
{
    match part {
        Part::Operator(Operator::Add) => Some(Unary::Plus),
        Part::Operator(Operator::Subtract) => Some(Unary::Minus),
        Part::Complement => Some(Unary::Complement),
        Part::Not => Some(Unary::Not),
        _ => None,
    }
}

// Frames that bind no more loosely than this have their operand when a part follows.
#[tactic(auto, unfolding(crate::specs::Shapes::Machine::reach))]
fn reach(part: Part) -> u8
    ensures { result ≡ reach part }
{
    match part {
        Part::Operator(operator) => operator.level(),
        Part::Question => 11,
        _ => 12,
    }
}

// A part where an operand is to begin.
#[tactic(auto, unfolding(crate::specs::Shapes::Machine::begun))]
fn begun(frames: &mut Frames, part: Part) -> Result<Option<State>, NoMemory>
    ensures { IfOk result (λ r. begun frames.old part ≡ went_on r frames.new) }
{
    match part {
        Part::Constant(value) => {
            return Ok(Some(State::Have(Operand {
                is_unsigned: value.is_unsigned,
                bits: Some(value.bits),
            })));
        }
        Part::Open => {
            frames.push(Frame::Open)?;
            return Ok(Some(State::Wait));
        }
        _ => {}
    }
    let Some(operator) = unary_of(part) else {
        return Ok(None);
    };
    frames.push(Frame::Unary(operator))?;
    Ok(Some(State::Wait))
}

// `:` behind an operand.
#[tactic(auto, unfolding(crate::specs::Shapes::Machine::divided))]
fn divided(frames: &mut Frames, operand: Operand) -> Result<Option<State>, NoMemory>
    ensures { IfOk result (λ r. divided frames.old operand ≡ went_on r frames.new) }
{
    let Some(frame) = frames.pop() else {
        return Ok(None);
    };
    let Frame::Question(condition) = frame else {
        return Ok(None);
    };
    frames.push(Frame::Colon(condition, operand))?;
    Ok(Some(State::Wait))
}

// `)` behind an operand.
#[tactic(auto, unfolding(crate::specs::Shapes::Machine::closed))]
fn closed(frames: &mut Frames, operand: Operand) -> Option<State>
    ensures { closed frames.old operand ≡ went_on result frames.new }
{
    let Frame::Open = frames.pop()? else {
        return None;
    };
    Some(State::Have(operand))
}

// A part behind an operand.
#[tactic(auto, unfolding(crate::specs::Shapes::Machine::followed))]
fn followed(frames: &mut Frames, operand: Operand, part: Part) -> Result<Option<State>, NoMemory>
    ensures { IfOk result (λ r. followed frames.old operand part ≡ went_on r frames.new) }
{
    match part {
        Part::Operator(operator) => {
            frames.push(Frame::Binary(operator, operand))?;
            Ok(Some(State::Wait))
        }
        Part::Question => {
            frames.push(Frame::Question(operand))?;
            Ok(Some(State::Wait))
        }
        Part::Colon => divided(frames, operand),
        Part::Close => Ok(closed(frames, operand)),
        _ => Ok(None),
    }
}

#[tactic(auto, unfolding(crate::specs::Shapes::Machine::step))]
fn step(frames: &mut Frames, state: State, part: Part) -> Result<Option<State>, NoMemory>
    ensures { IfOk result (λ r. step frames.old state part ≡ went_on r frames.new) }
{
    match state {
        State::Wait => begun(frames, part),
        State::Have(operand) => {
            let settled = frames.settle(reach(part), operand);
            followed(frames, settled, part)
        }
    }
}

// The end of the condition.
#[tactic(auto, unfolding(crate::specs::Shapes::Machine::finished))]
fn finished(frames: &mut Frames, state: State) -> Option<Operand>
    ensures { result ≡ finished frames.old state }
{
    let State::Have(operand) = state else {
        return None;
    };
    let operand = frames.settle(12, operand);
    if frames.is_empty() {
        return Some(operand);
    }
    None
}

/// What parts are evaluated to, or `None` where they are no condition.
#[tactic(auto, using(crate::proofs::MachineLaws::ran_next, crate::proofs::MachineLaws::ran_stop, crate::proofs::MachineLaws::ran_end))]
pub fn evaluated(alloc: Global, parts: &[Part]) -> Result<Option<Operand>, NoMemory>
    ensures { IfOk result (λ r. r ≡ ran [] Wait parts.now) }
{
    let mut frames = Frames::new(alloc);
    let mut state = State::Wait;
    let mut rest = parts;
    while let Some((part, more)) = first(rest) {
        let Some(next) = step(&mut frames, state, part)? else {
            return Ok(None);
        };
        state = next;
        rest = more;
    }
    Ok(finished(&mut frames, state))
}

// The first part, and the parts after it.
fn first<'a>(parts: &'a [Part]) -> Option<(Part, &'a [Part])>
    ensures { MatchOption result (parts.now ≡ []) (λ x. parts.now ≡ x.0 ∷ x.1.now) }
{
    match parts {
        [] => None,
        [part, rest @ ..] => Some((*part, rest)),
    }
}
