//! The steps of macro replacement: a token stays, is replaced, or begins a call.
ghost use Rattle.std.specs.Prelude.{◌≡◌, ◌≢◌, ◌<◌, ◌≤◌, [], ◌∷◌, List as list, MatchOption, Some, IfOk, IfErr, OnOk, length, true, ℕ};
ghost use Rattle.cx_tokens.specs.declared.token.Token.{Token};
ghost use Rattle.cx_tokens.specs.Nodes.{tokens};
ghost use Rattle.cx_macro.specs.Expansion.{Expands, definition_at, expanded, refused, of_object, no_invocation};
ghost use Rattle.cx_macro.specs.Shapes.Invocations.{invocation_of};
ghost use Rattle.cx_macro.specs.declared.expansion.Step.TheVariants.{Goes};
ghost use Rattle.cx_macro.specs.Macros.{Table};
ghost use Rattle.cx_macro.specs.Partners.{HasNoPartners};
ghost use Rattle.cx_macro.specs.Shapes.Steps.{FailsAt, FailsAtStart, Invokes, MeaningIs, StepIs, Takes};
ghost use Rattle.cx_macro.specs.Arguments.{begins_call};
ghost use Rattle.cx_macro.specs.Shapes.Invocations.{may_be_replaced};
ghost use Rattle.cx_macro.specs.Stored.{definition_of};

use crate::buffer::Buffer;
use crate::calls::{count, proceed, resume};
use crate::expansion::{Call, Invoked, Meaning, State, Step};
use crate::fault::MacroFault;
use crate::hiding::{common, is_among, with_name};
use crate::macros::Macros;
use crate::marks::{is_name, is_open};
use crate::replacing::replacement;
use crate::segment::Cut;
use crate::stack::Stack;
use crate::stored::{Stored, is_same};
use crate::substitutes::Arguments;
use crate::walk::Walk;
use cx_base::{List, NoMemory, Text};
use cx_tokens::{Token, TokenList};
use std::alloc::Global;

/// The name that stands for the line of its place (C11 6.10.8.1).
const LINE_NAME: &[u8] = b"__LINE__";

/// Whether a token is a name that its hide set does not hold.
fn may_be_replaced(token: &Token) -> bool
    ensures { result ≡ may_be_replaced token.now }
{
    is_name(token.kind) && !is_among(token.hide.as_slice(), token.text.as_slice())
}

/// What a token may be replaced by.
#[tactic(auto, unfolding(crate::specs::Expansion::definition_at))]
fn meaning_of<'a>(macros: &'a Macros, token: &Token) -> Meaning<'a>
    ensures { MeaningIs macros.now token.now result }
{
    if !may_be_replaced(token) {
        return Meaning::Itself;
    }
    if is_same(token.text.as_slice(), LINE_NAME) {
        return Meaning::Line;
    }
    match macros.find(token.text.as_slice()) {
        None => Meaning::Itself,
        Some(stored) => Meaning::Macro(stored),
    }
}

/// Whether the next token is an opening bracket.
fn is_bracket_next(behind: Walk) -> bool
    ensures { result ≡ begins_call behind.entry }
{
    let mut behind = behind;
    match behind.next() {
        None => false,
        Some(token) => is_open(token),
    }
}

/// What replaces a token that may be replaced by this, and has these behind it; or nothing, where
/// it stays.
fn invoked_by<'a>(meaning: Meaning<'a>, behind: Walk) -> Option<Invoked<'a>>
    ensures { (table : Table) (t : Token) → MeaningIs table t meaning.entry
        → MatchOption result (invocation_of table t behind.entry ≡ no_invocation)
        (λ invoked. Invokes table t behind.entry invoked) }
{
    let stored = match meaning {
        Meaning::Itself => return None,
        Meaning::Line => return Some(Invoked::Line),
        Meaning::Macro(stored) => stored,
    };
    let Some(parameters) = stored.parameters() else {
        return Some(Invoked::Object(stored));
    };
    if is_bracket_next(behind) {
        Some(Invoked::Function(stored, parameters))
    } else {
        None
    }
}

/// What replaces the first token ahead, or nothing, where it stays.
fn invoked_ahead<'a>(macros: &'a Macros, buffer: &Buffer) -> Option<Invoked<'a>>
    ensures { (t : Token) (rest : list Token) → buffer.now.ahead ≡ t ∷ rest
        → MatchOption result (invocation_of macros.now t rest ≡ no_invocation)
        (λ invoked. Invokes macros.now t rest invoked) }
{
    let mut walk = buffer.walk();
    let token = walk.next()?;
    invoked_by(meaning_of(macros, token), walk)
}

/// Lets the first token ahead stay. Only in an argument of a waiting call is it taken out.
fn stay<'a>(state: State<'a>) -> Result<State<'a>, MacroFault>
    requires { 0 < length state.buffer.ahead }
    ensures new { IfOk result
        (λ new. (table : Table) (bound : ℕ) (t : Token) (rest : list Token)
        → state.entry.buffer.ahead ≡ t ∷ rest → invocation_of table t rest ≡ no_invocation
        → state.entry.laid ≤ bound → StepIs table bound state.entry (Goes new)) }
    ensures fault { IfErr result (λ fault. fault ≡ MacroFault.NoMemory) }
{
    let mut state = state;
    if state.calls.is_empty() {
        state.buffer.pass()?;
        return Ok(state);
    }
    let Some(token) = state.buffer.pop()? else {
        return Ok(state);
    };
    state.done.push(token)?;
    Ok(state)
}

/// Replaces the name of an object-like macro.
fn replace<'a>(
    alloc: Global,
    bound: u32,
    state: State<'a>,
    stored: &Stored,
    name: Token,
) -> Result<State<'a>, MacroFault>
    ensures new { IfOk result
        (λ new. (table : Table)
        → invocation_of table name state.entry.buffer.ahead ≡ of_object (definition_of stored.now)
        → Takes table bound name state.entry new) }
    ensures fault { IfErr result
        (λ fault. (table : Table)
        → invocation_of table name state.entry.buffer.ahead ≡ of_object (definition_of stored.now)
        → FailsAt table bound name state.entry fault) }
{
    let none = Arguments {
        given: &[],
        left_out: false,
        expanded: &[],
    };
    let hide = with_name(alloc, &name.text, &name.hide)?;
    let news = replacement(alloc, stored, none, &name, &hide)?;
    let mut state = state;
    state.laid = count(state.laid, bound, &name, news.as_slice())?;
    state.buffer.put(alloc, news)?;
    Ok(state)
}

/// Takes the opening bracket that is ahead.
fn pass_bracket(buffer: &mut Buffer) -> Result<(), NoMemory>
    ensures ahead { OnOk result (begins_call buffer.old.ahead ≡ true
        → (bracket : Token) × (buffer.old.ahead ≡ bracket ∷ buffer.new.ahead)) }
    ensures done { OnOk result (buffer.new.done ≡ buffer.old.done) }
    ensures more { OnOk result (buffer.new.more ≡ buffer.old.more) }
{
    let _open = buffer.pop()?;
    Ok(())
}

/// Begins the call of a macro whose name was taken and whose opening bracket is ahead.
fn call<'a>(
    alloc: Global,
    bound: u32,
    state: State<'a>,
    stored: &'a Stored,
    parameters: &[Text],
    name: Token,
) -> Result<State<'a>, MacroFault>
    requires { state.laid ≤ bound }
    ensures new { IfOk result
        (λ new. (table : Table) → definition_at table name ≡ Some (definition_of stored.now)
        → stored.now.parameters ≡ Some parameters.now
        → begins_call state.entry.buffer.ahead ≡ true
        → Takes table bound name state.entry new) }
    ensures fault { IfErr result
        (λ fault. (table : Table) → definition_at table name ≡ Some (definition_of stored.now)
        → stored.now.parameters ≡ Some parameters.now
        → begins_call state.entry.buffer.ahead ≡ true
        → FailsAt table bound name state.entry fault) }
{
    let State {
        laid,
        buffer,
        done,
        calls,
    } = state;
    let mut buffer = buffer;
    pass_bracket(&mut buffer)?;
    match buffer.cut(alloc, parameters.len(), stored.is_variadic())? {
        Cut::Unclosed => Err(MacroFault::UnclosedCall { at: name.place }),
        Cut::Miscounted => Err(MacroFault::ArgumentCount { at: name.place }),
        Cut::Called {
            hide: closing,
            arguments,
            left_out,
        } => {
            let both = common(alloc, &name.hide, &closing)?;
            let hide = with_name(alloc, &name.text, &both)?;
            let call = Call {
                name,
                stored,
                hide,
                arguments,
                left_out,
                raw: List::new(alloc),
                expanded: List::new(alloc),
                done,
            };
            proceed(alloc, bound, laid, buffer, call, calls)
        }
    }
}

/// Takes the first token ahead, which is replaced.
fn take<'a>(
    alloc: Global,
    bound: u32,
    state: State<'a>,
    invoked: Invoked<'a>,
) -> Result<State<'a>, MacroFault>
    requires within { state.laid ≤ bound }
    requires some { 0 < length state.buffer.ahead }
    ensures new { IfOk result
        (λ new. (table : Table) → ((t : Token) (rest : list Token)
        → state.entry.buffer.ahead ≡ t ∷ rest → Invokes table t rest invoked.entry)
        → StepIs table bound state.entry (Goes new)) }
    ensures fault { IfErr result
        (λ fault. (table : Table) → ((t : Token) (rest : list Token)
        → state.entry.buffer.ahead ≡ t ∷ rest → Invokes table t rest invoked.entry)
        → FailsAtStart table bound state.entry fault) }
{
    let mut state = state;
    let token = state.buffer.pop()?.unwrap();
    take_token(alloc, bound, state, token, invoked)
}

/// Replaces a token that was taken.
fn take_token<'a>(
    alloc: Global,
    bound: u32,
    state: State<'a>,
    token: Token,
    invoked: Invoked<'a>,
) -> Result<State<'a>, MacroFault>
    requires { state.laid ≤ bound }
    ensures new { IfOk result
        (λ new. (table : Table) → Invokes table token state.entry.buffer.ahead invoked.entry
        → Takes table bound token state.entry new) }
    ensures fault { IfErr result
        (λ fault. (table : Table) → Invokes table token state.entry.buffer.ahead invoked.entry
        → FailsAt table bound token state.entry fault) }
{
    match invoked {
        Invoked::Line => {
            let line = Stored::line_of(alloc, &token)?;
            replace(alloc, bound, state, &line, token)
        }
        Invoked::Object(stored) => replace(alloc, bound, state, stored, token),
        Invoked::Function(stored, parameters) => {
            call(alloc, bound, state, stored, parameters, token)
        }
    }
}

/// Ends the list ahead: that of an argument, or the whole.
fn end<'a>(alloc: Global, bound: u32, state: State<'a>) -> Result<Step<'a>, MacroFault>
    requires within { state.laid ≤ bound }
    requires none { state.buffer.ahead ≡ [] }
    ensures new { IfOk result (λ step. (table : Table) → StepIs table bound state.entry step) }
    ensures fault { IfErr result
        (λ fault. (table : Table) → FailsAtStart table bound state.entry fault) }
{
    let State {
        laid,
        buffer,
        done,
        calls,
    } = state;
    let mut calls = calls;
    match calls.pop() {
        None => Ok(Step::Ends {
            done: buffer.into_list(),
            laid,
        }),
        Some(call) => Ok(Step::Goes(resume(alloc, bound, laid, buffer, done, call, calls)?)),
    }
}

/// Makes a step.
pub(crate) fn step<'a>(
    macros: &'a Macros,
    alloc: Global,
    bound: u32,
    state: State<'a>,
) -> Result<Step<'a>, MacroFault>
    requires { state.laid ≤ bound }
    ensures new { IfOk result (λ step. StepIs macros.now bound state.entry step) }
    ensures fault { IfErr result (λ fault. FailsAtStart macros.now bound state.entry fault) }
{
    if state.buffer.is_empty() {
        return end(alloc, bound, state);
    }
    match invoked_ahead(macros, &state.buffer) {
        None => Ok(Step::Goes(stay(state)?)),
        Some(invoked) => Ok(Step::Goes(take(alloc, bound, state, invoked)?)),
    }
}

/// Expands a list, whose tokens have been laid with those before them.
pub(crate) fn run(
    macros: &Macros,
    alloc: Global,
    bound: u32,
    laid: u32,
    list: TokenList,
) -> Result<(TokenList, u32), MacroFault>
    requires { laid ≤ bound }
    ensures outcome { IfOk result
        (λ x. Expands macros.now bound laid (tokens list.nodes) (expanded (tokens x.0.nodes) x.1)) }
    ensures partners { IfOk result (λ x. HasNoPartners x.0.nodes) }
    ensures within { IfOk result (λ x. x.1 ≤ bound) }
    ensures fault { IfErr result
        (λ fault. fault ≢ MacroFault.NoMemory
        → Expands macros.now bound laid (tokens list.nodes) (refused fault)) }
{
    let mut state = State {
        laid,
        buffer: Buffer::new(alloc, list)?,
        done: List::new(alloc),
        calls: Stack::new(alloc),
    };
    loop {
        match step(macros, alloc, bound, state)? {
            Step::Ends { done, laid } => return Ok((done, laid)),
            Step::Goes(next) => state = next,
        }
    }
}
