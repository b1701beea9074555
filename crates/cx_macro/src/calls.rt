//! Calls whose arguments are being expanded.
ghost use Rattle.std.specs.Prelude.{◌≡◌, ◌≢◌, ◌+◌, ◌<◌, ◌≤◌, [], ℕ, if◌then◌else◌, length, IfOk, IfErr, OnOk};
ghost use Rattle.cx_macro.specs.Macros.{Table};
ghost use Rattle.cx_macro.specs.Shapes.Substitutes.{is_raw};
ghost use Rattle.cx_macro.specs.Shapes.Steps.{FailsBehind, FailsIn, Proceeds, Resumes, wanted_argument};
ghost use Rattle.cx_macro.specs.Stored.{definition_of};

use crate::buffer::Buffer;
use crate::expansion::{Call, State};
use crate::fault::MacroFault;
use crate::replacing::replacement;
use crate::stack::Stack;
use crate::stored::Stored;
use crate::substitutes::Arguments;
use cx_base::{List, NoMemory};
use cx_tokens::Token;
use std::alloc::Global;

/// How many tokens are laid behind a replacement of a name by others.
pub(crate) fn count(laid: u32, bound: u32, name: &Token, news: &[Token]) -> Result<u32, MacroFault>
    ensures within { IfOk result (λ n. (n ≡ laid + (length news.now + 1)) × (n ≤ bound)) }
    ensures fault { IfErr result
        (λ fault. fault ≢ MacroFault.NoMemory → (bound < laid + (length news.now + 1))
        × (fault ≡ MacroFault.TooManyTokens name.now.place (laid + (length news.now + 1)))) }
{
    let total = (news.len() as u64)
        .checked_add(u64::from(laid) + 1)
        .ok_or(MacroFault::NoMemory)?;
    if total <= u64::from(bound) {
        Ok(total as u32)
    } else {
        Err(MacroFault::TooManyTokens {
            at: name.place,
            laid: total,
        })
    }
}

/// What is kept of the argument ahead as it is: nothing, where it stands nowhere beside `#` or
/// `##`.
fn kept(
    alloc: Global,
    buffer: &Buffer,
    stored: &Stored,
    index: usize,
) -> Result<List<Token>, NoMemory>
    ensures { IfOk result (λ l.
        l ≡ (if is_raw (definition_of stored.now) index then buffer.now.ahead else [])) }
{
    if stored.is_raw(index) {
        buffer.walk().copies(alloc)
    } else {
        Ok(List::new(alloc))
    }
}

/// Takes the argument ahead out of the list, where it is not to be expanded.
fn take_unwanted(buffer: &mut Buffer, stored: &Stored, index: usize) -> Result<(), NoMemory>
    ensures done { OnOk result (buffer.new.done ≡ buffer.old.done) }
    ensures ahead { OnOk result (buffer.new.ahead
        ≡ wanted_argument (definition_of stored.now) index buffer.old.ahead) }
    ensures more { OnOk result (buffer.new.more ≡ buffer.old.more) }
{
    if stored.is_expanded(index) {
        return Ok(());
    }
    buffer.clear()
}

/// Begins the next argument of a call, which is the segment ahead.
fn begin<'a>(
    alloc: Global,
    laid: u32,
    buffer: Buffer,
    call: Call<'a>,
    calls: Stack<Call<'a>>,
) -> Result<State<'a>, NoMemory>
    requires { length call.expanded < call.arguments }
    ensures { IfOk result
        (λ new. (table : Table) (bound : ℕ) → laid ≤ bound
        → Proceeds table bound laid buffer call.entry calls.entry new) }
{
    let mut buffer = buffer;
    let mut call = call;
    let mut calls = calls;
    let index = call.expanded.len();
    let kept = kept(alloc, &buffer, call.stored, index)?;
    take_unwanted(&mut buffer, call.stored, index)?;
    call.raw.push(kept)?;
    calls.push(call)?;
    Ok(State {
        laid,
        buffer,
        done: List::new(alloc),
        calls,
    })
}

/// Replaces a call whose arguments are expanded.
fn finish<'a>(
    alloc: Global,
    bound: u32,
    laid: u32,
    buffer: Buffer,
    call: Call<'a>,
    calls: Stack<Call<'a>>,
) -> Result<State<'a>, MacroFault>
    requires { call.arguments ≤ length call.expanded }
    ensures new { IfOk result
        (λ new. (table : Table) → Proceeds table bound laid buffer call.entry calls.entry new) }
    ensures fault { IfErr result
        (λ fault. (table : Table) → FailsIn table bound laid buffer call.entry calls.entry fault) }
{
    let arguments = Arguments {
        given: call.raw.as_slice(),
        left_out: call.left_out,
        expanded: call.expanded.as_slice(),
    };
    let news = replacement(alloc, call.stored, arguments, &call.name, &call.hide)?;
    let laid = count(laid, bound, &call.name, news.as_slice())?;
    let mut buffer = buffer;
    buffer.put(alloc, news)?;
    Ok(State {
        laid,
        buffer,
        done: call.done,
        calls,
    })
}

/// Goes on with a call: with its next argument, or with what replaces it.
pub(crate) fn proceed<'a>(
    alloc: Global,
    bound: u32,
    laid: u32,
    buffer: Buffer,
    call: Call<'a>,
    calls: Stack<Call<'a>>,
) -> Result<State<'a>, MacroFault>
    requires { laid ≤ bound }
    ensures new { IfOk result
        (λ new. (table : Table) → Proceeds table bound laid buffer call.entry calls.entry new) }
    ensures fault { IfErr result
        (λ fault. (table : Table) → FailsIn table bound laid buffer call.entry calls.entry fault) }
{
    if call.expanded.len() < call.arguments {
        Ok(begin(alloc, laid, buffer, call, calls)?)
    } else {
        finish(alloc, bound, laid, buffer, call, calls)
    }
}

/// Goes on with a call of which an argument has been expanded to these tokens.
pub(crate) fn resume<'a>(
    alloc: Global,
    bound: u32,
    laid: u32,
    buffer: Buffer,
    done: List<Token>,
    call: Call<'a>,
    calls: Stack<Call<'a>>,
) -> Result<State<'a>, MacroFault>
    requires within { laid ≤ bound }
    requires ends { buffer.ahead ≡ [] }
    ensures new { IfOk result
        (λ new. (table : Table) → Resumes table bound laid buffer done call.entry calls.entry new) }
    ensures fault { IfErr result
        (λ fault. (table : Table)
        → FailsBehind table bound laid buffer done call.entry calls.entry fault) }
{
    let mut buffer = buffer;
    let mut call = call;
    call.expanded.push(done)?;
    buffer.advance()?;
    proceed(alloc, bound, laid, buffer, call, calls)
}
