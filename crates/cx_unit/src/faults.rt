//! What is told where a text does not read.
ghost use Rattle.std.specs.Prelude.{◌≡◌, IfOk};
ghost use Rattle.cx_unit.specs.Faults.{fault_finding, macro_finding, text_finding};

use cx_asking::TextFault;
use cx_base::{Finding, NoMemory};
use cx_finding::{error_directive, limit_passed, syntax_error};
use cx_macro::MacroFault;
use cx_pre::PreFault;
use std::alloc::Global;

/// The most pieces of a file.
const MOST_PIECES: u64 = 1_048_576;

/// How deep includes may be nested.
const INCLUDE_DEPTH: u64 = 64;

/// The most tokens that are laid.
const MOST_LAID: u64 = 262_144;

/// What is told of a text that has no pieces.
#[tactic(auto, unfolding(crate::specs::Faults::text_finding))]
pub(crate) fn text_finding(alloc: Global, fault: TextFault) -> Result<Finding, NoMemory>
    ensures { IfOk result (λ f. f ≡ text_finding fault) }
{
    match fault {
        TextFault::UnclosedComment { at } => syntax_error(alloc, b"unclosed comment", at),
        TextFault::TooLong { at } => limit_passed(
            alloc,
            b"pieces",
            MOST_PIECES,
            MOST_PIECES + 1,
            at,
        ),
    }
}

/// What is told of a macro that cannot be replaced.
#[tactic(auto, unfolding(crate::specs::Faults::macro_finding))]
fn macro_finding(alloc: Global, fault: MacroFault) -> Result<Finding, NoMemory>
    ensures { IfOk result (λ f. f ≡ macro_finding fault) }
{
    match fault {
        MacroFault::ArgumentCount { at } => syntax_error(alloc, b"macro argument count", at),
        MacroFault::UnclosedCall { at } => syntax_error(alloc, b"unclosed macro call", at),
        MacroFault::BadPaste { at } => syntax_error(alloc, b"bad paste", at),
        MacroFault::TooManyTokens { at, laid } => {
            limit_passed(alloc, b"tokens", MOST_LAID, laid, at)
        }
        MacroFault::NoMemory => Err(NoMemory),
    }
}

/// What is told of the first fault of a text.
#[tactic(auto, unfolding(crate::specs::Faults::fault_finding))]
pub(crate) fn fault_finding(alloc: Global, fault: PreFault) -> Result<Finding, NoMemory>
    ensures { IfOk result (λ f. f ≡ fault_finding fault) }
{
    match fault {
        PreFault::ErrorDirective { at, text } => error_directive(alloc, text, at),
        PreFault::BadDirective { at } => syntax_error(alloc, b"bad directive", at),
        PreFault::UnclosedGroup { at } => syntax_error(alloc, b"unclosed group", at),
        PreFault::StrayElse { at } => syntax_error(alloc, b"stray else", at),
        PreFault::BadCondition { at } => syntax_error(alloc, b"bad condition", at),
        PreFault::Deep { at } => {
            limit_passed(
                alloc,
                b"include depth",
                INCLUDE_DEPTH,
                INCLUDE_DEPTH + 1,
                at,
            )
        }
        PreFault::UnclosedLiteral { at } => syntax_error(alloc, b"unclosed literal", at),
        PreFault::Macro(fault) => macro_finding(alloc, fault),
    }
}
