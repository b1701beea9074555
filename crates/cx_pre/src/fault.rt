//! Why no tokens are chosen.
use cx_base::{Place, Text};
use cx_macro::MacroFault;

/// Why no tokens are chosen: the first fault of a text.
#[derive(Debug, Drop)]
pub enum PreFault {
    /// An `error`, at its `#`, with the text behind it (C11 6.10.5).
    ErrorDirective { at: Place, text: Text },
    /// A directive that is none, or that has a wrong form, at its `#` (C11 6.10, paragraph 1).
    BadDirective { at: Place },
    /// A section that is open where its file ends, at the `#` that opened the innermost one.
    UnclosedGroup { at: Place },
    /// An `elif`, `else` or `endif` without an open section, or an `elif` or `else` behind the `else`
    /// of its section, at its `#`.
    StrayElse { at: Place },
    /// A condition that no tree reads, or in which a division by zero is evaluated, at the `#` (C11
    /// 6.10.1).
    BadCondition { at: Place },
    /// An include nested deeper than 64, at the name.
    Deep { at: Place },
    /// A quote without an end, of the tokens that are chosen (C11 6.4, paragraph 3).
    UnclosedLiteral { at: Place },
    /// A macro that cannot be replaced. It is never want of memory.
    Macro(MacroFault),
}
