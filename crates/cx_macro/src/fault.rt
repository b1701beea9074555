//! Why a text cannot be expanded.
use cx_base::{NoMemory, Place};

/// Why a text cannot be expanded. Each but the last stands at the name of the macro that could not
/// be replaced: in a replacement that is the place of the outermost macro's name.
#[derive(Clone, Copy, Debug, PartialEq, Eq)]
pub enum MacroFault {
    /// A call has another number of arguments than the macro takes (C11 6.10.3, paragraph 4).
    ArgumentCount { at: Place },
    /// A call has no closing bracket (C11 6.10.3, paragraph 4).
    UnclosedCall { at: Place },
    /// A `##` makes no preprocessing token (C11 6.10.3.3, paragraph 3).
    BadPaste { at: Place },
    /// More tokens were laid than the bound. Where the length of the list alone passes it, `at` is
    /// the place of the first token.
    TooManyTokens { at: Place, laid: u64 },
    /// Memory ran out.
    NoMemory,
}

impl From<NoMemory> for MacroFault {
    ghost use Rattle.std.specs.Prelude.{◌≡◌};
    ghost use Rattle.cx_macro.specs.declared.fault.MacroFault.TheVariants.{NoMemory as no_memory};

    ghost from_gives = { λ _ fault. fault ≡ no_memory };

    fn from(_error: NoMemory) -> MacroFault {
        MacroFault::NoMemory
    }
}
