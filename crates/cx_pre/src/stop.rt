//! Why a text is not gone through.
ghost use Rattle.std.specs.Prelude.{◌≡◌, ◌≢◌};
ghost use Rattle.cx_macro.specs.declared.fault.MacroFault.TheVariants as macro_fault;
ghost use Rattle.cx_pre.specs.declared.stop.Stop.TheVariants as stop;
ghost use Rattle.cx_pre.specs.Shapes.Gives.{StopsWith};

use crate::fault::PreFault;
use cx_base::NoMemory;
use cx_macro::MacroFault;

/// Why a text is not gone through: its first fault, or want of memory.
#[derive(Debug, Drop)]
pub(crate) enum Stop {
    Fault(PreFault),
    NoMemory,
}

impl From<NoMemory> for Stop {
    ghost use Rattle.std.specs.Prelude.{◌≡◌};
    ghost use Rattle.cx_pre.specs.declared.stop.Stop.TheVariants.{NoMemory as no_memory};

    ghost from_gives = { λ _ stop. stop ≡ no_memory };

    fn from(_error: NoMemory) -> Stop {
        Stop::NoMemory
    }
}

/// The stop that a refused replacement is.
pub(crate) fn stop_of(fault: MacroFault) -> Stop
    ensures { StopsWith fault result }
{
    match fault {
        MacroFault::NoMemory => Stop::NoMemory,
        _ => Stop::Fault(PreFault::Macro(fault)),
    }
}
