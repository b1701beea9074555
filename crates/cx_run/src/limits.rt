//! The limits of a run.
ghost use Rattle.std.specs.Prelude.{◌≡◌};
ghost use Rattle.cx_run.specs.Limits.{limits_of_command};

use cx_asking::Limits;
use cx_unit::UnitLimits;

/// How much a run may have.
#[derive(Clone, Copy, Debug)]
pub struct RunLimits {
    /// What is asked and kept.
    pub asking: Limits,
    /// What a unit may have.
    pub unit: UnitLimits,
    /// The most units that are checked.
    pub units: u64,
}

/// The most bytes of a file that are read: one that has as many is too large.
const MOST_READ: u64 = 4_194_305;

/// The limits of the command.
pub(crate) fn limits_of_command() -> RunLimits
    ensures { result ≡ limits_of_command }
{
    RunLimits {
        asking: Limits {
            read: MOST_READ,
            kept: 67_108_864,
            folders: 65_536,
            depth: 64,
        },
        unit: UnitLimits {
            read: MOST_READ,
            files: 512,
            bytes: 8_388_608,
        },
        units: 4_096,
    }
}
