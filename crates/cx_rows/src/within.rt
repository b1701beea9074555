//! Small limits.
use cx_asking::Limits;
use cx_run::RunLimits;
use cx_unit::UnitLimits;

/// The limits of a case.
#[derive(Clone, Copy)]
pub enum Within {
    /// Those of the command.
    Command,
    /// A file of as many bytes as `read` is too large, and `kept` are kept of all files.
    Bytes { read: u64, kept: u64 },
    /// So many folders, and so deep.
    Folders { folders: usize, depth: u32 },
    /// A unit of so many files, and so many bytes.
    Closure { files: u64, bytes: u64 },
    /// So many units.
    Units(u64),
}

/// The most bytes that the command reads of a file.
const MOST_READ: u64 = 4_194_305;

/// Limits past which no case goes but by what it changes.
const WIDE: RunLimits = RunLimits {
    asking: Limits {
        read: 100,
        kept: 1_000,
        folders: 100,
        depth: 64,
    },
    unit: UnitLimits {
        read: 100,
        files: 10,
        bytes: 1_000,
    },
    units: 10,
};

impl Within {
    /// Limits that are not those of the command.
    pub(crate) fn limits(self) -> Option<RunLimits> {
        let mut limits = WIDE;
        match self {
            Within::Command => return None,
            Within::Bytes { read, kept } => {
                limits.asking.read = read;
                limits.asking.kept = kept;
                limits.unit.read = read;
            }
            Within::Folders { folders, depth } => {
                limits.asking.folders = folders;
                limits.asking.depth = depth;
            }
            Within::Closure { files, bytes } => {
                limits.unit.files = files;
                limits.unit.bytes = bytes;
            }
            Within::Units(units) => limits.units = units,
        }
        Some(limits)
    }

    /// The most bytes that are read of a file.
    pub(crate) fn most_read(self) -> u64 {
        match self.limits() {
            Some(limits) => limits.asking.read,
            None => MOST_READ,
        }
    }
}
