//! The limits of units.

/// How much a unit may have.
#[derive(Clone, Copy, Debug)]
pub struct UnitLimits {
    /// A file that has so many bytes is too large.
    pub read: u64,
    /// The most files of a unit.
    pub files: u64,
    /// The most bytes of all files of a unit.
    pub bytes: u64,
}
