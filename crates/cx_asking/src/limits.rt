//! The limits of asking.

/// How much is asked and kept.
#[derive(Clone, Copy, Debug)]
pub struct Limits {
    /// The most bytes that are read of a file: one that has as many is too large.
    pub read: u64,
    /// The most bytes that are kept of all files together.
    pub kept: u64,
    /// After so many folders no subfolder is asked.
    pub folders: usize,
    /// How deep folders are gone through; a path that is given has depth 1.
    pub depth: u32,
}
