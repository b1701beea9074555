//! Places in sources.

/// A place in a source: `file` is an index into a list of paths that stands beside it, `line` and
/// `column` count from 1, and a column counts bytes. Line 0 and column 0 stand where there is none.
#[derive(Clone, Copy, Debug, PartialEq, Eq)]
pub struct Place {
    pub file: u32,
    pub line: u32,
    pub column: u32,
}
