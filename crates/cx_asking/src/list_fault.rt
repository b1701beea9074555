//! Why lists are refused.
use cx_base::Path;

/// Why a file with a list is refused.
#[derive(Clone, Copy, Debug, PartialEq, Eq)]
pub enum FileFault {
    /// There is no such file.
    Absent,
    /// It could not be read.
    Unreadable,
    /// It has too many bytes.
    TooLarge,
    /// A line of it, counted from 1, is refused.
    BadLine { line: u32 },
}

/// A list that is refused.
#[derive(Debug, Drop)]
pub struct ListFault {
    /// The number of the word that names it.
    pub word: u32,
    /// Its path, as the word has it.
    pub path: Path,
    /// Why it is refused.
    pub fault: FileFault,
}
