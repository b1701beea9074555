//! The calls on files, as files that tell of themselves note them.
use crate::path::Path;

/// What is asked of a path: the members of the folder there, or the first bytes of the file there.
#[derive(Clone, Copy, Debug, PartialEq, Eq)]
pub enum FileRequest {
    List,
    Read { most: u64 },
}

/// A call that was answered: what it asked, and whether it failed.
#[derive(Debug, Drop)]
pub struct FileCall {
    pub path: Path,
    pub request: FileRequest,
    pub failed: bool,
}
