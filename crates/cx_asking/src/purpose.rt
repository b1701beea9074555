//! What paths are asked for.

/// What a path is asked for, which says by which calls.
#[derive(Clone, Copy, Debug, PartialEq, Eq)]
pub enum Purpose {
    /// For a folder, and where there is none for a file.
    Given,
    /// For a file.
    File,
    /// For a folder.
    Folder,
}
