//! What a unit is chosen from.
use cx_base::{List, Path};
use cx_lex::Lexed;

/// A file, by its path and its pieces.
#[derive(Drop)]
pub struct Shelved {
    pub path: Path,
    pub lexed: Lexed,
}

/// The folders of `-I`, in order, and the files that there are. Any other path is that of no file.
#[derive(Drop)]
pub struct Shelf {
    pub folders: List<Path>,
    pub files: List<Shelved>,
}
