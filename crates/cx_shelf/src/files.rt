//! The files of a shelf, by their numbers.
ghost use Rattle.std.specs.Prelude.{◌≡◌};
ghost use Rattle.cx_shelf.specs.Shelves.{path_of, pieces_of};

use crate::shelf::Shelf;
use cx_lex::Piece;

/// The pieces of the file with a number; none where the shelf has no such file.
#[tactic(auto, unfolding(crate::specs::Shelves::pieces_of))]
pub fn pieces_of<'a>(shelf: &'a Shelf, file: usize) -> &'a [Piece]
    ensures { result.now ≡ pieces_of shelf.now file }
{
    match shelf.files.as_slice().get(file) {
        None => &[],
        Some(shelved) => shelved.lexed.pieces.as_slice(),
    }
}

/// The path of the file with a number.
#[tactic(auto, unfolding(crate::specs::Shelves::path_of))]
pub fn path_of<'a>(shelf: &'a Shelf, file: usize) -> &'a str
    ensures { result.now ≡ path_of shelf.now file }
{
    match shelf.files.as_slice().get(file) {
        None => "",
        Some(shelved) => shelved.path.as_str(),
    }
}
