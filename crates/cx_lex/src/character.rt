//! Characters of a source.
use cx_base::Place;

/// A character of a source that is left once its deleted newlines are taken away (C11 5.1.1.2,
/// phases 1 and 2).
#[derive(Clone, Copy, Debug, PartialEq, Eq)]
pub struct Character {
    /// Its byte.
    pub code: u8,
    /// Whether it belongs to a newline: the byte 10, or 13 directly before 10.
    pub in_newline: bool,
    /// Where it stands in the file as stored.
    pub place: Place,
}
