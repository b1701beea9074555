//! Why texts have no pieces.
use cx_base::Place;

/// Why the text of a file has no pieces.
#[derive(Clone, Copy, Debug, PartialEq, Eq)]
pub enum TextFault {
    /// A comment has no end; it begins there.
    UnclosedComment { at: Place },
    /// There are too many pieces; the first too many stands there.
    TooLong { at: Place },
}
