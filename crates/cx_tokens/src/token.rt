//! Preprocessing tokens.
ghost use Rattle.std.specs.Prelude.{◌≡◌, IfOk};

use cx_base::{Duplicate, NoMemory, Place, SharedList, Text};

/// The kind of a preprocessing token (C11 6.4).
#[derive(Clone, Copy, Debug, PartialEq, Eq)]
pub enum Kind {
    /// A letter or `_`, then letters, digits and `_` (C11 6.4.2).
    Name,
    /// A preprocessing number (C11 6.4.8).
    Number,
    /// A character constant (C11 6.4.4.4).
    Char,
    /// A string literal (C11 6.4.5).
    String,
    /// A quote without its end on the line.
    Unclosed,
    /// The name of a header (C11 6.4.7).
    Header,
    /// A punctuator (C11 6.4.6).
    Punct,
    /// Any other byte.
    Other,
}

/// A preprocessing token.
#[derive(Debug, Drop)]
pub struct Token {
    pub kind: Kind,
    /// Its bytes.
    pub text: Text,
    /// The line and column of its first byte.
    pub place: Place,
    /// The macros that are not to replace it any more.
    pub hide: SharedList<Text>,
    /// Whether a separator, a comment or a newline stands directly before it.
    pub space: bool,
    /// Of a string that was joined from several: how many bytes each of them has between its
    /// quotes, in order, since an escape ends in its own string. Empty for every other token.
    pub parts: SharedList<usize>,
    /// Whether it was spelt as a digraph; `text` is then the plain form (C11 6.4.6).
    pub digraph: bool,
}

impl Token {
    pub fn copy(&self) -> Result<Token, NoMemory>
        ensures { IfOk result (λ t. t ≡ self.now) }
    {
        let text = self.text.copy()?;
        let hide = self.hide.share()?;
        let parts = self.parts.share()?;
        Ok(Token {
            kind: self.kind,
            text,
            place: self.place,
            hide,
            space: self.space,
            parts,
            digraph: self.digraph,
        })
    }
}

impl Duplicate for Token {
    fn duplicate(&self) -> Result<Token, NoMemory> {
        self.copy()
    }
}
