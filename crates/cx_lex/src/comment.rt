//! Comments as they stand in a source.
ghost use Rattle.std.specs.Prelude.{◌≡◌, IfOk};

use cx_base::{Duplicate, NoMemory, Place, Text};

/// A comment (C11 6.4.9).
#[derive(Debug, Drop)]
pub struct Comment {
    /// Where its `//` or `/*` stands.
    pub place: Place,
    /// What stands between its `//` and the end of its line, or between its `/*` and `*/`, without
    /// deleted newlines.
    pub text: Text,
    /// Whether no piece stands before it on its line.
    pub alone: bool,
}

impl Comment {
    pub fn copy(&self) -> Result<Comment, NoMemory>
        ensures { IfOk result (λ c. c ≡ self.now) }
    {
        let text = self.text.copy()?;
        Ok(Comment {
            place: self.place,
            text,
            alone: self.alone,
        })
    }
}

impl Duplicate for Comment {
    fn duplicate(&self) -> Result<Comment, NoMemory> {
        self.copy()
    }
}
