//! Findings.
ghost use Rattle.std.specs.Prelude.{◌≡◌, IfOk};

use crate::bytes::Text;
use crate::errors::NoMemory;
use crate::id::{Id, Severity};
use crate::list::{Duplicate, List};
use crate::place::Place;

/// A word of a message: a text, or a number, which is printed in decimal.
#[derive(Debug, Drop)]
pub enum Word {
    Text(Text),
    Number(i128),
}

/// Something that the checker tells of a source.
#[derive(Debug, Drop)]
pub struct Finding {
    pub id: Id,
    pub severity: Severity,
    pub place: Place,
    /// Further places that the finding speaks of.
    pub others: List<Place>,
    /// The words of its message, in their order.
    pub words: List<Word>,
}

impl Word {
    pub fn copy(&self) -> Result<Word, NoMemory>
        ensures { IfOk result (λ w. w ≡ self.now) }
    {
        match self {
            Word::Text(text) => {
                let text = text.copy()?;
                Ok(Word::Text(text))
            }
            Word::Number(number) => Ok(Word::Number(*number)),
        }
    }
}

impl Duplicate for Word {
    fn duplicate(&self) -> Result<Word, NoMemory> {
        self.copy()
    }
}

impl Duplicate for Place {
    fn duplicate(&self) -> Result<Place, NoMemory> {
        Ok(*self)
    }
}

impl Finding {
    pub fn copy(&self) -> Result<Finding, NoMemory>
        ensures { IfOk result (λ f. f ≡ self.now) }
    {
        let others = self.others.copy()?;
        let words = self.words.copy()?;
        Ok(Finding {
            id: self.id,
            severity: self.severity,
            place: self.place,
            others,
            words,
        })
    }
}

impl Duplicate for Finding {
    fn duplicate(&self) -> Result<Finding, NoMemory> {
        self.copy()
    }
}
