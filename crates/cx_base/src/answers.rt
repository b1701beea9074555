//! What the outside answered.
ghost use Rattle.std.specs.Prelude.{◌≡◌, IfOk};

use crate::bytes::Bytes;
use crate::errors::NoMemory;
use crate::list::{Duplicate, List};
use crate::path::Path;

/// A member of a folder: its name, and whether it is a folder itself.
#[derive(Debug, Drop)]
pub struct Entry {
    pub name: Path,
    pub folder: bool,
}

/// A file of an outside in memory.
#[derive(Debug, Drop)]
pub struct Stored {
    pub path: Path,
    pub bytes: Bytes,
}

/// What stands at a path.
#[derive(Debug, Drop)]
pub enum Answer {
    /// A file, with its bytes.
    Present(Bytes),
    /// Nothing.
    Absent,
    /// A folder, with its members.
    Folder(List<Entry>),
    /// A file or folder that could not be read.
    Unreadable,
    /// A file past the limit on its bytes.
    TooLarge,
}

/// A path that was asked, with its one answer.
#[derive(Debug, Drop)]
pub struct SeenEntry {
    pub path: Path,
    pub answer: Answer,
}

/// All that was asked, in the order of asking.
pub type Seen = List<SeenEntry>;

impl Entry {
    pub fn copy(&self) -> Result<Entry, NoMemory>
        ensures { IfOk result (λ e. e ≡ self.now) }
    {
        let name = self.name.copy()?;
        Ok(Entry {
            name,
            folder: self.folder,
        })
    }
}

impl Duplicate for Entry {
    fn duplicate(&self) -> Result<Entry, NoMemory> {
        self.copy()
    }
}

impl Stored {
    pub fn copy(&self) -> Result<Stored, NoMemory>
        ensures { IfOk result (λ s. s ≡ self.now) }
    {
        let path = self.path.copy()?;
        let bytes = self.bytes.copy()?;
        Ok(Stored { path, bytes })
    }
}

impl Duplicate for Stored {
    fn duplicate(&self) -> Result<Stored, NoMemory> {
        self.copy()
    }
}

impl Answer {
    pub fn copy(&self) -> Result<Answer, NoMemory>
        ensures { IfOk result (λ a. a ≡ self.now) }
    {
        match self {
            Answer::Present(bytes) => {
                let bytes = bytes.copy()?;
                Ok(Answer::Present(bytes))
            }
            Answer::Absent => Ok(Answer::Absent),
            Answer::Folder(entries) => {
                let entries = entries.copy()?;
                Ok(Answer::Folder(entries))
            }
            Answer::Unreadable => Ok(Answer::Unreadable),
            Answer::TooLarge => Ok(Answer::TooLarge),
        }
    }
}

impl Duplicate for Answer {
    fn duplicate(&self) -> Result<Answer, NoMemory> {
        self.copy()
    }
}

impl SeenEntry {
    pub fn copy(&self) -> Result<SeenEntry, NoMemory>
        ensures { IfOk result (λ e. e ≡ self.now) }
    {
        let path = self.path.copy()?;
        let answer = self.answer.copy()?;
        Ok(SeenEntry { path, answer })
    }
}

impl Duplicate for SeenEntry {
    fn duplicate(&self) -> Result<SeenEntry, NoMemory> {
        self.copy()
    }
}
