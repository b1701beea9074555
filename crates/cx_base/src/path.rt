//! The paths of files and folders.
ghost use Rattle.std.specs.Prelude.{◌≡◌, length, IfOk, IsTrue, ◌↔◌, string_bytes};

use crate::errors::NoMemory;
use crate::list::Duplicate;
use std::alloc::Global;
use std::marker::Model;

/// A path, or a word of the command line: UTF-8 text, which contracts see as its bytes.
#[derive(Debug, Drop)]
pub struct Path {
    text: String,
}

impl Model for Path {
    ghost use Rattle.std.specs.Prelude.{List, ℕ, string_bytes};

    ghost Value = { List ℕ };

    ghost view = { λ p. string_bytes p.text };
}

impl Path {
    /// This text, copied.
    pub fn from_str(alloc: Global, text: &str) -> Result<Path, NoMemory>
        ensures { IfOk result (λ p. p ≡ text.now) }
    {
        let text = String::from_str(alloc, text)?;
        Ok(Path { text })
    }

    // This text, with no copy.
    pub(crate) fn from_string(text: String) -> Path
        ensures { result ≡ string_bytes text }
    {
        Path { text }
    }

    // The allocator that the path was made with.
    pub(crate) fn allocator(&self) -> Global {
        *self.text.allocator()
    }

    pub fn as_str(&self) -> &str
        ensures { result.now ≡ self.now }
    {
        self.text.as_str()
    }

    pub fn as_bytes(&self) -> &[u8]
        ensures { result.now ≡ self.now }
    {
        self.text.as_str().as_bytes()
    }

    /// The number of bytes.
    pub fn len(&self) -> usize
        ensures { result ≡ length self.now }
    {
        self.text.len()
    }

    pub fn copy(&self) -> Result<Path, NoMemory>
        ensures { IfOk result (λ p. p ≡ self.now) }
    {
        let text = self.text.clone()?;
        Ok(Path { text })
    }
}

impl Duplicate for Path {
    fn duplicate(&self) -> Result<Path, NoMemory> {
        self.copy()
    }
}
