//! Definitions from outside of the sources.
ghost use Rattle.std.specs.Prelude.{◌≡◌, IfOk};

use crate::bytes::Text;
use crate::errors::NoMemory;
use crate::list::Duplicate;

/// A macro without parameters that the command line or a library file defines: its name, and the
/// text that replaces it.
#[derive(Debug, Drop)]
pub struct Define {
    pub name: Text,
    pub value: Text,
}

impl Define {
    /// An equal definition.
    pub fn copy(&self) -> Result<Define, NoMemory>
        ensures { IfOk result (λ d. d ≡ self.now) }
    {
        let name = self.name.copy()?;
        let value = self.value.copy()?;
        Ok(Define { name, value })
    }
}

impl Duplicate for Define {
    fn duplicate(&self) -> Result<Define, NoMemory> {
        self.copy()
    }
}
