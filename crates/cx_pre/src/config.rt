//! What a unit is chosen by.
ghost use Rattle.std.specs.Prelude.{◌≡◌, IfOk};

use cx_base::{Define, Duplicate, List, NoMemory, Text};

/// A configuration: macros that are defined, and names that are defined as 1.
#[derive(Debug, Drop)]
pub struct Config {
    pub defines: List<Define>,
    pub names: List<Text>,
}

impl Config {
    /// An equal configuration.
    pub fn copy(&self) -> Result<Config, NoMemory>
        ensures { IfOk result (λ c. c ≡ self.now) }
    {
        let defines = self.defines.copy()?;
        let names = self.names.copy()?;
        Ok(Config { defines, names })
    }
}

impl Duplicate for Config {
    fn duplicate(&self) -> Result<Config, NoMemory> {
        self.copy()
    }
}
