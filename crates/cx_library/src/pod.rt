//! Podtypes.
use cx_base::{Duplicate, NoMemory};

/// An integer type that is known by its name (`podtype`): its sign, and its size in bytes.
#[derive(Clone, Copy, Debug, PartialEq, Eq)]
pub struct Pod {
    pub signed: bool,
    pub bytes: u8,
}

impl Duplicate for Pod {
    fn duplicate(&self) -> Result<Pod, NoMemory> {
        Ok(*self)
    }
}
