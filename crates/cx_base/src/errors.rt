//! Why a call could not be carried out.
use std::alloc::{AllocError, AllocFailed};

/// Memory ran out.
#[derive(Clone, Copy, Debug, PartialEq, Eq)]
pub struct NoMemory;

impl From<AllocError> for NoMemory {
    fn from(_error: AllocError) -> NoMemory {
        NoMemory
    }
}

impl<T: Drop> From<AllocFailed<T>> for NoMemory {
    fn from(_error: AllocFailed<T>) -> NoMemory {
        NoMemory
    }
}

/// Why a call on the outside gave no answer: it failed there, or memory ran out here.
#[derive(Clone, Copy, Debug, PartialEq, Eq)]
pub enum Lost {
    Failed,
    NoMemory,
}

impl From<NoMemory> for Lost {
    ghost use Rattle.std.specs.Prelude.{◌≡◌};
    ghost use Rattle.cx_base.specs.declared.errors.Lost.TheVariants.{NoMemory as no_memory};

    ghost from_gives = { λ _ lost. lost ≡ no_memory };

    fn from(_error: NoMemory) -> Lost {
        Lost::NoMemory
    }
}

impl From<AllocError> for Lost {
    ghost use Rattle.std.specs.Prelude.{◌≡◌};
    ghost use Rattle.cx_base.specs.declared.errors.Lost.TheVariants.{NoMemory as no_memory};

    ghost from_gives = { λ _ lost. lost ≡ no_memory };

    fn from(_error: AllocError) -> Lost {
        Lost::NoMemory
    }
}

impl<T: Drop> From<AllocFailed<T>> for Lost {
    ghost use Rattle.std.specs.Prelude.{◌≡◌};
    ghost use Rattle.cx_base.specs.declared.errors.Lost.TheVariants.{NoMemory as no_memory};

    ghost from_gives = { λ _ lost. lost ≡ no_memory };

    fn from(_error: AllocFailed<T>) -> Lost {
        Lost::NoMemory
    }
}
