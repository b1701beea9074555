//! The calls on an object in memory, and which of them fail.
ghost use Rattle.std.specs.Prelude.{◌≡◌, ◌==◌};
ghost use Rattle.cx_base.specs.Calls.{next_fails, one_more_call};
ghost use Rattle.std.specs.List.{list_any};

use crate::list::List;
use std::marker::Model;

/// How many calls were made, and the numbers, from 0, of those that fail.
#[derive(Debug, Drop)]
pub(crate) struct CallCount {
    failing: List<u64>,
    made: u64,
}

impl Model for CallCount {
    ghost use Rattle.cx_base.specs.Calls.{Calls};

    ghost Value = { Calls };

    ghost view = { λ c. record { failing = c.failing; made = c.made } };
}

impl CallCount {
    pub(crate) fn new(failing: List<u64>) -> CallCount
        ensures { result ≡ record { failing = failing; made = 0 } }
    {
        CallCount { failing, made: 0 }
    }

    /// Whether the next call is to fail.
    pub(crate) fn next_fails(&self) -> bool
        ensures { result ≡ next_fails self.now }
    {
        self.made < u64::MAX && contains(self.failing.as_slice(), self.made)
    }

    /// Counts a call.
    pub(crate) fn count(&mut self)
        ensures { self.new ≡ one_more_call self.old }
    {
        self.made = self.made.saturating_add(1);
    }
}

/// Whether a number is among these.
pub(crate) fn contains(numbers: &[u64], number: u64) -> bool
    ensures { result ≡ list_any (λ n. n == number) numbers.now }
{
    numbers.iter().any(|n| *n == number)
}
