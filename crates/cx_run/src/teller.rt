//! What is told of one unit.
ghost use Rattle.std.specs.Prelude.{◌≡◌, IfOk, MatchOption};
ghost use Rattle.cx_run.specs.Shapes.Told.{IsToldOf, IsUntold};

use cx_base::{NoMemory, Path};
use cx_table::NameKey;
use cx_unit::{Ground, UnitReport, unit_report};
use std::alloc::Global;
use std::marker::Model;

/// What units are told by. Contracts see what the references lead to.
#[derive(Drop)]
pub(crate) struct Teller<'a> {
    pub(crate) ground: Ground<'a>,
}

impl<'a> Model for Teller<'a> {
    ghost use Rattle.cx_unit.specs.Units.{Ground as Meaning};
    ghost use Rattle.cx_unit.specs.Grounds.{ground_in};

    ghost Value = { Meaning };

    ghost view = { λ t. ground_in t.ground };
}

impl<'a> Teller<'a> {
    /// What is told of a unit; nothing where its tokens are no first text.
    #[tactic(auto, unfolding(crate::specs::Shapes::Told::IsToldOf, crate::specs::Shapes::Told::IsUntold))]
    pub(crate) fn told_of(
        &self,
        alloc: Global,
        key: NameKey,
        path: &Path,
    ) -> Result<Option<UnitReport>, NoMemory>
        ensures { IfOk result (λ r. MatchOption r (IsUntold self.now path.now)
            (IsToldOf self.now path.now)) }
    {
        unit_report(alloc, key, &self.ground, path)
    }
}
