//! Laws of what a unit is told by, each by the contract of a function that does nothing.
ghost use Rattle.std.specs.Prelude.{◌≡◌, ℕ, List};
ghost use Rattle.cx_asking.specs.Asking.{AreFaults, IsWholeAsking};
ghost use Rattle.cx_asking.specs.declared.limits.Limits.{Limits as limits};
ghost use Rattle.cx_input.specs.Inputs.{IsSameInput, IsShelfOfAnswers};
ghost use Rattle.cx_options.specs.declared.answer.Options.{Options as options};
ghost use Rattle.cx_unit.specs.declared.report.UnitReport.{UnitReport};
ghost use Rattle.cx_unit.specs.Units.{Ground, IsForeignUnit, IsUnitReport};

/// On the shelf of what was asked are the files that were answered.
pub fn shelf_is_of_answers()
    ensures { (asked : limits) (words : options) (g : Ground)
        → IsWholeAsking asked words g.seen g.shelf.files → AreFaults 0 g.seen g.faults
        → IsShelfOfAnswers g }
{}

/// Grounds that have the same for a unit have it both ways.
pub fn same_both_ways()
    ensures { (g h : Ground) (path : List ℕ) → IsSameInput g h path → IsSameInput h g path }
{}

/// What is told of a unit depends on its input alone, whatever else was asked.
pub fn told_by_its_files()
    ensures { (g h : Ground) (path : List ℕ) → IsShelfOfAnswers g → IsShelfOfAnswers h
        → IsSameInput g h path → (report : UnitReport)
        → IsUnitReport g path report → IsUnitReport h path report }
{}

/// Whether nothing is told of it depends on its input alone too.
pub fn foreign_by_its_files()
    ensures { (g h : Ground) (path : List ℕ) → IsShelfOfAnswers g → IsShelfOfAnswers h
        → IsSameInput g h path → IsForeignUnit g path → IsForeignUnit h path }
{}
