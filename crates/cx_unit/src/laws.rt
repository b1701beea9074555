//! Laws of what is told of units, each by the contract of a function that does nothing.
ghost use Rattle.std.specs.Prelude.{◌≡◌, ℕ, List};
ghost use Rattle.cx_base.specs.declared.finding.Finding.{Finding as finding};
ghost use Rattle.cx_first.specs.Runs.{IsNeverPassed};
ghost use Rattle.cx_first.specs.Tree.{Source};
ghost use Rattle.cx_unit.specs.declared.report.UnitReport.{UnitReport};
ghost use Rattle.cx_unit.specs.First.{IsFindingAt};
ghost use Rattle.cx_unit.specs.Units.{Ground, IsForeignUnit, IsUnitReport};

/// No run of a first text makes the value of the node of a finding in it, and a run comes to the
/// statement of that node.
pub fn findings_are_real()
    ensures { (source : Source) (statement node : ℕ) (found : finding)
        → IsFindingAt source statement node found → IsNeverPassed source statement node }
{}

/// At most one thing is told of a unit.
pub fn one_unit_report()
    ensures { (g : Ground) (path : List ℕ) (one other : UnitReport)
        → IsUnitReport g path one → IsUnitReport g path other → one ≡ other }
{}

/// Nothing is told of a unit where the tokens of one of its configurations are no first text.
pub fn not_both()
    ensures { (g : Ground) (path : List ℕ) (report : UnitReport)
        → IsForeignUnit g path → ¬ IsUnitReport g path report }
{}

/// Of each other unit something is told: where nothing is, it is refuted that the tokens of each of
/// its configurations are a first text. (What is told, `unit_report` computes.)
pub fn some_unit_report()
    ensures { (g : Ground) (path : List ℕ)
        → ((report : UnitReport) → ¬ IsUnitReport g path report) → ¬ ¬ IsForeignUnit g path }
{}
