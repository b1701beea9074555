//! Laws of reports, each by the contract of a function that does nothing.
ghost use Rattle.std.specs.Prelude.{◌≡◌, List, ℕ};
ghost use Rattle.cx_base.specs.declared.answers.SeenEntry.{SeenEntry};
ghost use Rattle.cx_run.specs.declared.limits.RunLimits.{RunLimits};
ghost use Rattle.cx_run.specs.declared.report.Report.{Report};
ghost use Rattle.cx_run.specs.Reports.{IsReport};

use cx_options::a_refused_word_stays;
use cx_unit::{not_both, one_unit_report, some_unit_report};

/// The words and what was seen have at most one report.
pub fn one_report()
    ensures { (limits : RunLimits) (words : List (List ℕ)) (seen : List SeenEntry)
        (one other : Report) → IsReport limits words seen one → IsReport limits words seen other
        → one ≡ other }
{
    one_unit_report();
    not_both();
}

/// Whatever the words ask and the answers are, there is a report: it is refuted that there is none.
/// (Which one it is, `run` computes.)
pub fn some_report()
    ensures { (limits : RunLimits) (words : List (List ℕ)) (seen : List SeenEntry)
        → ¬ ((report : Report) → ¬ IsReport limits words seen report) }
{
    some_unit_report();
    a_refused_word_stays();
}
