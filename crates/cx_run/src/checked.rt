//! The report of what was asked.
ghost use Rattle.std.specs.Prelude.{◌≡◌, IfOk, MatchOption};
ghost use Rattle.cx_asking.specs.Asking.{AreFaults, AreShelved};
ghost use Rattle.cx_asking.specs.Answers.{AreShort};
ghost use Rattle.cx_asking.specs.Wishes.{units_of};
ghost use Rattle.cx_run.specs.Reports.{IsChecked, IsOptionsReport, paths_of, units_finding};
ghost use Rattle.cx_run.specs.Shapes.Told.{AreTold, AreToldBy, HasUntold, HasUntoldBy};

use crate::keys::key_of_answers;
use crate::limits::RunLimits;
use crate::pieces::done_report;
use crate::refusals::{list_report, refusal_report};
use crate::report::{Cause, Report};
use crate::teller::Teller;
use cx_asking::{Gathering, all_units, refused_list};
use cx_base::{Finding, List, NoMemory, Path, Place, SeenEntry};
use cx_finding::limit_passed;
use cx_library::built_in;
use cx_options::Options;
use cx_table::NameKey;
use cx_unit::{Ground, UnitReport};
use std::alloc::Global;

/// The paths of what was seen.
fn paths_of(alloc: Global, seen: &[SeenEntry]) -> Result<List<Path>, NoMemory>
    ensures { IfOk result (λ paths. paths ≡ paths_of seen.now) }
{
    let mut paths = List::new(alloc);
    for entry in seen {
        paths.push(entry.path.copy()?)?;
    }
    Ok(paths)
}

/// The finding where there are more units than are checked.
#[tactic(auto, unfolding(crate::specs::Reports::units_finding))]
fn units_finding(alloc: Global, most: u64, units: usize) -> Result<List<Finding>, NoMemory>
    ensures { IfOk result (λ findings. findings ≡ units_finding most units) }
{
    let mut findings = List::new(alloc);
    if units as u64 > most {
        let counted = most.checked_add(1).ok_or(NoMemory)?;
        let nowhere = Place {
            file: u32::MAX,
            line: 0,
            column: 0,
        };
        findings.push(limit_passed(alloc, b"units", most, counted, nowhere)?)?;
    }
    Ok(findings)
}

/// What is told of units; nothing where the tokens of one are no first text.
#[tactic(auto, using(crate::proofs::CheckedLaws::told_end, crate::proofs::CheckedLaws::untold_here))]
fn unit_reports(
    alloc: Global,
    key: NameKey,
    teller: &Teller,
    units: &[Path],
) -> Result<Option<List<UnitReport>>, NoMemory>
    ensures { IfOk result (λ r. MatchOption r (HasUntold teller.now units.now)
        (AreTold teller.now units.now)) }
{
    let mut reports = List::new(alloc);
    for path in units {
        match teller.told_of(alloc, key, path)? {
            Some(report) => reports.push(report)?,
            None => return Ok(None),
        }
    }
    Ok(Some(reports))
}

/// What is told of units, by all that was gathered; nothing where the tokens of one are no first
/// text.
fn told_reports(
    alloc: Global,
    key: NameKey,
    limits: &RunLimits,
    options: &Options,
    gathering: &Gathering,
    units: &[Path],
) -> Result<Option<List<UnitReport>>, NoMemory>
    requires folders { gathering.now.shelf.folders ≡ options.now.folders }
    requires shelved { AreShelved 0 gathering.now.answers gathering.now.shelf.files }
    requires faults { AreFaults 0 gathering.now.answers gathering.now.faults.items }
    ensures { IfOk result (λ r. MatchOption r
        (HasUntoldBy limits.now options.now gathering.now.answers units.now)
        (AreToldBy limits.now options.now gathering.now.answers units.now)) }
{
    let library = built_in(alloc, key)?;
    let teller = Teller {
        ground: Ground {
            limits: limits.unit,
            options,
            library: &library,
            answers: &gathering.answers,
            shelf: &gathering.shelf,
            faults: gathering.faults.as_slice(),
        },
    };
    unit_reports(alloc, key, &teller, units)
}

/// The report of units, of which there are some.
fn checked_report(
    alloc: Global,
    limits: &RunLimits,
    options: &Options,
    gathering: &Gathering,
    units: &[Path],
) -> Result<Report, NoMemory>
    requires units { units.now ≡ units_of limits.now.asking gathering.now.answers options.now }
    requires folders { gathering.now.shelf.folders ≡ options.now.folders }
    requires shelved { AreShelved 0 gathering.now.answers gathering.now.shelf.files }
    requires faults { AreFaults 0 gathering.now.answers gathering.now.faults.items }
    ensures { IfOk result (IsChecked limits.now options.now gathering.now.answers) }
{
    let seen = gathering.answers.as_slice();
    let key = key_of_answers(alloc, seen)?;
    let checked = &units[..units.len().min(limits.units as usize)];
    let Some(reports) = told_reports(alloc, key, limits, options, gathering, checked)? else {
        return refusal_report(alloc, Cause::NotBuilt, b"not built yet.");
    };
    let files = paths_of(alloc, seen)?;
    let first = units_finding(alloc, limits.units, units.len())?;
    done_report(
        alloc,
        key,
        options,
        files.as_slice(),
        first.as_slice(),
        reports.as_slice(),
    )
}

/// The report of the options and of what was asked.
pub(crate) fn report_of(
    alloc: Global,
    key: NameKey,
    limits: &RunLimits,
    options: &Options,
    gathering: &Gathering,
) -> Result<Report, NoMemory>
    requires folders { gathering.now.shelf.folders ≡ options.now.folders }
    requires shelved { AreShelved 0 gathering.now.answers gathering.now.shelf.files }
    requires faults { AreFaults 0 gathering.now.answers gathering.now.faults.items }
    requires short { AreShort gathering.now.answers }
    ensures { IfOk result (IsOptionsReport limits.now options.now gathering.now.answers) }
{
    let answers = &gathering.answers;
    if let Some(refused) = refused_list(answers, options.lists.as_slice())? {
        return list_report(alloc, &refused);
    }
    let units = all_units(alloc, key, &limits.asking, options, answers)?;
    if units.is_empty() {
        return refusal_report(alloc, Cause::NoInput, b"could not find any file to check.");
    }
    checked_report(alloc, limits, options, gathering, units.as_slice())
}
