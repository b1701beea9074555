//! What is told of a unit.
ghost use Rattle.std.specs.Prelude.{◌≡◌, [], IfOk, MatchOption, None};
ghost use Rattle.cx_unit.specs.Grounds.{ground_in};
ghost use Rattle.cx_unit.specs.Units.{IsForeignUnit, IsUnitReport, files_fault, plain_report};
ghost use Rattle.cx_unit.specs.Units.{number_among, unreadable_files};

use crate::closure_fault::{closure_fault, number_in, read_faults};
use crate::configured::{findings_of, progress_lines, tolds_of};
use crate::ground::Ground;
use crate::names::progress_line;
use crate::report::UnitReport;
use cx_asking::closure;
use cx_base::{Finding, List, NoMemory, Path};
use cx_configs::configurations;
use cx_shelf::IndexedShelf;
use cx_table::NameKey;
use std::alloc::Global;

/// A unit with one progress line.
fn plain_report(alloc: Global, path: &Path, findings: List<Finding>) -> Result<UnitReport, NoMemory>
    ensures { IfOk result (λ report. report ≡ plain_report path.now findings) }
{
    let mut progress = List::new(alloc);
    progress.push(progress_line(alloc, path, b"")?)?;
    Ok(UnitReport { progress, findings })
}

/// The number of a unit's file on the shelf.
#[tactic(auto, using(crate::proofs::ClosureLaws::found_number, crate::proofs::ClosureLaws::no_number), unfolding(cx_shelf::specs::Shelves::number_of))]
fn file_number(shelf: &IndexedShelf, path: &Path) -> usize
    ensures { result ≡ number_among shelf.now path.now }
{
    match shelf.number_of(path) {
        Some(number) => number,
        None => shelf.shelf().files.len(),
    }
}

/// What is told of a unit whose files have no fault.
#[tactic(auto, using(crate::proofs::UnitLaws::configured_told, crate::proofs::UnitLaws::foreign_told))]
fn configured_report(
    alloc: Global,
    key: NameKey,
    ground: &Ground,
    path: &Path,
) -> Result<Option<UnitReport>, NoMemory>
    requires read { unreadable_files (ground_in ground.now) path.now ≡ [] }
    requires sound { files_fault (ground_in ground.now) path.now ≡ None }
    ensures { IfOk result (λ r. MatchOption r (IsForeignUnit (ground_in ground.now) path.now)
        (IsUnitReport (ground_in ground.now) path.now)) }
{
    let Ground {
        options,
        library,
        shelf,
        ..
    } = *ground;
    let Ok(number) = u32::try_from(file_number(shelf, path)) else {
        return Err(NoMemory);
    };
    let configs = configurations(alloc, key, shelf, number, options, library)?;
    let configs = configs.as_slice();
    let Some(tolds) = tolds_of(alloc, key, shelf, number, configs)? else {
        return Ok(None);
    };
    Ok(Some(UnitReport {
        progress: progress_lines(alloc, path, options, configs)?,
        findings: findings_of(alloc, key, tolds.as_slice())?,
    }))
}

/// What is told of the unit with a path; nothing where the tokens of one of its configurations are
/// no first text. Where files of the unit could not be read, that alone is told of each; else the
/// first fault of its files; else what is found in each configuration, each finding once. Names and
/// paths are hashed under this key, which the sources give.
#[tactic(auto, using(crate::proofs::UnitLaws::unread_told, crate::proofs::UnitLaws::faulty_told))]
pub fn unit_report(
    alloc: Global,
    key: NameKey,
    ground: &Ground,
    path: &Path,
) -> Result<Option<UnitReport>, NoMemory>
    ensures { IfOk result (λ r. MatchOption r (IsForeignUnit (ground_in ground.now) path.now)
        (IsUnitReport (ground_in ground.now) path.now)) }
{
    let Ground {
        limits,
        answers,
        shelf,
        faults,
        ..
    } = *ground;
    let files = closure(alloc, key, answers, shelf, path)?;
    let files = files.as_slice();
    let number = number_in(answers, path)?;
    let unread = read_faults(alloc, answers, number, files)?;
    if unread.len() > 0 {
        return Ok(Some(plain_report(alloc, path, unread)?));
    }
    if let Some(fault) = closure_fault(alloc, &limits, answers, faults, number, files)? {
        let mut findings = List::new(alloc);
        findings.push(fault)?;
        return Ok(Some(plain_report(alloc, path, findings)?));
    }
    configured_report(alloc, key, ground, path)
}
