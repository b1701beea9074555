//! The pieces of a report.
ghost use Rattle.std.specs.Prelude.{◌≡◌, ◌≤◌, ◌++◌, [], IfOk, OnOk, drop, length};
ghost use Rattle.cx_run.specs.Findings.{with_findings};
ghost use Rattle.cx_run.specs.Reports.{all_findings, done_report, finding_pieces};
ghost use Rattle.cx_run.specs.Reports.{progress_piece, progress_pieces, unit_pieces};

use crate::enabled::{exit_status, is_enabled};
use crate::report::{Cause, Report, ReportPiece, SinkName};
use cx_base::{Bytes, Finding, List, NoMemory, Path, Text};
use cx_finding::{Findings, finding_line};
use cx_options::Options;
use cx_table::NameKey;
use cx_unit::UnitReport;
use std::alloc::Global;

/// A progress line with its newline.
fn progress_piece(alloc: Global, line: &Text) -> Result<ReportPiece, NoMemory>
    ensures { IfOk result (λ piece. piece ≡ progress_piece line.now) }
{
    let mut bytes = Bytes::from_slice(alloc, line.as_slice())?;
    bytes.push_all(b"\n")?;
    Ok(ReportPiece {
        sink: SinkName::Out,
        bytes,
    })
}

/// Adds the progress lines of a unit.
fn push_progress(
    alloc: Global,
    pieces: &mut List<ReportPiece>,
    options: &Options,
    unit: &UnitReport,
) -> Result<(), NoMemory>
    ensures { OnOk result (pieces.new ≡ pieces.old ++ progress_pieces options.now unit.now) }
{
    if options.quiet {
        return Ok(());
    }
    for line in unit.progress.as_slice() {
        pieces.push(progress_piece(alloc, line)?)?;
    }
    Ok(())
}

/// Adds the lines of those findings that are switched on.
fn push_findings(
    alloc: Global,
    pieces: &mut List<ReportPiece>,
    options: &Options,
    files: &[Path],
    findings: &[Finding],
) -> Result<(), NoMemory>
    ensures { OnOk result
        (pieces.new ≡ pieces.old ++ finding_pieces options.now files.now findings.now) }
{
    for finding in findings {
        if is_enabled(options, finding) {
            let bytes = finding_line(alloc, files, finding)?;
            pieces.push(ReportPiece {
                sink: SinkName::Err,
                bytes,
            })?;
        }
    }
    Ok(())
}

/// Adds the lines of those findings behind the first so many.
fn push_new(
    alloc: Global,
    pieces: &mut List<ReportPiece>,
    options: &Options,
    files: &[Path],
    told: &[Finding],
    before: usize,
) -> Result<(), NoMemory>
    requires { before ≤ length told.now }
    ensures { OnOk result (pieces.new
        ≡ pieces.old ++ finding_pieces options.now files.now (drop before told.now)) }
{
    push_findings(alloc, pieces, options, files, &told[before..])
}

/// Adds the pieces of units, where some findings were told before. Answers all that are told then.
#[tactic(auto, using(crate::proofs::PieceLaws::told_grows, crate::proofs::PieceLaws::told_end))]
fn push_units(
    alloc: Global,
    pieces: &mut List<ReportPiece>,
    options: &Options,
    files: &[Path],
    told: Findings,
    units: &[UnitReport],
) -> Result<Findings, NoMemory>
    ensures pieces { OnOk result (pieces.new
        ≡ pieces.old ++ unit_pieces options.now files.now told units.now) }
    ensures told { IfOk result (λ all. all ≡ all_findings told units.now) }
{
    let mut told = told;
    for unit in units {
        push_progress(alloc, pieces, options, unit)?;
        let before = told.as_slice().len();
        told = told.with_all(unit.findings.as_slice())?;
        push_new(alloc, pieces, options, files, told.as_slice(), before)?;
    }
    Ok(told)
}

/// The report of units that were checked: these findings stand first.
pub(crate) fn done_report(
    alloc: Global,
    key: NameKey,
    options: &Options,
    files: &[Path],
    first: &[Finding],
    units: &[UnitReport],
) -> Result<Report, NoMemory>
    requires { with_findings [] first.now ≡ first.now }
    ensures { IfOk result
        (λ report. report ≡ done_report options.now files.now first.now units.now) }
{
    let mut pieces = List::new(alloc);
    push_findings(alloc, &mut pieces, options, files, first)?;
    let told = Findings::new(alloc, key).with_all(first)?;
    let told = push_units(alloc, &mut pieces, options, files, told, units)?;
    Ok(Report {
        cause: Cause::Done,
        status: exit_status(options, told.as_slice()),
        pieces,
    })
}
