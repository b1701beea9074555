//! The reports of what is refused.
ghost use Rattle.std.specs.Prelude.{◌≡◌, ◌++◌, IfOk, Some, codes, slice_get};
ghost use Rattle.cx_options.specs.Texts.{refusal_text};
ghost use Rattle.cx_run.specs.Reports.{list_report, list_text, refusal, refusal_report};

use crate::report::{Cause, Report, ReportPiece, SinkName};
use cx_asking::{FileFault, ListFault};
use cx_base::{Bytes, List, NoMemory, Path};
use cx_options::{Refusal, WordKind};
use std::alloc::Global;

/// The one piece of a refusal.
fn refusal(alloc: Global, text: &[u8]) -> Result<List<ReportPiece>, NoMemory>
    ensures { IfOk result (λ pieces. pieces ≡ refusal text.now) }
{
    let mut bytes = Bytes::from_slice(alloc, b"cppcheck: error: ")?;
    bytes.push_all(text)?;
    bytes.push_all(b"\n")?;
    let mut pieces = List::new(alloc);
    pieces.push(ReportPiece {
        sink: SinkName::Err,
        bytes,
    })?;
    Ok(pieces)
}

/// The report of a refusal.
pub(crate) fn refusal_report(alloc: Global, cause: Cause, text: &[u8]) -> Result<Report, NoMemory>
    ensures { IfOk result (λ report. report ≡ refusal_report cause text.now) }
{
    Ok(Report {
        cause,
        status: 1,
        pieces: refusal(alloc, text)?,
    })
}

/// The report of a refused word.
pub(crate) fn word_report(
    alloc: Global,
    number: u32,
    kind: WordKind,
    word: &Path,
) -> Result<Report, NoMemory>
    ensures { IfOk result (λ report. report
        ≡ refusal_report (Cause.BadWords number kind) (refusal_text kind word.now)) }
{
    let refused = Refusal {
        kind,
        word: word.as_str(),
    };
    let text = refused.text(alloc)?;
    refusal_report(
        alloc,
        Cause::BadWords { word: number, kind },
        text.as_slice(),
    )
}

/// The text of a refused list, up to why it is refused.
fn quoted(alloc: Global, path: &Path, why: &[u8]) -> Result<Bytes, NoMemory>
    ensures { IfOk result (λ text. text ≡ codes "file \"" ++ path.now ++ why.now) }
{
    let mut text = Bytes::from_slice(alloc, b"file \"")?;
    text.push_all(path.as_bytes())?;
    text.push_all(why)?;
    Ok(text)
}

/// The text of a refused list.
#[tactic(auto, unfolding(crate::specs::Reports::list_text))]
fn list_text(alloc: Global, fault: FileFault, path: &Path) -> Result<Bytes, NoMemory>
    ensures { IfOk result (λ text. text ≡ list_text fault path.now) }
{
    match fault {
        FileFault::Absent => quoted(alloc, path, b"\" was not found."),
        FileFault::Unreadable => quoted(alloc, path, b"\" could not be read."),
        FileFault::TooLarge => quoted(alloc, path, b"\" is too large."),
        FileFault::BadLine { line } => {
            let mut text = quoted(alloc, path, b"\" was refused at line ")?;
            text.push_number(line)?;
            text.push_all(b".")?;
            Ok(text)
        }
    }
}

/// The report of a refused list.
pub(crate) fn list_report(alloc: Global, refused: &ListFault) -> Result<Report, NoMemory>
    ensures { IfOk result (λ report. report ≡ list_report refused.now) }
{
    let text = list_text(alloc, refused.fault, &refused.path)?;
    let cause = Cause::ListRefused {
        word: refused.word,
        fault: refused.fault,
    };
    refusal_report(alloc, cause, text.as_slice())
}
