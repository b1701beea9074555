//! The faults of the files of a unit.
ghost use Rattle.std.specs.Prelude.{◌≡◌, IfOk, MatchOption, get_or, None, unwrap_or};
ghost use Rattle.std.specs.Option.{option_copied};
ghost use Rattle.cx_base.specs.declared.answers.Answer.TheVariants.{Absent};
ghost use Rattle.cx_unit.specs.Closures as meaning;

use crate::faults::text_finding;
use crate::limits::UnitLimits;
use cx_asking::{Answers, TextFault};
use cx_base::{Answer, Finding, List, NoMemory, Path, Place};
use cx_finding::{limit_passed, read_fault};
use std::alloc::Global;

/// So many files, and so many bytes of all of them.
#[derive(Clone, Copy)]
pub struct Counted {
    pub files: u64,
    pub bytes: u64,
}

/// The number of the answer of a path.
#[tactic(auto, using(crate::proofs::ClosureLaws::found_number, crate::proofs::ClosureLaws::no_number))]
fn entry_number(answers: &Answers, path: &Path) -> usize
    ensures { result ≡ meaning.number_in answers.now path.now }
{
    match answers.number_of(path) {
        Some(number) => number,
        None => answers.as_slice().len(),
    }
}

/// The same, as a place has it.
pub(crate) fn number_in(answers: &Answers, path: &Path) -> Result<u32, NoMemory>
    ensures { IfOk result (λ number. number ≡ meaning.number_in answers.now path.now) }
{
    let Ok(number) = u32::try_from(entry_number(answers, path)) else {
        return Err(NoMemory);
    };
    Ok(number)
}

/// One finding for each file that could not be read, in the order of the unit's files.
pub(crate) fn read_faults(
    alloc: Global,
    answers: &Answers,
    unit: u32,
    files: &[Path],
) -> Result<List<Finding>, NoMemory>
    ensures { IfOk result
        (λ findings. findings ≡ meaning.read_faults answers.now unit files.now) }
{
    let mut findings = List::new(alloc);
    for path in files {
        if let Some(Answer::Unreadable) = answers.get(path) {
            findings.push(read_fault(alloc, path, unit)?)?;
        }
    }
    Ok(findings)
}

/// The first byte of a file.
fn top_of(number: u32) -> Place
    ensures { result ≡ meaning.top_of number }
{
    Place {
        file: number,
        line: 1,
        column: 1,
    }
}

/// Why the text of the answer of a number has no pieces.
fn fault_at(faults: &[Option<TextFault>], number: u32) -> Option<TextFault>
    ensures { result ≡ get_or faults.now number None }
{
    match faults.get(number as usize) {
        Some(fault) => *fault,
        None => None,
    }
}

/// The fault of a file that is there, behind so many others.
fn present_fault(
    alloc: Global,
    limits: &UnitLimits,
    unit: u32,
    before: Counted,
    fault: Option<TextFault>,
    bytes: &[u8],
) -> Result<Option<Finding>, NoMemory>
    ensures { IfOk result
        (λ r. r ≡ meaning.present_fault limits.now unit before fault bytes.now) }
{
    if before.files >= limits.files {
        let counted = limits.files.checked_add(1).ok_or(NoMemory)?;
        let found = limit_passed(alloc, b"files", limits.files, counted, top_of(unit))?;
        return Ok(Some(found));
    }
    let counted = before
        .bytes
        .checked_add(bytes.len() as u64)
        .ok_or(NoMemory)?;
    if counted > limits.bytes {
        let found = limit_passed(alloc, b"closure bytes", limits.bytes, counted, top_of(unit))?;
        return Ok(Some(found));
    }
    match fault {
        Some(fault) => {
            let found = text_finding(alloc, fault)?;
            Ok(Some(found))
        }
        None => Ok(None),
    }
}

/// The fault of the file with this number, behind so many others.
fn file_fault(
    alloc: Global,
    limits: &UnitLimits,
    unit: u32,
    number: u32,
    before: Counted,
    fault: Option<TextFault>,
    answer: Option<&Answer>,
) -> Result<Option<Finding>, NoMemory>
    ensures { IfOk result (λ r. r ≡ meaning.file_fault limits.now unit number before fault
        (unwrap_or (option_copied answer.entry) Absent)) }
{
    match answer {
        Some(Answer::Present(bytes)) => {
            present_fault(alloc, limits, unit, before, fault, bytes.as_slice())
        }
        Some(Answer::TooLarge) => {
            let most = limits.read.saturating_sub(1);
            let found = limit_passed(alloc, b"file bytes", most, limits.read, top_of(number))?;
            Ok(Some(found))
        }
        _ => Ok(None),
    }
}

/// So many files with one more, where there is one.
fn with_file(before: Counted, answer: Option<&Answer>) -> Result<Counted, NoMemory>
    ensures { IfOk result (λ c. c
        ≡ meaning.with_file (unwrap_or (option_copied answer.entry) Absent) before) }
{
    match answer {
        Some(Answer::Present(bytes)) => Ok(Counted {
            files: before.files.checked_add(1).ok_or(NoMemory)?,
            bytes: before
                .bytes
                .checked_add(bytes.len() as u64)
                .ok_or(NoMemory)?,
        }),
        _ => Ok(before),
    }
}

/// The first fault of the files of a unit, whose answer has that number.
#[tactic(auto, using(crate::proofs::ClosureLaws::fault_here, crate::proofs::ClosureLaws::fault_later, crate::proofs::ClosureLaws::fault_end))]
pub(crate) fn closure_fault(
    alloc: Global,
    limits: &UnitLimits,
    answers: &Answers,
    faults: &[Option<TextFault>],
    unit: u32,
    files: &[Path],
) -> Result<Option<Finding>, NoMemory>
    ensures { IfOk result (λ r. r ≡ meaning.closure_fault limits.now answers.now faults.now unit
        meaning.nothing files.now) }
{
    let mut before = Counted { files: 0, bytes: 0 };
    for path in files {
        let number = number_in(answers, path)?;
        let fault = fault_at(faults, number);
        let answer = answers.get(path);
        if let Some(found) = file_fault(alloc, limits, unit, number, before, fault, answer)? {
            return Ok(Some(found));
        }
        before = with_file(before, answer)?;
    }
    Ok(None)
}
