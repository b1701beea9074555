//! The calls for one path.
ghost use Rattle.std.specs.Prelude.{◌≡◌, IfOk, IsFalse, OnErr};
ghost use Rattle.cx_asking.specs.Shapes.Asks.{IsAnswer, IsCutAt};
ghost use Rattle.cx_asking.specs.Shapes.Steps.{kept_or_large};
ghost use Rattle.cx_asking.specs.Wishes.{is_folder};

use crate::limits::Limits;
use crate::purpose::Purpose;
use cx_base::{Answer, Bytes, Files, Lost, NoMemory, Path};

/// What a file of these first bytes counts as, beside so many bytes that are kept of others.
fn kept_or_large(limits: &Limits, others: u64, bytes: Bytes) -> Answer
    ensures { result ≡ kept_or_large limits.now others bytes }
{
    let length = bytes.len() as u64;
    if length < limits.read && others <= limits.kept && length <= limits.kept - others {
        Answer::Present(bytes)
    } else {
        Answer::TooLarge
    }
}

/// Asks a path for the file there, and answers no folder.
fn ask_file<F: Files>(
    limits: &Limits,
    others: u64,
    path: &Path,
    files: &mut F,
) -> Result<Answer, NoMemory>
    ensures answer { IfOk result (λ answer. IsAnswer limits.now others Purpose.File path.now answer
        (F.state files.old) (F.state files.new)) }
    ensures file { IfOk result (λ answer. IsFalse (is_folder answer)) }
    ensures cut { OnErr result (IsCutAt Purpose.File path.now
        (F.state files.old) (F.state files.new)) }
{
    match files.read(path, limits.read) {
        Ok(Some(bytes)) => Ok(kept_or_large(limits, others, bytes)),
        Ok(None) => Ok(Answer::Absent),
        Err(Lost::Failed) => Ok(Answer::Unreadable),
        Err(Lost::NoMemory) => Err(NoMemory),
    }
}

/// Asks a path for the folder there.
fn ask_folder<F: Files>(
    limits: &Limits,
    others: u64,
    path: &Path,
    files: &mut F,
) -> Result<Answer, NoMemory>
    ensures answer { IfOk result (λ answer. IsAnswer limits.now others Purpose.Folder path.now
        answer (F.state files.old) (F.state files.new)) }
    ensures cut { OnErr result (IsCutAt Purpose.Folder path.now
        (F.state files.old) (F.state files.new)) }
{
    match files.list(path) {
        Ok(Some(entries)) => Ok(Answer::Folder(entries)),
        Ok(None) => Ok(Answer::Absent),
        Err(Lost::Failed) => Ok(Answer::Unreadable),
        Err(Lost::NoMemory) => Err(NoMemory),
    }
}

/// Asks a path for the folder there, and where there is none for the file.
fn ask_given<F: Files>(
    limits: &Limits,
    others: u64,
    path: &Path,
    files: &mut F,
) -> Result<Answer, NoMemory>
    ensures answer { IfOk result (λ answer. IsAnswer limits.now others Purpose.Given path.now answer
        (F.state files.old) (F.state files.new)) }
    ensures cut { OnErr result (IsCutAt Purpose.Given path.now
        (F.state files.old) (F.state files.new)) }
{
    match files.list(path) {
        Ok(Some(entries)) => Ok(Answer::Folder(entries)),
        Ok(None) => ask_file(limits, others, path, files),
        Err(Lost::Failed) => Ok(Answer::Unreadable),
        Err(Lost::NoMemory) => Err(NoMemory),
    }
}

/// Asks a path, beside so many bytes that are kept of others.
pub(crate) fn ask_path<F: Files>(
    limits: &Limits,
    others: u64,
    purpose: Purpose,
    path: &Path,
    files: &mut F,
) -> Result<Answer, NoMemory>
    ensures answer { IfOk result (λ answer. IsAnswer limits.now others purpose path.now answer
        (F.state files.old) (F.state files.new)) }
    ensures cut { OnErr result (IsCutAt purpose path.now (F.state files.old) (F.state files.new)) }
{
    match purpose {
        Purpose::Given => ask_given(limits, others, path, files),
        Purpose::File => ask_file(limits, others, path, files),
        Purpose::Folder => ask_folder(limits, others, path, files),
    }
}
