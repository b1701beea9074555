//! The lines of findings.
ghost use Rattle.std.specs.Prelude.{◌≡◌, ◌++◌, codes, decimal, option_copied, IfOk, OnOk};
ghost use Rattle.cx_finding.specs.Texts.{finding_line, place_in};

use crate::message::push_message;
use cx_base::{Bytes, Finding, NoMemory, Path, Place};
use std::alloc::Global;

/// Adds the line and column of a place, after its file.
fn push_line_and_column(line: &mut Bytes, place: Place) -> Result<(), NoMemory>
    ensures { OnOk result (line.new
        ≡ line.old ++ codes ":" ++ decimal place.line ++ codes ":" ++ decimal place.column) }
{
    line.push_all(b":")?;
    line.push_number(place.line)?;
    line.push_all(b":")?;
    line.push_number(place.column)?;
    Ok(())
}

/// Adds the file, line and column of a place, `nofile:0:0` where it has no file.
fn push_place(line: &mut Bytes, file: Option<&Path>, place: Place) -> Result<(), NoMemory>
    ensures { OnOk result (line.new ≡ line.old ++ place_in (option_copied file.entry) place) }
{
    match file {
        Some(file) => {
            line.push_all(file.as_bytes())?;
            push_line_and_column(line, place)?;
            Ok(())
        }
        None => {
            line.push_all(b"nofile:0:0")?;
            Ok(())
        }
    }
}

/// The line of a finding, `{file}:{line}:{column}: {severity}: {message} [{id}]`, with a newline
/// after it. The file is the path in these files of the number in the finding's place.
pub fn finding_line(alloc: Global, files: &[Path], finding: &Finding) -> Result<Bytes, NoMemory>
    ensures { IfOk result (λ line. line ≡ finding_line files.now finding.now) }
{
    let mut line = Bytes::new(alloc);
    let file = files.get(finding.place.file as usize);
    push_place(&mut line, file, finding.place)?;
    line.push_all(b": ")?;
    line.push_all(finding.severity.name().as_bytes())?;
    line.push_all(b": ")?;
    push_message(&mut line, finding.id, finding.words.as_slice())?;
    line.push_all(b" [")?;
    line.push_all(finding.id.name().as_bytes())?;
    line.push_all(b"]\n")?;
    Ok(line)
}
