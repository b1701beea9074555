//! The files that list paths.
ghost use Rattle.std.specs.Prelude.{◌≡◌, ◌<◌, ◌≤◌, ◌++◌, All, IfOk, OnErr, OnOk, IsTrue};
ghost use Rattle.std.specs.Prelude.{IsFalse, None, length, map, unwrap_or};
ghost use Rattle.std.specs.Option.{option_copied};
ghost use Rattle.cx_base.specs.declared.answers.Answer.TheVariants.{Absent};
ghost use Rattle.cx_lex.specs.Lines.{place_limit};
ghost use Rattle.cx_base.specs.Simple.{simple_path};
ghost use Rattle.std.specs.Str.{is_utf8};
ghost use Rattle.cx_asking.specs.Answers.{AreShort, IsShort};
ghost use Rattle.cx_asking.specs.Lists.{bad_line, fault_of, lines, paths_in, paths_of};
ghost use Rattle.cx_asking.specs.Shapes.Asks.{Asks, IsCut};
ghost use Rattle.cx_asking.specs.Wishes.{given_paths, has_refused, list_fault, list_wishes};

use crate::answers::Answers;
use crate::asked::Asked;
use crate::limits::Limits;
use crate::list_fault::{FileFault, ListFault};
use crate::purpose::Purpose;
use crate::walk::ask_once;
use bstr::ByteSlice;
use cx_base::{Answer, Files, NoMemory, Path, simple};
use cx_options::{ListWord, Options};
use std::alloc::Global;
use std::str;

/// The number of the first line that is not UTF-8, counted from 1.
fn bad_line(bytes: &[u8]) -> Option<u32>
    requires { length bytes.now < place_limit }
    ensures { result ≡ bad_line 1 (lines bytes.now) }
{
    let mut number = 1;
    for line in bytes.lines() {
        let Ok(_) = str::from_utf8(line) else {
            return Some(number);
        };
        number += 1;
    }
    None
}

/// Why what a list's path was answered refuses the run.
#[tactic(auto, unfolding(crate::specs::Lists::fault_of))]
fn fault_of(answer: Option<&Answer>) -> Option<FileFault>
    requires { IsShort (unwrap_or (option_copied answer) Absent) }
    ensures { result ≡ fault_of (unwrap_or (option_copied answer.entry) Absent) }
{
    match answer {
        Some(Answer::Present(bytes)) => {
            let line = bad_line(bytes.as_slice())?;
            Some(FileFault::BadLine { line })
        }
        None | Some(Answer::Absent | Answer::Folder(_)) => Some(FileFault::Absent),
        Some(Answer::Unreadable) => Some(FileFault::Unreadable),
        Some(Answer::TooLarge) => Some(FileFault::TooLarge),
    }
}

/// Asks the lists in order, up to the first that is refused.
pub(crate) fn ask_lists<F: Files>(
    asked: Asked,
    limits: &Limits,
    lists: &[ListWord],
    files: &mut F,
) -> Result<Asked, NoMemory>
    requires { limits.now.read ≤ place_limit }
    ensures all { IfOk result (λ a. Asks limits.now (λ texts seen. list_wishes seen lists.now)
        asked a (F.state files.old) (F.state files.new)) }
    ensures cut { OnErr result (IsCut limits.now (λ texts seen. list_wishes seen lists.now)
        asked (F.state files.old) (F.state files.new)) }
{
    let mut asked = asked;
    for list in lists {
        let path = simple(&list.path)?;
        asked = ask_once(asked, limits, Purpose::File, &path, files)?;
        if fault_of(asked.answers().get(&path)).is_some() {
            return Ok(asked);
        }
    }
    Ok(asked)
}

/// The first list that is refused, and why.
pub fn refused_list(answers: &Answers, lists: &[ListWord]) -> Result<Option<ListFault>, NoMemory>
    requires { AreShort answers.now }
    ensures { IfOk result (λ r. r ≡ list_fault answers.now lists.now) }
{
    for list in lists {
        let path = simple(&list.path)?;
        if let Some(fault) = fault_of(answers.get(&path)) {
            return Ok(Some(ListFault {
                word: list.word,
                path: list.path.copy()?,
                fault,
            }));
        }
    }
    Ok(None)
}

/// Adds the simple paths that a list names.
fn push_listed(alloc: Global, paths: &mut Vec<Path>, bytes: &[u8]) -> Result<(), NoMemory>
    requires { All (λ line. IsTrue (is_utf8 line)) (lines bytes.now) }
    ensures { OnOk result (paths.new.items ≡ paths.old.items
        ++ map simple_path (paths_in bytes.now)) }
{
    for line in bytes.lines() {
        if !line.is_empty() {
            let Ok(line) = str::from_utf8(line) else {
                continue
            };
            let path = Path::from_str(alloc, line)?;
            paths.push(simple(&path)?)?;
        }
    }
    Ok(())
}

/// Adds the simple paths that the answer of a list names.
#[tactic(auto, using(crate::proofs::ListLaws::all_utf8), unfolding(crate::specs::Lists::paths_of))]
fn push_answered(
    alloc: Global,
    paths: &mut Vec<Path>,
    answer: Option<&Answer>,
) -> Result<(), NoMemory>
    requires { fault_of (unwrap_or (option_copied answer) Absent) ≡ None }
    ensures { OnOk result (paths.new.items ≡ paths.old.items
        ++ map simple_path (paths_of (unwrap_or (option_copied answer.entry) Absent))) }
{
    match answer {
        Some(Answer::Present(bytes)) => push_listed(alloc, paths, bytes.as_slice()),
        _ => Ok(()),
    }
}

/// The simple paths that are given: those of the words, and then those of the lists.
pub(crate) fn given_paths(
    alloc: Global,
    answers: &Answers,
    options: &Options,
) -> Result<Vec<Path>, NoMemory>
    requires { IsFalse (has_refused answers.now options.now.lists) }
    ensures { IfOk result (λ paths. paths.items
        ≡ map simple_path (given_paths answers.now options.now)) }
{
    let mut paths = Vec::new(alloc);
    for path in options.paths.as_slice() {
        paths.push(simple(path)?)?;
    }
    for list in options.lists.as_slice() {
        let path = simple(&list.path)?;
        push_answered(alloc, &mut paths, answers.get(&path))?;
    }
    Ok(paths)
}
