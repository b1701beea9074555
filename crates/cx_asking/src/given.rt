//! The asking of the paths that are given.
ghost use Rattle.std.specs.Prelude.{◌≡◌, ◌≤◌, IfOk, OnErr};
ghost use Rattle.std.specs.List.{flat_map};
ghost use Rattle.cx_lex.specs.Lines.{place_limit};
ghost use Rattle.cx_asking.specs.Shapes.Asks.{Asks, IsCut};
ghost use Rattle.cx_asking.specs.Shapes.Steps.{members_of};
ghost use Rattle.cx_asking.specs.Wishes.{entries_of, given_wishes, look_up};

use crate::answers::{Answers, entries_of};
use crate::asked::Asked;
use crate::limits::Limits;
use crate::members::{Member, members_of};
use crate::purpose::Purpose;
use crate::walk::{ask_members, ask_once};
use cx_base::{Files, NoMemory, Path};
use std::alloc::Global;

/// What is asked in a path that is given, where it is a folder.
pub(crate) fn members_given(
    alloc: Global,
    answers: &Answers,
    path: &Path,
) -> Result<Vec<Member>, NoMemory>
    ensures { IfOk result (λ members. members.items
        ≡ members_of path.now (entries_of (look_up answers.now path.now))) }
{
    members_of(alloc, path, entries_of(answers.get(path)))
}

/// Asks a path that is given, and what is below it.
fn ask_given<F: Files>(
    alloc: Global,
    asked: Asked,
    limits: &Limits,
    path: &Path,
    files: &mut F,
) -> Result<Asked, NoMemory>
    requires { limits.now.read ≤ place_limit }
    ensures all { IfOk result (λ a. Asks limits.now
        (λ texts seen. given_wishes limits.now seen path.now)
        asked a (F.state files.old) (F.state files.new)) }
    ensures cut { OnErr result (IsCut limits.now
        (λ texts seen. given_wishes limits.now seen path.now)
        asked (F.state files.old) (F.state files.new)) }
{
    let asked = ask_once(asked, limits, Purpose::Given, path, files)?;
    let members = members_given(alloc, asked.answers(), path)?;
    let depth = limits.depth.saturating_sub(1);
    ask_members(alloc, asked, limits, depth, members.as_slice(), files)
}

/// Asks the paths that are given, in order, and what is below them.
pub(crate) fn ask_all_given<F: Files>(
    alloc: Global,
    asked: Asked,
    limits: &Limits,
    paths: &[Path],
    files: &mut F,
) -> Result<Asked, NoMemory>
    requires { limits.now.read ≤ place_limit }
    ensures all { IfOk result (λ a. Asks limits.now
        (λ texts seen. flat_map (given_wishes limits.now seen) paths.now)
        asked a (F.state files.old) (F.state files.new)) }
    ensures cut { OnErr result (IsCut limits.now
        (λ texts seen. flat_map (given_wishes limits.now seen) paths.now)
        asked (F.state files.old) (F.state files.new)) }
{
    let mut asked = asked;
    for path in paths {
        asked = ask_given(alloc, asked, limits, path, files)?;
    }
    Ok(asked)
}
