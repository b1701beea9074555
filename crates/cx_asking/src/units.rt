//! The units: sources that are given, and those in folders.
ghost use Rattle.std.specs.Prelude.{◌≡◌, [], ◌∷◌, IfOk, IsFalse, unwrap_or};
ghost use Rattle.std.specs.Option.{option_copied};
ghost use Rattle.cx_base.specs.declared.answers.Answer.TheVariants.{Absent};
ghost use Rattle.std.specs.List.{flat_map};
ghost use Rattle.cx_asking.specs.Shapes.Steps.{member_wishes, subfolder_wishes, with_units};
ghost use Rattle.cx_asking.specs.Wishes.{given_wishes, has_refused, is_there};
ghost use Rattle.cx_asking.specs.Wishes.{makes_unit, units_of, wish};

use crate::answers::Answers;
use crate::given::members_given;
use crate::limits::Limits;
use crate::lists::given_paths;
use crate::members::{Member, is_source, members_of};
use crate::path_set::PathSet;
use crate::purpose::Purpose;
use cx_base::{Answer, NoMemory, Path};
use cx_options::Options;
use cx_table::NameKey;
use std::alloc::Global;

/// Whether something stands at a path: a file, or what could not be read.
pub(crate) fn is_there(answer: Option<&Answer>) -> bool
    ensures { result ≡ is_there (unwrap_or (option_copied answer.entry) Absent) }
{
    matches!(
        answer,
        Some(Answer::Present(_) | Answer::Unreadable | Answer::TooLarge)
    )
}

/// Whether an answer makes a path that was wanted a unit.
fn makes_unit(purpose: Purpose, path: &Path, answer: Option<&Answer>) -> bool
    ensures { result ≡ makes_unit purpose path.now (unwrap_or (option_copied answer.entry) Absent) }
{
    match purpose {
        Purpose::Given => match answer {
            Some(Answer::Present(_) | Answer::TooLarge) => is_source(path.as_bytes()),
            Some(Answer::Unreadable) => true,
            _ => false,
        },
        Purpose::File => is_there(answer),
        Purpose::Folder => matches!(answer, Some(Answer::Unreadable)),
    }
}

/// Adds a path that was wanted, where it is a unit.
fn add_wish(
    units: PathSet,
    answers: &Answers,
    most: usize,
    purpose: Purpose,
    path: &Path,
) -> Result<PathSet, NoMemory>
    ensures { IfOk result (λ r. r ≡ with_units most answers.now units
        (wish purpose path.now ∷ [])) }
{
    if makes_unit(purpose, path, answers.answer_for(most, purpose, path)) {
        units.with(path)
    } else {
        Ok(units)
    }
}

/// Adds the units of a subfolder.
#[cycle(units)]
fn add_subfolder(
    alloc: Global,
    units: PathSet,
    answers: &Answers,
    most: usize,
    depth: u32,
    path: &Path,
) -> Result<PathSet, NoMemory>
    ensures { IfOk result (λ r. r ≡ with_units most answers.now units
        (subfolder_wishes depth most answers.now path.now)) }
{
    if depth == 0 {
        return Ok(units);
    }
    let units = add_wish(units, answers, most, Purpose::Folder, path)?;
    let members = members_of(alloc, path, answers.entries_among(most, path))?;
    add_members(alloc, units, answers, most, depth - 1, members.as_slice())
}

/// Adds the units that a member of a folder is, or has.
#[cycle(units)]
#[tactic(auto, using(crate::proofs::UnitLaws::folder_member, crate::proofs::UnitLaws::file_member))]
fn add_member(
    alloc: Global,
    units: PathSet,
    answers: &Answers,
    most: usize,
    depth: u32,
    member: &Member,
) -> Result<PathSet, NoMemory>
    ensures { IfOk result (λ r. r ≡ with_units most answers.now units
        (member_wishes depth most answers.now member.now)) }
{
    if member.folder {
        add_subfolder(alloc, units, answers, most, depth, &member.path)
    } else {
        add_wish(units, answers, most, Purpose::File, &member.path)
    }
}

/// Adds the units among members of a folder, and below them.
#[cycle(units)]
fn add_members(
    alloc: Global,
    units: PathSet,
    answers: &Answers,
    most: usize,
    depth: u32,
    members: &[Member],
) -> Result<PathSet, NoMemory>
    ensures { IfOk result (λ r. r ≡ with_units most answers.now units
        (flat_map (member_wishes depth most answers.now) members.now)) }
{
    let mut units = units;
    for member in members {
        units = add_member(alloc, units, answers, most, depth, member)?;
    }
    Ok(units)
}

/// Adds the units that a path that is given is, or has.
fn add_given(
    alloc: Global,
    units: PathSet,
    answers: &Answers,
    limits: &Limits,
    path: &Path,
) -> Result<PathSet, NoMemory>
    ensures { IfOk result (λ r. r ≡ with_units limits.now.folders answers.now units
        (given_wishes limits.now answers.now path.now)) }
{
    let units = add_wish(units, answers, limits.folders, Purpose::Given, path)?;
    let members = members_given(alloc, answers, path)?;
    let depth = limits.depth.saturating_sub(1);
    add_members(
        alloc,
        units,
        answers,
        limits.folders,
        depth,
        members.as_slice(),
    )
}

/// The units of the paths that are given, each once, in order.
pub(crate) fn units_of(
    alloc: Global,
    key: NameKey,
    answers: &Answers,
    limits: &Limits,
    paths: &[Path],
) -> Result<PathSet, NoMemory>
    ensures { IfOk result (λ units. units ≡ with_units limits.now.folders answers.now []
        (flat_map (given_wishes limits.now answers.now) paths.now)) }
{
    let mut units = PathSet::new(alloc, key);
    for path in paths {
        units = add_given(alloc, units, answers, limits, path)?;
    }
    Ok(units)
}

/// The units, each once, in order: of the paths that are given the sources and what could not be
/// read, and in folders the sources that are there. Paths are hashed under this key.
pub fn all_units(
    alloc: Global,
    key: NameKey,
    limits: &Limits,
    options: &Options,
    answers: &Answers,
) -> Result<Vec<Path>, NoMemory>
    requires { IsFalse (has_refused answers.now options.now.lists) }
    ensures { IfOk result (λ units. units.items ≡ units_of limits.now answers.now options.now) }
{
    let paths = given_paths(alloc, answers, options)?;
    let units = units_of(alloc, key, answers, limits, paths.as_slice())?;
    Ok(units.into_vec())
}
