//! The asking of one path, and of what is below a folder.
ghost use Rattle.std.specs.Prelude.{◌≤◌, [], ◌∷◌, IfOk, OnErr};
ghost use Rattle.std.specs.List.{flat_map};
ghost use Rattle.cx_lex.specs.Lines.{place_limit};
ghost use Rattle.cx_asking.specs.Shapes.Asks.{Asks, IsCut};
ghost use Rattle.cx_asking.specs.Shapes.Steps.{member_wishes, subfolder_wishes};
ghost use Rattle.cx_asking.specs.Wishes.{wish};

use crate::ask_path::ask_path;
use crate::asked::Asked;
use crate::limits::Limits;
use crate::members::{Member, members_of};
use crate::purpose::Purpose;
use cx_base::{Files, NoMemory, Path};
use std::alloc::Global;

/// Asks a path for a purpose, unless it was asked, or may not be.
pub(crate) fn ask_once<F: Files>(
    asked: Asked,
    limits: &Limits,
    purpose: Purpose,
    path: &Path,
    files: &mut F,
) -> Result<Asked, NoMemory>
    requires { limits.now.read ≤ place_limit }
    ensures all { IfOk result (λ a. Asks limits.now (λ texts seen. wish purpose path.now ∷ [])
        asked a (F.state files.old) (F.state files.new)) }
    ensures cut { OnErr result (IsCut limits.now (λ texts seen. wish purpose path.now ∷ [])
        asked (F.state files.old) (F.state files.new)) }
{
    if asked.answers().is_known(path) {
        return Ok(asked);
    }
    if !asked.may_be_asked(limits, purpose) {
        return Ok(asked);
    }
    let answer = ask_path(limits, asked.kept(), purpose, path, files)?;
    let path = path.copy()?;
    asked.push(limits, path, answer)
}

/// Asks a subfolder, and then what is below it.
#[cycle(walk)]
fn ask_subfolder<F: Files>(
    alloc: Global,
    asked: Asked,
    limits: &Limits,
    depth: u32,
    path: &Path,
    files: &mut F,
) -> Result<Asked, NoMemory>
    requires { limits.now.read ≤ place_limit }
    ensures all { IfOk result (λ a. Asks limits.now
        (λ texts seen. subfolder_wishes depth limits.now.folders seen path.now)
        asked a (F.state files.old) (F.state files.new)) }
    ensures cut { OnErr result (IsCut limits.now
        (λ texts seen. subfolder_wishes depth limits.now.folders seen path.now)
        asked (F.state files.old) (F.state files.new)) }
{
    if depth == 0 {
        return Ok(asked);
    }
    let asked = ask_once(asked, limits, Purpose::Folder, path, files)?;
    let members = members_of(
        alloc,
        path,
        asked.answers().entries_among(limits.folders, path),
    )?;
    ask_members(alloc, asked, limits, depth - 1, members.as_slice(), files)
}

/// Asks a member of a folder, and what is below it.
#[cycle(walk)]
fn ask_member<F: Files>(
    alloc: Global,
    asked: Asked,
    limits: &Limits,
    depth: u32,
    member: &Member,
    files: &mut F,
) -> Result<Asked, NoMemory>
    requires { limits.now.read ≤ place_limit }
    ensures all { IfOk result (λ a. Asks limits.now
        (λ texts seen. member_wishes depth limits.now.folders seen member.now)
        asked a (F.state files.old) (F.state files.new)) }
    ensures cut { OnErr result (IsCut limits.now
        (λ texts seen. member_wishes depth limits.now.folders seen member.now)
        asked (F.state files.old) (F.state files.new)) }
{
    if member.folder {
        ask_subfolder(alloc, asked, limits, depth, &member.path, files)
    } else {
        ask_once(asked, limits, Purpose::File, &member.path, files)
    }
}

/// Asks members of a folder, in order, and what is below them, down to so many subfolders one
/// within another.
#[cycle(walk)]
pub(crate) fn ask_members<F: Files>(
    alloc: Global,
    asked: Asked,
    limits: &Limits,
    depth: u32,
    members: &[Member],
    files: &mut F,
) -> Result<Asked, NoMemory>
    requires { limits.now.read ≤ place_limit }
    ensures all { IfOk result (λ a. Asks limits.now
        (λ texts seen. flat_map (member_wishes depth limits.now.folders seen) members.now)
        asked a (F.state files.old) (F.state files.new)) }
    ensures cut { OnErr result (IsCut limits.now
        (λ texts seen. flat_map (member_wishes depth limits.now.folders seen) members.now)
        asked (F.state files.old) (F.state files.new)) }
{
    let mut asked = asked;
    for member in members {
        asked = ask_member(alloc, asked, limits, depth, member, files)?;
    }
    Ok(asked)
}
