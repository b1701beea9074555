//! The asking of what the files of units include, breadth first.
ghost use Rattle.std.specs.Prelude.{◌≤◌, ◌≡◌, [], ◌∷◌, All, IfOk, IsTrue, OnErr, bytes_eq};
ghost use Rattle.std.specs.Option.{option_map};
ghost use Rattle.std.specs.List.{IsDistinct, filter_map, find, flat_map};
ghost use Rattle.indexmap.specs.IndexSet.{insert_all};
ghost use Rattle.cx_lex.specs.Lines.{place_limit};
ghost use Rattle.cx_asking.specs.Asking.{text_of};
ghost use Rattle.cx_asking.specs.Includes.{all_include_wishes, files_of, is_taken};
ghost use Rattle.cx_asking.specs.Includes.{tried_by, wishes_of};
ghost use Rattle.cx_asking.specs.Shapes.Asks.{Asks, IsCut, is_known};
ghost use Rattle.cx_asking.specs.Shapes.Steps.{lists_of};

use crate::answers::Answers;
use crate::asked::{Asked, lexed_of};
use crate::candidates::tried;
use crate::limits::Limits;
use crate::path_set::PathSet;
use crate::purpose::Purpose;
use crate::units::is_there;
use crate::walk::ask_once;
use cx_base::{Files, NoMemory, Path};
use cx_shelf::{IndexedShelf, includes_of};
use cx_table::NameKey;
use std::alloc::Global;

/// The paths that are tried for each include of a file, in order.
fn tried_by(
    alloc: Global,
    shelf: &IndexedShelf,
    folders: &[Path],
    file: &Path,
) -> Result<Vec<Vec<Path>>, NoMemory>
    ensures { IfOk result
        (λ all. lists_of all.items ≡ tried_by (text_of shelf.now.files) folders.now file.now) }
{
    let mut all = Vec::new(alloc);
    let Some(lexed) = lexed_of(shelf, file) else {
        return Ok(all);
    };
    let includes = includes_of(alloc, lexed)?;
    for include in includes.as_slice() {
        all.push(tried(alloc, folders, file, include)?)?;
    }
    Ok(all)
}

/// Asks the candidates of an include, up to the first at which something stands.
fn ask_candidates<F: Files>(
    asked: Asked,
    limits: &Limits,
    paths: &[Path],
    files: &mut F,
) -> Result<Asked, NoMemory>
    requires { limits.now.read ≤ place_limit }
    ensures all { IfOk result (λ a. Asks limits.now (λ texts seen. wishes_of seen paths.now)
        asked a (F.state files.old) (F.state files.new)) }
    ensures cut { OnErr result (IsCut limits.now (λ texts seen. wishes_of seen paths.now)
        asked (F.state files.old) (F.state files.new)) }
{
    let mut asked = asked;
    for path in paths {
        asked = ask_once(asked, limits, Purpose::File, path, files)?;
        if is_there(asked.answers().get(path)) {
            return Ok(asked);
        }
    }
    Ok(asked)
}

/// Asks the candidates of includes, in order.
fn ask_tried<F: Files>(
    asked: Asked,
    limits: &Limits,
    tried: &[Vec<Path>],
    files: &mut F,
) -> Result<Asked, NoMemory>
    requires { limits.now.read ≤ place_limit }
    ensures all { IfOk result (λ a. Asks limits.now
        (λ texts seen. flat_map (wishes_of seen) (lists_of tried.now))
        asked a (F.state files.old) (F.state files.new)) }
    ensures cut { OnErr result (IsCut limits.now
        (λ texts seen. flat_map (wishes_of seen) (lists_of tried.now))
        asked (F.state files.old) (F.state files.new)) }
{
    let mut asked = asked;
    for paths in tried {
        asked = ask_candidates(asked, limits, paths.as_slice(), files)?;
    }
    Ok(asked)
}

/// The first candidate at which something stands.
fn taken<'a>(answers: &Answers, paths: &'a [Path]) -> Option<&'a Path>
    ensures { option_map (λ path. path.now) result ≡ find (is_taken answers.now) paths.now }
{
    for path in paths {
        if is_there(answers.get(path)) {
            return Some(path);
        }
    }
    None
}

/// Adds what includes take, each at the end unless it is there.
fn with_taken(found: PathSet, answers: &Answers, tried: &[Vec<Path>]) -> Result<PathSet, NoMemory>
    ensures { IfOk result (λ r. r ≡ insert_all bytes_eq found
        (filter_map (find (is_taken answers.now)) (lists_of tried.now))) }
{
    let mut found = found;
    for paths in tried {
        let Some(path) = taken(answers, paths.as_slice()) else {
            continue;
        };
        found = found.with(path)?;
    }
    Ok(found)
}

/// Asks what the files of units include, and the files that are included, breadth first.
pub(crate) fn ask_includes<F: Files>(
    alloc: Global,
    asked: Asked,
    limits: &Limits,
    folders: &[Path],
    units: PathSet,
    files: &mut F,
) -> Result<Asked, NoMemory>
    requires short { limits.now.read ≤ place_limit }
    requires known { All (λ path. IsTrue (is_known asked.seen path)) units }
    requires apart { IsDistinct bytes_eq units }
    ensures all { IfOk result (λ a. Asks limits.now
        (λ texts seen. all_include_wishes texts folders.now seen units)
        asked a (F.state files.old) (F.state files.new)) }
    ensures cut { OnErr result (IsCut limits.now
        (λ texts seen. all_include_wishes texts folders.now seen units)
        asked (F.state files.old) (F.state files.new)) }
{
    let mut asked = asked;
    let mut found = units;
    let mut followed = 0;
    while let Some(file) = found.get(followed) {
        let tried = tried_by(alloc, asked.shelf(), folders, file)?;
        asked = ask_tried(asked, limits, tried.as_slice(), files)?;
        found = with_taken(found, asked.answers(), tried.as_slice())?;
        followed += 1;
    }
    Ok(asked)
}

/// The files of a unit, by their paths, each once: its own, and then, breadth first, what the
/// includes of each lead to, whatever groups they stand in (C11 6.10.2). Paths are hashed under
/// this key.
pub fn closure(
    alloc: Global,
    key: NameKey,
    answers: &Answers,
    shelf: &IndexedShelf,
    unit: &Path,
) -> Result<Vec<Path>, NoMemory>
    ensures { IfOk result (λ files. files.items
        ≡ files_of (text_of shelf.now.files) shelf.now.folders answers.now (unit.now ∷ [])) }
{
    let mut found = PathSet::new(alloc, key).with(unit)?;
    let folders = shelf.shelf().folders.as_slice();
    let mut followed = 0;
    while let Some(file) = found.get(followed) {
        let tried = tried_by(alloc, shelf, folders, file)?;
        found = with_taken(found, answers, tried.as_slice())?;
        followed += 1;
    }
    Ok(found.into_vec())
}
