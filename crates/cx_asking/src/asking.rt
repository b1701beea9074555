//! The asking of all that the words want.
ghost use Rattle.std.specs.Prelude.{◌≡◌, ◌≤◌, IfOk, IsFalse, OnErr};
ghost use Rattle.cx_lex.specs.Lines.{place_limit};
ghost use Rattle.cx_asking.specs.Answers.{AreShort};
ghost use Rattle.cx_asking.specs.Asked.{AreAnswers, IsAskedOnly};
ghost use Rattle.cx_asking.specs.Asking.{AreFaults, IsWholeAsking};
ghost use Rattle.cx_asking.specs.Shapes.Asks.{Asks, IsCut};
ghost use Rattle.cx_asking.specs.Shapes.Whole.{all_wanted, nothing, sources_wanted};
ghost use Rattle.cx_asking.specs.Wishes.{has_refused};

use crate::asked::Asked;
use crate::gathering::Gathering;
use crate::given::ask_all_given;
use crate::includes::ask_includes;
use crate::limits::Limits;
use crate::lists::{ask_lists, given_paths, refused_list};
use crate::units::units_of;
use cx_base::{Files, NoMemory};
use cx_options::Options;
use cx_table::NameKey;
use std::alloc::Global;

/// Asks all that is wanted of the paths that are given, and of what they include.
fn ask_sources<F: Files>(
    alloc: Global,
    key: NameKey,
    asked: Asked,
    limits: &Limits,
    options: &Options,
    files: &mut F,
) -> Result<Asked, NoMemory>
    requires short { limits.now.read ≤ place_limit }
    requires read { IsFalse (has_refused asked.seen options.now.lists) }
    ensures all { IfOk result (λ a. Asks limits.now (sources_wanted limits.now options.now)
        asked a (F.state files.old) (F.state files.new)) }
    ensures cut { OnErr result (IsCut limits.now (sources_wanted limits.now options.now)
        asked (F.state files.old) (F.state files.new)) }
{
    let paths = given_paths(alloc, asked.answers(), options)?;
    let asked = ask_all_given(alloc, asked, limits, paths.as_slice(), files)?;
    let units = units_of(alloc, key, asked.answers(), limits, paths.as_slice())?;
    let folders = options.folders.as_slice();
    ask_includes(alloc, asked, limits, folders, units, files)
}

/// Asks all that is wanted, where nothing was asked.
fn ask_all<F: Files>(
    alloc: Global,
    key: NameKey,
    limits: &Limits,
    options: &Options,
    files: &mut F,
) -> Result<Asked, NoMemory>
    requires { limits.now.read ≤ place_limit }
    ensures all { IfOk result (λ a. Asks limits.now (all_wanted limits.now options.now)
        nothing a (F.state files.old) (F.state files.new)) }
    ensures cut { OnErr result (IsCut limits.now (all_wanted limits.now options.now)
        nothing (F.state files.old) (F.state files.new)) }
{
    let asked = Asked::new(alloc, key);
    let lists = options.lists.as_slice();
    let asked = ask_lists(asked, limits, lists, files)?;
    if refused_list(asked.answers(), lists)?.is_some() {
        return Ok(asked);
    }
    ask_sources(alloc, key, asked, limits, options, files)
}

/// Asks the files for all that the options want, each path once: the files of `--file-list=` in
/// order, and unless one of them is refused, the paths that are given with the sources in folders,
/// and what the files include, breadth first. Paths are hashed under this key.
///
/// * **asked**: what was seen is all that the options want, in order.
/// * **answers**: each answer is what the files hold, where they tell that, by the calls that give
///   it; the files were asked for nothing else.
/// * **reads**: where memory ran out, they were asked for a front of what the options want.
pub fn ask<F: Files>(
    alloc: Global,
    key: NameKey,
    limits: &Limits,
    options: &Options,
    files: &mut F,
) -> Result<Gathering, NoMemory>
    requires { limits.now.read ≤ place_limit }
    ensures asked { IfOk result
        (λ g. IsWholeAsking limits.now options.now g.answers g.shelf.files) }
    ensures answers { IfOk result (λ g. AreAnswers limits.now options.now g.answers g.shelf.files
        (F.state files.old) (F.state files.new)) }
    ensures folders { IfOk result (λ g. g.shelf.folders ≡ options.now.folders) }
    ensures faults { IfOk result (λ g. AreFaults 0 g.answers g.faults.items) }
    ensures short { IfOk result (λ g. AreShort g.answers) }
    ensures reads { OnErr result (IsAskedOnly limits.now options.now
        (F.state files.old) (F.state files.new)) }
{
    let asked = ask_all(alloc, key, limits, options, files)?;
    let folders = options.folders.copy()?;
    let (answers, shelf, faults) = asked.into_parts();
    Ok(Gathering {
        answers,
        shelf: shelf.with_folders(folders),
        faults,
    })
}
