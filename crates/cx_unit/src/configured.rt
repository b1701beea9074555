//! What is told of the configurations of a unit.
ghost use Rattle.std.specs.Prelude.{◌≡◌, IfOk, MatchOption, map};
ghost use Rattle.std.specs.List.{AllZip, list_all};
ghost use Rattle.cx_unit.specs.Names as names;
ghost use Rattle.cx_unit.specs.Told.{IsTold, findings_of, first_error, is_dropped};
ghost use Rattle.cx_unit.specs.Units.{HasForeign};

use crate::names::{config_name, progress_line};
use crate::told::{Told, told_of_config};
use cx_base::{Finding, List, NoMemory, Path, Text};
use cx_finding::Findings;
use cx_options::Options;
use cx_pre::Config;
use cx_shelf::IndexedShelf;
use cx_table::NameKey;
use std::alloc::Global;

/// What is told of each configuration of a unit, the file with that number on the shelf; nothing
/// where the tokens of one are no first text.
#[tactic(auto, using(crate::proofs::ConfiguredLaws::zip_next, crate::proofs::ConfiguredLaws::zip_end, crate::proofs::ConfiguredLaws::foreign_at))]
pub(crate) fn tolds_of(
    alloc: Global,
    key: NameKey,
    shelf: &IndexedShelf,
    unit: u32,
    configs: &[Config],
) -> Result<Option<List<Told>>, NoMemory>
    ensures { IfOk result (λ r. MatchOption r (HasForeign shelf.now unit configs.now)
        (AllZip (IsTold shelf.now unit) configs.now)) }
{
    let mut tolds = List::new(alloc);
    for config in configs {
        match told_of_config(alloc, key, shelf, unit, config)? {
            Some(told) => tolds.push(told)?,
            None => return Ok(None),
        }
    }
    Ok(Some(tolds))
}

/// Whether a configuration is dropped.
fn is_dropped(told: &Told) -> bool
    ensures { result ≡ is_dropped told.now }
{
    matches!(told, Told::Dropped(_))
}

/// Whether each configuration is dropped.
fn are_dropped(tolds: &[Told]) -> bool
    ensures { result ≡ list_all is_dropped tolds.now }
{
    tolds.iter().all(|told| is_dropped(told))
}

/// The `error` of the first configuration, where it is dropped.
fn first_error(alloc: Global, tolds: &[Told]) -> Result<List<Finding>, NoMemory>
    ensures { IfOk result (λ findings. findings ≡ first_error tolds.now) }
{
    let mut findings = List::new(alloc);
    if let Some(Told::Dropped(finding)) = tolds.first() {
        findings.push(finding.copy()?)?;
    }
    Ok(findings)
}

/// The findings of all configurations in order, each once; where each was dropped, the `error` of
/// the first.
#[tactic(auto, unfolding(crate::specs::Told::findings_of))]
pub(crate) fn findings_of(
    alloc: Global,
    key: NameKey,
    tolds: &[Told],
) -> Result<List<Finding>, NoMemory>
    ensures { IfOk result (λ findings. findings ≡ findings_of tolds.now) }
{
    if are_dropped(tolds) {
        return first_error(alloc, tolds);
    }
    let mut findings = Findings::new(alloc, key);
    for told in tolds {
        if let Told::Findings(found) = told {
            findings = findings.with_all(found.as_slice())?;
        }
    }
    Ok(findings.into_list())
}

/// The progress line of each configuration.
pub(crate) fn progress_lines(
    alloc: Global,
    path: &Path,
    options: &Options,
    configs: &[Config],
) -> Result<List<Text>, NoMemory>
    ensures { IfOk result (λ lines. lines ≡ map (λ c. names.progress_line path.now
        (names.config_name options.now c.names)) configs.now) }
{
    let mut lines = List::new(alloc);
    for config in configs {
        let name = config_name(alloc, options, config.names.as_slice())?;
        lines.push(progress_line(alloc, path, name.as_slice())?)?;
    }
    Ok(lines)
}
