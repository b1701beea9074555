//! What is told of a configuration.
ghost use Rattle.std.specs.Prelude.{◌≡◌, ◌++◌, IfOk, MatchOption};
ghost use Rattle.cx_unit.specs.Shapes.Found.{FindsIn, IsNoText};
ghost use Rattle.cx_base.specs.declared.finding.Finding.{Finding as finding_type};
ghost use Rattle.std.specs.Prelude.{List as list};
ghost use Rattle.cx_unit.specs.Told.{IsForeign, IsTold, is_error, missing_findings};
ghost use Rattle.cx_unit.specs.Told.{told_of_fault};

use crate::faults::fault_finding;
use crate::first::findings_in;
use cx_base::{Finding, List, NoMemory};
use cx_finding::missing_include;
use cx_pre::{Chosen, Config, PreFault, preprocess};
use cx_shelf::{IncludeName, IndexedShelf};
use cx_table::NameKey;
use cx_tokens::Token;
use std::alloc::Global;

/// What is told of a configuration.
#[derive(Debug, Drop)]
pub enum Told {
    /// It reaches a directive `error`, so nothing else is told of it.
    Dropped(Finding),
    /// What is found, in order.
    Findings(List<Finding>),
}

/// The findings of includes that lead to no file.
fn missing_findings(alloc: Global, names: &[IncludeName]) -> Result<List<Finding>, NoMemory>
    ensures { IfOk result (λ findings. findings ≡ missing_findings names.now) }
{
    let mut findings = List::new(alloc);
    for name in names {
        findings.push(missing_include(alloc, &name.name, name.quoted, name.at)?)?;
    }
    Ok(findings)
}

/// Whether a fault is a directive `error`.
fn is_error(fault: &PreFault) -> bool
    ensures { result ≡ is_error fault.now }
{
    matches!(fault, PreFault::ErrorDirective { .. })
}

/// What is told of a configuration with a fault, behind these includes that lead to no file.
#[tactic(auto, unfolding(crate::specs::Told::told_of_fault))]
fn told_of_fault(alloc: Global, missing: &[IncludeName], fault: PreFault) -> Result<Told, NoMemory>
    ensures { IfOk result (λ told. told ≡ told_of_fault missing.now fault) }
{
    let is_error = is_error(&fault);
    let finding = fault_finding(alloc, fault)?;
    if is_error {
        return Ok(Told::Dropped(finding));
    }
    let mut findings = missing_findings(alloc, missing)?;
    findings.push(finding)?;
    Ok(Told::Findings(findings))
}

/// What is told of a configuration with these tokens, behind these includes that lead to no file,
/// where the tokens are a first text.
fn told_of_tokens(
    alloc: Global,
    missing: &[IncludeName],
    tokens: &[Token],
) -> Result<Option<List<Finding>>, NoMemory>
    ensures { IfOk result (λ r. MatchOption r (IsNoText tokens.now)
        (λ all. (found : list finding_type) × FindsIn tokens.now found
        × (all ≡ missing_findings missing.now ++ found))) }
{
    if tokens.len() >= 4_294_967_295 {
        return Err(NoMemory);
    }
    let Some(found) = findings_in(alloc, tokens)? else {
        return Ok(None);
    };
    let mut findings = missing_findings(alloc, missing)?;
    findings.append(found)?;
    Ok(Some(findings))
}

/// What is told of a configuration of a unit, the file with that number on the shelf; nothing where
/// its tokens are no first text. Names are hashed under this key, which the sources give.
#[tactic(auto, using(crate::proofs::ToldLaws::faulty_told, crate::proofs::ToldLaws::text_told, crate::proofs::ToldLaws::foreign_told))]
pub(crate) fn told_of_config(
    alloc: Global,
    key: NameKey,
    shelf: &IndexedShelf,
    unit: u32,
    config: &Config,
) -> Result<Option<Told>, NoMemory>
    ensures { IfOk result (λ r. MatchOption r (IsForeign shelf.now unit config.now)
        (IsTold shelf.now unit config.now)) }
{
    let Chosen { tokens, missing } = preprocess(alloc, key, shelf, unit, config)?;
    match tokens {
        Err(fault) => {
            let told = told_of_fault(alloc, missing.as_slice(), fault)?;
            Ok(Some(told))
        }
        Ok(list) => {
            let tokens = list.into_vec()?;
            match told_of_tokens(alloc, missing.as_slice(), tokens.as_slice())? {
                Some(findings) => Ok(Some(Told::Findings(findings))),
                None => Ok(None),
            }
        }
    }
}
