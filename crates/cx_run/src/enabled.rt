//! Which findings are told, and with which status.
ghost use Rattle.std.specs.Prelude.{◌≡◌, ◌&&◌};
ghost use Rattle.std.specs.List.{list_any};
ghost use Rattle.cx_run.specs.Findings.{exit_status, is_enabled, is_grave, is_informed};
ghost use Rattle.cx_run.specs.Findings.{is_switched_on};

use cx_base::{Finding, Id, Severity};
use cx_options::Options;

/// Whether findings for information of a kind are switched on.
fn is_informed(options: &Options, id: Id) -> bool
    ensures { result ≡ is_informed options.now id }
{
    match id {
        Id::MissingInclude | Id::MissingIncludeSystem => options.missing_include,
        _ => options.information,
    }
}

/// Whether findings of a severity and a kind are switched on.
fn is_switched_on(options: &Options, severity: Severity, id: Id) -> bool
    ensures { result ≡ is_switched_on options.now severity id }
{
    match severity {
        Severity::Error => true,
        Severity::Warning => options.warning,
        Severity::Style => options.style,
        Severity::Information => is_informed(options, id),
    }
}

/// Whether a finding is switched on.
pub(crate) fn is_enabled(options: &Options, finding: &Finding) -> bool
    ensures { result ≡ is_enabled options.now finding.now }
{
    is_switched_on(options, finding.severity, finding.id)
}

/// Whether a severity is more than information.
fn is_grave(severity: Severity) -> bool
    ensures { result ≡ is_grave severity }
{
    severity != Severity::Information
}

/// Whether a finding is told, and is more than information.
fn is_counted(options: &Options, finding: &Finding) -> bool
    ensures { result ≡ (is_enabled options.now finding.now && is_grave finding.now.severity) }
{
    is_enabled(options, finding) && is_grave(finding.severity)
}

/// Whether one of these findings is told, and is more than information.
fn is_any_counted(options: &Options, told: &[Finding]) -> bool
    ensures { result ≡ list_any
        (λ f. is_enabled options.now f && is_grave f.severity) told.now }
{
    told.iter().any(|finding| is_counted(options, finding))
}

/// The status of a run that told these findings.
#[tactic(auto, unfolding(crate::specs::Findings::exit_status))]
pub(crate) fn exit_status(options: &Options, told: &[Finding]) -> u8
    ensures { result ≡ exit_status options.now told.now }
{
    if is_any_counted(options, told) {
        options.error_exitcode
    } else {
        0
    }
}
