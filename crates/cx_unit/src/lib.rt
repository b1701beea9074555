//! What is told of a unit: its progress lines and its findings.
#![tactic(auto)]

pub use ground::Ground;
pub use laws::{findings_are_real, not_both, one_unit_report, some_unit_report};
pub use limits::UnitLimits;
pub use report::UnitReport;
pub use unit::unit_report;

mod closure_fault;
mod configured;
mod faults;
mod first;
mod ground;
mod laws;
mod limits;
mod names;
mod report;
#[cfg(test)]
mod tests;
mod told;
mod unit;
