//! Findings: those of files and configurations, each once, and their lines.
#![tactic(auto)]

pub use distinct::Findings;
pub use kinds::{error_directive, limit_passed, missing_include, read_fault, syntax_error};
pub use line::finding_line;

mod distinct;
mod key;
mod kinds;
mod line;
mod message;
#[cfg(test)]
mod tests;
