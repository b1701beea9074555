//! What is told of a unit.
use cx_base::{Finding, List, Text};

/// What is told of a unit.
#[derive(Debug, Drop)]
pub struct UnitReport {
    /// Its progress lines, without their newlines: one for each configuration.
    pub progress: List<Text>,
    /// Its findings, each once. A place has the number of its file's answer.
    pub findings: List<Finding>,
}
