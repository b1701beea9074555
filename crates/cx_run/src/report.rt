//! What is told: causes, pieces and reports.
use cx_asking::FileFault;
use cx_base::{Bytes, List};
use cx_options::WordKind;

/// The sink that a piece goes to.
#[derive(Clone, Copy, Debug, PartialEq, Eq)]
pub enum SinkName {
    Out,
    Err,
}

/// Why a run ended.
#[derive(Clone, Copy, Debug, PartialEq, Eq)]
pub enum Cause {
    /// Every unit was checked.
    Done,
    /// The word of that number, counted from 0, is refused, and none before it.
    BadWords { word: u32, kind: WordKind },
    /// The list that the word of that number names is refused, and none before it.
    ListRefused { word: u32, fault: FileFault },
    /// There is nothing to check.
    NoInput,
    /// What was asked for is not served yet.
    NotBuilt,
    /// A write to this sink failed.
    WriteFault { sink: SinkName },
    /// Memory ran out.
    NoMemory,
}

/// A text that goes to one of the sinks.
#[derive(Debug, Drop)]
pub struct ReportPiece {
    pub sink: SinkName,
    pub bytes: Bytes,
}

/// The written report: what decided it, the status to end with, and its pieces in order.
#[derive(Debug, Drop)]
pub struct Report {
    pub cause: Cause,
    pub status: u8,
    pub pieces: List<ReportPiece>,
}
