//! What units are told by.
use crate::limits::UnitLimits;
use cx_asking::{Answers, TextFault};
use cx_library::Library;
use cx_options::Options;
use cx_shelf::IndexedShelf;

/// What all units of a run are told by.
#[derive(Clone, Copy)]
pub struct Ground<'a> {
    pub limits: UnitLimits,
    pub options: &'a Options,
    pub library: &'a Library,
    /// Each path that was asked, with its answer.
    pub answers: &'a Answers,
    /// The files that have pieces. The places of each have the number of its answer.
    pub shelf: &'a IndexedShelf,
    /// For each answer why the text of its file has no pieces.
    pub faults: &'a [Option<TextFault>],
}
