//! What the asking answers.
use crate::answers::Answers;
use crate::text_fault::TextFault;
use cx_shelf::IndexedShelf;

/// All that was asked.
#[derive(Drop)]
pub struct Gathering {
    /// Each path that was asked, with its answer.
    pub answers: Answers,
    /// The folders of `-I`, and the files that were read and have pieces, in the order in which
    /// they were asked. The places of each have the number of its answer.
    pub shelf: IndexedShelf,
    /// For each answer why the text of its file has no pieces.
    pub faults: Vec<Option<TextFault>>,
}
