//! What was asked so far.
ghost use Rattle.std.specs.Prelude.{◌≡◌, ◌<◌, ◌≤◌, [], length, IfOk, MatchOption, None};
ghost use Rattle.cx_lex.specs.Lines.{place_limit};
ghost use Rattle.cx_asking.specs.Answers.{AreShort, IsBelow, bytes_kept, kept};
ghost use Rattle.cx_asking.specs.Asking.{AreFaults, AreShelved, may_be_asked, text_of};
ghost use Rattle.cx_asking.specs.Shapes.Indexed.{Adds, IsShelved, Puts};
ghost use Rattle.cx_asking.specs.Wishes.{look_up};

use crate::answers::Answers;
use crate::limits::Limits;
use crate::purpose::Purpose;
use crate::text_fault::TextFault;
use cx_base::{Answer, Bytes, NoMemory, Path};
use cx_lex::{LexFault, Lexed, lex};
use cx_shelf::{IndexedShelf, Shelved};
use cx_table::NameKey;
use std::alloc::Global;
use std::marker::Model;

/// What was asked so far, and the files that have pieces. Contracts see the lists of both.
#[derive(Drop)]
pub(crate) struct Asked {
    alloc: Global,
    answers: Answers,
    shelf: IndexedShelf,
    // for each answer why the text of its file has no pieces
    faults: Vec<Option<TextFault>>,
    // how many bytes are kept
    kept: u64,
}

impl Model for Asked {
    ghost use Rattle.cx_asking.specs.Shapes.Asks.{Gathered};
    ghost use Rattle.cx_asking.specs.Shapes.Indexed.{IsGathered};

    ghost Value = { Gathered };

    ghost view = { λ a. record { seen = a.answers; shelf = a.shelf.files } };

    ghost invariant = { λ a. IsGathered a.answers a.shelf.files a.faults.items a.kept };
}

/// A file for the shelf, where its entry has that number, or why its text has no pieces.
fn shelved(
    alloc: Global,
    number: usize,
    path: &Path,
    bytes: &Bytes,
) -> Result<Result<Shelved, TextFault>, NoMemory>
    requires { length bytes.now < place_limit }
    ensures { IfOk result (IsShelved number path.now bytes.now) }
{
    let Ok(number) = u32::try_from(number) else {
        return Err(NoMemory);
    };
    match lex(alloc, bytes.as_slice(), number) {
        Ok(lexed) => {
            let path = path.copy()?;
            Ok(Ok(Shelved { path, lexed }))
        }
        Err(LexFault::UnclosedComment { at }) => Ok(Err(TextFault::UnclosedComment { at })),
        Err(LexFault::TooLong { at }) => Ok(Err(TextFault::TooLong { at })),
        Err(LexFault::NoMemory) => Err(NoMemory),
    }
}

/// The shelf with the file of an answer, where it has pieces, and else why not. The entry has that
/// number.
fn with_answer(
    alloc: Global,
    shelf: IndexedShelf,
    number: usize,
    path: &Path,
    answer: &Answer,
) -> Result<(IndexedShelf, Option<TextFault>), NoMemory>
    requires { bytes_kept answer.now < place_limit }
    ensures { IfOk result (λ r. Puts number shelf.files
        (record { path = path.now; answer = answer.now }) r.0 r.1) }
{
    let Answer::Present(bytes) = answer else {
        return Ok((shelf, None));
    };
    match shelved(alloc, number, path, bytes)? {
        Ok(file) => {
            let shelf = shelf.with(file)?;
            Ok((shelf, None))
        }
        Err(fault) => Ok((shelf, Some(fault))),
    }
}

/// The pieces and comments of the file with a path, where it has some.
#[tactic(auto, using(crate::proofs::IndexLaws::no_text))]
pub(crate) fn lexed_of<'a>(shelf: &'a IndexedShelf, path: &Path) -> Option<&'a Lexed>
    ensures { MatchOption result (text_of shelf.now.files path.now ≡ [])
        (λ lexed. text_of shelf.now.files path.now ≡ lexed.now.pieces) }
{
    let Some(number) = shelf.number_of(path) else {
        return None;
    };
    match shelf.shelf().files.as_slice().get(number) {
        Some(file) => Some(&file.lexed),
        None => None,
    }
}

/// How many bytes an answer keeps.
fn bytes_kept(answer: &Answer) -> u64
    ensures { result ≡ bytes_kept answer.now }
{
    match answer {
        Answer::Present(bytes) => bytes.len() as u64,
        _ => 0,
    }
}

impl Asked {
    /// Nothing was asked. The paths to come are hashed under this key.
    pub(crate) fn new(alloc: Global, key: NameKey) -> Asked
        ensures { result ≡ record { seen = []; shelf = [] } }
    {
        Asked {
            alloc,
            answers: Answers::new(alloc, key),
            shelf: IndexedShelf::new(alloc, key),
            faults: Vec::new(alloc),
            kept: 0,
        }
    }

    /// The answers so far.
    pub(crate) fn answers(&self) -> &Answers
        ensures answers { result.now ≡ self.now.seen }
        ensures short { AreShort result.now }
    {
        &self.answers
    }

    /// The files so far.
    pub(crate) fn shelf(&self) -> &IndexedShelf
        ensures { result.now.files ≡ self.now.shelf }
    {
        &self.shelf
    }

    /// Whether a path may be asked for a purpose: a subfolder only while there are not so many
    /// folders.
    pub(crate) fn may_be_asked(&self, limits: &Limits, purpose: Purpose) -> bool
        ensures { result ≡ may_be_asked limits.now self.now.seen purpose }
    {
        match purpose {
            Purpose::Folder => self.answers.folder_count() < limits.folders,
            _ => true,
        }
    }

    /// How many bytes are kept.
    pub(crate) fn kept(&self) -> u64
        ensures { result ≡ kept self.now.seen }
    {
        self.kept
    }

    /// Adds a path that was not asked yet, with its answer.
    #[tactic(auto, using(crate::proofs::IndexLaws::adds_answer))]
    pub(crate) fn push(self, limits: &Limits, path: Path, answer: Answer) -> Result<Asked, NoMemory>
        requires new { look_up self.seen path ≡ None }
        requires below { IsBelow limits.now (kept self.seen) answer }
        requires short { limits.now.read ≤ place_limit }
        ensures { IfOk result (λ a. Adds self path answer a) }
    {
        let Asked {
            alloc,
            answers,
            shelf,
            mut faults,
            kept,
        } = self;
        let kept = kept + bytes_kept(&answer);
        let number = answers.as_slice().len();
        let (shelf, fault) = with_answer(alloc, shelf, number, &path, &answer)?;
        faults.push(fault)?;
        let answers = answers.with(path, answer)?;
        Ok(Asked {
            alloc,
            answers,
            shelf,
            faults,
            kept,
        })
    }

    /// The answers, the shelf, and for each answer why the text of its file has no pieces.
    pub(crate) fn into_parts(self) -> (Answers, IndexedShelf, Vec<Option<TextFault>>)
        ensures answers { result.0 ≡ self.seen }
        ensures shelf { result.1.files ≡ self.shelf }
        ensures shelved { AreShelved 0 result.0 result.1.files }
        ensures faults { AreFaults 0 result.0 result.2.items }
        ensures short { AreShort result.0 }
    {
        (self.answers, self.shelf, self.faults)
    }
}
