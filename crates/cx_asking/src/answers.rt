//! Answers, found by their paths.
ghost use Rattle.std.specs.Prelude.{◌≡◌, ◌++◌, [], ◌∷◌, None, IfOk, OnOk, unwrap_or};
ghost use Rattle.std.specs.Prelude.{bytes_eq, length, position};
ghost use Rattle.std.specs.Option.{option_copied};
ghost use Rattle.cx_table.specs.NameTable.{with_entry};
ghost use Rattle.cx_asking.specs.Shapes.Asks.{is_known};
ghost use Rattle.cx_base.specs.declared.answers.Answer.TheVariants.{Absent};
ghost use Rattle.cx_asking.specs.Wishes.{answer_for, entries_among, entries_of, folders_in};
ghost use Rattle.cx_asking.specs.Wishes.{is_folder, look_up, up_to_folder};

use crate::purpose::Purpose;
use cx_base::{Answer, Entry, List, NoMemory, Path, Seen, SeenEntry, Text};
use cx_table::{NameKey, NameTable};
use std::alloc::Global;
use std::marker::Model;

/// Each path that was asked, with its answer, in order. Contracts see the list.
#[derive(Drop)]
pub struct Answers {
    alloc: Global,
    seen: Seen,
    // the paths of what was seen, in order
    paths: NameTable<()>,
    // for each folder how many entries there are up to it
    folders: Vec<usize>,
}

impl Model for Answers {
    ghost use Rattle.std.specs.Prelude.{List};
    ghost use Rattle.cx_base.specs.declared.answers.SeenEntry.{SeenEntry};
    ghost use Rattle.cx_asking.specs.Shapes.Indexed.{IsIndexed};

    ghost Value = { List SeenEntry };

    ghost view = { λ a. a.seen };

    ghost invariant = { λ a. IsIndexed a.seen a.paths a.folders.items };
}

/// Adds a path to others.
fn add(alloc: Global, paths: &mut NameTable<()>, path: &Path) -> Result<(), NoMemory>
    ensures { OnOk result (paths.new ≡ with_entry path.now tt paths.old) }
{
    let path = Text::from_slice(alloc, path.as_bytes())?;
    paths.insert(path, ())?;
    Ok(())
}

/// The members of an answer that is a folder.
pub(crate) fn entries_of(answer: Option<&Answer>) -> &[Entry]
    ensures { result.now ≡ entries_of (option_copied answer.entry) }
{
    match answer {
        Some(Answer::Folder(entries)) => entries.as_slice(),
        _ => &[],
    }
}

/// Whether an answer is a folder.
fn is_folder(answer: &Answer) -> bool
    ensures { result ≡ is_folder answer.now }
{
    matches!(answer, Answer::Folder(_))
}

impl Answers {
    /// No answers. The paths to come are hashed under this key.
    pub fn new(alloc: Global, key: NameKey) -> Answers
        ensures { result ≡ [] }
    {
        Answers {
            alloc,
            seen: List::new(alloc),
            paths: NameTable::new(alloc, key),
            folders: Vec::new(alloc),
        }
    }

    /// The entries, in the order in which they were asked.
    pub fn as_slice(&self) -> &[SeenEntry]
        ensures { result.now ≡ self.now }
    {
        self.seen.as_slice()
    }

    /// The entries, as a list.
    pub fn into_seen(self) -> Seen
        ensures { result ≡ self }
    {
        self.seen
    }

    /// The number of the entry of a path.
    pub fn number_of(&self, path: &Path) -> Option<usize>
        ensures { result ≡ position (λ e. bytes_eq e.path path.now) self.now }
    {
        self.paths.index_of(path.as_bytes())
    }

    /// The answer of a path, where it was asked.
    #[tactic(auto, using(crate::proofs::IndexLaws::no_answer))]
    pub fn get(&self, path: &Path) -> Option<&Answer>
        ensures { option_copied result ≡ look_up self.now path.now }
    {
        let Some(index) = self.paths.index_of(path.as_bytes()) else {
            return None;
        };
        match self.seen.as_slice().get(index) {
            Some(entry) => Some(&entry.answer),
            None => None,
        }
    }

    /// Whether a path was asked.
    pub(crate) fn is_known(&self, path: &Path) -> bool
        ensures { result ≡ is_known self.now path.now }
    {
        self.get(path).is_some()
    }

    /// How many answers are folders.
    pub(crate) fn folder_count(&self) -> usize
        ensures { result ≡ length (folders_in self.now) }
    {
        self.folders.as_slice().len()
    }

    /// How many entries there are up to the folder of a number, counted from 1.
    fn count_up_to(&self, most: usize) -> usize
        ensures { result ≡ length (up_to_folder most self.now) }
    {
        if most == 0 {
            return 0;
        }
        match self.folders.get(most - 1) {
            Some(count) => *count,
            None => self.seen.as_slice().len(),
        }
    }

    /// The answer of a path, where it was asked up to the folder of a number, counted from 1.
    pub(crate) fn early(&self, most: usize, path: &Path) -> Option<&Answer>
        ensures { option_copied result ≡ look_up (up_to_folder most self.now) path.now }
    {
        match self.number_of(path) {
            Some(number) if number < self.count_up_to(most) => self.get(path),
            _ => None,
        }
    }

    /// The members of a subfolder, where it was asked up to the folder of that number.
    pub(crate) fn entries_among(&self, most: usize, path: &Path) -> &[Entry]
        ensures { result.now ≡ entries_among most self.now path.now }
    {
        entries_of(self.early(most, path))
    }

    /// The answer by which a path that was wanted makes a unit.
    pub(crate) fn answer_for(&self, most: usize, purpose: Purpose, path: &Path) -> Option<&Answer>
        ensures { unwrap_or (option_copied result) Absent
            ≡ answer_for most self.now purpose path.now }
    {
        match purpose {
            Purpose::Folder => self.early(most, path),
            _ => self.get(path),
        }
    }

    /// The answers with that of a path that was not asked, at the end.
    pub(crate) fn with(self, path: Path, answer: Answer) -> Result<Answers, NoMemory>
        requires { look_up self path ≡ None }
        ensures { IfOk result (λ a. a ≡ self ++ record { path = path; answer = answer } ∷ []) }
    {
        let Answers {
            alloc,
            mut seen,
            mut paths,
            mut folders,
        } = self;
        add(alloc, &mut paths, &path)?;
        let folder = is_folder(&answer);
        seen.push(SeenEntry { path, answer })?;
        if folder {
            folders.push(seen.as_slice().len())?;
        }
        Ok(Answers {
            alloc,
            seen,
            paths,
            folders,
        })
    }
}
