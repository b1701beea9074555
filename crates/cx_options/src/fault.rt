//! Why words are refused.
ghost use Rattle.std.specs.Prelude.{◌≡◌, IfOk};
ghost use Rattle.cx_options.specs.Shapes.Telling.{text_after, text_before};
ghost use Rattle.cx_options.specs.Texts.{refusal_text};

use cx_base::{Bytes, NoMemory};
use std::alloc::Global;
use thiserror::Error;

/// Why a word of the command line is refused.
#[derive(Clone, Copy, Debug, PartialEq, Eq)]
pub enum WordKind {
    /// It is no option and no path.
    Unknown,
    /// It is an option whose argument is in the next word, and is the last one.
    MissingValue,
    /// Its argument is no number, or none in range.
    BadNumber,
    /// Its argument is not the name of a macro.
    BadName,
    /// Its argument is another than those permitted.
    BadValue,
    /// Its argument is no template.
    BadTemplate,
    /// Its argument is no suppression.
    BadSpec,
    /// It has one suppression too many.
    TooMany,
}

/// Why words have no options.
#[derive(Clone, Copy, Debug, PartialEq, Eq, Error)]
pub enum WordFault {
    /// A word is refused, and none before it.
    #[error("word {word} of the command line is refused")]
    Bad {
        /// Its number, counted from 0.
        word: u32,
        kind: WordKind,
    },
    #[error("memory ran out")]
    NoMemory,
}

impl From<NoMemory> for WordFault {
    ghost use Rattle.std.specs.Prelude.{◌≡◌};
    ghost use Rattle.cx_options.specs.declared.fault.WordFault.TheVariants.{NoMemory as no_memory};

    ghost from_gives = { λ _ fault. fault ≡ no_memory };

    fn from(_error: NoMemory) -> WordFault {
        WordFault::NoMemory
    }
}

impl WordKind {
    // What is told before a refused word.
    fn before(self) -> &'static str
        ensures { result.now ≡ text_before self }
    {
        match self {
            WordKind::Unknown => "unrecognized command line option: \"",
            WordKind::MissingValue | WordKind::BadNumber => "argument to \"",
            WordKind::BadName => "\"",
            WordKind::BadValue => "argument of \"",
            WordKind::BadTemplate => "template in \"",
            WordKind::BadSpec => "suppression in \"",
            WordKind::TooMany => "too many suppressions at \"",
        }
    }

    // What is told behind it.
    fn after(self) -> &'static str
        ensures { result.now ≡ text_after self }
    {
        match self {
            WordKind::Unknown | WordKind::TooMany => "\".",
            WordKind::MissingValue => "\" is missing.",
            WordKind::BadNumber => "\" is not a number in range.",
            WordKind::BadName => "\" does not name a macro.",
            WordKind::BadValue => "\" is not one of the permitted values.",
            WordKind::BadTemplate | WordKind::BadSpec => "\" is refused.",
        }
    }
}

/// A refused word, with why it is refused.
#[derive(Debug, Drop, Error)]
#[error("{before}{word}{after}", before = .kind.before(), after = .kind.after())]
pub struct Refusal<'w> {
    pub kind: WordKind,
    pub word: &'w str,
}

impl<'w> Refusal<'w> {
    /// What is told of the word, behind `cppcheck: error: `.
    #[tactic(auto, using(crate::proofs::TextLaws::refusal_text_parts))]
    pub fn text(&self, alloc: Global) -> Result<Bytes, NoMemory>
        ensures { IfOk result (λ text. text ≡ refusal_text self.now.kind self.now.word.now) }
    {
        let mut text = Bytes::new(alloc);
        text.push_all(self.kind.before().as_bytes())?;
        text.push_all(self.word.as_bytes())?;
        text.push_all(self.kind.after().as_bytes())?;
        Ok(text)
    }
}
