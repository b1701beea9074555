//! What two findings have to share to be told once.
ghost use Rattle.std.specs.Prelude.{◌≡◌, IfOk, map};
ghost use Rattle.std.specs.List.{AllZip};
ghost use Rattle.cx_finding.specs.Distinct.{number_of};
ghost use Rattle.cx_finding.specs.Shapes.Keys as keys;

use cx_base::{Finding, Id, NoMemory, Place, Word};
use std::alloc::Global;

/// A place: the number of its file, its line and its column.
pub type PlaceKey = (u32, u32, u32);

/// A word of a message.
#[derive(PartialEq, Eq, Hash, Drop)]
pub enum WordKey {
    Text(Vec<u8>),
    Number(i128),
}

/// The kind, the places and the words of a finding.
#[derive(PartialEq, Eq, Hash, Drop)]
pub struct FindingKey {
    /// The number of its kind, counted from 1.
    pub kind: u8,
    pub place: PlaceKey,
    pub others: Vec<PlaceKey>,
    pub words: Vec<WordKey>,
}

/// The number of a kind, counted from 1.
fn number_of(id: Id) -> u8
    ensures { result ≡ number_of id }
{
    match id {
        Id::UninitVar => 1,
        Id::DeallocUse => 2,
        Id::DoubleFree => 3,
        Id::NullPointer => 4,
        Id::MismatchAllocDealloc => 5,
        Id::AutovarInvalidDeallocation => 6,
        Id::ArrayIndexOutOfBounds => 7,
        Id::PointerOutOfBounds => 8,
        Id::StringLiteralWrite => 9,
        Id::ConstWrite => 10,
        Id::ZeroDiv => 11,
        Id::ShiftNegative => 12,
        Id::ShiftTooManyBits => 13,
        Id::ShiftNegativeLhs => 14,
        Id::IntegerOverflow => 15,
        Id::InvalidFunctionArg => 16,
        Id::KnownConditionTrueFalse => 17,
        Id::NullPointerRedundantCheck => 18,
        Id::ZeroDivCond => 19,
        Id::ArrayIndexOutOfBoundsCond => 20,
        Id::IgnoredReturnValue => 21,
        Id::CtuNullPointer => 22,
        Id::SyntaxError => 23,
        Id::PreprocessorErrorDirective => 24,
        Id::UnitLimit => 25,
        Id::ReadFault => 26,
        Id::ValueFlowBailout => 27,
        Id::MissingInclude => 28,
        Id::MissingIncludeSystem => 29,
        Id::UnmatchedSuppression => 30,
        Id::MemLeak => 31,
    }
}

fn place_key(place: Place) -> PlaceKey
    ensures { result ≡ keys.place_key place }
{
    (place.file, place.line, place.column)
}

fn word_key(alloc: Global, word: &Word) -> Result<WordKey, NoMemory>
    ensures { IfOk result (keys.IsWordKey word.now) }
{
    match word {
        Word::Text(text) => Ok(WordKey::Text(Vec::from_slice(alloc, text.as_slice())?)),
        Word::Number(number) => Ok(WordKey::Number(*number)),
    }
}

fn place_keys(alloc: Global, places: &[Place]) -> Result<Vec<PlaceKey>, NoMemory>
    ensures { IfOk result (λ ks. ks.items ≡ map keys.place_key places.now) }
{
    let mut keys = Vec::new(alloc);
    for place in places {
        keys.push(place_key(*place))?;
    }
    Ok(keys)
}

fn word_keys(alloc: Global, words: &[Word]) -> Result<Vec<WordKey>, NoMemory>
    ensures { IfOk result (λ ks. AllZip keys.IsWordKey words.now ks.items) }
{
    let mut keys = Vec::new(alloc);
    for word in words {
        keys.push(word_key(alloc, word)?)?;
    }
    Ok(keys)
}

/// The kind, the places and the words of a finding.
pub fn key_of(alloc: Global, finding: &Finding) -> Result<FindingKey, NoMemory>
    ensures { IfOk result (keys.IsKeyOf finding.now) }
{
    Ok(FindingKey {
        kind: number_of(finding.id),
        place: place_key(finding.place),
        others: place_keys(alloc, finding.others.as_slice())?,
        words: word_keys(alloc, finding.words.as_slice())?,
    })
}
