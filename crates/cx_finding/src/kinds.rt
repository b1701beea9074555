//! The findings of files and configurations.
ghost use Rattle.std.specs.Prelude.{◌≡◌, [], ◌∷◌, IfOk};
ghost use Rattle.cx_finding.specs.Kinds as meaning;

use cx_base::{Finding, Id, List, NoMemory, Path, Place, Text, Word};
use std::alloc::Global;

/// The words of a message that is about one text.
fn one_word(alloc: Global, text: Text) -> Result<List<Word>, NoMemory>
    ensures { IfOk result (λ words. words ≡ Word.Text text ∷ []) }
{
    let mut words = List::new(alloc);
    words.push(Word::Text(text))?;
    Ok(words)
}

/// A finding at a place.
fn finding(alloc: Global, id: Id, place: Place, words: List<Word>) -> Finding
    ensures { result ≡ meaning.finding id place words }
{
    Finding {
        id,
        severity: id.severity(),
        place,
        others: List::new(alloc),
        words,
    }
}

/// A text that does not read, for a reason such as `unclosed comment`.
pub fn syntax_error(alloc: Global, reason: &[u8], at: Place) -> Result<Finding, NoMemory>
    ensures { IfOk result (λ f. f ≡ meaning.syntax_error reason.now at) }
{
    let words = one_word(alloc, Text::from_slice(alloc, reason)?)?;
    Ok(finding(alloc, Id::SyntaxError, at, words))
}

/// A limit of the checker that was passed: its name, the most that it allows, and the first number
/// past it that was counted.
pub fn limit_passed(
    alloc: Global,
    limit: &[u8],
    most: u64,
    counted: u64,
    at: Place,
) -> Result<Finding, NoMemory>
    ensures { IfOk result (λ f. f ≡ meaning.limit_passed limit.now most counted at) }
{
    let mut words = one_word(alloc, Text::from_slice(alloc, limit)?)?;
    words.push(Word::Number(i128::from(most)))?;
    words.push(Word::Number(i128::from(counted)))?;
    Ok(finding(alloc, Id::UnitLimit, at, words))
}

/// A file that could not be read. It has no line: the finding stands at line 0 and column 0 of the
/// unit's file, which has that number.
pub fn read_fault(alloc: Global, path: &Path, unit: u32) -> Result<Finding, NoMemory>
    ensures { IfOk result (λ f. f ≡ meaning.read_fault path.now unit) }
{
    let words = one_word(alloc, Text::from_slice(alloc, path.as_bytes())?)?;
    let at = Place {
        file: unit,
        line: 0,
        column: 0,
    };
    Ok(finding(alloc, Id::ReadFault, at, words))
}

/// A directive `error` with the text behind it, at its `#` (C11 6.10.5).
pub fn error_directive(alloc: Global, text: Text, at: Place) -> Result<Finding, NoMemory>
    ensures { IfOk result (λ f. f ≡ meaning.error_directive text at) }
{
    let words = one_word(alloc, text)?;
    Ok(finding(alloc, Id::PreprocessorErrorDirective, at, words))
}

/// An include that leads to no file, at its name, which stands between `"` or between `<` and `>`.
pub fn missing_include(
    alloc: Global,
    name: &Text,
    quoted: bool,
    at: Place,
) -> Result<Finding, NoMemory>
    ensures { IfOk result (λ f. f ≡ meaning.missing_include name.now quoted at) }
{
    let words = one_word(alloc, name.copy()?)?;
    let id = if quoted {
        Id::MissingInclude
    } else {
        Id::MissingIncludeSystem
    };
    Ok(finding(alloc, id, at, words))
}
