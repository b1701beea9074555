//! The messages of findings.
ghost use Rattle.std.specs.Prelude.{◌≡◌, ◌++◌, OnOk, codes};
ghost use Rattle.std.specs.Fmt.{signed_decimal};
ghost use Rattle.cx_finding.specs.Texts.{message, word_at, word_text};

use cx_base::{Bytes, Id, NoMemory, Word};
use itoa::Buffer;

/// Adds a word.
fn push_word(line: &mut Bytes, word: &Word) -> Result<(), NoMemory>
    ensures { OnOk result (line.new ≡ line.old ++ word_text word.now) }
{
    match word {
        Word::Text(text) => line.push_all(text.as_slice()),
        Word::Number(number) => {
            let mut buffer = Buffer::new();
            line.push_all(buffer.format(*number).as_bytes())
        }
    }
}

/// Adds the word of a number, where there is one.
#[tactic(auto, unfolding(crate::specs::Texts::word_at))]
fn push_word_at(line: &mut Bytes, words: &[Word], number: usize) -> Result<(), NoMemory>
    ensures { OnOk result (line.new ≡ line.old ++ word_at words.now number) }
{
    match words.get(number) {
        Some(word) => push_word(line, word),
        None => Ok(()),
    }
}

/// Adds a front, the first word and a back.
fn push_about(line: &mut Bytes, front: &[u8], words: &[Word], back: &[u8]) -> Result<(), NoMemory>
    ensures { OnOk result (line.new ≡ line.old ++ (front.now ++ word_at words.now 0 ++ back.now)) }
{
    line.push_all(front)?;
    push_word_at(line, words, 0)?;
    line.push_all(back)?;
    Ok(())
}

/// Adds what is told of a limit that was passed.
fn push_limit(line: &mut Bytes, words: &[Word]) -> Result<(), NoMemory>
    ensures { OnOk result (line.new ≡ line.old ++ (codes "Limit reached: " ++ word_at words.now 0
        ++ codes " " ++ word_at words.now 1 ++ codes ", counted " ++ word_at words.now 2
        ++ codes ".")) }
{
    line.push_all(b"Limit reached: ")?;
    push_word_at(line, words, 0)?;
    line.push_all(b" ")?;
    push_word_at(line, words, 1)?;
    line.push_all(b", counted ")?;
    push_word_at(line, words, 2)?;
    line.push_all(b".")?;
    Ok(())
}

/// Adds the message of a finding.
#[tactic(auto, unfolding(crate::specs::Texts::message))]
pub(crate) fn push_message(line: &mut Bytes, id: Id, words: &[Word]) -> Result<(), NoMemory>
    ensures { OnOk result (line.new ≡ line.old ++ message id words.now) }
{
    match id {
        Id::UninitVar => push_about(line, b"Uninitialized variable: ", words, b""),
        Id::ZeroDiv => line.push_all(b"Division by zero."),
        Id::IntegerOverflow => push_about(
            line,
            b"Signed integer overflow for expression '",
            words,
            b"'.",
        ),
        Id::SyntaxError => push_about(line, b"syntax error: ", words, b""),
        Id::PreprocessorErrorDirective => push_about(line, b"#error ", words, b""),
        Id::UnitLimit => push_limit(line, words),
        Id::ReadFault => push_about(line, b"File could not be read: ", words, b""),
        Id::MissingInclude => push_about(line, b"Include file: \"", words, b"\" not found."),
        Id::MissingIncludeSystem => push_about(line, b"Include file: <", words, b"> not found."),
        _ => Ok(()),
    }
}
