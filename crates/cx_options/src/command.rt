//! The command line.
ghost use Rattle.std.specs.Prelude.{◌≡◌, ◌⊎◌, ◌<◌, ℕ, Ok, Err, IfOk, IsTrue, length};
ghost use Rattle.cx_options.specs.declared.answer.Options.{Options as options_type};
ghost use Rattle.cx_options.specs.declared.fault.WordFault.TheVariants.{Bad, NoMemory};
ghost use Rattle.cx_options.specs.declared.fault.WordKind.{WordKind as kind_type};
ghost use Rattle.cx_options.specs.Answers.{Answers};
ghost use Rattle.cx_options.specs.Command.{Refused, command};
ghost use Rattle.cx_options.specs.Limits.{are_in_bounds};

use crate::answer::Options;
use crate::fault::WordFault;
use crate::given::Words;
use crate::setting::asked;
use cx_base::Path;
use std::alloc::Global;

// Reads the words from left to right.
#[tactic(auto, using(crate::proofs::ReadingLaws::reading_laws))]
fn read(alloc: Global, words: &[Path]) -> Result<Options, WordFault>
    requires { IsTrue (are_in_bounds words.now) }
    ensures { Answers (command words.now) result }
{
    let mut options = Options::new(alloc);
    let mut left = Words::new(words);
    while let Some(given) = left.next() {
        match asked(alloc, &given)? {
            Ok(setting) => options.take(setting)?,
            Err(kind) => {
                return Err(WordFault::Bad {
                    word: given.word,
                    kind,
                });
            }
        }
    }
    Ok(options)
}

/// Reads the words of the command line: the options, or the first word that is refused.
///
/// There are at most 4,294,967,294 words, of at most as many bytes each.
#[tactic(auto, using(crate::proofs::CommandLaws::command_within))]
pub fn options(alloc: Global, words: &[Path]) -> Result<Options, WordFault>
    requires { IsTrue (are_in_bounds words.now) }
    ensures ok { IfOk result (λ o. command words.now ≡ Ok o) }
    ensures bad { (word : ℕ) (kind : kind_type) → result ≡ Err (Bad word kind)
        → command words.now ≡ Err (record { word = word; kind = kind }) }
    ensures within { (word : ℕ) (kind : kind_type) → result ≡ Err (Bad word kind)
        → word < length words.now }
    ensures only_ok { (o : options_type) → command words.now ≡ Ok o
        → (result ≡ Ok o) ⊎ (result ≡ Err NoMemory) }
    ensures only_bad { (refused : Refused) → command words.now ≡ Err refused
        → (result ≡ Err (Bad refused.word refused.kind)) ⊎ (result ≡ Err NoMemory) }
{
    read(alloc, words)
}
