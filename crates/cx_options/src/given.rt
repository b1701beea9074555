//! The words, each with the one that it takes along.
ghost use Rattle.std.specs.Prelude.{◌≡◌, ◌+◌, ◌<◌, ◌≤◌, ◌^◌, [], ◌∷◌, length, MatchOption};
ghost use Rattle.cx_options.specs.Spellings.{givens, takes_next};

use crate::spelling::takes_next;
use cx_base::Path;
use std::marker::Model;

/// A word with its number, and the word that it takes along.
#[derive(Drop)]
pub struct Given<'w> {
    pub word: u32,
    pub text: &'w str,
    pub next: Option<&'w str>,
}

impl<'w> Model for Given<'w> {
    ghost use Rattle.std.specs.Prelude.{option_copied};
    ghost use Rattle.cx_options.specs.Spellings.{Given as given};

    ghost Value = { given };

    ghost view = { λ g. record { word = g.word; text = g.text.now; next = option_copied g.next } };
}

/// The words that are left.
#[derive(Drop)]
pub struct Words<'w> {
    rest: &'w [Path],
    // The number of the first of them.
    word: u32,
}

impl<'w> Model for Words<'w> {
    ghost use Rattle.std.specs.Prelude.{◌+◌, ◌<◌, ◌^◌, List, length};
    ghost use Rattle.cx_options.specs.Spellings.{Given as given, givens};

    ghost Value = { List given };

    ghost view = { λ w. givens w.word w.rest.now };

    ghost invariant = { λ w. w.word + length w.rest.now < 2 ^ 32 };
}

// The first word, and those behind it.
fn first(words: &[Path]) -> Option<(&Path, &[Path])>
    ensures { MatchOption result (words.now ≡ []) (λ x. words.now ≡ x.0.now ∷ x.1.now) }
{
    match words {
        [] => None,
        [word, rest @ ..] => Some((word, rest)),
    }
}

// A word with a number, with the one that it takes along from those behind it, and what is left.
#[tactic(auto, using(crate::proofs::SpellingLaws::givens_laws))]
fn first_given<'w>(word: u32, text: &'w Path, rest: &'w [Path]) -> (Given<'w>, Words<'w>)
    requires { word + 1 + length rest.now < 2 ^ 32 }
    ensures { givens word (text.now ∷ rest.now) ≡ result.0 ∷ result.1 }
{
    let text = text.as_str();
    if takes_next(text) {
        if let Some((next, behind)) = first(rest) {
            return (
                Given {
                    word,
                    text,
                    next: Some(next.as_str()),
                },
                Words {
                    rest: behind,
                    word: word + 2,
                },
            );
        }
    }
    (
        Given {
            word,
            text,
            next: None,
        },
        Words {
            rest,
            word: word + 1,
        },
    )
}

impl<'w> Words<'w> {
    /// All words.
    pub fn new(words: &'w [Path]) -> Words<'w>
        requires { length words.now ≤ 4294967294 }
        ensures { result ≡ givens 0 words.now }
    {
        Words {
            rest: words,
            word: 0,
        }
    }

    /// Passes the first word, and the one that it takes along.
    #[tactic(auto, using(crate::proofs::SpellingLaws::givens_laws))]
    pub fn next(&mut self) -> Option<Given<'w>>
        ensures { MatchOption result (self.old ≡ []) (λ g. self.old ≡ g ∷ self.new) }
    {
        let (text, rest) = first(self.rest)?;
        let (given, words) = first_given(self.word, text, rest);
        *self = words;
        Some(given)
    }
}
