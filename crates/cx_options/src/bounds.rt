//! The bounds of a command line.
ghost use Rattle.std.specs.Prelude.{◌≡◌};
ghost use Rattle.std.specs.List.{list_all};
ghost use Rattle.cx_options.specs.Limits.{are_in_bounds, is_in_bounds};

use cx_base::Path;

/// The most words, and the most bytes of a word.
const MOST_WORDS: usize = 4_294_967_294;

fn is_in_bounds(word: &Path) -> bool
    ensures { result ≡ is_in_bounds word.now }
{
    word.len() <= MOST_WORDS
}

fn each_is_in_bounds(words: &[Path]) -> bool
    ensures { result ≡ list_all is_in_bounds words.now }
{
    words.iter().all(|word| is_in_bounds(word))
}

/// Whether words are as few and as short as [`options`](crate::options) asks: at most
/// 4,294,967,294 of them, and as many bytes in each.
pub fn are_in_bounds(words: &[Path]) -> bool
    ensures { result ≡ are_in_bounds words.now }
{
    words.len() <= MOST_WORDS && each_is_in_bounds(words)
}
