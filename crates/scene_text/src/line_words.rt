//! The words of a line, counted and tested.

ghost use Rattle.std.specs.Prelude.{◌≡◌, length};
ghost use Rattle.std.specs.List.{list_all};
ghost use Rattle.plan_model.specs.Texts.TextLines.{words_of, is_number};

use plan_model::{is_number, next_word};

/// The words of a line, counted and tested.
pub(crate) struct WordCount {
    /// How many words there are.
    pub(crate) count: usize,
    /// Whether each of them is a number.
    pub(crate) are_numbers: bool,
}

/// How many words a line has, and whether each of them is a number.
pub(crate) fn count_words(line: &[u8]) -> WordCount
    ensures count { result.count ≡ length (words_of line.now) }
    ensures numbers { result.are_numbers ≡ list_all is_number (words_of line.now) }
{
    let mut count = 0;
    let mut are_numbers = true;
    let mut rest = line;
    while let Some((word, after)) = next_word(rest) {
        count += 1;
        are_numbers = are_numbers && is_number(word);
        rest = after;
    }
    WordCount { count, are_numbers }
}
