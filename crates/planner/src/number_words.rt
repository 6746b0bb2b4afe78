//! Numbers in words of the command line.

ghost use Rattle.std.specs.Prelude.{◌≡◌, ◌≤◌, IfSome};
ghost use Rattle.planner.specs.Commands.{number_in};

use plan_model::{MOST_MARKS, is_number, natural};

/// The number of marks of a slice that a word says; `None` if it says none from 1 to `MOST_MARKS`.
pub fn slice_in(word: &str) -> Option<u32>
    ensures value { result ≡ number_in 1 MOST_MARKS word.now }
    ensures some { IfSome result (λ slice. 1 ≤ slice) }
{
    number_in(word.as_bytes(), 1, MOST_MARKS)
}

/// The number that a word stands for, if it is one from `least` to `most`.
pub(crate) fn number_in(word: &[u8], least: u32, most: u32) -> Option<u32>
    ensures value { result ≡ number_in least most word.now }
    ensures least { IfSome result (λ number. least ≤ number) }
    ensures most { IfSome result (λ number. number ≤ most) }
{
    if !is_number(word) {
        return None;
    }
    let number = natural(word, u64::from(least), u64::from(most))?;
    Some(number as u32)
}
