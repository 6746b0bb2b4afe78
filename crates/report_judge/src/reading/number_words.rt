//! The numbers in a line of a report.

ghost use Rattle.std.specs.Prelude.{◌≡◌, ◌%◌, ◌^◌, ℕ, ◌≤◌, IfNone, IfSome, decimal, true};
ghost use Rattle.std.specs.List.{list_all};
ghost use Rattle.plan_model.specs.Texts.TextLines.{is_digit, magnitude};

use plan_model::{is_number, natural};

/// So many digits stand for a number below 2^64, whichever they are.
const FITTING_DIGITS: usize = 19;

/// The number up to a greatest that digits are in decimal, without leading zeros; `None` exactly if they are none. `remainder` is what they
/// stand for, modulo 2^64. O(1), and O(n) for n digits if they are more than fit 64 bits in any case.
pub(crate) fn number_up_to(digits: &[u8], remainder: u64, most: u64) -> Option<u64>
    requires digital { list_all is_digit digits.now ≡ true }
    requires remainder { remainder ≡ magnitude digits.now % 2 ^ 64 }
    ensures some { IfSome result (λ n. (n ≤ most) × (digits.now ≡ decimal n)) }
    ensures none { IfNone result ((n : ℕ) → n ≤ most → ¬ (digits.now ≡ decimal n)) }
{
    if digits.is_empty() {
        return None;
    }
    if digits[0] == b'0' && digits.len() > 1 {
        return None;
    }
    if digits.len() > FITTING_DIGITS {
        return long_number_up_to(digits, most);
    }
    if remainder > most {
        return None;
    }
    Some(remainder)
}

/// The number up to a greatest that a word is in decimal, without a sign and without leading zeros; `None` exactly if it is none. O(n) for
/// n bytes.
fn long_number_up_to(word: &[u8], most: u64) -> Option<u64>
    ensures some { IfSome result (λ n. (n ≤ most) × (word.now ≡ decimal n)) }
    ensures none { IfNone result ((n : ℕ) → n ≤ most → ¬ (word.now ≡ decimal n)) }
{
    if !is_number(word) {
        return None;
    }
    if word[0] == b'-' {
        return None;
    }
    natural(word, 0, most)
}
