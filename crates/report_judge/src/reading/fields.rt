//! The parts of a report's lines: words that are known, and numbers.

ghost use Rattle.std.specs.Prelude.{◌≡◌, ◌++◌, ◌∷◌, ◌%◌, ◌^◌, ◌<◌, ◌≤◌, ℕ, List, IfNone, IfSome, decimal, length, take, true};
ghost use Rattle.std.specs.List.{list_all, prefix_len};
ghost use Rattle.plan_model.specs.Texts.TextLines.{is_digit, magnitude};
ghost use Rattle.report_judge.specs.Texts.ReportLines.{field};

use crate::reading::number_words::number_up_to;

/// A number up to a greatest one, after a known word and before the byte that ends it, and what stands after that byte; `None` exactly
/// if the text does not begin so. The byte is no digit. O(n) for n bytes up to it.
#[inline(always)]
pub(crate) fn read_field<'a>(
    text: &'a [u8],
    word: &[u8],
    end: u8,
    most: u64,
) -> Option<(u64, &'a [u8])>
    requires end { end < 48 }
    ensures some { IfSome result (λ found. (found.0 ≤ most) × (text.now ≡ field word.now found.0 end found.1.now)) }
    ensures only { IfSome result (λ found. (n : ℕ) (after : List ℕ) → n ≤ most → text.now ≡ field word.now n end after
        → (found.0 ≡ n) × (found.1.now ≡ after)) }
    ensures none { IfNone result ((n : ℕ) (after : List ℕ) → n ≤ most → ¬ (text.now ≡ field word.now n end after)) }
{
    let rest = after(text, word)?;
    let (number, rest) = read_number(rest, end, most)?;
    Some((number, rest))
}

/// What stands after a known word; `None` exactly if the text does not begin with it. O(n) for n bytes of the word.
#[inline(always)]
pub(crate) fn after<'a>(text: &'a [u8], word: &[u8]) -> Option<&'a [u8]>
    ensures some { IfSome result (λ rest. text.now ≡ word.now ++ rest.now) }
    ensures none { IfNone result ((rest : List ℕ) → ¬ (text.now ≡ word.now ++ rest)) }
{
    text.strip_prefix(word)
}

/// A number up to a greatest one, before the byte that ends it, and what stands after that byte; `None` exactly if the text does not
/// begin so. The byte is no digit. O(n) for n bytes up to it.
fn read_number(text: &[u8], end: u8, most: u64) -> Option<(u64, &[u8])>
    requires end { end < 48 }
    ensures some { IfSome result (λ found. (found.0 ≤ most) × (text.now ≡ decimal found.0 ++ end ∷ found.1.now)) }
    ensures none { IfNone result ((n : ℕ) (after : List ℕ) → n ≤ most → ¬ (text.now ≡ decimal n ++ end ∷ after)) }
{
    let (digits, remainder) = read_digits(text);
    if digits == text.len() {
        return None;
    }
    if text[digits] != end {
        return None;
    }
    let number = number_up_to(&text[..digits], remainder, most)?;
    Some((number, &text[digits + 1..]))
}

/// How many digits a text begins with, and the number that they stand for, modulo 2^64.
fn read_digits(text: &[u8]) -> (usize, u64)
    ensures count { result.0 ≡ prefix_len is_digit text.now }
    ensures within { result.0 ≤ length text.now }
    ensures digital { list_all is_digit (take result.0 text.now) ≡ true }
    ensures remainder { result.1 ≡ magnitude (take result.0 text.now) % 2 ^ 64 }
{
    let mut remainder = 0u64;
    let mut place = 0;
    while place < text.len() {
        let digit = text[place].wrapping_sub(b'0');
        if digit > 9 {
            return (place, remainder);
        }
        remainder = remainder.wrapping_mul(10).wrapping_add(u64::from(digit));
        place += 1;
    }
    (place, remainder)
}
