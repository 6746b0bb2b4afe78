//! Words that stand for whole numbers in decimal.

ghost use Rattle.std.specs.Prelude.{◌≡◌, ◌≤◌, ◌+◌, ◌-◌, ◌*◌, ◌^◌, ◌&&◌, false, pos, unsigned_abs, int_le, IfNone, IfSome, IsTrue};
ghost use Rattle.std.specs.List.{list_all};
ghost use Rattle.plan_model.specs.Texts.TextLines.{is_digit, is_positive, is_number as is_number_word, magnitude, value_of};

/// Whether a word is a number: `0`, or digits of which the first is not `0`, and these also after a `-`. A word without a byte
/// is none. O(n) for n bytes.
pub fn is_number(word: &[u8]) -> bool
    ensures { result ≡ is_number_word word.now }
{
    match word {
        b"0" => true,
        [b'-', digits @ ..] => is_positive(digits),
        _ => is_positive(word),
    }
}

/// Whether a word is digits of which the first is not `0`.
fn is_positive(word: &[u8]) -> bool
    ensures { result ≡ is_positive word.now }
{
    match word {
        [b'1'..=b'9', digits @ ..] => are_digits(digits),
        _ => false,
    }
}

/// Whether each byte is a digit.
fn are_digits(bytes: &[u8]) -> bool
    ensures { result ≡ list_all is_digit bytes.now }
{
    bytes.iter().all(|byte| *byte >= b'0' && *byte <= b'9')
}

/// The number that a word stands for, which is a number by [`is_number`]; `None` exactly if it is not one from `least` to
/// `most`, so each below 0 and each past 64 bits. O(n) for n bytes.
pub fn natural(word: &[u8], least: u64, most: u64) -> Option<u64>
    requires { IsTrue (is_number_word word.now) }
    ensures value { IfSome result (λ n. value_of word.now ≡ pos n) }
    ensures within { IfSome result (λ n. (least ≤ n) × (n ≤ most)) }
    ensures outside { IfNone result ((int_le (pos least) (value_of word.now)
        && int_le (value_of word.now) (pos most)) ≡ false) }
{
    if let [b'-', ..] = word {
        return None;
    }
    let number = decimal(word)?;
    (least <= number && number <= most).then_some(number)
}

/// Whole numbers from the least to the greatest.
#[derive(Clone, Copy, Debug)]
pub struct NumberRange {
    /// The least.
    pub least: i32,
    /// The greatest; never negative.
    pub most: u64,
}

/// The whole number that a word stands for, which is a number by [`is_number`]; `None` exactly if it is not in the range. O(n) for n
/// bytes.
pub fn integer(word: &[u8], range: NumberRange) -> Option<i128>
    requires { IsTrue (is_number_word word.now) }
    ensures value { IfSome result (λ z. value_of word.now ≡ z) }
    ensures within { IfSome result (λ z. IsTrue (int_le range.least z && int_le z (pos range.most))) }
    ensures outside { IfNone result ((int_le range.least (value_of word.now) && int_le (value_of word.now) (pos range.most)) ≡ false) }
{
    let number = signed(word)?;
    (i128::from(range.least) <= number && number <= i128::from(range.most)).then_some(number)
}

/// The whole number that a word stands for, if its magnitude is below 2^64.
fn signed(word: &[u8]) -> Option<i128>
    requires { IsTrue (is_number_word word.now) }
    ensures value { IfSome result (λ z. value_of word.now ≡ z) }
    ensures large { IfNone result (2 ^ 64 ≤ unsigned_abs (value_of word.now)) }
{
    if let [b'-', digits @ ..] = word {
        return Some(-i128::from(decimal(digits)?));
    }
    Some(i128::from(decimal(word)?))
}

/// The number that digits stand for, if it is below 2^64.
fn decimal(digits: &[u8]) -> Option<u64>
    requires { IsTrue (list_all is_digit digits.now) }
    ensures value { IfSome result (λ n. n ≡ magnitude digits.now) }
    ensures large { IfNone result (2 ^ 64 ≤ magnitude digits.now) }
{
    let mut number = 0;
    for digit in digits {
        number = with_digit(number, *digit)?;
    }
    Some(number)
}

/// A number with one more digit after it, if that is below 2^64.
fn with_digit(number: u64, digit: u8) -> Option<u64>
    requires { 48 ≤ digit }
    ensures value { IfSome result (λ n. n ≡ 10 * number + (digit - 48)) }
    ensures large { IfNone result (2 ^ 64 ≤ 10 * number + (digit - 48)) }
{
    number.checked_mul(10)?.checked_add(u64::from(digit - b'0'))
}
