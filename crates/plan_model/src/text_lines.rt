//! The lines of a text, and the words of a line, one after another.

ghost use Rattle.std.specs.Prelude.{◌≡◌, ◌==◌, ◌<◌, ◌≤◌, [], ◌∷◌, length, IfNone, IfSome};
ghost use Rattle.std.specs.List.{position_or_len, prefix_len};
ghost use Rattle.plan_model.specs.Texts.TextLines.{lines_of, words_of};

/// The byte that ends a line.
const LINE_FEED: u8 = b'\n';

/// The byte that stands between words.
const BLANK: u8 = b' ';

/// How many bytes stand before the first byte `separator`, or in all if there is none.
fn count_before(bytes: &[u8], separator: u8) -> usize
    ensures place { result ≡ position_or_len (λ b. b == separator) bytes.now }
    ensures within { result ≤ length bytes.now }
{
    bytes.iter().take_while(|byte| **byte != separator).count()
}

/// How many blanks a line begins with.
fn count_blanks(line: &[u8]) -> usize
    ensures count { result ≡ prefix_len (λ b. b == 32) line.now }
    ensures within { result ≤ length line.now }
{
    line.iter().take_while(|byte| **byte == BLANK).count()
}

/// The first line of a text, and what stands after its line feed; none if the text is empty. O(n) for n bytes of the line.
pub fn next_line(text: &[u8]) -> Option<(&[u8], &[u8])>
    ensures none { IfNone result (text.now ≡ []) }
    ensures some { IfSome result (λ found. lines_of text.now ≡ found.0.now ∷ lines_of found.1.now) }
    ensures shorter { IfSome result (λ found. length found.1.now < length text.now) }
{
    if text.is_empty() {
        return None;
    }
    let (line, after) = text.split_at(count_before(text, LINE_FEED));
    match after {
        [_, rest @ ..] => Some((line, rest)),
        [] => Some((line, after)),
    }
}

/// The first word of a line, and what stands after it; none if the line has no word. O(n) for n bytes up to its end.
pub fn next_word(line: &[u8]) -> Option<(&[u8], &[u8])>
    ensures none { IfNone result (words_of line.now ≡ []) }
    ensures some { IfSome result (λ found. words_of line.now ≡ found.0.now ∷ words_of found.1.now) }
    ensures shorter { IfSome result (λ found. length found.1.now < length line.now) }
{
    let words = &line[count_blanks(line)..];
    if words.is_empty() {
        return None;
    }
    Some(words.split_at(count_before(words, BLANK)))
}
