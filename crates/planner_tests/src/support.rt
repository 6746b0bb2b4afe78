//! What the tests of several modules share: words as a call is given them, bytes as the text that they spell, and values
//! that memory lasts for.

ghost use Rattle.std.specs.Prelude.{◌≡◌, Ok};

use plan_model::{MemSink, Memory};
use std::alloc::Global;
use std::process::Abort;

/// What was made, for which memory lasts. A test ends here if none is left, so that no value is dropped on the way.
pub fn sure<R: Abort, T>(rt: &R, made: Result<T, Memory>) -> T
    ensures { made ≡ Ok result }
{
    match made {
        Ok(value) => value,
        Err(_) => panic!(rt; "no memory"),
    }
}

/// Compares two texts of a call for these words, and says what they show if they differ.
pub fn expect_text<R: Abort>(rt: &R, words: &[&str], text: &str, want: &str, shows: &str) {
    assert!(rt; text == want, "{shows}: {words:?}");
}

/// Compares two numbers.
pub fn expect_number<R: Abort>(rt: &R, number: u64, want: u64, shows: &str) {
    assert!(rt; number == want, "{shows}: {number}");
}

/// Compares whether this holds.
pub fn expect_that<R: Abort>(rt: &R, holds: bool, shows: &str) {
    assert!(rt; holds, "{shows}");
}

/// This text in memory of its own.
pub fn copied(alloc: Global, text: &str) -> Result<String, Memory> {
    let copy = String::from_str(alloc, text)?;
    Ok(copy)
}

/// Adds to a text.
pub fn push_text(text: &mut String, more: &str) -> Result<(), Memory> {
    text.push_str(more)?;
    Ok(())
}

/// Adds a word to those that a call is given.
fn push_word(alloc: Global, given: &mut Vec<String>, word: &str) -> Result<(), Memory> {
    let word = copied(alloc, word)?;
    given.push(word)?;
    Ok(())
}

/// These words as a call is given them.
pub fn given_words<R: Abort>(rt: &R, alloc: Global, words: &[&str]) -> Vec<String> {
    let mut given = Vec::new(alloc);
    for word in words {
        sure(rt, push_word(alloc, &mut given, word));
    }
    given
}

/// The text that a sink has taken.
pub fn text_in(sink: &MemSink) -> &str {
    match str::from_utf8(sink.bytes()) {
        Ok(text) => text,
        Err(_) => "no text",
    }
}
