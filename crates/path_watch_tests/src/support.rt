//! What the tests share.

ghost use Rattle.std.specs.Prelude.{◌≡◌, Ok};

use plan_model::{MemSink, Memory};
use std::alloc::Global;
use std::process::Abort;

/// A session of three marks, a mark at a time: the goal is reached by the second, and the third gives it a cheaper way.
pub(crate) const BLOCKS: [&str; 2] = [
    "better 25449 marks 2\npath 3 cost 25449\n0 0\n0 50\n40 79\n\n",
    "better 25344 marks 3\npath 3 cost 25344\n0 0\n40 30\n40 79\n\n",
];

/// What was made, for which memory lasts. A test ends here if none is left, so that no value is dropped on the way.
pub(crate) fn sure<R: Abort, T>(rt: &R, made: Result<T, Memory>) -> T
    ensures { made ≡ Ok result }
{
    match made {
        Ok(value) => value,
        Err(_) => panic!(rt; "no memory"),
    }
}

/// A sink with this room that takes so many bytes in one call, and fails at the call of this number (0: at none).
pub(crate) fn sink_with<R: Abort>(
    rt: &R,
    alloc: Global,
    room: usize,
    most: usize,
    fails: u32,
) -> MemSink {
    sure(rt, MemSink::new(alloc, room, most.max(1), &[fails]))
}

/// Compares what a sink has taken.
pub(crate) fn expect_taken<R: Abort>(rt: &R, sink: &MemSink, want: &str, shows: &str) {
    assert!(rt; sink.bytes() == want.as_bytes(), "{shows}");
}

/// Adds a word to those that a call is given.
fn push_word(alloc: Global, given: &mut Vec<String>, word: &str) -> Result<(), Memory> {
    let word = String::from_str(alloc, word)?;
    given.push(word)?;
    Ok(())
}

/// These words as a call is given them.
pub(crate) fn given_words<R: Abort>(rt: &R, alloc: Global, words: &[&str]) -> Vec<String> {
    let mut given = Vec::new(alloc);
    for word in words {
        sure(rt, push_word(alloc, &mut given, word));
    }
    given
}
