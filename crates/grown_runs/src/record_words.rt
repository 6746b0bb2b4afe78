//! Records as words: bit 63 set, the worker in bits 0 to 5, its turn in bits 6 to 23, the nearest node in bits 24 to
//! 41, the outcome in bits 42 and 43 (0 placed, 1 the same point, 2 blocked, 3 skipped), and in bits 44 to 61 the class
//! of a placed mark, the node of one that ended at a node, and 0 of any other. A word is 0 until its mark is done.
//!
//! The first parent and the first cost of a placed mark are not in it: they are in the first word of its node.

ghost use Rattle.std.specs.Prelude.{◌≡◌, ◌<◌};
ghost use Rattle.grown_runs.specs.Table.Words.{FitsWord, last_field, number_of_outcome, record_of_word, record_word};
ghost use Rattle.grown_runs.specs.Table.Words.{last_in, nearest_in, placed_in, turn_in, unplaced_in, worker_in};

use crate::layout::{
    BLOCKED, LAST_SHIFT, NEAREST_SHIFT, NUMBER_MASK, OUTCOME_MASK, OUTCOME_SHIFT, PLACED, SAME,
    SKIPPED, TURN_SHIFT, WORKER_MASK, WRITTEN,
};
use crate::tree_words::{cost_in, parent_in};
use plan_model::{Outcome, Record};

/// The word of a record. Its worker is below 2^6, and its turn, its nearest node and its class, or the node that it ended at,
/// are below 2^18. That of worker 0, turn 2, nearest node 1, placed with class 2, is 2^63 + 2 * 2^6 + 1 * 2^24 + 2 * 2^44.
/// O(1).
pub fn pack_mark(entry: &Record) -> u64
    requires { FitsWord entry.now }
    ensures { result ≡ record_word entry.now }
{
    WRITTEN
        | u64::from(last_field(entry)) << LAST_SHIFT
        | number_of(entry.outcome) << OUTCOME_SHIFT
        | u64::from(entry.nearest) << NEAREST_SHIFT
        | u64::from(entry.turn) << TURN_SHIFT
        | u64::from(entry.worker)
}

/// The record of a word; `None` exactly if bit 63 is 0, as it is until the word is written. O(1).
///
/// `first` is the first word of the node that was placed, and counts only if one was; its two fields are taken as they
/// stand.
pub fn read_mark(word: u64, first: u64) -> Option<Record>
    ensures read { result ≡ record_of_word word first }
{
    if word < WRITTEN {
        return None;
    }
    Some(match word >> OUTCOME_SHIFT & OUTCOME_MASK {
        PLACED => placed_in(word, first),
        SAME => unplaced_in(word, Outcome::Same(last_in(word))),
        BLOCKED => unplaced_in(word, Outcome::Blocked),
        _ => unplaced_in(word, Outcome::Skipped),
    })
}

/// The record of a placed mark, whose first parent and first cost are in the first word of its node.
fn placed_in(word: u64, first: u64) -> Record
    ensures { result ≡ placed_in word first }
{
    Record {
        worker: worker_in(word),
        turn: turn_in(word),
        nearest: nearest_in(word),
        outcome: Outcome::Placed,
        first_parent: parent_in(first),
        first_cost: cost_in(first),
        class: last_in(word),
    }
}

/// The record of a mark of which no node was placed, with this outcome.
fn unplaced_in(word: u64, outcome: Outcome) -> Record
    ensures { result ≡ unplaced_in word outcome }
{
    Record::unplaced(worker_in(word), turn_in(word), nearest_in(word), outcome)
}

/// The worker in a record's word.
fn worker_in(word: u64) -> u32
    ensures { result ≡ worker_in word }
{
    (word & WORKER_MASK) as u32
}

/// The turn in a record's word.
fn turn_in(word: u64) -> u32
    ensures { result ≡ turn_in word }
{
    (word >> TURN_SHIFT & NUMBER_MASK) as u32
}

/// The nearest node in a record's word.
fn nearest_in(word: u64) -> u32
    ensures { result ≡ nearest_in word }
{
    (word >> NEAREST_SHIFT & NUMBER_MASK) as u32
}

/// The last field in a record's word.
fn last_in(word: u64) -> u32
    ensures { result ≡ last_in word }
{
    (word >> LAST_SHIFT & NUMBER_MASK) as u32
}

/// The last field of a record's word.
fn last_field(entry: &Record) -> u32
    ensures { result ≡ last_field entry.now.outcome entry.now.class }
{
    match entry.outcome {
        Outcome::Placed => entry.class,
        Outcome::Same(node) => node,
        Outcome::Blocked | Outcome::Skipped => 0,
    }
}

/// The number of an outcome.
fn number_of(outcome: Outcome) -> u64
    ensures value { result ≡ number_of_outcome outcome }
    ensures few { result < 4 }
{
    match outcome {
        Outcome::Placed => PLACED,
        Outcome::Same(_) => SAME,
        Outcome::Blocked => BLOCKED,
        Outcome::Skipped => SKIPPED,
    }
}
