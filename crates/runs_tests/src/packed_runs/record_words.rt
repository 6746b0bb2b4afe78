//! Records that are packed and read.

ghost use Rattle.grown_runs.specs.Table.Words.{FitsWord};

use grown_runs::{pack_mark, pack_tree, read_mark};
use plan_model::{Outcome, Record};
use std::process::Abort;

/// A placed mark with the first parent 3 and the first cost 25,344.
const ENTRY: Record = Record {
    worker: 0,
    turn: 2,
    nearest: 1,
    outcome: Outcome::Placed,
    first_parent: 3,
    first_cost: 25_344,
    class: 2,
};

/// Asserts the word of a record.
fn assert_packed<R: Abort>(rt: &R, entry: Record, want: u64)
    requires { FitsWord entry }
{
    let word = pack_mark(&entry);
    assert!(rt; word == want, "word {word}");
}

/// Asserts the record that is read from a word and the first word of its node.
fn assert_read<R: Abort>(rt: &R, word: u64, first: u64, want: Option<Record>) {
    assert!(rt; read_mark(word, first) == want, "word {word}");
}

#[test]
fn packs_a_placed_mark(rt: HostRuntime) {
    let word = (1 << 63) + 2 * (1 << 6) + (1 << 24) + 2 * (1 << 44);
    assert_packed(&rt, ENTRY, word);
    assert_read(&rt, word, pack_tree(3, 25_344), Some(ENTRY));
}

#[test]
fn packs_a_mark_that_ended_at_a_node(rt: HostRuntime) {
    let entry = Record {
        worker: 63,
        turn: 262_142,
        nearest: 262_143,
        outcome: Outcome::Same(262_143),
        first_parent: 0,
        first_cost: 0,
        class: 0,
    };
    let word = (1 << 63)
        + 63
        + 262_142 * (1 << 6)
        + 262_143 * (1 << 24)
        + (1 << 42)
        + 262_143 * (1 << 44);
    assert_packed(&rt, entry, word);
    assert_read(&rt, word, 0, Some(entry));
    // no node was placed, so its first word does not count
    assert_read(&rt, word, u64::MAX, Some(entry));
}

#[test]
fn packs_a_blocked_mark(rt: HostRuntime) {
    let entry = Record {
        worker: 1,
        turn: 0,
        nearest: 262_143,
        outcome: Outcome::Blocked,
        first_parent: 0,
        first_cost: 0,
        class: 0,
    };
    let word = (1 << 63) + 1 + 262_143 * (1 << 24) + 2 * (1 << 42);
    assert_packed(&rt, entry, word);
    assert_read(&rt, word, 0, Some(entry));
}

#[test]
fn packs_a_skipped_mark(rt: HostRuntime) {
    let entry = Record::unplaced(63, 5, 262_143, Outcome::Skipped);
    let word = (1 << 63) + 63 + 5 * (1 << 6) + 262_143 * (1 << 24) + 3 * (1 << 42);
    assert_packed(&rt, entry, word);
    assert_read(&rt, word, 0, Some(entry));
}

#[test]
fn reads_the_greatest_fields(rt: HostRuntime) {
    let entry = Record {
        worker: 63,
        turn: 262_142,
        nearest: 262_143,
        outcome: Outcome::Placed,
        first_parent: 262_143,
        first_cost: 17_592_186_044_415,
        class: 19,
    };
    let first = pack_tree(262_143, 17_592_186_044_415);
    assert_read(&rt, pack_mark(&entry), first, Some(entry));
}

#[test]
fn a_word_without_bit_63_holds_no_record(rt: HostRuntime) {
    assert_read(&rt, 0, 0, None);
    assert_read(&rt, (1 << 63) - 1, 0, None);
}
