//! The lines of single marks.

use crate::settled_runs::support::sure;
use plan_model::{Memory, Outcome, Record};
use settle_report::push_mark_line;
use std::alloc::Global;
use std::process::Abort;

/// The line of a mark.
fn line_of(alloc: Global, mark: u32, entry: Record) -> Result<String, Memory> {
    let mut text = String::new(alloc);
    push_mark_line(&mut text, mark, entry)?;
    Ok(text)
}

/// Asserts the line of a mark.
fn assert_line<R: Abort>(rt: &R, alloc: Global, mark: u32, entry: Record, want: &str) {
    let line = sure(rt, line_of(alloc, mark, entry));
    assert!(rt; line.as_str() == want, "in place of {want}");
    drop(line);
}

#[test]
fn writes_the_line_of_a_placed_mark(rt: HostRuntime) {
    let placed = Record {
        worker: 1,
        turn: 0,
        nearest: 4,
        outcome: Outcome::Placed,
        first_parent: 5,
        first_cost: 12_800,
        class: 6,
    };
    let want = "mark 8 worker 1 turn 0 nearest 4 placed class 6 first 5 12800\n";
    assert_line(&rt, rt.alloc(), 8, placed, want);
}

#[test]
fn writes_a_line_for_each_other_outcome(rt: HostRuntime) {
    let same = Record::unplaced(2, 3, 4, Outcome::Same(9));
    let blocked = Record::unplaced(2, 3, 4, Outcome::Blocked);
    let want = "mark 7 worker 2 turn 3 nearest 4 same 9\n";
    assert_line(&rt, rt.alloc(), 7, same, want);
    let want = "mark 7 worker 2 turn 3 nearest 4 blocked\n";
    assert_line(&rt, rt.alloc(), 7, blocked, want);
    let skipped = Record::unplaced(2, 3, 4, Outcome::Skipped);
    let want = "mark 7 worker 2 turn 3 skipped by 4\n";
    assert_line(&rt, rt.alloc(), 7, skipped, want);
}
