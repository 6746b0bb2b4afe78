//! A shared tree that becomes a closed run again.

ghost use Rattle.std.specs.Prelude.{◌≡◌, All, IfSome, length};
ghost use Rattle.shared_tree_tests.specs.HeldPasses.HeldMarks.{HasShare};

use crate::passes::support::{take_turn, task_on_start};
use crate::support::{TwoPasses, some, sure};
use plan_model::{Outcome, Record};
use plan_words::{Pass, Shared};
use std::alloc::Global;
use std::process::Abort;
use step_core::Grown;

/// The last pass of the list.
fn last_sharer(shared: &Shared, passes: &mut Vec<Pass>) -> Option<Pass>
    requires { All (HasShare shared.now 1) passes.old.items }
    ensures rest { All (HasShare shared.now 1) passes.new.items }
    ensures last { IfSome result (HasShare shared.now 1) }
{
    passes.pop()
}

/// The tree of five marks that lie on the start, and its two passes.
fn shared_by_two<R: Abort>(rt: &R, alloc: Global) -> (Shared, Vec<Pass>)
    ensures opening { result.0.opening ≡ 0 }
    ensures workers { result.0.workers ≡ 2 }
    ensures marks { length result.0.task.marks ≡ 5 }
    ensures passes { All (HasShare result.0 1) result.1.items }
{
    let task = task_on_start(rt, alloc, 5);
    let grown = sure(rt, Grown::new(alloc, task));
    sure(rt, Shared::start(alloc, grown, 2))
}

/// Two passes over five marks that lie on the start.
fn two_sharers<R: Abort>(rt: &R, alloc: Global) -> TwoPasses
    ensures opening { result.shared.opening ≡ 0 }
    ensures workers { result.shared.workers ≡ 2 }
    ensures marks { length result.shared.task.marks ≡ 5 }
    ensures first { HasShare result.shared 1 result.first }
    ensures second { HasShare result.shared 1 result.second }
{
    let (shared, mut passes) = shared_by_two(rt, alloc);
    let second = some(rt, last_sharer(&shared, &mut passes));
    let first = some(rt, last_sharer(&shared, &mut passes));
    TwoPasses {
        shared,
        first,
        second,
    }
}

/// A pass takes its turns until no mark is left.
fn take_turns<R: Abort>(rt: &R, shared: &Shared, pass: &mut Pass, turns: u32)
    requires pass { HasShare shared.now 1 pass.old }
    requires opening { shared.now.opening ≡ 0 }
    requires marks { length shared.now.task.marks ≡ 5 }
    ensures { HasShare shared.now 1 pass.new }
{
    'turns: for _ in 0..turns {
        if take_turn(rt, shared, pass, 5).is_none() {
            panic!(rt; "no mark is left");
        }
    }
}

/// One pass takes over the other.
fn take_both(shared: &Shared, pass: &mut Pass, other: Pass)
    requires pass { HasShare shared.now 1 pass.old }
    requires other { HasShare shared.now 1 other }
    ensures { HasShare shared.now 2 pass.new }
{
    shared.join(pass, other);
}

/// The run that a tree has come to, whose pass finds no mark left.
fn end_of<R: Abort>(rt: &R, shared: Shared, pass: Pass) -> Grown
    requires pass { HasShare shared 2 pass }
    requires workers { shared.workers ≡ 2 }
    requires opening { shared.opening ≡ 0 }
    requires marks { length shared.task.marks ≡ 5 }
{
    let mut pass = pass;
    match shared.claim(&mut pass, 5) {
        Some(_) => panic!(rt; "a mark is left"),
        None => shared.end(pass),
    }
}

/// The run that a tree has come to, from what is left of two passes of which the first finds no mark left.
fn end_of_left<R: Abort>(rt: &R, shared: Shared, first: Pass, second: Pass) -> Grown
    requires first { HasShare shared 1 first }
    requires second { HasShare shared 1 second }
    requires workers { shared.workers ≡ 2 }
    requires opening { shared.opening ≡ 0 }
    requires marks { length shared.task.marks ≡ 5 }
{
    let mut first = first;
    match shared.claim(&mut first, 5) {
        Some(_) => panic!(rt; "a mark is left"),
        None => {
            let mut left = first.retire();
            shared.join_retired(&mut left, second.retire());
            shared.end_retired(left)
        }
    }
}

/// Compares the record of a mark that lies on the start.
fn expect_record<R: Abort>(rt: &R, grown: &Grown, mark: u32, worker: u32, turn: u32) {
    if mark >= grown.limit() {
        panic!(rt; "the mark was not handled");
    }
    let want = Record::unplaced(worker, turn, 0, Outcome::Same(0));
    assert_eq!(rt; grown.record_of(mark), want);
}

/// Compares the records of five marks, of which the second and the last were taken by the second pass.
fn expect_records<R: Abort>(rt: &R, grown: &Grown) {
    expect_record(rt, grown, 0, 0, 0);
    expect_record(rt, grown, 1, 1, 0);
    expect_record(rt, grown, 2, 0, 1);
    expect_record(rt, grown, 3, 0, 2);
    expect_record(rt, grown, 4, 1, 1);
}

#[test]
fn two_passes_end_as_one_run(rt: HostRuntime) {
    let TwoPasses {
        shared,
        mut first,
        mut second,
    } = two_sharers(&rt, rt.alloc());
    take_turns(&rt, &shared, &mut second, 2);
    take_turns(&rt, &shared, &mut first, 3);
    take_both(&shared, &mut first, second);
    let grown = end_of(&rt, shared, first);
    assert_eq!(rt; (grown.limit(), grown.count()), (5, 1));
    expect_records(&rt, &grown);
    drop(grown);
}

#[test]
fn what_is_left_of_two_passes_ends_as_one_run(rt: HostRuntime) {
    let mut two = two_sharers(&rt, rt.alloc());
    take_turns(&rt, &two.shared, &mut two.second, 2);
    take_turns(&rt, &two.shared, &mut two.first, 3);
    let grown = end_of_left(&rt, two.shared, two.first, two.second);
    assert_eq!(rt; (grown.limit(), grown.count()), (5, 1));
    expect_records(&rt, &grown);
    drop(grown);
}
