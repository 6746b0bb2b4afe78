//! Passes that claim marks in one thread.

ghost use Rattle.std.specs.Prelude.{◌≡◌, ◌≤◌, length};
ghost use Rattle.plan_words.specs.States.{MayClaim};

use crate::passes::support::{expect_taken, expect_turn, three_passes};
use plan_words::{Pass, Shared};
use std::process::Abort;

/// Compares the marks that a pass takes, one after the other.
fn expect_turns<R: Abort>(
    rt: &R,
    shared: &Shared,
    pass: &mut Pass,
    limit: u32,
    wants: &[Option<u32>],
)
    requires may_claim { MayClaim shared.now pass.old }
    requires low { shared.now.opening ≤ limit }
    requires limit { limit ≤ length shared.now.task.marks }
    ensures may_claim { MayClaim shared.now pass.new }
{
    'turns: for &want in wants {
        expect_turn(rt, shared, pass, limit, want);
    }
}

/// Compares the marks of seven that three passes take, one after the other.
fn expect_round<R: Abort>(
    rt: &R,
    shared: &Shared,
    first: &mut Pass,
    second: &mut Pass,
    third: &mut Pass,
    want: [Option<u32>; 3],
)
    requires first { MayClaim shared.now first.old }
    requires second { MayClaim shared.now second.old }
    requires third { MayClaim shared.now third.old }
    requires opening { shared.now.opening ≡ 0 }
    requires marks { length shared.now.task.marks ≡ 7 }
    ensures first { MayClaim shared.now first.new }
    ensures second { MayClaim shared.now second.new }
    ensures third { MayClaim shared.now third.new }
{
    let [one, two, three] = want;
    expect_turn(rt, shared, first, 7, one);
    expect_turn(rt, shared, second, 7, two);
    expect_turn(rt, shared, third, 7, three);
}

/// Compares the counters of three strips.
fn expect_counters<R: Abort>(rt: &R, shared: &Shared, pass: &mut Pass, want: [u32; 3])
    requires may_claim { MayClaim shared.now pass.old }
    requires strips { shared.now.task.scene.strips ≡ 3 }
    ensures { MayClaim shared.now pass.new }
{
    let [one, two, three] = want;
    expect_taken(rt, shared, pass, 0, one);
    expect_taken(rt, shared, pass, 1, two);
    expect_taken(rt, shared, pass, 2, three);
}

/// Three passes record seven marks in turn, and find no other.
fn record_seven<R: Abort>(
    rt: &R,
    shared: &Shared,
    first: &mut Pass,
    second: &mut Pass,
    third: &mut Pass,
)
    requires first { MayClaim shared.now first.old }
    requires second { MayClaim shared.now second.old }
    requires third { MayClaim shared.now third.old }
    requires opening { shared.now.opening ≡ 0 }
    requires marks { length shared.now.task.marks ≡ 7 }
    requires strips { shared.now.task.scene.strips ≡ 3 }
{
    expect_round(
        rt,
        shared,
        first,
        second,
        third,
        [Some(0), Some(1), Some(2)],
    );
    expect_round(
        rt,
        shared,
        first,
        second,
        third,
        [Some(3), Some(4), Some(5)],
    );
    expect_turn(rt, shared, first, 7, Some(6));
    expect_counters(rt, shared, first, [3, 2, 2]);
    expect_round(rt, shared, third, second, first, [None; 3]);
}

#[test]
fn three_passes_record_seven_marks_on_one_point(rt: HostRuntime) {
    let mut three = three_passes(&rt, rt.alloc(), 7);
    record_seven(
        &rt,
        &three.shared,
        &mut three.first,
        &mut three.second,
        &mut three.third,
    );
    drop(three);
}

/// The mark of the second of three strips that goes first.
static OWN_MARK: [Option<u32>; 1] = [Some(1)];

/// The marks of the other strips below 3.
static OTHERS_BELOW: [Option<u32>; 3] = [Some(0), Some(2), None];

/// The other mark of the second strip, and then those of the other strips.
static MARKS_LEFT: [Option<u32>; 5] = [Some(4), Some(3), Some(5), Some(6), None];

/// The second of three passes takes the marks of its own strip before those of the others, below each limit.
fn take_own_first<R: Abort>(rt: &R, shared: &Shared, second: &mut Pass)
    requires may_claim { MayClaim shared.now second.old }
    requires opening { shared.now.opening ≡ 0 }
    requires marks { length shared.now.task.marks ≡ 7 }
{
    expect_turns(rt, shared, second, 7, &OWN_MARK);
    expect_turns(rt, shared, second, 3, &OTHERS_BELOW);
    expect_turns(rt, shared, second, 7, &MARKS_LEFT);
}

#[test]
fn a_worker_takes_its_own_strips_first(rt: HostRuntime) {
    let mut three = three_passes(&rt, rt.alloc(), 7);
    take_own_first(&rt, &three.shared, &mut three.second);
    drop(three);
}
