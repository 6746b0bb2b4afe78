//! Passes that take over others, and those that only look.

ghost use Rattle.std.specs.Prelude.{◌≡◌, ◌≤◌, ◌<◌, length};
ghost use Rattle.plan_words.specs.States.{BelongsTo, MayClaim};
ghost use Rattle.shared_tree_tests.specs.HeldPasses.HeldMarks.{IsIdle};

use crate::passes::support::{
    ThreePasses, expect_same, expect_taken, expect_turn, expect_worker, three_passes,
};
use crate::support::sure;
use plan_model::MOST_MARKS;
use plan_words::{Pass, Shared};
use std::process::Abort;

/// A pass takes over another, which may claim, and so it may claim too.
fn take_over(shared: &Shared, pass: &mut Pass, other: Pass)
    requires idle { IsIdle shared.now pass.old }
    requires may_claim { MayClaim shared.now other }
    ensures { MayClaim shared.now pass.new }
{
    shared.join(pass, other);
}

/// Claims this mark.
fn expect_claim<R: Abort>(rt: &R, shared: &Shared, pass: &mut Pass, limit: u32, want: u32)
    requires may_claim { MayClaim shared.now pass.old }
    requires low { shared.now.opening ≤ limit }
    requires limit { limit ≤ length shared.now.task.marks }
    ensures { BelongsTo pass.new shared.now }
{
    let mark = shared.claim(pass, limit);
    assert_eq!(rt; mark, Some(want));
}

/// A pass that only looks, which is split from another.
fn looker_of<R: Abort>(rt: &R, shared: &Shared, pass: &mut Pass) -> Pass
    requires { BelongsTo pass.old shared.now }
    ensures looks { IsIdle shared.now result }
    ensures kept { MayClaim shared.now pass.old → MayClaim shared.now pass.new }
{
    sure(rt, shared.split(pass))
}

/// Compares how many nodes a pass counts.
fn expect_number<R: Abort>(rt: &R, shared: &Shared, pass: &mut Pass, want: u32)
    requires { IsIdle shared.now pass.old }
    ensures { IsIdle shared.now pass.new }
{
    let nodes = shared.number(pass);
    expect_same(rt, nodes, want, "nodes");
}

/// Compares how many marks of a strip a pass sees claimed.
fn expect_claimed<R: Abort>(rt: &R, shared: &Shared, pass: &mut Pass, strip: u32, want: u32)
    requires idle { IsIdle shared.now pass.old }
    requires strip { strip < shared.now.task.scene.strips }
    ensures { IsIdle shared.now pass.new }
{
    let claimed = shared.taken(pass, strip);
    expect_same(rt, claimed, want, "claimed marks of a strip");
}

/// A pass that only looks, beside one that has claimed the first mark.
fn looker_beside<R: Abort>(rt: &R, shared: &Shared, pass: &mut Pass) -> Pass
    requires may_claim { MayClaim shared.now pass.old }
    requires opening { shared.now.opening ≡ 0 }
    requires marks { length shared.now.task.marks ≡ 7 }
    requires strips { shared.now.task.scene.strips ≡ 3 }
    ensures { IsIdle shared.now result }
{
    expect_claim(rt, shared, pass, 7, 0);
    let mut looker = looker_of(rt, shared, pass);
    expect_number(rt, shared, &mut looker, 1);
    expect_claimed(rt, shared, &mut looker, 0, 1);
    looker
}

/// A pass claims in the place of the second worker.
fn claim_as_second<R: Abort>(rt: &R, shared: &Shared, pass: &mut Pass)
    requires may_claim { MayClaim shared.now pass.old }
    requires opening { shared.now.opening ≡ 0 }
    requires marks { length shared.now.task.marks ≡ 7 }
{
    expect_worker(rt, shared, pass, 1, 0);
    expect_turn(rt, shared, pass, 7, Some(1));
    expect_worker(rt, shared, pass, 1, 1);
    expect_turn(rt, shared, pass, 7, Some(4));
}

/// A pass that only looks, beside the first one, takes over the second, and then claims in its place.
fn take_over_second<R: Abort>(rt: &R, shared: &Shared, first: &mut Pass, second: Pass)
    requires first { MayClaim shared.now first.old }
    requires second { MayClaim shared.now second }
    requires opening { shared.now.opening ≡ 0 }
    requires marks { length shared.now.task.marks ≡ 7 }
    requires strips { shared.now.task.scene.strips ≡ 3 }
{
    let mut looker = looker_beside(rt, shared, first);
    take_over(shared, &mut looker, second);
    claim_as_second(rt, shared, &mut looker);
    drop(looker);
}

#[test]
fn a_looker_takes_over_a_worker(rt: HostRuntime) {
    let ThreePasses {
        shared,
        mut first,
        second,
        third,
    } = three_passes(&rt, rt.alloc(), 7);
    take_over_second(&rt, &shared, &mut first, second);
    drop(shared);
    drop(first);
    drop(third);
}

/// Two passes claim marks of the longest task, and one that only looks counts the start.
fn claim_and_look<R: Abort>(rt: &R, shared: &Shared, first: &mut Pass, third: &mut Pass, limit: u32)
    requires first { MayClaim shared.now first.old }
    requires third { MayClaim shared.now third.old }
    requires opening { shared.now.opening ≡ 0 }
    requires marks { length shared.now.task.marks ≡ limit }
    requires strips { shared.now.task.scene.strips ≡ 3 }
{
    let mut looker = looker_of(rt, shared, first);
    expect_turn(rt, shared, third, limit, Some(2));
    expect_turn(rt, shared, first, limit, Some(0));
    expect_turn(rt, shared, first, limit, Some(3));
    expect_taken(rt, shared, first, 0, 2);
    expect_number(rt, shared, &mut looker, 1);
    drop(looker);
}

#[test]
fn the_longest_task_is_claimed_and_looked_at(rt: HostRuntime) {
    let mut three = three_passes(&rt, rt.alloc(), MOST_MARKS);
    claim_and_look(
        &rt,
        &three.shared,
        &mut three.first,
        &mut three.third,
        MOST_MARKS,
    );
    drop(three);
}
