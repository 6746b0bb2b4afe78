//! Two passes whose points lead to one place of the kd-tree.

ghost use Rattle.std.specs.Prelude.{◌≡◌, IfErr, IfOk, IfSome, Some, length, true};
ghost use Rattle.plan_model.specs.Spaces.Clearance.{ClearAt};
ghost use Rattle.plan_model.specs.Spaces.ConfigurationSpace.{space_of};
ghost use Rattle.plan_words.specs.States.{MayClaim};
ghost use Rattle.shared_tree_tests.specs.HeldPasses.HeldMarks.{HangsFromStart, HoldsMark};
ghost use Rattle.step_core.specs.SeenBests.{IsUnskipped};
ghost use Rattle.step_core.specs.ViewTrees.{SeesPoint};
ghost use Rattle.step_core.specs.Views.{tree_seen};
ghost use Rattle.step_core.specs.declared.views.Stage.TheVariants.{Claimed, Counted, Pointed, Treed};

use crate::passes::support::START;
use crate::support::{TwoPasses, sure, two_over};
use edge_cost::{cost, steer};
use plan_model::{Goal, Memory, Outcome, Point, Record, SmallScene, Task};
use plan_words::{Pass, Shared};
use std::alloc::Global;
use std::process::Abort;
use swept_check::{Clearing, Hall};

const ABOVE: Point = Point { x: 0, y: 50 };

const FAR: Point = Point { x: 40, y: 79 };

/// A step from the start towards `FAR`.
const PARTWAY: Point = Point { x: 22, y: 44 };

/// Three marks, of which the first two lie to the right of the start.
fn three_marks(alloc: Global) -> Result<Task, Memory>
    ensures clear { IfOk result (λ task. ClearAt (space_of task.scene) task.scene.start) }
    ensures marks { IfOk result (λ task. length task.marks ≡ 3) }
{
    SmallScene {
        room: Point { x: 100, y: 100 },
        start: START,
        goal: Goal {
            low: FAR,
            high: FAR,
        },
        step: 50,
        gamma: 1000,
        seed: 0,
        strips: 1,
    }
    .task(alloc, &[ABOVE, FAR, Point { x: 40, y: 30 }])
}

/// Two passes over three marks.
fn two_passes<R: Abort>(rt: &R, alloc: Global) -> TwoPasses
    ensures opening { result.shared.opening ≡ 0 }
    ensures marks { length result.shared.task.marks ≡ 3 }
    ensures first { MayClaim result.shared result.first }
    ensures second { MayClaim result.shared result.second }
{
    let task = sure(rt, three_marks(alloc));
    two_over(rt, alloc, task)
}

/// Claims a mark.
fn take_mark(shared: &Shared, pass: &mut Pass) -> Option<u32>
    requires may_claim { MayClaim shared.now pass.old }
    requires opening { shared.now.opening ≡ 0 }
    requires marks { length shared.now.task.marks ≡ 3 }
    ensures { IfSome result (λ k. HoldsMark shared.now k Claimed pass.new) }
{
    shared.claim(pass, 3)
}

/// Claims this mark, the next one.
pub(crate) fn claim_mark<R: Abort>(rt: &R, shared: &Shared, pass: &mut Pass, mark: u32)
    requires may_claim { MayClaim shared.now pass.old }
    requires opening { shared.now.opening ≡ 0 }
    requires marks { length shared.now.task.marks ≡ 3 }
    ensures { HoldsMark shared.now mark Claimed pass.new }
{
    let Some(claimed) = take_mark(shared, pass) else {
        panic!(rt; "no mark is left");
    };
    assert_eq!(rt; claimed, mark);
}

/// Writes the point of the mark in hand, steered from the start to where it must come.
pub(crate) fn write_from_start<R: Abort>(
    rt: &R,
    shared: &Shared,
    pass: &mut Pass,
    mark: u32,
    want: Point,
)
    requires holds { HoldsMark shared.now mark Claimed pass.old }
    requires unskipped { IfSome pass.old.view.hand (IsUnskipped pass.old.view) }
    ensures holds { HoldsMark shared.now mark Pointed pass.new }
    ensures unskipped { IfSome pass.new.view.hand (IsUnskipped pass.new.view) }
{
    let start = shared.point(pass, 0);
    let towards = shared.task().marks.as_slice()[mark as usize];
    let p = steer(start, towards, shared.task().scene.step);
    shared.write_point(pass, 0, p);
    assert_eq!(rt; p, want);
}

/// Writes the parent and the cost of the node in hand, below the start. Returns the cost.
fn hang_from_start<R: Abort>(
    rt: &R,
    shared: &Shared,
    hall: &Hall,
    pass: &mut Pass,
    mark: u32,
) -> u64
    requires holds { HoldsMark shared.now mark Pointed pass.old }
    requires unskipped { IfSome pass.old.view.hand (IsUnskipped pass.old.view) }
    requires hall { hall.now ≡ space_of shared.now.task.scene }
    ensures holds { HoldsMark shared.now mark Treed pass.new }
    ensures hangs { HangsFromStart result pass.new.view }
{
    let start = shared.point(pass, 0);
    let pair = shared.tree(pass, 0);
    assert_eq!(rt; pair, (0, 0));
    let p = pass.hand_point();
    if !hall.clear(start, p) {
        panic!(rt; "the segment is not clear");
    }
    let edge = cost(start, p);
    shared.write_tree(pass, 0, edge);
    edge
}

/// Hangs the node in hand below the start, at the cost that it must have.
pub(crate) fn hang_at_cost<R: Abort>(
    rt: &R,
    shared: &Shared,
    hall: &Hall,
    pass: &mut Pass,
    mark: u32,
    want: u64,
)
    requires holds { HoldsMark shared.now mark Pointed pass.old }
    requires unskipped { IfSome pass.old.view.hand (IsUnskipped pass.old.view) }
    requires hall { hall.now ≡ space_of shared.now.task.scene }
    ensures holds { HoldsMark shared.now mark Treed pass.new }
    ensures hangs { HangsFromStart want pass.new.view }
{
    let edge = hang_from_start(rt, shared, hall, pass, mark);
    assert_eq!(rt; edge, want);
}

/// Looks to the right of the start, and finds no node there.
pub(crate) fn expect_free<R: Abort>(rt: &R, shared: &Shared, pass: &mut Pass, mark: u32, cost: u64)
    requires holds { HoldsMark shared.now mark Treed pass.old }
    requires hangs { HangsFromStart cost pass.old.view }
    ensures holds { HoldsMark shared.now mark Treed pass.new }
    ensures hangs { HangsFromStart cost pass.new.view }
{
    let child = shared.child(pass, 0, true);
    assert_eq!(rt; child, None);
}

/// Links the node in hand to the right of the start.
fn link_at_start<R: Abort>(
    rt: &R,
    shared: &Shared,
    pass: &mut Pass,
    mark: u32,
    cost: u64,
) -> Result<(), u32>
    requires holds { HoldsMark shared.now mark Treed pass.old }
    requires hangs { HangsFromStart cost pass.old.view }
    ensures hangs { HangsFromStart cost pass.new.view }
    ensures linked { IfOk result (λ _. HoldsMark shared.now mark Counted pass.new) }
    ensures same { IfErr result (λ _. HoldsMark shared.now mark Treed pass.new) }
    ensures met { IfErr result (λ c. (tree_seen pass.new.view).child 0 true ≡ Some c) }
{
    let start = shared.point(pass, 0);
    let p = pass.hand_point();
    if p.x < start.x {
        panic!(rt; "the point lies to the left");
    }
    if p.y <= start.y {
        panic!(rt; "the point is not above");
    }
    shared.link(pass, 0, true)
}

/// Meets the node to the right of the start, and finds no node to its left. Returns where it stands.
fn meet_above<R: Abort>(
    rt: &R,
    shared: &Shared,
    pass: &mut Pass,
    mark: u32,
    cost: u64,
    met: u32,
) -> Point
    requires holds { HoldsMark shared.now mark Treed pass.old }
    requires hangs { HangsFromStart cost pass.old.view }
    requires met { (tree_seen pass.old.view).child 0 true ≡ Some met }
    ensures holds { HoldsMark shared.now mark Treed pass.new }
    ensures hangs { HangsFromStart cost pass.new.view }
    ensures met { (tree_seen pass.new.view).child 0 true ≡ Some met }
    ensures stands { SeesPoint pass.new.view met result }
{
    let above = shared.point(pass, met);
    assert_eq!(rt; above, ABOVE);
    let child = shared.child(pass, met, false);
    assert_eq!(rt; child, None);
    above
}

/// Meets the node to the right of the start, and links the node in hand to its left.
fn link_below<R: Abort>(
    rt: &R,
    shared: &Shared,
    pass: &mut Pass,
    mark: u32,
    cost: u64,
    met: u32,
) -> Result<(), u32>
    requires holds { HoldsMark shared.now mark Treed pass.old }
    requires hangs { HangsFromStart cost pass.old.view }
    requires met { (tree_seen pass.old.view).child 0 true ≡ Some met }
    ensures hangs { HangsFromStart cost pass.new.view }
    ensures linked { IfOk result (λ _. HoldsMark shared.now mark Counted pass.new) }
{
    let above = meet_above(rt, shared, pass, mark, cost, met);
    let start = shared.point(pass, 0);
    let p = pass.hand_point();
    if p.x < start.x {
        panic!(rt; "the point lies to the left");
    }
    if p.y <= start.y {
        panic!(rt; "the point is not above");
    }
    if above.y <= p.y {
        panic!(rt; "the point lies on the other side");
    }
    shared.link(pass, met, false)
}

/// Links the node in hand to the right of the start, where no other was linked.
pub(crate) fn link_first<R: Abort>(rt: &R, shared: &Shared, pass: &mut Pass, mark: u32, cost: u64)
    requires holds { HoldsMark shared.now mark Treed pass.old }
    requires hangs { HangsFromStart cost pass.old.view }
    ensures holds { HoldsMark shared.now mark Counted pass.new }
    ensures hangs { HangsFromStart cost pass.new.view }
{
    let Ok(()) = link_at_start(rt, shared, pass, mark, cost) else {
        panic!(rt; "the place was taken");
    };
}

/// Meets the first node where the node in hand was to be linked, and links it below.
fn link_second<R: Abort>(rt: &R, shared: &Shared, pass: &mut Pass, mark: u32, cost: u64)
    requires holds { HoldsMark shared.now mark Treed pass.old }
    requires hangs { HangsFromStart cost pass.old.view }
    ensures holds { HoldsMark shared.now mark Counted pass.new }
    ensures hangs { HangsFromStart cost pass.new.view }
{
    let Err(met) = link_at_start(rt, shared, pass, mark, cost) else {
        panic!(rt; "the place was free");
    };
    assert_eq!(rt; met, 1);
    let Ok(()) = link_below(rt, shared, pass, mark, cost, met) else {
        panic!(rt; "the place was taken");
    };
}

/// Counts the start and two nodes.
fn expect_three<R: Abort>(rt: &R, shared: &Shared, pass: &mut Pass, mark: u32, cost: u64)
    requires holds { HoldsMark shared.now mark Counted pass.old }
    requires hangs { HangsFromStart cost pass.old.view }
    ensures holds { HoldsMark shared.now mark Counted pass.new }
    ensures hangs { HangsFromStart cost pass.new.view }
{
    let nodes = shared.number(pass);
    assert_eq!(rt; nodes, 3);
}

/// Records that the mark in hand was placed below the start, in the first turn of its worker, at this cost.
fn finish_placed<R: Abort>(rt: &R, shared: &Shared, pass: &mut Pass, mark: u32, cost: u64)
    requires holds { HoldsMark shared.now mark Counted pass.old }
    requires hangs { HangsFromStart cost pass.old.view }
{
    let nodes = shared.number(pass);
    if nodes == 0 {
        panic!(rt; "the start is not counted");
    }
    if pass.turn() != 0 {
        panic!(rt; "the worker has handled a mark before");
    }
    if shared.task().scene.informed {
        panic!(rt; "a mark may be skipped");
    }
    let entry = Record {
        worker: pass.worker(),
        turn: 0,
        nearest: 0,
        outcome: Outcome::Placed,
        first_parent: 0,
        first_cost: cost,
        class: 1,
    };
    shared.finish(pass, entry);
}

/// Both passes claim a mark, write its point and hang its node below the start, in turn.
fn hang_both<R: Abort>(rt: &R, shared: &Shared, hall: &Hall, first: &mut Pass, second: &mut Pass)
    requires opening { shared.now.opening ≡ 0 }
    requires marks { length shared.now.task.marks ≡ 3 }
    requires hall { hall.now ≡ space_of shared.now.task.scene }
    requires first { MayClaim shared.now first.old }
    requires second { MayClaim shared.now second.old }
    ensures first { HoldsMark shared.now 0 Treed first.new }
    ensures first_hangs { HangsFromStart 12800 first.new.view }
    ensures second { HoldsMark shared.now 1 Treed second.new }
    ensures second_hangs { HangsFromStart 12594 second.new.view }
{
    if shared.task().scene.informed {
        panic!(rt; "a mark may be skipped");
    }
    claim_mark(rt, shared, first, 0);
    claim_mark(rt, shared, second, 1);
    write_from_start(rt, shared, first, 0, ABOVE);
    write_from_start(rt, shared, second, 1, PARTWAY);
    hang_at_cost(rt, shared, hall, first, 0, 12_800);
    hang_at_cost(rt, shared, hall, second, 1, 12_594);
}

/// The first pass links its node to the right of the start, where both have seen none. The second meets that node, and links its
/// own to its left.
fn link_both<R: Abort>(rt: &R, shared: &Shared, first: &mut Pass, second: &mut Pass)
    requires first { HoldsMark shared.now 0 Treed first.old }
    requires first_hangs { HangsFromStart 12800 first.old.view }
    requires second { HoldsMark shared.now 1 Treed second.old }
    requires second_hangs { HangsFromStart 12594 second.old.view }
    ensures first { HoldsMark shared.now 0 Counted first.new }
    ensures first_hangs { HangsFromStart 12800 first.new.view }
    ensures second { HoldsMark shared.now 1 Counted second.new }
    ensures second_hangs { HangsFromStart 12594 second.new.view }
{
    expect_free(rt, shared, first, 0, 12_800);
    expect_free(rt, shared, second, 1, 12_594);
    link_first(rt, shared, first, 0, 12_800);
    link_second(rt, shared, second, 1, 12_594);
}

/// Both passes record that their marks were placed.
fn finish_both<R: Abort>(rt: &R, shared: &Shared, first: &mut Pass, second: &mut Pass)
    requires first { HoldsMark shared.now 0 Counted first.old }
    requires first_hangs { HangsFromStart 12800 first.old.view }
    requires second { HoldsMark shared.now 1 Counted second.old }
    requires second_hangs { HangsFromStart 12594 second.old.view }
{
    expect_three(rt, shared, first, 0, 12_800);
    finish_placed(rt, shared, first, 0, 12_800);
    finish_placed(rt, shared, second, 1, 12_594);
}

/// Two passes whose points lead to one place link their nodes there, one below the other, and record them.
fn link_at_one_place<R: Abort>(
    rt: &R,
    alloc: Global,
    shared: &Shared,
    first: &mut Pass,
    second: &mut Pass,
)
    requires opening { shared.now.opening ≡ 0 }
    requires marks { length shared.now.task.marks ≡ 3 }
    requires first { MayClaim shared.now first.old }
    requires second { MayClaim shared.now second.old }
{
    let hall = sure(rt, Hall::new(alloc, &shared.task().scene));
    hang_both(rt, shared, &hall, first, second);
    link_both(rt, shared, first, second);
    finish_both(rt, shared, first, second);
    drop(hall);
}

#[test]
fn two_passes_link_at_one_place(rt: HostRuntime) {
    let mut two = two_passes(&rt, rt.alloc());
    link_at_one_place(
        &rt,
        rt.alloc(),
        &two.shared,
        &mut two.first,
        &mut two.second,
    );
    drop(two);
}
