//! Passes in an informed scene: one posts the goal node that it places, and others skip marks by the best.

ghost use Rattle.std.specs.Prelude.{◌≡◌, IfOk, IsTrue, None, Some, length};
ghost use Rattle.plan_model.specs.Scenes.Limits.{is_plan};
ghost use Rattle.plan_model.specs.Spaces.Clearance.{ClearAt};
ghost use Rattle.plan_model.specs.Spaces.ConfigurationSpace.{space_of, IsInRoom};
ghost use Rattle.plan_model.specs.declared.scenes.Marks.TheVariants.{Listed};
ghost use Rattle.plan_words.specs.States.{MayClaim};
ghost use Rattle.shared_tree_tests.specs.HeldPasses.HeldMarks.{HangsFromStart, HoldsMark, TakesBest};
ghost use Rattle.step_core.specs.declared.views.Stage.TheVariants.{Claimed, Counted, Posted};

use crate::passes::link::{claim_mark, expect_free, hang_at_cost, link_first, write_from_start};
use crate::passes::support::START;
use crate::support::{TwoPasses, sure, two_over};
use edge_cost::bound;
use plan_model::{Goal, Marks, Memory, Outcome, Point, Record, Scene, Sequence, Task, Vertex};
use plan_words::{Pass, Shared};
use std::alloc::Global;
use std::process::Abort;
use step_core::lies_in_goals;
use swept_check::Hall;

/// Where the only goal is.
const GOAL: Point = Point { x: 0, y: 50 };

/// The task of these marks in an informed scene with this start, whose only goal is a point.
fn informed_task(alloc: Global, start: Point, marks: &[Point]) -> Result<Task, Memory>
    requires start { IsInRoom (record { x = 100; y = 100 }) start }
    requires marks { IsTrue (is_plan 2 (Listed marks.now)) }
    ensures clear { IfOk result (λ task. ClearAt (space_of task.scene) task.scene.start) }
    ensures marks { IfOk result (λ task. task.marks ≡ marks.now) }
{
    let goal = Goal {
        low: GOAL,
        high: GOAL,
    };
    let scene = Scene {
        version: 2,
        room: Point { x: 100, y: 100 },
        body: Sequence::from_vec(vec![in alloc; Vertex { x: 0, y: 0 }]?),
        obstacles: Sequence::from_vec(Vec::new(alloc)),
        clearance: 0,
        start,
        goals: Sequence::from_vec(vec![in alloc; goal]?),
        step: 50,
        gamma: 1000,
        seed: 0,
        strips: 1,
        informed: true,
        plan: Marks::Listed(Sequence::from_vec(Vec::from_slice(alloc, marks)?)),
    };
    Ok(Task {
        scene,
        marks: Sequence::from_vec(Vec::from_slice(alloc, marks)?),
    })
}

/// Three marks, of which the first two lie in the goal.
fn marks_in_goal(alloc: Global, start: Point) -> Result<Task, Memory>
    requires start { IsInRoom (record { x = 100; y = 100 }) start }
    ensures clear { IfOk result (λ task. ClearAt (space_of task.scene) task.scene.start) }
    ensures marks { IfOk result (λ task. length task.marks ≡ 3) }
{
    informed_task(alloc, start, &[GOAL, GOAL, Point { x: 40, y: 30 }])
}

/// Two passes over these marks, with this start.
fn two_informed<R: Abort>(rt: &R, alloc: Global, start: Point) -> TwoPasses
    requires start { IsInRoom (record { x = 100; y = 100 }) start }
    ensures opening { result.shared.opening ≡ 0 }
    ensures marks { length result.shared.task.marks ≡ 3 }
    ensures first { MayClaim result.shared result.first }
    ensures second { MayClaim result.shared result.second }
{
    let task = sure(rt, marks_in_goal(alloc, start));
    two_over(rt, alloc, task)
}

/// Loads the best for the mark in hand: a goal node and a cost, or none.
fn load_best<R: Abort>(rt: &R, shared: &Shared, pass: &mut Pass, mark: u32) -> Option<(u32, u64)>
    requires holds { HoldsMark shared.now mark Claimed pass.old }
    ensures holds { HoldsMark shared.now mark Claimed pass.new }
    ensures takes { TakesBest result pass.new.view }
{
    if !shared.task().scene.informed {
        panic!(rt; "no mark is skipped");
    }
    shared.best(pass)
}

/// Loads the best for the mark in hand, which tells of no goal node.
fn expect_no_best<R: Abort>(rt: &R, shared: &Shared, pass: &mut Pass, mark: u32)
    requires holds { HoldsMark shared.now mark Claimed pass.old }
    ensures holds { HoldsMark shared.now mark Claimed pass.new }
    ensures takes { TakesBest None pass.new.view }
{
    let None = load_best(rt, shared, pass, mark) else {
        panic!(rt; "a goal node is known");
    };
}

/// Posts the node in hand, which is counted and lies in the goal.
fn post_own<R: Abort>(rt: &R, shared: &Shared, pass: &mut Pass, mark: u32, cost: u64)
    requires holds { HoldsMark shared.now mark Counted pass.old }
    requires hangs { HangsFromStart cost pass.old.view }
    ensures holds { HoldsMark shared.now mark Posted pass.new }
    ensures hangs { HangsFromStart cost pass.new.view }
{
    let scene = &shared.task().scene;
    if !scene.informed {
        panic!(rt; "no node is posted");
    }
    if !lies_in_goals(scene.goals.as_slice(), pass.hand_point()) {
        panic!(rt; "the node lies in no goal");
    }
    let (_, at) = shared.tree(pass, mark + 1);
    assert_eq!(rt; at, cost);
    shared.post(pass, mark + 1);
}

/// Records that the mark in hand was placed below the start, in the first turn of its worker, at this cost.
fn finish_posted<R: Abort>(rt: &R, shared: &Shared, pass: &mut Pass, mark: u32, cost: u64)
    requires holds { HoldsMark shared.now mark Posted pass.old }
    requires hangs { HangsFromStart cost pass.old.view }
{
    let nodes = shared.number(pass);
    if nodes == 0 {
        panic!(rt; "the start is not counted");
    }
    if pass.turn() != 0 {
        panic!(rt; "the worker has handled a mark before");
    }
    let entry = Record {
        worker: pass.worker(),
        turn: 0,
        nearest: 0,
        outcome: Outcome::Placed,
        first_parent: 0,
        first_cost: cost,
        class: 1,
    };
    shared.finish(pass, entry);
}

/// Records that the mark in hand was skipped by the goal node that the best has told.
fn skip_mark<R: Abort>(rt: &R, shared: &Shared, pass: &mut Pass, mark: u32, node: u32, cost: u64)
    requires holds { HoldsMark shared.now mark Claimed pass.old }
    requires takes { TakesBest (Some (node, cost)) pass.old.view }
{
    let scene = &shared.task().scene;
    if !scene.informed {
        panic!(rt; "no mark is skipped");
    }
    let at = shared.task().marks.as_slice()[mark as usize];
    if bound(scene.start, scene.goals.as_slice(), at) < cost {
        panic!(rt; "a path over the mark may be cheaper");
    }
    let entry = Record::unplaced(pass.worker(), pass.turn(), node, Outcome::Skipped);
    shared.finish(pass, entry);
}

/// The first pass places a node in the goal, and posts it.
fn place_in_goal<R: Abort>(rt: &R, alloc: Global, shared: &Shared, first: &mut Pass)
    requires opening { shared.now.opening ≡ 0 }
    requires marks { length shared.now.task.marks ≡ 3 }
    requires first { MayClaim shared.now first.old }
{
    claim_mark(rt, shared, first, 0);
    place_held_in_goal(rt, alloc, shared, first);
}

/// The same, once the first mark is in its hand.
fn place_held_in_goal<R: Abort>(rt: &R, alloc: Global, shared: &Shared, first: &mut Pass)
    requires marks { length shared.now.task.marks ≡ 3 }
    requires holds { HoldsMark shared.now 0 Claimed first.old }
{
    let hall = sure(rt, Hall::new(alloc, &shared.task().scene));
    expect_no_best(rt, shared, first, 0);
    write_from_start(rt, shared, first, 0, GOAL);
    hang_at_cost(rt, shared, &hall, first, 0, 12_800);
    expect_free(rt, shared, first, 0, 12_800);
    link_first(rt, shared, first, 0, 12_800);
    post_own(rt, shared, first, 0, 12_800);
    finish_posted(rt, shared, first, 0, 12_800);
    drop(hall);
}

/// Claims this mark, and skips it by this best.
fn claim_and_skip<R: Abort>(
    rt: &R,
    shared: &Shared,
    pass: &mut Pass,
    mark: u32,
    node: u32,
    cost: u64,
)
    requires opening { shared.now.opening ≡ 0 }
    requires marks { length shared.now.task.marks ≡ 3 }
    requires pass { MayClaim shared.now pass.old }
{
    claim_mark(rt, shared, pass, mark);
    skip_held(rt, shared, pass, mark, node, cost);
}

/// Skips the mark in hand by this best.
fn skip_held<R: Abort>(rt: &R, shared: &Shared, pass: &mut Pass, mark: u32, node: u32, cost: u64)
    requires holds { HoldsMark shared.now mark Claimed pass.old }
{
    let Some(best) = load_best(rt, shared, pass, mark) else {
        panic!(rt; "no goal node is known");
    };
    assert_eq!(rt; best, (node, cost));
    skip_mark(rt, shared, pass, mark, best.0, best.1);
}

#[test]
fn a_mark_is_skipped_by_the_node_that_another_pass_posted(rt: HostRuntime) {
    let mut two = two_informed(&rt, rt.alloc(), START);
    place_in_goal(&rt, rt.alloc(), &two.shared, &mut two.first);
    claim_and_skip(&rt, &two.shared, &mut two.second, 1, 1, 12_800);
    drop(two);
}

#[test]
fn a_pass_that_looks_again_finds_what_another_has_posted_since(rt: HostRuntime) {
    let mut two = two_informed(&rt, rt.alloc(), START);
    claim_mark(&rt, &two.shared, &mut two.first, 0);
    claim_mark(&rt, &two.shared, &mut two.second, 1);
    expect_no_best(&rt, &two.shared, &mut two.second, 1);
    place_held_in_goal(&rt, rt.alloc(), &two.shared, &mut two.first);
    skip_held(&rt, &two.shared, &mut two.second, 1, 1, 12_800);
    drop(two);
}

#[test]
fn a_tree_begins_with_the_best_of_its_run(rt: HostRuntime) {
    let mut two = two_informed(&rt, rt.alloc(), GOAL);
    claim_and_skip(&rt, &two.shared, &mut two.first, 0, 0, 0);
    claim_and_skip(&rt, &two.shared, &mut two.second, 1, 0, 0);
    drop(two);
}
