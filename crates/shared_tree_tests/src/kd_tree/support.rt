//! What the tests do with a pass: it places the points of marks below the nearest nodes, in scenes whose radius is 0.

ghost use Rattle.std.specs.Prelude.{◌≡◌, false, ◌≤◌, IfNone, IfOk, IfSome, IsTrue, length};
ghost use Rattle.shared_tree_tests.specs.SteeredPasses.HeldMarks.{HangsBelowNearest, HoldsMark, HoldsPlaced, SeesHandPoint, SteersFrom};
ghost use Rattle.plan_model.specs.Spaces.Clearance.{ClearAt};
ghost use Rattle.plan_model.specs.Spaces.ConfigurationSpace.{space_of, IsInRoom};
ghost use Rattle.plan_model.specs.Scenes.Limits.{is_plan};
ghost use Rattle.plan_model.specs.declared.limits.TheConstants.{LEAST_STRIPS, MOST_STRIPS};
ghost use Rattle.plan_model.specs.declared.scenes.Marks.TheVariants.{Listed};
ghost use Rattle.plan_words.specs.States.{MayClaim};
ghost use Rattle.step_core.specs.declared.views.Stage.TheVariants.{Claimed, Counted, Pointed, Treed};

use crate::support::{last_pass, some, sure};
use edge_cost::{class, cost, steer};
use kd_shared::{Placing, nearest, place};
use plan_model::{Goal, Memory, Outcome, Point, Record, SmallScene, Task};
use plan_words::{Pass, Shared};
use std::alloc::Global;
use std::process::Abort;
use step_core::Grown;
use swept_check::{Clearing, Hall};

/// These marks in the greatest room.
pub(crate) fn marks_round(
    alloc: Global,
    start: Point,
    strips: u32,
    marks: &[Point],
) -> Result<Task, Memory>
    requires start { IsInRoom (record { x = 65535; y = 65535 }) start }
    requires some_strips { LEAST_STRIPS ≤ strips }
    requires few_strips { strips ≤ MOST_STRIPS }
    requires plan { IsTrue (is_plan 1 (Listed marks.now)) }
    ensures clear { IfOk result (λ task. ClearAt (space_of task.scene) task.scene.start) }
    ensures marks { IfOk result (λ task. task.marks ≡ marks.now) }
{
    SmallScene {
        room: Point { x: 65535, y: 65535 },
        start,
        goal: Goal {
            low: Point { x: 0, y: 0 },
            high: Point { x: 0, y: 0 },
        },
        step: 4096,
        gamma: 0,
        seed: 0,
        strips,
    }
    .task(alloc, marks)
}

/// Claims a mark.
pub(crate) fn take_mark(shared: &Shared, pass: &mut Pass, limit: u32) -> Option<u32>
    requires may_claim { MayClaim shared.now pass.old }
    requires low { shared.now.opening ≤ limit }
    requires limit { limit ≤ length shared.now.task.marks }
    ensures none { IfNone result (MayClaim shared.now pass.new) }
    ensures some { IfSome result (λ k. HoldsMark shared.now k Claimed pass.new) }
{
    shared.claim(pass, limit)
}

/// A mark, the node that steers towards it, and where to.
#[derive(Clone, Copy)]
pub(crate) struct Steering {
    pub(crate) mark: u32,
    pub(crate) nearest: u32,
    pub(crate) point: Point,
}

/// Writes the point of the mark in hand, steered from the nearest node, in a scene whose marks are not skipped.
pub(crate) fn write_from_nearest(shared: &Shared, pass: &mut Pass, mark: u32) -> Steering
    requires holds { HoldsMark shared.now mark Claimed pass.old }
    requires plain { shared.now.task.scene.informed ≡ false }
    ensures holds { HoldsMark shared.now result.mark Pointed pass.new }
    ensures steers { SteersFrom result.nearest pass.new.view }
{
    let towards = shared.task().marks.as_slice()[mark as usize];
    let closest = nearest(shared, pass, towards);
    let from = shared.point(pass, closest);
    let point = steer(from, towards, shared.task().scene.step);
    shared.write_point(pass, closest, point);
    Steering {
        mark,
        nearest: closest,
        point,
    }
}

/// Writes the parent and the cost of the node in hand, below the node that it was steered from, and returns the cost. Returns
/// `None` if the segment from there is not clear.
pub(crate) fn hang_from_nearest(
    shared: &Shared,
    hall: &Hall,
    pass: &mut Pass,
    mark: u32,
    closest: u32,
) -> Option<u64>
    requires holds { HoldsMark shared.now mark Pointed pass.old }
    requires steers { SteersFrom closest pass.old.view }
    requires hall { hall.now ≡ space_of shared.now.task.scene }
    ensures holds { IfSome result (λ _. HoldsMark shared.now mark Treed pass.new) }
    ensures hangs { IfSome result (λ cost. HangsBelowNearest closest cost pass.new.view) }
{
    let from = shared.point(pass, closest);
    let (_, cost_to_come) = shared.tree(pass, closest);
    let p = pass.hand_point();
    if !hall.clear(from, p) {
        return None;
    }
    let through = cost_to_come + cost(from, p);
    shared.write_tree(pass, closest, through);
    Some(through)
}

/// Places the node of the mark in hand.
pub(crate) fn place_mark(
    shared: &Shared,
    pass: &mut Pass,
    mark: u32,
    closest: u32,
    cost: u64,
) -> Placing
    requires holds { HoldsMark shared.now mark Treed pass.old }
    requires hangs { HangsBelowNearest closest cost pass.old.view }
    ensures holds { HoldsPlaced shared.now mark result pass.new }
    ensures hangs { HangsBelowNearest closest cost pass.new.view }
{
    place(shared, pass, mark)
}

/// Records that the mark in hand was placed below its nearest node, in a scene whose radius is 0. Returns `None` if there is
/// another radius, or no node is counted.
fn finish_placed(shared: &Shared, pass: &mut Pass, mark: u32, closest: u32, cost: u64) -> Option<()>
    requires holds { HoldsMark shared.now mark Counted pass.old }
    requires hangs { HangsBelowNearest closest cost pass.old.view }
    requires plain { shared.now.task.scene.informed ≡ false }
    ensures { IfSome result (λ _. MayClaim shared.now pass.new) }
{
    if shared.task().scene.gamma != 0 {
        return None;
    }
    let nodes = shared.number(pass);
    if nodes == 0 {
        return None;
    }
    let entry = Record {
        worker: pass.worker(),
        turn: pass.turn(),
        nearest: closest,
        outcome: Outcome::Placed,
        first_parent: closest,
        first_cost: cost,
        class: class(u64::from(nodes)),
    };
    shared.finish(pass, entry);
    Some(())
}

/// Records that another node stands at the point of the mark in hand.
fn finish_same(shared: &Shared, pass: &mut Pass, mark: u32, closest: u32, node: u32)
    requires holds { HoldsMark shared.now mark Treed pass.old }
    requires steers { SteersFrom closest pass.old.view }
    requires seen { SeesHandPoint pass.old.view node }
    requires plain { shared.now.task.scene.informed ≡ false }
    ensures { MayClaim shared.now pass.new }
{
    let entry = Record::unplaced(pass.worker(), pass.turn(), closest, Outcome::Same(node));
    shared.finish(pass, entry);
}

/// Places the node of the mark in hand below the node that it was steered from, and records how it ended. Returns `None` if the
/// way there is blocked, the record cannot be made, or a mark may be skipped.
pub(crate) fn place_and_finish(
    shared: &Shared,
    hall: &Hall,
    pass: &mut Pass,
    mark: u32,
    closest: u32,
) -> Option<Placing>
    requires holds { HoldsMark shared.now mark Pointed pass.old }
    requires steers { SteersFrom closest pass.old.view }
    requires hall { hall.now ≡ space_of shared.now.task.scene }
    ensures { IfSome result (λ _. MayClaim shared.now pass.new) }
{
    if shared.task().scene.informed {
        return None;
    }
    let cost = hang_from_nearest(shared, hall, pass, mark, closest)?;
    let placing = place_mark(shared, pass, mark, closest, cost);
    match placing {
        Placing::Placed => finish_placed(shared, pass, mark, closest, cost)?,
        Placing::Same(node) => finish_same(shared, pass, mark, closest, node),
    }
    Some(placing)
}

/// A mark, and how its node was placed.
#[derive(Clone, Copy)]
pub(crate) struct PlacedMark {
    pub(crate) mark: u32,
    pub(crate) placing: Placing,
}

/// Places the next mark, if there is one and no mark may be skipped.
pub(crate) fn place_next(
    shared: &Shared,
    hall: &Hall,
    pass: &mut Pass,
    limit: u32,
) -> Option<PlacedMark>
    requires may_claim { MayClaim shared.now pass.old }
    requires hall { hall.now ≡ space_of shared.now.task.scene }
    requires low { shared.now.opening ≤ limit }
    requires limit { limit ≤ length shared.now.task.marks }
    ensures { IfSome result (λ _. MayClaim shared.now pass.new) }
{
    if shared.task().scene.informed {
        return None;
    }
    let mark = take_mark(shared, pass, limit)?;
    let steering = write_from_nearest(shared, pass, mark);
    let placing = place_and_finish(shared, hall, pass, steering.mark, steering.nearest)?;
    Some(PlacedMark { mark, placing })
}

/// Places so many marks. Returns `None` if one cannot be placed and recorded.
fn place_all(shared: &Shared, hall: &Hall, pass: &mut Pass, limit: u32) -> Option<()>
    requires may_claim { MayClaim shared.now pass.old }
    requires hall { hall.now ≡ space_of shared.now.task.scene }
    requires low { shared.now.opening ≤ limit }
    requires limit { limit ≤ length shared.now.task.marks }
    ensures { IfSome result (λ _. MayClaim shared.now pass.new) }
{
    'marks: for _ in 0..limit {
        let _placed = place_next(shared, hall, pass, limit)?;
    }
    Some(())
}

/// A shared tree, and the pass that has it to itself.
#[derive(Drop)]
pub(crate) struct OnePass {
    pub(crate) shared: Shared,
    pub(crate) pass: Pass,
}

/// The shared tree of a task, and its pass.
fn shared_by_one<R: Abort>(rt: &R, alloc: Global, task: Task) -> OnePass
    requires { ClearAt (space_of task.scene) task.scene.start }
    ensures opening { result.shared.opening ≡ 0 }
    ensures task { result.shared.task ≡ task }
    ensures pass { MayClaim result.shared result.pass }
{
    let grown = sure(rt, Grown::new(alloc, task));
    let (shared, mut passes) = sure(rt, Shared::start(alloc, grown, 1));
    let pass = some(rt, last_pass(&shared, &mut passes));
    drop(passes);
    OnePass { shared, pass }
}

/// A tree with nodes at these points round the start, each linked by the pass.
pub(crate) fn tree_of<R: Abort>(rt: &R, alloc: Global, start: Point, points: &[Point]) -> OnePass
    requires start { IsInRoom (record { x = 65535; y = 65535 }) start }
    requires plan { IsTrue (is_plan 1 (Listed points.now)) }
    ensures { MayClaim result.shared result.pass }
{
    let task = sure(rt, marks_round(alloc, start, 1, points));
    let hall = sure(rt, Hall::new(alloc, &task.scene));
    let mut one = shared_by_one(rt, alloc, task);
    let limit = points.len() as u32;
    some(rt, place_all(&one.shared, &hall, &mut one.pass, limit));
    drop(hall);
    one
}
