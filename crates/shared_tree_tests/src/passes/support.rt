//! What the tests share: three passes over marks in three strips, and what they do with a pass.

ghost use Rattle.std.specs.Prelude.{◌≡◌, ◌<◌, ◌≤◌, IfOk, IsTrue, length};
ghost use Rattle.plan_model.specs.Spaces.Clearance.{ClearAt};
ghost use Rattle.plan_model.specs.Runs.ClosedLaw.{mark_at};
ghost use Rattle.plan_model.specs.Spaces.ConfigurationSpace.{space_of};
ghost use Rattle.plan_model.specs.Scenes.Limits.{is_plan};
ghost use Rattle.plan_model.specs.declared.limits.TheConstants.{MOST_MARKS};
ghost use Rattle.plan_model.specs.declared.scenes.Marks.TheVariants.{Listed};
ghost use Rattle.plan_words.specs.States.{MayClaim};
ghost use Rattle.shared_tree_tests.specs.HeldPasses.HeldMarks.{HoldsMark};
ghost use Rattle.step_core.specs.ViewTrees.{SeesPoint};
ghost use Rattle.step_core.specs.Views.{share};
ghost use Rattle.step_core.specs.declared.views.Stage.TheVariants.{Claimed};

use crate::support::{last_pass, some, sure};
use plan_model::{Goal, MOST_MARKS, Memory, Outcome, Point, Record, SmallScene, Task};
use plan_words::{Pass, Shared};
use std::alloc::Global;
use std::process::Abort;
use step_core::Grown;

pub(crate) const START: Point = Point { x: 0, y: 0 };

/// These marks in a small room, in three strips.
fn marks_in_strips(alloc: Global, marks: &[Point]) -> Result<Task, Memory>
    requires { IsTrue (is_plan 1 (Listed marks.now)) }
    ensures clear { IfOk result (λ task. ClearAt (space_of task.scene) task.scene.start) }
    ensures marks { IfOk result (λ task. task.marks ≡ marks.now) }
    ensures strips { IfOk result (λ task. task.scene.strips ≡ 3) }
{
    SmallScene {
        room: Point { x: 100, y: 100 },
        start: START,
        goal: Goal {
            low: Point { x: 90, y: 90 },
            high: Point { x: 99, y: 99 },
        },
        step: 50,
        gamma: 1000,
        seed: 0,
        strips: 3,
    }
    .task(alloc, marks)
}

/// This many marks on the start.
fn marks_on_start(alloc: Global, count: u32) -> Result<Vec<Point>, Memory>
    requires { count ≤ MOST_MARKS }
    ensures plan { IfOk result (λ marks. IsTrue (is_plan 1 (Listed marks.items))) }
    ensures count { IfOk result (λ marks. length marks.items ≡ count) }
{
    Ok(vec![in alloc; START; count as usize]?)
}

/// The task of this many marks on the start.
pub(crate) fn task_on_start<R: Abort>(rt: &R, alloc: Global, count: u32) -> Task
    requires { count ≤ MOST_MARKS }
    ensures clear { ClearAt (space_of result.scene) result.scene.start }
    ensures marks { length result.marks ≡ count }
    ensures strips { result.scene.strips ≡ 3 }
{
    let marks = sure(rt, marks_on_start(alloc, count));
    sure(rt, marks_in_strips(alloc, &marks))
}

/// A shared tree, and its first, its second and its third pass.
#[derive(Drop)]
pub(crate) struct ThreePasses {
    pub(crate) shared: Shared,
    pub(crate) first: Pass,
    pub(crate) second: Pass,
    pub(crate) third: Pass,
}

/// Three passes over the marks of a task.
fn three_over<R: Abort>(rt: &R, alloc: Global, task: Task) -> ThreePasses
    requires { ClearAt (space_of task.scene) task.scene.start }
    ensures opening { result.shared.opening ≡ 0 }
    ensures task { result.shared.task ≡ task }
    ensures first { MayClaim result.shared result.first }
    ensures second { MayClaim result.shared result.second }
    ensures third { MayClaim result.shared result.third }
{
    let grown = sure(rt, Grown::new(alloc, task));
    let (shared, mut passes) = sure(rt, Shared::start(alloc, grown, 3));
    let third = some(rt, last_pass(&shared, &mut passes));
    let second = some(rt, last_pass(&shared, &mut passes));
    let first = some(rt, last_pass(&shared, &mut passes));
    ThreePasses {
        shared,
        first,
        second,
        third,
    }
}

/// Three passes that may claim this many marks on the start.
pub(crate) fn three_passes<R: Abort>(rt: &R, alloc: Global, count: u32) -> ThreePasses
    requires { count ≤ MOST_MARKS }
    ensures opening { result.shared.opening ≡ 0 }
    ensures marks { length result.shared.task.marks ≡ count }
    ensures strips { result.shared.task.scene.strips ≡ 3 }
    ensures first { MayClaim result.shared result.first }
    ensures second { MayClaim result.shared result.second }
    ensures third { MayClaim result.shared result.third }
{
    let task = task_on_start(rt, alloc, count);
    three_over(rt, alloc, task)
}

/// Sees that the mark in hand lies on the start.
fn expect_on_start<R: Abort>(rt: &R, shared: &Shared, pass: &mut Pass, mark: u32)
    requires { HoldsMark shared.now mark Claimed pass.old }
    ensures holds { HoldsMark shared.now mark Claimed pass.new }
    ensures on_start { SeesPoint pass.new.view 0 (mark_at shared.now.task.marks mark) }
    ensures part { share pass.new.view ≡ share pass.old.view }
{
    let start = shared.point(pass, 0);
    if shared.task().marks.as_slice()[mark as usize] != start {
        panic!(rt; "the mark does not lie on the start");
    }
}

/// Claims a mark that lies on the start, and records that it ended there.
pub(crate) fn take_turn<R: Abort>(
    rt: &R,
    shared: &Shared,
    pass: &mut Pass,
    limit: u32,
) -> Option<u32>
    requires may_claim { MayClaim shared.now pass.old }
    requires low { shared.now.opening ≤ limit }
    requires limit { limit ≤ length shared.now.task.marks }
    ensures may_claim { MayClaim shared.now pass.new }
    ensures part { share pass.new.view ≡ share pass.old.view }
{
    let mark = shared.claim(pass, limit)?;
    if shared.task().scene.informed {
        panic!(rt; "a mark may be skipped");
    }
    expect_on_start(rt, shared, pass, mark);
    let entry = Record::unplaced(pass.worker(), pass.turn(), 0, Outcome::Same(0));
    shared.finish(pass, entry);
    Some(mark)
}

/// Compares two numbers of what is named.
pub(crate) fn expect_same<R: Abort>(rt: &R, found: u32, want: u32, what: &str) {
    assert_eq!(rt; found, want, "{what}");
}

/// Compares the mark that a pass takes.
pub(crate) fn expect_turn<R: Abort>(
    rt: &R,
    shared: &Shared,
    pass: &mut Pass,
    limit: u32,
    want: Option<u32>,
)
    requires may_claim { MayClaim shared.now pass.old }
    requires low { shared.now.opening ≤ limit }
    requires limit { limit ≤ length shared.now.task.marks }
    ensures may_claim { MayClaim shared.now pass.new }
{
    let mark = take_turn(rt, shared, pass, limit);
    assert_eq!(rt; mark, want);
}

/// Compares the counter of a strip.
pub(crate) fn expect_taken<R: Abort>(
    rt: &R,
    shared: &Shared,
    pass: &mut Pass,
    strip: u32,
    want: u32,
)
    requires may_claim { MayClaim shared.now pass.old }
    requires strip { strip < shared.now.task.scene.strips }
    ensures may_claim { MayClaim shared.now pass.new }
{
    let taken = shared.taken(pass, strip);
    expect_same(rt, taken, want, "taken marks of a strip");
}

/// Compares the worker of a pass, and its next turn.
pub(crate) fn expect_worker<R: Abort>(rt: &R, shared: &Shared, pass: &Pass, worker: u32, turn: u32)
    requires { MayClaim shared.now pass.now }
{
    let at = pass.worker();
    expect_same(rt, at, worker, "worker");
    let next = pass.turn();
    expect_same(rt, next, turn, "next turn");
}
