//! A goal node below one that is lowered, in an informed scene.

ghost use Rattle.std.specs.Prelude.{◌≡◌, IfOk, IsTrue, length, true};
ghost use Rattle.plan_model.specs.Scenes.Limits.{is_plan};
ghost use Rattle.plan_model.specs.Spaces.Clearance.{ClearAt};
ghost use Rattle.plan_model.specs.Spaces.ConfigurationSpace.{space_of, IsInRoom};
ghost use Rattle.plan_model.specs.declared.scenes.Marks.TheVariants.{Listed};
ghost use Rattle.growing_tests.specs.LoweredNodes.HeldMarks.{IsAtWork};

use crate::rewiring::support::{Begun, FAR, START, begun_after, lower_and_spread, sure};
use plan_model::{Goal, Marks, Memory, Point, Scene, Sequence, Task, Vertex};
use plan_words::{Pass, Shared};
use std::alloc::Global;
use std::process::Abort;
use std::thread::Threads;
use swept_check::Hall;

/// A node in the way to the goal that is cheaper below the start.
const TURN: Point = Point { x: 40, y: 20 };

/// Nodes in a chain that ends in the goal.
static TO_GOAL: [Point; 5] = [
    Point { x: 20, y: 0 },
    Point { x: 40, y: 0 },
    TURN,
    Point { x: 40, y: 40 },
    FAR,
];

/// The task of these marks in an informed scene with this start, in which nothing is rewired.
fn informed_task(alloc: Global, start: Point, marks: &[Point]) -> Result<Task, Memory>
    requires start { IsInRoom (record { x = 100; y = 100 }) start }
    requires marks { IsTrue (is_plan 2 (Listed marks.now)) }
    ensures informed { IfOk result (λ task. task.scene.informed ≡ true) }
    ensures clear { IfOk result (λ task. ClearAt (space_of task.scene) task.scene.start) }
    ensures marks { IfOk result (λ task. task.marks ≡ marks.now) }
{
    let goal = Goal {
        low: FAR,
        high: FAR,
    };
    let scene = Scene {
        version: 2,
        room: Point { x: 100, y: 100 },
        body: Sequence::from_vec(vec![in alloc; Vertex { x: 0, y: 0 }]?),
        obstacles: Sequence::from_vec(Vec::new(alloc)),
        clearance: 0,
        start,
        goals: Sequence::from_vec(vec![in alloc; goal]?),
        step: 50,
        gamma: 0,
        seed: 0,
        strips: 1,
        informed: true,
        plan: Marks::Listed(Sequence::from_vec(Vec::from_slice(alloc, marks)?)),
    };
    Ok(Task {
        scene,
        marks: Sequence::from_vec(Vec::from_slice(alloc, marks)?),
    })
}

/// The task of the nodes that end in the goal.
fn task_to_goal(alloc: Global) -> Result<Task, Memory>
    ensures informed { IfOk result (λ task. task.scene.informed ≡ true) }
    ensures clear { IfOk result (λ task. ClearAt (space_of task.scene) task.scene.start) }
    ensures marks { IfOk result (λ task. length task.marks ≡ 5) }
{
    informed_task(alloc, START, &TO_GOAL)
}

/// A pass over a tree of these nodes in that scene, each of which hangs below the one that was nearest.
fn begun_to_goal<R: Threads + Sync + Abort>(rt: &R, alloc: Global) -> Begun
    ensures informed { result.shared.task.scene.informed ≡ true }
    ensures hall { result.hall ≡ space_of result.shared.task.scene }
    ensures works { IsAtWork result.shared result.pass }
{
    let task = sure(rt, task_to_goal(alloc));
    begun_after(rt, alloc, task, 5)
}

/// Compares the best, a goal node and a cost.
fn expect_best<R: Abort>(rt: &R, shared: &Shared, pass: &mut Pass, want: (u32, u64))
    requires works { IsAtWork shared.now pass.old }
    requires informed { shared.now.task.scene.informed ≡ true }
    ensures { IsAtWork shared.now pass.new }
{
    let Some(best) = shared.best(pass) else {
        panic!(rt; "no goal node is known")
    };
    assert_eq!(rt; best, want);
}

/// Compares the best before a node in the way to the goal is lowered below the start, and after it.
fn expect_posted<R: Abort>(rt: &R, shared: &Shared, hall: &Hall, pass: &mut Pass)
    requires works { IsAtWork shared.now pass.old }
    requires informed { shared.now.task.scene.informed ≡ true }
    requires hall { hall.now ≡ space_of shared.now.task.scene }
{
    expect_best(rt, shared, pass, (5, 30_464));
    let lowered = lower_and_spread(shared, hall, pass, TURN, START);
    assert!(rt; lowered);
    expect_best(rt, shared, pass, (5, 26_553));
}

#[test]
fn a_goal_node_in_the_subtree_is_posted(rt: HostRuntime) {
    let mut begun = begun_to_goal(&rt, rt.alloc());
    expect_posted(&rt, &begun.shared, &begun.hall, &mut begun.pass);
    drop(begun);
}
