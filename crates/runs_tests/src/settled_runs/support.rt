//! A run for tests, in which three nodes are kept at more than their costs-to-come, and the last alone at more than through its
//! parent.
//! Runs and lists end by calls of `drop`: the proof of a call is shared, and that of the end of a scope is each function's own.

ghost use Rattle.std.specs.Prelude.{◌≡◌, ◌∷◌, [], IfOk, IsTrue, Ok, Some, length};
ghost use Rattle.plan_model.specs.Spaces.Clearance.{ClearAt};
ghost use Rattle.plan_model.specs.Runs.ClosedLaw.{IsClosed};
ghost use Rattle.plan_model.specs.Spaces.ConfigurationSpace.{space_of, empty_room};
ghost use Rattle.plan_model.specs.Scenes.Limits.{are_goals, is_plan};
ghost use Rattle.plan_model.specs.Runs.Textbook.{setup_of};
ghost use Rattle.plan_model.specs.Vectors.Reports.{placed_record};
ghost use Rattle.plan_model.specs.Trees.TreeStates.{IsSettled};
ghost use Rattle.plan_model.specs.Vectors.Geometry.{at};
ghost use Rattle.plan_model.specs.declared.scenes.Marks.TheVariants.{Listed};
ghost use Rattle.grown_runs.specs.Runs.GrownRuns.{state_of_grown};
ghost use Rattle.grown_runs.specs.Runs.PackedRuns.{state_of_lists};

use grown_runs::Grown;
use plan_model::{
    Goal, Knot, Knots, Marks, Memory, Outcome, Point, Record, Records, Scene, Sequence, Task,
    Vertex,
};
use settle_report::settle;
use std::alloc::Global;
use std::process::Abort;

/// What was made, for which memory lasts. A test ends here if none is left, so that no value is dropped on the way.
pub(crate) fn sure<R: Abort, T>(rt: &R, made: Result<T, Memory>) -> T
    ensures { made ≡ Ok result }
{
    match made {
        Ok(value) => value,
        Err(error) => panic!(rt; "{error}"),
    }
}

/// Settles a run.
pub(crate) fn settle_run<R: Abort>(rt: &R, alloc: Global, grown: &mut Grown)
    ensures { IsSettled (state_of_grown grown.new) }
{
    sure(rt, settle(alloc, grown));
}

/// Settles a run that is settled, for which it takes no memory.
pub(crate) fn settle_again(alloc: Global, grown: &mut Grown)
    requires { IsSettled (state_of_grown grown.old) }
    ensures { grown.new ≡ grown.old }
{
    settle(alloc, grown).unwrap();
}

/// The scene of these marks for a point body in an empty room, from (0, 0) by steps of 50; nothing is rewired.
fn scene_of(alloc: Global, goals: &[Goal], marks: &[Point]) -> Result<Scene, Memory>
    requires goals { IsTrue (are_goals 2 goals.now) }
    requires marks { IsTrue (is_plan 2 (Listed marks.now)) }
    ensures setup { IfOk result (λ scene. setup_of scene ≡ record { space = empty_room (at 100 100); start = at 0 0; step = 50; gamma = 0; goals = [] }) }
    ensures plan { IfOk result (λ scene. scene.plan ≡ Listed marks.now) }
{
    Ok(Scene {
        version: 2,
        room: Point { x: 100, y: 100 },
        body: Sequence::from_vec(vec![in alloc; Vertex { x: 0, y: 0 }]?),
        obstacles: Sequence::from_vec(Vec::new(alloc)),
        clearance: 0,
        start: Point { x: 0, y: 0 },
        goals: Sequence::from_vec(Vec::from_slice(alloc, goals)?),
        step: 50,
        gamma: 0,
        seed: 0,
        strips: 3,
        informed: false,
        plan: Marks::Listed(Sequence::from_vec(Vec::from_slice(alloc, marks)?)),
    })
}

/// Its task, to reach one of these goals.
fn task_of<R: Abort>(rt: &R, alloc: Global, goals: &[Goal], marks: &[Point]) -> Task
    requires goals { IsTrue (are_goals 2 goals.now) }
    requires marks { IsTrue (is_plan 2 (Listed marks.now)) }
    ensures setup { setup_of result.scene ≡ record { space = empty_room (at 100 100); start = at 0 0; step = 50; gamma = 0; goals = [] } }
    ensures marks { result.marks ≡ marks.now }
    ensures clear { ClearAt (space_of result.scene) result.scene.start }
{
    Task {
        scene: sure(rt, scene_of(alloc, goals, marks)),
        marks: Sequence::from_vec(sure(rt, listed(alloc, marks))),
    }
}

/// A list of these marks.
fn listed(alloc: Global, marks: &[Point]) -> Result<Vec<Point>, Memory>
    ensures { IfOk result (λ list. list.items ≡ marks.now) }
{
    Ok(Vec::from_slice(alloc, marks)?)
}

/// A list of these nodes.
fn knots_of(alloc: Global, knots: &[Option<Knot>]) -> Result<Knots, Memory>
    ensures { IfOk result (λ list. list ≡ knots.now) }
{
    Ok(Sequence::from_vec(Vec::from_slice(alloc, knots)?))
}

/// A list of these records.
fn records_of(alloc: Global, records: &[Record]) -> Result<Records, Memory>
    ensures { IfOk result (λ list. list ≡ records.now) }
{
    Ok(Sequence::from_vec(Vec::from_slice(alloc, records)?))
}

/// The run of a task with these nodes and these records.
fn packed<R: Abort>(
    rt: &R,
    alloc: Global,
    task: Task,
    knots: &[Option<Knot>],
    records: &[Record],
) -> Grown
    requires { IsClosed (setup_of task.scene) task.marks (length records.now) (state_of_lists knots.now records.now) }
{
    let knots = sure(rt, knots_of(alloc, knots));
    let records = sure(rt, records_of(alloc, records));
    let grown = sure(rt, Grown::pack(alloc, task, &knots, &records));
    drop(knots);
    drop(records);
    grown
}

/// A node with its kept cost.
fn node(x: u32, y: u32, parent: u32, cost: u64) -> Option<Knot>
    ensures { result ≡ Some (record { point = at x y; parent = parent; cost = cost }) }
{
    Some(Knot {
        point: Point { x, y },
        parent,
        cost,
    })
}

/// The record of a mark that worker 0 placed.
fn placed(turn: u32, nearest: u32, first_parent: u32, first_cost: u64, class: u32) -> Record
    ensures { result ≡ placed_record turn nearest first_parent first_cost class }
{
    Record {
        worker: 0,
        turn,
        nearest,
        outcome: Outcome::Placed,
        first_parent,
        first_cost,
        class,
    }
}

/// The nodes of the run of four marks.
fn unsettled_knots() -> [Option<Knot>; 5]
    ensures { result
        ≡ Some (record { point = at 0 0; parent = 0; cost = 0 })
        ∷ Some (record { point = at 0 50; parent = 0; cost = 12800 })
        ∷ Some (record { point = at 40 79; parent = 3; cost = 25444 })
        ∷ Some (record { point = at 40 30; parent = 4; cost = 12900 })
        ∷ Some (record { point = at 24 18; parent = 0; cost = 7780 }) ∷ [] }
{
    [
        node(0, 0, 0, 0),
        node(0, 50, 0, 12_800),
        node(40, 79, 3, 25_444),
        node(40, 30, 4, 12_900),
        node(24, 18, 0, 7_780),
    ]
}

/// Its records.
fn unsettled_records() -> [Record; 4]
    ensures { result
        ≡ placed_record 0 0 0 12800 1 ∷ placed_record 1 1 1 25449 2 ∷ placed_record 2 1 1 24249 2
        ∷ placed_record 3 3 3 29369 3 ∷ [] }
{
    [
        placed(0, 0, 0, 12_800, 1),
        placed(1, 1, 1, 25_449, 2),
        placed(2, 1, 1, 24_249, 2),
        placed(3, 3, 3, 29_369, 3),
    ]
}

/// A run of four marks. Nodes 1 at (0, 50) and 4 at (24, 18) have the start as their parent, at (0, 0), node 3 at (40, 30) has
/// node 4, and node 2 at (40, 79) has node 3.
///
/// Node 4 is kept at 7,780, but the start is 7,680 from it. It is 5,120 from node 3 and that 12,544 from node 2, and both are kept
/// at no more than through their parents, 12,900 and 25,444. So node 4 alone is not tight, the last one, and nodes 3 and 2 cost
/// less too once that is settled.
pub(crate) fn unsettled_run<R: Abort>(rt: &R, alloc: Global, goals: &[Goal]) -> Grown
    requires { IsTrue (are_goals 2 goals.now) }
{
    let marks = [
        Point { x: 0, y: 50 },
        Point { x: 40, y: 79 },
        Point { x: 40, y: 30 },
        Point { x: 24, y: 18 },
    ];
    let task = task_of(rt, alloc, goals, &marks);
    packed(rt, alloc, task, &unsettled_knots(), &unsettled_records())
}

/// A run of one mark in the same room that has handled none.
pub(crate) fn start_alone<R: Abort>(rt: &R, alloc: Global, goals: &[Goal]) -> Grown
    requires { IsTrue (are_goals 2 goals.now) }
{
    let task = task_of(rt, alloc, goals, &[Point { x: 0, y: 50 }]);
    sure(rt, Grown::new(alloc, task))
}
