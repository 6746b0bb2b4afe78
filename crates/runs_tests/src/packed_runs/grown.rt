//! Runs that are packed and read back.

ghost use Rattle.std.specs.Prelude.{◌≡◌, ◌∷◌, ◌≤◌, [], IfOk, IsTrue, None, Ok, Some, length};
ghost use Rattle.plan_model.specs.Spaces.Clearance.{ClearAt};
ghost use Rattle.plan_model.specs.Runs.ClosedLaw.{IsClosed};
ghost use Rattle.plan_model.specs.Spaces.ConfigurationSpace.{space_of, empty_room};
ghost use Rattle.plan_model.specs.Scenes.Limits.{is_plan};
ghost use Rattle.plan_model.specs.Runs.Textbook.{setup_of};
ghost use Rattle.plan_model.specs.Vectors.Reports.{blocked_record, placed_record, same_record};
ghost use Rattle.plan_model.specs.Vectors.Runs.{rewired_records};
ghost use Rattle.plan_model.specs.Vectors.Geometry.{at};
ghost use Rattle.plan_model.specs.declared.limits.TheConstants.{MOST_MARKS};
ghost use Rattle.plan_model.specs.declared.scenes.Marks.TheVariants.{Listed};
ghost use Rattle.grown_runs.specs.Runs.PackedRuns.{state_of_lists};

use grown_runs::Grown;
use plan_model::{
    Goal, Knot, Knots, MOST_MARKS, Memory, Outcome, Point, Record, Records, Sequence, SmallScene,
    Task,
};
use std::alloc::Global;
use std::process::Abort;

/// What was made, for which memory lasts. A test ends here if none is left, so that no value is dropped on the way.
fn sure<R: Abort, T>(rt: &R, made: Result<T, Memory>) -> T
    ensures { made ≡ Ok result }
{
    match made {
        Ok(value) => value,
        Err(error) => panic!(rt; "{error}"),
    }
}

/// The task of these marks for a point body in an empty room of this side, from this start by steps of 50.
fn task_of<R: Abort>(rt: &R, alloc: Global, side: u32, start: Point, marks: &[Point]) -> Task
    requires low { 1 ≤ side }
    requires high { side ≤ 65535 }
    requires right { start.x ≤ side }
    requires top { start.y ≤ side }
    requires marks { IsTrue (is_plan 1 (Listed marks.now)) }
    ensures setup { setup_of result.scene ≡ record { space = empty_room (at side side); start = start; step = 50; gamma = 1000; goals = [] } }
    ensures marks { result.marks ≡ marks.now }
    ensures clear { ClearAt (space_of result.scene) result.scene.start }
{
    let small = SmallScene {
        room: Point { x: side, y: side },
        start,
        goal: Goal {
            low: Point { x: 90, y: 90 },
            high: Point { x: 99, y: 99 },
        },
        step: 50,
        gamma: 1000,
        seed: 0,
        strips: 3,
    };
    sure(rt, small.task(alloc, marks))
}

/// A list of these nodes.
fn knots_of(alloc: Global, knots: &[Option<Knot>]) -> Result<Knots, Memory>
    ensures { IfOk result (λ list. list ≡ knots.now) }
{
    Ok(Sequence::from_vec(Vec::from_slice(alloc, knots)?))
}

/// A list of these records.
fn records_of(alloc: Global, records: &[Record]) -> Result<Records, Memory>
    ensures { IfOk result (λ list. list ≡ records.now) }
{
    Ok(Sequence::from_vec(Vec::from_slice(alloc, records)?))
}

/// The run of a task with these nodes and these records.
fn packed<R: Abort>(
    rt: &R,
    alloc: Global,
    task: Task,
    knots: &[Option<Knot>],
    records: &[Record],
) -> Grown
    requires { IsClosed (setup_of task.scene) task.marks (length records.now) (state_of_lists knots.now records.now) }
    ensures { result.limit ≡ length records.now }
{
    let knots = sure(rt, knots_of(alloc, knots));
    let records = sure(rt, records_of(alloc, records));
    let grown = sure(rt, Grown::pack(alloc, task, &knots, &records));
    drop(knots);
    drop(records);
    grown
}

/// A node with its kept cost.
fn node(x: u32, y: u32, parent: u32, cost: u64) -> Option<Knot>
    ensures { result ≡ Some (record { point = at x y; parent = parent; cost = cost }) }
{
    Some(Knot {
        point: Point { x, y },
        parent,
        cost,
    })
}

/// The record of a mark that worker 0 placed.
fn placed(turn: u32, nearest: u32, first_parent: u32, first_cost: u64, class: u32) -> Record
    ensures { result ≡ placed_record turn nearest first_parent first_cost class }
{
    Record {
        worker: 0,
        turn,
        nearest,
        outcome: Outcome::Placed,
        first_parent,
        first_cost,
        class,
    }
}

/// The nodes of three marks of which the third gives the node of the second a cheaper way.
fn rewired_knots() -> [Option<Knot>; 4]
    ensures { result
        ≡ Some (record { point = at 0 0; parent = 0; cost = 0 })
        ∷ Some (record { point = at 0 50; parent = 0; cost = 12800 })
        ∷ Some (record { point = at 40 79; parent = 3; cost = 25344 })
        ∷ Some (record { point = at 40 30; parent = 0; cost = 12800 }) ∷ [] }
{
    [
        node(0, 0, 0, 0),
        node(0, 50, 0, 12_800),
        node(40, 79, 3, 25_344),
        node(40, 30, 0, 12_800),
    ]
}

/// The records of these marks.
fn rewired_records() -> [Record; 3]
    ensures { result ≡ rewired_records }
{
    [
        placed(0, 0, 0, 12_800, 1),
        placed(1, 1, 1, 25_449, 2),
        placed(2, 1, 0, 12_800, 2),
    ]
}

/// The run of these marks.
fn rewired<R: Abort>(rt: &R, alloc: Global) -> Grown {
    let marks = [
        Point { x: 0, y: 50 },
        Point { x: 40, y: 79 },
        Point { x: 40, y: 30 },
    ];
    let task = task_of(rt, alloc, 100, Point { x: 0, y: 0 }, &marks);
    packed(rt, alloc, task, &rewired_knots(), &rewired_records())
}

/// The record of a mark that worker 0 ended at a node.
fn same(turn: u32, nearest: u32, node: u32) -> Record
    ensures { result ≡ same_record turn nearest node }
{
    Record {
        worker: 0,
        turn,
        nearest,
        outcome: Outcome::Same(node),
        first_parent: 0,
        first_cost: 0,
        class: 0,
    }
}

/// The record of a mark that worker 0 found blocked.
fn blocked(turn: u32, nearest: u32) -> Record
    ensures { result ≡ blocked_record turn nearest }
{
    Record {
        worker: 0,
        turn,
        nearest,
        outcome: Outcome::Blocked,
        first_parent: 0,
        first_cost: 0,
        class: 0,
    }
}

/// The nodes of a mark at the start and of one that leads out of the room.
fn stopped_knots() -> [Option<Knot>; 3]
    ensures { result ≡ Some (record { point = at 0 0; parent = 0; cost = 0 }) ∷ None ∷ None ∷ [] }
{
    [node(0, 0, 0, 0), None, None]
}

/// The records of these marks.
fn stopped_records() -> [Record; 2]
    ensures { result ≡ same_record 0 0 0 ∷ blocked_record 1 0 ∷ [] }
{
    [same(0, 0, 0), blocked(1, 0)]
}

/// The run of these marks.
fn stopped<R: Abort>(rt: &R, alloc: Global) -> Grown {
    let marks = [Point { x: 0, y: 0 }, Point { x: 0, y: 50 }];
    let task = task_of(rt, alloc, 40, Point { x: 0, y: 0 }, &marks);
    packed(rt, alloc, task, &stopped_knots(), &stopped_records())
}

/// The start of the task as the one node of a run.
fn start_packed<R: Abort>(rt: &R, alloc: Global, task: Task) -> Grown
    requires { ClearAt (space_of task.scene) task.scene.start }
    ensures limit { result.limit ≡ 0 }
{
    let start = Some(Knot {
        point: task.scene.start,
        parent: 0,
        cost: 0,
    });
    packed(rt, alloc, task, &[start], &[])
}

/// This many marks at one point.
fn many_marks(alloc: Global, count: u32) -> Result<Vec<Point>, Memory>
    requires { count ≤ MOST_MARKS }
    ensures { IfOk result (λ marks. IsTrue (is_plan 1 (Listed marks.items))) }
{
    Ok(vec![in alloc; Point { x: 7, y: 9 }; count as usize]?)
}

/// A node of a run; `None` if it is absent.
fn node_of(grown: &Grown, node: u32) -> Option<Knot> {
    let point = grown.point(node)?;
    Some(Knot {
        point,
        parent: grown.parent(node),
        cost: grown.cost(node),
    })
}

/// Asserts a node of a run; `None` if it is absent.
fn assert_node<R: Abort>(rt: &R, grown: &Grown, number: u32, want: &Option<Knot>) {
    assert!(rt; node_of(grown, number) == *want, "node {number}");
}

/// Asserts the nodes of a run, by number; `None` if one is absent.
fn assert_nodes<R: Abort>(rt: &R, grown: &Grown, wants: &[Option<Knot>]) {
    for (number, want) in (0..).zip(wants) {
        assert_node(rt, grown, number, want);
    }
}

/// Asserts the record of a mark of a run.
fn assert_record<R: Abort>(rt: &R, grown: &Grown, mark: u32, want: &Record) {
    assert!(rt; mark < grown.limit());
    assert!(rt; grown.record_of(mark) == *want, "mark {mark}");
}

/// Asserts the records of a run's first marks, by number.
fn assert_records<R: Abort>(rt: &R, grown: &Grown, wants: &[Record]) {
    for (mark, want) in (0..).zip(wants) {
        assert_record(rt, grown, mark, want);
    }
}

/// Asserts how many marks a run has handled, and how many nodes it has.
fn assert_size<R: Abort>(rt: &R, grown: &Grown, limit: u32, count: u32) {
    assert!(rt; grown.limit() == limit && grown.count() == count);
}

/// Asserts how many marks the task of a run has.
fn assert_marks<R: Abort>(rt: &R, grown: &Grown, marks: usize) {
    assert!(rt; grown.task().marks.len() == marks);
}

/// Numbers past the start, up to the greatest.
static PAST_START: [u32; 7] = [1, 2, 3, 262_142, 262_143, 262_144, u32::MAX];

/// Asserts that a run has no node at these numbers.
fn assert_absent<R: Abort>(rt: &R, grown: &Grown, numbers: &[u32]) {
    for number in numbers {
        assert!(rt; grown.point(*number).is_none(), "node {number}");
    }
}

/// Asserts that the run has handled none of so many marks, and has no node but its start. The run ends here.
fn assert_start_alone<R: Abort>(rt: &R, grown: Grown, start: Point, marks: usize) {
    assert_marks(rt, &grown, marks);
    assert_size(rt, &grown, 0, 1);
    assert_node(rt, &grown, 0, &node(start.x, start.y, 0, 0));
    assert_absent(rt, &grown, &PAST_START);
    drop(grown);
}

/// Asserts the same of the run of these marks that has handled none, made as such and packed.
fn assert_starts_alone<R: Abort>(rt: &R, alloc: Global, start: Point, marks: &[Point], count: usize)
    requires right { start.x ≤ 100 }
    requires top { start.y ≤ 100 }
    requires marks { IsTrue (is_plan 1 (Listed marks.now)) }
{
    let task = task_of(rt, alloc, 100, start, marks);
    assert_start_alone(rt, sure(rt, Grown::new(alloc, task)), start, count);
    let task = task_of(rt, alloc, 100, start, marks);
    assert_start_alone(rt, start_packed(rt, alloc, task), start, count);
}

#[test]
fn holds_the_start_alone(rt: HostRuntime) {
    let start = Point { x: 3, y: 4 };
    let marks = [Point { x: 30, y: 40 }, Point { x: 60, y: 80 }];
    assert_starts_alone(&rt, rt.alloc(), start, &marks, 2);
}

#[test]
fn holds_the_start_of_the_longest_task(rt: HostRuntime) {
    let start = Point { x: 100, y: 0 };
    let marks = sure(&rt, many_marks(rt.alloc(), MOST_MARKS));
    assert_starts_alone(&rt, rt.alloc(), start, &marks, 262_143);
    drop(marks);
}

#[test]
fn packs_a_run_in_which_a_node_was_rewired(rt: HostRuntime) {
    let grown = rewired(&rt, rt.alloc());
    assert_marks(&rt, &grown, 3);
    assert_size(&rt, &grown, 3, 4);
    assert_nodes(&rt, &grown, &rewired_knots());
    assert_absent(&rt, &grown, &[4]);
    assert_records(&rt, &grown, &rewired_records());
    drop(grown);
}

#[test]
fn packs_a_run_in_which_no_mark_was_placed(rt: HostRuntime) {
    let grown = stopped(&rt, rt.alloc());
    assert_size(&rt, &grown, 2, 1);
    assert_nodes(&rt, &grown, &stopped_knots());
    assert_absent(&rt, &grown, &[3]);
    assert_records(&rt, &grown, &stopped_records());
    drop(grown);
}

#[test]
fn gives_its_words_and_takes_them_back(rt: HostRuntime) {
    let (task, limit, words) = rewired(&rt, rt.alloc()).into_words();
    let grown = Grown::from_words(task, limit, words);
    assert_size(&rt, &grown, 3, 4);
    assert_nodes(&rt, &grown, &[node(0, 0, 0, 0), node(0, 50, 0, 12_800)]);
    drop(grown);
}
