//! What the tests share: values that memory lasts for, the task of some marks in a small room, the nodes and the records of a run, and
//! two passes of one thread over a shared tree, from its first mark to the run that it comes to.

ghost use Rattle.std.specs.Prelude.{◌≡◌, ◌<◌, ◌≤◌, All, IfSome, IsTrue, Ok, Some, length};
ghost use Rattle.plan_model.specs.Scenes.Limits.{is_plan};
ghost use Rattle.plan_model.specs.Spaces.Clearance.{ClearAt};
ghost use Rattle.plan_model.specs.Spaces.ConfigurationSpace.{space_of};
ghost use Rattle.plan_model.specs.declared.scenes.Marks.TheVariants.{Listed};
ghost use Rattle.plan_words.specs.Claims.{AllFull};
ghost use Rattle.plan_words.specs.States.{BelongsTo};
ghost use Rattle.growing_tests.specs.Shares.Sharers.{HasClaimed, HasShare, IsOfThree};

use kd_shared::find;
use plan_model::{Goal, Memory, Outcome, Point, Record, SmallScene, Task};
use plan_words::{Pass, Shared};
use plan_work::extend;
use std::alloc::Global;
use std::process::Abort;
use step_core::Grown;
use swept_check::{Clearing, Hall};

/// Where a node stands, its parent and its kept cost.
pub(crate) type Node = (u32, u32, u32, u64);

/// What a record has: worker, turn, nearest node, outcome, first parent, first cost and class.
pub(crate) type Entry = (u32, u32, u32, Outcome, u32, u64, u32);

/// What was made, for which memory lasts. A test ends here if none is left, so that no value is dropped on the way.
pub(crate) fn sure<R: Abort, T>(rt: &R, made: Result<T, Memory>) -> T
    ensures { made ≡ Ok result }
{
    match made {
        Ok(value) => value,
        Err(error) => panic!(rt; "{error}"),
    }
}

/// What was found, for which there is something.
pub(crate) fn some<R: Abort, T>(rt: &R, found: Option<T>) -> T
    ensures { found ≡ Some result }
{
    match found {
        Some(value) => value,
        None => panic!(rt; "there is none"),
    }
}

/// The task of these marks for a point body in an empty room of 100 by 100, from its lower left corner by steps of 50, and with a
/// gamma by which all nodes are near.
pub(crate) fn small_task<R: Abort>(rt: &R, alloc: Global, marks: &[Point]) -> Task
    requires { IsTrue (is_plan 1 (Listed marks.now)) }
    ensures clear { ClearAt (space_of result.scene) result.scene.start }
    ensures marks { result.marks ≡ marks.now }
{
    task_to(rt, alloc, Point { x: 40, y: 79 }, 1000, marks)
}

/// The same task with another goal, which is one point, and another gamma. With 0 no nodes are near, so that each node hangs below the
/// nearest one.
pub(crate) fn task_to<R: Abort>(
    rt: &R,
    alloc: Global,
    goal: Point,
    gamma: u32,
    marks: &[Point],
) -> Task
    requires plan { IsTrue (is_plan 1 (Listed marks.now)) }
    requires goal { (goal.x ≤ 100) × (goal.y ≤ 100) }
    requires gamma { gamma ≤ 1000 }
    ensures clear { ClearAt (space_of result.scene) result.scene.start }
    ensures marks { result.marks ≡ marks.now }
{
    let small = SmallScene {
        room: Point { x: 100, y: 100 },
        start: Point { x: 0, y: 0 },
        goal: Goal {
            low: goal,
            high: goal,
        },
        step: 50,
        gamma,
        seed: 0,
        strips: 1,
    };
    sure(rt, small.task(alloc, marks))
}

/// A node of a run; `None` if it is absent.
pub(crate) fn node_of(grown: &Grown, number: u32) -> Option<Node> {
    let point = grown.point(number)?;
    Some((point.x, point.y, grown.parent(number), grown.cost(number)))
}

/// What a record has.
pub(crate) fn entry_of(record: Record) -> Entry {
    let Record {
        worker,
        turn,
        nearest,
        outcome,
        first_parent,
        first_cost,
        class,
    } = record;
    (
        worker,
        turn,
        nearest,
        outcome,
        first_parent,
        first_cost,
        class,
    )
}

/// Asserts what the record of a mark has.
pub(crate) fn assert_entry<R: Abort>(rt: &R, record: Record, mark: u32, want: &Entry) {
    assert!(rt; entry_of(record) == *want, "mark {mark}");
}

/// Asserts the record of a mark of a run.
pub(crate) fn assert_record<R: Abort>(rt: &R, grown: &Grown, mark: u32, want: &Entry) {
    assert!(rt; mark < grown.limit());
    assert_entry(rt, grown.record_of(mark), mark, want);
}

/// Asserts the records of a run's first marks, by number.
pub(crate) fn assert_records<R: Abort>(rt: &R, grown: &Grown, wants: &[Entry]) {
    for (mark, want) in (0..).zip(wants) {
        assert_record(rt, grown, mark, want);
    }
}

/// Asserts a node of a run; `None` if it is absent.
pub(crate) fn assert_node<R: Abort>(rt: &R, grown: &Grown, number: u32, want: &Option<Node>) {
    assert!(rt; node_of(grown, number) == *want, "node {number}");
}

/// Asserts the nodes of a run, by number; `None` if one is absent.
fn assert_nodes<R: Abort>(rt: &R, grown: &Grown, wants: &[Option<Node>]) {
    for (number, want) in (0..).zip(wants) {
        assert_node(rt, grown, number, want);
    }
}

/// What three marks come to: how many nodes there are, the record of each mark, and the nodes by number.
pub(crate) struct Ending<'a> {
    pub(crate) count: u32,
    pub(crate) records: &'a [Entry; 3],
    pub(crate) nodes: &'a [Option<Node>; 4],
}

/// Asserts a run of three marks.
pub(crate) fn assert_run<R: Abort>(rt: &R, grown: &Grown, want: &Ending) {
    let (records, nodes) = (want.records, want.nodes);
    assert!(rt; grown.limit() == 3 && grown.count() == want.count);
    assert_records(rt, grown, records);
    assert_nodes(rt, grown, nodes);
}

/// The marks of which the third gives the node of the second a cheaper way.
pub(crate) static TO_REWIRE: [Point; 3] = [
    Point { x: 0, y: 50 },
    Point { x: 40, y: 79 },
    Point { x: 40, y: 30 },
];

/// A shared tree, the collision checker of its room, and its two passes.
pub(crate) type Two = (Shared, Hall, Pass, Pass);

/// The last pass of the list.
fn last_sharer(shared: &Shared, passes: &mut Vec<Pass>) -> Option<Pass>
    requires { All (HasShare shared.now 1) passes.old.items }
    ensures rest { All (HasShare shared.now 1) passes.new.items }
    ensures last { IfSome result (HasShare shared.now 1) }
{
    passes.pop()
}

/// The tree of a task, and two passes that may claim its marks.
fn shared_by_two<R: Abort>(rt: &R, alloc: Global, task: Task) -> (Shared, Vec<Pass>)
    requires clear { ClearAt (space_of task.scene) task.scene.start }
    ensures opening { result.0.opening ≡ 0 }
    ensures workers { result.0.workers ≡ 2 }
    ensures task { result.0.task ≡ task }
    ensures passes { All (HasShare result.0 1) result.1.items }
{
    let grown = sure(rt, Grown::new(alloc, task));
    sure(rt, Shared::start(alloc, grown, 2))
}

/// Two passes that may claim the marks of a task.
pub(crate) fn two_passes<R: Abort>(rt: &R, alloc: Global, task: Task) -> Two
    requires clear { ClearAt (space_of task.scene) task.scene.start }
    ensures opening { result.0.opening ≡ 0 }
    ensures workers { result.0.workers ≡ 2 }
    ensures task { result.0.task ≡ task }
    ensures hall { result.1 ≡ space_of task.scene }
    ensures first { HasShare result.0 1 result.2 }
    ensures second { HasShare result.0 1 result.3 }
{
    let hall = sure(rt, Hall::new(alloc, &task.scene));
    let (shared, mut passes) = shared_by_two(rt, alloc, task);
    let second = some(rt, last_sharer(&shared, &mut passes));
    let first = some(rt, last_sharer(&shared, &mut passes));
    drop(passes);
    (shared, hall, first, second)
}

/// Asserts that a pass claims this mark of three.
pub(crate) fn assert_claimed<R: Abort>(rt: &R, shared: &Shared, pass: &mut Pass, mark: u32)
    requires shared { IsOfThree shared.now }
    requires pass { HasShare shared.now 1 pass.old }
    ensures { HasClaimed shared.now 1 mark pass.new }
{
    let Some(claimed) = shared.claim(pass, 3) else {
        panic!(rt; "no mark is left")
    };
    assert!(rt; claimed == mark);
}

/// Handles the mark that a pass has claimed.
pub(crate) fn extend_claimed<C: Clearing>(
    shared: &Shared,
    pass: &mut Pass,
    hall: &C,
    mark: u32,
) -> Record
    requires claimed { HasClaimed shared.now 1 mark pass.old }
    requires hall { C.space hall.now ≡ space_of shared.now.task.scene }
    ensures { HasShare shared.now 1 pass.new }
{
    extend(shared, pass, hall, mark)
}

/// Asserts that a pass claims this mark of three, and that its record is the one that is wanted.
pub(crate) fn assert_extended<R: Abort>(
    rt: &R,
    shared: &Shared,
    hall: &Hall,
    pass: &mut Pass,
    mark: u32,
    want: &Ending,
)
    requires mark { mark < 3 }
    requires pass { HasShare shared.now 1 pass.old }
    requires hall { hall.now ≡ space_of shared.now.task.scene }
    requires opening { shared.now.opening ≡ 0 }
    requires marks { length shared.now.task.marks ≡ 3 }
    ensures { HasShare shared.now 1 pass.new }
{
    assert_claimed(rt, shared, pass, mark);
    let record = extend_claimed(shared, pass, hall, mark);
    assert_entry(rt, record, mark, &want.records[mark as usize]);
}

/// The node at a point, with its parent and its kept cost. The hand stays.
pub(crate) fn load_at(shared: &Shared, pass: &mut Pass, at: Point) -> Option<(u32, (u32, u64))>
    requires { BelongsTo pass.old shared.now }
    ensures belongs { BelongsTo pass.new shared.now }
    ensures crew { pass.new.view.crew ≡ pass.old.view.crew }
    ensures hand { pass.new.view.hand ≡ pass.old.view.hand }
{
    let node = find(shared, pass, at)?;
    let pair = shared.tree(pass, node);
    Some((node, pair))
}

/// Asserts what a pass that only looks, split from this one and then taken over by it, finds at a point.
pub(crate) fn assert_found<R: Abort>(
    rt: &R,
    shared: &Shared,
    pass: &mut Pass,
    at: Point,
    want: (u32, (u32, u64)),
)
    requires { HasShare shared.now 1 pass.old }
    ensures { HasShare shared.now 1 pass.new }
{
    let mut looker = sure(rt, shared.split(pass));
    let found = load_at(shared, &mut looker, at);
    assert!(rt; found == Some(want));
    shared.join(pass, looker);
}

/// Asserts that a pass finds none of three marks left, by the counters that it has then seen.
fn assert_none_left<R: Abort>(rt: &R, shared: &Shared, pass: &mut Pass)
    requires pass { HasShare shared.now 1 pass.old }
    requires opening { shared.now.opening ≡ 0 }
    requires marks { length shared.now.task.marks ≡ 3 }
    ensures share { HasShare shared.now 1 pass.new }
    ensures full { AllFull pass.new.view 3 }
{
    let None = shared.claim(pass, 3) else {
        panic!(rt; "a mark is left")
    };
}

/// One pass takes over the other.
fn take_both(shared: &Shared, pass: &mut Pass, other: Pass)
    requires pass { HasShare shared.now 1 pass.old }
    requires other { HasShare shared.now 1 other }
    requires full { AllFull pass.old.view 3 }
    ensures share { HasShare shared.now 2 pass.new }
    ensures full { AllFull pass.new.view 3 }
{
    shared.join(pass, other);
}

/// The run of two passes that both find none of three marks left.
pub(crate) fn joined_run<R: Abort>(rt: &R, shared: Shared, first: Pass, second: Pass) -> Grown
    requires first { HasShare shared 1 first }
    requires second { HasShare shared 1 second }
    requires workers { shared.workers ≡ 2 }
    requires opening { shared.opening ≡ 0 }
    requires marks { length shared.task.marks ≡ 3 }
{
    let (mut first, mut second) = (first, second);
    assert_none_left(rt, &shared, &mut first);
    assert_none_left(rt, &shared, &mut second);
    take_both(&shared, &mut first, second);
    shared.end(first)
}

/// Asserts the run of two passes that both find none of three marks left.
pub(crate) fn assert_ending<R: Abort>(
    rt: &R,
    shared: Shared,
    first: Pass,
    second: Pass,
    want: &Ending,
)
    requires first { HasShare shared 1 first }
    requires second { HasShare shared 1 second }
    requires workers { shared.workers ≡ 2 }
    requires opening { shared.opening ≡ 0 }
    requires marks { length shared.task.marks ≡ 3 }
{
    let run = joined_run(rt, shared, first, second);
    assert_run(rt, &run, want);
    drop(run);
}
