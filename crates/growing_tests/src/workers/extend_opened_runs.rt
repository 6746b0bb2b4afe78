//! Passes that go on from a run of some marks.

ghost use Rattle.std.specs.Prelude.{◌≡◌, ◌≤◌, All, IfSome, length};
ghost use Rattle.plan_model.specs.Spaces.Clearance.{ClearAt};
ghost use Rattle.plan_model.specs.Spaces.ConfigurationSpace.{space_of};
ghost use Rattle.plan_words.specs.States.{MayClaim};

use crate::workers::support::{some, sure};
use plan_model::{Goal, Point, SmallScene, Task};
use plan_words::{Pass, Shared};
use plan_work::{NoGate, extend, grow};
use std::alloc::Global;
use std::process::Abort;
use std::thread::Threads;
use step_core::Grown;
use swept_check::Hall;

const START: Point = Point { x: 0, y: 0 };

static SEVEN: [Point; 7] = [START; 7];

/// Seven marks on the start, in three strips.
fn seven_marks<R: Abort>(rt: &R, alloc: Global) -> Task
    ensures clear { ClearAt (space_of result.scene) result.scene.start }
    ensures marks { length result.marks ≡ 7 }
{
    let small = SmallScene {
        room: Point { x: 100, y: 100 },
        start: START,
        goal: Goal {
            low: Point { x: 90, y: 90 },
            high: Point { x: 99, y: 99 },
        },
        step: 50,
        gamma: 1000,
        seed: 0,
        strips: 3,
    };
    sure(rt, small.task(alloc, &SEVEN))
}

/// The run of these seven marks of which one worker has handled four, and the collision checker of its room.
fn run_of_four<R: Threads + Sync + Abort>(rt: &R, alloc: Global) -> (Grown, Hall)
    ensures limit { result.0.limit ≡ 4 }
    ensures marks { length result.0.task.marks ≡ 7 }
    ensures hall { result.1 ≡ space_of result.0.task.scene }
{
    let task = seven_marks(rt, alloc);
    let hall = sure(rt, Hall::new(alloc, &task.scene));
    let fresh = sure(rt, Grown::new(alloc, task));
    let grown = sure(rt, grow(rt, alloc, fresh, &hall, 1, 4, &NoGate));
    (grown, hall)
}

/// The last pass of the list.
fn last_pass(shared: &Shared, passes: &mut Vec<Pass>) -> Option<Pass>
    requires { All (MayClaim shared.now) passes.old.items }
    ensures rest { All (MayClaim shared.now) passes.new.items }
    ensures last { IfSome result (MayClaim shared.now) }
{
    passes.pop()
}

/// The last three passes of a list, of which the last comes first.
fn last_three<R: Abort>(rt: &R, shared: &Shared, passes: Vec<Pass>) -> (Pass, Pass, Pass)
    requires { All (MayClaim shared.now) passes.items }
    ensures last { MayClaim shared.now result.0 }
    ensures middle { MayClaim shared.now result.1 }
    ensures first { MayClaim shared.now result.2 }
{
    let mut passes = passes;
    let third = some(rt, last_pass(shared, &mut passes));
    let second = some(rt, last_pass(shared, &mut passes));
    let first = some(rt, last_pass(shared, &mut passes));
    drop(passes);
    (third, second, first)
}

/// A shared tree, the collision checker of its room, and its first and its second pass.
#[derive(Drop)]
struct Opened {
    shared: Shared,
    hall: Hall,
    first: Pass,
    second: Pass,
}

/// Passes that go on from the run of four marks, and the third of them.
fn opened_after_four<R: Threads + Sync + Abort>(rt: &R, alloc: Global) -> (Opened, Pass)
    ensures opening { result.0.shared.opening ≡ 4 }
    ensures marks { length result.0.shared.task.marks ≡ 7 }
    ensures hall { result.0.hall ≡ space_of result.0.shared.task.scene }
    ensures first { MayClaim result.0.shared result.0.first }
    ensures second { MayClaim result.0.shared result.0.second }
    ensures third { MayClaim result.0.shared result.1 }
{
    let (grown, hall) = run_of_four(rt, alloc);
    let (shared, passes) = sure(rt, Shared::start(alloc, grown, 3));
    let (third, second, first) = last_three(rt, &shared, passes);
    let opened = Opened {
        shared,
        hall,
        first,
        second,
    };
    (opened, third)
}

/// Asserts which mark a pass claims below a limit, if any, and handles it.
fn assert_turn<R: Abort>(
    rt: &R,
    shared: &Shared,
    hall: &Hall,
    pass: &mut Pass,
    limit: u32,
    want: Option<u32>,
)
    requires may_claim { MayClaim shared.now pass.old }
    requires hall { hall.now ≡ space_of shared.now.task.scene }
    requires low { shared.now.opening ≤ limit }
    requires limit { limit ≤ length shared.now.task.marks }
    ensures may_claim { MayClaim shared.now pass.new }
{
    let claimed = shared.claim(pass, limit);
    assert!(rt; claimed == want);
    if let Some(mark) = claimed {
        extend(shared, pass, hall, mark);
    }
}

/// Asserts the worker of a pass, and its next turn.
fn assert_worker<R: Abort>(rt: &R, shared: &Shared, pass: &Pass, worker: u32, turn: u32)
    requires { MayClaim shared.now pass.now }
{
    assert!(rt; pass.worker() == worker && pass.turn() == turn);
}

/// A pass takes over another.
fn take_over(shared: &Shared, pass: &mut Pass, other: Pass)
    requires may_claim { MayClaim shared.now pass.old }
    requires may_claim_too { MayClaim shared.now other }
    ensures may_claim { MayClaim shared.now pass.new }
{
    shared.join(pass, other);
}

/// Asserts that the first pass finds no mark below the limit of the opening run, and then claims one of its own strip.
fn assert_first_turn<R: Abort>(rt: &R, shared: &Shared, hall: &Hall, first: &mut Pass)
    requires may_claim { MayClaim shared.now first.old }
    requires hall { hall.now ≡ space_of shared.now.task.scene }
    requires opening { shared.now.opening ≡ 4 }
    requires marks { length shared.now.task.marks ≡ 7 }
    ensures { MayClaim shared.now first.new }
{
    assert_worker(rt, shared, first, 0, 4);
    assert_turn(rt, shared, hall, first, 4, None);
    assert_turn(rt, shared, hall, first, 7, Some(6));
    assert_worker(rt, shared, first, 0, 5);
}

/// Asserts that the first pass takes over the third, and then claims a mark of another strip.
fn assert_next_turn<R: Abort>(rt: &R, shared: &Shared, hall: &Hall, first: &mut Pass, third: Pass)
    requires may_claim { MayClaim shared.now first.old }
    requires third { MayClaim shared.now third }
    requires hall { hall.now ≡ space_of shared.now.task.scene }
    requires opening { shared.now.opening ≡ 4 }
    requires marks { length shared.now.task.marks ≡ 7 }
    ensures { MayClaim shared.now first.new }
{
    assert_worker(rt, shared, &third, 2, 0);
    take_over(shared, first, third);
    assert_worker(rt, shared, first, 0, 5);
    assert_turn(rt, shared, hall, first, 6, Some(4));
}

/// Asserts that the second pass claims the last mark below 6, and finds none below 7.
fn assert_last_turn<R: Abort>(rt: &R, shared: &Shared, hall: &Hall, second: &mut Pass)
    requires may_claim { MayClaim shared.now second.old }
    requires hall { hall.now ≡ space_of shared.now.task.scene }
    requires opening { shared.now.opening ≡ 4 }
    requires marks { length shared.now.task.marks ≡ 7 }
    ensures { MayClaim shared.now second.new }
{
    assert_worker(rt, shared, second, 1, 0);
    assert_turn(rt, shared, hall, second, 6, Some(5));
    assert_turn(rt, shared, hall, second, 7, None);
}

/// Asserts the turns of three passes, of which the first takes over the third.
fn assert_turns<R: Abort>(
    rt: &R,
    shared: &Shared,
    hall: &Hall,
    first: &mut Pass,
    second: &mut Pass,
    third: Pass,
)
    requires first { MayClaim shared.now first.old }
    requires second { MayClaim shared.now second.old }
    requires third { MayClaim shared.now third }
    requires hall { hall.now ≡ space_of shared.now.task.scene }
    requires opening { shared.now.opening ≡ 4 }
    requires marks { length shared.now.task.marks ≡ 7 }
{
    assert_first_turn(rt, shared, hall, first);
    assert_next_turn(rt, shared, hall, first, third);
    assert_last_turn(rt, shared, hall, second);
    assert_worker(rt, shared, first, 0, 6);
    assert_worker(rt, shared, second, 1, 1);
}

#[test]
fn turns_and_claims_go_on_from_the_opening_run(rt: HostRuntime) {
    let (mut opened, third) = opened_after_four(&rt, rt.alloc());
    assert_turns(
        &rt,
        &opened.shared,
        &opened.hall,
        &mut opened.first,
        &mut opened.second,
        third,
    );
    drop(opened);
}
