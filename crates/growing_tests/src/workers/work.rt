//! A worker that is inside the test of its segment while another places a node.

ghost use Rattle.std.specs.Prelude.{◌≡◌, length};
ghost use Rattle.plan_model.specs.Spaces.Clearance.{ClearAt};
ghost use Rattle.plan_model.specs.Spaces.ConfigurationSpace.{space_of};
ghost use Rattle.growing_tests.specs.Shares.Sharers.{HasClaimed, HasShare, IsOfThree};

use crate::workers::support::{
    Entry, TO_REWIRE, assert_claimed, assert_records, extend_claimed, joined_run, sure, two_passes,
};
use plan_model::{Goal, Outcome, Point, SmallScene, Task};
use plan_words::{Pass, Shared};
use plan_work::{Gate, NoGate, grow, work};
use std::alloc::Global;
use std::process::Abort;
use std::sync::atomic::{AtomicBool, Ordering};
use std::thread;
use std::thread::Threads;
use step_core::Grown;
use swept_check::{Clearing, Hall};

/// The point that mark 0 steers to.
const ABOVE: Point = Point { x: 0, y: 50 };

/// A collision checker that is a gate for two workers too. Worker 0 goes on with mark 0 once worker 1 has come to its first mark, and
/// worker 1 with that once the segment of mark 0 is being tested; this test ends once worker 1 has handled its mark.
#[derive(Drop)]
struct Meeting {
    hall: Hall,
    come: AtomicBool,
    tested: AtomicBool,
    handled: AtomicBool,
    in_time: AtomicBool,
}

impl Meeting {
    /// A meeting in this hall.
    fn in_hall(hall: Hall) -> Meeting
        ensures { result.hall ≡ hall }
    {
        Meeting {
            hall,
            come: AtomicBool::new(false),
            tested: AtomicBool::new(false),
            handled: AtomicBool::new(false),
            in_time: AtomicBool::new(true),
        }
    }

    /// Waits for a flag, and notes if it did not come in time.
    fn wait_for(&self, flag: &AtomicBool) {
        for _ in 0..100_000_000u32 {
            if flag.load(Ordering::SeqCst) {
                return;
            }
            thread::yield_now();
        }
        self.in_time.store(false, Ordering::SeqCst);
    }
}

impl Gate for Meeting {
    fn before(&self, worker: u32, turn: u32) {
        if (worker, turn) == (0, 0) {
            self.wait_for(&self.come);
        } else if (worker, turn) == (1, 0) {
            self.come.store(true, Ordering::SeqCst);
            self.wait_for(&self.tested);
        }
    }

    fn after(&self, worker: u32, turn: u32) {
        if (worker, turn) == (1, 0) {
            self.handled.store(true, Ordering::SeqCst);
        }
    }
}

impl Clearing for Meeting {
    ghost space = { λ m. m.hall };

    fn clear(&self, a: Point, b: Point) -> bool {
        if (a == ABOVE || b == ABOVE) && !self.tested.swap(true, Ordering::SeqCst) {
            self.wait_for(&self.handled);
        }
        self.hall.clear(a, b)
    }

    fn room_is_bounded(&self) {
        self.hall.room_is_bounded();
    }
}

/// Three marks in two strips, so that each of two workers has one to begin with.
fn task_in_two_strips<R: Abort>(rt: &R, alloc: Global) -> Task
    ensures clear { ClearAt (space_of result.scene) result.scene.start }
    ensures marks { length result.marks ≡ 3 }
{
    let goal = Point { x: 40, y: 79 };
    let small = SmallScene {
        room: Point { x: 100, y: 100 },
        start: Point { x: 0, y: 0 },
        goal: Goal {
            low: goal,
            high: goal,
        },
        step: 50,
        gamma: 1000,
        seed: 0,
        strips: 2,
    };
    sure(rt, small.task(alloc, &TO_REWIRE))
}

static MET: [Entry; 2] = [
    (0, 0, 0, Outcome::Placed, 0, 12_800, 2),
    (1, 0, 0, Outcome::Placed, 0, 12_594, 1),
];

/// Asserts that nobody waited too long, and the records of the two marks. Mark 0 counts the node of mark 1.
fn assert_met<R: Abort>(rt: &R, meeting: &Meeting, grown: &Grown) {
    assert!(rt; meeting.in_time.load(Ordering::SeqCst));
    assert_records(rt, grown, &MET);
}

#[test]
fn a_node_is_placed_while_a_segment_is_tested(rt: HostRuntime) {
    let task = task_in_two_strips(&rt, rt.alloc());
    let meeting = Meeting::in_hall(sure(&rt, Hall::new(rt.alloc(), &task.scene)));
    let fresh = sure(&rt, Grown::new(rt.alloc(), task));
    let grown = sure(&rt, grow(&rt, rt.alloc(), fresh, &meeting, 2, 3, &meeting));
    assert_met(&rt, &meeting, &grown);
    drop(grown);
    drop(meeting);
}

// ---- the same by two callers, who begin with a mark in hand

/// Handles what marks are left of three.
fn work_on(shared: &Shared, pass: &mut Pass, hall: &Hall)
    requires shared { IsOfThree shared.now }
    requires pass { HasShare shared.now 1 pass.old }
    requires hall { hall.now ≡ space_of shared.now.task.scene }
    ensures { HasShare shared.now 1 pass.new }
{
    work(shared, pass, hall, 3, &NoGate);
}

/// Handles mark 0, in the test of whose segment it waits for the other caller, and then what marks are left.
fn test_long(shared: &Shared, pass: Pass, meeting: &Meeting) -> Pass
    requires shared { IsOfThree shared.now }
    requires pass { HasClaimed shared.now 1 0 pass }
    requires hall { meeting.now.hall ≡ space_of shared.now.task.scene }
    ensures { HasShare shared.now 1 result }
{
    let mut pass = pass;
    extend_claimed(shared, &mut pass, meeting, 0);
    work_on(shared, &mut pass, &meeting.hall);
    pass
}

/// Handles mark 1 while that segment is being tested, says so, and then handles what marks are left.
fn go_on(shared: &Shared, pass: Pass, meeting: &Meeting) -> Pass
    requires shared { IsOfThree shared.now }
    requires pass { HasClaimed shared.now 1 1 pass }
    requires hall { meeting.now.hall ≡ space_of shared.now.task.scene }
    ensures { HasShare shared.now 1 result }
{
    let mut pass = pass;
    meeting.wait_for(&meeting.tested);
    extend_claimed(shared, &mut pass, &meeting.hall, 1);
    meeting.handled.store(true, Ordering::SeqCst);
    work_on(shared, &mut pass, &meeting.hall);
    pass
}

/// Both callers, each in a thread of its own.
fn call_both<R: Threads>(
    rt: &R,
    shared: &Shared,
    first: Pass,
    second: Pass,
    meeting: &Meeting,
) -> (Pass, Pass)
    requires shared { IsOfThree shared.now }
    requires first { HasClaimed shared.now 1 0 first }
    requires second { HasClaimed shared.now 1 1 second }
    requires hall { meeting.now.hall ≡ space_of shared.now.task.scene }
    ensures first { HasShare shared.now 1 result.0 }
    ensures second { HasShare shared.now 1 result.1 }
{
    thread::join(
        rt,
        move || -> Pass
            requires { IsOfThree shared.now × HasClaimed shared.now 1 0 first × (meeting.now.hall ≡ space_of shared.now.task.scene) }
            ensures { HasShare shared.entry.now 1 result }
        { test_long(shared, first, meeting) },
        move || -> Pass
            requires { IsOfThree shared.now × HasClaimed shared.now 1 1 second × (meeting.now.hall ≡ space_of shared.now.task.scene) }
            ensures { HasShare shared.entry.now 1 result }
        { go_on(shared, second, meeting) },
    )
}

/// Asserts a run of three marks in which both callers have met.
fn assert_called<R: Abort>(rt: &R, meeting: &Meeting, grown: &Grown) {
    assert!(rt; grown.limit() == 3);
    assert_met(rt, meeting, grown);
}

#[test]
fn a_caller_is_answered_while_another_tests_its_segment(rt: HostRuntime) {
    let task = task_in_two_strips(&rt, rt.alloc());
    let (shared, hall, mut first, mut second) = two_passes(&rt, rt.alloc(), task);
    let meeting = Meeting::in_hall(hall);
    assert_claimed(&rt, &shared, &mut first, 0);
    assert_claimed(&rt, &shared, &mut second, 1);
    let (first, second) = call_both(&rt, &shared, first, second, &meeting);
    let run = joined_run(&rt, shared, first, second);
    assert_called(&rt, &meeting, &run);
    drop(run);
    drop(meeting);
}
