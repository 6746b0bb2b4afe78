//! Runs by one worker and by several, and what their gates are told.

ghost use Rattle.std.specs.Prelude.{◌≡◌, ◌≤◌, length};
ghost use Rattle.plan_model.specs.Spaces.Clearance.{ClearAt};
ghost use Rattle.plan_model.specs.Spaces.ConfigurationSpace.{space_of};
ghost use Rattle.plan_model.specs.declared.limits.TheConstants.{MOST_WORKERS};

use crate::workers::support::{
    Entry, TO_REWIRE, assert_node, assert_records, small_task, sure, task_to,
};
use plan_model::{Goal, MOST_WORKERS, Outcome, Point, Record, SmallScene, Task};
use plan_work::{Gate, NoGate, grow, grow_alone};
use std::alloc::Global;
use std::process::Abort;
use std::sync::atomic::{AtomicBool, AtomicU32, Ordering};
use std::thread;
use std::thread::Threads;
use step_core::Grown;
use swept_check::Hall;

// ---- runs

/// The run of three marks by so many workers, up to a limit. The node of the third mark gives that of the second a cheaper way.
fn small_run<R: Threads + Sync + Abort, G: Gate>(
    rt: &R,
    alloc: Global,
    workers: u32,
    limit: u32,
    gate: &G,
) -> Grown
    requires some { 1 ≤ workers }
    requires few { workers ≤ MOST_WORKERS }
    requires within { limit ≤ 3 }
    ensures { result.limit ≡ limit }
{
    let grown = sure(rt, Grown::new(alloc, small_task(rt, alloc, &TO_REWIRE)));
    let hall = sure(rt, Hall::new(alloc, &grown.task().scene));
    let run = sure(rt, grow(rt, alloc, grown, &hall, workers, limit, gate));
    drop(hall);
    run
}

/// How many marks below this one a worker has handled.
fn turns_below(grown: &Grown, end: u32, worker: u32) -> u32
    requires { end ≤ grown.now.limit }
    ensures { result ≤ end }
{
    let mut turns = 0;
    for mark in 0..end {
        if grown.record_of(mark).worker == worker {
            turns += 1;
        }
    }
    turns
}

/// Whether the turns of each worker run from 0, in the order of the marks.
fn has_turns(grown: &Grown) -> bool {
    for mark in 0..grown.limit() {
        let entry = grown.record_of(mark);
        if entry.turn != turns_below(grown, mark, entry.worker) {
            return false;
        }
    }
    true
}

/// How many marks were placed, ended at a node, were blocked, and were skipped.
fn outcomes(grown: &Grown) -> [u32; 4] {
    let (mut placed, mut same, mut blocked, mut skipped) = (0, 0, 0, 0);
    for mark in 0..grown.limit() {
        match grown.record_of(mark).outcome {
            Outcome::Placed => placed += 1,
            Outcome::Same(_) => same += 1,
            Outcome::Blocked => blocked += 1,
            Outcome::Skipped => skipped += 1,
        }
    }
    [placed, same, blocked, skipped]
}

/// Whether the outcomes add up to the limit, and there is a node for each placed mark.
fn adds_up(grown: &Grown) -> bool {
    let [placed, same, blocked, skipped] = outcomes(grown);
    let others = u64::from(same) + u64::from(blocked) + u64::from(skipped);
    let nodes = u64::from(placed) + 1;
    u64::from(placed) + others == u64::from(grown.limit()) && u64::from(grown.count()) == nodes
}

/// Asserts something of a run by so many workers up to a limit.
fn assert_of_run<R: Abort>(rt: &R, holds: bool, workers: u32, limit: u32) {
    assert!(rt; holds, "by {workers} to {limit}");
}

/// Asserts that a run adds up, and counts the turns of each worker. It was grown by so many workers up to this limit.
fn assert_whole<R: Abort>(rt: &R, grown: &Grown, workers: u32, limit: u32) {
    assert_of_run(rt, adds_up(grown), workers, limit);
    assert_of_run(rt, has_turns(grown), workers, limit);
}

static IN_TURN: [Entry; 3] = [
    (0, 0, 0, Outcome::Placed, 0, 12_800, 1),
    (0, 1, 1, Outcome::Placed, 1, 25_449, 2),
    (0, 2, 1, Outcome::Placed, 0, 12_800, 2),
];

#[test]
fn one_worker_handles_the_marks_in_turn(rt: HostRuntime) {
    let grown = small_run(&rt, rt.alloc(), 1, 3, &NoGate);
    assert_records(&rt, &grown, &IN_TURN);
    assert_node(&rt, &grown, 2, &Some((40, 79, 3, 25_344)));
    drop(grown);
}

/// In the thread of its caller it goes on with a run, and comes to the same.
#[test]
fn one_worker_alone_handles_the_marks_in_turn(rt: HostRuntime) {
    let fresh = sure(
        &rt,
        Grown::new(rt.alloc(), small_task(&rt, rt.alloc(), &TO_REWIRE)),
    );
    let hall = sure(&rt, Hall::new(rt.alloc(), &fresh.task().scene));
    let begun = sure(&rt, grow_alone(rt.alloc(), fresh, &hall, 1));
    let grown = sure(&rt, grow_alone(rt.alloc(), begun, &hall, 3));
    assert_records(&rt, &grown, &IN_TURN);
    assert_node(&rt, &grown, 2, &Some((40, 79, 3, 25_344)));
    drop(hall);
    drop(grown);
}

/// Four marks. The start is less than 37 away from the last two, and so is the node of the second from the last.
static NARROW: [Point; 4] = [
    Point { x: 45, y: 5 },
    Point { x: 50, y: 50 },
    Point { x: 35, y: 10 },
    Point { x: 30, y: 20 },
];

/// The run of these marks by one worker with the gamma 40: the radius is 40 for the third mark, and 34 for the fourth.
fn narrow_run<R: Threads + Sync + Abort>(rt: &R, alloc: Global) -> Grown {
    let task = task_to(rt, alloc, Point { x: 30, y: 20 }, 40, &NARROW);
    let grown = sure(rt, Grown::new(alloc, task));
    let hall = sure(rt, Hall::new(alloc, &grown.task().scene));
    let run = sure(rt, grow(rt, alloc, grown, &hall, 1, 4, &NoGate));
    drop(hall);
    run
}

static NARROW_IN_TURN: [Entry; 4] = [
    (0, 0, 0, Outcome::Placed, 0, 11_591, 1),
    (0, 1, 1, Outcome::Placed, 1, 23_182, 2),
    (0, 2, 1, Outcome::Placed, 0, 9_319, 2),
    (0, 3, 3, Outcome::Placed, 3, 12_182, 3),
];

// With a radius of 40 for the fourth mark too, the start would be its parent, and it that of node 2.
#[test]
fn the_radius_falls_below_the_step(rt: HostRuntime) {
    let grown = narrow_run(&rt, rt.alloc());
    assert_records(&rt, &grown, &NARROW_IN_TURN);
    assert_node(&rt, &grown, 2, &Some((50, 50, 1, 23_182)));
    drop(grown);
}

/// Asserts how many nodes a run by so many workers up to a limit has, and that it has none past the limit.
fn assert_nodes_within<R: Abort>(rt: &R, grown: &Grown, workers: u32, limit: u32, nodes: u32)
    requires { limit ≤ 3 }
{
    assert_of_run(rt, grown.count() == nodes, workers, limit);
    assert_of_run(rt, grown.point(limit + 1).is_none(), workers, limit);
}

/// Asserts that the run by so many workers up to a limit adds up, has so many nodes and none past the limit, and counts the
/// turns of each worker.
fn assert_run_by<R: Threads + Sync + Abort>(
    rt: &R,
    alloc: Global,
    workers: u32,
    limit: u32,
    nodes: u32,
)
    requires some { 1 ≤ workers }
    requires few { workers ≤ MOST_WORKERS }
    requires within { limit ≤ 3 }
{
    let grown = small_run(rt, alloc, workers, limit, &NoGate);
    assert_whole(rt, &grown, workers, limit);
    assert_nodes_within(rt, &grown, workers, limit, nodes);
    drop(grown);
}

#[test]
fn several_workers_handle_all_marks(rt: HostRuntime) {
    assert_run_by(&rt, rt.alloc(), 2, 3, 4);
    assert_run_by(&rt, rt.alloc(), 3, 3, 4);
    assert_run_by(&rt, rt.alloc(), MOST_WORKERS, 3, 4);
}

#[test]
fn marks_from_the_limit_on_are_left(rt: HostRuntime) {
    assert_run_by(&rt, rt.alloc(), 2, 2, 3);
}

#[test]
fn a_limit_of_0_leaves_all_marks(rt: HostRuntime) {
    assert_run_by(&rt, rt.alloc(), 2, 0, 1);
}

/// The run of three marks by three workers that goes on from one of a single mark.
fn grown_on<R: Threads + Sync + Abort>(rt: &R, alloc: Global, begun: Grown) -> Grown
    requires limit { begun.limit ≡ 1 }
    requires marks { length begun.task.marks ≡ 3 }
    ensures { result.limit ≡ 3 }
{
    let hall = sure(rt, Hall::new(alloc, &begun.task().scene));
    let grown = sure(rt, grow(rt, alloc, begun, &hall, 3, 3, &NoGate));
    drop(hall);
    grown
}

/// Asserts that one mark of three is handled. Returns its record.
fn assert_begun<R: Abort>(rt: &R, begun: &Grown) -> Record
    ensures limit { begun.now.limit ≡ 1 }
    ensures marks { length begun.now.task.marks ≡ 3 }
{
    assert!(rt; begun.limit() == 1 && begun.task().marks.len() == 3);
    begun.record_of(0)
}

/// Asserts the run of three marks by three workers that has gone on from this record of the first.
fn assert_grown_on<R: Abort>(rt: &R, grown: &Grown, first: Record)
    requires { grown.now.limit ≡ 3 }
{
    assert!(rt; grown.record_of(0) == first);
    assert_whole(rt, grown, 3, 3);
    assert!(rt; grown.count() == 4);
}

#[test]
fn a_run_is_grown_on(rt: HostRuntime) {
    let begun = small_run(&rt, rt.alloc(), 2, 1, &NoGate);
    let first = assert_begun(&rt, &begun);
    let grown = grown_on(&rt, rt.alloc(), begun);
    assert_grown_on(&rt, &grown, first);
    drop(grown);
}

// ---- gates

/// Counts the turns that it is told of.
#[derive(Drop)]
struct Count {
    before: AtomicU32,
    after: AtomicU32,
}

impl Count {
    fn new() -> Count {
        Count {
            before: AtomicU32::new(0),
            after: AtomicU32::new(0),
        }
    }
}

/// A gate that counts the turns of three workers, and notes whether each was told in order.
#[derive(Drop)]
struct Counts {
    workers: [Count; 3],
    in_order: AtomicBool,
}

impl Counts {
    fn new() -> Counts {
        Counts {
            workers: [Count::new(), Count::new(), Count::new()],
            in_order: AtomicBool::new(true),
        }
    }

    fn note(&self, told: bool) {
        if !told {
            self.in_order.store(false, Ordering::SeqCst);
        }
    }
}

impl Gate for Counts {
    fn before(&self, worker: u32, turn: u32) {
        let told = match self.workers.get(worker as usize) {
            Some(count) => {
                count.after.load(Ordering::SeqCst) == turn
                    && count.before.fetch_add(1, Ordering::SeqCst) == turn
            }
            None => false,
        };
        self.note(told);
    }

    fn after(&self, worker: u32, turn: u32) {
        let told = match self.workers.get(worker as usize) {
            Some(count) => count.after.fetch_add(1, Ordering::SeqCst) == turn,
            None => false,
        };
        self.note(told);
    }
}

/// Asserts that a gate was told so often of a worker.
fn assert_times<R: Abort>(rt: &R, told: u32, worker: u32, turns: u32) {
    assert!(rt; told == turns, "worker {worker}");
}

/// Asserts that a gate was told of so many turns of a worker, before each and after it.
fn assert_told<R: Abort>(rt: &R, count: &Count, worker: u32, turns: u32) {
    assert_times(rt, count.after.load(Ordering::SeqCst), worker, turns);
    assert_times(rt, count.before.load(Ordering::SeqCst), worker, turns);
}

/// Asserts that a gate was told in order of the turns of each of three workers, in a run up to this limit.
fn assert_all_told<R: Abort>(rt: &R, gate: &Counts, grown: &Grown, limit: u32)
    requires { limit ≤ grown.now.limit }
{
    assert!(rt; gate.in_order.load(Ordering::SeqCst));
    let [zeroth, first, second] = &gate.workers;
    assert_told(rt, zeroth, 0, turns_below(grown, limit, 0));
    assert_told(rt, first, 1, turns_below(grown, limit, 1));
    assert_told(rt, second, 2, turns_below(grown, limit, 2));
}

/// Asserts what a gate is told of a run by three workers up to a limit.
fn assert_gate<R: Threads + Sync + Abort>(rt: &R, alloc: Global, limit: u32)
    requires { limit ≤ 3 }
{
    let gate = Counts::new();
    let grown = small_run(rt, alloc, 3, limit, &gate);
    assert_all_told(rt, &gate, &grown, limit);
    drop(grown);
    drop(gate);
}

#[test]
fn gates_are_told_of_each_turn(rt: HostRuntime) {
    for limit in 0..=3 {
        assert_gate(&rt, rt.alloc(), limit);
    }
}

/// A gate for two workers: worker 0 goes on with its first mark only after this turn of worker 1, and worker 1 only after
/// worker 0 has come to one. One thread alone cannot pass it.
#[derive(Drop)]
struct OtherFirst {
    turn: u32,
    come: AtomicBool,
    handled: AtomicBool,
    in_time: AtomicBool,
}

impl OtherFirst {
    fn new(turn: u32) -> OtherFirst {
        OtherFirst {
            turn,
            come: AtomicBool::new(false),
            handled: AtomicBool::new(false),
            in_time: AtomicBool::new(true),
        }
    }

    /// Waits for a flag, and notes if it did not come in time.
    fn wait_for(&self, flag: &AtomicBool) {
        for _ in 0..100_000_000u32 {
            if flag.load(Ordering::SeqCst) {
                return;
            }
            thread::yield_now();
        }
        self.in_time.store(false, Ordering::SeqCst);
    }
}

impl Gate for OtherFirst {
    fn before(&self, worker: u32, turn: u32) {
        if (worker, turn) == (0, 0) {
            self.come.store(true, Ordering::SeqCst);
            self.wait_for(&self.handled);
        } else if (worker, turn) == (1, 0) {
            self.wait_for(&self.come);
        }
    }

    fn after(&self, worker: u32, turn: u32) {
        if (worker, turn) == (1, self.turn) {
            self.handled.store(true, Ordering::SeqCst);
        }
    }
}

/// Asserts that a mark was handled while another was waited for, and that nobody waited too long.
fn assert_handled<R: Abort>(rt: &R, gate: &OtherFirst) {
    assert!(rt; gate.handled.load(Ordering::SeqCst));
    assert!(rt; gate.in_time.load(Ordering::SeqCst));
}

/// Asserts that each of two workers has handled a mark of a run of three.
fn assert_both_at_work<R: Abort>(rt: &R, grown: &Grown)
    requires { 3 ≤ grown.now.limit }
{
    assert!(rt; 1 <= turns_below(grown, 3, 0) && 1 <= turns_below(grown, 3, 1));
}

#[test]
fn a_worker_goes_on_while_another_waits(rt: HostRuntime) {
    let gate = OtherFirst::new(0);
    let grown = small_run(&rt, rt.alloc(), 2, 3, &gate);
    assert_handled(&rt, &gate);
    assert_whole(&rt, &grown, 2, 3);
    assert_both_at_work(&rt, &grown);
    drop(grown);
    drop(gate);
}

/// Where all begins in a wide room.
const MIDDLE: Point = Point { x: 150, y: 150 };

/// Eight marks above and below the middle. Each of the first two is to give a cheaper way to a node on its side, and another node hangs
/// below that, too far away from the new one to be looked at.
static FAR_BELOW: [Point; 8] = [
    Point { x: 190, y: 180 },
    Point { x: 110, y: 120 },
    Point { x: 150, y: 200 },
    Point { x: 190, y: 229 },
    Point { x: 230, y: 249 },
    Point { x: 150, y: 100 },
    Point { x: 110, y: 71 },
    Point { x: 70, y: 51 },
];

/// The task of these marks, by steps of 50, and with a gamma by which all nodes within a step are near.
fn task_in_wide_room<R: Abort>(rt: &R, alloc: Global) -> Task
    ensures clear { ClearAt (space_of result.scene) result.scene.start }
    ensures marks { length result.marks ≡ 8 }
{
    let small = SmallScene {
        room: Point { x: 300, y: 300 },
        start: MIDDLE,
        goal: Goal {
            low: MIDDLE,
            high: MIDDLE,
        },
        step: 50,
        gamma: 1000,
        seed: 0,
        strips: 1,
    };
    sure(rt, small.task(alloc, &FAR_BELOW))
}

/// The run of these marks by two workers.
fn far_below_run<R: Threads + Sync + Abort>(rt: &R, alloc: Global, gate: &OtherFirst) -> Grown {
    let grown = sure(rt, Grown::new(alloc, task_in_wide_room(rt, alloc)));
    let hall = sure(rt, Hall::new(alloc, &grown.task().scene));
    let run = sure(rt, grow(rt, alloc, grown, &hall, 2, 8, gate));
    drop(hall);
    run
}

// Worker 0 has one of the first two marks in hand while worker 1 handles all others, so that it has not seen the last node on its side:
// that one is left to settling.
#[test]
fn a_node_that_waits_is_found_by_the_near_ones(rt: HostRuntime) {
    let gate = OtherFirst::new(6);
    let grown = far_below_run(&rt, rt.alloc(), &gate);
    assert_handled(&rt, &gate);
    assert_node(&rt, &grown, 4, &Some((190, 229, 1, 25_344)));
    assert_node(&rt, &grown, 7, &Some((110, 71, 2, 25_344)));
    drop(grown);
    drop(gate);
}
