//! Two workers that are at work in each of the two trees.

ghost use Rattle.std.specs.Prelude.{◌≡◌, Ok};
ghost use Rattle.plan_model.specs.Spaces.Clearance.{ClearAt};
ghost use Rattle.plan_model.specs.Spaces.ConfigurationSpace.{space_of};

use crate::two_trees::twins::sure;
use plan_model::{Goal, Point, SmallScene, Task};
use plan_work::Gate;
use std::alloc::Global;
use std::process::Abort;
use std::sync::atomic::{AtomicBool, AtomicU32, Ordering};
use std::thread;
use std::thread::Threads;
use step_core::Grown;
use swept_check::Hall;
use twin_trees::{Twin, twin};

/// A gate for two workers. In each run worker 0 goes on with its first mark only after worker 1 has handled its own, and worker 1 only after
/// worker 0 has come to one. One thread alone passes it in no run.
#[derive(Drop)]
struct OtherFirst {
    come: AtomicU32,
    handled: AtomicU32,
    in_time: AtomicBool,
}

impl OtherFirst {
    fn new() -> OtherFirst {
        OtherFirst {
            come: AtomicU32::new(0),
            handled: AtomicU32::new(0),
            in_time: AtomicBool::new(true),
        }
    }

    /// Waits until this was so in more runs, and notes if it was not in time.
    fn wait_past(&self, runs: u32, count: &AtomicU32) {
        for _ in 0..10_000_000u32 {
            if count.load(Ordering::SeqCst) > runs {
                return;
            }
            thread::yield_now();
        }
        self.in_time.store(false, Ordering::SeqCst);
    }
}

impl Gate for OtherFirst {
    fn before(&self, worker: u32, turn: u32) {
        if (worker, turn) == (0, 0) {
            let runs = self.come.fetch_add(1, Ordering::SeqCst);
            self.wait_past(runs, &self.handled);
        } else if (worker, turn) == (1, 0) {
            let runs = self.handled.load(Ordering::SeqCst);
            self.wait_past(runs, &self.come);
        }
    }

    fn after(&self, worker: u32, turn: u32) {
        if (worker, turn) == (1, 0) {
            self.handled.fetch_add(1, Ordering::SeqCst);
        }
    }
}

/// The task of two marks between the start and the goal.
fn task_of<A: Abort>(rt: &A, alloc: Global) -> Task
    ensures { ClearAt (space_of result.scene) result.scene.start }
{
    let small = SmallScene {
        room: Point { x: 100, y: 10 },
        start: Point { x: 0, y: 0 },
        goal: Goal {
            low: Point { x: 90, y: 0 },
            high: Point { x: 90, y: 0 },
        },
        step: 50,
        gamma: 0,
        seed: 0,
        strips: 1,
    };
    sure(
        rt,
        small.task(alloc, &[Point { x: 45, y: 0 }, Point { x: 45, y: 5 }]),
    )
}

/// Both trees, each by two workers, with a gate.
fn both<A: Abort, R: Threads + Sync>(
    rt: &A,
    threads: &R,
    alloc: Global,
    gate: &OtherFirst,
) -> Twin {
    let task = task_of(rt, alloc);
    let hall = sure(rt, Hall::new(alloc, &task.scene));
    match twin(threads, alloc, task, &hall, 2, gate) {
        Ok(two) => two,
        Err(error) => panic!(rt; "{error}"),
    }
}

/// Asserts that each of two workers has handled one of two marks.
fn assert_both_at_work<A: Abort>(rt: &A, run: &Grown) {
    assert!(rt; run.limit() == 2);
    assert!(rt; run.record_of(0).worker != run.record_of(1).worker);
}

#[test]
fn two_workers_grow_each_tree_at_once(rt: HostRuntime) {
    let gate = OtherFirst::new();
    let two = both(&rt, &rt, rt.alloc(), &gate);
    assert!(rt; gate.in_time.load(Ordering::SeqCst));
    assert_both_at_work(&rt, &two.from_start);
    assert_both_at_work(&rt, &two.from_goal);
    drop(two);
    drop(gate);
}
