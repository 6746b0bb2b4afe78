//! Two workers of a session, of which one is held until the other has placed a node.

ghost use Rattle.std.specs.Prelude.{◌≡◌, IsSome};
ghost use Rattle.plan_model.specs.Spaces.Clearance.{ClearAt};
ghost use Rattle.plan_model.specs.Spaces.ConfigurationSpace.{space_of};

use crate::better_paths::sessions::{GOAL, ORIGIN, sure};
use any_time::{FinishedBatch, Growing, Session, finish_batch, finish_session, grow_slice};
use plan_model::{Goal, Memory, Point, SmallScene, Task};
use std::alloc::{AllocGlobal, Global};
use std::process::Abort;
use std::random::RandomSource;
use std::sync::Wait;
use std::sync::atomic::{AtomicBool, Ordering};
use std::test::Fail;
use std::thread;
use std::thread::Threads;
use step_core::Grown;
use swept_check::{Clearing, Hall};

/// The mark whose segment is held.
const HELD: Point = Point { x: 0, y: 50 };

/// The mark after whose segment it goes on.
const LAST: Point = Point { x: 40, y: 30 };

/// All within a step of the origin, so that each is placed.
static MARKS: [Point; 3] = [HELD, Point { x: 30, y: 40 }, LAST];

/// A collision checker in which the test of the first mark's segment goes on once that of the last one is tested. So the worker that has
/// taken the first mark waits until another has placed the second.
#[derive(Drop)]
struct Holding {
    hall: Hall,
    come: AtomicBool,
}

impl Holding {
    fn in_hall(hall: Hall) -> Holding
        ensures { result.hall ≡ hall }
    {
        Holding {
            hall,
            come: AtomicBool::new(false),
        }
    }

    /// Waits for the last mark, so long at most.
    fn hold(&self) {
        for _ in 0..10_000_000u32 {
            if self.come.load(Ordering::SeqCst) {
                return;
            }
            thread::yield_now();
        }
    }
}

impl Clearing for Holding {
    ghost space = { λ h. h.hall };

    fn clear(&self, a: Point, b: Point) -> bool {
        if a == LAST || b == LAST {
            self.come.store(true, Ordering::SeqCst);
        } else if a == HELD || b == HELD {
            self.hold();
        }
        self.hall.clear(a, b)
    }

    fn room_is_bounded(&self) {
        self.hall.room_is_bounded();
    }
}

impl Growing for Holding {
    fn grow_slice<R: Threads + Sync>(
        &self,
        rt: &R,
        alloc: Global,
        grown: Grown,
        workers: u32,
        slice: u32,
    ) -> Result<Grown, Memory> {
        grow_slice(rt, alloc, grown, self, workers, slice)
    }
}

/// The task of the three marks.
fn task_of<A: Abort>(rt: &A, alloc: Global) -> Task
    ensures { ClearAt (space_of result.scene) result.scene.start }
{
    let small = SmallScene {
        room: Point { x: 100, y: 100 },
        start: ORIGIN,
        goal: Goal {
            low: GOAL,
            high: GOAL,
        },
        step: 50,
        gamma: 1000,
        seed: 0,
        strips: 1,
    };
    sure(rt, small.task(alloc, &MARKS))
}

/// The collision checker of a task.
fn checker_of<A: Abort>(rt: &A, alloc: Global, task: &Task) -> Holding
    ensures { result.hall ≡ space_of task.now.scene }
{
    Holding::in_hall(sure(rt, Hall::new(alloc, &task.scene)))
}

/// Asserts that one worker has handled the first mark, and another the others.
fn assert_both_at_work<A: Abort>(rt: &A, run: &Grown) {
    assert!(rt; run.limit() == 3);
    let held = run.record_of(0).worker;
    let other = run.record_of(1).worker;
    assert!(rt; held != other && other == run.record_of(2).worker);
}

#[test]
fn two_workers_of_a_session_are_at_work(rt: HostRuntime) {
    let task = task_of(&rt, rt.alloc());
    let hall = checker_of(&rt, rt.alloc(), &task);
    let done = sure(&rt, finish_session(&rt, rt.alloc(), task, hall, 2, 3));
    assert_both_at_work(&rt, &done.run);
    drop(done);
}

/// A batch of one session by two workers, over all three marks at once, at its end.
fn finished<R: Threads + Sync + Wait + RandomSource + AllocGlobal + Drop>(
    rt: &R,
    own: R,
    alloc: Global,
    task: Task,
    hall: Holding,
) -> Result<FinishedBatch, Memory>
    requires start { ClearAt (space_of task.scene) task.scene.start }
    requires hall { hall.hall ≡ space_of task.scene }
{
    let session = Session::new(own, alloc, task, hall, 2, 3)?;
    let mut sessions = Vec::with_capacity(alloc, 1)?;
    sessions.push_reserved(session);
    finish_batch(rt, alloc, sessions)
}

#[test]
fn two_workers_of_a_session_of_a_batch_are_at_work(rt: HostRuntime) -> Result<(), Fail> {
    let task = task_of(&rt, rt.alloc());
    let hall = checker_of(&rt, rt.alloc(), &task);
    let done = sure(&rt, finished(&rt, rt.clone()?, rt.alloc(), task, hall));
    let [run] = done.runs.as_slice() else {
        return Err("one run".into());
    };
    assert_both_at_work(&rt, run);
    Ok(())
}
