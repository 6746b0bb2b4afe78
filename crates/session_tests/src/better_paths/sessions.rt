//! Sessions polled by hand.

ghost use Rattle.std.specs.Prelude.{◌≡◌, ◌≤◌, IsSome, IsTrue, Ok};
ghost use Rattle.plan_model.specs.Scenes.Limits.{is_plan};
ghost use Rattle.plan_model.specs.declared.limits.TheConstants.{MOST_WORKERS};
ghost use Rattle.plan_model.specs.declared.scenes.Marks.TheVariants.{Listed};

use any_time::{Better, Session};
use futures::Stream;
use futures::task::Poll;
use futures::test::MockTask;
use plan_model::{Goal, Memory, Point, SmallScene};
use settle_report::{best, report, settle};
use std::alloc::Global;
use std::process::Abort;
use std::test::Fail;
use std::thread::Threads;
use step_core::Grown;
use swept_check::Hall;

/// What was made, for which memory lasts. A test ends here if none is left, so that no value is dropped on the way.
pub(crate) fn sure<R: Abort, T>(rt: &R, made: Result<T, Memory>) -> T
    ensures { made ≡ Ok result }
{
    match made {
        Ok(value) => value,
        Err(error) => panic!(rt; "{error}"),
    }
}

pub(crate) const ORIGIN: Point = Point { x: 0, y: 0 };

pub(crate) const GOAL: Point = Point { x: 40, y: 79 };

/// The node of the third mark gives that of the second a cheaper way, and the node of the last a still cheaper one.
pub(crate) static MARKS: [Point; 5] = [
    Point { x: 0, y: 50 },
    GOAL,
    Point { x: 40, y: 30 },
    Point { x: 5, y: 90 },
    Point { x: 20, y: 40 },
];

/// How a session grows: by so many workers, and so many marks at a time.
#[derive(Clone, Copy)]
pub(crate) struct Pace {
    pub(crate) workers: u32,
    pub(crate) slice: u32,
}

pub(crate) const ONE_BY_ONE: Pace = Pace {
    workers: 1,
    slice: 1,
};

/// A session of these marks in an empty room of 100 by 100, from a point of it to one goal point by steps of 50, in which all nodes
/// are near.
pub(crate) fn small_session<A: Abort, R: Threads + Sync + Drop>(
    rt: &A,
    own: R,
    alloc: Global,
    start: Point,
    marks: &[Point],
    pace: Pace,
) -> Session<Hall, R>
    requires start { (start.x ≤ 100) × (start.y ≤ 100) }
    requires plan { IsTrue (is_plan 1 (Listed marks.now)) }
    requires some { 1 ≤ pace.workers }
    requires few { pace.workers ≤ MOST_WORKERS }
    requires slice { 1 ≤ pace.slice }
    ensures { IsSome result.run }
{
    let small = SmallScene {
        room: Point { x: 100, y: 100 },
        start,
        goal: Goal {
            low: GOAL,
            high: GOAL,
        },
        step: 50,
        gamma: 1000,
        seed: 0,
        strips: 1,
    };
    let task = sure(rt, small.task(alloc, marks));
    let hall = sure(rt, Hall::new(alloc, &task.scene));
    sure(
        rt,
        Session::new(own, alloc, task, hall, pace.workers, pace.slice),
    )
}

/// What an item costs, and its marks; `None` if there is none.
fn shown(polled: Poll<Option<Result<Better, Memory>>>) -> Option<(u64, u32)> {
    match polled {
        Poll::Ready(Some(Ok(better))) => Some((better.cost, better.marks)),
        _ => None,
    }
}

/// What each better path costs, and after how many marks it was there: the items of a session until its end, in so many polls at most.
fn items_of<R: Threads + Sync + Drop>(
    alloc: Global,
    task: &MockTask,
    session: &mut Session<Hall, R>,
    polls: u32,
) -> Result<Vec<(u64, u32)>, Memory> {
    let mut items = Vec::new(alloc);
    for _ in 0..polls {
        match task.enter(|cx| session.poll_next(cx)) {
            Poll::Pending => {}
            Poll::Ready(Some(item)) => {
                let better = item?;
                items.push((better.cost, better.marks))?;
            }
            Poll::Ready(None) => break,
        }
    }
    Ok(items)
}

/// Asserts what a session of the five marks by one worker gives, with slices of this size. Twelve polls are more than it takes.
fn assert_given<A: Abort, R: Threads + Sync + Drop>(
    rt: &A,
    own: R,
    alloc: Global,
    task: &MockTask,
    slice: u32,
    want: &[(u64, u32)],
)
    requires { 1 ≤ slice }
{
    let pace = Pace { workers: 1, slice };
    let mut session = small_session(rt, own, alloc, ORIGIN, &MARKS, pace);
    let items = sure(rt, items_of(alloc, task, &mut session, 12));
    assert!(rt; items.as_slice() == want, "slices of {slice}");
    assert!(rt; is_over(task, &mut session), "slices of {slice}");
    assert_report(
        rt,
        alloc,
        session.finish(),
        "path 3 cost 22670\n0 0\n20 40\n40 79\nnodes 6 placed 5 same 0 blocked 0\n",
    );
}

/// Whether one more poll finds the end.
fn is_over<R: Threads + Sync + Drop>(task: &MockTask, session: &mut Session<Hall, R>) -> bool {
    matches!(task.enter(|cx| session.poll_next(cx)), Poll::Ready(None))
}

/// The short report of a run. It is settled already, so that settling leaves it as it is.
fn report_of(alloc: Global, finished: Option<Grown>) -> Result<Vec<u8>, Memory> {
    let Some(mut run) = finished else {
        return Ok(Vec::new(alloc));
    };
    settle(alloc, &mut run)?;
    report(alloc, &run, false)
}

/// Asserts the short report of what a session hands out.
pub(crate) fn assert_report<A: Abort>(rt: &A, alloc: Global, finished: Option<Grown>, want: &str) {
    let text = sure(rt, report_of(alloc, finished));
    assert!(rt; text.as_slice() == want.as_bytes());
}

// Pending, an item, an item, the end, and the end again.
#[test]
fn a_session_is_polled_by_hand(rt: HostRuntime) -> Result<(), Fail> {
    let task = MockTask::new(&rt)?;
    let mut session = small_session(
        &rt,
        rt.clone()?,
        rt.alloc(),
        ORIGIN,
        &MARKS[..3],
        ONE_BY_ONE,
    );
    let first = task.enter(|cx| session.poll_next(cx));
    assert!(rt; first.is_pending());
    assert!(rt; task.is_woken());
    let second = task.enter(|cx| session.poll_next(cx));
    assert_eq!(rt; shown(second), Some((25_449, 2)));
    assert!(rt; !task.is_woken());
    let third = task.enter(|cx| session.poll_next(cx));
    assert_eq!(rt; shown(third), Some((25_344, 3)));
    assert!(rt; is_over(&task, &mut session));
    assert!(rt; is_over(&task, &mut session));
    assert_report(
        &rt,
        rt.alloc(),
        session.finish(),
        "path 3 cost 25344\n0 0\n40 30\n40 79\nnodes 4 placed 3 same 0 blocked 0\n",
    );
    Ok(())
}

#[test]
fn one_mark_a_poll(rt: HostRuntime) -> Result<(), Fail> {
    let task = MockTask::new(&rt)?;
    assert_given(
        &rt,
        rt.clone()?,
        rt.alloc(),
        &task,
        1,
        &[(25_449, 2), (25_344, 3), (22_670, 5)],
    );
    Ok(())
}

#[test]
fn two_marks_a_poll(rt: HostRuntime) -> Result<(), Fail> {
    let task = MockTask::new(&rt)?;
    assert_given(
        &rt,
        rt.clone()?,
        rt.alloc(),
        &task,
        2,
        &[(25_449, 2), (25_344, 4), (22_670, 5)],
    );
    Ok(())
}

#[test]
fn three_marks_a_poll(rt: HostRuntime) -> Result<(), Fail> {
    let task = MockTask::new(&rt)?;
    assert_given(
        &rt,
        rt.clone()?,
        rt.alloc(),
        &task,
        3,
        &[(25_344, 3), (22_670, 5)],
    );
    Ok(())
}

#[test]
fn four_marks_a_poll(rt: HostRuntime) -> Result<(), Fail> {
    let task = MockTask::new(&rt)?;
    assert_given(
        &rt,
        rt.clone()?,
        rt.alloc(),
        &task,
        4,
        &[(25_344, 4), (22_670, 5)],
    );
    Ok(())
}

// The slice is cut at the last mark, which is then the number of the item's marks.
#[test]
fn all_marks_in_one_poll(rt: HostRuntime) -> Result<(), Fail> {
    let task = MockTask::new(&rt)?;
    assert_given(&rt, rt.clone()?, rt.alloc(), &task, 262_143, &[(22_670, 5)]);
    Ok(())
}

// The item comes before any mark is handled, and there is none at the end.
#[test]
fn a_start_in_the_goal_is_given_first(rt: HostRuntime) -> Result<(), Fail> {
    let task = MockTask::new(&rt)?;
    let pace = Pace {
        workers: 4,
        slice: 7,
    };
    let mut session = small_session(&rt, rt.clone()?, rt.alloc(), GOAL, &MARKS[..1], pace);
    let first = task.enter(|cx| session.poll_next(cx));
    assert_eq!(rt; shown(first), Some((0, 0)));
    let second = task.enter(|cx| session.poll_next(cx));
    assert!(rt; second.is_pending());
    assert!(rt; is_over(&task, &mut session));
    Ok(())
}

// A run may be taken before the end.
#[test]
fn a_session_is_finished_early(rt: HostRuntime) -> Result<(), Fail> {
    let task = MockTask::new(&rt)?;
    let mut session = small_session(&rt, rt.clone()?, rt.alloc(), ORIGIN, &MARKS, ONE_BY_ONE);
    let first = task.enter(|cx| session.poll_next(cx));
    assert!(rt; first.is_pending());
    assert_report(
        &rt,
        rt.alloc(),
        session.finish(),
        "no path\nnodes 2 placed 1 same 0 blocked 0\n",
    );
    Ok(())
}

/// Whether each of the items costs less than the one before it and comes after more marks, and the last has this cost; without a
/// cost there is no item.
fn fall_to(items: &[(u64, u32)], cost: Option<u64>) -> bool {
    let mut last = None;
    for &(next, marks) in items {
        if let Some((above, before)) = last {
            if above <= next || marks <= before {
                return false;
            }
        }
        last = Some((next, marks));
    }
    match last {
        Some((least, _)) => cost == Some(least),
        None => cost.is_none(),
    }
}

/// What the best path of a run costs. It is settled already, so that settling leaves it as it is.
fn best_cost(alloc: Global, finished: Option<Grown>) -> Result<Option<u64>, Memory> {
    let Some(mut run) = finished else {
        return Ok(None);
    };
    settle(alloc, &mut run)?;
    match best(&run) {
        Some(node) => Ok(Some(run.cost(node))),
        None => Ok(None),
    }
}

// By four workers the last cost is that of the best path of the run, whatever it is.
#[test]
fn four_workers_end_with_the_best_path(rt: HostRuntime) -> Result<(), Fail> {
    let task = MockTask::new(&rt)?;
    let pace = Pace {
        workers: 4,
        slice: 2,
    };
    let mut session = small_session(&rt, rt.clone()?, rt.alloc(), ORIGIN, &MARKS, pace);
    let items = sure(&rt, items_of(rt.alloc(), &task, &mut session, 12));
    assert!(rt; is_over(&task, &mut session));
    let cost = sure(&rt, best_cost(rt.alloc(), session.finish()));
    assert!(rt; fall_to(items.as_slice(), cost));
    Ok(())
}
