//! Batches polled by hand.

ghost use Rattle.std.specs.Prelude.{◌≡◌, All, IfOk, IsSome, length};

use crate::better_paths::sessions::{
    GOAL, MARKS, ONE_BY_ONE, ORIGIN, Pace, assert_report, small_session, sure,
};
use any_time::{Batch, Better, Growns, Session};
use futures::Stream;
use futures::task::{Context, Poll};
use futures::test::MockTask;
use plan_model::{Memory, Point};
use std::alloc::Global;
use std::process::Abort;
use std::test::Fail;
use std::thread::Threads;
use swept_check::Hall;

/// The first path comes with the last mark.
static LATE_MARKS: [Point; 5] = [
    Point { x: 5, y: 90 },
    Point { x: 0, y: 50 },
    Point { x: 20, y: 40 },
    Point { x: 40, y: 30 },
    GOAL,
];

/// A batch of two sessions.
fn batch_of<A: Abort, R: Threads + Sync + Drop>(
    rt: &A,
    alloc: Global,
    first: Session<Hall, R>,
    second: Session<Hall, R>,
) -> Batch<Hall, R>
    requires first { IsSome first.run }
    requires second { IsSome second.run }
{
    let sessions = sure(rt, two(alloc, first, second));
    sure(rt, Batch::new(alloc, sessions))
}

/// A list of two sessions.
fn two<R: Threads + Sync + Drop>(
    alloc: Global,
    first: Session<Hall, R>,
    second: Session<Hall, R>,
) -> Result<Vec<Session<Hall, R>>, Memory>
    requires first { IsSome first.run }
    requires second { IsSome second.run }
    ensures count { IfOk result (λ sessions. length sessions.items ≡ 2) }
    ensures runs { IfOk result (λ sessions. All (λ s. IsSome s.run) sessions.items) }
{
    let mut sessions = Vec::with_capacity(alloc, 2)?;
    sessions.push_reserved(first);
    sessions.push_reserved(second);
    Ok(sessions)
}

/// The number of an item's session, what the item costs, and its marks; `None` if there is none.
fn shown(polled: Poll<Option<Result<(u32, Better), Memory>>>) -> Option<(u32, u64, u32)> {
    match polled {
        Poll::Ready(Some(Ok((number, better)))) => Some((number, better.cost, better.marks)),
        _ => None,
    }
}

/// Asserts what so many polls give: an item of a session, or that they are to be polled again.
fn assert_polls<A: Abort, R: Threads + Sync + Drop>(
    rt: &A,
    task: &MockTask,
    batch: &mut Batch<Hall, R>,
    want: &[Option<(u32, u64, u32)>],
) {
    for item in want {
        let polled = task.enter(|cx| batch.poll_next(cx));
        assert!(rt; polled.is_pending() == item.is_none());
        assert!(rt; task.is_woken() | item.is_some());
        assert!(rt; shown(polled) == *item);
    }
}

/// Whether one more poll finds the end.
fn is_over<R: Threads + Sync + Drop>(task: &MockTask, batch: &mut Batch<Hall, R>) -> bool {
    matches!(task.enter(|cx| batch.poll_next(cx)), Poll::Ready(None))
}

/// The runs of a batch that reaches its end within so many polls; `None` if it does not.
fn finished<R: Threads + Sync + Drop>(
    cx: &mut Context<'_>,
    batch: Batch<Hall, R>,
    polls: u32,
) -> Option<Growns> {
    let mut batch = batch;
    for _ in 0..polls {
        if let Poll::Ready(None) = batch.poll_next(cx) {
            return batch.finish();
        }
    }
    None
}

/// Asserts the short reports of the runs of a batch at its end.
fn assert_reports<A: Abort>(rt: &A, alloc: Global, runs: Option<Growns>, want: &[&str]) {
    let Some(runs) = runs else {
        panic!(rt; "no runs")
    };
    assert!(rt; runs.len() == want.len());
    for (run, text) in runs.into_vec().into_iter().zip(want) {
        assert_report(rt, alloc, Some(run), text);
    }
}

const REWIRED: &str = "path 3 cost 22670\n0 0\n20 40\n40 79\nnodes 6 placed 5 same 0 blocked 0\n";

const AT_ONCE: &str = "path 1 cost 0\n40 79\nnodes 2 placed 1 same 0 blocked 0\n";

// The second session gives its item before it handles a mark, while the first is asked to be polled again. Then it is the first one's
// turn, and later that of the second, which is at its end: it is passed over.
#[test]
fn sessions_are_polled_in_turn(rt: HostRuntime) -> Result<(), Fail> {
    let task = MockTask::new(&rt)?;
    let first = small_session(
        &rt,
        rt.clone()?,
        rt.alloc(),
        ORIGIN,
        &MARKS[..3],
        ONE_BY_ONE,
    );
    let second = small_session(&rt, rt.clone()?, rt.alloc(), GOAL, &MARKS[..1], ONE_BY_ONE);
    let mut batch = batch_of(&rt, rt.alloc(), first, second);
    assert_polls(
        &rt,
        &task,
        &mut batch,
        &[Some((1, 0, 0)), Some((0, 25_449, 2)), Some((0, 25_344, 3))],
    );
    assert!(rt; is_over(&task, &mut batch));
    assert!(rt; is_over(&task, &mut batch));
    Ok(())
}

// After an item of the first session each poll begins with the second until that gives one, though both are asked to be polled again in
// between.
#[test]
fn pending_moves_no_turn(rt: HostRuntime) -> Result<(), Fail> {
    let task = MockTask::new(&rt)?;
    let first = small_session(&rt, rt.clone()?, rt.alloc(), ORIGIN, &MARKS, ONE_BY_ONE);
    let second = small_session(
        &rt,
        rt.clone()?,
        rt.alloc(),
        ORIGIN,
        &LATE_MARKS,
        ONE_BY_ONE,
    );
    let mut batch = batch_of(&rt, rt.alloc(), first, second);
    assert_polls(
        &rt,
        &task,
        &mut batch,
        &[
            None,
            Some((0, 25_449, 2)),
            Some((0, 25_344, 3)),
            None,
            Some((0, 22_670, 5)),
            Some((1, 22_670, 5)),
        ],
    );
    assert!(rt; is_over(&task, &mut batch));
    Ok(())
}

// Two sessions that both have an item take turns.
#[test]
fn items_come_by_turns(rt: HostRuntime) -> Result<(), Fail> {
    let task = MockTask::new(&rt)?;
    let pace = Pace {
        workers: 1,
        slice: 3,
    };
    let first = small_session(&rt, rt.clone()?, rt.alloc(), ORIGIN, &MARKS, pace);
    let second = small_session(&rt, rt.clone()?, rt.alloc(), ORIGIN, &MARKS, pace);
    let mut batch = batch_of(&rt, rt.alloc(), first, second);
    assert_polls(
        &rt,
        &task,
        &mut batch,
        &[
            Some((0, 25_344, 3)),
            Some((1, 25_344, 3)),
            Some((0, 22_670, 5)),
            Some((1, 22_670, 5)),
        ],
    );
    assert!(rt; is_over(&task, &mut batch));
    Ok(())
}

#[test]
fn runs_are_handed_out_in_order(rt: HostRuntime) -> Result<(), Fail> {
    let task = MockTask::new(&rt)?;
    let pace = Pace {
        workers: 1,
        slice: 2,
    };
    let first = small_session(&rt, rt.clone()?, rt.alloc(), ORIGIN, &MARKS, pace);
    let second = small_session(&rt, rt.clone()?, rt.alloc(), GOAL, &MARKS[..1], ONE_BY_ONE);
    let batch = batch_of(&rt, rt.alloc(), first, second);
    let runs = task.enter(|cx| finished(cx, batch, 12));
    assert_reports(&rt, rt.alloc(), runs, &[REWIRED, AT_ONCE]);
    Ok(())
}
