//! Sessions that are taken to their end, and the report of what they gave.

use any_time::{FinishedSession, better_report, finish_session};
use plan_model::{Goal, Memory, Point, SmallScene};
use settle_report::{best, settle};
use std::alloc::{AllocGlobal, Global};
use std::random::RandomSource;
use std::sync::Wait;
use std::test::Fail;
use std::thread::Threads;
use swept_check::Hall;

const GOAL: Point = Point { x: 40, y: 79 };

/// The node of the third mark gives that of the second a cheaper way.
static MARKS: [Point; 3] = [Point { x: 0, y: 50 }, GOAL, Point { x: 40, y: 30 }];

/// A session of the three marks by one worker, a mark at a time, at its end.
fn finished<R: Threads + Sync + Wait + RandomSource + AllocGlobal + Clone + Drop>(
    rt: &R,
    alloc: Global,
) -> Result<FinishedSession, Memory> {
    let small = SmallScene {
        room: Point { x: 100, y: 100 },
        start: Point { x: 0, y: 0 },
        goal: Goal {
            low: GOAL,
            high: GOAL,
        },
        step: 50,
        gamma: 1000,
        seed: 0,
        strips: 1,
    };
    let task = small.task(alloc, &MARKS)?;
    let hall = Hall::new(alloc, &task.scene)?;
    finish_session(rt, alloc, task, hall, 1, 1)
}

/// The report of such a session. Its run is settled already, so that settling leaves it as it is.
fn report_of(alloc: Global, session: FinishedSession) -> Result<Vec<u8>, Memory> {
    let FinishedSession { mut run, better } = session;
    settle(alloc, &mut run)?;
    better_report(alloc, better.as_slice(), &run, best(&run))
}

#[test]
fn a_session_is_taken_to_its_end(rt: HostRuntime) -> Result<(), Fail> {
    let session = finished(&rt, rt.alloc()).ok().ok_or("out of memory")?;
    assert_eq!(rt; session.run.limit(), 3);
    let [first, second] = session.better.as_slice() else {
        return Err("two items".into());
    };
    assert_eq!(rt; (first.cost, first.marks), (25_449, 2));
    assert_eq!(rt; (second.cost, second.marks), (25_344, 3));
    Ok(())
}

#[test]
fn a_report_has_the_better_paths_first(rt: HostRuntime) -> Result<(), Fail> {
    let session = finished(&rt, rt.alloc()).ok().ok_or("out of memory")?;
    let text = report_of(rt.alloc(), session).ok().ok_or("out of memory")?;
    assert!(rt;
        text.as_slice()
            == "better 25449 marks 2\nbetter 25344 marks 3\npath 3 cost 25344\n0 0\n40 30\n40 79\n\
        nodes 4 placed 3 same 0 blocked 0\n"
                .as_bytes()
    );
    Ok(())
}
