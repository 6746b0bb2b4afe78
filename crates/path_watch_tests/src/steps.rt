//! Sessions that are watched step by step.

ghost use Rattle.std.specs.Prelude.{IsSome};

use crate::support::{BLOCKS, expect_taken, sink_with, sure};
use any_time::Session;
use path_watch::{Handed, NoProgress, Step, hand_next};
use plan_model::{Goal, MemSink, Memory, Point, SmallScene};
use std::alloc::{AllocGlobal, Global};
use std::process::Abort;
use std::random::RandomSource;
use std::sync::Wait;
use std::test::Fail;
use std::thread::Threads;
use swept_check::Hall;

const GOAL: Point = Point { x: 40, y: 79 };

static MARKS: [Point; 3] = [Point { x: 0, y: 50 }, GOAL, Point { x: 40, y: 30 }];

/// A session of the three marks by one worker, a mark at a time.
fn session<R: Threads + Sync + Drop>(rt: R, alloc: Global) -> Result<Session<Hall, R>, Memory> {
    let small = SmallScene {
        room: Point { x: 100, y: 100 },
        start: Point { x: 0, y: 0 },
        goal: Goal {
            low: GOAL,
            high: GOAL,
        },
        step: 50,
        gamma: 1000,
        seed: 0,
        strips: 1,
    };
    let task = small.task(alloc, &MARKS)?;
    let hall = Hall::new(alloc, &task.scene)?;
    Session::new(rt, alloc, task, hall, 1, 1)
}

/// The next step of a session.
fn step<R: Threads + Sync + Wait + RandomSource + AllocGlobal + Drop + Abort>(
    rt: &R,
    alloc: Global,
    session: Session<Hall, R>,
    sink: &mut MemSink,
) -> Handed<Hall, R> {
    sure(rt, hand_next(rt, alloc, session, sink, &NoProgress))
}

/// What a step gave, and whether its block was taken; `None` at the end.
fn given(step: &Step) -> Option<(u64, u32, bool)> {
    match step {
        Step::Given(item) => Some((item.cost, item.marks, true)),
        Step::Cut(item) => Some((item.cost, item.marks, false)),
        Step::Over => None,
    }
}

#[test]
fn each_block_is_there_before_the_next_step(rt: HostRuntime) -> Result<(), Fail> {
    let mut sink = sink_with(&rt, rt.alloc(), 1000, 1000, 0);
    let fresh = sure(&rt, session(rt.clone()?, rt.alloc()));
    let first = step(&rt, rt.alloc(), fresh, &mut sink);
    assert!(rt; given(&first.step) == Some((25_449, 2, true)));
    expect_taken(&rt, &sink, BLOCKS[0], "the first block");
    let second = step(&rt, rt.alloc(), first.session, &mut sink);
    assert!(rt; given(&second.step) == Some((25_344, 3, true)));
    assert!(rt; sink.bytes().ends_with(BLOCKS[1].as_bytes()));
    let taken = sink.bytes().len();
    let last = step(&rt, rt.alloc(), second.session, &mut sink);
    assert!(rt; given(&last.step).is_none());
    assert_eq!(rt; sink.bytes().len(), taken);
    Ok(())
}

/// The run is handed out that gave the item of the block that was cut.
#[test]
fn a_sink_that_is_full_cuts_a_block(rt: HostRuntime) -> Result<(), Fail> {
    let room = BLOCKS[0].len() + 30;
    let mut sink = sink_with(&rt, rt.alloc(), room, 1000, 0);
    let fresh = sure(&rt, session(rt.clone()?, rt.alloc()));
    let first = step(&rt, rt.alloc(), fresh, &mut sink);
    let second = step(&rt, rt.alloc(), first.session, &mut sink);
    assert!(rt; given(&second.step) == Some((25_344, 3, false)));
    assert_eq!(rt; sink.bytes().len(), room);
    let Some(run) = second.session.finish() else {
        return Err("the run".into());
    };
    assert_eq!(rt; run.limit(), 3);
    Ok(())
}
