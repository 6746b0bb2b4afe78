//! Two trees of small scenes, as their reports show them.

ghost use Rattle.std.specs.Prelude.{◌≡◌, ◌≤◌, IsTrue, Ok};
ghost use Rattle.plan_model.specs.Scenes.Limits.{is_plan};
ghost use Rattle.plan_model.specs.declared.limits.TheConstants.{MOST_WORKERS};
ghost use Rattle.plan_model.specs.declared.scenes.Marks.TheVariants.{Listed};

use plan_model::{Goal, Memory, Point, SmallScene};
use plan_work::NoGate;
use std::alloc::Global;
use std::process::Abort;
use std::thread::Threads;
use swept_check::Hall;
use twin_trees::{twin, twin_report};

/// What was made, for which memory lasts. A test ends here if none is left, so that no value is dropped on the way.
pub(crate) fn sure<R: Abort, T>(rt: &R, made: Result<T, Memory>) -> T
    ensures { made ≡ Ok result }
{
    match made {
        Ok(value) => value,
        Err(error) => panic!(rt; "{error}"),
    }
}

/// The report of two trees of a scene with these marks, each grown by so many workers; `None` if the goal is blocked.
fn report_of<R: Threads + Sync + Abort>(
    rt: &R,
    alloc: Global,
    small: SmallScene,
    marks: &[Point],
    workers: u32,
) -> Option<Vec<u8>>
    requires plan { IsTrue (is_plan 1 (Listed marks.now)) }
    requires some { 1 ≤ workers }
    requires few { workers ≤ MOST_WORKERS }
{
    let task = sure(rt, small.task(alloc, marks));
    let hall = sure(rt, Hall::new(alloc, &task.scene));
    match twin(rt, alloc, task, &hall, workers, &NoGate) {
        Ok(two) => Some(sure(rt, twin_report(alloc, &two))),
        Err(_) => None,
    }
}

/// Asserts the report of two trees, each grown by so many workers.
fn assert_report<R: Threads + Sync + Abort>(
    rt: &R,
    alloc: Global,
    small: SmallScene,
    marks: &[Point],
    workers: u32,
    want: &str,
)
    requires plan { IsTrue (is_plan 1 (Listed marks.now)) }
    requires some { 1 ≤ workers }
    requires few { workers ≤ MOST_WORKERS }
{
    let Some(text) = report_of(rt, alloc, small, marks, workers) else {
        panic!(rt; "the goal is blocked");
    };
    assert!(rt; text.as_slice() == want.as_bytes());
}

/// One mark in the middle between the two roots: both ways over it cost as much, and the tie goes to the lesser node of the first run.
#[test]
fn a_tie_goes_to_the_start(rt: HostRuntime) {
    let small = SmallScene {
        room: Point { x: 100, y: 10 },
        start: Point { x: 0, y: 0 },
        goal: Goal {
            low: Point { x: 90, y: 0 },
            high: Point { x: 90, y: 0 },
        },
        step: 50,
        gamma: 0,
        seed: 0,
        strips: 1,
    };
    let marks = [Point { x: 45, y: 0 }];
    let want =
        "path 3 cost 23040\n0 0\n45 0\n90 0\nstart nodes 2 placed 1 same 0 blocked 0\ngoal nodes 2 placed 1 same 0 blocked 0\n";
    assert_report(&rt, rt.alloc(), small, &marks, 1, want);
    assert_report(&rt, rt.alloc(), small, &marks, 3, want);
}

/// Four points on the way, of which the middle two are joined: over the second mark of both runs, and not over the root of the second.
#[test]
fn of_equal_ways_the_least_numbers_are_taken(rt: HostRuntime) {
    let small = SmallScene {
        room: Point { x: 20, y: 20 },
        start: Point { x: 0, y: 14 },
        goal: Goal {
            low: Point { x: 18, y: 1 },
            high: Point { x: 18, y: 1 },
        },
        step: 12,
        gamma: 0,
        seed: 0,
        strips: 1,
    };
    let marks = [Point { x: 2, y: 6 }, Point { x: 18, y: 1 }];
    let want =
        "path 4 cost 6410\n0 14\n2 6\n7 4\n18 1\nstart nodes 3 placed 2 same 0 blocked 0\ngoal nodes 2 placed 1 same 1 blocked 0\n";
    assert_report(&rt, rt.alloc(), small, &marks, 1, want);
}
