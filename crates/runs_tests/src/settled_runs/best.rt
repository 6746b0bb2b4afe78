//! The best nodes of a run of four marks, and of the start alone, for a goal here and there, and for several goals.

ghost use Rattle.std.specs.Prelude.{◌≡◌, IsTrue};
ghost use Rattle.plan_model.specs.Scenes.Limits.{are_goals, is_goal};
ghost use Rattle.plan_model.specs.Vectors.Reports.{box};

use crate::settled_runs::support::{settle_run, start_alone, unsettled_run};
use grown_runs::Grown;
use plan_model::{Goal, Point};
use settle_report::best;
use std::alloc::Global;
use std::process::Abort;

/// The goal between these two corners.
fn goal(low: (u32, u32), high: (u32, u32)) -> Goal
    ensures { result ≡ box low.0 low.1 high.0 high.1 }
{
    Goal {
        low: Point { x: low.0, y: low.1 },
        high: Point {
            x: high.0,
            y: high.1,
        },
    }
}

/// Settles a run, and asserts which of its nodes is the best. The run ends here.
fn assert_best<R: Abort>(rt: &R, alloc: Global, grown: Grown, want: Option<u32>) {
    let mut grown = grown;
    settle_run(rt, alloc, &mut grown);
    let goals = grown.task().scene.goals.as_slice();
    assert!(rt; best(&grown) == want, "for the goals {goals:?}");
    drop(grown);
}

/// Asserts the best node of the run of four marks, for the goal between these two corners.
fn assert_best_of_run<R: Abort>(
    rt: &R,
    alloc: Global,
    low: (u32, u32),
    high: (u32, u32),
    want: Option<u32>,
)
    requires { IsTrue (is_goal 2 (box low.0 low.1 high.0 high.1)) }
{
    let grown = unsettled_run(rt, alloc, &[goal(low, high)]);
    assert_best(rt, alloc, grown, want);
}

#[test]
fn takes_the_cheapest_and_of_equal_ones_the_first(rt: HostRuntime) {
    assert_best_of_run(&rt, rt.alloc(), (90, 90), (99, 99), None);
    assert_best_of_run(&rt, rt.alloc(), (0, 0), (100, 100), Some(0));
    assert_best_of_run(&rt, rt.alloc(), (40, 30), (40, 79), Some(3));
    assert_best_of_run(&rt, rt.alloc(), (0, 30), (40, 50), Some(1));
    assert_best_of_run(&rt, rt.alloc(), (40, 79), (40, 79), Some(2));
    assert_best_of_run(&rt, rt.alloc(), (41, 30), (100, 79), None);
}

/// Asserts the best node of the start alone, for the goal between these two corners.
fn assert_best_alone<R: Abort>(
    rt: &R,
    alloc: Global,
    low: (u32, u32),
    high: (u32, u32),
    want: Option<u32>,
)
    requires { IsTrue (is_goal 2 (box low.0 low.1 high.0 high.1)) }
{
    let grown = start_alone(rt, alloc, &[goal(low, high)]);
    assert_best(rt, alloc, grown, want);
}

#[test]
fn takes_the_start_alone_if_it_lies_in_the_goal(rt: HostRuntime) {
    assert_best_alone(&rt, rt.alloc(), (0, 0), (0, 0), Some(0));
    assert_best_alone(&rt, rt.alloc(), (0, 0), (9, 9), Some(0));
    assert_best_alone(&rt, rt.alloc(), (1, 1), (9, 9), None);
}

/// Asserts the best node of the run of four marks, for these goals.
fn assert_best_of_goals<R: Abort>(rt: &R, alloc: Global, goals: &[Goal], want: Option<u32>)
    requires { IsTrue (are_goals 2 goals.now) }
{
    let grown = unsettled_run(rt, alloc, goals);
    assert_best(rt, alloc, grown, want);
}

/// Nodes 2 and 3 lie in the first, and nodes 1 and 3, which cost the same, in the second.
static OVERLAPPING: [Goal; 2] = [
    Goal {
        low: Point { x: 40, y: 30 },
        high: Point { x: 40, y: 79 },
    },
    Goal {
        low: Point { x: 0, y: 30 },
        high: Point { x: 40, y: 50 },
    },
];

#[test]
fn takes_the_cheapest_of_goals_that_overlap(rt: HostRuntime) {
    assert_best_of_goals(&rt, rt.alloc(), &OVERLAPPING, Some(1));
}

/// Node 3 lies in the first, and node 1, which costs the same, in the second.
static OF_EQUAL_COSTS: [Goal; 2] = [
    Goal {
        low: Point { x: 40, y: 30 },
        high: Point { x: 40, y: 30 },
    },
    Goal {
        low: Point { x: 0, y: 50 },
        high: Point { x: 0, y: 50 },
    },
];

#[test]
fn of_equal_costs_the_number_of_the_node_decides(rt: HostRuntime) {
    assert_best_of_goals(&rt, rt.alloc(), &OF_EQUAL_COSTS, Some(1));
}

static EQUAL: [Goal; 2] = [
    Goal {
        low: Point { x: 40, y: 79 },
        high: Point { x: 40, y: 79 },
    },
    Goal {
        low: Point { x: 40, y: 79 },
        high: Point { x: 40, y: 79 },
    },
];

#[test]
fn takes_the_node_of_equal_goals(rt: HostRuntime) {
    assert_best_of_goals(&rt, rt.alloc(), &EQUAL, Some(2));
}

/// No node lies in the first, as the room ends at (100, 100).
static FIRST_OUTSIDE: [Goal; 2] = [
    Goal {
        low: Point { x: 101, y: 0 },
        high: Point {
            x: 1_048_575,
            y: 1_048_575,
        },
    },
    Goal {
        low: Point { x: 40, y: 79 },
        high: Point { x: 40, y: 79 },
    },
];

static OUTSIDE: [Goal; 2] = [
    Goal {
        low: Point { x: 101, y: 0 },
        high: Point {
            x: 1_048_575,
            y: 1_048_575,
        },
    },
    Goal {
        low: Point { x: 0, y: 101 },
        high: Point {
            x: 1_048_575,
            y: 1_048_575,
        },
    },
];

#[test]
fn no_node_lies_in_a_goal_outside_the_room(rt: HostRuntime) {
    assert_best_of_goals(&rt, rt.alloc(), &FIRST_OUTSIDE, Some(2));
    assert_best_of_goals(&rt, rt.alloc(), &OUTSIDE, None);
}

/// The start lies in the last of them alone.
static SIXTEEN: [Goal; 16] = [
    Goal {
        low: Point { x: 1, y: 100 },
        high: Point { x: 1, y: 100 },
    },
    Goal {
        low: Point { x: 2, y: 100 },
        high: Point { x: 2, y: 100 },
    },
    Goal {
        low: Point { x: 3, y: 100 },
        high: Point { x: 3, y: 100 },
    },
    Goal {
        low: Point { x: 4, y: 100 },
        high: Point { x: 4, y: 100 },
    },
    Goal {
        low: Point { x: 5, y: 100 },
        high: Point { x: 5, y: 100 },
    },
    Goal {
        low: Point { x: 6, y: 100 },
        high: Point { x: 6, y: 100 },
    },
    Goal {
        low: Point { x: 7, y: 100 },
        high: Point { x: 7, y: 100 },
    },
    Goal {
        low: Point { x: 8, y: 100 },
        high: Point { x: 8, y: 100 },
    },
    Goal {
        low: Point { x: 9, y: 100 },
        high: Point { x: 9, y: 100 },
    },
    Goal {
        low: Point { x: 10, y: 100 },
        high: Point { x: 10, y: 100 },
    },
    Goal {
        low: Point { x: 11, y: 100 },
        high: Point { x: 11, y: 100 },
    },
    Goal {
        low: Point { x: 12, y: 100 },
        high: Point { x: 12, y: 100 },
    },
    Goal {
        low: Point { x: 13, y: 100 },
        high: Point { x: 13, y: 100 },
    },
    Goal {
        low: Point { x: 14, y: 100 },
        high: Point { x: 14, y: 100 },
    },
    Goal {
        low: Point { x: 15, y: 100 },
        high: Point { x: 15, y: 100 },
    },
    Goal {
        low: Point { x: 0, y: 0 },
        high: Point { x: 0, y: 0 },
    },
];

#[test]
fn takes_the_start_if_it_lies_in_the_sixteenth_goal(rt: HostRuntime) {
    assert_best_of_goals(&rt, rt.alloc(), &SIXTEEN, Some(0));
    assert_best_of_goals(&rt, rt.alloc(), &SIXTEEN[0..15], None);
}
