//! A node that is lowered, and what hangs below it.

ghost use Rattle.std.specs.Prelude.{◌≡◌};
ghost use Rattle.plan_model.specs.Spaces.ConfigurationSpace.{space_of};
ghost use Rattle.growing_tests.specs.LoweredNodes.HeldMarks.{IsAtWork};

use crate::rewiring::support::{
    Begun, START, begun_after, expect_pairs, lower_and_spread, marks_in_square,
};
use plan_model::Point;
use plan_words::{Pass, Shared};
use std::alloc::Global;
use std::process::Abort;
use std::thread::Threads;
use swept_check::Hall;

/// A node that comes round to near the start.
pub(crate) const CLOSE: Point = Point { x: 0, y: 40 };

/// Nodes in a chain that goes round and comes back, and four below it.
///
/// ```text
///     100  10
///      80   8   9
///      60   7
///      40   6   5   4
///      20           3
///       0   0   1   2
///           0  20  40
/// ```
static ROUND: [Point; 10] = [
    Point { x: 20, y: 0 },
    Point { x: 40, y: 0 },
    Point { x: 40, y: 20 },
    Point { x: 40, y: 40 },
    Point { x: 20, y: 40 },
    CLOSE,
    Point { x: 0, y: 60 },
    Point { x: 0, y: 80 },
    Point { x: 20, y: 80 },
    Point { x: 0, y: 100 },
];

/// A pass over a tree of these nodes, each of which hangs below the one that was nearest.
pub(crate) fn begun_round<R: Threads + Sync + Abort>(rt: &R, alloc: Global) -> Begun
    ensures one { result.shared.workers ≡ 1 }
    ensures hall { result.hall ≡ space_of result.shared.task.scene }
    ensures works { IsAtWork result.shared result.pass }
{
    let task = marks_in_square(rt, alloc, 100, 50, 0, &ROUND);
    begun_after(rt, alloc, task, 10)
}

/// The lowered node and those below it, before that and after it.
static HUNG: [(Point, (u32, u64)); 5] = [
    (Point { x: 0, y: 40 }, (5, 30_720)),
    (Point { x: 0, y: 60 }, (6, 35_840)),
    (Point { x: 0, y: 80 }, (7, 40_960)),
    (Point { x: 20, y: 80 }, (8, 46_080)),
    (Point { x: 0, y: 100 }, (8, 46_080)),
];

static LOWERED: [(Point, (u32, u64)); 5] = [
    (Point { x: 0, y: 40 }, (0, 10_240)),
    (Point { x: 0, y: 60 }, (6, 15_360)),
    (Point { x: 0, y: 80 }, (7, 20_480)),
    (Point { x: 20, y: 80 }, (8, 25_600)),
    (Point { x: 0, y: 100 }, (8, 25_600)),
];

/// Compares the node that comes round and those below it, lowers it below the start, and compares them again.
fn expect_lowered<R: Abort>(rt: &R, shared: &Shared, hall: &Hall, pass: &mut Pass)
    requires works { IsAtWork shared.now pass.old }
    requires hall { hall.now ≡ space_of shared.now.task.scene }
{
    expect_pairs(rt, shared, pass, &HUNG);
    let lowered = lower_and_spread(shared, hall, pass, CLOSE, START);
    assert!(rt; lowered);
    expect_pairs(rt, shared, pass, &LOWERED);
}

#[test]
fn a_lowered_cost_comes_to_the_subtree(rt: HostRuntime) {
    let mut begun = begun_round(&rt, rt.alloc());
    expect_lowered(&rt, &begun.shared, &begun.hall, &mut begun.pass);
    drop(begun);
}
