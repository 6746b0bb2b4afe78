//! Near nodes that a new node is the better parent of, and the costs of their descendants.

use crate::textbook::support::assert_run;
use plan_model::{Memory, Outcome, Point};

// The fourth mark gives the second node a cheaper way, which its child gets too: the fifth node costs less by as much.
#[test]
fn lowers_the_costs_of_descendants(rt: HostRuntime) -> Result<(), Memory> {
    let marks = [
        Point { x: 0, y: 50 },
        Point { x: 40, y: 79 },
        Point { x: 60, y: 79 },
        Point { x: 40, y: 30 },
        Point { x: 100, y: 79 },
    ];
    let nodes = [
        Some((0, 0, 0, 0)),
        Some((0, 50, 0, 12_800)),
        Some((40, 79, 4, 25_344)),
        Some((60, 79, 2, 30_464)),
        Some((40, 30, 0, 12_800)),
        Some((100, 79, 3, 40_704)),
    ];
    let records = [
        (0, 0, Outcome::Placed, 0, 12_800, 1),
        (1, 1, Outcome::Placed, 1, 25_449, 2),
        (2, 2, Outcome::Placed, 2, 30_569, 2),
        (3, 1, Outcome::Placed, 0, 12_800, 3),
        (4, 3, Outcome::Placed, 3, 40_704, 3),
    ];
    assert_run(&rt, rt.alloc(), 1000, &marks, &nodes, &records)
}

// Nodes 3, 4 and 5 are children of node 2. The sixth mark takes 4 and 5 from it, from the middle of its list of children and
// then from its front. The eighth lowers node 2, so node 3 too, and node 6, so 4 and 5 too.
#[test]
fn children_move_to_another_parent(rt: HostRuntime) -> Result<(), Memory> {
    let marks = [
        Point { x: 95, y: 0 },
        Point { x: 55, y: 100 },
        Point { x: 50, y: 70 },
        Point { x: 20, y: 85 },
        Point { x: 25, y: 90 },
        Point { x: 30, y: 45 },
        Point { x: 65, y: 25 },
        Point { x: 5, y: 35 },
    ];
    let nodes = [
        Some((0, 0, 0, 0)),
        Some((50, 0, 0, 12_800)),
        Some((52, 49, 8, 21_606)),
        Some((50, 70, 2, 27_007)),
        Some((20, 85, 6, 26_501)),
        Some((25, 90, 6, 27_536)),
        Some((30, 45, 8, 15_945)),
        Some((65, 25, 1, 20_264)),
        Some((5, 35, 0, 9_051)),
    ];
    let records = [
        (0, 0, Outcome::Placed, 0, 12_800, 1),
        (1, 1, Outcome::Placed, 1, 25_355, 2),
        (2, 2, Outcome::Placed, 2, 30_756, 2),
        (3, 3, Outcome::Placed, 2, 37_686, 3),
        (4, 4, Outcome::Placed, 2, 37_923, 3),
        (5, 2, Outcome::Placed, 1, 25_407, 3),
        (6, 2, Outcome::Placed, 1, 20_264, 3),
        (7, 6, Outcome::Placed, 0, 9_051, 4),
    ];
    assert_run(&rt, rt.alloc(), 1000, &marks, &nodes, &records)
}
