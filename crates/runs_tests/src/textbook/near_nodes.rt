//! Which node is nearest to a mark, and which are near a new node.

use crate::textbook::support::assert_run;
use plan_model::{Memory, Outcome, Point};

// Nodes 1, 3 and 4 are each 10 away from the last mark; there is no node 2.
#[test]
fn of_equally_near_nodes_the_least_number_is_nearest(rt: HostRuntime) -> Result<(), Memory> {
    let marks = [
        Point { x: 10, y: 0 },
        Point { x: 10, y: 0 },
        Point { x: 0, y: 10 },
        Point { x: 10, y: 20 },
        Point { x: 10, y: 10 },
    ];
    let nodes = [
        Some((0, 0, 0, 0)),
        Some((10, 0, 0, 2_560)),
        None,
        Some((0, 10, 0, 2_560)),
        Some((10, 20, 3, 6_181)),
        Some((10, 10, 1, 5_120)),
    ];
    let records = [
        (0, 0, Outcome::Placed, 0, 2_560, 1),
        (1, 1, Outcome::Same(1), 0, 0, 0),
        (2, 0, Outcome::Placed, 0, 2_560, 2),
        (3, 3, Outcome::Placed, 3, 6_181, 2),
        (4, 1, Outcome::Placed, 1, 5_120, 3),
    ];
    assert_run(&rt, rt.alloc(), 0, &marks, &nodes, &records)
}

// Node 0 is cheaper to come from than node 1, and 50 away.
#[test]
fn a_node_at_the_radius_exactly_is_near(rt: HostRuntime) -> Result<(), Memory> {
    let marks = [Point { x: 30, y: 0 }, Point { x: 30, y: 40 }];
    let nodes = [
        Some((0, 0, 0, 0)),
        Some((30, 0, 0, 7_680)),
        Some((30, 40, 0, 12_800)),
    ];
    let records = [
        (0, 0, Outcome::Placed, 0, 7_680, 1),
        (1, 1, Outcome::Placed, 0, 12_800, 2),
    ];
    assert_run(&rt, rt.alloc(), 1000, &marks, &nodes, &records)
}

#[test]
fn a_node_past_the_radius_is_not_near(rt: HostRuntime) -> Result<(), Memory> {
    let marks = [Point { x: 30, y: 0 }, Point { x: 31, y: 40 }];
    let nodes = [
        Some((0, 0, 0, 0)),
        Some((30, 0, 0, 7_680)),
        Some((31, 40, 1, 17_924)),
    ];
    let records = [
        (0, 0, Outcome::Placed, 0, 7_680, 1),
        (1, 1, Outcome::Placed, 1, 17_924, 2),
    ];
    assert_run(&rt, rt.alloc(), 1000, &marks, &nodes, &records)
}

#[test]
fn no_node_is_near_within_radius_0(rt: HostRuntime) -> Result<(), Memory> {
    let marks = [Point { x: 30, y: 0 }, Point { x: 30, y: 40 }];
    let nodes = [
        Some((0, 0, 0, 0)),
        Some((30, 0, 0, 7_680)),
        Some((30, 40, 1, 17_920)),
    ];
    let records = [
        (0, 0, Outcome::Placed, 0, 7_680, 1),
        (1, 1, Outcome::Placed, 1, 17_920, 2),
    ];
    assert_run(&rt, rt.alloc(), 0, &marks, &nodes, &records)
}

// The radius is 40 for the third mark and 34 for the fourth. The start is near node 3, 36.4 away, and node 2, 42.7 away, is not. Both are
// 36.1 away from node 4, so the start is not its parent, and node 2 is not moved below it.
#[test]
fn the_radius_falls_below_the_step(rt: HostRuntime) -> Result<(), Memory> {
    let marks = [
        Point { x: 45, y: 5 },
        Point { x: 50, y: 50 },
        Point { x: 35, y: 10 },
        Point { x: 30, y: 20 },
    ];
    let nodes = [
        Some((0, 0, 0, 0)),
        Some((45, 5, 0, 11_591)),
        Some((50, 50, 1, 23_182)),
        Some((35, 10, 0, 9_319)),
        Some((30, 20, 3, 12_182)),
    ];
    let records = [
        (0, 0, Outcome::Placed, 0, 11_591, 1),
        (1, 1, Outcome::Placed, 1, 23_182, 2),
        (2, 1, Outcome::Placed, 0, 9_319, 2),
        (3, 3, Outcome::Placed, 3, 12_182, 3),
    ];
    assert_run(&rt, rt.alloc(), 40, &marks, &nodes, &records)
}
