//! Paths from the start to the nodes of a run of four marks.

use crate::settled_runs::support::{start_alone, sure, unsettled_run};
use grown_runs::Grown;
use plan_model::{Goal, Point};
use settle_report::path_to;
use std::alloc::Global;
use std::process::Abort;

const GOAL: Goal = Goal {
    low: Point { x: 90, y: 90 },
    high: Point { x: 99, y: 99 },
};

/// Asserts the points of the path to a node; there are none if it is absent.
fn assert_path<R: Abort>(rt: &R, alloc: Global, grown: &Grown, node: u32, want: &[Point]) {
    if grown.point(node).is_none() {
        assert!(rt; want.is_empty(), "node {node} is absent");
        return;
    }
    let path = sure(rt, path_to(alloc, grown, node));
    assert!(rt; path.as_slice() == want, "node {node}");
    drop(path);
}

static START: [Point; 1] = [Point { x: 0, y: 0 }];

static TO_1: [Point; 2] = [Point { x: 0, y: 0 }, Point { x: 0, y: 50 }];

static TO_2: [Point; 4] = [
    Point { x: 0, y: 0 },
    Point { x: 24, y: 18 },
    Point { x: 40, y: 30 },
    Point { x: 40, y: 79 },
];

#[test]
fn leads_from_the_start_by_the_parents(rt: HostRuntime) {
    let grown = unsettled_run(&rt, rt.alloc(), &[GOAL]);
    assert_path(&rt, rt.alloc(), &grown, 0, &START);
    assert_path(&rt, rt.alloc(), &grown, 1, &TO_1);
    assert_path(&rt, rt.alloc(), &grown, 2, &TO_2);
    drop(grown);
}

#[test]
fn of_the_start_is_the_start_alone(rt: HostRuntime) {
    let grown = start_alone(&rt, rt.alloc(), &[GOAL]);
    assert_path(&rt, rt.alloc(), &grown, 0, &START);
    assert_path(&rt, rt.alloc(), &grown, 1, &[]);
    drop(grown);
}
