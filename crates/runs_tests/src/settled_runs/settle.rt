//! Parents and kept costs before a run is settled, and then.

use crate::settled_runs::support::{settle_again, settle_run, start_alone, unsettled_run};
use grown_runs::Grown;
use plan_model::{Goal, Point};
use std::process::Abort;

const GOAL: Goal = Goal {
    low: Point { x: 90, y: 90 },
    high: Point { x: 99, y: 99 },
};

/// The parent and the kept cost of a node; `None` if it is absent.
fn kept(grown: &Grown, node: u32) -> Option<(u32, u64)> {
    grown.point(node)?;
    Some((grown.parent(node), grown.cost(node)))
}

/// Asserts the parent and the kept cost of a node; `None` if it is absent.
fn assert_kept_at<R: Abort>(rt: &R, grown: &Grown, node: u32, want: &Option<(u32, u64)>) {
    assert!(rt; kept(grown, node) == *want, "node {node}");
}

/// Asserts the parents and the kept costs of a run's nodes, by number.
fn assert_kept<R: Abort>(rt: &R, grown: &Grown, wants: &[Option<(u32, u64)>]) {
    for (node, want) in (0..).zip(wants) {
        assert_kept_at(rt, grown, node, want);
    }
}

/// What the run of four marks keeps before it is settled, and then.
static UNSETTLED: [Option<(u32, u64)>; 6] = [
    Some((0, 0)),
    Some((0, 12_800)),
    Some((3, 25_444)),
    Some((4, 12_900)),
    Some((0, 7_780)),
    None,
];

static SETTLED: [Option<(u32, u64)>; 6] = [
    Some((0, 0)),
    Some((0, 12_800)),
    Some((3, 25_344)),
    Some((4, 12_800)),
    Some((0, 7_680)),
    None,
];

/// Asserts what the run of four marks is once it is settled. The run ends here.
fn assert_settled<R: Abort>(rt: &R, grown: Grown) {
    assert_kept(rt, &grown, &SETTLED);
    assert!(rt; grown.limit() == 4 && grown.count() == 5);
    drop(grown);
}

#[test]
fn lowers_the_last_node_and_those_below_it_from_the_first_of_them(rt: HostRuntime) {
    let mut grown = unsettled_run(&rt, rt.alloc(), &[GOAL]);
    assert_kept(&rt, &grown, &UNSETTLED);
    settle_run(&rt, rt.alloc(), &mut grown);
    assert_settled(&rt, grown);
}

#[test]
fn changes_nothing_and_takes_no_memory_the_second_time(rt: HostRuntime) {
    let mut grown = unsettled_run(&rt, rt.alloc(), &[GOAL]);
    settle_run(&rt, rt.alloc(), &mut grown);
    settle_again(rt.alloc(), &mut grown);
    assert_settled(&rt, grown);
}

#[test]
fn leaves_the_start_alone(rt: HostRuntime) {
    let mut grown = start_alone(&rt, rt.alloc(), &[GOAL]);
    settle_run(&rt, rt.alloc(), &mut grown);
    assert_kept(&rt, &grown, &[Some((0, 0)), None]);
    drop(grown);
}
