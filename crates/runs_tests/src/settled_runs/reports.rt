//! Reports of a run of four marks, and of the start alone.

ghost use Rattle.std.specs.Prelude.{◌≤◌, IsTrue};
ghost use Rattle.plan_model.specs.Scenes.Limits.{is_goal};

use crate::settled_runs::support::{settle_run, start_alone, sure, unsettled_run};
use grown_runs::Grown;
use plan_model::{Goal, Point};
use settle_report::{report, report_along, summary};
use std::alloc::Global;
use std::process::Abort;

/// The goal that is this point alone.
fn goal_at(x: u32, y: u32) -> Goal
    requires right { x ≤ 100 }
    requires top { y ≤ 100 }
    ensures { IsTrue (is_goal 2 result) }
{
    let point = Point { x, y };
    Goal {
        low: point,
        high: point,
    }
}

/// Asserts that these are the bytes of a report's text. The report ends here.
fn assert_text<R: Abort>(rt: &R, report: Vec<u8>, want: &str) {
    assert!(rt; report.as_slice() == want.as_bytes(), "in place of {want}");
    drop(report);
}

/// Settles a run, and asserts its full report, its short one, and its summary. The run ends here.
fn assert_reports<R: Abort>(
    rt: &R,
    alloc: Global,
    grown: Grown,
    full: &str,
    short: &str,
    brief: &str,
) {
    let mut grown = grown;
    settle_run(rt, alloc, &mut grown);
    assert_text(rt, sure(rt, report(alloc, &grown, true)), full);
    assert_text(rt, sure(rt, report(alloc, &grown, false)), short);
    assert_text(rt, sure(rt, summary(alloc, &grown)), brief);
    drop(grown);
}

#[test]
fn reports_the_path_and_each_node_and_mark(rt: HostRuntime) {
    let full = "path 4 cost 25344\n0 0\n24 18\n40 30\n40 79\nnodes 5 placed 4 same 0 blocked 0\n\
                node 0 at 0 0 parent 0 cost 0\nnode 1 at 0 50 parent 0 cost 12800\n\
                node 2 at 40 79 parent 3 cost 25344\nnode 3 at 40 30 parent 4 cost 12800\n\
                node 4 at 24 18 parent 0 cost 7680\n\
                mark 0 worker 0 turn 0 nearest 0 placed class 1 first 0 12800\n\
                mark 1 worker 0 turn 1 nearest 1 placed class 2 first 1 25449\n\
                mark 2 worker 0 turn 2 nearest 1 placed class 2 first 1 24249\n\
                mark 3 worker 0 turn 3 nearest 3 placed class 3 first 3 29369\n";
    let short = "path 4 cost 25344\n0 0\n24 18\n40 30\n40 79\nnodes 5 placed 4 same 0 blocked 0\n";
    let brief = "path 4 cost 25344\nnodes 5 placed 4 same 0 blocked 0\n";
    let grown = unsettled_run(&rt, rt.alloc(), &[goal_at(40, 79)]);
    assert_reports(&rt, rt.alloc(), grown, full, short, brief);
}

#[test]
fn reports_the_start_alone_as_a_path(rt: HostRuntime) {
    let full = "path 1 cost 0\n0 0\nnodes 1 placed 0 same 0 blocked 0\n\
                node 0 at 0 0 parent 0 cost 0\n";
    let short = "path 1 cost 0\n0 0\nnodes 1 placed 0 same 0 blocked 0\n";
    let brief = "path 1 cost 0\nnodes 1 placed 0 same 0 blocked 0\n";
    let grown = start_alone(&rt, rt.alloc(), &[goal_at(0, 0)]);
    assert_reports(&rt, rt.alloc(), grown, full, short, brief);
}

#[test]
fn reports_no_path_from_a_start_beside_the_goal(rt: HostRuntime) {
    let full = "no path\nnodes 1 placed 0 same 0 blocked 0\n\
                node 0 at 0 0 parent 0 cost 0\n";
    let short = "no path\nnodes 1 placed 0 same 0 blocked 0\n";
    let grown = start_alone(&rt, rt.alloc(), &[goal_at(0, 1)]);
    assert_reports(&rt, rt.alloc(), grown, full, short, short);
}

#[test]
fn reports_the_path_to_the_cheapest_of_the_goals(rt: HostRuntime) {
    let full = "path 3 cost 12800\n0 0\n24 18\n40 30\nnodes 5 placed 4 same 0 blocked 0\n\
                node 0 at 0 0 parent 0 cost 0\nnode 1 at 0 50 parent 0 cost 12800\n\
                node 2 at 40 79 parent 3 cost 25344\nnode 3 at 40 30 parent 4 cost 12800\n\
                node 4 at 24 18 parent 0 cost 7680\n\
                mark 0 worker 0 turn 0 nearest 0 placed class 1 first 0 12800\n\
                mark 1 worker 0 turn 1 nearest 1 placed class 2 first 1 25449\n\
                mark 2 worker 0 turn 2 nearest 1 placed class 2 first 1 24249\n\
                mark 3 worker 0 turn 3 nearest 3 placed class 3 first 3 29369\n";
    let short = "path 3 cost 12800\n0 0\n24 18\n40 30\nnodes 5 placed 4 same 0 blocked 0\n";
    let brief = "path 3 cost 12800\nnodes 5 placed 4 same 0 blocked 0\n";
    let goals = [goal_at(40, 79), goal_at(40, 30)];
    let grown = unsettled_run(&rt, rt.alloc(), &goals);
    assert_reports(&rt, rt.alloc(), grown, full, short, brief);
}

#[test]
fn reports_along_another_path(rt: HostRuntime) {
    let along = "path 2 cost 22669\n0 0\n40 79\nnodes 5 placed 4 same 0 blocked 0\n";
    let nowhere = "path 0 cost 7\nnodes 5 placed 4 same 0 blocked 0\n";
    let grown = unsettled_run(&rt, rt.alloc(), &[goal_at(0, 1)]);
    let path = [Point { x: 0, y: 0 }, Point { x: 40, y: 79 }];
    let report = sure(&rt, report_along(rt.alloc(), &grown, &path, 22_669));
    assert_text(&rt, report, along);
    let report = sure(&rt, report_along(rt.alloc(), &grown, &[], 7));
    assert_text(&rt, report, nowhere);
    drop(grown);
}
