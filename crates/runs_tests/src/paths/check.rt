//! Verdicts on the full report of a run in which a node is rewired, and on that report with lines changed.

use crate::paths::support::sure;
use path_tools::{Verdict, check, cut_at_report};
use plan_model::{Goal, Memory, Point, SmallScene, Task};
use std::alloc::Global;
use std::process::Abort;
use swept_check::Hall;

/// A line by its number, counted from 1, and what stands in its place.
type Change = (usize, &'static str);

const GOAL: Point = Point { x: 40, y: 79 };

/// The node of the third mark gives that of the second a cheaper way.
static MARKS: [Point; 3] = [Point { x: 0, y: 50 }, GOAL, Point { x: 40, y: 30 }];

/// The lines of the full report of the textbook run over these marks.
static LINES: [&str; 12] = [
    "path 3 cost 25344",
    "0 0",
    "40 30",
    "40 79",
    "nodes 4 placed 3 same 0 blocked 0",
    "node 0 at 0 0 parent 0 cost 0",
    "node 1 at 0 50 parent 0 cost 12800",
    "node 2 at 40 79 parent 3 cost 25344",
    "node 3 at 40 30 parent 0 cost 12800",
    "mark 0 worker 0 turn 0 nearest 0 placed class 1 first 0 12800",
    "mark 1 worker 0 turn 1 nearest 1 placed class 2 first 1 25449",
    "mark 2 worker 0 turn 2 nearest 1 placed class 2 first 0 12800",
];

/// The task of these marks, from the corner of a room of 100 by 100 to one goal point by steps of 50.
fn rewired_task(alloc: Global) -> Result<Task, Memory> {
    SmallScene {
        room: Point { x: 100, y: 100 },
        start: Point { x: 0, y: 0 },
        goal: Goal {
            low: GOAL,
            high: GOAL,
        },
        step: 50,
        gamma: 1000,
        seed: 0,
        strips: 1,
    }
    .task(alloc, &MARKS)
}

/// What stands in the place of a line.
fn line_by(changes: &[Change], number: usize, line: &'static str) -> &'static str {
    for change in changes {
        if change.0 == number {
            return change.1;
        }
    }
    line
}

/// The report with lines changed.
fn report_by(alloc: Global, changes: &[Change]) -> Result<String, Memory> {
    let mut text = String::new(alloc);
    for (number, line) in (1..).zip(&LINES) {
        text.push_str(line_by(changes, number, *line))?;
        text.push('\n')?;
    }
    Ok(text)
}

/// The verdict on the bytes of a report.
fn judged<R: Abort>(rt: &R, alloc: Global, report: &[u8]) -> Verdict {
    let task = sure(rt, rewired_task(alloc));
    let hall = sure(rt, Hall::new(alloc, &task.scene));
    assert!(rt; hall.clear_at(task.scene.start));
    assert!(rt; report.len() < 4_294_967_295);
    let verdict = sure(rt, check(alloc, &task, report));
    drop(hall);
    drop(task);
    verdict
}

/// Asserts the verdict on the report with lines changed.
fn expect<R: Abort>(rt: &R, alloc: Global, changes: &[Change], want: Verdict, shows: &str) {
    let text = sure(rt, report_by(alloc, changes));
    let verdict = judged(rt, alloc, text.as_bytes());
    drop(text);
    assert!(rt; verdict == want, "{shows}: {verdict:?}");
}

/// That the first line to break the least broken law is this one.
fn broken(line: u32, law: u8) -> Verdict {
    Verdict::Broken { line, law }
}

#[test]
fn the_report_of_a_run_is_lawful(rt: HostRuntime) {
    expect(&rt, rt.alloc(), &[], Verdict::Lawful, "the report as it is");
}

static WORKER_1_CLASS_2: [Change; 1] = [(
    12,
    "mark 2 worker 1 turn 0 nearest 1 placed class 2 first 0 12800",
)];

static WORKER_1_CLASS_3: [Change; 1] = [(
    12,
    "mark 2 worker 1 turn 0 nearest 1 placed class 3 first 0 12800",
)];

static WORKER_1_CLASS_1: [Change; 1] = [(
    12,
    "mark 2 worker 1 turn 0 nearest 1 placed class 1 first 0 12800",
)];

#[test]
fn another_worker_may_have_seen_more_or_fewer_nodes(rt: HostRuntime) {
    expect(
        &rt,
        rt.alloc(),
        &WORKER_1_CLASS_2,
        Verdict::Lawful,
        "class 2",
    );
    expect(
        &rt,
        rt.alloc(),
        &WORKER_1_CLASS_3,
        Verdict::Lawful,
        "class 3",
    );
    expect(
        &rt,
        rt.alloc(),
        &WORKER_1_CLASS_1,
        Verdict::Lawful,
        "class 1",
    );
}

static CLASS_1: [Change; 1] = [(
    12,
    "mark 2 worker 0 turn 2 nearest 1 placed class 1 first 0 12800",
)];

static CLASS_4: [Change; 1] = [(
    12,
    "mark 2 worker 0 turn 2 nearest 1 placed class 4 first 0 12800",
)];

#[test]
fn a_class_is_that_of_a_number_of_nodes_that_may_have_stood(rt: HostRuntime) {
    expect(
        &rt,
        rt.alloc(),
        &CLASS_1,
        broken(12, 5),
        "fewer than its worker had placed",
    );
    expect(
        &rt,
        rt.alloc(),
        &CLASS_4,
        broken(12, 5),
        "more than there are",
    );
}

static NOT_REWIRED: [Change; 3] = [
    (1, "path 3 cost 25449"),
    (3, "0 50"),
    (8, "node 2 at 40 79 parent 1 cost 25449"),
];

static NOT_SEEN: [Change; 4] = [
    (1, "path 3 cost 25449"),
    (3, "0 50"),
    (8, "node 2 at 40 79 parent 1 cost 25449"),
    (
        12,
        "mark 2 worker 1 turn 0 nearest 1 placed class 2 first 0 12800",
    ),
];

#[test]
fn a_node_that_was_seen_is_rewired(rt: HostRuntime) {
    expect(
        &rt,
        rt.alloc(),
        &NOT_REWIRED,
        broken(12, 5),
        "by its own worker",
    );
    expect(
        &rt,
        rt.alloc(),
        &NOT_SEEN,
        Verdict::Lawful,
        "by another worker",
    );
}

static COSTS_ABOVE: [Change; 2] = [
    (8, "node 2 at 40 79 parent 3 cost 25345"),
    (9, "node 3 at 40 30 parent 0 cost 12801"),
];

static POINT_TWICE: [Change; 2] = [
    (8, "node 2 at 40 79 parent 3 cost 25449"),
    (9, "node 3 at 0 50 parent 0 cost 12800"),
];

static OTHER_START: [Change; 1] = [(6, "node 0 at 0 1 parent 0 cost 0")];

static LONG_EDGE: [Change; 1] = [(8, "node 2 at 40 79 parent 0 cost 22669")];

#[test]
fn nodes_stand_alone_below_their_parents_at_their_sums(rt: HostRuntime) {
    expect(
        &rt,
        rt.alloc(),
        &COSTS_ABOVE,
        broken(9, 2),
        "a node is its parent's sum and the edge",
    );
    expect(
        &rt,
        rt.alloc(),
        &POINT_TWICE,
        broken(9, 2),
        "two nodes at a point",
    );
    expect(&rt, rt.alloc(), &OTHER_START, broken(6, 2), "another start");
    expect(
        &rt,
        rt.alloc(),
        &LONG_EDGE,
        broken(8, 2),
        "an edge longer than the step",
    );
}

static TURN_TWICE: [Change; 2] = [
    (1, "path 3 cost 25345"),
    (
        12,
        "mark 2 worker 0 turn 1 nearest 1 placed class 2 first 0 12800",
    ),
];

static TURN_TOO_HIGH: [Change; 2] = [
    (
        10,
        "mark 0 worker 0 turn 0 nearest 1 placed class 1 first 0 12800",
    ),
    (
        11,
        "mark 1 worker 0 turn 3 nearest 1 placed class 2 first 1 25449",
    ),
];

#[test]
fn turns_of_a_worker_run_from_0(rt: HostRuntime) {
    expect(
        &rt,
        rt.alloc(),
        &TURN_TWICE,
        broken(12, 3),
        "a turn twice, and a wrong head",
    );
    expect(
        &rt,
        rt.alloc(),
        &TURN_TOO_HIGH,
        broken(11, 3),
        "a gap, and a wrong record before it",
    );
}

static BLOCKED_WITH_A_NODE: [Change; 1] = [(12, "mark 2 worker 0 turn 2 nearest 1 blocked")];

#[test]
fn a_mark_that_was_not_placed_has_no_node(rt: HostRuntime) {
    expect(
        &rt,
        rt.alloc(),
        &BLOCKED_WITH_A_NODE,
        broken(12, 4),
        "blocked with a node",
    );
}

static FARTHER_NEAREST: [Change; 1] = [(
    12,
    "mark 2 worker 0 turn 2 nearest 2 placed class 2 first 0 12800",
)];

static ITSELF_NEAREST: [Change; 1] = [(
    10,
    "mark 0 worker 0 turn 0 nearest 1 placed class 1 first 0 12800",
)];

#[test]
fn records_are_borne_out_by_what_stood_before(rt: HostRuntime) {
    expect(
        &rt,
        rt.alloc(),
        &ITSELF_NEAREST,
        broken(10, 5),
        "its own node is the nearest",
    );
    expect(
        &rt,
        rt.alloc(),
        &FARTHER_NEAREST,
        broken(12, 5),
        "a nearer node stood there",
    );
}

static POINTS_EXCHANGED: [Change; 2] = [(3, "40 79"), (4, "40 30")];

static FEWER_PLACED: [Change; 1] = [(5, "nodes 4 placed 0 same 0 blocked 0")];

#[test]
fn the_head_is_that_of_the_run(rt: HostRuntime) {
    expect(
        &rt,
        rt.alloc(),
        &POINTS_EXCHANGED,
        broken(3, 6),
        "points exchanged",
    );
    expect(
        &rt,
        rt.alloc(),
        &FEWER_PLACED,
        broken(5, 6),
        "fewer marks placed",
    );
}

static NO_POINTS: [Change; 1] = [(1, "path 0 cost 25344")];

static WORKER_64: [Change; 1] = [(
    12,
    "mark 2 worker 64 turn 0 nearest 1 placed class 2 first 0 12800",
)];

static SKIPPED: [Change; 1] = [(12, "mark 2 worker 0 turn 2 skipped by 2")];

#[test]
fn each_line_stands_at_its_place(rt: HostRuntime) {
    expect(&rt, rt.alloc(), &NO_POINTS, broken(2, 1), "no points");
    expect(
        &rt,
        rt.alloc(),
        &WORKER_64,
        broken(12, 1),
        "a worker beyond the last",
    );
    expect(
        &rt,
        rt.alloc(),
        &SKIPPED,
        broken(12, 1),
        "skipped in a plain scene",
    );
}

#[test]
fn a_report_ends_with_its_last_line_feed(rt: HostRuntime) {
    let text = sure(&rt, report_by(rt.alloc(), &[]));
    let bytes = text.as_bytes();
    let most = bytes.len().saturating_sub(1);
    assert!(&rt;
        judged(&rt, rt.alloc(), &bytes[..most]) == broken(12, 1),
        "no line feed"
    );
    drop(text);
    assert!(&rt; judged(&rt, rt.alloc(), b"") == broken(1, 1), "no line");
}

#[test]
fn no_line_comes_after_the_last_mark(rt: HostRuntime) {
    let mut text = sure(&rt, report_by(rt.alloc(), &[]));
    let pushed = text.push('\n');
    assert!(&rt; pushed.is_ok());
    assert!(&rt;
        judged(&rt, rt.alloc(), text.as_bytes()) == broken(13, 1),
        "a line too many"
    );
    drop(text);
}

#[test]
fn a_report_begins_after_the_first_line_report(rt: HostRuntime) {
    match cut_at_report(b"prrt 1\n report\nreport\npath\nreport\n") {
        Some((scene, report)) => {
            assert!(&rt; scene == "prrt 1\n report\n".as_bytes(), "the scene");
            assert!(&rt; report == "path\nreport\n".as_bytes(), "the report");
        }
        None => panic!(&rt; "there is a line"),
    }
}
