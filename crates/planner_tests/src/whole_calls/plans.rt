//! Runs by several workers: what `plan W` and `plan W full` write, and which run they hand out.

use super::faults::expect_early_faults;
use super::*;
use std::sync::atomic::{AtomicBool, Ordering};
use std::thread;

// A scene of three marks, of which the node of the third gives that of the second a cheaper way.
pub const THREE_MARKS: &str = "\
    prrt 1\n\
    room 100 100\n\
    start 0 0\n\
    goal 40 79 40 79\n\
    step 50\n\
    gamma 1000\n\
    strips 2\n\
    mark 0 50\n\
    mark 40 79\n\
    mark 40 30\n";

// A scene of two obstacles and 400 drawn marks.
const DRAWN_MARKS: &str = "\
    prrt 1\n\
    room 200 100\n\
    body 0 0 10 0 10 10 0 10\n\
    obstacle 90 0 110 0 110 60 90 60\n\
    obstacle 40 50 60 50 50 70\n\
    start 20 20\n\
    goal 150 10 189 60\n\
    step 30\n\
    gamma 500\n\
    seed 3\n\
    strips 3\n\
    marks 400\n";

static BY_ANY: [Case; 3] = [
    Case {
        shows: "a mark reached in one step",
        scene: ONE_MARK,
        status: 0,
        text: "path 2 cost 12800\n0 0\n30 40\nnodes 2 placed 1 same 0 blocked 0\n",
        run: Some((2, 1)),
    },
    Case {
        shows: "a start that lies in the goal, and no mark",
        scene: "prrt 1\nroom 10 10\nstart 5 5\ngoal 0 0 9 9\nstep 4\n",
        status: 0,
        text: "path 1 cost 0\n5 5\nnodes 1 placed 0 same 0 blocked 0\n",
        run: Some((1, 0)),
    },
    Case {
        shows: "a mark past the step",
        scene: "prrt 1\nroom 100 100\nstart 0 0\ngoal 90 90 99 99\nstep 50\nmark 60 80\n",
        status: 1,
        text: "no path\nnodes 2 placed 1 same 0 blocked 0\n",
        run: Some((2, 1)),
    },
];

#[test]
fn plans_by_any_number_of_workers(rt: HostRuntime) {
    for workers in ["1", "4", "64"] {
        expect_each(&rt, rt.alloc(), &["plan", workers], &BY_ANY);
    }
}

static BY_ONE: [Case; 3] = [
    Case {
        shows: "a node that is moved",
        scene: THREE_MARKS,
        status: 0,
        text: "path 3 cost 25344\n\
               0 0\n\
               40 30\n\
               40 79\n\
               nodes 4 placed 3 same 0 blocked 0\n\
               node 0 at 0 0 parent 0 cost 0\n\
               node 1 at 0 50 parent 0 cost 12800\n\
               node 2 at 40 79 parent 3 cost 25344\n\
               node 3 at 40 30 parent 0 cost 12800\n\
               mark 0 worker 0 turn 0 nearest 0 placed class 1 first 0 12800\n\
               mark 1 worker 0 turn 1 nearest 1 placed class 2 first 1 25449\n\
               mark 2 worker 0 turn 2 nearest 1 placed class 2 first 0 12800\n",
        run: Some((4, 3)),
    },
    Case {
        shows: "a child of a node that is moved, which costs the sum of its edges",
        scene: "prrt 1\nroom 100 100\nstart 0 0\ngoal 60 79 60 79\nstep 50\ngamma 1000\n\
                mark 0 50\nmark 40 79\nmark 60 79\nmark 40 30\n",
        status: 0,
        text: "path 4 cost 30464\n\
               0 0\n\
               40 30\n\
               40 79\n\
               60 79\n\
               nodes 5 placed 4 same 0 blocked 0\n\
               node 0 at 0 0 parent 0 cost 0\n\
               node 1 at 0 50 parent 0 cost 12800\n\
               node 2 at 40 79 parent 4 cost 25344\n\
               node 3 at 60 79 parent 2 cost 30464\n\
               node 4 at 40 30 parent 0 cost 12800\n\
               mark 0 worker 0 turn 0 nearest 0 placed class 1 first 0 12800\n\
               mark 1 worker 0 turn 1 nearest 1 placed class 2 first 1 25449\n\
               mark 2 worker 0 turn 2 nearest 2 placed class 2 first 2 30569\n\
               mark 3 worker 0 turn 3 nearest 1 placed class 3 first 0 12800\n",
        run: Some((5, 4)),
    },
    Case {
        shows: "a blocked mark after one on a node",
        scene: "prrt 1\nroom 100 100\nobstacle 40 0 60 0 60 60 40 60\nstart 10 10\ngoal 30 10 30 10\nstep 100\n\
                mark 30 10\nmark 30 10\nmark 70 10\n",
        status: 0,
        text: "path 2 cost 5120\n\
               10 10\n\
               30 10\n\
               nodes 2 placed 1 same 1 blocked 1\n\
               node 0 at 10 10 parent 0 cost 0\n\
               node 1 at 30 10 parent 0 cost 5120\n\
               mark 0 worker 0 turn 0 nearest 0 placed class 1 first 0 5120\n\
               mark 1 worker 0 turn 1 nearest 1 same 1\n\
               mark 2 worker 0 turn 2 nearest 1 blocked\n",
        run: Some((2, 3)),
    },
];

// The one worker handles the marks in their order.
#[test]
fn reports_each_node_and_each_mark_of_one_worker(rt: HostRuntime) {
    expect_each(&rt, rt.alloc(), &["plan", "1", "full"], &BY_ONE);
}

// The line of a report that counts the nodes and the marks of each outcome of this run, after the line before.
fn counts_written(alloc: Global, run: &Run) -> Result<String, Memory> {
    let nodes = run.nodes;
    let [placed, same, blocked] = run.outcomes;
    let counts = format!(in alloc;
        "\nnodes {nodes} placed {placed} same {same} blocked {blocked}\n"
    )?;
    Ok(counts)
}

// Compares the counts of a run over so many marks with its records.
fn expect_counted<R: Abort>(rt: &R, run: &Run, marks: u64) {
    let [placed, same, blocked] = run.outcomes;
    let handled = u64::from(placed) + u64::from(same) + u64::from(blocked);
    expect_number(rt, u64::from(run.marks), marks, "the marks");
    expect_number(rt, handled, marks, "the marks by their outcomes");
    expect_number(rt, u64::from(run.nodes), u64::from(placed) + 1, "the nodes");
}

// Compares the counts of the run that a call over so many marks has handed out with its records, and with the line of its
// report that tells them, which is the last one of a short report.
pub fn expect_whole<R: Abort>(rt: &R, alloc: Global, called: &Called, marks: u64, full: bool) {
    let run = &called.ended.run;
    expect_counted(rt, run, marks);
    let counts = sure(rt, counts_written(alloc, run));
    let told = if full {
        called.text().contains(counts.as_str())
    } else {
        called.text().ends_with(counts.as_str())
    };
    expect_that(rt, told, &counts);
    drop(counts);
}

// How many lines of a report begin with this.
pub fn lines_with(report: &str, begin: &str) -> u64 {
    let mut count = 0_u64;
    for line in report.lines() {
        if line.starts_with(begin) {
            count = count.saturating_add(1);
        }
    }
    count
}

// Each mark has a line, by one of the workers.
#[test]
fn plans_hundreds_of_marks_by_three_workers(rt: HostRuntime) {
    let words = ["plan", "3", "full"];
    let called = call(&rt, rt.alloc(), &words, DRAWN_MARKS, 1000, 0);
    expect_that(&rt, called.ended.run.greatest_worker < 3, "three workers");
    let marks = lines_with(called.text(), "mark ");
    expect_number(&rt, marks, 400, "lines of marks");
    expect_whole(&rt, rt.alloc(), &called, 400, true);
    drop(called);
}

#[test]
fn plans_a_generated_scene_by_four_workers(rt: HostRuntime) {
    let scene = call_unread(&rt, rt.alloc(), &["gen", "9"]);
    let called = call(&rt, rt.alloc(), &["plan", "4"], scene.text(), 1000, 0);
    drop(scene);
    expect_that(&rt, called.status() <= 1, "a path or none");
    expect_whole(&rt, rt.alloc(), &called, 20_000, false);
    drop(called);
}

// The marks of a row, in rising order. Handled in this order their nodes are one branch of the search tree; by four workers
// only the counts are certain.
#[test]
fn four_workers_handle_each_mark_of_one_branch(rt: HostRuntime) {
    let scene = corridor_scene(&rt, rt.alloc(), &CORRIDORS[0]);
    let called = call(&rt, rt.alloc(), &["plan", "4"], &scene, 1000, 0);
    drop(scene);
    expect_that(&rt, called.status() <= 1, "a path or none");
    expect_whole(&rt, rt.alloc(), &called, 1000, false);
    drop(called);
}

// Compares what two forms of words write for a scene.
fn expect_same_text<R: Threads + Sync + Wait + RandomSource + AllocGlobal + Clone + Drop + Abort>(
    rt: &R,
    alloc: Global,
    words: &[&str],
    others: &[&str],
    scene: &str,
) {
    let want = call(rt, alloc, words, scene, 1 << 16, 0);
    let called = call(rt, alloc, others, scene, 1 << 16, 0);
    expect_text(rt, others, called.text(), want.text(), "the same text");
    drop(want);
    drop(called);
}

static SAME: [(&[&str], &[&str]); 2] = [
    (&["plain"], &["plan", "1"]),
    (&["plain", "full"], &["plan", "1", "full"]),
];

#[test]
fn one_worker_plans_a_generated_scene_as_plain_does(rt: HostRuntime) {
    let scene = call_unread(&rt, rt.alloc(), &["gen", "3"]);
    for (plain, plan) in &SAME {
        expect_same_text(&rt, rt.alloc(), plain, plan, scene.text());
    }
    drop(scene);
}

// Compares whether each of these lines stands in a text.
fn expect_each_line<R: Abort>(rt: &R, text: &str, lines: &str) {
    for line in lines.lines() {
        expect_that(rt, text.contains(line), line);
    }
}

// Compares the status and the two lines of a trial with those of a report.
fn expect_tried<R: Abort>(rt: &R, trial: &Called, report: &Called) {
    expect_number(rt, trial.status(), report.status(), "a path or none");
    expect_number(rt, lines_with(trial.text(), ""), 2, "lines");
    expect_each_line(rt, report.text(), trial.text());
}

// Generated scenes have 20,000 marks at most. The two lines of a trial are those of the report, without its points.
#[test]
fn tries_a_generated_scene_of_the_most_marks(rt: HostRuntime) {
    let scene = call_unread(&rt, rt.alloc(), &["gen", "9"]);
    let report = call(&rt, rt.alloc(), &["plan", "1"], scene.text(), 1 << 16, 0);
    drop(scene);
    let trial = call_unread(&rt, rt.alloc(), &["trial", "9"]);
    expect_tried(&rt, &trial, &report);
    drop(trial);
    drop(report);
}

static NO_PLANS: [&[&str]; 24] = [
    &[],
    &["plan"],
    &["plan", "0"],
    &["plan", "65"],
    &["plan", "04"],
    &["plan", "x"],
    &["plan", ""],
    &["plan", "-1"],
    &["plan", "+1"],
    &["plan", "1 "],
    &["plan", "4294967297"],
    &["plan", "18446744073709551617"],
    &["plan", "full"],
    &["plan", "1", "2"],
    &["plan", "1", "Full"],
    &["plan", "0", "full"],
    &["plan", "65", "full"],
    &["plan", "01", "full"],
    &["plan", "full", "1"],
    &["plan", "full", "full"],
    &["plan", "1", "full", "full"],
    &["Plan", "1"],
    &["plain", "1"],
    &["plain", "1", "full"],
];

// The words are refused before anything is read.
#[test]
fn refuses_other_numbers_of_workers(rt: HostRuntime) {
    expect_each_refused(&rt, rt.alloc(), &NO_PLANS);
}

static NO_SCENES: [Case; 3] = [
    Case {
        shows: "a start outside the room",
        scene: BLOCKED_START,
        status: 4,
        text: "start blocked\n",
        run: None,
    },
    Case {
        shows: "a version that there is not",
        scene: "prrt 3\n",
        status: 3,
        text: "line 1 kind 1 Version\n",
        run: None,
    },
    Case {
        shows: "missing keys",
        scene: "prrt 1\n",
        status: 3,
        text: "line 2 kind 9 Missing\n",
        run: None,
    },
];

static PLANNING: [&[&str]; 3] = [&["plan", "1"], &["plan", "2", "full"], &["plan", "64"]];

#[test]
fn refuses_a_scene_as_plain_does(rt: HostRuntime) {
    for form in PLANNING {
        expect_each(&rt, rt.alloc(), form, &NO_SCENES);
        expect_early_faults(&rt, rt.alloc(), form);
    }
}

// A gate for two workers: worker 1 goes on with its first mark only after worker 0 has come to one, and worker 0 only after worker 1
// has handled one. One thread alone cannot pass it, nor can two of which one keeps the tree to itself while it handles a mark.
#[derive(Drop)]
pub struct OtherFirst {
    come: AtomicBool,
    handled: AtomicBool,
    in_time: AtomicBool,
}

impl OtherFirst {
    pub fn new() -> OtherFirst {
        OtherFirst {
            come: AtomicBool::new(false),
            handled: AtomicBool::new(false),
            in_time: AtomicBool::new(true),
        }
    }

    // Whether each flag came that was waited for.
    pub fn was_in_time(&self) -> bool {
        self.in_time.load(Ordering::SeqCst)
    }

    // Waits for a flag, and notes if it did not come.
    fn wait_for(&self, flag: &AtomicBool) {
        for _ in 0..100_000_000u32 {
            if flag.load(Ordering::SeqCst) {
                return;
            }
            thread::yield_now();
        }
        self.in_time.store(false, Ordering::SeqCst);
    }
}

impl Gate for OtherFirst {
    fn before(&self, worker: u32, turn: u32) {
        if (worker, turn) == (0, 0) {
            self.come.store(true, Ordering::SeqCst);
            self.wait_for(&self.handled);
        } else if (worker, turn) == (1, 0) {
            self.wait_for(&self.come);
        }
    }

    fn after(&self, worker: u32, turn: u32) {
        if (worker, turn) == (1, 0) {
            self.handled.store(true, Ordering::SeqCst);
        }
    }
}

// Compares how a line of a text begins that is not the first.
fn expect_line<R: Abort>(rt: &R, text: &str, begin: &str) {
    expect_that(rt, text.contains(begin), begin);
}

const BY_TWO: &[&str] = &["plan", "2", "full"];

static LINES_BY_TWO: [&str; 3] = [
    "\nnode 2 at 22 44 parent 0 cost 12594\n",
    "\nmark 0 worker 0 turn 0 nearest 2 placed ",
    "\nmark 1 worker 1 turn 0 nearest 0 placed class 1 first 0 12594\n",
];

// Each of the two workers takes the first mark of its own strip. Worker 1 places node 2 while worker 0 waits with the first mark in
// hand; that is the nearest node then.
#[test]
fn two_workers_grow_one_tree_at_once(rt: HostRuntime) {
    let gate = OtherFirst::new();
    let called = call_with_gate(&rt, rt.alloc(), BY_TWO, at_once(THREE_MARKS), &gate);
    expect_that(&rt, gate.was_in_time(), "in time");
    drop(gate);
    for begin in &LINES_BY_TWO {
        expect_line(&rt, called.text(), begin);
    }
    expect_whole(&rt, rt.alloc(), &called, 3, true);
    drop(called);
}

// Compares the records of the first two marks of a run on that scene through that gate with what those lines say.
pub fn expect_grown_at_once<R: Abort>(rt: &R, run: &Run) {
    let Some((first, second)) = run.first_two else {
        panic!(rt; "fewer than two marks");
    };
    expect_that(rt, first.outcome == Outcome::Placed, "the first is placed");
    expect_that(
        rt,
        second.outcome == Outcome::Placed,
        "the second is placed",
    );
    for (number, want, shows) in [
        (first.worker, 0, "the worker of the first mark"),
        (first.turn, 0, "its turn"),
        (first.nearest, 2, "its nearest node"),
        (second.worker, 1, "the worker of the second mark"),
        (second.turn, 0, "its turn"),
        (second.nearest, 0, "its nearest node"),
        (second.class, 1, "its class"),
        (second.first_parent, 0, "its first parent"),
    ] {
        expect_number(rt, u64::from(number), want, shows);
    }
    expect_number(rt, second.first_cost, 12_594, "its first cost");
}
