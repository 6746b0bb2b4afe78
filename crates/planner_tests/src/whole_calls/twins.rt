//! Whole calls that plan from both ends.

use super::plans::{OtherFirst, THREE_MARKS, expect_grown_at_once};
use super::*;
use std::sync::atomic::{AtomicU32, Ordering};

const HALF_WAY: &str = "prrt 1\nroom 100 10\nstart 0 0\ngoal 90 0 90 0\nstep 50\nmark 45 0\n";

const ROUNDED_DOWN: &str = "prrt 1\nroom 100 100\nstart 0 0\ngoal 90 0 95 5\nstep 50\nmark 46 1\n";

const TWO_WAYS: &str =
    "prrt 1\nroom 20 20\nstart 0 14\ngoal 18 1 18 1\nstep 12\nmark 2 6\nmark 18 1\n";

const TOO_FAR: &str = "prrt 1\nroom 100 100\nstart 0 0\ngoal 90 90 90 90\nstep 10\nmark 10 0\n";

const BLOCKED_GOAL: &str =
    "prrt 1\nroom 100 100\nobstacle 50 50 60 50 60 60 50 60\nstart 0 0\ngoal 51 51 59 59\nstep 50\nmark 46 1\n";

// Scenes of at most one mark, whose trees are the same by any number of workers.
static BY_ANY: [Case; 9] = [
    Case {
        shows: "two roots that are joined without a node between them",
        scene: ONE_MARK,
        status: 0,
        text: "path 2 cost 12800\n0 0\n30 40\nstart nodes 2 placed 1 same 0 blocked 0\n\
               goal nodes 1 placed 0 same 1 blocked 0\n",
        run: None,
    },
    Case {
        shows: "a mark half way, which both trees have",
        scene: HALF_WAY,
        status: 0,
        text: "path 3 cost 23040\n0 0\n45 0\n90 0\nstart nodes 2 placed 1 same 0 blocked 0\n\
               goal nodes 2 placed 1 same 0 blocked 0\n",
        run: None,
    },
    Case {
        shows: "the middle of a goal, rounded down",
        scene: ROUNDED_DOWN,
        status: 0,
        text: "path 3 cost 23558\n0 0\n46 1\n92 2\nstart nodes 2 placed 1 same 0 blocked 0\n\
               goal nodes 2 placed 1 same 0 blocked 0\n",
        run: None,
    },
    Case {
        shows: "trees that are too far from each other",
        scene: TOO_FAR,
        status: 1,
        text: "no path\nstart nodes 2 placed 1 same 0 blocked 0\ngoal nodes 2 placed 1 same 0 blocked 0\n",
        run: None,
    },
    Case {
        shows: "a start in the middle of the goal, which is one point of the path",
        scene: "prrt 1\nroom 10 10\nstart 5 5\ngoal 5 5 5 5\nstep 4\n",
        status: 0,
        text: "path 1 cost 0\n5 5\nstart nodes 1 placed 0 same 0 blocked 0\ngoal nodes 1 placed 0 same 0 blocked 0\n",
        run: None,
    },
    Case {
        shows: "a goal outside the room",
        scene: "prrt 1\nroom 100 100\nstart 0 0\ngoal 101 0 101 0\nstep 100\nmark 30 40\n",
        status: 8,
        text: "goal blocked\n",
        run: None,
    },
    Case {
        shows: "a goal in an obstacle",
        scene: BLOCKED_GOAL,
        status: 8,
        text: "goal blocked\n",
        run: None,
    },
    Case {
        shows: "a start that is not clear, told before the goal is tested",
        scene: "prrt 1\nroom 100 100\nobstacle 50 50 60 50 60 60 50 60\nstart 50 50\ngoal 51 51 59 59\nstep 50\nmark 46 1\n",
        status: 4,
        text: "start blocked\n",
        run: None,
    },
    Case {
        shows: "a goal whose low corner is blocked and whose middle is clear, and a second goal that is blocked",
        scene: "prrt 2\nroom 100 100\nobstacle 50 50 60 50 60 60 50 60\nstart 0 0\ngoal 50 50 80 80\ngoal 55 55 55 55\n\
                step 100\nmark 100 0\n",
        status: 0,
        text: "path 3 cost 44499\n0 0\n100 0\n65 65\nstart nodes 2 placed 1 same 0 blocked 0\n\
               goal nodes 2 placed 1 same 0 blocked 0\n",
        run: None,
    },
];

#[test]
fn plans_from_both_ends_by_any_number_of_workers(rt: HostRuntime) {
    for workers in ["1", "3", "64"] {
        expect_each(&rt, rt.alloc(), &["twin", workers], &BY_ANY);
    }
}

static BY_ONE: [Case; 2] = [
    Case {
        shows: "two ways that cost the same, of which that over the lesser node of the first tree is taken",
        scene: TWO_WAYS,
        status: 0,
        text: "path 4 cost 6410\n0 14\n2 6\n7 4\n18 1\nstart nodes 3 placed 2 same 0 blocked 0\n\
               goal nodes 2 placed 1 same 1 blocked 0\n",
        run: None,
    },
    Case {
        shows: "an informed scene that starts in its second goal: both trees skip marks",
        scene: "prrt 2\nroom 100 100\nstart 0 0\ngoal 29 39 32 42\ngoal 0 0 0 0\nstep 100\ninformed 1\n\
                mark 30 40\nmark 0 0\nmark 50 50\n",
        status: 0,
        text: "path 2 cost 12800\n0 0\n30 40\nstart nodes 1 placed 0 same 0 blocked 0 skipped 3\n\
               goal nodes 2 placed 1 same 1 blocked 0 skipped 1\n",
        run: None,
    },
];

#[test]
fn plans_from_both_ends(rt: HostRuntime) {
    expect_each(&rt, rt.alloc(), &["twin", "1"], &BY_ONE);
}

// Compares how many nodes the two runs have that a call has handed out, and the bridge between them.
fn expect_both<R: Abort>(rt: &R, called: &Called, nodes: (u32, u32), bridge: Option<(u32, u32)>) {
    let Some(both) = called.ended.twin else {
        panic!(rt; "no two runs");
    };
    let (first, second) = (both.from_start.nodes, both.from_goal.nodes);
    expect_number(rt, u64::from(first), u64::from(nodes.0), "the first run");
    expect_number(rt, u64::from(second), u64::from(nodes.1), "the second run");
    expect_that(rt, both.bridge == bridge, "the bridge");
}

// Scenes, how many nodes each tree has, and the bridge.
static BRIDGES: [(&str, (u32, u32), Option<(u32, u32)>); 5] = [
    (ONE_MARK, (2, 1), Some((0, 0))),
    (HALF_WAY, (2, 2), Some((0, 1))),
    (ROUNDED_DOWN, (2, 2), Some((0, 1))),
    (TWO_WAYS, (3, 2), Some((1, 1))),
    (TOO_FAR, (2, 2), None),
];

// Compares the two runs of a scene and the bridge.
fn expect_bridge<R: Threads + Sync + Wait + RandomSource + AllocGlobal + Clone + Drop + Abort>(
    rt: &R,
    alloc: Global,
    scene: &str,
    nodes: (u32, u32),
    bridge: Option<(u32, u32)>,
) {
    let called = call(rt, alloc, &["twin", "1"], scene, 1 << 16, 0);
    expect_both(rt, &called, nodes, bridge);
    drop(called);
}

#[test]
fn hands_out_both_runs_and_the_bridge(rt: HostRuntime) {
    for (scene, nodes, bridge) in &BRIDGES {
        expect_bridge(&rt, rt.alloc(), scene, *nodes, *bridge);
    }
}

#[test]
fn hands_out_no_run_if_the_goal_is_blocked(rt: HostRuntime) {
    let called = call(&rt, rt.alloc(), &["twin", "1"], BLOCKED_GOAL, 1 << 16, 0);
    expect_number(&rt, called.status(), 8, "a blocked goal");
    expect_that(&rt, called.ended.twin.is_none(), "no run");
    drop(called);
}

#[test]
fn hands_out_both_runs_though_the_sink_fails(rt: HostRuntime) {
    let sink = sure(&rt, MemSink::new(rt.alloc(), 1000, 10, &[3]));
    let words = ["twin", "1"];
    let called = call_into(&rt, rt.alloc(), &words, at_once(HALF_WAY), sink, &NoGate);
    expect_number(&rt, called.status(), 6, "a write fails");
    expect_both(&rt, &called, (2, 2), Some((0, 1)));
    drop(called);
}

// Compares the first two records of the first of the two runs that a call has handed out.
fn expect_first_grown_at_once<R: Abort>(rt: &R, called: &Called) {
    let Some(both) = called.ended.twin else {
        panic!(rt; "no two runs");
    };
    expect_grown_at_once(rt, &both.from_start);
}

// As in the test of that name for `plan 2`, of the first tree. The gate is told of the turns of the second one too, and then keeps
// nobody.
#[test]
fn two_workers_grow_the_first_of_two_trees_at_once(rt: HostRuntime) {
    let gate = OtherFirst::new();
    let words = ["twin", "2"];
    let called = call_with_gate(&rt, rt.alloc(), &words, at_once(THREE_MARKS), &gate);
    expect_that(&rt, gate.was_in_time(), "in time");
    drop(gate);
    expect_first_grown_at_once(&rt, &called);
    drop(called);
}

// A gate that counts the turns that it is told of.
#[derive(Drop)]
struct Counts {
    before: AtomicU32,
    after: AtomicU32,
}

impl Gate for Counts {
    fn before(&self, _worker: u32, _turn: u32) {
        self.before.fetch_add(1, Ordering::SeqCst);
    }

    fn after(&self, _worker: u32, _turn: u32) {
        self.after.fetch_add(1, Ordering::SeqCst);
    }
}

// Each of the three marks has a turn in each tree.
#[test]
fn a_gate_is_told_of_the_turns_of_both_trees(rt: HostRuntime) {
    let gate = Counts {
        before: AtomicU32::new(0),
        after: AtomicU32::new(0),
    };
    let words = ["twin", "2"];
    let called = call_with_gate(&rt, rt.alloc(), &words, at_once(THREE_MARKS), &gate);
    drop(called);
    let (before, after) = (
        gate.before.load(Ordering::SeqCst),
        gate.after.load(Ordering::SeqCst),
    );
    drop(gate);
    expect_number(&rt, u64::from(before), 6, "turns that begin");
    expect_number(&rt, u64::from(after), 6, "turns that end");
}
