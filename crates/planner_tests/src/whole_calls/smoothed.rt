//! Whole calls that smooth the path of a run.

use super::plans::{OtherFirst, THREE_MARKS, expect_grown_at_once};
use super::*;

static SMOOTHED: [Case; 5] = [
    Case {
        shows: "a straight way past the point of a node",
        scene: "prrt 1\nroom 100 100\nstart 0 0\ngoal 40 79 40 79\nstep 50\ngamma 1000\nmark 0 50\nmark 40 79\nmark 40 30\n",
        status: 0,
        text: "path 2 cost 22669\n0 0\n40 79\nnodes 4 placed 3 same 0 blocked 0\n",
        run: Some((4, 3)),
    },
    Case {
        shows: "the cheapest way round a pillar, which has more points than another one",
        scene: "prrt 1\nroom 30 30\nobstacle 11 13 13 13 13 19 11 19\nstart 0 24\ngoal 15 13 15 13\nstep 12\n\
                mark 22 21\nmark 20 26\nmark 24 7\nmark 22 16\nmark 15 13\n",
        status: 0,
        text: "path 4 cost 8174\n0 24\n11 23\n22 15\n15 13\nnodes 6 placed 5 same 0 blocked 0\n",
        run: Some((6, 5)),
    },
    Case {
        shows: "two ways over a wall that cost the same, of which the one by the earlier point is kept",
        scene: "prrt 1\nroom 100 100\nobstacle 19 0 21 0 21 5 19 5\nstart 0 0\ngoal 40 0 40 0\nstep 30\n\
                mark 10 20\nmark 30 20\nmark 40 0\n",
        status: 0,
        text: "path 3 cost 14956\n0 0\n10 20\n40 0\nnodes 4 placed 3 same 0 blocked 0\n",
        run: Some((4, 3)),
    },
    Case {
        shows: "points in a row, of which the ends are kept",
        scene: "prrt 1\nroom 100 100\nstart 0 0\ngoal 40 0 40 0\nstep 10\nmark 10 0\nmark 20 0\nmark 30 0\nmark 40 0\n",
        status: 0,
        text: "path 2 cost 10240\n0 0\n40 0\nnodes 5 placed 4 same 0 blocked 0\n",
        run: Some((5, 4)),
    },
    Case {
        shows: "a blocked mark, and a path that is straight already",
        scene: "prrt 1\nroom 100 100\nobstacle 40 0 60 0 60 60 40 60\nstart 10 10\ngoal 30 10 30 10\nstep 100\n\
                mark 30 10\nmark 30 10\nmark 70 10\n",
        status: 0,
        text: "path 2 cost 5120\n10 10\n30 10\nnodes 2 placed 1 same 1 blocked 1\n",
        run: Some((2, 3)),
    },
];

#[test]
fn smooths_the_path_of_a_run(rt: HostRuntime) {
    expect_each(&rt, rt.alloc(), &["smooth", "1"], &SMOOTHED);
}

// Scenes of one tree, whatever the number of workers.
static OF_ONE_TREE: [Case; 4] = [
    Case {
        shows: "a mark reached in one step",
        scene: ONE_MARK,
        status: 0,
        text: "path 2 cost 12800\n0 0\n30 40\nnodes 2 placed 1 same 0 blocked 0\n",
        run: Some((2, 1)),
    },
    Case {
        shows: "a path of one point",
        scene: "prrt 1\nroom 10 10\nstart 5 5\ngoal 0 0 9 9\nstep 4\n",
        status: 0,
        text: "path 1 cost 0\n5 5\nnodes 1 placed 0 same 0 blocked 0\n",
        run: Some((1, 0)),
    },
    Case {
        shows: "no path",
        scene: "prrt 1\nroom 100 100\nstart 0 0\ngoal 90 90 99 99\nstep 50\nmark 60 80\n",
        status: 1,
        text: "no path\nnodes 2 placed 1 same 0 blocked 0\n",
        run: Some((2, 1)),
    },
    Case {
        shows: "a start that is not clear",
        scene: BLOCKED_START,
        status: 4,
        text: "start blocked\n",
        run: None,
    },
];

#[test]
fn smooths_the_path_of_a_run_by_several_workers(rt: HostRuntime) {
    for workers in ["1", "2", "64"] {
        expect_each(&rt, rt.alloc(), &["smooth", workers], &OF_ONE_TREE);
    }
}

// As in the test of that name for `plan 2`.
#[test]
fn two_workers_grow_the_tree_of_a_smoothed_path_at_once(rt: HostRuntime) {
    let gate = OtherFirst::new();
    let words = ["smooth", "2"];
    let called = call_with_gate(&rt, rt.alloc(), &words, at_once(THREE_MARKS), &gate);
    expect_that(&rt, gate.was_in_time(), "in time");
    drop(gate);
    expect_grown_at_once(&rt, &called.ended.run);
    drop(called);
}
