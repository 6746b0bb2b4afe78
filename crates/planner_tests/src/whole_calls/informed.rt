//! Whole calls over informed scenes.

use super::*;

static INFORMED: [Case; 4] = [
    Case {
        shows: "a start in a goal, by which each mark is skipped",
        scene: "prrt 2\nroom 10 10\nstart 5 5\ngoal 0 0 9 9\nstep 4\ninformed 1\nmark 1 1\nmark 2 2\n",
        status: 0,
        text: "path 1 cost 0\n5 5\nnodes 1 placed 0 same 0 blocked 0 skipped 2\n",
        run: Some((1, 2)),
    },
    Case {
        shows: "two goals, of which the nearer one bounds a mark",
        scene: "prrt 2\nroom 100 100\nstart 50 50\ngoal 90 40 99 60\ngoal 20 40 30 60\nstep 100\ninformed 1\nmark 45 65\nmark 28 60\n\
                mark 40 50\nmark 30 50\nmark 35 50\n",
        status: 0,
        text: "path 3 cost 5120\n50 50\n40 50\n30 50\nnodes 5 placed 4 same 0 blocked 0 skipped 1\n",
        run: Some((5, 5)),
    },
    Case {
        shows: "a mark that is skipped, though steering to it leads to a node of the best path without the key",
        scene: "prrt 2\nroom 20 20\nstart 10 0\ngoal 6 16 6 16\nstep 8\ngamma 60\ninformed 1\nmark 17 12\nmark 9 16\nmark 2 20\nmark 1 6\n\
                mark 4 12\n",
        status: 0,
        text: "path 4 cost 5205\n10 0\n14 6\n11 12\n6 16\nnodes 5 placed 4 same 0 blocked 0 skipped 1\n",
        run: Some((5, 5)),
    },
    Case {
        shows: "no mark skipped while no goal node is known",
        scene: "prrt 2\nroom 10 10\nstart 0 0\ngoal 9 9 9 9\nstep 4\ninformed 1\nmark 1 1\nmark 2 2\n",
        status: 1,
        text: "no path\nnodes 3 placed 2 same 0 blocked 0 skipped 0\n",
        run: Some((3, 2)),
    },
];

static NOT_INFORMED: [Case; 2] = [
    Case {
        shows: "the same marks without the key",
        scene: "prrt 2\nroom 20 20\nstart 10 0\ngoal 6 16 6 16\nstep 8\ngamma 60\nmark 17 12\nmark 9 16\nmark 2 20\nmark 1 6\nmark 4 12\n",
        status: 0,
        text: "path 4 cost 5040\n10 0\n4 4\n4 12\n6 16\nnodes 6 placed 5 same 0 blocked 0\n",
        run: Some((6, 5)),
    },
    Case {
        shows: "and with 0 after it",
        scene: "prrt 2\nroom 10 10\nstart 5 5\ngoal 0 0 9 9\nstep 4\ninformed 0\nmark 1 1\n",
        status: 0,
        text: "path 1 cost 0\n5 5\nnodes 2 placed 1 same 0 blocked 0\n",
        run: Some((2, 1)),
    },
];

#[test]
fn skips_marks_of_informed_scenes(rt: HostRuntime) {
    expect_each(&rt, rt.alloc(), &["plain"], &INFORMED);
    expect_each(&rt, rt.alloc(), &["plan", "1"], &INFORMED);
}

#[test]
fn skips_no_marks_of_other_scenes(rt: HostRuntime) {
    expect_each(&rt, rt.alloc(), &["plain"], &NOT_INFORMED);
    expect_each(&rt, rt.alloc(), &["plan", "1"], &NOT_INFORMED);
}

static FULL: [Case; 2] = [
    Case {
        shows: "a mark skipped by the goal node of the path, and one that is not, whose bound is less",
        scene: "prrt 2\nroom 100 100\nstart 0 0\ngoal 30 40 30 40\nstep 100\ninformed 1\nmark 0 40\nmark 30 40\nmark 10 10\nmark 0 90\n",
        status: 0,
        text: "path 3 cost 17920\n\
               0 0\n\
               0 40\n\
               30 40\n\
               nodes 4 placed 3 same 0 blocked 0 skipped 1\n\
               node 0 at 0 0 parent 0 cost 0\n\
               node 1 at 0 40 parent 0 cost 10240\n\
               node 2 at 30 40 parent 1 cost 17920\n\
               node 3 at 10 10 parent 0 cost 3621\n\
               mark 0 worker 0 turn 0 nearest 0 placed class 1 first 0 10240\n\
               mark 1 worker 0 turn 1 nearest 1 placed class 2 first 1 17920\n\
               mark 2 worker 0 turn 2 nearest 0 placed class 2 first 0 3621\n\
               mark 3 worker 0 turn 3 skipped by 2\n",
        run: Some((4, 4)),
    },
    Case {
        shows: "a mark skipped at the bound itself, by what a rewired goal node costs",
        scene: "prrt 2\nroom 100 100\nstart 0 0\ngoal 40 79 40 79\nstep 50\ngamma 1000\ninformed 1\nmark 0 50\nmark 40 79\nmark 40 30\n\
                mark 40 30\n",
        status: 0,
        text: "path 3 cost 25344\n\
               0 0\n\
               40 30\n\
               40 79\n\
               nodes 4 placed 3 same 0 blocked 0 skipped 1\n\
               node 0 at 0 0 parent 0 cost 0\n\
               node 1 at 0 50 parent 0 cost 12800\n\
               node 2 at 40 79 parent 3 cost 25344\n\
               node 3 at 40 30 parent 0 cost 12800\n\
               mark 0 worker 0 turn 0 nearest 0 placed class 1 first 0 12800\n\
               mark 1 worker 0 turn 1 nearest 1 placed class 2 first 1 25449\n\
               mark 2 worker 0 turn 2 nearest 1 placed class 2 first 0 12800\n\
               mark 3 worker 0 turn 3 skipped by 2\n",
        run: Some((4, 4)),
    },
];

#[test]
fn reports_skipped_marks(rt: HostRuntime) {
    expect_each(&rt, rt.alloc(), &["plain", "full"], &FULL);
    expect_each(&rt, rt.alloc(), &["plan", "1", "full"], &FULL);
}

#[test]
fn skips_marks_by_two_workers(rt: HostRuntime) {
    expect(&rt, rt.alloc(), &["plan", "2"], &INFORMED[0]);
}
