//! Full reports: what `plain full` writes, and `plan 1 full`.

use super::*;

static FULL_REPORTS: [Case; 7] = [
    Case {
        shows: "a mark past the step",
        scene: "prrt 1\nroom 100 100\nstart 0 0\ngoal 90 90 99 99\nstep 50\nmark 60 80\n",
        status: 1,
        text: "no path\n\
               nodes 2 placed 1 same 0 blocked 0\n\
               node 0 at 0 0 parent 0 cost 0\n\
               node 1 at 30 40 parent 0 cost 12800\n\
               mark 0 worker 0 turn 0 nearest 0 placed class 1 first 0 12800\n",
        run: Some((2, 1)),
    },
    Case {
        shows: "a mark past the step on the diagonal",
        scene: "prrt 1\nroom 100 100\nstart 0 0\ngoal 90 90 99 99\nstep 50\nmark 70 70\n",
        status: 1,
        text: "no path\n\
               nodes 2 placed 1 same 0 blocked 0\n\
               node 0 at 0 0 parent 0 cost 0\n\
               node 1 at 35 35 parent 0 cost 12672\n\
               mark 0 worker 0 turn 0 nearest 0 placed class 1 first 0 12672\n",
        run: Some((2, 1)),
    },
    Case {
        shows: "a mark given twice",
        scene: "prrt 1\nroom 100 100\nstart 0 0\ngoal 30 40 30 40\nstep 100\nmark 30 40\nmark 30 40\n",
        status: 0,
        text: "path 2 cost 12800\n\
               0 0\n\
               30 40\n\
               nodes 2 placed 1 same 1 blocked 0\n\
               node 0 at 0 0 parent 0 cost 0\n\
               node 1 at 30 40 parent 0 cost 12800\n\
               mark 0 worker 0 turn 0 nearest 0 placed class 1 first 0 12800\n\
               mark 1 worker 0 turn 1 nearest 1 same 1\n",
        run: Some((2, 2)),
    },
    Case {
        shows: "a node that is rewired, and costs less than it was placed at",
        scene: "prrt 1\nroom 100 100\nstart 0 0\ngoal 40 79 40 79\nstep 50\ngamma 1000\nmark 0 50\nmark 40 79\nmark 40 30\n",
        status: 0,
        text: "path 3 cost 25344\n\
               0 0\n\
               40 30\n\
               40 79\n\
               nodes 4 placed 3 same 0 blocked 0\n\
               node 0 at 0 0 parent 0 cost 0\n\
               node 1 at 0 50 parent 0 cost 12800\n\
               node 2 at 40 79 parent 3 cost 25344\n\
               node 3 at 40 30 parent 0 cost 12800\n\
               mark 0 worker 0 turn 0 nearest 0 placed class 1 first 0 12800\n\
               mark 1 worker 0 turn 1 nearest 1 placed class 2 first 1 25449\n\
               mark 2 worker 0 turn 2 nearest 1 placed class 2 first 0 12800\n",
        run: Some((4, 3)),
    },
    Case {
        shows: "a blocked mark after one on a node",
        scene: "prrt 1\nroom 100 100\nobstacle 40 0 60 0 60 60 40 60\nstart 10 10\ngoal 70 10 70 10\nstep 100\nmark 30 10\nmark 30 10\nmark 70 10\n",
        status: 1,
        text: "no path\n\
               nodes 2 placed 1 same 1 blocked 1\n\
               node 0 at 10 10 parent 0 cost 0\n\
               node 1 at 30 10 parent 0 cost 5120\n\
               mark 0 worker 0 turn 0 nearest 0 placed class 1 first 0 5120\n\
               mark 1 worker 0 turn 1 nearest 1 same 1\n\
               mark 2 worker 0 turn 2 nearest 1 blocked\n",
        run: Some((2, 3)),
    },
    Case {
        shows: "a wall with a gap above",
        scene: WALL_WITH_GAP,
        status: 0,
        text: "path 4 cost 47633\n\
               20 20\n\
               75 65\n\
               115 65\n\
               175 20\n\
               nodes 4 placed 3 same 0 blocked 1\n\
               node 0 at 20 20 parent 0 cost 0\n\
               node 1 at 75 65 parent 0 cost 18193\n\
               node 2 at 115 65 parent 1 cost 28433\n\
               node 3 at 175 20 parent 2 cost 47633\n\
               mark 0 worker 0 turn 0 nearest 0 placed class 1 first 0 18193\n\
               mark 1 worker 0 turn 1 nearest 1 placed class 2 first 1 28433\n\
               mark 2 worker 0 turn 2 nearest 2 placed class 2 first 2 47633\n\
               mark 3 worker 0 turn 3 nearest 2 blocked\n",
        run: Some((4, 4)),
    },
    Case {
        shows: "a start that lies in the goal, and no mark",
        scene: "prrt 1\nroom 10 10\nstart 5 5\ngoal 0 0 9 9\nstep 4\n",
        status: 0,
        text: "path 1 cost 0\n\
               5 5\n\
               nodes 1 placed 0 same 0 blocked 0\n\
               node 0 at 5 5 parent 0 cost 0\n",
        run: Some((1, 0)),
    },
];

#[test]
fn writes_each_node_and_each_mark(rt: HostRuntime) {
    expect_each(&rt, rt.alloc(), &["plain", "full"], &FULL_REPORTS);
    expect_each(&rt, rt.alloc(), &["plan", "1", "full"], &FULL_REPORTS);
}

// How many lines a text has.
fn line_count(text: &str) -> u64 {
    let mut count = 0_u64;
    for _ in text.lines() {
        count = count.saturating_add(1);
    }
    count
}

// The report of the most drawn marks. They were drawn apart from the planner.
#[test]
fn writes_as_many_marks_as_there_may_be(rt: HostRuntime) {
    let words = ["plain", "full"];
    let called = call(&rt, rt.alloc(), &words, MOST_DRAWN_MARKS, 1 << 16, 0);
    let begin = "path 2 cost 363\n\
                 0 0\n\
                 1 1\n\
                 nodes 4 placed 3 same 262140 blocked 0\n\
                 node 0 at 0 0 parent 0 cost 0\n\
                 node 2 at 1 1 parent 0 cost 363\n\
                 node 3 at 0 1 parent 0 cost 256\n\
                 node 8 at 1 0 parent 0 cost 256\n\
                 mark 0 worker 0 turn 0 nearest 0 same 0\n\
                 mark 1 worker 0 turn 1 nearest 0 placed class 1 first 0 363\n";
    let end = "\nmark 262142 worker 0 turn 262142 nearest 0 same 0\n";
    expect_ends(&rt, called.text(), begin, end);
    expect_number(&rt, line_count(called.text()), 262_151, "the lines");
    expect_number(&rt, called.status(), 0, "the status");
    drop(called);
}
