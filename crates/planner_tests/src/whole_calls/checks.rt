//! Whole calls that check the report after a scene.

use super::*;

static CHECKED: [Case; 11] = [
    Case {
        shows: "the full report of a run",
        scene: "prrt 1\nroom 100 100\nstart 0 0\ngoal 40 79 40 79\nstep 50\ngamma 1000\nmark 0 50\nmark 40 79\nmark 40 30\nreport\n\
                path 3 cost 25344\n0 0\n40 30\n40 79\nnodes 4 placed 3 same 0 blocked 0\n\
                node 0 at 0 0 parent 0 cost 0\nnode 1 at 0 50 parent 0 cost 12800\n\
                node 2 at 40 79 parent 3 cost 25344\nnode 3 at 40 30 parent 0 cost 12800\n\
                mark 0 worker 0 turn 0 nearest 0 placed class 1 first 0 12800\n\
                mark 1 worker 0 turn 1 nearest 1 placed class 2 first 1 25449\n\
                mark 2 worker 0 turn 2 nearest 1 placed class 2 first 0 12800\n",
        status: 0,
        text: "lawful\n",
        run: None,
    },
    Case {
        shows: "a report without a path",
        scene: "prrt 1\nroom 100 100\nstart 0 0\ngoal 90 90 99 99\nstep 50\nmark 60 80\nreport\n\
                no path\nnodes 2 placed 1 same 0 blocked 0\nnode 0 at 0 0 parent 0 cost 0\n\
                node 1 at 30 40 parent 0 cost 12800\nmark 0 worker 0 turn 0 nearest 0 placed class 1 first 0 12800\n",
        status: 0,
        text: "lawful\n",
        run: None,
    },
    Case {
        shows: "a cost of one 256th more",
        scene: "prrt 1\nroom 100 100\nstart 0 0\ngoal 90 90 99 99\nstep 50\nmark 60 80\nreport\n\
                no path\nnodes 2 placed 1 same 0 blocked 0\nnode 0 at 0 0 parent 0 cost 0\n\
                node 1 at 30 40 parent 0 cost 12801\nmark 0 worker 0 turn 0 nearest 0 placed class 1 first 0 12800\n",
        status: 1,
        text: "broken line 4 law 2\n",
        run: None,
    },
    Case {
        shows: "no placed mark on the line of counts",
        scene: "prrt 1\nroom 100 100\nstart 0 0\ngoal 90 90 99 99\nstep 50\nmark 60 80\nreport\n\
                no path\nnodes 2 placed 0 same 0 blocked 0\nnode 0 at 0 0 parent 0 cost 0\n\
                node 1 at 30 40 parent 0 cost 12800\nmark 0 worker 0 turn 0 nearest 0 placed class 1 first 0 12800\n",
        status: 1,
        text: "broken line 2 law 6\n",
        run: None,
    },
    Case {
        shows: "a nearest node that the mark itself placed",
        scene: "prrt 1\nroom 100 100\nstart 0 0\ngoal 90 90 99 99\nstep 50\nmark 60 80\nreport\n\
                no path\nnodes 2 placed 1 same 0 blocked 0\nnode 0 at 0 0 parent 0 cost 0\n\
                node 1 at 30 40 parent 0 cost 12800\nmark 0 worker 0 turn 0 nearest 1 placed class 1 first 0 12800\n",
        status: 1,
        text: "broken line 5 law 5\n",
        run: None,
    },
    Case {
        shows: "no line of the last mark",
        scene: "prrt 1\nroom 100 100\nstart 0 0\ngoal 90 90 99 99\nstep 50\nmark 60 80\nreport\n\
                no path\nnodes 2 placed 1 same 0 blocked 0\nnode 0 at 0 0 parent 0 cost 0\n\
                node 1 at 30 40 parent 0 cost 12800\n",
        status: 1,
        text: "broken line 5 law 1\n",
        run: None,
    },
    Case {
        shows: "a cost that is not the sum, and the lines counted from the report's first",
        scene: "# a comment\nprrt 1\nroom 100 100\nstart 0 0\ngoal 30 40 30 40\nstep 100\nmark 30 40\nreport\n\
                path 2 cost 12800\n0 0\n30 40\nnodes 2 placed 1 same 0 blocked 0\n\
                node 0 at 0 0 parent 0 cost 0\nnode 1 at 30 40 parent 0 cost 12801\n\
                mark 0 worker 0 turn 0 nearest 0 placed class 1 first 0 12800\n",
        status: 1,
        text: "broken line 6 law 2\n",
        run: None,
    },
    Case {
        shows: "a second line report, which is one of the report",
        scene: "prrt 1\nroom 10 10\nstart 5 5\ngoal 0 0 1 1\nstep 4\nreport\nno path\nreport\n\
                no path\nnodes 1 placed 0 same 0 blocked 0\nnode 0 at 5 5 parent 0 cost 0\n",
        status: 1,
        text: "broken line 2 law 1\n",
        run: None,
    },
    Case {
        shows: "a report whose last line feed is gone",
        scene: "prrt 1\nroom 10 10\nstart 5 5\ngoal 0 0 1 1\nstep 4\nreport\nno path\nnodes 1 placed 0 same 0 blocked 0\n\
                node 0 at 5 5 parent 0 cost 0",
        status: 1,
        text: "broken line 3 law 1\n",
        run: None,
    },
    Case {
        shows: "no report",
        scene: "prrt 1\nroom 10 10\nstart 5 5\ngoal 0 0 1 1\nstep 4\nreport\n",
        status: 1,
        text: "broken line 1 law 1\n",
        run: None,
    },
    Case {
        shows: "no report, nor a line feed",
        scene: "prrt 1\nroom 10 10\nstart 5 5\ngoal 0 0 1 1\nstep 4\nreport",
        status: 1,
        text: "broken line 1 law 1\n",
        run: None,
    },
];

#[test]
fn checks_reports(rt: HostRuntime) {
    expect_each(&rt, rt.alloc(), &["check"], &CHECKED);
}

// A text, its status and the line that tells the fault or that the start is not clear.
static NOT_CHECKED: [(&str, &str, u8, &str); 8] = [
    (
        "no line report",
        "prrt 1\nroom 10 10\nstart 5 5\ngoal 0 0 1 1\nstep 4\n",
        3,
        "line 6 kind 9 Missing\n",
    ),
    (
        "no line report, nor a line feed",
        "prrt 1\nroom 10 10\nstart 5 5\ngoal 0 0 1 1\nstep 4",
        3,
        "line 6 kind 9 Missing\n",
    ),
    (
        "a line report with a space before it",
        "prrt 1\nroom 10 10\nstart 5 5\ngoal 0 0 1 1\nstep 4\n report\nreport\nno path\n",
        3,
        "line 6 kind 2 Key\n",
    ),
    (
        "a line report with a space after it",
        "prrt 1\nroom 10 10\nstart 5 5\ngoal 0 0 1 1\nstep 4\nreport \nno path\n",
        3,
        "line 6 kind 2 Key\n",
    ),
    (
        "a key that is missing before the line report",
        "prrt 1\nroom 10 10\nstart 5 5\ngoal 0 0 1 1\nreport\nstep 4\n",
        3,
        "line 5 kind 9 Missing\n",
    ),
    ("no scene", "report\n", 3, "line 1 kind 1 Version\n"),
    (
        "a start that is not clear, and no report",
        "prrt 1\nroom 10 10\nstart 11 5\ngoal 0 0 9 9\nstep 4\nreport\n",
        4,
        "start blocked\n",
    ),
    (
        "a start that is not clear, and no line report",
        "prrt 1\nroom 10 10\nstart 11 5\ngoal 0 0 9 9\nstep 4\n",
        3,
        "line 6 kind 9 Missing\n",
    ),
];

#[test]
fn refuses_a_text_without_a_scene_and_a_report(rt: HostRuntime) {
    for (shows, scene, status, text) in &NOT_CHECKED {
        let case = Case {
            shows,
            scene,
            status: *status,
            text,
            run: None,
        };
        expect(&rt, rt.alloc(), &["check"], &case);
    }
}
