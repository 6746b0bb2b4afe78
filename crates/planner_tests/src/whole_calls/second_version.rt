//! Whole calls over texts of version 2, and conversions to it.

use super::*;

static PLANS_OF_SECOND: [Case; 7] = [
    Case {
        shows: "a wall whose clearance is touched, with a goal outside",
        scene: "prrt 2\nroom 100 100\nobstacle 40 0 60 0 60 60 40 60\nclearance 5\nstart 30 65\ngoal 0 90 5 99\ngoal 70 65 70 66\n\
                step 100\nmark 70 65\n",
        status: 1,
        text: "no path\nnodes 1 placed 0 same 0 blocked 1\n",
        run: Some((1, 1)),
    },
    Case {
        shows: "one step above it",
        scene: "prrt 2\nroom 100 100\nobstacle 40 0 60 0 60 60 40 60\nclearance 5\nstart 30 66\ngoal 0 90 5 99\ngoal 70 65 70 66\n\
                step 100\nmark 70 66\n",
        status: 0,
        text: "path 2 cost 10240\n30 66\n70 66\nnodes 2 placed 1 same 0 blocked 0\n",
        run: Some((2, 1)),
    },
    Case {
        shows: "a slope that the corner of the clearance touches",
        scene: "prrt 2\nroom 100 100\nobstacle 40 40 60 40 40 60\nclearance 5\nstart 100 10\ngoal 10 100 10 100\nstep 200\n\
                mark 10 100\n",
        status: 1,
        text: "no path\nnodes 1 placed 0 same 0 blocked 1\n",
        run: Some((1, 1)),
    },
    Case {
        shows: "one step above the slope",
        scene: "prrt 2\nroom 100 100\nobstacle 40 40 60 40 40 60\nclearance 5\nstart 100 11\ngoal 11 100 11 100\nstep 200\n\
                mark 11 100\n",
        status: 0,
        text: "path 2 cost 32222\n100 11\n11 100\nnodes 2 placed 1 same 0 blocked 0\n",
        run: Some((2, 1)),
    },
    Case {
        shows: "two goals at equal costs, of which the one of the first node is reached",
        scene: "prrt 2\nroom 100 100\nstart 50 50\ngoal 80 50 80 50\ngoal 20 50 20 50\nstep 100\nmark 20 50\nmark 80 50\n",
        status: 0,
        text: "path 2 cost 7680\n50 50\n20 50\nnodes 3 placed 2 same 0 blocked 0\n",
        run: Some((3, 2)),
    },
    Case {
        shows: "a clearance that leaves the walls where they are",
        scene: "prrt 2\nroom 10 10\nbody -1 -1 1 -1 1 1 -1 1\nclearance 4096\nstart 1 1\ngoal 9 9 9 9\nstep 100\nmark 9 9\n",
        status: 0,
        text: "path 2 cost 2897\n1 1\n9 9\nnodes 2 placed 1 same 0 blocked 0\n",
        run: Some((2, 1)),
    },
    Case {
        shows: "a start within the clearance of an obstacle outside the room",
        scene: "prrt 2\nroom 10 10\nobstacle 20 0 30 0 30 10 20 10\nclearance 15\nstart 5 5\ngoal 9 9 9 9\nstep 100\n",
        status: 4,
        text: "start blocked\n",
        run: None,
    },
];

static WIDE: Case = Case {
    shows: "the greatest room and the greatest step",
    scene: "prrt 2\nroom 1048575 1048575\nstart 0 0\ngoal 1048575 1048575 1048575 1048575\nstep 65536\nmark 1048575 1048575\n",
    status: 1,
    text: "no path\n\
           nodes 2 placed 1 same 0 blocked 0\n\
           node 0 at 0 0 parent 0 cost 0\n\
           node 1 at 46340 46340 parent 0 cost 16776873\n\
           mark 0 worker 0 turn 0 nearest 0 placed class 1 first 0 16776873\n",
    run: Some((2, 1)),
};

#[test]
fn plans_scenes_of_version_2(rt: HostRuntime) {
    expect_each(&rt, rt.alloc(), &["plain"], &PLANS_OF_SECOND);
    expect_each(&rt, rt.alloc(), &["plan", "1"], &PLANS_OF_SECOND);
    expect(&rt, rt.alloc(), &["plain", "full"], &WIDE);
}

// Texts of version 2 with their canonical texts.
static SHOWN_SECOND: [Case; 2] = [
    Case {
        shows: "what every scene needs",
        scene: "prrt 2\nroom 9 9\nstart 0 0\ngoal 1 1 2 2\nstep 4\n",
        status: 0,
        text: "prrt 2\nroom 9 9\nbody 0 0\nclearance 0\nstart 0 0\ngoal 1 1 2 2\nstep 4\ngamma 0\nseed 0\nstrips 1\n",
        run: None,
    },
    Case {
        shows: "two goals, an obstacle, a clearance and drawn marks",
        scene: "prrt 2\ngoal 8 8 9 9\nstep 65536\nclearance 3\nroom 1048575 9\ngoal 1 1 2 2\nobstacle 4 4 6 4 5 7\nstart 0 0\nmarks 5\n",
        status: 0,
        text: "prrt 2\nroom 1048575 9\nbody 0 0\nobstacle 4 4 6 4 5 7\nclearance 3\nstart 0 0\ngoal 8 8 9 9\ngoal 1 1 2 2\nstep 65536\n\
               gamma 0\nseed 0\nstrips 1\nmarks 5\n",
        run: None,
    },
];

static CONVERTED: [Case; 2] = [
    Case {
        shows: "a text of version 1",
        scene: "# a note\nprrt  1\nstep 4\ngoal 1 1 2 2\nstart 0 0\nroom 9 9",
        status: 0,
        text: "prrt 2\nroom 9 9\nbody 0 0\nclearance 0\nstart 0 0\ngoal 1 1 2 2\nstep 4\ngamma 0\nseed 0\nstrips 1\n",
        run: None,
    },
    Case {
        shows: "a start outside the room, which is not tested",
        scene: BLOCKED_START,
        status: 0,
        text: "prrt 2\nroom 10 10\nbody 0 0\nclearance 0\nstart 11 5\ngoal 0 0 9 9\nstep 4\ngamma 0\nseed 0\nstrips 1\n",
        run: None,
    },
];

#[test]
fn converts_scenes(rt: HostRuntime) {
    expect_each(&rt, rt.alloc(), &["show"], &SHOWN_SECOND);
    expect_each(&rt, rt.alloc(), &["convert"], &SHOWN_SECOND);
    expect_each(&rt, rt.alloc(), &["convert"], &CONVERTED);
}

static FAULTY_BY_VERSION: [(&str, &str, &str); 4] = [
    (
        "a version that there is not",
        "prrt 3\n",
        "line 1 kind 1 Version\n",
    ),
    (
        "a clearance in version 1",
        "prrt 1\nclearance 1\n",
        "line 2 kind 2 Key\n",
    ),
    (
        "a second goal in version 1",
        "prrt 1\nroom 9 9\ngoal 1 1 2 2\ngoal x\n",
        "line 4 kind 6 Repeat\n",
    ),
    (
        "two words after a key that takes one",
        "prrt 2\ninformed x y\n",
        "line 2 kind 3 Words\n",
    ),
];

#[test]
fn refuses_texts_by_their_version(rt: HostRuntime) {
    expect_refused(&rt, rt.alloc(), &FAULTY_BY_VERSION);
}
