//! Sources that end within a line: the text up to there decides.

use super::*;

static REFUSED: [(&str, &str, &str); 8] = [
    ("in the version", "prr", "line 1 kind 1 Version\n"),
    (
        "in a key",
        "prrt 1\nroom 100 100\nsta",
        "line 3 kind 2 Key\n",
    ),
    (
        "after one number of two",
        "prrt 1\nroom 100 100\nstart 0",
        "line 3 kind 3 Words\n",
    ),
    (
        "after a sign",
        "prrt 1\nroom 100 100\nstart 0 -",
        "line 3 kind 4 Number\n",
    ),
    (
        "in a number, which is too small then",
        "prrt 1\nroom 100 100\nstart 0 0\ngoal 30 40 30 4",
        "line 4 kind 5 Range\n",
    ),
    (
        "in the last number of a triangle, which is flat then",
        "prrt 1\nobstacle 0 0 9 0 9 0",
        "line 2 kind 7 Corners\n",
    ),
    (
        "before a key that is missing then",
        "prrt 1\nroom 100 100\nstart 0 0\ngoal 30 40 30 40",
        "line 5 kind 9 Missing\n",
    ),
    (
        "in the last line",
        "prrt 1\nroom 100 100\nstart 0 0\ngoal 30 40 30 40\nstep 100\nmark 30",
        "line 6 kind 3 Words\n",
    ),
];

#[test]
fn refuses_a_scene_that_is_cut(rt: HostRuntime) {
    expect_refused(&rt, rt.alloc(), &REFUSED);
}

static PLANNED: [Case; 3] = [
    Case {
        shows: "in the step, and without the mark",
        scene: "prrt 1\nroom 100 100\nstart 0 0\ngoal 30 40 30 40\nstep 10",
        status: 1,
        text: "no path\nnodes 1 placed 0 same 0 blocked 0\n",
        run: Some((1, 0)),
    },
    Case {
        shows: "in the mark",
        scene: "prrt 1\nroom 100 100\nstart 0 0\ngoal 30 40 30 40\nstep 100\nmark 30 4",
        status: 1,
        text: "no path\nnodes 2 placed 1 same 0 blocked 0\n",
        run: Some((2, 1)),
    },
    Case {
        shows: "before the last line feed",
        scene: "prrt 1\nroom 100 100\nstart 0 0\ngoal 30 40 30 40\nstep 100\nmark 30 40",
        status: 0,
        text: "path 2 cost 12800\n0 0\n30 40\nnodes 2 placed 1 same 0 blocked 0\n",
        run: Some((2, 1)),
    },
];

#[test]
fn plans_what_is_a_scene_though_cut(rt: HostRuntime) {
    expect_each(&rt, rt.alloc(), &["plain"], &PLANNED);
    expect_each(&rt, rt.alloc(), &["plan", "2"], &PLANNED);
}
