//! Scenes that are read, and texts that are refused.

use crate::texts::support::{
    POLYGONS, assert_each_refused, assert_refused, repeated, scene_of, sure,
};
use plan_model::{Goal, Kind, Marks, Point, Scene, Vertex};
use std::alloc::Global;
use std::process::Abort;

const SMALL: &str =
    "# a room\nprrt 1\n\nroom 10 12\nstart 5 6\ngoal 7 8 9 10\nmark 1 2\nstep 4\nmark 3 0";

const GREATEST: &str =
    "prrt 1\nseed 18446744073709551615\ngamma 16777215\nroom 9 9\nstart 1 1\ngoal 2 2 2 2\nstep 4096\nstrips 64\n";

// Asserts the room, the start and the goal of a scene.
fn assert_places<R: Abort>(rt: &R, scene: &Scene, room: Point, start: Point, goal: Goal) {
    assert!(rt; (scene.room == room) & (scene.start == start));
    assert!(rt; scene.goals.as_slice() == [goal].as_slice());
}

// Asserts that a scene lists these marks.
fn assert_listed<R: Abort>(rt: &R, scene: &Scene, want: &[Point]) {
    match &scene.plan {
        Marks::Listed(marks) => assert!(rt; marks.as_slice() == want),
        Marks::Drawn(_) => panic!(rt; "no listed marks"),
    }
}

static SMALL_MARKS: [Point; 2] = [Point { x: 1, y: 2 }, Point { x: 3, y: 0 }];

#[test]
fn reads_the_fields(rt: HostRuntime) {
    let scene = scene_of(&rt, rt.alloc(), SMALL);
    let goal = Goal {
        low: Point { x: 7, y: 8 },
        high: Point { x: 9, y: 10 },
    };
    assert_places(
        &rt,
        &scene,
        Point { x: 10, y: 12 },
        Point { x: 5, y: 6 },
        goal,
    );
    assert_listed(&rt, &scene, &SMALL_MARKS);
    drop(scene);
}

// The numbers of a scene that stand alone on their lines.
#[derive(Clone, Copy, PartialEq, Eq)]
struct Numbers {
    step: u32,
    gamma: u32,
    seed: u64,
    strips: u32,
}

// Asserts these numbers of the scene of a text.
fn assert_numbers<R: Abort>(rt: &R, alloc: Global, text: &str, want: Numbers) {
    let scene = scene_of(rt, alloc, text);
    let numbers = Numbers {
        step: scene.step,
        gamma: scene.gamma,
        seed: scene.seed,
        strips: scene.strips,
    };
    drop(scene);
    assert!(rt; numbers == want);
}

const LEFT_OUT: Numbers = Numbers {
    step: 4,
    gamma: 0,
    seed: 0,
    strips: 1,
};

const MOST: Numbers = Numbers {
    step: 4_096,
    gamma: 16_777_215,
    seed: u64::MAX,
    strips: 64,
};

#[test]
fn reads_the_numbers(rt: HostRuntime) {
    assert_numbers(&rt, rt.alloc(), SMALL, LEFT_OUT);
    assert_numbers(&rt, rt.alloc(), GREATEST, MOST);
}

const NO_DRAWN_MARKS: &str = "prrt 1\nmarks 0\nroom 9 9\nstart 1 1\ngoal 2 2 2 2\nstep 4\n";

const MOST_DRAWN_MARKS: &str = "prrt 1\nroom 9 9\nstart 1 1\ngoal 2 2 2 2\nstep 4\nmarks 262143\n";

// Asserts that the scene of a text draws so many marks.
fn assert_drawn<R: Abort>(rt: &R, alloc: Global, text: &str, want: u32) {
    let scene = scene_of(rt, alloc, text);
    let is_same = match scene.plan {
        Marks::Drawn(count) => count == want,
        Marks::Listed(_) => false,
    };
    drop(scene);
    assert!(rt; is_same);
}

#[test]
fn reads_drawn_marks(rt: HostRuntime) {
    assert_drawn(&rt, rt.alloc(), NO_DRAWN_MARKS, 0);
    assert_drawn(&rt, rt.alloc(), MOST_DRAWN_MARKS, 262_143);
}

static FIRST_FAULTS: [(&str, u32, Kind); 21] = [
    ("prrt 1\nroom 10 10\nstart 5 5\nstep 4\n", 5, Kind::Missing),
    ("prrt 1\nroom 10 10\nstep 4\nstep 4\n", 4, Kind::Repeat),
    ("", 1, Kind::Version),
    ("prrt 1\nroom 10 10\nstar\n", 3, Kind::Key),
    ("prrt 1\nstep 04\n", 2, Kind::Number),
    ("prrt 1\nstep 99999999999999999999999\n", 2, Kind::Range),
    ("prrt 1\nstart -1 0\n", 2, Kind::Range),
    ("prrt 1\nseed 18446744073709551616\n", 2, Kind::Range),
    ("prrt 1\nseed 1\nseed 1\n", 3, Kind::Repeat),
    ("prrt 1\nstrips 0\n", 2, Kind::Range),
    ("prrt 1\nstrips 65\n", 2, Kind::Range),
    ("prrt 1\ngamma 16777216\n", 2, Kind::Range),
    ("prrt 1\ngamma -1\n", 2, Kind::Range),
    ("prrt 1\ngamma 1 1\n", 2, Kind::Words),
    ("prrt 1\ngamma 0\ngamma 0\n", 3, Kind::Repeat),
    ("prrt 1\nmarks 262144\n", 2, Kind::Range),
    ("prrt 1\nmarks -1\n", 2, Kind::Range),
    ("prrt 1\nmarks\n", 2, Kind::Words),
    ("prrt 1\nmarks 5\nmarks 5\n", 3, Kind::Repeat),
    ("prrt 1\nmarks 5\nmark 1 1\n", 3, Kind::Repeat),
    ("prrt 1\nmark 1 1\nmarks 5\n", 3, Kind::Repeat),
];

#[test]
fn refuses_the_first_fault(rt: HostRuntime) {
    assert_each_refused(&rt, rt.alloc(), &FIRST_FAULTS);
}

static POLYGONS_REFUSED: [(&str, u32, Kind); 17] = [
    // three corners in a line, and so also at the last corner
    ("prrt 1\nobstacle 0 0 5 0 9 0 9 9\n", 2, Kind::Corners),
    ("prrt 1\nbody 0 0 9 0 9 9 0 9 0 5\n", 2, Kind::Corners),
    // a corner twice
    ("prrt 1\nobstacle 0 0 9 0 9 9 9 9\n", 2, Kind::Corners),
    ("prrt 1\nbody 0 0 0 0 0 0\n", 2, Kind::Corners),
    // clockwise
    ("prrt 1\nobstacle 0 0 0 9 9 9\n", 2, Kind::Corners),
    ("prrt 1\nbody 0 0 0 9 9 9\n", 2, Kind::Corners),
    // a dent
    ("prrt 1\nobstacle 0 0 9 0 3 3 0 9\n", 2, Kind::Corners),
    // twice round, with left turns only
    ("prrt 1\nobstacle 8 0 5 9 2 0 10 6 0 6\n", 2, Kind::Corners),
    // two corners, and half a corner
    ("prrt 1\nbody 0 0 1 0\n", 2, Kind::Words),
    ("prrt 1\nobstacle 0 0 9 0\n", 2, Kind::Words),
    ("prrt 1\nobstacle 0 0 9 0 9 9 0\n", 2, Kind::Words),
    ("prrt 1\nobstacle 0 0 9 0 9 x\n", 2, Kind::Number),
    // out of the range, by one
    ("prrt 1\nbody 0 -4097\n", 2, Kind::Range),
    ("prrt 1\nobstacle 0 0 131072 0 9 9\n", 2, Kind::Range),
    ("prrt 1\nobstacle -2147483648 0 9 0 9 9\n", 2, Kind::Range),
    (
        "prrt 1\nobstacle 0 0 99999999999999999999 0 9 9\n",
        2,
        Kind::Range,
    ),
    (
        "prrt 1\nobstacle 0 0 -99999999999999999999 0 9 9\n",
        2,
        Kind::Range,
    ),
];

#[test]
fn refuses_polygons(rt: HostRuntime) {
    assert_each_refused(&rt, rt.alloc(), &POLYGONS_REFUSED);
}

const TRIANGLE: &str = "obstacle 0 0 9 0 0 9\n";

// A text with a piece so many times, which is refused at this line, for a fault of this kind.
struct Repeats {
    before: &'static str,
    piece: &'static str,
    count: usize,
    line: u32,
    kind: Kind,
}

static TOO_MANY: [Repeats; 7] = [
    Repeats {
        before: "prrt 1\nbody",
        piece: " 0 0",
        count: 16,
        line: 2,
        kind: Kind::Corners,
    },
    Repeats {
        before: "prrt 1\nbody",
        piece: " 0 0",
        count: 17,
        line: 2,
        kind: Kind::Many,
    },
    Repeats {
        before: "prrt 1\nobstacle",
        piece: " 0 0",
        count: 64,
        line: 2,
        kind: Kind::Corners,
    },
    Repeats {
        before: "prrt 1\nobstacle",
        piece: " 0 0",
        count: 65,
        line: 2,
        kind: Kind::Many,
    },
    Repeats {
        before: "prrt 1\n",
        piece: TRIANGLE,
        count: 1_024,
        line: 1_026,
        kind: Kind::Missing,
    },
    Repeats {
        before: "prrt 1\n",
        piece: TRIANGLE,
        count: 1_025,
        line: 1_026,
        kind: Kind::Many,
    },
    Repeats {
        before: "prrt 1\n",
        piece: "body 0 0\n",
        count: 2,
        line: 3,
        kind: Kind::Repeat,
    },
];

// Asserts that a text with a piece so many times is refused.
fn assert_repeats_refused<R: Abort>(rt: &R, alloc: Global, case: &Repeats) {
    let text = repeated(rt, alloc, case.before, case.piece, case.count);
    assert_refused(rt, alloc, text.as_str(), case.line, case.kind);
    drop(text);
}

#[test]
fn refuses_too_many_corners_and_obstacles(rt: HostRuntime) {
    for case in &TOO_MANY {
        assert_repeats_refused(&rt, rt.alloc(), case);
    }
}

// Asserts the body of the scene of a text, and how many obstacles it has.
fn assert_polygons<R: Abort>(rt: &R, alloc: Global, text: &str, body: &[Vertex], obstacles: usize) {
    let scene = scene_of(rt, alloc, text);
    let is_same = (scene.body.as_slice() == body) & (scene.obstacles.len() == obstacles);
    drop(scene);
    assert!(rt; is_same);
}

static BODY: [Vertex; 4] = [
    Vertex { x: -1, y: -2 },
    Vertex { x: 3, y: -2 },
    Vertex { x: 3, y: 4 },
    Vertex { x: -1, y: 4 },
];

#[test]
fn reads_polygons(rt: HostRuntime) {
    assert_polygons(&rt, rt.alloc(), POLYGONS, &BODY, 2);
}

static POINT: [Vertex; 1] = [Vertex { x: 0, y: 0 }];

#[test]
fn reads_as_many_obstacles_as_there_may_be(rt: HostRuntime) {
    let before = "prrt 1\nroom 9 9\nstart 0 0\ngoal 1 1 2 2\nstep 4\n";
    let text = repeated(&rt, rt.alloc(), before, TRIANGLE, 1_024);
    assert_polygons(&rt, rt.alloc(), text.as_str(), &POINT, 1_024);
    drop(text);
}
