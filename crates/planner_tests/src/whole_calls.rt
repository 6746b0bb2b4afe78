//! Whole calls, over a source and a sink in memory.

use crate::support::{
    copied, expect_number, expect_text, expect_that, given_words, push_text, sure, text_in,
};
use any_time::BetterLists;
use calls::*;
use plan_model::{MemSink, MemSource, Memory, Outcome, Record, Sink, Source};
use plan_work::{Gate, NoGate};
use planner::{Done, run};
use std::alloc::{AllocGlobal, Global};
use std::process::Abort;
use std::random::RandomSource;
use std::sync::Wait;
use std::test::Fail;
use std::thread::Threads;
use step_core::Grown;
use twin_trees::Twin;

// A scene, and what is to be answered to it.
#[derive(Clone, Copy)]
struct Case<'a> {
    // What the case shows.
    shows: &'a str,
    scene: &'a str,
    status: u8,
    text: &'a str,
    // How many nodes and how many marks the run has that is handed out, if one is.
    run: Option<(u32, u32)>,
}

// A scene whose only mark is the goal.
const ONE_MARK: &str = "prrt 1\nroom 100 100\nstart 0 0\ngoal 30 40 30 40\nstep 100\nmark 30 40\n";

// A scene whose start lies outside the room.
const BLOCKED_START: &str = "prrt 1\nroom 10 10\nstart 11 5\ngoal 0 0 9 9\nstep 4\n";

// As many drawn marks as there may be, on the four points of the room.
const MOST_DRAWN_MARKS: &str =
    "prrt 1\nroom 1 1\nstart 0 0\ngoal 1 1 1 1\nstep 4\ngamma 9\nstrips 2\nmarks 262143\n";

// Compares the answer to the scene of a case, which is read in pieces of at most so many bytes.
fn expect_by_pieces<R: Threads + Sync + Wait + RandomSource + AllocGlobal + Clone + Drop + Abort>(
    rt: &R,
    alloc: Global,
    words: &[&str],
    most: usize,
    case: &Case,
) {
    let called = call(rt, alloc, words, case.scene, most, 0);
    expect_answer(rt, words, &called, case);
    drop(called);
}

// The same in pieces of several lengths, and at once.
fn expect<R: Threads + Sync + Wait + RandomSource + AllocGlobal + Clone + Drop + Abort>(
    rt: &R,
    alloc: Global,
    words: &[&str],
    case: &Case,
) {
    for most in [1, 2, 7, 1 << 16, 1 << 24] {
        expect_by_pieces(rt, alloc, words, most, case);
    }
}

// The same of each case.
fn expect_each<R: Threads + Sync + Wait + RandomSource + AllocGlobal + Clone + Drop + Abort>(
    rt: &R,
    alloc: Global,
    words: &[&str],
    cases: &[Case],
) {
    for case in cases {
        expect(rt, alloc, words, case);
    }
}

// Compares how a text begins and ends.
fn expect_ends<R: Abort>(rt: &R, text: &str, begin: &str, end: &str) {
    expect_that(rt, text.starts_with(begin), begin);
    expect_that(rt, text.ends_with(end), end);
}

static PLANS: [Case; 8] = [
    Case {
        shows: "a mark reached in one step",
        scene: "prrt 1\nroom 100 100\nstart 0 0\ngoal 30 40 30 40\nstep 100\nmark 30 40\n",
        status: 0,
        text: "path 2 cost 12800\n0 0\n30 40\nnodes 2 placed 1 same 0 blocked 0\n",
        run: Some((2, 1)),
    },
    Case {
        shows: "the cost rounded up on a diagonal of 75",
        scene: "prrt 1\nroom 100 100\nstart 10 10\ngoal 85 85 85 85\nstep 4096\nmark 85 85\n",
        status: 0,
        text: "path 2 cost 27153\n10 10\n85 85\nnodes 2 placed 1 same 0 blocked 0\n",
        run: Some((2, 1)),
    },
    Case {
        shows: "a start that lies in the goal",
        scene: "prrt 1\nroom 10 10\nstart 5 5\ngoal 0 0 9 9\nstep 4\n",
        status: 0,
        text: "path 1 cost 0\n5 5\nnodes 1 placed 0 same 0 blocked 0\n",
        run: Some((1, 0)),
    },
    Case {
        shows: "a mark past the step",
        scene: "prrt 1\nroom 100 100\nstart 0 0\ngoal 90 90 99 99\nstep 50\nmark 60 80\n",
        status: 1,
        text: "no path\nnodes 2 placed 1 same 0 blocked 0\n",
        run: Some((2, 1)),
    },
    Case {
        shows: "a mark past the step on the diagonal",
        scene: "prrt 1\nroom 100 100\nstart 0 0\ngoal 90 90 99 99\nstep 50\nmark 70 70\n",
        status: 1,
        text: "no path\nnodes 2 placed 1 same 0 blocked 0\n",
        run: Some((2, 1)),
    },
    Case {
        shows: "a mark given twice",
        scene: "prrt 1\nroom 100 100\nstart 0 0\ngoal 30 40 30 40\nstep 100\nmark 30 40\nmark 30 40\n",
        status: 0,
        text: "path 2 cost 12800\n0 0\n30 40\nnodes 2 placed 1 same 1 blocked 0\n",
        run: Some((2, 2)),
    },
    Case {
        shows: "the example of the scene format",
        scene: "# A robot that starts in the lower left corner.\nprrt 1\nroom 100 100\nstart 0 0\ngoal 30 40 35 45\nstep 25\nmark 15 20\nmark 30 40\n",
        status: 0,
        text: "path 3 cost 12800\n0 0\n15 20\n30 40\nnodes 3 placed 2 same 0 blocked 0\n",
        run: Some((3, 2)),
    },
    Case {
        shows: "a mark outside the room",
        scene: "prrt 1\nroom 10 10\nstart 5 5\ngoal 0 0 1 1\nstep 100\nmark 20 20\n",
        status: 1,
        text: "no path\nnodes 1 placed 0 same 0 blocked 1\n",
        run: Some((1, 1)),
    },
];

#[test]
fn plans_scenes(rt: HostRuntime) {
    expect_each(&rt, rt.alloc(), &["plain"], &PLANS);
}

const WALL_WITH_GAP: &str = "\
    # wall with a gap above\n\
    prrt 1\n\
    room 200 100\n\
    body 0 0 10 0 10 10 0 10\n\
    obstacle 90 0 110 0 110 60 90 60\n\
    start 20 20\n\
    goal 170 10 189 40\n\
    step 120\n\
    gamma 500\n\
    mark 75 65\n\
    mark 115 65\n\
    mark 175 20\n\
    mark 100 30\n";

static REWIRED: [Case; 4] = [
    Case {
        shows: "a node that is rewired",
        scene: "prrt 1\nroom 100 100\nstart 0 0\ngoal 40 79 40 79\nstep 50\ngamma 1000\nmark 0 50\nmark 40 79\nmark 40 30\n",
        status: 0,
        text: "path 3 cost 25344\n0 0\n40 30\n40 79\nnodes 4 placed 3 same 0 blocked 0\n",
        run: Some((4, 3)),
    },
    Case {
        shows: "a node that costs as much through the new one, and keeps its parent",
        scene: "prrt 1\nroom 100 100\nstart 0 0\ngoal 40 80 40 80\nstep 50\ngamma 1000\nmark 0 50\nmark 40 80\nmark 40 30\n",
        status: 0,
        text: "path 3 cost 25600\n0 0\n0 50\n40 80\nnodes 4 placed 3 same 0 blocked 0\n",
        run: Some((4, 3)),
    },
    Case {
        shows: "without gamma no node is near, and none is rewired",
        scene: "prrt 1\nroom 100 100\nstart 0 0\ngoal 40 79 40 79\nstep 50\nmark 0 50\nmark 40 79\nmark 40 30\n",
        status: 0,
        text: "path 3 cost 25449\n0 0\n0 50\n40 79\nnodes 4 placed 3 same 0 blocked 0\n",
        run: Some((4, 3)),
    },
    Case {
        shows: "a wall with a gap above",
        scene: WALL_WITH_GAP,
        status: 0,
        text: "path 4 cost 47633\n20 20\n75 65\n115 65\n175 20\nnodes 4 placed 3 same 0 blocked 1\n",
        run: Some((4, 4)),
    },
];

// The nodes near a new one get it as their parent if they get cheaper.
#[test]
fn plans_with_rewiring(rt: HostRuntime) {
    expect_each(&rt, rt.alloc(), &["plain"], &REWIRED);
}

static DRAWN: [Case; 2] = [
    Case {
        shows: "the first mark of seed 0",
        scene: "prrt 1\nroom 99 99\nstart 0 0\ngoal 88 43 88 43\nstep 4096\nseed 0\nstrips 1\nmarks 1\n",
        status: 0,
        text: "path 2 cost 25074\n0 0\n88 43\nnodes 2 placed 1 same 0 blocked 0\n",
        run: Some((2, 1)),
    },
    Case {
        shows: "no mark",
        scene: "prrt 1\nroom 99 99\nstart 0 0\ngoal 0 0 9 9\nstep 4\nmarks 0\n",
        status: 0,
        text: "path 1 cost 0\n0 0\nnodes 1 placed 0 same 0 blocked 0\n",
        run: Some((1, 0)),
    },
];

#[test]
fn plans_over_drawn_marks(rt: HostRuntime) {
    expect_each(&rt, rt.alloc(), &["plain"], &DRAWN);
}

// Adds a line to a text: this word, the number, and 0.
fn push_numbered(text: &mut String, word: &str, number: u32) -> Result<(), Memory> {
    write!(text, "{word}{number} 0\n")?;
    Ok(())
}

// Lines, then one for each number up to the last: this word, the number, and 0; and then lines.
fn numbered<R: Abort>(
    rt: &R,
    alloc: Global,
    head: &str,
    word: &str,
    numbers: (u32, u32),
    tail: &str,
) -> String {
    let mut text = sure(rt, copied(alloc, head));
    for number in numbers.0..=numbers.1 {
        sure(rt, push_numbered(&mut text, word, number));
    }
    sure(rt, push_text(&mut text, tail));
    text
}

// A corridor with a mark at each lattice step, so that its path has a point at each.
struct Corridor<'a> {
    length: u32,
    nodes: u32,
    scene: &'a str,
    // The first and the last line of the report.
    path: &'a str,
    counts: &'a str,
}

static CORRIDORS: [Corridor; 2] = [
    Corridor {
        length: 1000,
        nodes: 1001,
        scene: "prrt 1\nroom 1000 10\nstart 0 0\ngoal 1000 0 1000 0\nstep 4\n",
        path: "path 1001 cost 256000\n",
        counts: "nodes 1001 placed 1000 same 0 blocked 0\n",
    },
    Corridor {
        length: 4000,
        nodes: 4001,
        scene: "prrt 1\nroom 4000 10\nstart 0 0\ngoal 4000 0 4000 0\nstep 4\n",
        path: "path 4001 cost 1024000\n",
        counts: "nodes 4001 placed 4000 same 0 blocked 0\n",
    },
];

// The scene of a corridor, in rising order of the marks.
fn corridor_scene<R: Abort>(rt: &R, alloc: Global, corridor: &Corridor) -> String {
    let marks = (1, corridor.length);
    numbered(rt, alloc, corridor.scene, "mark ", marks, "")
}

// Compares the report of a corridor.
fn expect_corridor<R: Threads + Sync + Wait + RandomSource + AllocGlobal + Clone + Drop + Abort>(
    rt: &R,
    alloc: Global,
    words: &[&str],
    corridor: &Corridor,
) {
    let length = corridor.length;
    let scene = corridor_scene(rt, alloc, corridor);
    let points = (0, length);
    let report = numbered(rt, alloc, corridor.path, "", points, corridor.counts);
    let case = Case {
        shows: "a corridor",
        scene: &scene,
        status: 0,
        text: &report,
        run: Some((corridor.nodes, length)),
    };
    expect_by_pieces(rt, alloc, words, 1 << 16, &case);
    drop(scene);
    drop(report);
}

#[test]
fn plans_one_branch_of_thousands_of_nodes(rt: HostRuntime) {
    for corridor in &CORRIDORS {
        expect_corridor(&rt, rt.alloc(), &["plain"], corridor);
        expect_corridor(&rt, rt.alloc(), &["plan", "1"], corridor);
    }
}

static PAST_OBSTACLE: [Case; 6] = [
    Case {
        shows: "an edge along the top of the obstacle",
        scene: "prrt 1\nroom 100 100\nobstacle 40 0 60 0 60 60 40 60\nstart 30 60\ngoal 70 60 70 61\nstep 100\nmark 70 60\n",
        status: 1,
        text: "no path\nnodes 1 placed 0 same 0 blocked 1\n",
        run: Some((1, 1)),
    },
    Case {
        shows: "an edge one step above it",
        scene: "prrt 1\nroom 100 100\nobstacle 40 0 60 0 60 60 40 60\nstart 30 61\ngoal 70 60 70 61\nstep 100\nmark 70 61\n",
        status: 0,
        text: "path 2 cost 10240\n30 61\n70 61\nnodes 2 placed 1 same 0 blocked 0\n",
        run: Some((2, 1)),
    },
    Case {
        shows: "an edge through it between two clear ends",
        scene: "prrt 1\nroom 100 100\nobstacle 40 0 60 0 60 60 40 60\nstart 30 10\ngoal 70 10 70 10\nstep 100\nmark 70 10\n",
        status: 1,
        text: "no path\nnodes 1 placed 0 same 0 blocked 1\n",
        run: Some((1, 1)),
    },
    Case {
        shows: "an edge that touches a corner at its middle",
        scene: "prrt 1\nroom 100 100\nobstacle 40 0 60 0 60 60 40 60\nstart 30 70\ngoal 50 50 50 50\nstep 100\nmark 50 50\n",
        status: 1,
        text: "no path\nnodes 1 placed 0 same 0 blocked 1\n",
        run: Some((1, 1)),
    },
    Case {
        shows: "a start at a corner",
        scene: "prrt 1\nroom 100 100\nobstacle 40 0 60 0 60 60 40 60\nstart 60 60\ngoal 70 60 70 61\nstep 100\nmark 70 60\n",
        status: 4,
        text: "start blocked\n",
        run: None,
    },
    Case {
        shows: "a start within",
        scene: "prrt 1\nroom 100 100\nobstacle 40 0 60 0 60 60 40 60\nstart 50 30\ngoal 70 60 70 61\nstep 100\nmark 70 60\n",
        status: 4,
        text: "start blocked\n",
        run: None,
    },
];

// Obstacles are closed, so to touch one is to collide. This one is 20 wide and 60 high.
#[test]
fn plans_past_an_obstacle(rt: HostRuntime) {
    expect_each(&rt, rt.alloc(), &["plain"], &PAST_OBSTACLE);
}

static WITH_BODY: [Case; 4] = [
    Case {
        shows: "a body that touches the obstacle",
        scene: "prrt 1\nroom 100 100\nbody 0 0 4 0 4 4 0 4\nobstacle 40 0 60 0 60 60 40 60\nstart 36 0\ngoal 35 0 36 0\nstep 4\n",
        status: 4,
        text: "start blocked\n",
        run: None,
    },
    Case {
        shows: "a body one step before it",
        scene: "prrt 1\nroom 100 100\nbody 0 0 4 0 4 4 0 4\nobstacle 40 0 60 0 60 60 40 60\nstart 35 0\ngoal 35 0 36 0\nstep 4\n",
        status: 0,
        text: "path 1 cost 0\n35 0\nnodes 1 placed 0 same 0 blocked 0\n",
        run: Some((1, 0)),
    },
    Case {
        shows: "a body that leaves the room",
        scene: "prrt 1\nroom 100 100\nbody 0 0 4 0 4 4 0 4\nobstacle 40 0 60 0 60 60 40 60\nstart 97 0\ngoal 35 0 36 0\nstep 4\n",
        status: 4,
        text: "start blocked\n",
        run: None,
    },
    Case {
        shows: "a body that touches the right wall",
        scene: "prrt 1\nroom 100 100\nbody 0 0 4 0 4 4 0 4\nobstacle 40 0 60 0 60 60 40 60\nstart 96 0\ngoal 35 0 36 0\nstep 4\n",
        status: 1,
        text: "no path\nnodes 1 placed 0 same 0 blocked 0\n",
        run: Some((1, 0)),
    },
];

// The body may touch a wall, and no obstacle.
#[test]
fn plans_for_a_body(rt: HostRuntime) {
    expect_each(&rt, rt.alloc(), &["plain"], &WITH_BODY);
}

static READERS: [&[&str]; 9] = [
    &["plain"],
    &["plan", "2"],
    &["smooth", "2"],
    &["anytime", "2", "3"],
    &["twin", "2"],
    &["batch", "2", "3"],
    &["check"],
    &["show"],
    &["convert"],
];

// Compares the answer to a case by the commands that read a scene.
fn expect_by_readers<R: Threads + Sync + Wait + RandomSource + AllocGlobal + Clone + Drop + Abort>(
    rt: &R,
    alloc: Global,
    case: &Case,
) {
    for words in READERS {
        expect(rt, alloc, words, case);
    }
}

// Compares the refusal of each text by the commands that read a scene. Each is given with what it shows and with the line
// that tells its fault.
fn expect_refused<R: Threads + Sync + Wait + RandomSource + AllocGlobal + Clone + Drop + Abort>(
    rt: &R,
    alloc: Global,
    cases: &[(&str, &str, &str)],
) {
    for (shows, scene, text) in cases {
        let case = Case {
            shows,
            scene,
            status: 3,
            text,
            run: None,
        };
        expect_by_readers(rt, alloc, &case);
    }
}

static NOT_CONVEX: [(&str, &str, &str); 4] = [
    (
        "clockwise corners",
        "prrt 1\nroom 100 100\nobstacle 0 0 0 9 9 9\n",
        "line 3 kind 7 Corners\n",
    ),
    (
        "a corner on an edge",
        "prrt 1\nroom 100 100\nobstacle 0 0 5 0 9 0 9 9\n",
        "line 3 kind 7 Corners\n",
    ),
    (
        "a body with a corner on an edge",
        "prrt 1\nbody 0 0 5 0 9 0 9 9\n",
        "line 2 kind 7 Corners\n",
    ),
    (
        "a body of two corners",
        "prrt 1\nbody 0 0 1 0\n",
        "line 2 kind 3 Words\n",
    ),
];

#[test]
fn refuses_what_is_not_convex(rt: HostRuntime) {
    expect_refused(&rt, rt.alloc(), &NOT_CONVEX);
}

static FAULTY: [(&str, &str, &str); 16] = [
    (
        "a missing key",
        "prrt 1\nroom 10 10\nstart 5 5\nstep 4\n",
        "line 5 kind 9 Missing\n",
    ),
    (
        "a repeated step",
        "prrt 1\nroom 10 10\nstep 4\nstep 4\n",
        "line 4 kind 6 Repeat\n",
    ),
    ("the empty text", "", "line 1 kind 1 Version\n"),
    (
        "an unknown key",
        "prrt 1\nroom 10 10\nstar\n",
        "line 3 kind 2 Key\n",
    ),
    (
        "a leading zero",
        "prrt 1\nstep 04\n",
        "line 2 kind 4 Number\n",
    ),
    (
        "a number of 23 digits",
        "prrt 1\nstep 99999999999999999999999\n",
        "line 2 kind 5 Range\n",
    ),
    (
        "a start below 0",
        "prrt 1\nstart -1 0\n",
        "line 2 kind 5 Range\n",
    ),
    (
        "a listed mark beside drawn ones",
        "prrt 1\nmarks 5\nmark 1 1\n",
        "line 3 kind 6 Repeat\n",
    ),
    (
        "drawn marks beside a listed one",
        "prrt 1\nmark 1 1\nmarks 5\n",
        "line 3 kind 6 Repeat\n",
    ),
    (
        "a line of drawn marks without a number",
        "prrt 1\nmarks\n",
        "line 2 kind 3 Words\n",
    ),
    ("too few words", "prrt 1\nroom 5\n", "line 2 kind 3 Words\n"),
    (
        "a tab within a word",
        "prrt 1\nroom 5\t5\n",
        "line 2 kind 3 Words\n",
    ),
    (
        "a start below 0 in a room",
        "prrt 1\nroom 10 10\nstart -1 5\n",
        "line 3 kind 5 Range\n",
    ),
    (
        "a start with a leading zero",
        "prrt 1\nroom 10 10\nstart 05 5\n",
        "line 3 kind 4 Number\n",
    ),
    (
        "a start with one number",
        "prrt 1\nroom 10 10\nstart 5\n",
        "line 3 kind 3 Words\n",
    ),
    (
        "a carriage return",
        "prrt 1\r\nroom 5 5\r\n",
        "line 1 kind 1 Version\n",
    ),
];

#[test]
fn refuses_texts_with_line_and_kind(rt: HostRuntime) {
    expect_refused(&rt, rt.alloc(), &FAULTY);
}

static SHOWN: [Case; 4] = [
    Case {
        shows: "a comment, two spaces, and no last line feed",
        scene: "# a note\nprrt  1\nstep 4\ngoal 1 1 2 2\nstart 0 0\nroom 9 9",
        status: 0,
        text: "prrt 1\nroom 9 9\nbody 0 0\nstart 0 0\ngoal 1 1 2 2\nstep 4\ngamma 0\nseed 0\nstrips 1\n",
        run: None,
    },
    Case {
        shows: "listed marks",
        scene: "prrt 1\nseed 7\nmark 3 4\nstrips 5\ngamma 6\nroom 9 9\nstart 0 0\ngoal 1 1 2 2\nstep 4\nmark 1 2\n",
        status: 0,
        text: "prrt 1\nroom 9 9\nbody 0 0\nstart 0 0\ngoal 1 1 2 2\nstep 4\ngamma 6\nseed 7\nstrips 5\nmark 3 4\nmark 1 2\n",
        run: None,
    },
    Case {
        shows: "drawn marks",
        scene: "prrt 1\nmarks 5\nroom 9 9\nstart 0 0\ngoal 1 1 2 2\nstep 4\n",
        status: 0,
        text: "prrt 1\nroom 9 9\nbody 0 0\nstart 0 0\ngoal 1 1 2 2\nstep 4\ngamma 0\nseed 0\nstrips 1\nmarks 5\n",
        run: None,
    },
    Case {
        shows: "a body and two obstacles",
        scene: "prrt 1\nstep 4\ngoal 1 1 2 2\nobstacle 5 5 6 5 6 6\nstart 0 0\nroom 9 9\nobstacle -1 -1 0 -1 -1 0\nbody -1 0 1 0 0 1\n",
        status: 0,
        text: "prrt 1\nroom 9 9\nbody -1 0 1 0 0 1\nobstacle 5 5 6 5 6 6\nobstacle -1 -1 0 -1 -1 0\nstart 0 0\ngoal 1 1 2 2\nstep 4\n\
               gamma 0\nseed 0\nstrips 1\n",
        run: None,
    },
];

#[test]
fn shows_scenes(rt: HostRuntime) {
    expect_each(&rt, rt.alloc(), &["show"], &SHOWN);
}

// What a call for words has done over a source whose reads would fail, of which there is none.
fn call_unread<R: Threads + Sync + Wait + RandomSource + AllocGlobal + Clone + Drop + Abort>(
    rt: &R,
    alloc: Global,
    words: &[&str],
) -> Called {
    let called = call(rt, alloc, words, "prrt 1\n", 10, 1);
    expect_number(rt, called.read_faults, 0, "nothing read");
    called
}

static NO_COMMAND: Case = Case {
    shows: "words that ask for nothing",
    scene: ONE_MARK,
    status: 2,
    text: "words refused\n",
    run: None,
};

// Compares the refusal of words over a scene, and over a source whose reads would fail, of which there is none.
fn expect_words_refused<
    R: Threads + Sync + Wait + RandomSource + AllocGlobal + Clone + Drop + Abort,
>(rt: &R, alloc: Global, words: &[&str]) {
    expect(rt, alloc, words, &NO_COMMAND);
    let called = call_unread(rt, alloc, words);
    expect_answer(rt, words, &called, &NO_COMMAND);
    drop(called);
}

// The same of each form of words.
fn expect_each_refused<
    R: Threads + Sync + Wait + RandomSource + AllocGlobal + Clone + Drop + Abort,
>(rt: &R, alloc: Global, forms: &[&[&str]]) {
    for words in forms {
        expect_words_refused(rt, alloc, words);
    }
}

static NO_COMMANDS: [&[&str]; 52] = [
    &[],
    &["plain full"],
    &["plain  full"],
    &["plain", "full", "full"],
    &["plain", "Full"],
    &["full"],
    &["full", "plain"],
    &["show", "full"],
    &["gen", "0", "full"],
    &["trial", "3", "full"],
    &["show", "show"],
    &["Show"],
    &["convert", "full"],
    &["Convert"],
    &["gen"],
    &["gen", "10000"],
    &["gen", "01"],
    &["gen", "-1"],
    &["gen", "-0"],
    &["gen", ""],
    &["gen", "1", "2"],
    &["trial", "x"],
    &["smooth"],
    &["smooth", "0"],
    &["smooth", "65"],
    &["smooth", "04"],
    &["smooth", "2", "full"],
    &["anytime"],
    &["anytime", "1"],
    &["anytime", "1", "0"],
    &["anytime", "1", "262144"],
    &["anytime", "0", "1"],
    &["anytime", "65", "1"],
    &["anytime", "1", "01"],
    &["anytime", "1", "full"],
    &["anytime", "1", "1", "full"],
    &["Anytime", "1", "1"],
    &["twin"],
    &["twin", "0"],
    &["twin", "65"],
    &["twin", "01"],
    &["twin", "1", "full"],
    &["batch"],
    &["batch", "1"],
    &["batch", "1", "0"],
    &["batch", "1", "262144"],
    &["batch", "0", "1"],
    &["batch", "65", "1"],
    &["batch", "1", "1", "full"],
    &["Batch", "1", "1"],
    &["check", "full"],
    &["Check"],
];

static OUTSIDE: Case = Case {
    shows: "a start outside the room",
    scene: BLOCKED_START,
    status: 4,
    text: "start blocked\n",
    run: None,
};

#[test]
fn refuses_with_the_cause(rt: HostRuntime) {
    expect_each_refused(&rt, rt.alloc(), &NO_COMMANDS);
    expect(&rt, rt.alloc(), &["plain"], &OUTSIDE);
}

mod anytime;
mod batches;
mod calls;
mod checks;
mod cut_texts;
mod faults;
mod full_reports;
mod generated_scenes;
mod informed;
mod limits;
mod plans;
mod runs;
mod second_version;
mod smoothed;
mod twins;
