//! Whole calls at the limits of what a text may hold.

use super::plans::{expect_whole, lines_with};
use super::*;

// These lines, then one so many times, and then these lines.
fn repeated<R: Abort>(
    rt: &R,
    alloc: Global,
    head: &str,
    line: &str,
    times: u32,
    tail: &str,
) -> String {
    let mut text = sure(rt, copied(alloc, head));
    for _ in 0..times {
        sure(rt, push_text(&mut text, line));
    }
    sure(rt, push_text(&mut text, tail));
    text
}

// A long scene, which has a line so many times between others and is read in pieces of at most so many bytes; and what is to
// be answered to it: a text, and after that the line so many times.
struct Long<'a> {
    words: &'a [&'a str],
    most: usize,
    head: &'a str,
    line: &'a str,
    times: u32,
    tail: &'a str,
    status: u8,
    text: &'a str,
    shown: u32,
    run: Option<(u32, u32)>,
}

// Compares the answer to such a scene.
fn expect_long<R: Threads + Sync + Wait + RandomSource + AllocGlobal + Clone + Drop + Abort>(
    rt: &R,
    alloc: Global,
    long: &Long,
) {
    let scene = repeated(rt, alloc, long.head, long.line, long.times, long.tail);
    let text = repeated(rt, alloc, long.text, long.line, long.shown, "");
    let case = Case {
        shows: "a long scene",
        scene: &scene,
        status: long.status,
        text: &text,
        run: long.run,
    };
    expect_by_pieces(rt, alloc, long.words, long.most, &case);
    drop(scene);
    drop(text);
}

// The same of each scene.
fn expect_each_long<R: Threads + Sync + Wait + RandomSource + AllocGlobal + Clone + Drop + Abort>(
    rt: &R,
    alloc: Global,
    longs: &[Long],
) {
    for long in longs {
        expect_long(rt, alloc, long);
    }
}

// As many corners as a body and an obstacle may have, on a parabola. The zone goes from -39 to 39, and from -64 to 1,024.
const MOST_CORNERS: &str = "\
    prrt 1\n\
    room 65535 65535\n\
    body -8 64 -7 49 -6 36 -5 25 -4 16 -3 9 -2 4 -1 1 0 0 1 1 2 4 3 9 4 16 5 25 6 36 7 49\n";

const PARABOLA: &str = "\
    obstacle -32 1024 -31 961 -30 900 -29 841 -28 784 -27 729 -26 676 -25 625 -24 576 -23 529 -22 484 \
    -21 441 -20 400 -19 361 -18 324 -17 289 -16 256 -15 225 -14 196 -13 169 -12 144 -11 121 -10 100 \
    -9 81 -8 64 -7 49 -6 36 -5 25 -4 16 -3 9 -2 4 -1 1 0 0 1 1 2 4 3 9 4 16 5 25 6 36 7 49 8 64 9 81 \
    10 100 11 121 12 144 13 169 14 196 15 225 16 256 17 289 18 324 19 361 20 400 21 441 22 484 23 529 \
    24 576 25 625 26 676 27 729 28 784 29 841 30 900 31 961\n";

static OBSTACLES: [Long; 3] = [
    Long {
        words: &["plain"],
        most: 65_536,
        head: "prrt 1\nroom 100 100\n",
        line: "obstacle 40 0 60 0 60 60\n",
        times: 1_024,
        tail: "start 0 0\ngoal 0 0 0 0\nstep 4\n",
        status: 0,
        text: "path 1 cost 0\n0 0\nnodes 1 placed 0 same 0 blocked 0\n",
        shown: 0,
        run: Some((1, 0)),
    },
    Long {
        words: &["plain"],
        most: 65_536,
        head: "prrt 1\nroom 100 100\n",
        line: "obstacle 40 0 60 0 60 60\n",
        times: 1_025,
        tail: "start 0 0\ngoal 0 0 0 0\nstep 4\n",
        status: 3,
        text: "line 1027 kind 8 Many\n",
        shown: 0,
        run: None,
    },
    Long {
        words: &["plan", "1"],
        most: 65_536,
        head: MOST_CORNERS,
        line: PARABOLA,
        times: 1_024,
        tail: "start 100 0\ngoal 20 2000 20 2000\nstep 4096\nmark 100 2000\nmark 20 2000\nmark 20 500\n",
        status: 0,
        text: "path 3 cost 532480\n100 0\n100 2000\n20 2000\nnodes 3 placed 2 same 0 blocked 1\n",
        shown: 0,
        run: Some((3, 3)),
    },
];

#[test]
fn plans_among_as_many_obstacles_as_there_may_be(rt: HostRuntime) {
    expect_each_long(&rt, rt.alloc(), &OBSTACLES);
}

static MARKS_SHOWN: [Long; 2] = [
    Long {
        words: &["show"],
        most: 65_536,
        head: "prrt 1\nroom 9 9\nstart 0 0\ngoal 1 1 2 2\nstep 4\n",
        line: "mark 0 0\n",
        times: 262_143,
        tail: "",
        status: 0,
        text: "prrt 1\nroom 9 9\nbody 0 0\nstart 0 0\ngoal 1 1 2 2\nstep 4\ngamma 0\nseed 0\nstrips 1\n",
        shown: 262_143,
        run: None,
    },
    Long {
        words: &["show"],
        most: 65_536,
        head: "prrt 1\nroom 9 9\nstart 0 0\ngoal 1 1 2 2\nstep 4\n",
        line: "mark 0 0\n",
        times: 262_144,
        tail: "",
        status: 3,
        text: "line 262149 kind 8 Many\n",
        shown: 0,
        run: None,
    },
];

#[test]
fn shows_as_many_marks_as_there_may_be(rt: HostRuntime) {
    expect_each_long(&rt, rt.alloc(), &MARKS_SHOWN);
}

// All marks lie on the start, or on one of the four points of the room.
static MARKS_PLANNED: [Long; 2] = [
    Long {
        words: &["plain"],
        most: 65_536,
        head: "prrt 1\nroom 9 9\nstart 0 0\ngoal 1 1 2 2\nstep 4\ngamma 9\n",
        line: "mark 0 0\n",
        times: 262_143,
        tail: "",
        status: 1,
        text: "no path\nnodes 1 placed 0 same 262143 blocked 0\n",
        shown: 0,
        run: Some((1, 262_143)),
    },
    Long {
        words: &["plain"],
        most: 65_536,
        head: MOST_DRAWN_MARKS,
        line: "",
        times: 0,
        tail: "",
        status: 0,
        text: "path 2 cost 363\n0 0\n1 1\nnodes 4 placed 3 same 262140 blocked 0\n",
        shown: 0,
        run: Some((4, 262_143)),
    },
];

#[test]
fn plans_over_as_many_marks_as_there_may_be(rt: HostRuntime) {
    expect_each_long(&rt, rt.alloc(), &MARKS_PLANNED);
}

// As many drawn marks as there may be, in the largest room and from as many strips as there may be.
const MARKS_IN_LARGEST_ROOM: &str = "\
    prrt 1\n\
    room 65535 65535\n\
    start 0 0\n\
    goal 65535 65535 65535 65535\n\
    step 4096\n\
    strips 64\n\
    marks 262143\n";

#[test]
fn workers_handle_as_many_marks_as_there_may_be(rt: HostRuntime) {
    let words = ["plan", "4"];
    let called = call(&rt, rt.alloc(), &words, MARKS_IN_LARGEST_ROOM, 1 << 16, 0);
    expect_that(&rt, called.status() <= 1, "a path or none");
    expect_whole(&rt, rt.alloc(), &called, 262_143, false);
    expect_that(&rt, called.text().ends_with(" blocked 0\n"), "none blocked");
    drop(called);
}

// Compares the lines of a full report of a run over so many marks: each node has one, and each mark.
fn expect_lines<R: Abort>(rt: &R, called: &Called, marks: u64) {
    let nodes = u64::from(called.ended.run.nodes);
    expect_number(rt, lines_with(called.text(), "node "), nodes, "nodes");
    expect_number(rt, lines_with(called.text(), "mark "), marks, "marks");
}

// The report has some 30 MB.
#[test]
fn as_many_workers_as_there_may_be_report_as_many_marks(rt: HostRuntime) {
    let words = ["plan", "64", "full"];
    let sink = sure(&rt, MemSink::new(rt.alloc(), 1 << 26, 1 << 24, &[]));
    let scene = MARKS_IN_LARGEST_ROOM;
    let called = call_into(&rt, rt.alloc(), &words, at_once(scene), sink, &NoGate);
    expect_whole(&rt, rt.alloc(), &called, 262_143, true);
    expect_lines(&rt, &called, 262_143);
    drop(called);
}

// 64 bytes of a comment: 262,144 times that are as many bytes as a text may have.
const COMMENT: &str = "################################################################";

// Comments alone are no scene, as their first line that is none is missing.
static COMMENTS: [Long; 5] = [
    Long {
        words: &["show"],
        most: 16_777_216,
        head: "",
        line: COMMENT,
        times: 262_144,
        tail: "",
        status: 3,
        text: "line 2 kind 1 Version\n",
        shown: 0,
        run: None,
    },
    Long {
        words: &["show"],
        most: 5_000,
        head: "",
        line: COMMENT,
        times: 262_144,
        tail: "",
        status: 3,
        text: "line 2 kind 1 Version\n",
        shown: 0,
        run: None,
    },
    Long {
        words: &["show"],
        most: 16_777_216,
        head: "",
        line: COMMENT,
        times: 262_144,
        tail: "#",
        status: 3,
        text: "text too long\n",
        shown: 0,
        run: None,
    },
    Long {
        words: &["show"],
        most: 5_000,
        head: "",
        line: COMMENT,
        times: 262_144,
        tail: "#",
        status: 3,
        text: "text too long\n",
        shown: 0,
        run: None,
    },
    Long {
        words: &["plain", "full"],
        most: 16_777_216,
        head: "",
        line: COMMENT,
        times: 262_144,
        tail: "#",
        status: 3,
        text: "text too long\n",
        shown: 0,
        run: None,
    },
];

#[test]
fn reads_as_many_bytes_as_there_may_be(rt: HostRuntime) {
    expect_each_long(&rt, rt.alloc(), &COMMENTS);
}

// The small scene, and a comment that fills the text up to as many bytes as there may be, or to one more.
static FILLED_UP: [Long; 3] = [
    Long {
        words: &["plan", "2"],
        most: 16_777_216,
        head: ONE_MARK,
        line: COMMENT,
        times: 262_142,
        tail: "#############################################################",
        status: 0,
        text: "path 2 cost 12800\n0 0\n30 40\nnodes 2 placed 1 same 0 blocked 0\n",
        shown: 0,
        run: Some((2, 1)),
    },
    Long {
        words: &["plan", "2"],
        most: 16_777_216,
        head: ONE_MARK,
        line: COMMENT,
        times: 262_142,
        tail: "##############################################################",
        status: 3,
        text: "text too long\n",
        shown: 0,
        run: None,
    },
    Long {
        words: &["plan", "64", "full"],
        most: 5_000,
        head: ONE_MARK,
        line: COMMENT,
        times: 262_142,
        tail: "##############################################################",
        status: 3,
        text: "text too long\n",
        shown: 0,
        run: None,
    },
];

#[test]
fn plans_a_scene_of_as_many_bytes_as_there_may_be(rt: HostRuntime) {
    expect_each_long(&rt, rt.alloc(), &FILLED_UP);
}
