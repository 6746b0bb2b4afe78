//! Whole calls over a source or a sink that fails.

use super::*;

// Compares the refusal of a text one of whose reads fails, in pieces of at most so many bytes.
fn expect_read_fault<R: Threads + Sync + Wait + RandomSource + AllocGlobal + Clone + Drop + Abort>(
    rt: &R,
    alloc: Global,
    words: &[&str],
    most: usize,
    fails: u32,
    case: &Case,
) {
    let called = call(rt, alloc, words, case.scene, most, fails);
    expect_answer(rt, words, &called, case);
    expect_number(rt, called.read_faults, 1, case.shows);
    drop(called);
}

// Compares the refusals of a text one of whose reads fails, in pieces of at most so many bytes. Each such read is told by
// what it shows.
fn expect_read_faults<R: Threads + Sync + Wait + RandomSource + AllocGlobal + Clone + Drop + Abort>(
    rt: &R,
    alloc: Global,
    words: &[&str],
    scene: &str,
    most: usize,
    faults: &[(u32, &str)],
) {
    for (fails, shows) in faults {
        let case = Case {
            shows,
            scene,
            status: 5,
            text: "read fault\n",
            run: None,
        };
        expect_read_fault(rt, alloc, words, most, *fails, &case);
    }
}

// The last bytes of the small scene come at read 7, and read 8 would give its end.
static EARLY: [(u32, &str); 8] = [
    (1, "read 1 fails"),
    (2, "read 2 fails"),
    (3, "read 3 fails"),
    (4, "read 4 fails"),
    (5, "read 5 fails"),
    (6, "read 6 fails"),
    (7, "read 7 fails"),
    (8, "read 8 fails"),
];

// The same of a small scene, at each of its reads.
pub fn expect_early_faults<
    R: Threads + Sync + Wait + RandomSource + AllocGlobal + Clone + Drop + Abort,
>(rt: &R, alloc: Global, words: &[&str]) {
    expect_read_faults(rt, alloc, words, ONE_MARK, 10, &EARLY);
}

static READING: [&[&str]; 9] = [
    &["plain"],
    &["plain", "full"],
    &["smooth", "1"],
    &["anytime", "1", "1"],
    &["twin", "1"],
    &["batch", "1", "1"],
    &["check"],
    &["show"],
    &["convert"],
];

#[test]
fn refuses_a_source_that_fails_early(rt: HostRuntime) {
    for form in READING {
        expect_early_faults(&rt, rt.alloc(), form);
    }
}

static LATE: [(u32, &str); 4] = [
    (100, "read 100 fails"),
    (169, "read 169 fails"),
    (170, "read 170 fails"),
    (171, "read 171 fails"),
];

// Compares the answers over a source that fails at one of its last reads, and over one that is never asked for the read that
// would fail: the last bytes come at call 170, and call 171 gives the end.
fn expect_late_faults<R: Threads + Sync + Wait + RandomSource + AllocGlobal + Clone + Drop + Abort>(
    rt: &R,
    alloc: Global,
    words: &[&str],
    text: &str,
) {
    expect_read_faults(rt, alloc, words, text, 100, &LATE);
    let called = call(rt, alloc, words, text, 100, 172);
    expect_number(rt, called.read_faults, 0, "no read fails");
    expect_number(rt, called.status(), 0, "no read fails");
    drop(called);
}

#[test]
fn refuses_a_source_that_fails_late(rt: HostRuntime) {
    let scene = "prrt 1\nroom 1500 10\nstart 0 0\ngoal 1500 0 1500 0\nstep 4\n";
    let text = numbered(&rt, rt.alloc(), scene, "mark ", (1, 1500), "");
    expect_that(&rt, text.len() == 16_949, "the length of the text");
    expect_late_faults(&rt, rt.alloc(), &["plain"], &text);
    expect_late_faults(&rt, rt.alloc(), &["plan", "1"], &text);
    expect_late_faults(&rt, rt.alloc(), &["show"], &text);
    drop(text);
}

// What is taken by a sink that fails at one of its writes, and how many nodes and marks the run has that is handed out even
// so, if one is.
#[derive(Clone, Copy)]
struct Cut<'a> {
    words: &'a [&'a str],
    fails: u32,
    taken: &'a str,
    run: Option<(u32, u32)>,
}

// Compares what such a sink takes, which has room for so many bytes, and the run that is handed out even so.
fn expect_cut<R: Threads + Sync + Wait + RandomSource + AllocGlobal + Clone + Drop + Abort>(
    rt: &R,
    alloc: Global,
    room: usize,
    cut: &Cut,
) {
    let sink = sure(rt, MemSink::new(alloc, room, 10, &[cut.fails]));
    let called = call_into(rt, alloc, cut.words, at_once(ONE_MARK), sink, &NoGate);
    let case = Case {
        shows: "a write fails",
        scene: ONE_MARK,
        status: 6,
        text: cut.taken,
        run: cut.run,
    };
    expect_answer(rt, cut.words, &called, &case);
    expect_number(rt, called.sink.faults(), 1, "a write fails");
    drop(called);
}

static CUTS: [Cut; 17] = [
    Cut {
        words: &["plain", "full"],
        fails: 1,
        taken: "",
        run: Some((2, 1)),
    },
    Cut {
        words: &["plain", "full"],
        fails: 3,
        taken: "path 2 cost 12800\n0 ",
        run: Some((2, 1)),
    },
    Cut {
        words: &["plan", "2"],
        fails: 1,
        taken: "",
        run: Some((2, 1)),
    },
    Cut {
        words: &["plan", "2"],
        fails: 2,
        taken: "path 2 cos",
        run: Some((2, 1)),
    },
    Cut {
        words: &["plan", "1", "full"],
        fails: 3,
        taken: "path 2 cost 12800\n0 ",
        run: Some((2, 1)),
    },
    Cut {
        words: &["smooth", "1"],
        fails: 3,
        taken: "path 2 cost 12800\n0 ",
        run: Some((2, 1)),
    },
    Cut {
        words: &["anytime", "1", "1"],
        fails: 1,
        taken: "",
        run: Some((2, 1)),
    },
    Cut {
        words: &["anytime", "1", "1"],
        fails: 3,
        taken: "better 12800 marks 1",
        run: Some((2, 1)),
    },
    Cut {
        words: &["twin", "1"],
        fails: 3,
        taken: "path 2 cost 12800\n0 ",
        run: None,
    },
    Cut {
        words: &["batch", "1", "1"],
        fails: 3,
        taken: "scene 0\nbetter 12800",
        run: None,
    },
    Cut {
        words: &["check"],
        fails: 3,
        taken: "line 7 kind 9 Missin",
        run: None,
    },
    Cut {
        words: &["show"],
        fails: 3,
        taken: "prrt 1\nroom 100 100\n",
        run: None,
    },
    Cut {
        words: &["show"],
        fails: 1,
        taken: "",
        run: None,
    },
    Cut {
        words: &["convert"],
        fails: 3,
        taken: "prrt 2\nroom 100 100\n",
        run: None,
    },
    Cut {
        words: &["gen", "0"],
        fails: 2,
        taken: "prrt 1\nroo",
        run: None,
    },
    Cut {
        words: &["words"],
        fails: 2,
        taken: "words refu",
        run: None,
    },
    Cut {
        words: &["words"],
        fails: 1,
        taken: "",
        run: None,
    },
];

// A run that was reported is handed out whether or not its report could be written; it has two nodes and one mark.
#[test]
fn keeps_a_prefix_if_the_sink_fails(rt: HostRuntime) {
    for cut in &CUTS {
        expect_cut(&rt, rt.alloc(), 1000, cut);
    }
}

// The room of a sink, the write that fails (0: none, until there is no room left), and what is taken of the report, which has
// 62 bytes.
static TAKEN: [(usize, u32, &str); 8] = [
    (1000, 1, ""),
    (1000, 2, "path 2 cos"),
    (1000, 3, "path 2 cost 12800\n0 "),
    (1000, 4, "path 2 cost 12800\n0 0\n30 40\nno"),
    (1000, 5, "path 2 cost 12800\n0 0\n30 40\nnodes 2 plac"),
    (
        1000,
        6,
        "path 2 cost 12800\n0 0\n30 40\nnodes 2 placed 1 same ",
    ),
    (
        1000,
        7,
        "path 2 cost 12800\n0 0\n30 40\nnodes 2 placed 1 same 0 blocked ",
    ),
    (25, 0, "path 2 cost 12800\n0 0\n30 "),
];

// At each of its writes, and where the room ends.
#[test]
fn a_report_is_taken_up_to_the_write_that_fails(rt: HostRuntime) {
    for (room, fails, taken) in &TAKEN {
        let cut = Cut {
            words: &["plain"],
            fails: *fails,
            taken,
            run: Some((2, 1)),
        };
        expect_cut(&rt, rt.alloc(), *room, &cut);
    }
}
