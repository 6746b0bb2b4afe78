//! Whole calls that plan several scenes at once.

use super::anytime::expect_lists;
use super::*;

// What is answered to a text of several scenes: how many runs and how many better paths there are besides.
struct Several<'a> {
    case: Case<'a>,
    runs: u64,
    items: u64,
}

static SEVERAL: [Several; 4] = [
    Several {
        case: Case {
            shows: "a start in the goal, and a node that is rewired",
            scene: "prrt 1\nroom 10 10\nstart 5 5\ngoal 0 0 9 9\nstep 4\nnext\n\
                    prrt 1\nroom 100 100\nstart 0 0\ngoal 40 79 40 79\nstep 50\ngamma 1000\nmark 0 50\nmark 40 79\nmark 40 30\n",
            status: 0,
            text: "scene 0\nbetter 0 marks 0\npath 1 cost 0\n5 5\nnodes 1 placed 0 same 0 blocked 0\n\
                   scene 1\nbetter 25449 marks 2\nbetter 25344 marks 3\npath 3 cost 25344\n0 0\n40 30\n40 79\n\
                   nodes 4 placed 3 same 0 blocked 0\n",
            run: None,
        },
        runs: 2,
        items: 3,
    },
    Several {
        case: Case {
            shows: "no path in the first scene",
            scene: "prrt 1\nroom 100 100\nstart 0 0\ngoal 90 90 99 99\nstep 50\nmark 60 80\nnext\n\
                    prrt 1\nroom 100 100\nstart 0 0\ngoal 40 79 40 79\nstep 50\ngamma 1000\nmark 0 50\nmark 40 79\nmark 40 30\n",
            status: 1,
            text: "scene 0\nno path\nnodes 2 placed 1 same 0 blocked 0\n\
                   scene 1\nbetter 25449 marks 2\nbetter 25344 marks 3\npath 3 cost 25344\n0 0\n40 30\n40 79\n\
                   nodes 4 placed 3 same 0 blocked 0\n",
            run: None,
        },
        runs: 2,
        items: 2,
    },
    Several {
        case: Case {
            shows: "one scene",
            scene: ONE_MARK,
            status: 0,
            text: "scene 0\nbetter 12800 marks 1\npath 2 cost 12800\n0 0\n30 40\nnodes 2 placed 1 same 0 blocked 0\n",
            run: None,
        },
        runs: 1,
        items: 1,
    },
    Several {
        case: Case {
            shows: "a comment that says next, and no path in the last scene",
            scene: "prrt 1\nroom 10 10\nstart 5 5\ngoal 0 0 9 9\nstep 4\n# next\nnext\nprrt 1\nroom 10 10\nstart 5 5\ngoal 0 0 1 1\nstep 4\n",
            status: 1,
            text: "scene 0\nbetter 0 marks 0\npath 1 cost 0\n5 5\nnodes 1 placed 0 same 0 blocked 0\n\
                   scene 1\nno path\nnodes 1 placed 0 same 0 blocked 0\n",
            run: None,
        },
        runs: 2,
        items: 1,
    },
];

// Compares the runs and the better paths that a call has handed out.
fn expect_batch<R: Abort>(rt: &R, called: &Called, runs: u64, items: u64, shows: &str) {
    expect_lists(rt, called, runs, items, shows);
    expect_number(rt, called.ended.batch, runs, shows);
}

// Compares the answer to `batch` by so many workers with slices of one size.
fn expect_several<R: Threads + Sync + Wait + RandomSource + AllocGlobal + Clone + Drop + Abort>(
    rt: &R,
    alloc: Global,
    words: &[&str],
    several: &Several,
) {
    expect(rt, alloc, words, &several.case);
    let called = call(rt, alloc, words, several.case.scene, 1 << 16, 0);
    expect_batch(rt, &called, several.runs, several.items, several.case.shows);
    drop(called);
}

#[test]
fn plans_several_scenes(rt: HostRuntime) {
    for several in &SEVERAL {
        expect_several(&rt, rt.alloc(), &["batch", "1", "1"], several);
    }
}

// All marks at a time, by any workers, on scenes of one tree.
#[test]
fn plans_several_scenes_by_any_workers(rt: HostRuntime) {
    for words in [
        ["batch", "1", "262143"],
        ["batch", "4", "7"],
        ["batch", "64", "2"],
    ] {
        expect_several(&rt, rt.alloc(), &words, &SEVERAL[2]);
        expect_several(&rt, rt.alloc(), &words, &SEVERAL[3]);
    }
}

// A text of several scenes, its status and the line that tells the fault or that a start is not clear.
static REFUSED: [(&str, &str, u8, &str); 9] = [
    (
        "a version that does not exist, in the second scene",
        "prrt 1\nroom 10 10\nstart 5 5\ngoal 0 0 9 9\nstep 4\nnext\nprrt 3\n",
        3,
        "line 7 kind 1 Version\n",
    ),
    (
        "no line after the last next",
        "prrt 1\nroom 10 10\nstart 5 5\ngoal 0 0 9 9\nstep 4\nnext\n",
        3,
        "line 7 kind 1 Version\n",
    ),
    (
        "a goal that is missing in the first scene",
        "prrt 1\nroom 9 9\nstart 0 0\nstep 4\nnext\nprrt 1\nroom 10 10\nstart 5 5\ngoal 0 0 9 9\nstep 4\n",
        3,
        "line 5 kind 9 Missing\n",
    ),
    (
        "a goal that is missing in the last scene",
        "prrt 1\nroom 10 10\nstart 5 5\ngoal 0 0 9 9\nstep 4\nnext\nprrt 1\nroom 9 9\nstart 0 0\nstep 4\n",
        3,
        "line 11 kind 9 Missing\n",
    ),
    (
        "a line next with a space",
        "prrt 1\nroom 10 10\nstart 5 5\ngoal 0 0 9 9\nstep 4\nnext \nprrt 1\nroom 10 10\nstart 5 5\ngoal 0 0 9 9\nstep 4\n",
        3,
        "line 6 kind 2 Key\n",
    ),
    (
        "a fault after a scene whose start is not clear",
        "prrt 1\nroom 9 9\nobstacle 0 0 5 0 0 5\nstart 0 0\ngoal 9 9 9 9\nstep 4\nnext\nprrt 3\n",
        3,
        "line 8 kind 1 Version\n",
    ),
    (
        "a start that is not clear in the last scene",
        "prrt 1\nroom 10 10\nstart 5 5\ngoal 0 0 9 9\nstep 4\nnext\n\
         prrt 1\nroom 9 9\nobstacle 0 0 5 0 0 5\nstart 0 0\ngoal 9 9 9 9\nstep 4\n",
        4,
        "start blocked\n",
    ),
    (
        "a start that is not clear in the first scene",
        "prrt 1\nroom 9 9\nobstacle 0 0 5 0 0 5\nstart 0 0\ngoal 9 9 9 9\nstep 4\nnext\n\
         prrt 1\nroom 10 10\nstart 5 5\ngoal 0 0 9 9\nstep 4\n",
        4,
        "start blocked\n",
    ),
    ("no line", "", 3, "line 1 kind 1 Version\n"),
];

// Compares a refusal, with which neither a run nor a list is handed out.
fn expect_none<R: Threads + Sync + Wait + RandomSource + AllocGlobal + Clone + Drop + Abort>(
    rt: &R,
    alloc: Global,
    case: &Case,
) {
    let words = ["batch", "2", "1"];
    expect(rt, alloc, &words, case);
    let called = call(rt, alloc, &words, case.scene, 1 << 16, 0);
    expect_batch(rt, &called, 0, 0, case.shows);
    drop(called);
}

#[test]
fn refuses_several_scenes(rt: HostRuntime) {
    for (shows, scene, status, text) in &REFUSED {
        let case = Case {
            shows,
            scene,
            status: *status,
            text,
            run: None,
        };
        expect_none(&rt, rt.alloc(), &case);
    }
}

// A scene of five lines, whose start lies in its goal, and a line `next`.
const GOOD_AND_NEXT: &str = "prrt 1\nroom 10 10\nstart 5 5\ngoal 0 0 9 9\nstep 4\nnext\n";

// So many of these, and then other lines.
fn after_good<R: Abort>(rt: &R, alloc: Global, count: u32, tail: &str) -> String {
    let mut text = sure(rt, copied(alloc, ""));
    for _ in 0..count {
        sure(rt, push_text(&mut text, GOOD_AND_NEXT));
    }
    sure(rt, push_text(&mut text, tail));
    text
}

// How many good scenes come first, what comes after them, and the line that tells the fault.
static TOO_MANY: [(u32, &str, &str); 4] = [
    (64, "", "line 384 kind 8 Many\n"),
    (
        64,
        "prrt 1\nroom 10 10\nstart 5 5\ngoal 0 0 9 9\nstep 4\n",
        "line 384 kind 8 Many\n",
    ),
    (63, "", "line 379 kind 1 Version\n"),
    (
        63,
        "prrt 1\nroom 9 9\nstart 0 0\nstep 4\nnext\nx\n",
        "line 383 kind 9 Missing\n",
    ),
];

#[test]
fn refuses_too_many_scenes(rt: HostRuntime) {
    for (count, tail, line) in &TOO_MANY {
        let text = after_good(&rt, rt.alloc(), *count, tail);
        let case = Case {
            shows: line,
            scene: &text,
            status: 3,
            text: line,
            run: None,
        };
        expect_by_pieces(&rt, rt.alloc(), &["batch", "1", "1"], 1 << 16, &case);
        drop(text);
    }
}

// As many scenes as there may be.
#[test]
fn plans_the_most_scenes(rt: HostRuntime) {
    let good = "prrt 1\nroom 10 10\nstart 5 5\ngoal 0 0 9 9\nstep 4\n";
    let text = after_good(&rt, rt.alloc(), 63, good);
    let called = call(&rt, rt.alloc(), &["batch", "1", "1"], &text, 1 << 16, 0);
    expect_number(&rt, called.status(), 0, "as many as there may be");
    expect_batch(&rt, &called, 64, 64, "as many as there may be");
    expect_ends(
        &rt,
        called.text(),
        "scene 0\nbetter 0 marks 0\npath 1 cost 0\n5 5\nnodes 1 placed 0 same 0 blocked 0\nscene 1\n",
        "\nscene 63\nbetter 0 marks 0\npath 1 cost 0\n5 5\nnodes 1 placed 0 same 0 blocked 0\n",
    );
    drop(called);
    drop(text);
}
