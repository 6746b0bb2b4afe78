//! Which calls hand out a run, and of how many nodes and marks.

use super::plans::expect_whole;
use super::*;

const ON_NODE: &str =
    "prrt 1\nroom 100 100\nstart 0 0\ngoal 30 40 30 40\nstep 100\nmark 30 40\nmark 30 40\n";

const PAST_STEP: &str =
    "prrt 1\nroom 100 100\nstart 0 0\ngoal 90 90 99 99\nstep 50\nmark 60 80\nmark 150 80\nmark 60 80\n";

const IN_GOAL: &str = "prrt 1\nroom 10 10\nstart 5 5\ngoal 0 0 9 9\nstep 4\n";

const NO_MARK: &str = "prrt 1\nroom 10 10\nstart 5 5\ngoal 0 0 1 1\nstep 4\n";

// Words, the text that is read, the status, and how many nodes and marks the run has, if one is handed out.
static RUNS: [(&[&str], &str, u8, Option<(u32, u32)>); 18] = [
    (&["plain"], ON_NODE, 0, Some((2, 2))),
    (&["plain"], PAST_STEP, 1, Some((4, 3))),
    (&["plain"], NO_MARK, 1, Some((1, 0))),
    (&["plain", "full"], ON_NODE, 0, Some((2, 2))),
    (&["plain", "full"], PAST_STEP, 1, Some((4, 3))),
    (&["plain", "full"], NO_MARK, 1, Some((1, 0))),
    (&["smooth", "1"], ON_NODE, 0, Some((2, 2))),
    (&["smooth", "1"], PAST_STEP, 1, Some((4, 3))),
    (&["show"], IN_GOAL, 0, None),
    (&["convert"], IN_GOAL, 0, None),
    (&["gen", "7"], IN_GOAL, 0, None),
    (&["full"], IN_GOAL, 2, None),
    (&["plain"], "prrt 3\n", 3, None),
    (&["plain", "full"], "prrt 1\n", 3, None),
    (&["show"], "prrt 1\n", 3, None),
    (&["convert"], "prrt 2\n", 3, None),
    (&["plain"], BLOCKED_START, 4, None),
    (&["plain", "full"], BLOCKED_START, 4, None),
];

// Compares the status of a call over the scene of a case, and the run that it hands out.
fn expect_end<R: Threads + Sync + Wait + RandomSource + AllocGlobal + Clone + Drop + Abort>(
    rt: &R,
    alloc: Global,
    words: &[&str],
    case: &Case,
) {
    let called = call(rt, alloc, words, case.scene, 1 << 24, 0);
    expect_ended(rt, &called, case);
    drop(called);
}

#[test]
fn hands_out_the_run_that_is_reported(rt: HostRuntime) {
    for (words, scene, status, run) in &RUNS {
        let case = Case {
            shows: "a run",
            scene,
            status: *status,
            text: "",
            run: *run,
        };
        expect_end(&rt, rt.alloc(), words, &case);
    }
}

#[test]
fn hands_out_the_run_of_a_trial(rt: HostRuntime) {
    let words = ["trial", "0"];
    let called = call(&rt, rt.alloc(), &words, "", 1 << 24, 0);
    expect_that(&rt, called.status() <= 1, "a path or none");
    expect_whole(&rt, rt.alloc(), &called, 2000, false);
    drop(called);
}
