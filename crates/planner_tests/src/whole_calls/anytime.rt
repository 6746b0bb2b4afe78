//! Whole calls that give better paths as they come.

use super::*;
use std::io;

// Three marks: the goal is reached by the second, and the third gives it a cheaper way.
const REWIRED_ONCE: &str =
    "prrt 1\nroom 100 100\nstart 0 0\ngoal 40 79 40 79\nstep 50\ngamma 1000\nmark 0 50\nmark 40 79\nmark 40 30\n";

// Five marks: the last one gives the goal a still cheaper way.
const REWIRED_TWICE: &str =
    "prrt 1\nroom 100 100\nstart 0 0\ngoal 40 79 40 79\nstep 50\ngamma 1000\n\
    mark 0 50\nmark 40 79\nmark 40 30\nmark 5 90\nmark 20 40\n";

// Words, and what is answered to them: how many better paths there are, and the whole text.
struct Sliced<'a> {
    slice: &'a str,
    items: u64,
    text: &'a str,
}

static OF_THREE_MARKS: [Sliced; 2] = [
    Sliced {
        slice: "1",
        items: 2,
        text: "better 25449 marks 2\nbetter 25344 marks 3\npath 3 cost 25344\n0 0\n40 30\n40 79\nnodes 4 placed 3 same 0 blocked 0\n",
    },
    Sliced {
        slice: "3",
        items: 1,
        text: "better 25344 marks 3\npath 3 cost 25344\n0 0\n40 30\n40 79\nnodes 4 placed 3 same 0 blocked 0\n",
    },
];

static OF_FIVE_MARKS: [Sliced; 5] = [
    Sliced {
        slice: "1",
        items: 3,
        text: "better 25449 marks 2\nbetter 25344 marks 3\nbetter 22670 marks 5\npath 3 cost 22670\n0 0\n20 40\n40 79\n\
               nodes 6 placed 5 same 0 blocked 0\n",
    },
    Sliced {
        slice: "2",
        items: 3,
        text: "better 25449 marks 2\nbetter 25344 marks 4\nbetter 22670 marks 5\npath 3 cost 22670\n0 0\n20 40\n40 79\n\
               nodes 6 placed 5 same 0 blocked 0\n",
    },
    Sliced {
        slice: "3",
        items: 2,
        text: "better 25344 marks 3\nbetter 22670 marks 5\npath 3 cost 22670\n0 0\n20 40\n40 79\nnodes 6 placed 5 same 0 blocked 0\n",
    },
    Sliced {
        slice: "4",
        items: 2,
        text: "better 25344 marks 4\nbetter 22670 marks 5\npath 3 cost 22670\n0 0\n20 40\n40 79\nnodes 6 placed 5 same 0 blocked 0\n",
    },
    Sliced {
        slice: "262143",
        items: 1,
        text: "better 22670 marks 5\npath 3 cost 22670\n0 0\n20 40\n40 79\nnodes 6 placed 5 same 0 blocked 0\n",
    },
];

// The marks of the first scene and the last of them once more, which is skipped.
static INFORMED: Case = Case {
    shows: "an informed scene, with a mark that is skipped",
    scene: "prrt 2\nroom 100 100\nstart 0 0\ngoal 40 79 40 79\nstep 50\ngamma 1000\ninformed 1\nmark 0 50\nmark 40 79\nmark 40 30\n\
            mark 40 30\n",
    status: 0,
    text: "better 25449 marks 2\nbetter 25344 marks 3\npath 3 cost 25344\n0 0\n40 30\n40 79\n\
           nodes 4 placed 3 same 0 blocked 0 skipped 1\n",
    run: Some((4, 4)),
};

#[test]
fn gives_better_paths_of_an_informed_scene(rt: HostRuntime) {
    expect_sliced(&rt, rt.alloc(), "1", "1", &INFORMED, 2);
}

// Compares the lists of better paths that a call has handed out, and all paths in them.
pub fn expect_lists<R: Abort>(rt: &R, called: &Called, lists: u64, items: u64, shows: &str) {
    expect_number(rt, called.ended.lists, lists, shows);
    expect_number(rt, called.ended.items, items, shows);
}

// Compares the answer to `anytime` by so many workers with slices of one size.
fn expect_sliced<R: Threads + Sync + Wait + RandomSource + AllocGlobal + Clone + Drop + Abort>(
    rt: &R,
    alloc: Global,
    workers: &str,
    slice: &str,
    case: &Case,
    items: u64,
) {
    let words = ["anytime", workers, slice];
    expect(rt, alloc, &words, case);
    let called = call(rt, alloc, &words, case.scene, 1 << 16, 0);
    expect_lists(rt, &called, 1, items, case.shows);
    drop(called);
}

// Compares what one worker gives with slices of each size.
fn expect_each_sliced<R: Threads + Sync + Wait + RandomSource + AllocGlobal + Clone + Drop + Abort>(
    rt: &R,
    alloc: Global,
    scene: &str,
    run: (u32, u32),
    cases: &[Sliced],
) {
    for sliced in cases {
        let case = Case {
            shows: sliced.slice,
            scene,
            status: 0,
            text: sliced.text,
            run: Some(run),
        };
        expect_sliced(rt, alloc, "1", sliced.slice, &case, sliced.items);
    }
}

#[test]
fn gives_each_better_path_of_a_slice(rt: HostRuntime) {
    expect_each_sliced(&rt, rt.alloc(), REWIRED_ONCE, (4, 3), &OF_THREE_MARKS);
    expect_each_sliced(&rt, rt.alloc(), REWIRED_TWICE, (6, 5), &OF_FIVE_MARKS);
}

static IN_THE_GOAL: Case = Case {
    shows: "a start in the goal, before any mark",
    scene: "prrt 1\nroom 10 10\nstart 5 5\ngoal 0 0 9 9\nstep 4\n",
    status: 0,
    text: "better 0 marks 0\npath 1 cost 0\n5 5\nnodes 1 placed 0 same 0 blocked 0\n",
    run: Some((1, 0)),
};

static WITHOUT_PATH: Case = Case {
    shows: "no path, and so no better one",
    scene: "prrt 1\nroom 100 100\nstart 0 0\ngoal 90 90 99 99\nstep 50\nmark 60 80\n",
    status: 1,
    text: "no path\nnodes 2 placed 1 same 0 blocked 0\n",
    run: Some((2, 1)),
};

#[test]
fn gives_the_same_by_any_workers_on_scenes_of_one_tree(rt: HostRuntime) {
    for workers in ["1", "4", "64"] {
        expect_sliced(&rt, rt.alloc(), workers, "7", &IN_THE_GOAL, 1);
        expect_sliced(&rt, rt.alloc(), workers, "1", &WITHOUT_PATH, 0);
    }
}

// Other commands, and refusals, hand out no list.
#[test]
fn hands_out_no_list_for_others(rt: HostRuntime) {
    for words in [
        ["plan", "1"],
        ["smooth", "1"],
        ["gen", "1"],
        ["anytime", "1"],
        ["batch", "1"],
    ] {
        let called = call(&rt, rt.alloc(), &words, ONE_MARK, 1 << 16, 0);
        expect_lists(&rt, &called, 0, 0, "no list");
        drop(called);
    }
    let blocked = call(
        &rt,
        rt.alloc(),
        &["anytime", "1", "1"],
        BLOCKED_START,
        1 << 16,
        0,
    );
    expect_lists(&rt, &blocked, 0, 0, "no list");
    drop(blocked);
}

// A runtime that has no random numbers, so that no executor can be made.
#[derive(Clone, Drop)]
struct NoExecutor<R> {
    rt: R,
}

impl<R: Threads> Threads for NoExecutor<R> {}

impl<R: Wait> Wait for NoExecutor<R> {}

impl<R: Alloc<A = Global>> Alloc for NoExecutor<R> {
    type A = Global;

    fn alloc(&self) -> Global {
        self.rt.alloc()
    }
}

impl<R> RandomSource for NoExecutor<R> {
    fn fill_bytes(&self, _buf: &mut [u8]) -> io::Result<()> {
        Err(io::Error::other("no random numbers"))
    }
}

// Compares the answer to words that wait under an executor, by a runtime that makes none.
fn expect_no_executor<
    R: Abort,
    N: Threads + Sync + Wait + RandomSource + AllocGlobal + Clone + Drop,
>(rt: &R, refusing: &N, alloc: Global, words: &[&str]) {
    let given = given_words(rt, alloc, words);
    let source = MemSource::new(alloc, ONE_MARK.as_bytes(), 1000, &[]);
    let (mut source, mut sink) = (
        sure(rt, source),
        sure(rt, MemSink::new(alloc, 1000, 1000, &[])),
    );
    let done = run(refusing, alloc, &given, &mut source, &mut sink, &NoGate);
    expect_number(rt, u64::from(done.status), 7, "no executor");
    expect_text(rt, words, text_in(&sink), "no memory\n", "no executor");
    drop(done);
    drop(sink);
    drop(source);
    drop(given);
}

#[test]
fn a_refused_executor_is_want_of_memory(rt: HostRuntime) -> Result<(), Fail> {
    let refusing = NoExecutor { rt: rt.clone()? };
    expect_no_executor(&rt, &refusing, rt.alloc(), &["anytime", "1", "1"]);
    expect_no_executor(&rt, &refusing, rt.alloc(), &["batch", "1", "1"]);
    Ok(())
}
