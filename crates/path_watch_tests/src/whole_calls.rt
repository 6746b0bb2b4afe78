//! Whole calls: what is written, and the status.

use crate::support::{BLOCKS, expect_taken, given_words, sink_with, sure};
use path_watch::{NoProgress, exit_code, watch};
use plan_model::{MemSink, Sink, SureSource};
use std::alloc::{Alloc, AllocGlobal, Global};
use std::io;
use std::process::{Abort, ExitCode};
use std::random::RandomSource;
use std::sync::Wait;
use std::sync::atomic::{AtomicU32, Ordering};
use std::thread::Threads;

const REWIRED: &str =
    "prrt 1\nroom 100 100\nstart 0 0\ngoal 40 79 40 79\nstep 50\ngamma 1000\nmark 0 50\nmark 40 79\nmark 40 30\n";

/// All that is written of it, a mark at a time.
const WHOLE: &str = "better 25449 marks 2\npath 3 cost 25449\n0 0\n0 50\n40 79\n\n\
                     better 25344 marks 3\npath 3 cost 25344\n0 0\n40 30\n40 79\n\n\
                     nodes 4 placed 3 same 0 blocked 0\n";

const NO_PATH: &str = "prrt 1\nroom 100 100\nstart 0 0\ngoal 90 90 99 99\nstep 50\nmark 60 80\n";

const BLOCKED: &str =
    "prrt 1\nroom 10 10\nobstacle 4 4 6 4 6 6 4 6\nstart 5 5\ngoal 0 0 1 1\nstep 4\n";

/// The status of a call for these words on this scene, over this sink.
fn status_of<R: Threads + Sync + Wait + RandomSource + AllocGlobal + Clone + Drop, A: Abort>(
    rt: &R,
    own: &A,
    words: &[&str],
    scene: &str,
    sink: &mut MemSink,
) -> u8 {
    let alloc = rt.alloc();
    let given = given_words(own, alloc, words);
    let mut source = sure(own, SureSource::new(alloc, scene.as_bytes()));
    let ending = watch(rt, alloc, &given, &mut source, sink, &NoProgress);
    let status = ending.status();
    drop(ending);
    drop(source);
    drop(given);
    status
}

/// Words and a scene, the status, and what is written.
static CASES: [(&[&str], &str, u8, &str); 8] = [
    (&["1", "1"], REWIRED, 0, WHOLE),
    (&["1"], REWIRED, 0, WHOLE),
    (
        &["1", "262143"],
        REWIRED,
        0,
        "better 25344 marks 3\npath 3 cost 25344\n0 0\n40 30\n40 79\n\nnodes 4 placed 3 same 0 blocked 0\n",
    ),
    (
        &["64", "1"],
        NO_PATH,
        1,
        "no path\nnodes 2 placed 1 same 0 blocked 0\n",
    ),
    (&["1", "1"], BLOCKED, 4, "start blocked\n"),
    (&["1"], "prrt 0\n", 3, "line 1 kind 1 Version\n"),
    (&["65"], REWIRED, 2, "words refused\n"),
    (&["1", "1", "1"], REWIRED, 2, "words refused\n"),
];

#[test]
fn writes_each_block_and_the_end(rt: HostRuntime) {
    for (words, scene, status, text) in &CASES {
        let mut sink = sink_with(&rt, rt.alloc(), 1000, 1000, 0);
        let ended = status_of(&rt, &rt, words, scene, &mut sink);
        expect_taken(&rt, &sink, text, scene);
        assert_eq!(rt; ended, *status);
        drop(sink);
    }
}

/// Compares what is left of all texts in a sink that fails, and that it failed once.
fn expect_cut<R: Threads + Sync + Wait + RandomSource + AllocGlobal + Clone + Drop + Abort>(
    rt: &R,
    mut sink: MemSink,
    taken: usize,
) {
    let ended = status_of(rt, rt, &["1", "1"], REWIRED, &mut sink);
    assert!(rt; WHOLE.as_bytes().starts_with(sink.bytes()));
    assert_eq!(rt; sink.bytes().len(), taken);
    assert_eq!(rt; ended, 6);
    assert_eq!(rt; sink.faults(), 1);
    drop(sink);
}

/// A sink that is full, and one that fails, after each number of bytes.
#[test]
fn keeps_a_prefix_if_the_sink_fails_at_any_byte(rt: HostRuntime) {
    for taken in 0..WHOLE.len() {
        expect_cut(&rt, sink_with(&rt, rt.alloc(), taken, 1000, 0), taken);
        let call = (taken as u32).saturating_add(1);
        expect_cut(&rt, sink_with(&rt, rt.alloc(), 1000, 1, call), taken);
    }
}

/// A runtime whose random numbers come to an end, so that no executor can be made any more.
#[derive(Clone, Drop)]
struct FewExecutors<'a, R> {
    rt: R,
    left: &'a AtomicU32,
}

impl<R: Threads> Threads for FewExecutors<'_, R> {}

impl<R: Wait> Wait for FewExecutors<'_, R> {}

impl<R: Alloc<A = Global>> Alloc for FewExecutors<'_, R> {
    type A = Global;

    fn alloc(&self) -> Global {
        self.rt.alloc()
    }
}

impl<R: RandomSource> RandomSource for FewExecutors<'_, R> {
    fn fill_bytes(&self, buf: &mut [u8]) -> io::Result<()> {
        let left = self.left.load(Ordering::SeqCst);
        if left == 0 {
            return Err(io::Error::other("no random numbers"));
        }
        self.left.store(left - 1, Ordering::SeqCst);
        self.rt.fill_bytes(buf)
    }
}

/// What is written where the runtime has so many random numbers; an executor takes one.
static REFUSED: [(u32, &str); 3] = [
    (0, "no memory\n"),
    (
        1,
        "better 25449 marks 2\npath 3 cost 25449\n0 0\n0 50\n40 79\n\nno memory\n",
    ),
    (
        2,
        "better 25449 marks 2\npath 3 cost 25449\n0 0\n0 50\n40 79\n\n\
         better 25344 marks 3\npath 3 cost 25344\n0 0\n40 30\n40 79\n\nno memory\n",
    ),
];

#[test]
fn want_of_memory_is_told_after_the_blocks(rt: HostRuntime) {
    for (numbers, text) in &REFUSED {
        let left = AtomicU32::new(*numbers);
        let few = FewExecutors { rt, left: &left };
        let mut sink = sink_with(&rt, rt.alloc(), 1000, 1000, 0);
        let ended = status_of(&few, &rt, &["1", "1"], REWIRED, &mut sink);
        expect_taken(&rt, &sink, text, "few executors");
        assert_eq!(rt; ended, 7);
        drop(sink);
    }
}

#[test]
fn ends_without_words(rt: HostRuntime) {
    for (kind, status, text) in [
        (io::ErrorKind::OutOfMemory, 7, ""),
        (io::ErrorKind::InvalidData, 2, "words refused\n"),
    ] {
        let mut source = sure(&rt, SureSource::new(rt.alloc(), REWIRED.as_bytes()));
        let mut sink = sink_with(&rt, rt.alloc(), 1000, 1000, 0);
        let args = Err(io::Error::from(kind));
        let code = exit_code(&rt, rt.alloc(), args, &mut source, &mut sink, &NoProgress);
        assert!(rt; code == ExitCode::from(status));
        expect_taken(&rt, &sink, text, "no words");
        drop(sink);
        drop(source);
    }
}
