//! The code that the program ends with, by all words of its command line.

use crate::support::{expect_text, expect_that, given_words, sure, text_in};
use plan_model::{MemSink, SureSource};
use planner::exit_code;
use std::alloc::{AllocGlobal, Global};
use std::env::Args;
use std::io;
use std::process::{Abort, ExitCode};
use std::random::RandomSource;
use std::sync::Wait;
use std::thread::Threads;

const ONE_MARK: &str = "prrt 1\nroom 100 100\nstart 0 0\ngoal 30 40 30 40\nstep 100\nmark 30 40\n";

const NO_MARK: &str = "prrt 1\nroom 10 10\nstart 5 5\ngoal 0 0 1 1\nstep 4\n";

// The code that the program ends with on this scene and these arguments over this sink.
fn code_on<R: Threads + Sync + Wait + RandomSource + AllocGlobal + Clone + Drop + Abort>(
    rt: &R,
    alloc: Global,
    scene: &str,
    args: io::Result<Args>,
    sink: &mut MemSink,
) -> ExitCode {
    let mut source = sure(rt, SureSource::new(alloc, scene.as_bytes()));
    let code = exit_code(rt, alloc, args, &mut source, sink);
    drop(source);
    code
}

// Compares that code, and the text that is written.
fn expect<R: Threads + Sync + Wait + RandomSource + AllocGlobal + Clone + Drop + Abort>(
    rt: &R,
    alloc: Global,
    scene: &str,
    args: io::Result<Args>,
    code: u8,
    text: &str,
) {
    let mut sink = sure(rt, MemSink::new(alloc, 1000, 1000, &[]));
    let ended = code_on(rt, alloc, scene, args, &mut sink);
    expect_text(rt, &[], text_in(&sink), text, "what is written");
    expect_that(rt, ended == ExitCode::from(code), text);
    drop(sink);
}

static CODES: [(&str, &[&str], u8, &str); 7] = [
    (
        ONE_MARK,
        &["prrt", "plain"],
        0,
        "path 2 cost 12800\n0 0\n30 40\nnodes 2 placed 1 same 0 blocked 0\n",
    ),
    (
        NO_MARK,
        &["prrt", "plain"],
        1,
        "no path\nnodes 1 placed 0 same 0 blocked 0\n",
    ),
    (
        NO_MARK,
        &["prrt", "plain", "full"],
        1,
        "no path\nnodes 1 placed 0 same 0 blocked 0\nnode 0 at 5 5 parent 0 cost 0\n",
    ),
    (NO_MARK, &["plain"], 2, "words refused\n"),
    (
        NO_MARK,
        &["prrt", "plain", "full", "full"],
        2,
        "words refused\n",
    ),
    (NO_MARK, &["plain", "show", "show"], 2, "words refused\n"),
    (NO_MARK, &[], 2, "words refused\n"),
];

#[test]
fn ends_by_all_words_after_the_name(rt: HostRuntime) {
    for (scene, words, code, text) in &CODES {
        let args = given_words(&rt, rt.alloc(), words).into_iter();
        expect(&rt, rt.alloc(), scene, Ok(args), *code, text);
    }
}

#[test]
fn ends_without_words(rt: HostRuntime) {
    let no_memory = io::Error::from(io::ErrorKind::OutOfMemory);
    expect(&rt, rt.alloc(), NO_MARK, Err(no_memory), 7, "");
    let no_text = io::Error::from(io::ErrorKind::InvalidData);
    let refused = "words refused\n";
    expect(&rt, rt.alloc(), NO_MARK, Err(no_text), 2, refused);
}
