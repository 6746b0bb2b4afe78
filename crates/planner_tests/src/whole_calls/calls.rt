//! Calls over a source and a sink in memory, and comparisons of what they have done.

ghost use Rattle.std.specs.Prelude.{◌≡◌, false};

use super::*;

// What is counted in a run that a call has handed out. All is 0 if it handed out none: a run has its start at least.
#[derive(Clone, Copy)]
pub struct Run {
    pub nodes: u32,
    pub marks: u32,
    // How many marks were placed, ended at a node, and were blocked.
    pub outcomes: [u32; 3],
    // The greatest number of a worker that has handled a mark.
    pub greatest_worker: u32,
    // The records of the first two marks, if there are two.
    pub first_two: Option<(Record, Record)>,
}

const NO_RUN: Run = Run {
    nodes: 0,
    marks: 0,
    outcomes: [0; 3],
    greatest_worker: 0,
    first_two: None,
};

// What is counted in the two runs of a scene that a call has handed out, and the bridge between them.
#[derive(Clone, Copy)]
pub struct Both {
    pub from_start: Run,
    pub from_goal: Run,
    pub bridge: Option<(u32, u32)>,
}

// How a call has ended: with which status, with which run or which two runs, with how many runs of a batch, and with how many lists of
// better paths and paths in them.
#[derive(Clone, Copy)]
pub struct Ended {
    pub status: u8,
    pub run: Run,
    pub twin: Option<Both>,
    pub batch: u64,
    pub lists: u64,
    pub items: u64,
}

// What a call has done: how it ended, how many of its reads failed, and the sink with what it has written.
#[derive(Drop)]
pub struct Called {
    pub ended: Ended,
    pub read_faults: u64,
    pub sink: MemSink,
}

impl Called {
    // What it has written.
    pub fn text(&self) -> &str {
        text_in(&self.sink)
    }

    // The status that it ended with.
    pub fn status(&self) -> u64 {
        u64::from(self.ended.status)
    }
}

// Compares the status and the run of a call with those of a case.
pub fn expect_ended<R: Abort>(rt: &R, called: &Called, case: &Case) {
    expect_number(rt, called.status(), u64::from(case.status), case.shows);
    let (nodes, marks) = case.run.unwrap_or((0, 0));
    expect_number(
        rt,
        u64::from(called.ended.run.nodes),
        u64::from(nodes),
        case.shows,
    );
    expect_number(
        rt,
        u64::from(called.ended.run.marks),
        u64::from(marks),
        case.shows,
    );
}

// The same, and the text.
pub fn expect_answer<R: Abort>(rt: &R, words: &[&str], called: &Called, case: &Case) {
    expect_text(rt, words, called.text(), case.text, case.shows);
    expect_ended(rt, called, case);
}

// How many marks of a run were placed, ended at a node, and were blocked.
fn outcomes(grown: &Grown) -> [u32; 3] {
    let (mut placed, mut same, mut blocked) = (0_u32, 0_u32, 0_u32);
    for mark in 0..grown.limit() {
        match grown.record_of(mark).outcome {
            Outcome::Placed => placed = placed.saturating_add(1),
            Outcome::Same(_) => same = same.saturating_add(1),
            Outcome::Blocked => blocked = blocked.saturating_add(1),
            Outcome::Skipped => {}
        }
    }
    [placed, same, blocked]
}

// The greatest number of a worker that has handled a mark of the run.
fn greatest_worker(grown: &Grown) -> u32 {
    let mut greatest = 0;
    for mark in 0..grown.limit() {
        let worker = grown.record_of(mark).worker;
        if worker > greatest {
            greatest = worker;
        }
    }
    greatest
}

// The records of the first two marks of a run, if it has two.
fn first_two(grown: &Grown) -> Option<(Record, Record)> {
    if grown.limit() < 2 {
        return None;
    }
    Some((grown.record_of(0), grown.record_of(1)))
}

// What is counted in a run.
fn counted(grown: &Grown) -> Run {
    Run {
        nodes: grown.count(),
        marks: grown.limit(),
        outcomes: outcomes(grown),
        greatest_worker: greatest_worker(grown),
        first_two: first_two(grown),
    }
}

// What is counted in two runs.
fn counted_both(twin: &Twin) -> Both {
    Both {
        from_start: counted(&twin.from_start),
        from_goal: counted(&twin.from_goal),
        bridge: twin.bridge,
    }
}

// How many better paths are in all lists.
fn items_in(lists: &BetterLists) -> u64 {
    let mut items = 0_u64;
    for list in lists.as_slice() {
        items = items.saturating_add(list.len() as u64);
    }
    items
}

// How a call has ended that has done this.
fn ending_of(done: &Done) -> Ended {
    Ended {
        status: done.status,
        run: match &done.run {
            Some(grown) => counted(grown),
            None => NO_RUN,
        },
        twin: match &done.twin {
            Some(twin) => Some(counted_both(twin)),
            None => None,
        },
        batch: done.batch.len() as u64,
        lists: done.better.len() as u64,
        items: items_in(&done.better),
    }
}

// How a call over this source and this sink ends. The gate is told of the turns of workers.
fn call_over<R: Threads + Sync + Wait + RandomSource + AllocGlobal + Clone + Drop + Abort, G: Gate>(
    rt: &R,
    alloc: Global,
    words: &[&str],
    source: &mut MemSource,
    sink: &mut MemSink,
    gate: &G,
) -> Ended
    requires { source.old.ended ≡ false }
{
    let given = given_words(rt, alloc, words);
    let done = run(rt, alloc, &given, source, sink, gate);
    drop(given);
    let ended = ending_of(&done);
    drop(done);
    ended
}

// A text as a source gives it: in pieces of at most so many bytes (of one byte at least), with a failure at one of its reads (0: at none).
#[derive(Clone, Copy)]
pub struct Input<'a> {
    pub text: &'a str,
    pub most: usize,
    pub fails: u32,
}

// The text in one piece, unless it is very long, with no failure.
pub fn at_once(text: &str) -> Input<'_> {
    Input {
        text,
        most: 1 << 16,
        fails: 0,
    }
}

// What a call has done over this input and this sink.
pub fn call_into<
    R: Threads + Sync + Wait + RandomSource + AllocGlobal + Clone + Drop + Abort,
    G: Gate,
>(rt: &R, alloc: Global, words: &[&str], input: Input<'_>, sink: MemSink, gate: &G) -> Called {
    let source = MemSource::new(
        alloc,
        input.text.as_bytes(),
        input.most.max(1),
        &[input.fails],
    );
    let (mut source, mut sink) = (sure(rt, source), sink);
    let ended = call_over(rt, alloc, words, &mut source, &mut sink, gate);
    let read_faults = source.faults();
    drop(source);
    Called {
        ended,
        read_faults,
        sink,
    }
}

// The same over a sink that does not fail.
pub fn call_with_gate<
    R: Threads + Sync + Wait + RandomSource + AllocGlobal + Clone + Drop + Abort,
    G: Gate,
>(rt: &R, alloc: Global, words: &[&str], input: Input<'_>, gate: &G) -> Called {
    let sink = sure(rt, MemSink::new(alloc, 1 << 24, 1 << 24, &[]));
    call_into(rt, alloc, words, input, sink, gate)
}

// The same through the gate that does nothing.
pub fn call<R: Threads + Sync + Wait + RandomSource + AllocGlobal + Clone + Drop + Abort>(
    rt: &R,
    alloc: Global,
    words: &[&str],
    text: &str,
    most: usize,
    fails: u32,
) -> Called {
    let input = Input { text, most, fails };
    call_with_gate(rt, alloc, words, input, &NoGate)
}
