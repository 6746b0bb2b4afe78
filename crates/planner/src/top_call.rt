//! The top call: everything that the program does, over any source and any sink.

ghost use Rattle.std.specs.Prelude.{◌≡◌, ◌≢◌, ◌↔◌, false, map, string_bytes, IfNone, IfSome, IsNone, Option};
ghost use Rattle.plan_model.specs.Texts.Streams.{SourceState};
ghost use Rattle.planner.specs.Conclusions.{Answers, Asks, HandsOutNothing};
ghost use Rattle.planner.specs.Commands.{command_of, waits};
ghost use Rattle.planner.specs.Endings.{HasConcluded};
ghost use Rattle.planner.specs.Inputs.{IsWrittenWhole, IsCutShort};
ghost use Rattle.planner.specs.declared.commands.Command.{Command};

use crate::answers::{Answer, answer_by_waiting, answer_without_waiting};
use crate::refusals::Refusal;
use crate::statuses::WRITE_FAULT;
use any_time::{BetterLists, Growns};
use plan_model::{Sequence, Sink, Source};
use plan_work::Gate;
use settle_report::deliver;
use std::alloc::{AllocGlobal, Global};
use std::random::RandomSource;
use std::sync::Wait;
use std::thread::Threads;
use step_core::Grown;
use twin_trees::Twin;

/// What the program has done.
#[derive(Drop)]
pub struct Done {
    /// The status that it ends with: one of `statuses`.
    pub status: u8,
    /// The run that was reported: of the scene that was read or generated, over all its marks. `None` for commands that plan
    /// nothing, for `twin W` and `batch W S`, which hand out theirs below, and for refusals.
    pub run: Option<Grown>,
    /// The two runs that were reported, with the bridge between them; `None` for all commands but `twin W`, and for refusals.
    pub twin: Option<Twin>,
    /// The runs of a batch, in the order of its scenes; none for other commands and for refusals.
    pub batch: Growns,
    /// The better paths, in a list for each scene that is planned slice by slice; no list for other commands and for refusals.
    pub better: BetterLists,
}

impl Done {
    /// What is done with this status if nothing is handed out beside it. Every other `Done` is this one with what it hands out
    /// put in.
    pub(crate) fn with_status(alloc: Global, status: u8) -> Done
        ensures status { result.status ≡ status }
        ensures nothing { HandsOutNothing result }
    {
        Done {
            status,
            run: None,
            twin: None,
            batch: Sequence::from_vec(Vec::new(alloc)),
            better: Sequence::from_vec(Vec::new(alloc)),
        }
    }
}

/// Does as the words say:
///
/// - `plain` reads a scene from the source, plans it by textbook RRT* (Karaman and Frazzoli, IJRR 2011), and writes the short
///   report to the sink. `plain full` writes the full report.
/// - `plan W` and `plan W full` do the same, but `W` workers grow the run, each in a thread of its own if one can be made.
///   The gate is told of their turns.
/// - `anytime W S` does as `plan W` does, but grows the run by `S` marks at a time. It writes a line for each better path, before the
///   short report. `batch W S` does so for each of several scenes, between whose texts lines `next` stand, in turn. Both wait under an
///   executor, and nothing says that the call returns; for all other words [`run_without_waiting`] does it.
/// - `smooth W` does as `plan W` does, and writes the short report along the smoothed path: the cheapest choice of points of the best one.
/// - `twin W` grows two trees of the scene so, one from each end, and writes the path over the cheapest bridge between them with the
///   counts of both.
/// - `check` reads a scene, a line `report`, and a full report, and writes whether it is the report of a lawful run of the scene, or the
///   least law that is broken and the first line that breaks it.
/// - `show` reads a scene and writes its canonical text. `convert` writes that of the scene in version 2.
/// - `gen N` reads nothing and writes the canonical text of a generated scene.
/// - `trial N` reads nothing, plans a generated scene as `plain` does, and writes the report without the points of its path.
///
/// The text is made whole before anything is written. With each status but `WRITE_FAULT` the sink took the whole of it; with
/// `WRITE_FAULT` the sink failed, and took a proper prefix of it. The run that was reported is handed out even so.
///
/// The words are those after the program's name, and the source has not given its end. Other words are refused with
/// `WORDS_REFUSED`. Unless they ask for a command that reads a scene, nothing is read; else the source may have been read, in
/// part or to its end, whatever the status. `docs/report-format.md`, "Statuses", has what each status means, and
/// `docs/proved.md`, "Answers and their causes", when each comes.
pub fn run<
    R: Threads + Sync + Wait + RandomSource + AllocGlobal + Clone + Drop,
    S: Source,
    K: Sink,
    G: Gate,
>(rt: &R, alloc: Global, words: &[String], source: &mut S, sink: &mut K, gate: &G) -> Done
    requires { (S.state source.old).has_ended ≡ false }
    ensures { HasConcluded (command_of (map string_bytes words.now)) (S.state source.old) (S.state source.new)
        (K.state sink.old) (K.state sink.new) result }
{
    match run_without_waiting(rt, alloc, words, source, sink, gate) {
        Some(done) => done,
        None => conclude(alloc, sink, answer_by_waiting(rt, alloc, words, source)),
    }
}

/// Does as [`run`] does, but for words that ask for `anytime W S` or `batch W S`: for these it does nothing, and gives `None`.
///
/// Its type gives no right to wait. So it returns, if the source, the sink and the gate do.
pub fn run_without_waiting<R: Threads + Sync, S: Source, K: Sink, G: Gate>(
    rt: &R,
    alloc: Global,
    words: &[String],
    source: &mut S,
    sink: &mut K,
    gate: &G,
) -> Option<Done>
    requires { (S.state source.old).has_ended ≡ false }
    ensures done { IfSome result (HasConcluded (command_of (map string_bytes words.now)) (S.state source.old) (S.state source.new)
        (K.state sink.old) (K.state sink.new)) }
    ensures none { IsNone result ↔ Asks waits (command_of (map string_bytes words.now)) }
    ensures untouched { IfNone result ((source.new ≡ source.old) × (sink.new ≡ sink.old)) }
{
    let answer = answer_without_waiting(rt, alloc, words, source, gate)?;
    Some(conclude(alloc, sink, answer))
}

/// Writes what is answered: the text of an answer, or the line of a refusal.
fn conclude<K: Sink>(alloc: Global, sink: &mut K, answer: Result<Answer, Refusal>) -> Done
    requires { (asked : Option Command) × (before : SourceState) × (now : SourceState) × Answers asked before now answer }
    ensures { (asked : Option Command) (before now : SourceState) → Answers asked before now answer
        → HasConcluded asked before now (K.state sink.old) (K.state sink.new) result }
{
    match answer {
        Ok(Answer { done, text }) => write_out(sink, &text, done),
        Err(refusal) => {
            let done = Done::with_status(alloc, refusal.status());
            write_out(sink, refusal.line().as_bytes(), done)
        }
    }
}

/// Writes the text of an answer. Its status becomes `WRITE_FAULT` if the sink fails.
fn write_out<K: Sink>(sink: &mut K, text: &[u8], done: Done) -> Done
    requires { done.status ≢ WRITE_FAULT }
    ensures done { result.status ≢ WRITE_FAULT → (result ≡ done) × IsWrittenWhole (K.state sink.old) (K.state sink.new) text.now }
    ensures cut { result.status ≡ WRITE_FAULT → (record result { status = done.status } ≡ done)
        × IsCutShort (K.state sink.old) (K.state sink.new) text.now }
{
    match deliver(sink, text) {
        Ok(()) => done,
        Err(_) => Done {
            status: WRITE_FAULT,
            ..done
        },
    }
}
