//! Everything that the program `plan_watch` does, over any source and any sink.

ghost use Rattle.std.specs.Prelude.{◌≡◌, ◌≤◌, ◌⊎◌, false, length, map, string_bytes, IfErr, IfOk, Some, IfSome};
ghost use Rattle.std.specs.Process.{exit_status};
ghost use Rattle.plan_model.specs.Scenes.MarkPoints.{mark_points};
ghost use Rattle.plan_model.specs.declared.limits.TheConstants.{MOST_MARKS};
ghost use Rattle.any_time.specs.Sessions.{IsFresh};
ghost use Rattle.scene_text.specs.Fetching.{ReadsWithin};
ghost use Rattle.planner.specs.Commands.{words_after_name, AreNoText, IsOutOfMemory};
ghost use Rattle.planner.specs.Conclusions.{IsCaused};
ghost use Rattle.planner.specs.Inputs.{IsUnread, IsUnwritten};
ghost use Rattle.planner.specs.declared.statuses.TheConstants.{NO_MEMORY, WORDS_REFUSED, WRITE_FAULT};
ghost use Rattle.path_watch.specs.Watching.{HasWatched, IsAskedSession, status_of_ending};
ghost use Rattle.path_watch.specs.WatchWords as spec;
ghost use Rattle.path_watch.specs.declared.watch_words.Orders.{Orders};
ghost use Rattle.path_watch.specs.declared.watching.Ending.{Ending};

use crate::progress::Progress;
use crate::watch_words::{Orders, orders_of};
use crate::watching::{Ending, refuse, watch_session};
use any_time::Session;
use obstacle_boxes::Boxes;
use plan_model::{Memory, Sink, Source, Task};
use planner::statuses::NO_MEMORY;
use planner::{Problem, Refusal, problem_in, words_after_name};
use scene_text::fetch;
use std::alloc::{AllocGlobal, Global};
use std::env::Args;
use std::io;
use std::process::ExitCode;
use std::random::RandomSource;
use std::sync::Wait;
use std::thread::Threads;

/// Runs the program on the arguments that `env::args` gives, and returns the code that it ends with: the status of [`watch`]. Arguments
/// that are no text are refused as words, unless the sink fails. If the program is out of memory for the words, the code is that of
/// want of memory, and nothing is read or written. The source has not given its end.
pub fn exit_code<
    R: Threads + Sync + Wait + RandomSource + AllocGlobal + Clone + Drop,
    S: Source,
    K: Sink,
    P: Progress,
>(
    rt: &R,
    alloc: Global,
    args: io::Result<Args>,
    source: &mut S,
    sink: &mut K,
    progress: &P,
) -> ExitCode
    requires { (S.state source.old).has_ended ≡ false }
    // out of memory for the words, and then nothing is read or written; or what `watch` does for them
    ensures done { ((exit_status result ≡ NO_MEMORY) × IsUnread (S.state source.old) (S.state source.new)
        × IsUnwritten (K.state sink.old) (K.state sink.new))
        ⊎ ((ending : Ending) × (exit_status result ≡ status_of_ending ending) × HasWatched (spec.orders_of (words_after_name args))
        (S.state source.old) (S.state source.new) (K.state sink.old) (K.state sink.new) ending) }
    ensures no_words { IsOutOfMemory args → exit_status result ≡ NO_MEMORY }
    // arguments that are no text are refused as words, whatever memory there is, unless the sink fails
    ensures no_text { AreNoText args → (exit_status result ≡ WORDS_REFUSED) ⊎ (exit_status result ≡ WRITE_FAULT) }
{
    match words_after_name(alloc, args) {
        Ok(words) => ExitCode::from(watch(rt, alloc, &words, source, sink, progress).status()),
        Err(_) => ExitCode::from(NO_MEMORY),
    }
}

/// Reads a scene from the source, and watches a session of it by as many workers and as many marks at a time as the words say, which are
/// those after the program's name: `W` or `W S`. What is refused, and how, is as by `plan W`: `planner::run` says it. The source has not
/// given its end.
///
/// It waits under an executor: what it promises holds if it returns.
pub fn watch<
    R: Threads + Sync + Wait + RandomSource + AllocGlobal + Clone + Drop,
    S: Source,
    K: Sink,
    P: Progress,
>(rt: &R, alloc: Global, words: &[String], source: &mut S, sink: &mut K, progress: &P) -> Ending
    requires { (S.state source.old).has_ended ≡ false }
    ensures { HasWatched (spec.orders_of (map string_bytes words.now)) (S.state source.old) (S.state source.new)
        (K.state sink.old) (K.state sink.new) result }
{
    let Some(orders) = orders_of(words) else {
        return refuse(sink, Refusal::Words);
    };
    match asked_session(rt, alloc, orders, source, progress) {
        Ok(session) => watch_session(rt, alloc, session, sink, progress),
        Err(refusal) => refuse(sink, refusal),
    }
}

/// A session of the scene that is read, which has handled nothing yet.
fn asked_session<R: Threads + Sync + Clone + Drop, S: Source, P: Progress>(
    rt: &R,
    alloc: Global,
    orders: Orders,
    source: &mut S,
    progress: &P,
) -> Result<Session<Boxes, R>, Refusal>
    requires slice { IfSome orders.slice (λ slice. 1 ≤ slice) }
    requires unended { (S.state source.old).has_ended ≡ false }
    ensures session { IfOk result (IsAskedSession orders (S.state source.old) (S.state source.new)) }
    ensures refusal { IfErr result (IsCaused (spec.as_plan (Some orders)) (S.state source.old) (S.state source.new)) }
    ensures within { ReadsWithin (S.state source.old).bytes_left (S.state source.new).bytes_left }
{
    let text = fetch(alloc, source)?;
    let problem = problem_in(alloc, &text)?;
    let session = fresh_session(rt, alloc, orders, problem, progress)?;
    Ok(session)
}

/// A session of a problem, which has handled nothing yet.
fn fresh_session<R: Threads + Sync + Clone + Drop, P: Progress>(
    rt: &R,
    alloc: Global,
    orders: Orders,
    problem: Problem,
    progress: &P,
) -> Result<Session<Boxes, R>, Memory>
    requires { IfSome orders.slice (λ slice. 1 ≤ slice) }
    ensures { IfOk result (IsFresh problem.task orders.workers (spec.slice_by orders.slice (length (mark_points problem.task.scene)))) }
{
    let Problem { task, boxes } = problem;
    let marks = mark_count(&task);
    let slice = orders.slice_of(marks);
    let session = Session::new(rt.clone()?, alloc, task, boxes, orders.workers.get(), slice)?;
    progress.begins(marks, slice);
    Ok(session)
}

/// How many marks a task has.
fn mark_count(task: &Task) -> u32
    ensures value { result ≡ length (mark_points task.now.scene) }
    ensures most { result ≤ MOST_MARKS }
{
    task.marks.len() as u32
}
