//! A session that is watched until its end.

ghost use Rattle.std.specs.Prelude.{◌≡◌, ℕ, IfSome, IsSome, IsSomeAnd};
ghost use Rattle.path_watch.specs.Watching.{HandsEnd, Refuses, Watches, status_of_ending};
ghost use Rattle.planner.specs.Endings.{IsSessionOf};
ghost use Rattle.plan_model.specs.Trees.TreeStates.{IsSettled};
ghost use Rattle.plan_model.specs.declared.scenes.Scene.{Scene};
ghost use Rattle.grown_runs.specs.Runs.GrownRuns.{state_of_grown};

use crate::blocks::end_text;
use crate::handing::{Handed, Step, hand_next};
use crate::progress::Progress;
use any_time::{Growing, Session};
use plan_model::Sink;
use planner::Refusal;
use planner::statuses::{DONE, NO_PATH, WRITE_FAULT};
use settle_report::{best, deliver};
use std::alloc::{AllocGlobal, Global};
use std::random::RandomSource;
use std::sync::Wait;
use std::thread::Threads;
use step_core::Grown;
use swept_check::Clearing;

/// How watching ends.
#[derive(Drop)]
pub enum Ending {
    /// All blocks and the end are written.
    Ended {
        /// The run, settled, over all marks.
        run: Grown,
        /// Whether some node of it lies in a goal.
        has_path: bool,
    },
    /// The sink failed in the block of the item that this run gave, or in the end.
    Cut(Grown),
    /// The line of the refusal is written in place of what is missing: `Memory` perhaps after blocks.
    Refused(Refusal),
    /// The sink failed in that line.
    CutRefusal(Refusal),
}

impl Ending {
    /// The status that the program ends with.
    pub fn status(&self) -> u8
        ensures { result ≡ status_of_ending self.now }
    {
        match self {
            Ending::Ended { has_path: true, .. } => DONE,
            Ending::Ended {
                has_path: false,
                ..
            } => NO_PATH,
            Ending::Refused(refusal) => refusal.status(),
            Ending::Cut(_) | Ending::CutRefusal(_) => WRITE_FAULT,
        }
    }
}

/// Watches a session until its end: each better path is handed to the sink as it comes, as [`hand_next`] does, and at last the
/// [`end_text`]. After a write that fails nothing more is written. The session has handled nothing yet. It takes what the session takes,
/// and O(n) for n marks and the points of all paths.
///
/// It waits under an executor: what it promises holds if it returns.
pub fn watch_session<
    C: Growing + Drop,
    R: Threads + Sync + Wait + RandomSource + AllocGlobal + Drop,
    K: Sink,
    P: Progress,
>(rt: &R, alloc: Global, session: Session<C, R>, sink: &mut K, progress: &P) -> Ending
    requires { (workers : ℕ) × (slice : ℕ) × (scene : Scene) × IsSessionOf workers slice scene session }
    ensures { (workers slice : ℕ) (scene : Scene) → IsSessionOf workers slice scene session
        → Watches workers slice scene (K.state sink.old) (K.state sink.new) result }
{
    let mut session = session;
    for _ in rt.forever() {
        let Ok(handed) = hand_next(rt, alloc, session, sink, progress) else {
            progress.ends();
            return refuse(sink, Refusal::Memory);
        };
        match handed.step {
            Step::Given(_) => session = handed.session,
            Step::Cut(_) => return cut_at(handed.session),
            Step::Over => {
                progress.ends();
                return hand_end(alloc, handed.session, sink);
            }
        }
    }
    unreachable!()
}

/// The ending of a session whose last block was cut.
fn cut_at<C: Clearing + Drop, R: Drop>(session: Session<C, R>) -> Ending
    requires { IsSome session.run }
    ensures { IsSomeAnd session.run (λ run. result ≡ Ending.Cut run) }
{
    match session.finish() {
        Some(run) => Ending::Cut(run),
        None => unreachable!(),
    }
}

/// Hands the end to the sink.
fn hand_end<C: Clearing + Drop, R: Drop, K: Sink>(
    alloc: Global,
    session: Session<C, R>,
    sink: &mut K,
) -> Ending
    requires { IsSomeAnd session.run (λ run. IsSettled (state_of_grown run)) }
    ensures { IsSomeAnd session.run (λ run. HandsEnd (K.state sink.old) (K.state sink.new) run result) }
{
    let Some(run) = session.finish() else {
        unreachable!()
    };
    let best = best(&run);
    let Ok(text) = end_text(alloc, &run, best) else {
        return refuse(sink, Refusal::Memory);
    };
    match deliver(sink, &text) {
        Ok(()) => Ending::Ended {
            run,
            has_path: best.is_some(),
        },
        Err(_) => Ending::Cut(run),
    }
}

/// Hands the line of a refusal to the sink.
pub(crate) fn refuse<K: Sink>(sink: &mut K, refusal: Refusal) -> Ending
    ensures { Refuses (K.state sink.old) (K.state sink.new) refusal result }
{
    match deliver(sink, refusal.line().as_bytes()) {
        Ok(()) => Ending::Refused(refusal),
        Err(_) => Ending::CutRefusal(refusal),
    }
}
