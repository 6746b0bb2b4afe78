//! What is to be written for several scenes at once.

ghost use Rattle.std.specs.Prelude.{◌≡◌, ◌≤◌, ◌<◌, ℕ, false, length, All, IfErr, IfNone, IfOk, IfSome, IsTrue, None, Some, [], get_or};
ghost use Rattle.std.specs.List.{list_all};
ghost use Rattle.any_time.specs.Sessions.{has_path};
ghost use Rattle.any_time.specs.BetterPaths.{batch_report};
ghost use Rattle.plan_model.specs.Spaces.Clearance.{ClearAt};
ghost use Rattle.plan_model.specs.Spaces.ConfigurationSpace.{space_of};
ghost use Rattle.plan_model.specs.Trees.TreeStates.{IsSettled};
ghost use Rattle.planner.specs.Endings.{HaveSessions, IsSessionOf};
ghost use Rattle.planner.specs.Commands.{input_of};
ghost use Rattle.planner.specs.Conclusions.{Answers, HandsOutNothing, HasBatch, IsCaused, status_of_report};
ghost use Rattle.planner.specs.Inputs.{AreStartsClear, several_scenes};
ghost use Rattle.scene_text.specs.Fetching.{ReadsWithin};
ghost use Rattle.grown_runs.specs.Runs.GrownRuns.{state_of_grown};

use crate::answers::Answer;
use crate::commands::Command;
use crate::problems::Problem;
use crate::refusals::Refusal;
use crate::statuses::{DONE, NO_PATH};
use crate::top_call::Done;
use crate::worker_counts::WorkerCount;
use any_time::{BatchReport, FinishedBatch, Session, batch_report, finish_batch};
use obstacle_boxes::Boxes;
use plan_model::{Memory, Scene, Source};
use scene_text::{fetch, read_batch};
use std::alloc::{AllocGlobal, Global};
use std::random::RandomSource;
use std::sync::Wait;
use std::thread::Threads;

/// Plans the scenes that are read by several workers, so many marks of each at a time, and reports of each the better paths as they
/// came, and its run in short. It waits under an executor.
pub fn plan_batch<R: Threads + Sync + Wait + RandomSource + AllocGlobal + Clone + Drop, S: Source>(
    rt: &R,
    alloc: Global,
    workers: WorkerCount,
    slice: u32,
    source: &mut S,
) -> Result<Answer, Refusal>
    requires slice { 1 ≤ slice }
    requires unended { (S.state source.old).has_ended ≡ false }
    ensures { Answers (Some (Command.Batch workers slice)) (S.state source.old) (S.state source.new) result }
{
    let scenes = scenes_for(alloc, Command::Batch { workers, slice }, source)?;
    let Some(sessions) = sessions_of(rt, alloc, workers, slice, scenes)? else {
        return Err(Refusal::StartBlocked);
    };
    let finished = finish_batch(rt, alloc, sessions)?;
    Ok(batch_report_of(alloc, finished)?)
}

/// The scenes that a command asks for, read from the source.
fn scenes_for<S: Source>(
    alloc: Global,
    command: Command,
    source: &mut S,
) -> Result<Vec<Scene>, Refusal>
    requires reads { input_of command ≡ several_scenes }
    requires unended { (S.state source.old).has_ended ≡ false }
    ensures scenes { IfOk result (λ scenes. HasBatch (S.state source.old) (S.state source.new) scenes.items) }
    ensures refusal { IfErr result (IsCaused (Some command) (S.state source.old) (S.state source.new)) }
    ensures within { ReadsWithin (S.state source.old).bytes_left (S.state source.new).bytes_left }
{
    let text = fetch(alloc, source)?;
    let scenes = read_batch(alloc, &text)?;
    Ok(scenes)
}

/// A session of each scene, which has handled nothing yet; none if a start is not clear. They are made in the order of the scenes.
fn sessions_of<R: Threads + Sync + Clone + Drop>(
    rt: &R,
    alloc: Global,
    workers: WorkerCount,
    slice: u32,
    scenes: Vec<Scene>,
) -> Result<Option<Vec<Session<Boxes, R>>>, Memory>
    requires slice { 1 ≤ slice }
    ensures blocked { IfOk result (λ sessions. IfNone sessions (¬ AreStartsClear scenes.items)) }
    ensures count { IfOk result (λ made. IfSome made (λ sessions. length sessions.items ≡ length scenes.items)) }
    ensures each { IfOk result (λ made. IfSome made (λ sessions. HaveSessions workers slice scenes.items sessions.items (length scenes.items))) }
{
    let mut sessions = Vec::new(alloc);
    for scene in scenes {
        let Some(session) = session_of(rt, alloc, workers, slice, scene)? else {
            return Ok(None);
        };
        sessions.push(session)?;
    }
    Ok(Some(sessions))
}

/// A session of a scene, which has handled nothing yet; none if the start is not clear.
fn session_of<R: Threads + Sync + Clone + Drop>(
    rt: &R,
    alloc: Global,
    workers: WorkerCount,
    slice: u32,
    scene: Scene,
) -> Result<Option<Session<Boxes, R>>, Memory>
    requires slice { 1 ≤ slice }
    ensures blocked { IfOk result (λ session. IfNone session (¬ ClearAt (space_of scene) scene.start)) }
    ensures session { IfOk result (λ made. IfSome made (IsSessionOf workers slice scene)) }
{
    let Some(problem) = Problem::if_start_clear(alloc, scene)? else {
        return Ok(None);
    };
    let Problem { task, boxes } = problem;
    let session = Session::new(rt.clone()?, alloc, task, boxes, workers.get(), slice)?;
    Ok(Some(session))
}

/// The answer that reports finished runs with their better paths.
fn batch_report_of(alloc: Global, finished: FinishedBatch) -> Result<Answer, Memory>
    requires count { length finished.better ≡ length finished.runs }
    requires settled { All (λ run. IsSettled (state_of_grown run)) finished.runs }
    ensures batch { IfOk result (λ answer. answer.done.batch ≡ finished.runs) }
    ensures better { IfOk result (λ answer. answer.done.better ≡ finished.better) }
    ensures status { IfOk result (λ answer. answer.done.status ≡ status_of_report (list_all has_path finished.runs)) }
    ensures text { IfOk result (λ answer. answer.text.items ≡ batch_report 0 finished.better finished.runs) }
    ensures alone { IfOk result (λ answer. HandsOutNothing (record answer.done { batch = []; better = [] })) }
{
    let FinishedBatch { runs, better } = finished;
    let BatchReport { text, has_paths } = batch_report(alloc, &better, &runs)?;
    let status = if has_paths { DONE } else { NO_PATH };
    let done = Done {
        batch: runs,
        better,
        ..Done::with_status(alloc, status)
    };
    Ok(Answer { done, text })
}
