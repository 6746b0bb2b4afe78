//! What is to be written for the words of the command line. Each command has a function that reads what it needs from
//! the source and makes the text of the answer.

ghost use Rattle.std.specs.Prelude.{◌≡◌, ◌≤◌, ◌<◌, ◌↔◌, ℕ, false, length, map, is_some, string_bytes};
ghost use Rattle.std.specs.Prelude.{IfOk, IfErr, IfNone, IfSome, IsNone, IsTrue, Err, None, Some, [], ◌∷◌};
ghost use Rattle.plan_model.specs.Spaces.ConfigurationSpace.{space_of};
ghost use Rattle.plan_model.specs.Spaces.Clearance.{ClearAt};
ghost use Rattle.plan_model.specs.declared.records.Record.{Record};
ghost use Rattle.plan_model.specs.Scenes.MarkPoints.{mark_points};
ghost use Rattle.plan_model.specs.Runs.Textbook.{IsOfTextbookRun, setup_of};
ghost use Rattle.plan_model.specs.Trees.TreeStates.{IsSettled};
ghost use Rattle.scene_text.specs.Fetching.{ReadsWithin};
ghost use Rattle.planner.specs.Commands.{command_of, input_of, plans, waits, IsNumbered};
ghost use Rattle.planner.specs.Conclusions.{Answers, Asks, HandsOutNothing, HandsOutRunAlone, HasScene, IsBetterReport, IsCaused, IsReport};
ghost use Rattle.planner.specs.Conclusions.{IsSummary, ReportsGrown, ReportsTwin, Succeeds, WritesScene, status_of_report};
ghost use Rattle.any_time.specs.BetterPaths.{AreBetterPaths};
ghost use Rattle.twin_trees.specs.Twins.{goal_middle, IsTwin};
ghost use Rattle.path_tools.specs.SmoothPaths.{IsSmoothedReport};
ghost use Rattle.planner.specs.Inputs.{one_scene};
ghost use Rattle.planner.specs.declared.generated_scenes.TheConstants.{MOST_GENERATED};
ghost use Rattle.planner.specs.declared.statuses.TheConstants.{DONE};
ghost use Rattle.grown_runs.specs.Runs.GrownRuns.{state_of_grown};

use crate::batches::plan_batch;
use crate::checking::check_report;
use crate::commands::{Command, command_of};
use crate::generated_scenes::gen_scene;
use crate::problems::Problem;
use crate::refusals::Refusal;
use crate::statuses::{DONE, NO_PATH};
use crate::top_call::Done;
use crate::worker_counts::WorkerCount;
use any_time::{FinishedSession, better_report, finish_session};
use obstacle_boxes::Boxes;
use path_tools::smoothed_report;
use plan_model::{Memory, Scene, Sequence, Source, Task};
use plan_work::{Gate, grow};
use scene_text::{as_version_2, fetch, read_scene, write_scene};
use seq_planner::textbook;
use settle_report::{best, report_by_best, settle, summary_by_best};
use std::alloc::{AllocGlobal, Global};
use std::random::RandomSource;
use std::sync::Wait;
use std::thread::Threads;
use step_core::Grown;
use swept_check::Hall;
use twin_trees::{Twin, TwinFault, twin, twin_report};

/// The answer of a command that succeeds.
#[derive(Drop)]
pub struct Answer {
    /// What the program has done once the text is written.
    pub done: Done,
    /// The whole text that is to be written.
    pub text: Vec<u8>,
}

/// What is to be written for the words. What their command needs is read from the source, which has not given its end. The gate
/// is told of the turns of the workers, if workers are to plan. `None` if they ask for a command that waits; then nothing is read.
///
/// # Errors
///
/// The refusal with its cause: `Words` exactly if the words ask for no command, and nothing is read then; otherwise that of
/// the command, and the source may have been read.
pub fn answer_without_waiting<R: Threads + Sync, S: Source, G: Gate>(
    rt: &R,
    alloc: Global,
    words: &[String],
    source: &mut S,
    gate: &G,
) -> Option<Result<Answer, Refusal>>
    requires { (S.state source.old).has_ended ≡ false }
    ensures answer { IfSome result (Answers (command_of (map string_bytes words.now)) (S.state source.old) (S.state source.new)) }
    ensures none { IsNone result ↔ Asks waits (command_of (map string_bytes words.now)) }
    ensures untouched { IfNone result (source.new ≡ source.old) }
{
    match command_of(words) {
        Some(command) if command.waits() => None,
        Some(command) => Some(perform(rt, alloc, command, source, gate)),
        None => Some(Err(Refusal::Words)),
    }
}

/// Does what a command says that does not wait.
fn perform<R: Threads + Sync, S: Source, G: Gate>(
    rt: &R,
    alloc: Global,
    command: Command,
    source: &mut S,
    gate: &G,
) -> Result<Answer, Refusal>
    requires number { IsNumbered command }
    requires at_once { waits command ≡ false }
    requires unended { (S.state source.old).has_ended ≡ false }
    ensures { Answers (Some command) (S.state source.old) (S.state source.new) result }
{
    match command {
        Command::Plain { full } => plain(alloc, full, source),
        Command::Plan { workers, full } => plan(rt, alloc, workers, full, source, gate),
        Command::Smooth(workers) => plan_smoothed(rt, alloc, workers, source, gate),
        Command::Twin(workers) => plan_twin(rt, alloc, workers, source, gate),
        Command::Check => check_report(alloc, source),
        Command::Show => show(alloc, source),
        Command::Convert => convert(alloc, source),
        Command::Gen(number) => Ok(generate(alloc, number)?),
        Command::Trial(number) => Ok(trial(alloc, number)?),
        Command::Anytime { .. } | Command::Batch { .. } => unreachable!(),
    }
}

/// What is to be written for words that ask for a command that waits. It is polled under an executor.
pub fn answer_by_waiting<
    R: Threads + Sync + Wait + RandomSource + AllocGlobal + Clone + Drop,
    S: Source,
>(rt: &R, alloc: Global, words: &[String], source: &mut S) -> Result<Answer, Refusal>
    requires waits { Asks waits (command_of (map string_bytes words.now)) }
    requires unended { (S.state source.old).has_ended ≡ false }
    ensures { Answers (command_of (map string_bytes words.now)) (S.state source.old) (S.state source.new) result }
{
    let Some(command) = command_of(words) else {
        unreachable!()
    };
    match command {
        Command::Anytime { workers, slice } => plan_by_slices(rt, alloc, workers, slice, source),
        Command::Batch { workers, slice } => plan_batch(rt, alloc, workers, slice, source),
        _ => unreachable!(),
    }
}

/// Plans the scene that is read as the textbook does, and reports it in full or in short.
fn plain<S: Source>(alloc: Global, full: bool, source: &mut S) -> Result<Answer, Refusal>
    requires { (S.state source.old).has_ended ≡ false }
    ensures { Answers (Some (Command.Plain full)) (S.state source.old) (S.state source.new) result }
{
    let problem = problem_for(alloc, Command::Plain { full }, source)?;
    let grown = textbook_run(alloc, problem)?;
    Ok(report_of(alloc, full, grown)?)
}

/// Plans the scene that is read by several workers, and reports it in full or in short.
fn plan<R: Threads + Sync, S: Source, G: Gate>(
    rt: &R,
    alloc: Global,
    workers: WorkerCount,
    full: bool,
    source: &mut S,
    gate: &G,
) -> Result<Answer, Refusal>
    requires unended { (S.state source.old).has_ended ≡ false }
    ensures { Answers (Some (Command.Plan workers full)) (S.state source.old) (S.state source.new) result }
{
    let problem = problem_for(alloc, Command::Plan { workers, full }, source)?;
    let grown = run_by_workers(rt, alloc, workers, problem.task, &problem.boxes, gate)?;
    Ok(report_of(alloc, full, grown)?)
}

/// Plans the scene that is read by several workers, and reports it in short with its path smoothed.
fn plan_smoothed<R: Threads + Sync, S: Source, G: Gate>(
    rt: &R,
    alloc: Global,
    workers: WorkerCount,
    source: &mut S,
    gate: &G,
) -> Result<Answer, Refusal>
    requires unended { (S.state source.old).has_ended ≡ false }
    ensures { Answers (Some (Command.Smooth workers)) (S.state source.old) (S.state source.new) result }
{
    let problem = problem_for(alloc, Command::Smooth(workers), source)?;
    let grown = run_by_workers(rt, alloc, workers, problem.task, &problem.boxes, gate)?;
    Ok(smoothed_report_of(alloc, &problem.boxes, grown)?)
}

/// Plans the scene that is read by several workers, so many marks at a time, and reports the better paths as they came, and the run in
/// short. It waits under an executor.
fn plan_by_slices<R: Threads + Sync + Wait + RandomSource + AllocGlobal + Clone + Drop, S: Source>(
    rt: &R,
    alloc: Global,
    workers: WorkerCount,
    slice: u32,
    source: &mut S,
) -> Result<Answer, Refusal>
    requires slice { 1 ≤ slice }
    requires unended { (S.state source.old).has_ended ≡ false }
    ensures { Answers (Some (Command.Anytime workers slice)) (S.state source.old) (S.state source.new) result }
{
    let problem = problem_for(alloc, Command::Anytime { workers, slice }, source)?;
    let finished = run_by_slices(rt, alloc, workers, slice, problem)?;
    Ok(better_report_of(alloc, finished)?)
}

/// Plans the scene that is read from both of its ends, by several workers each, and reports both runs and the path over the bridge.
fn plan_twin<R: Threads + Sync, S: Source, G: Gate>(
    rt: &R,
    alloc: Global,
    workers: WorkerCount,
    source: &mut S,
    gate: &G,
) -> Result<Answer, Refusal>
    requires unended { (S.state source.old).has_ended ≡ false }
    ensures { Answers (Some (Command.Twin workers)) (S.state source.old) (S.state source.new) result }
{
    let problem = problem_for(alloc, Command::Twin(workers), source)?;
    let both = twin_of(rt, alloc, workers, problem, gate)?;
    Ok(twin_report_of(alloc, both)?)
}

/// Shows the scene that is read.
fn show<S: Source>(alloc: Global, source: &mut S) -> Result<Answer, Refusal>
    requires { (S.state source.old).has_ended ≡ false }
    ensures { Answers (Some Command.Show) (S.state source.old) (S.state source.new) result }
{
    let scene = scene_for(alloc, Command::Show, source)?;
    Ok(text_of(alloc, &scene)?)
}

/// Shows the scene that is read, in version 2.
fn convert<S: Source>(alloc: Global, source: &mut S) -> Result<Answer, Refusal>
    requires { (S.state source.old).has_ended ≡ false }
    ensures { Answers (Some Command.Convert) (S.state source.old) (S.state source.new) result }
{
    let scene = scene_for(alloc, Command::Convert, source)?;
    let converted = as_version_2(scene);
    Ok(text_of(alloc, &converted)?)
}

/// The scene that a command asks for, read from the source.
fn scene_for<S: Source>(alloc: Global, command: Command, source: &mut S) -> Result<Scene, Refusal>
    requires reads { input_of command ≡ one_scene }
    requires unended { (S.state source.old).has_ended ≡ false }
    ensures scene { IfOk result (HasScene (S.state source.old) (S.state source.new)) }
    ensures refusal { IfErr result (IsCaused (Some command) (S.state source.old) (S.state source.new)) }
    ensures within { ReadsWithin (S.state source.old).bytes_left (S.state source.new).bytes_left }
{
    let text = fetch(alloc, source)?;
    let scene = read_scene(alloc, &text)?;
    Ok(scene)
}

/// The problem of the scene that a command asks for, read from the source. It is to be planned, so its start is clear.
fn problem_for<S: Source>(
    alloc: Global,
    command: Command,
    source: &mut S,
) -> Result<Problem, Refusal>
    requires reads { input_of command ≡ one_scene }
    requires plans { IsTrue (plans command) }
    requires unended { (S.state source.old).has_ended ≡ false }
    ensures scene { IfOk result (λ problem. HasScene (S.state source.old) (S.state source.new) problem.task.scene) }
    ensures refusal { IfErr result (IsCaused (Some command) (S.state source.old) (S.state source.new)) }
    ensures within { ReadsWithin (S.state source.old).bytes_left (S.state source.new).bytes_left }
{
    let scene = scene_for(alloc, command, source)?;
    let Some(problem) = Problem::if_start_clear(alloc, scene)? else {
        return Err(Refusal::StartBlocked);
    };
    Ok(problem)
}

/// The textbook run of a problem, over all its marks.
fn textbook_run(alloc: Global, problem: Problem) -> Result<Grown, Memory>
    ensures scene { IfOk result (λ grown. grown.task.scene ≡ problem.task.scene) }
    ensures all_marks { IfOk result (λ grown. grown.limit ≡ length (mark_points problem.task.scene)) }
    ensures run { IfOk result (λ grown. IsOfTextbookRun (setup_of problem.task.scene) (mark_points problem.task.scene) (state_of_grown grown)) }
    ensures settled { IfOk result (λ grown. IsSettled (state_of_grown grown)) }
{
    textbook(alloc, problem.task, &problem.boxes)
}

/// A run of a task by several workers, over all its marks, settled.
fn run_by_workers<R: Threads + Sync, G: Gate>(
    rt: &R,
    alloc: Global,
    workers: WorkerCount,
    task: Task,
    boxes: &Boxes,
    gate: &G,
) -> Result<Grown, Memory>
    requires boxes { boxes.now ≡ space_of task.scene }
    requires start { ClearAt (space_of task.scene) task.scene.start }
    ensures scene { IfOk result (λ grown. grown.task.scene ≡ task.scene) }
    ensures all_marks { IfOk result (λ grown. grown.limit ≡ length (mark_points task.scene)) }
    ensures settled { IfOk result (λ grown. IsSettled (state_of_grown grown)) }
    ensures workers { IfOk result (λ grown. (k : ℕ) (entry : Record)
        → (state_of_grown grown).record_of k ≡ Some entry → entry.worker < workers) }
    ensures textbook { workers ≡ 1
        → IfOk result (λ grown. IsOfTextbookRun (setup_of task.scene) (mark_points task.scene) (state_of_grown grown)) }
{
    let limit = task.marks.len() as u32;
    let fresh = Grown::new(alloc, task)?;
    let mut grown = grow(rt, alloc, fresh, boxes, workers.get(), limit, gate)?;
    settle(alloc, &mut grown)?;
    Ok(grown)
}

/// A run of a problem by several workers, over all its marks, settled, with the better paths that came while it grew by so many marks at
/// a time.
fn run_by_slices<R: Threads + Sync + Wait + RandomSource + AllocGlobal + Clone + Drop>(
    rt: &R,
    alloc: Global,
    workers: WorkerCount,
    slice: u32,
    problem: Problem,
) -> Result<FinishedSession, Memory>
    requires { 1 ≤ slice }
    ensures scene { IfOk result (λ done. done.run.task.scene ≡ problem.task.scene) }
    ensures all_marks { IfOk result (λ done. done.run.limit ≡ length (mark_points problem.task.scene)) }
    ensures settled { IfOk result (λ done. IsSettled (state_of_grown done.run)) }
    ensures workers { IfOk result (λ done. (k : ℕ) (entry : Record)
        → (state_of_grown done.run).record_of k ≡ Some entry → entry.worker < workers) }
    ensures textbook { workers ≡ 1
        → IfOk result (λ done. IsOfTextbookRun (setup_of problem.task.scene) (mark_points problem.task.scene) (state_of_grown done.run)) }
    ensures better { IfOk result (λ done. AreBetterPaths workers slice done.run done.better) }
{
    let Problem { task, boxes } = problem;
    finish_session(rt, alloc, task, boxes, workers.get(), slice)
}

/// The better paths of a settled run over all marks of its scene, and its short report.
fn better_report_of(alloc: Global, finished: FinishedSession) -> Result<Answer, Memory>
    requires all_marks { finished.run.limit ≡ length (mark_points finished.run.task.scene) }
    requires settled { IsSettled (state_of_grown finished.run) }
    ensures reported { IfOk result (λ answer.
        ReportsGrown (IsBetterReport finished.better) finished.run.task.scene finished.run answer.done answer.text.items) }
    ensures better { IfOk result (λ answer. answer.done.better ≡ finished.better ∷ []) }
    ensures alone { IfOk result (λ answer. HandsOutNothing (record answer.done { run = None; better = [] })) }
{
    let FinishedSession { run, better } = finished;
    let best = best(&run);
    let text = better_report(alloc, better.as_slice(), &run, best)?;
    let lists = vec![in alloc; better]?;
    let Answer { done, text } = answer_of(alloc, run, best, text);
    Ok(Answer {
        done: Done {
            better: Sequence::from_vec(lists),
            ..done
        },
        text,
    })
}

/// The two runs of a problem by several workers each, over all its marks, with the bridge between them.
fn twin_of<R: Threads + Sync, G: Gate>(
    rt: &R,
    alloc: Global,
    workers: WorkerCount,
    problem: Problem,
    gate: &G,
) -> Result<Twin, TwinFault>
    ensures twin { IfOk result (IsTwin workers problem.task.scene) }
    ensures blocked { result ≡ Err TwinFault.GoalBlocked → ¬ ClearAt (space_of problem.task.scene) (goal_middle problem.task.scene) }
{
    twin(rt, alloc, problem.task, &problem.boxes, workers.get(), gate)
}

/// The report of two runs of a scene.
fn twin_report_of(alloc: Global, both: Twin) -> Result<Answer, Memory>
    requires { (workers : ℕ) × IsTwin workers both.from_start.task.scene both }
    ensures { (workers : ℕ) → IsTwin workers both.from_start.task.scene both
        → IfOk result (λ answer. ReportsTwin workers both.from_start.task.scene answer.done answer.text.items) }
{
    let text = twin_report(alloc, &both)?;
    Ok(twin_answer_of(alloc, both, text))
}

/// The answer that a report of two runs is.
fn twin_answer_of(alloc: Global, both: Twin, text: Vec<u8>) -> Answer
    ensures status { result.done.status ≡ status_of_report (is_some both.bridge) }
    ensures twin { result.done.twin ≡ Some both }
    ensures alone { HandsOutNothing (record result.done { twin = None }) }
    ensures text { result.text ≡ text }
{
    let status = if both.bridge.is_some() { DONE } else { NO_PATH };
    let done = Done {
        twin: Some(both),
        ..Done::with_status(alloc, status)
    };
    Answer { done, text }
}

/// The report of a settled run over all marks of its scene, in full or in short.
///
/// # Errors
///
/// `Memory` if out of memory for the text.
pub fn report_of(alloc: Global, full: bool, grown: Grown) -> Result<Answer, Memory>
    requires all_marks { grown.limit ≡ length (mark_points grown.task.scene) }
    requires settled { IsSettled (state_of_grown grown) }
    ensures reported { IfOk result (λ answer. ReportsGrown (IsReport full) grown.task.scene grown answer.done answer.text.items) }
    ensures alone { IfOk result (λ answer. HandsOutRunAlone answer.done) }
{
    let best = best(&grown);
    let text = report_by_best(alloc, &grown, best, full)?;
    Ok(answer_of(alloc, grown, best, text))
}

/// The short report of a settled run over all marks of its scene, with its path smoothed.
///
/// # Errors
///
/// `Memory` if out of memory for the path or the text.
pub fn smoothed_report_of(alloc: Global, boxes: &Boxes, grown: Grown) -> Result<Answer, Memory>
    requires boxes { boxes.now ≡ space_of grown.task.scene }
    requires all_marks { grown.limit ≡ length (mark_points grown.task.scene) }
    requires settled { IsSettled (state_of_grown grown) }
    ensures reported { IfOk result (λ answer. ReportsGrown IsSmoothedReport grown.task.scene grown answer.done answer.text.items) }
    ensures alone { IfOk result (λ answer. HandsOutRunAlone answer.done) }
{
    let best = best(&grown);
    let text = smoothed_report(alloc, boxes, &grown, best)?;
    Ok(answer_of(alloc, grown, best, text))
}

/// The summary of a settled run over all marks of its scene.
fn summary_of(alloc: Global, grown: Grown) -> Result<Answer, Memory>
    requires all_marks { grown.limit ≡ length (mark_points grown.task.scene) }
    requires settled { IsSettled (state_of_grown grown) }
    ensures reported { IfOk result (λ answer. ReportsGrown IsSummary grown.task.scene grown answer.done answer.text.items) }
    ensures alone { IfOk result (λ answer. HandsOutRunAlone answer.done) }
{
    let best = best(&grown);
    let text = summary_by_best(alloc, &grown, best)?;
    Ok(answer_of(alloc, grown, best, text))
}

/// The answer that a report of a run with this best node is.
fn answer_of(alloc: Global, grown: Grown, best: Option<u32>, text: Vec<u8>) -> Answer
    ensures status { result.done.status ≡ status_of_report (is_some best) }
    ensures run { result.done.run ≡ Some grown }
    ensures alone { HandsOutRunAlone result.done }
    ensures text { result.text ≡ text }
{
    let status = if best.is_some() { DONE } else { NO_PATH };
    let done = Done {
        run: Some(grown),
        ..Done::with_status(alloc, status)
    };
    Answer { done, text }
}

/// The answer that writes the canonical text of a scene.
fn text_of(alloc: Global, scene: &Scene) -> Result<Answer, Memory>
    ensures { IfOk result (λ answer. WritesScene scene.now answer.done answer.text.items) }
{
    let text = write_scene(alloc, scene)?;
    Ok(Answer {
        done: Done::with_status(alloc, DONE),
        text,
    })
}

/// Writes the generated scene of a number.
fn generate(alloc: Global, number: u32) -> Result<Answer, Memory>
    requires { number ≤ MOST_GENERATED }
    ensures { IfOk result (λ answer. Succeeds (Command.Gen number) [] answer.done answer.text.items) }
{
    let scene = gen_scene(alloc, number)?;
    Ok(text_of(alloc, &scene)?)
}

/// Plans the generated scene of a number.
fn trial(alloc: Global, number: u32) -> Result<Answer, Memory>
    requires { number ≤ MOST_GENERATED }
    ensures { IfOk result (λ answer. Succeeds (Command.Trial number) [] answer.done answer.text.items) }
{
    let scene = gen_scene(alloc, number)?;
    let hall = Hall::new(alloc, &scene)?;
    let problem = Problem::new(alloc, scene, hall)?;
    let grown = textbook_run(alloc, problem)?;
    Ok(summary_of(alloc, grown)?)
}
