//! What is answered to the bytes of a text, by one worker in the thread of the caller.

ghost use Rattle.std.specs.Prelude.{◌≡◌, ◌<◌, ◌≤◌, IfErr, IfOk, Some, length, ℕ};
ghost use Rattle.plan_c.specs.Calls.{AnswersText, JudgesReport, RefusesText};
ghost use Rattle.plan_model.specs.Runs.Textbook.{IsOfTextbookRun, setup_of};
ghost use Rattle.plan_model.specs.Scenes.MarkPoints.{mark_points};
ghost use Rattle.plan_model.specs.Spaces.Clearance.{ClearAt};
ghost use Rattle.plan_model.specs.Spaces.ConfigurationSpace.{space_of};
ghost use Rattle.plan_model.specs.Texts.SceneGrammar.{Spells, supported};
ghost use Rattle.plan_model.specs.Trees.TreeStates.{IsSettled};
ghost use Rattle.plan_model.specs.declared.limits.TheConstants.{MOST_TEXT_BYTES};
ghost use Rattle.plan_model.specs.declared.records.Record.{Record};
ghost use Rattle.planner.specs.declared.commands.Command.{Command};
ghost use Rattle.grown_runs.specs.Runs.GrownRuns.{state_of_grown};

use obstacle_boxes::Boxes;
use plan_model::{MOST_TEXT_BYTES, Memory, Task};
use plan_work::grow_alone;
use planner::{Answer, Problem, Refusal, problem_in, report_of, smoothed_report_of};
use report_judge::{Verdict, check_with};
use settle_report::settle;
use std::alloc::Global;
use step_core::Grown;

/// The most bytes that a report may have that is judged: one less than the greatest `u32`, so that its lines have numbers.
pub const MOST_REPORT_BYTES: usize = 4_294_967_294;

/// Plans the scene that a text spells, and reports it in full or in short.
pub(crate) fn plan_alone(alloc: Global, text: &[u8], full: bool) -> Result<Answer, Refusal>
    ensures { AnswersText (Command.Plan 1 full) text.now result }
{
    let problem = problem_of(alloc, text)?;
    let grown = run_alone(alloc, problem.task, &problem.boxes)?;
    Ok(report_of(alloc, full, grown)?)
}

/// Plans the scene that a text spells, and reports it in short with its path smoothed.
pub(crate) fn smooth_alone(alloc: Global, text: &[u8]) -> Result<Answer, Refusal>
    ensures { AnswersText (Command.Smooth 1) text.now result }
{
    let problem = problem_of(alloc, text)?;
    let grown = run_alone(alloc, problem.task, &problem.boxes)?;
    Ok(smoothed_report_of(alloc, &problem.boxes, grown)?)
}

/// Judges a report as one of the scene that a text spells.
pub(crate) fn judge_alone(alloc: Global, text: &[u8], report: &[u8]) -> Result<Verdict, Refusal>
    ensures { JudgesReport text.now report.now result }
{
    if report.len() > MOST_REPORT_BYTES {
        return Err(Refusal::TooLong);
    }
    let problem = problem_of(alloc, text)?;
    Ok(check_with(alloc, &problem.task, &problem.boxes, report)?)
}

/// The problem of the scene that a text spells, whose start is clear.
fn problem_of(alloc: Global, text: &[u8]) -> Result<Problem, Refusal>
    ensures short { IfOk result (λ _. length text.now ≤ MOST_TEXT_BYTES) }
    ensures scene { IfOk result (λ problem. Spells supported text.now problem.task.scene) }
    ensures refusal { IfErr result (RefusesText text.now) }
{
    if text.len() > MOST_TEXT_BYTES {
        return Err(Refusal::TooLong);
    }
    problem_in(alloc, text)
}

/// The textbook run of a task over all its marks, settled.
fn run_alone(alloc: Global, task: Task, boxes: &Boxes) -> Result<Grown, Memory>
    requires boxes { boxes.now ≡ space_of task.scene }
    requires start { ClearAt (space_of task.scene) task.scene.start }
    ensures scene { IfOk result (λ grown. grown.task.scene ≡ task.scene) }
    ensures all_marks { IfOk result (λ grown. grown.limit ≡ length (mark_points task.scene)) }
    ensures settled { IfOk result (λ grown. IsSettled (state_of_grown grown)) }
    ensures worker { IfOk result (λ grown. (k : ℕ) (entry : Record) → (state_of_grown grown).record_of k ≡ Some entry → entry.worker < 1) }
    ensures textbook { IfOk result (λ grown. IsOfTextbookRun (setup_of task.scene) (mark_points task.scene) (state_of_grown grown)) }
{
    let limit = task.marks.len() as u32;
    let fresh = Grown::new(alloc, task)?;
    let mut grown = grow_alone(alloc, fresh, boxes, limit)?;
    settle(alloc, &mut grown)?;
    Ok(grown)
}
