//! What is to be written of a report that is read after its scene.

ghost use Rattle.std.specs.Prelude.{◌≡◌, ◌≤◌, ◌<◌, ℕ, false, length, IfErr, IfOk, Some};
ghost use Rattle.report_judge.specs.Texts.ReportCuts.{HasNoReportLine};
ghost use Rattle.plan_model.specs.Texts.SceneGrammar.{Spells, supported};
ghost use Rattle.plan_model.specs.Texts.TextLines.{lines_of};
ghost use Rattle.plan_model.specs.declared.limits.TheConstants.{MOST_TEXT_BYTES};
ghost use Rattle.planner.specs.CheckedTexts.{Judges, RefusesCheck, RefusesSceneText, RefusesWithoutReport};
ghost use Rattle.planner.specs.Conclusions.{Answers, HandsOutNothing};
ghost use Rattle.planner.specs.Refusals.{status_of_verdict, verdict_line, verdict_message};
ghost use Rattle.planner.specs.declared.commands.Command.{Command};
ghost use Rattle.scene_text.specs.Drafts.{IsSceneRefusal};
ghost use Rattle.planner.specs.declared.short_lines.TheConstants.{LINE_CAPACITY};

use crate::answers::Answer;
use crate::problems::Problem;
use crate::refusals::Refusal;
use crate::short_lines::{Line, line_from, push, push_number};
use crate::statuses::{DONE, NO_PATH};
use crate::top_call::Done;
use plan_model::{Kind, Memory, Source, next_line};
use report_judge::{Verdict, check_with, cut_at_report};
use scene_text::{SceneRefusal, fetch, read_scene};
use std::alloc::Global;

/// Judges the report that is read after the text of its scene and a line `report`.
pub fn check_report<S: Source>(alloc: Global, source: &mut S) -> Result<Answer, Refusal>
    requires { (S.state source.old).has_ended ≡ false }
    ensures { Answers (Some Command.Check) (S.state source.old) (S.state source.new) result }
{
    let text = fetch(alloc, source)?;
    let verdict = verdict_on(alloc, &text)?;
    Ok(verdict_answer(alloc, verdict)?)
}

/// The verdict on the report after the first line of a text that is `report`, as one of the scene before it.
fn verdict_on(alloc: Global, text: &[u8]) -> Result<Verdict, Refusal>
    requires { length text.now ≤ MOST_TEXT_BYTES }
    ensures verdict { IfOk result (Judges text.now) }
    ensures refusal { IfErr result (RefusesCheck text.now) }
{
    let Some((front, report)) = cut_at_report(text) else {
        return Err(missing_report(alloc, text)?);
    };
    let problem = problem_in(alloc, front)?;
    let verdict = check_with(alloc, &problem.task, &problem.boxes, report)?;
    Ok(verdict)
}

/// The refusal of a text that spells a scene and has no line `report`: that line is missing after the last one.
///
/// # Errors
///
/// Those of `read_scene`, if the text spells no scene.
fn missing_report(alloc: Global, text: &[u8]) -> Result<Refusal, SceneRefusal>
    requires short { length text.now ≤ MOST_TEXT_BYTES }
    requires none { HasNoReportLine text.now }
    ensures missing { IfOk result (RefusesWithoutReport text.now) }
    ensures fault { IfErr result (IsSceneRefusal text.now) }
{
    let scene = read_scene(alloc, text)?;
    drop(scene);
    Ok(Refusal::Text(line_count(text) + 1, Kind::Missing))
}

/// How many lines a text has.
fn line_count(text: &[u8]) -> u32
    requires { length text.now ≤ MOST_TEXT_BYTES }
    ensures count { result ≡ length (lines_of text.now) }
    ensures within { result ≤ length text.now }
{
    let mut rest = text;
    let mut count = 0;
    'lines: while let Some((_, after)) = next_line(rest) {
        count += 1;
        rest = after;
    }
    count
}

/// The problem of the scene that a text spells, whose start is clear. The text has at most `MOST_TEXT_BYTES` bytes.
///
/// # Errors
///
/// The refusal with its cause: `Text`, `StartBlocked` or `Memory`.
pub fn problem_in(alloc: Global, text: &[u8]) -> Result<Problem, Refusal>
    requires { length text.now ≤ MOST_TEXT_BYTES }
    ensures scene { IfOk result (λ problem. Spells supported text.now problem.task.scene) }
    ensures refusal { IfErr result (RefusesSceneText text.now) }
{
    let scene = read_scene(alloc, text)?;
    let Some(problem) = Problem::if_start_clear(alloc, scene)? else {
        return Err(Refusal::StartBlocked);
    };
    Ok(problem)
}

/// The answer that a verdict is.
fn verdict_answer(alloc: Global, verdict: Verdict) -> Result<Answer, Memory>
    ensures status { IfOk result (λ answer. answer.done.status ≡ status_of_verdict verdict) }
    ensures text { IfOk result (λ answer. answer.text.items ≡ verdict_line verdict) }
    ensures nothing { IfOk result (λ answer. HandsOutNothing answer.done) }
{
    let text = line_of(verdict).as_bytes().to_vec(alloc)?;
    let status = match verdict {
        Verdict::Lawful => DONE,
        Verdict::Broken { .. } => NO_PATH,
    };
    Ok(Answer {
        done: Done::with_status(alloc, status),
        text,
    })
}

/// The line of a verdict, with its line feed.
fn line_of(verdict: Verdict) -> Line
    ensures { result.bytes ≡ verdict_line verdict }
{
    let mut line = message_of(verdict);
    push(&mut line, "\n");
    line
}

/// The line without its line feed.
fn message_of(verdict: Verdict) -> Line
    ensures text { result.bytes ≡ verdict_message verdict }
    ensures short { length result.bytes < LINE_CAPACITY }
{
    match verdict {
        Verdict::Lawful => line_from("lawful"),
        Verdict::Broken { line, law } => broken_message(line, law),
    }
}

/// Of a report that is not lawful: the number of the first line that breaks the least law that is broken, and that law.
fn broken_message(number: u32, law: u8) -> Line
    ensures text { result.bytes ≡ verdict_message (Verdict.Broken number law) }
    ensures short { length result.bytes < LINE_CAPACITY }
{
    let mut line = line_from("broken line ");
    push_number(&mut line, number);
    push(&mut line, " law ");
    push_number(&mut line, u32::from(law));
    line
}
