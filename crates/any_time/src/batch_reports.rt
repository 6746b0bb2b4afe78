//! The report of a batch.

ghost use Rattle.std.specs.Prelude.{◌≡◌, ◌≤◌, ◌<◌, ◌++◌, All, IfOk, length};
ghost use Rattle.std.specs.List.{list_all};
ghost use Rattle.any_time.specs.Sessions.{has_path};
ghost use Rattle.any_time.specs.BetterPaths as spec;
ghost use Rattle.plan_model.specs.Trees.TreeStates.{IsSettled};
ghost use Rattle.grown_runs.specs.Runs.GrownRuns.{state_of_grown};

use crate::better_reports::better_report;
use crate::betters::Better;
use crate::lists::{BetterLists, Growns};
use plan_model::Memory;
use settle_report::best;
use std::alloc::Global;
use step_core::Grown;

/// What is written of a batch, and whether each of its scenes has a path.
#[derive(Drop)]
pub struct BatchReport {
    /// The whole text.
    pub text: Vec<u8>,
    /// Whether some node of each run lies in a goal.
    pub has_paths: bool,
}

/// For each of several settled runs, in order: a line with its number, counted from 0, and its [`better_report`] by its list. O(n) for
/// n marks and items of all.
///
/// # Errors
///
/// `Memory` if out of memory for a path or the text.
pub fn batch_report(
    alloc: Global,
    better: &BetterLists,
    runs: &Growns,
) -> Result<BatchReport, Memory>
    requires count { length better.now ≡ length runs.now }
    requires settled { All (λ run. IsSettled (state_of_grown run)) runs.now }
    ensures text { IfOk result (λ report. report.text.items ≡ spec.batch_report 0 better.now runs.now) }
    ensures paths { IfOk result (λ report. report.has_paths ≡ list_all has_path runs.now) }
{
    let mut text = Vec::new(alloc);
    let mut has_paths = true;
    for number in 0..runs.len() {
        let items = better.as_slice()[number].as_slice();
        let run = &runs.as_slice()[number];
        let found = push_scene_report(alloc, &mut text, number, items, run)?;
        has_paths = has_paths && found;
    }
    Ok(BatchReport { text, has_paths })
}

/// Adds the line of a scene and the report of its run, and says whether some node of the run lies in a goal.
fn push_scene_report(
    alloc: Global,
    text: &mut Vec<u8>,
    number: usize,
    items: &[Better],
    run: &Grown,
) -> Result<bool, Memory>
    requires { IsSettled (state_of_grown run.now) }
    ensures text { IfOk result (λ _. text.new.items ≡ text.old.items ++ spec.scene_report number items.now run.now) }
    ensures path { IfOk result (λ found. found ≡ has_path run.now) }
{
    let best = best(run);
    let line = format!(in alloc; "scene {number}\n")?;
    let report = better_report(alloc, items, run, best)?;
    text.extend_from_slice(line.as_bytes())?;
    text.extend_from_slice(&report)?;
    Ok(best.is_some())
}
