//! The report of a run that was polled for better paths.

ghost use Rattle.std.specs.Prelude.{◌≡◌, ◌++◌, IfOk, OnOk, string_bytes};
ghost use Rattle.any_time.specs.BetterPaths as spec;
ghost use Rattle.plan_model.specs.Trees.BestNode.{best_node, goals_of};
ghost use Rattle.plan_model.specs.Trees.TreeStates.{IsSettled};
ghost use Rattle.grown_runs.specs.Runs.GrownRuns.{state_of_grown};

use crate::betters::Better;
use plan_model::Memory;
use settle_report::report_by_best;
use std::alloc::{AllocError, Global};
use step_core::Grown;

/// A line for each of the better paths, with its cost in 256ths of a lattice step and the marks after which it came, and then the
/// short report of a settled run, whose best node `settle_report` finds. O(n) for n marks and items.
///
/// # Errors
///
/// `Memory` if out of memory for the path or the text.
pub fn better_report(
    alloc: Global,
    items: &[Better],
    run: &Grown,
    best: Option<u32>,
) -> Result<Vec<u8>, Memory>
    requires settled { IsSettled (state_of_grown run.now) }
    requires best { best ≡ best_node (goals_of run.now.task.scene) run.now.limit (state_of_grown run.now) }
    ensures { IfOk result (λ text.
        text.items ≡ spec.better_report items.now run.now.task.scene run.now.limit (state_of_grown run.now)) }
{
    let mut lines = String::new(alloc);
    push_better_lines(&mut lines, items)?;
    let mut text = lines.into_bytes();
    let report = report_by_best(alloc, run, best, false)?;
    text.extend_from_slice(&report)?;
    Ok(text)
}

/// A line for each better path.
fn push_better_lines(text: &mut String, items: &[Better]) -> Result<(), AllocError>
    ensures { OnOk result (string_bytes text.new ≡ string_bytes text.old ++ spec.better_lines items.now) }
{
    for item in items {
        push_better_line(text, item)?;
    }
    Ok(())
}

/// The line of a better path.
fn push_better_line(text: &mut String, item: &Better) -> Result<(), AllocError>
    ensures { OnOk result (string_bytes text.new ≡ string_bytes text.old ++ spec.better_line item.now) }
{
    write!(text, "better {} marks {}\n", item.cost, item.marks)
}
