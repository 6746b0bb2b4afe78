//! The report of a run with its best path smoothed.

ghost use Rattle.std.specs.Prelude.{◌≡◌, IfOk};
ghost use Rattle.plan_model.specs.Spaces.ConfigurationSpace.{space_of};
ghost use Rattle.plan_model.specs.Trees.BestNode.{best_node, goals_of};
ghost use Rattle.plan_model.specs.Trees.NodeLists.{IsPresent};
ghost use Rattle.plan_model.specs.Trees.TreeStates.{IsSettled};
ghost use Rattle.path_tools.specs.SmoothPaths.{IsSmoothedReport, ReportsSmoothed};
ghost use Rattle.grown_runs.specs.Runs.GrownRuns.{state_of_grown};

use crate::smoothing::cheapest_path;
use grown_runs::Grown;
use plan_model::Memory;
use settle_report::{path_to, report_along, report_by_best};
use std::alloc::Global;
use swept_check::Clearing;

/// The short report of a settled run with its best path [smoothed](crate::smooth), and the cost of that path; without a path it is
/// the short report. `hall` stands for the run's scene, and `best` is its best node, as `settle_report` finds it. O(n) for n marks, and
/// what the smoothing takes.
///
/// # Errors
///
/// `Memory` if out of memory for the path or the text.
pub fn smoothed_report<C: Clearing>(
    alloc: Global,
    hall: &C,
    grown: &Grown,
    best: Option<u32>,
) -> Result<Vec<u8>, Memory>
    requires hall { C.space hall.now ≡ space_of grown.now.task.scene }
    requires settled { IsSettled (state_of_grown grown.now) }
    requires best { best ≡ best_node (goals_of grown.now.task.scene) grown.now.limit (state_of_grown grown.now) }
    ensures { IfOk result (λ text. IsSmoothedReport grown.now.task.scene grown.now.limit (state_of_grown grown.now) text.items) }
{
    match best {
        Some(node) => report_along_smoothed(alloc, hall, grown, node),
        None => report_by_best(alloc, grown, None, false),
    }
}

/// The short report along the smoothed path to a node.
fn report_along_smoothed<C: Clearing>(
    alloc: Global,
    hall: &C,
    grown: &Grown,
    node: u32,
) -> Result<Vec<u8>, Memory>
    requires hall { C.space hall.now ≡ space_of grown.now.task.scene }
    requires present { IsPresent (state_of_grown grown.now).points node }
    ensures { IfOk result (λ text. ReportsSmoothed grown.now.task.scene grown.now.limit (state_of_grown grown.now) node text.items) }
{
    let path = path_to(alloc, grown, node)?;
    let cheapest = cheapest_path(alloc, hall, &path)?;
    report_along(alloc, grown, &cheapest.points, cheapest.cost)
}
