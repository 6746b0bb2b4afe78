//! The path that the report of a tree should have: from the start to the cheapest node in a goal.

ghost use Rattle.std.specs.Prelude.{◌≡◌, ◌-◌, ◌<◌, ◌≤◌, [], IfOk, IfSome, IsTrue, map, length, slice_index_or};
ghost use Rattle.plan_model.specs.Reports.ReportText.{path_to};
ghost use Rattle.plan_model.specs.Trees.BestNode.{best_node, is_goal_point};
ghost use Rattle.plan_model.specs.Trees.Nearness.{lesser};
ghost use Rattle.plan_model.specs.Trees.NodeLists.{FallAlong, IsPresent, point_at, point_of};
ghost use Rattle.plan_model.specs.Trees.TreeStates.{IsSettled, chain_in, sum_in};
ghost use Rattle.plan_model.specs.declared.limits.TheConstants.{MOST_NODES};
ghost use Rattle.grown_runs.specs.Runs.PackedRuns.{kept_cost_of, state_of_lists};
ghost use Rattle.report_judge.specs.Laws.SheetLaws.{path_by};
ghost use Rattle.report_judge.specs.Texts.ReportCuts.{priced_path};
ghost use Rattle.report_judge.specs.Laws.FirstBreaks.{IsSettledList};

use crate::costed_paths::CostedPath;
use crate::trees::exact_edges::knot_at;
use grown_runs::lies_in_goals;
use plan_model::{Goal, Knot, Memory, Point};
use std::alloc::Global;

/// The path from the start to the node that costs least of those in a goal, of equal costs to the one with the least number, and its cost;
/// `None` exactly if no node lies in a goal. O(n) for n nodes.
///
/// # Errors
///
/// `Memory` if out of memory for the points.
pub(crate) fn best_path(
    alloc: Global,
    goals: &[Goal],
    knots: &[Option<Knot>],
) -> Result<Option<CostedPath>, Memory>
    requires some { 0 < length knots.now }
    requires few { length knots.now ≤ MOST_NODES }
    requires settled { IsSettledList knots.now }
    ensures { IfOk result (λ path. priced_path path
        ≡ path_by (state_of_lists knots.now []) (best_node goals.now (length knots.now - 1) (state_of_lists knots.now []))) }
{
    match best(goals, knots) {
        Some(node) => {
            let points = path_to(alloc, knots, node)?;
            let cost = kept_cost(knots, node);
            Ok(Some(CostedPath { points, cost }))
        }
        None => Ok(None),
    }
}

/// The node that costs least of those in a goal, of equal costs the one with the least number; `None` exactly if there is none.
fn best(goals: &[Goal], knots: &[Option<Knot>]) -> Option<u32>
    requires some { 0 < length knots.now }
    requires few { length knots.now ≤ MOST_NODES }
    requires settled { IsSettledList knots.now }
    ensures value { result ≡ best_node goals.now (length knots.now - 1) (state_of_lists knots.now []) }
    ensures present { IfSome result (IsPresent (state_of_lists knots.now []).points) }
{
    let mut best: Option<u32> = None;
    // from the last number down, so that of equal costs the lesser number stays
    for node in (0..knots.len() as u32).rev() {
        if is_goal_node(goals, knots, node) {
            best = Some(better_node(knots, node, best));
        }
    }
    best
}

/// Whether a node with this number is present and lies in one of the goals. O(g) for g goals.
pub(crate) fn is_goal_node(goals: &[Goal], knots: &[Option<Knot>], node: u32) -> bool
    ensures value { result ≡ is_goal_point goals.now (point_at (state_of_lists knots.now []).points node) }
    ensures present { IsTrue result → IsPresent (state_of_lists knots.now []).points node }
{
    match knot_at(knots, node) {
        Some(knot) => lies_in_goals(goals, knot.point),
        None => false,
    }
}

/// Of a node and perhaps a later one, the one with the lesser cost, the first if both are equal.
fn better_node(knots: &[Option<Knot>], node: u32, later: Option<u32>) -> u32
    requires settled { IsSettledList knots.now }
    requires present { IsPresent (state_of_lists knots.now []).points node }
    requires later { IfSome later (IsPresent (state_of_lists knots.now []).points) }
    ensures value { result ≡ lesser (sum_in (state_of_lists knots.now [])) node later }
    ensures present { IsPresent (state_of_lists knots.now []).points result }
{
    match later {
        Some(other) if kept_cost(knots, other) < kept_cost(knots, node) => other,
        _ => node,
    }
}

/// The cost of a node; 0 if there is none with this number. O(1).
pub(crate) fn kept_cost(knots: &[Option<Knot>], node: u32) -> u64
    ensures { result ≡ kept_cost_of (slice_index_or knots.now node None) }
{
    match knot_at(knots, node) {
        Some(knot) => knot.cost,
        None => 0,
    }
}

/// The points from the start to a node that is present, by the nodes' parents.
fn path_to(alloc: Global, knots: &[Option<Knot>], node: u32) -> Result<Vec<Point>, Memory>
    requires settled { IsSettledList knots.now }
    requires present { IsPresent (state_of_lists knots.now []).points node }
    ensures { IfOk result (λ path. path.items ≡ path_to (state_of_lists knots.now []) node) }
{
    let mut path = path_back(alloc, knots, node)?;
    path.reverse();
    Ok(path)
}

/// The same in reverse.
fn path_back(alloc: Global, knots: &[Option<Knot>], node: u32) -> Result<Vec<Point>, Memory>
    requires settled { IsSettledList knots.now }
    requires present { IsPresent (state_of_lists knots.now []).points node }
    ensures { IfOk result (λ points. points.items
        ≡ map (point_of (state_of_lists knots.now []).points) (chain_in (state_of_lists knots.now []) node)) }
{
    let mut points = Vec::new(alloc);
    let mut at = node;
    while at != 0 {
        let knot = knot_at(knots, at).unwrap();
        points.push(knot.point)?;
        at = knot.parent;
    }
    points.push(knot_at(knots, 0).unwrap().point)?;
    Ok(points)
}
