//! The best node of a run: the cheapest of those that lie in a goal.

ghost use Rattle.std.specs.Prelude.{◌≡◌, IfSome, IsTrue};
ghost use Rattle.plan_model.specs.Trees.BestNode.{best_node, goals_of, is_goal_point};
ghost use Rattle.plan_model.specs.Trees.Nearness.{lesser};
ghost use Rattle.plan_model.specs.Trees.NodeLists.{IsPresent, point_at};
ghost use Rattle.plan_model.specs.Trees.TreeStates.{IsSettled, sum_in};
ghost use Rattle.grown_runs.specs.Runs.GrownRuns.{state_of_grown};

use grown_runs::{Grown, lies_in_goals};
use plan_model::Goal;

/// The number of the goal node (a node whose point lies in one of the closed goal boxes) with the least cost-to-come, and of those with
/// the same cost the least number; `None` exactly if no node lies in a goal. O(n) for n marks below the limit.
///
/// The run is settled, so each kept cost is the cost-to-come, and no path is walked. In a run that is not settled the node
/// with the least kept cost need not be the best one.
pub fn best(grown: &Grown) -> Option<u32>
    requires { IsSettled (state_of_grown grown.now) }
    ensures value { result ≡ best_node (goals_of grown.now.task.scene) grown.now.limit (state_of_grown grown.now) }
    ensures present { IfSome result (IsPresent (state_of_grown grown.now).points) }
{
    let goals = grown.task().scene.goals.as_slice();
    let mut best: Option<u32> = None;
    // from the last number down, so that of equal costs the lesser number stays
    for node in (0..grown.limit() + 1).rev() {
        if is_goal_node(grown, goals, node) {
            best = Some(better_node(grown, node, best));
        }
    }
    best
}

/// Whether a node with this number is present and lies in one of the goals.
fn is_goal_node(grown: &Grown, goals: &[Goal], node: u32) -> bool
    ensures value { result ≡ is_goal_point goals.now (point_at (state_of_grown grown.now).points node) }
    ensures present { IsTrue result → IsPresent (state_of_grown grown.now).points node }
{
    match grown.point(node) {
        Some(point) => lies_in_goals(goals, point),
        None => false,
    }
}

/// Of a node and perhaps a later one, the one with the lesser cost-to-come, the first if both are equal.
fn better_node(grown: &Grown, node: u32, later: Option<u32>) -> u32
    requires settled { IsSettled (state_of_grown grown.now) }
    requires present { IsPresent (state_of_grown grown.now).points node }
    requires later { IfSome later (IsPresent (state_of_grown grown.now).points) }
    ensures value { result ≡ lesser (sum_in (state_of_grown grown.now)) node later }
    ensures present { IsPresent (state_of_grown grown.now).points result }
{
    match later {
        Some(other) if grown.cost(other) < grown.cost(node) => other,
        _ => node,
    }
}
