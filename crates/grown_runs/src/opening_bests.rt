//! The best word of a run that passes are to go on from. While a run rests the word says nothing.

ghost use Rattle.std.specs.Prelude.{◌≡◌, ◌<◌, ◌≤◌, ◌^◌, if◌then◌else◌};
ghost use Rattle.plan_model.specs.Runs.Textbook.{skipping_goals};
ghost use Rattle.plan_model.specs.Trees.BestNode.{is_goal_point, lies_in_goals};
ghost use Rattle.plan_model.specs.Trees.NodeLists.{point_at};
ghost use Rattle.grown_runs.specs.Runs.GrownRuns.{state_of_grown};
ghost use Rattle.grown_runs.specs.Runs.PackedRuns.{IsLeastBest};
ghost use Rattle.grown_runs.specs.Table.Words.{best_word, no_best};

use crate::best_words::pack_best;
use crate::grown::Grown;
use crate::layout::NO_BEST;
use plan_model::{Goal, Point};

/// The least pair of the nodes in goals by which marks are skipped, as the best word.
pub(crate) fn least_best(grown: &Grown) -> u64
    ensures { IsLeastBest (skipping_goals grown.now.task.scene) (state_of_grown grown.now) result }
{
    let mut best = NO_BEST;
    if grown.task().scene.informed {
        for node in 0..grown.limit() + 1 {
            best = best.min(goal_word(grown, node));
        }
    }
    best
}

/// The kept cost of a node, if that is present and lies in a goal, as the best word; or else the word that no goal node is known.
fn goal_word(grown: &Grown, node: u32) -> u64
    requires { node ≤ grown.now.limit }
    ensures { result ≡ (if is_goal_point grown.now.task.scene.goals (point_at (state_of_grown grown.now).points node)
        then best_word ((state_of_grown grown.now).cost node) node else no_best) }
{
    match grown.point(node) {
        Some(point) if lies_in_goals(grown.task().scene.goals.as_slice(), point) => {
            pack_best(grown.cost(node), node)
        }
        _ => NO_BEST,
    }
}

/// Whether the point lies in one of the goals. O(k) for k goals.
pub fn lies_in_goals(goals: &[Goal], point: Point) -> bool
    ensures { result ≡ lies_in_goals goals.now point }
{
    goals.iter().any(|goal| goal.contains(point))
}
