//! The skipping of a mark: no path over it is cheaper than the best that is known.

ghost use Rattle.std.specs.Prelude.{◌≡◌, ◌<◌, true, IfNone, IfSome, length};
ghost use Rattle.plan_model.specs.Geometry.Plane.{IsBounded};
ghost use Rattle.plan_model.specs.Runs.ClosedLaw.{mark_at};
ghost use Rattle.plan_model.specs.Trees.BestNode.{bound_of};
ghost use Rattle.plan_words.specs.Nodes.{FindsGoalNode};
ghost use Rattle.plan_words.specs.States.{HasWholeShare};
ghost use Rattle.plan_work.specs.Extensions.{MayExtend};
ghost use Rattle.plan_work.specs.ExtensionSteps.{HasLoadedBest};
ghost use Rattle.step_core.specs.SeenBests.{IsUnskipped, MayBeSkipped};
ghost use Rattle.grown_runs.specs.Table.Words.{best_cost_in};

use edge_cost::bound;
use plan_words::{Pass, Shared};

/// The goal node by which the mark in hand is skipped: the best one that is known, if it costs no more than the bound of the mark. Any
/// path over the mark costs at least as much.
///
/// It makes one step, a load of the best word; none in a scene that is not informed, where no mark is skipped. O(g) for g goals, with
/// two roots.
pub(crate) fn skipper(shared: &Shared, pass: &mut Pass, k: u32) -> Option<u32>
    requires { MayExtend shared.now pass.old k }
    ensures may { MayExtend shared.now pass.new k }
    ensures loaded { HasLoadedBest shared.now pass.old pass.new }
    ensures skipped { IfSome result (λ g. IfSome pass.new.view.hand (λ hand. MayBeSkipped pass.new.view hand g)) }
    ensures informed { IfSome result (λ g. shared.now.task.scene.informed ≡ true) }
    ensures unskipped { IfNone result (IfSome pass.new.view.hand (IsUnskipped pass.new.view)) }
    // a pass with the whole share has seen that node, and that it costs no more
    ensures whole { HasWholeShare pass.old.view → IfSome result (λ g. FindsGoalNode pass.old.view (g, best_cost_in pass.new.view.best)) }
{
    if !shared.task().scene.informed {
        return None;
    }
    let Some((goal_node, cost)) = shared.best(pass) else {
        return None;
    };
    if cost <= mark_bound(shared, k) {
        Some(goal_node)
    } else {
        None
    }
}

/// The bound of mark k.
fn mark_bound(shared: &Shared, k: u32) -> u64
    requires low { k < length shared.now.task.marks }
    requires bounded { IsBounded (mark_at shared.now.task.marks k) }
    ensures { result ≡ bound_of shared.now.task.scene.start shared.now.task.scene.goals (mark_at shared.now.task.marks k) }
{
    let task = shared.task();
    let mark = task.marks.as_slice()[k as usize];
    bound(task.scene.start, task.scene.goals.as_slice(), mark)
}
