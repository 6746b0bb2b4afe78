//! The textbook planner over the marks of a task.

ghost use Rattle.std.specs.Prelude.{◌≡◌, ◌+◌, ◌≤◌, length, IfOk, OnOk};
ghost use Rattle.plan_model.specs.Geometry.Plane.{IsBounded};
ghost use Rattle.plan_model.specs.Spaces.Clearance.{ClearAt};
ghost use Rattle.plan_model.specs.Spaces.ConfigurationSpace.{space_of};
ghost use Rattle.plan_model.specs.Runs.Textbook.{IsOfTextbookRun, setup_of, skipping_goals};
ghost use Rattle.plan_model.specs.Trees.NodeLists.{points_of};
ghost use Rattle.plan_model.specs.Trees.TreeStates.{IsSettled};
ghost use Rattle.plan_model.specs.declared.limits.TheConstants.{MOST_MARKS};
ghost use Rattle.seq_planner.specs.LinkedTrees.{AreGoalNodesBelow};
ghost use Rattle.seq_planner.specs.SearchTrees.{GrowsByMark, IsSoundTree};
ghost use Rattle.grown_runs.specs.Runs.GrownRuns.{state_of_grown};

use crate::goal_nodes::GoalNodes;
use crate::search_tree::{Lists, SearchTree};
use edge_cost::Radii;
use grown_runs::Grown;
use plan_model::{Memory, Point, Scene, Task};
use std::alloc::Global;
use swept_check::Clearing;

/// What each mark is handled in: a scene, with its radii.
#[derive(Clone, Copy)]
struct Setting<'a> {
    scene: &'a Scene,
    radii: Radii,
    ghost step: { radii.step ≡ scene.now.step },
    ghost gamma: { radii.gamma ≡ scene.now.gamma },
}

/// RRT* over the marks (the samples) of a task in rising number, from its start, which is clear. Without a mark the run is
/// the start alone.
///
/// The points of all nodes are looked at once for each mark with a node within the rewiring radius. For any other mark it
/// is at most three times, and once if gamma is 0: O(n) for each of n marks. Besides, a mark costs a root for each parent
/// that is tried and each node that is rewired, and O(1) for each node whose cost is lowered; in an informed scene it costs two
/// roots, and O(1) for each goal node and each goal, and a skipped mark nothing else. `hall` is the collision
/// checker of the scene; it is asked about the edge from the nearest node, and about those to near nodes that would be
/// cheaper. The closed run is packed once, in O(n * d) for d nodes on the longest way through its kd-tree.
///
/// # Errors
///
/// `Memory` if out of memory for the nodes, the records, the lists of near nodes or the closed run. The task is gone then.
pub fn textbook<C: Clearing>(alloc: Global, task: Task, hall: &C) -> Result<Grown, Memory>
    requires hall { C.space hall.now ≡ space_of task.scene }
    requires start { ClearAt (space_of task.scene) task.scene.start }
    ensures task { IfOk result (λ grown. grown.task ≡ task) }
    ensures limit { IfOk result (λ grown. grown.limit ≡ length task.marks) }
    ensures run { IfOk result (λ grown. IsOfTextbookRun (setup_of task.scene) task.marks (state_of_grown grown)) }
    ensures settled { IfOk result (λ grown. IsSettled (state_of_grown grown)) }
{
    let scene = &task.scene;
    let marks = task.marks.as_slice();
    let setting = Setting {
        scene,
        radii: Radii::new(scene.step, scene.gamma),
    };
    let mut lists = Lists::new(alloc);
    let mut tree = SearchTree::new(alloc, scene.start)?;
    let mut goal_nodes = GoalNodes::new(alloc);
    goal_nodes.look_at_last(scene, &tree)?;
    for &mark in marks {
        handle_or_skip(&mut tree, &goal_nodes, &setting, hall, mark, &mut lists)?;
        goal_nodes.look_at_last(scene, &tree)?;
    }
    tree.into_run(alloc, task)
}

/// Handles the next mark, or records that it is skipped.
fn handle_or_skip<C: Clearing>(
    tree: &mut SearchTree,
    goal_nodes: &GoalNodes,
    setting: &Setting<'_>,
    hall: &C,
    mark: Point,
    lists: &mut Lists,
) -> Result<(), Memory>
    requires listed { AreGoalNodesBelow (skipping_goals setting.now.scene.now) (points_of tree.old.nodes) (length tree.old.nodes) goal_nodes.now.numbers.items }
    requires hall { C.space hall.now ≡ space_of setting.now.scene.now }
    requires sound { IsSoundTree tree.old }
    requires few { length tree.old.nodes ≤ MOST_MARKS }
    requires turn { length tree.old.records.items + 1 ≡ length tree.old.nodes }
    requires bounded { IsBounded mark }
    ensures handles { OnOk result (GrowsByMark setting.now.scene.now tree.old mark tree.new) }
    ensures sound { OnOk result (IsSoundTree tree.new) }
{
    match goal_nodes.skipper(setting.scene, tree, mark) {
        Some(goal_node) => tree.skip(goal_node),
        None => tree.handle(setting.scene, &setting.radii, hall, mark, lists),
    }
}
