//! The nodes that lie in a goal by which marks are skipped.

ghost use Rattle.std.specs.Prelude.{◌≡◌, ◌+◌, ◌<◌, ◌≤◌, ℕ, [], ◌⊎◌, All, Contains, IsTrue, IsFalse, IfSome, MatchOption, OnOk, length, slice_index};
ghost use Rattle.plan_model.specs.Geometry.Plane.{IsBounded};
ghost use Rattle.plan_model.specs.Runs.Textbook.{MayBeCheaper, setup_of, skipping_goals};
ghost use Rattle.plan_model.specs.Trees.Nearness.{IsFirstLeast, IsNotAbove};
ghost use Rattle.plan_model.specs.Trees.NodeLists.{points_of, sum_of};
ghost use Rattle.plan_model.specs.declared.limits.TheConstants.{MOST_NODES};
ghost use Rattle.seq_planner.specs.LinkedTrees.{AreGoalNodesBelow};
ghost use Rattle.seq_planner.specs.SearchTrees.{IsSkippedBy, IsSoundTree};

use crate::search_tree::SearchTree;
use edge_cost::bound;
use grown_runs::lies_in_goals;
use plan_model::{Memory, Point, Scene};
use std::alloc::Global;

/// The numbers of the nodes that lie in a goal by which marks are skipped: none in a scene that is not informed.
#[derive(Drop)]
pub(crate) struct GoalNodes {
    numbers: Vec<u32>,
}

impl GoalNodes {
    /// No node yet.
    pub(crate) fn new(alloc: Global) -> GoalNodes
        ensures { result.numbers.items ≡ [] }
    {
        GoalNodes {
            numbers: Vec::new(alloc),
        }
    }

    /// Looks at the last number of a tree, whose other nodes were looked at. O(g) for g goals.
    ///
    /// # Errors
    ///
    /// `Memory` if out of memory.
    pub(crate) fn look_at_last(&mut self, scene: &Scene, tree: &SearchTree) -> Result<(), Memory>
        requires some { 0 < length tree.now.nodes }
        requires few { length tree.now.nodes ≤ MOST_NODES }
        requires others { (k : ℕ) → k + 1 ≡ length tree.now.nodes
            → AreGoalNodesBelow (skipping_goals scene.now) (points_of tree.now.nodes) k self.old.numbers.items }
        ensures { OnOk result (AreGoalNodesBelow (skipping_goals scene.now) (points_of tree.now.nodes) (length tree.now.nodes) self.new.numbers.items) }
    {
        let nodes = tree.nodes.as_slice();
        let last = nodes.len() - 1;
        if let Some(node) = nodes[last] {
            if scene.informed && lies_in_goals(scene.goals.as_slice(), node.point) {
                self.numbers.push(last as u32)?;
            }
        }
        Ok(())
    }

    /// The goal node by which a mark is skipped: the one with the least pair of cost and number, if it costs no more than the bound of
    /// the mark. O(n + g) for n goal nodes and g goals.
    pub(crate) fn skipper(&self, scene: &Scene, tree: &SearchTree, mark: Point) -> Option<u32>
        requires sound { IsSoundTree tree.now }
        requires bounded { IsBounded mark }
        requires listed { AreGoalNodesBelow (skipping_goals scene.now) (points_of tree.now.nodes) (length tree.now.nodes) self.now.numbers.items }
        ensures { MatchOption result (MayBeCheaper (setup_of scene.now) (sum_of tree.now.nodes) (points_of tree.now.nodes) mark)
            (IsSkippedBy scene.now tree.now mark) }
    {
        let best = least(&self.numbers, tree.costs.as_slice())?;
        if tree.costs[best as usize] <= bound(scene.start, scene.goals.as_slice(), mark) {
            Some(best)
        } else {
            None
        }
    }
}

/// The number with the least pair of cost and number; `None` exactly if there is no number.
fn least(numbers: &[u32], costs: &[u64]) -> Option<u32>
    requires { All (λ n. n < length costs.now) numbers.now }
    ensures { MatchOption result (length numbers.now ≡ 0) (IsFirstLeast (λ n. slice_index costs.now n) (Contains numbers.now)) }
{
    let mut best = *numbers.first()?;
    for &number in numbers {
        if comes_before(costs, number, best) {
            best = number;
        }
    }
    Some(best)
}

/// Whether the pair of cost and number of one node is less than that of another.
fn comes_before(costs: &[u64], number: u32, other: u32) -> bool
    requires number { number < length costs.now }
    requires other { other < length costs.now }
    ensures before { IsTrue result → IsNotAbove (λ n. slice_index costs.now n) number other }
    ensures after { IsFalse result → IsNotAbove (λ n. slice_index costs.now n) other number }
{
    let cost = costs[number as usize];
    let other_cost = costs[other as usize];
    cost < other_cost || (cost == other_cost && number < other)
}
