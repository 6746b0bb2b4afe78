//! How a lowered cost reaches the descendants of a node.

ghost use Rattle.std.specs.Prelude.{◌≡◌, ◌<◌, ◌≤◌, length, slice_index, OnOk};
ghost use Rattle.plan_model.specs.Trees.NodeLists.{IsPresent, CostsFall, parent_of, points_of};
ghost use Rattle.plan_model.specs.Trees.TreeStates.{IsBranchLowered};

use crate::linked_tree::LinkedTree;
use plan_model::Memory;

/// Lowers the cost of a node, and of each of its descendants, by `fall`.
///
/// `pending` is scratch memory: the nodes that are still to be lowered. O(n) for n nodes that are lowered.
///
/// # Errors
///
/// `Memory` if out of memory; the costs are then of no more use.
pub(crate) fn spread(
    tree: &LinkedTree,
    costs: &mut Vec<u64>,
    node: u32,
    fall: u64,
    pending: &mut Vec<u32>,
) -> Result<(), Memory>
    requires child { 0 < node }
    requires present { IsPresent (points_of tree.now) node }
    requires each { length costs.old.items ≡ length tree.now }
    requires falling { CostsFall (λ n. slice_index costs.old.items n) tree.now }
    requires some { 0 < fall }
    requires enough { fall ≤ slice_index costs.old.items node }
    ensures lowered { OnOk result (IsBranchLowered (points_of tree.now) (parent_of tree.now) node fall
        (λ n. slice_index costs.old.items n) (λ n. slice_index costs.new.items n)) }
    ensures each { OnOk result (length costs.new.items ≡ length costs.old.items) }
{
    pending.clear();
    pending.push(node)?;
    while let Some(number) = pending.pop() {
        costs[number as usize] -= fall;
        tree.push_children(number, pending)?;
    }
    Ok(())
}
