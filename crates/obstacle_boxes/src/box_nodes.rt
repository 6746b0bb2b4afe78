//! The nodes of the tree, in one list.

ghost use Rattle.std.specs.Prelude.{IfOk};
ghost use Rattle.obstacle_boxes.specs.Trees.{Adds};

use crate::leaves::{Leaf, MOST_TOGETHER, box_round};
use convex_sets::BoundingBox;
use plan_model::Memory;

/// A node of the tree.
#[derive(Debug, Clone, Copy)]
pub(crate) enum Node {
    /// Two halves of some zones. Below it lie all nodes before it, from the number `first` on: those of the lower half, and from
    /// the number `middle` on those of the upper half.
    Halves {
        /// The number at which the lower half begins.
        first: usize,
        /// The number at which the upper half begins.
        middle: usize,
        /// A box round the lower half.
        lower: BoundingBox,
        /// A box round the upper half.
        upper: BoundingBox,
    },
    /// A zone with its bounding box.
    Zone(Leaf),
}

/// Adds the tree of some leaves at the end of a list: the leaves themselves if they are few, otherwise the trees of both halves,
/// and then the node above them. O(n log n).
pub(crate) fn push_tree(leaves: &[Leaf], nodes: &mut Vec<Node>) -> Result<(), Memory>
    ensures { IfOk result (λ _. Adds leaves.now nodes.old.items nodes.new.items) }
{
    if leaves.len() <= MOST_TOGETHER {
        return push_leaves(leaves, nodes);
    }
    let (lower, upper) = leaves.split_at(leaves.len() / 2);
    let first = nodes.len();
    push_tree(lower, nodes)?;
    let middle = nodes.len();
    push_tree(upper, nodes)?;
    nodes.push(Node::Halves {
        first,
        middle,
        lower: box_round(lower),
        upper: box_round(upper),
    })?;
    Ok(())
}

/// Adds leaves, one by one.
fn push_leaves(leaves: &[Leaf], nodes: &mut Vec<Node>) -> Result<(), Memory>
    ensures { IfOk result (λ _. Adds leaves.now nodes.old.items nodes.new.items) }
{
    for leaf in leaves {
        nodes.push(Node::Zone(*leaf))?;
    }
    Ok(())
}
