//! The descent of the tree that tests the zones near a segment.

ghost use Rattle.std.specs.Prelude.{◌≡◌, ℕ, ◌+◌, ◌<◌, ◌≤◌, All, IsTrue, false, length, slice_index_or};
ghost use Rattle.plan_model.specs.Geometry.Plane.{IsBounded};
ghost use Rattle.convex_sets.specs.Boxes.{segment_box};
ghost use Rattle.obstacle_boxes.specs.Trees.{IsLeafAmong, IsMissed, leaves_met, IsTree, leaves_in, CrossesSome, HasSearched};

use crate::box_nodes::Node;
use convex_sets::{BoundingBox, Zone};
use plan_model::Point;
use std::sync::ledger::Ledger;
use swept_check::{Steps, crosses};

/// Whether the segment from `a` to `b` crosses none of the zones at the leaves of a tree. It goes through the nodes from the
/// last one on, passes over each half whose box is apart from the segment's, and ends at the first zone that is crossed, or
/// when only halves that are apart are left. It takes no memory.
pub(crate) fn is_clear_of_leaves<L: Ledger>(
    nodes: &[Node],
    zones: &[Zone],
    a: Point,
    b: Point,
    steps: &mut Steps<L>,
) -> bool
    requires from { IsBounded a }
    requires to { IsBounded b }
    requires tree { IsTree nodes.now }
    requires leaves { All (IsLeafAmong zones.now) (leaves_in nodes.now) }
    ensures missed { IsTrue result → All (IsMissed zones.now a b) (leaves_in nodes.now) }
    ensures all { IsTrue result → steps.new ≡ steps.old + leaves_met (segment_box a b) (leaves_in nodes.now) }
    ensures crossed { result ≡ false → CrossesSome zones.now a b }
    ensures some { result ≡ false → steps.old < steps.new }
    ensures few { steps.new ≤ steps.old + leaves_met (segment_box a b) (leaves_in nodes.now) }
{
    let segment = BoundingBox::of_segment(a, b);
    // All zones before this number are apart.
    let mut low = 0;
    let mut next = nodes.len();
    while low < next {
        let n = next - 1;
        match nodes[n] {
            Node::Halves {
                first,
                middle,
                lower,
                upper,
            } => {
                if first <= low && !segment.meets(lower) {
                    low = middle;
                }
                next = if segment.meets(upper) { n } else { middle };
            }
            Node::Zone(leaf) => {
                if segment.meets(leaf.bounds) && crosses(&zones[leaf.zone], a, b, steps) {
                    return false;
                }
                next = n;
            }
        }
    }
    true
}
