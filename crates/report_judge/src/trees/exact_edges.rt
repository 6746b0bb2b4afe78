//! Whether the cost of a node is exactly that of its parent and the edge.

ghost use Rattle.std.specs.Prelude.{◌≡◌, ◌↔◌, ◌^◌, ◌<◌, ℕ, ◌≤◌, IsFalse, IsTrue, length, slice_index_or};
ghost use Rattle.plan_model.specs.Geometry.Plane.{IsBounded};
ghost use Rattle.plan_model.specs.declared.trees.Knot.{Knot};
ghost use Rattle.report_judge.specs.Laws.FirstBreaks.{FitsEdges, HangsExactly, IsExactEdge, KeepsEdges, IsFirstBreak};
ghost use Rattle.plan_model.specs.declared.limits.TheConstants.{MOST_NODES};

use edge_cost::cost;
use plan_model::Knot;
use swept_check::Clearing;

/// Whether the edge from one node to another is clear and no longer than a step whose square this is, and the other costs exactly what
/// the first does and the edge. The segment is tested last. No coordinate is above `MOST_COORDINATE`.
pub(crate) fn is_exact_edge<C: Clearing>(hall: &C, squared_step: u64, from: Knot, to: Knot) -> bool
    requires from { IsBounded from.point }
    requires to { IsBounded to.point }
    requires cost { from.cost < 2 ^ 44 }
    ensures { IsTrue result ↔ IsExactEdge (C.space hall.now) squared_step from to }
{
    if from.point.squared_distance(to.point) > squared_step {
        return false;
    }
    to.cost == from.cost + cost(from.point, to.point) && hall.clear(from.point, to.point)
}

/// Whether a node hangs below another one that is present, by an exact edge. The number of the node is not that of the parent that it
/// names. O(1) besides the segment.
pub(crate) fn hangs_exactly<C: Clearing>(
    hall: &C,
    squared_step: u64,
    knots: &[Option<Knot>],
    node: u32,
    knot: Knot,
) -> bool
    requires fit { (n : ℕ) (other : Knot) → slice_index_or knots.now n None ≡ Some other → FitsEdges other }
    requires own { FitsEdges knot }
    ensures { IsTrue result ↔ HangsExactly (C.space hall.now) squared_step knots.now node knot }
{
    match knot_at(knots, knot.parent) {
        Some(parent) => knot.parent != node && is_exact_edge(hall, squared_step, parent, knot),
        None => false,
    }
}

/// The first node but the start that does not hang exactly below its parent; `None` exactly if each does. O(n) besides the segments.
pub(crate) fn first_loose<C: Clearing>(
    hall: &C,
    squared_step: u64,
    knots: &[Option<Knot>],
) -> Option<usize>
    requires few { length knots.now ≤ MOST_NODES }
    requires fit { (n : ℕ) (other : Knot) → slice_index_or knots.now n None ≡ Some other → FitsEdges other }
    ensures { IsFirstBreak (KeepsEdges (C.space hall.now) squared_step knots.now) (length knots.now) result }
{
    for node in 1..knots.len() as u32 {
        if is_loose(hall, squared_step, knots, node) {
            return Some(node as usize);
        }
    }
    None
}

/// Whether a node but the start is present and does not hang exactly below its parent.
fn is_loose<C: Clearing>(hall: &C, squared_step: u64, knots: &[Option<Knot>], node: u32) -> bool
    requires later { 0 < node }
    requires fit { (n : ℕ) (other : Knot) → slice_index_or knots.now n None ≡ Some other → FitsEdges other }
    ensures loose { IsTrue result → ¬ KeepsEdges (C.space hall.now) squared_step knots.now node }
    ensures kept { IsFalse result → KeepsEdges (C.space hall.now) squared_step knots.now node }
{
    match knot_at(knots, node) {
        Some(knot) => !hangs_exactly(hall, squared_step, knots, node, knot),
        None => false,
    }
}

/// The node with this number; `None` if there is none.
pub(crate) fn knot_at(knots: &[Option<Knot>], node: u32) -> Option<Knot>
    ensures { result ≡ slice_index_or knots.now node None }
{
    let node = node as usize;
    if node < knots.len() {
        knots[node]
    } else {
        None
    }
}
