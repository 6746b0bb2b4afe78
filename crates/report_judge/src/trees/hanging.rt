//! What the record of a placed mark says of its node's first parent.

ghost use Rattle.std.specs.Prelude.{◌≡◌, ◌↔◌, ◌^◌, ◌<◌, ℕ, IsTrue, List, None, Option, Some, slice_index_or};
ghost use Rattle.plan_model.specs.Geometry.Plane.{IsBounded};
ghost use Rattle.plan_model.specs.Trees.TreeStates.{first_cost_of};
ghost use Rattle.plan_model.specs.declared.trees.Knot.{Knot};
ghost use Rattle.grown_runs.specs.Runs.PackedRuns.{state_of_lists};
ghost use Rattle.report_judge.specs.Laws.FirstBreaks.{FitsEdges, IsHighEdge, MayHang};

use crate::trees::exact_edges::knot_at;
use edge_cost::cost;
use plan_model::{Knot, Point, Record};
use swept_check::Clearing;

/// What a node cost when it was placed, by the record of its mark; 0 of the start. O(1).
pub(crate) fn first_cost(records: &[Record], node: u32) -> u64
    ensures { (knots : List (Option Knot)) → result ≡ first_cost_of (state_of_lists knots records.now) node }
{
    if node == 0 {
        return 0;
    }
    let k = node as usize - 1;
    if k >= records.len() {
        return 0;
    }
    records[k].first_cost
}

/// Whether a node with this number may hang at a point below a parent at a cost: the parent is another node that is present, the edge is
/// clear and no longer than a step whose square this is, and the cost is at least what the parent costs and the edge. O(1) besides the
/// segment, which is tested last.
pub(crate) fn may_hang<C: Clearing>(
    hall: &C,
    squared_step: u64,
    knots: &[Option<Knot>],
    node: u32,
    place: Knot,
) -> bool
    requires fit { (n : ℕ) (other : Knot) → slice_index_or knots.now n None ≡ Some other → FitsEdges other }
    requires own { FitsEdges place }
    ensures { IsTrue result ↔ MayHang (C.space hall.now) squared_step knots.now node place }
{
    match knot_at(knots, place.parent) {
        Some(parent) => place.parent != node && is_high_edge(hall, squared_step, parent, place),
        None => false,
    }
}

/// Whether an edge is clear and no longer than a step whose square this is, and the second node costs at least what the first does and
/// the edge.
fn is_high_edge<C: Clearing>(hall: &C, squared_step: u64, from: Knot, to: Knot) -> bool
    requires from { IsBounded from.point }
    requires to { IsBounded to.point }
    requires cost { from.cost < 2 ^ 44 }
    ensures { IsTrue result ↔ IsHighEdge (C.space hall.now) squared_step from to }
{
    if from.point.squared_distance(to.point) > squared_step {
        return false;
    }
    to.cost >= from.cost + cost(from.point, to.point) && hall.clear(from.point, to.point)
}
