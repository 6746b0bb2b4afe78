//! Whether each node of a report keeps the law of nodes.

ghost use Rattle.std.specs.Prelude.{◌≡◌, ◌↔◌, ◌*◌, ◌<◌, ◌≤◌, ℕ, IfOk, IsSome, IsTrue, IfSome, List, None, Some, length, slice_index_or};
ghost use Rattle.plan_model.specs.Geometry.Plane.{IsBounded};
ghost use Rattle.plan_model.specs.Runs.Textbook.{setup_of};
ghost use Rattle.plan_model.specs.Spaces.ConfigurationSpace.{space_of};
ghost use Rattle.plan_model.specs.declared.limits.TheConstants.{MOST_NODES};
ghost use Rattle.plan_model.specs.declared.records.Record.{Record};
ghost use Rattle.plan_model.specs.declared.trees.Knot.{Knot};
ghost use Rattle.report_judge.specs.Laws.FirstBreaks.{FitsEdges, IsFirstBreak, KeepsNode, point_key};

use crate::first_breaks::earlier;
use crate::repeats::first_repeat;
use crate::trees::exact_edges::first_loose;
use plan_model::{Knot, Memory, Point, Scene};
use std::alloc::Global;
use swept_check::Clearing;

/// The first node that breaks the law of nodes: that the start stands at its point, is its own parent and costs nothing, and that each
/// other node stands where no earlier one does and hangs below its parent by an allowed edge at its exact cost. `None` exactly if each
/// node keeps it. The start is present. O(n log n) for n nodes, besides a segment for each.
///
/// # Errors
///
/// `Memory` if out of memory.
pub(crate) fn first_unsound<C: Clearing>(
    alloc: Global,
    scene: &Scene,
    hall: &C,
    knots: &[Option<Knot>],
) -> Result<Option<usize>, Memory>
    requires hall { C.space hall.now ≡ space_of scene.now }
    requires few { length knots.now ≤ MOST_NODES }
    requires fit { (n : ℕ) (other : Knot) → slice_index_or knots.now n None ≡ Some other → FitsEdges other }
    requires start { IsSome (slice_index_or knots.now 0 None) }
    ensures { IfOk result (λ first. (records : List Record) → IsFirstBreak (KeepsNode (setup_of scene.now) knots.now records) (length knots.now) first) }
{
    if !is_start(knots, scene.start) {
        return Ok(Some(0));
    }
    let keys = point_keys(alloc, knots)?;
    let repeat = first_repeat(alloc, &keys)?;
    let squared_step = u64::from(scene.step) * u64::from(scene.step);
    let loose = first_loose(hall, squared_step, knots);
    Ok(earlier(repeat, loose))
}

/// Whether node 0 stands at the start, is its own parent and costs nothing.
fn is_start(knots: &[Option<Knot>], start: Point) -> bool
    requires { IsSome (slice_index_or knots.now 0 None) }
    ensures { IsTrue result ↔ slice_index_or knots.now 0 None ≡ Some (record { point = start; parent = 0; cost = 0 }) }
{
    knots[0]
        == Some(Knot {
            point: start,
            parent: 0,
            cost: 0,
        })
}

/// A number for the point of each node, and one of its own for each number without a node.
fn point_keys(alloc: Global, knots: &[Option<Knot>]) -> Result<Vec<u64>, Memory>
    requires few { length knots.now ≤ MOST_NODES }
    requires fit { (n : ℕ) (other : Knot) → slice_index_or knots.now n None ≡ Some other → FitsEdges other }
    ensures length { IfOk result (λ keys. length keys.items ≡ length knots.now) }
    ensures keys { IfOk result (λ keys. (n : ℕ) → n < length knots.now
        → slice_index_or keys.items n 0 ≡ point_key n (slice_index_or knots.now n None)) }
{
    let mut keys = Vec::with_capacity(alloc, knots.len())?;
    for (node, knot) in knots.iter().enumerate() {
        keys.push(key(node, *knot))?;
    }
    Ok(keys)
}

/// A number for the point of a node, or one of its own if there is no node with this number.
fn key(node: usize, knot: Option<Knot>) -> u64
    requires few { node ≤ MOST_NODES }
    requires bounded { IfSome knot (λ k. IsBounded k.point) }
    ensures { result ≡ point_key node knot }
{
    match knot {
        Some(knot) => u64::from(knot.point.x) * 1_048_576 + u64::from(knot.point.y),
        None => (1 << 40) + node as u64,
    }
}
