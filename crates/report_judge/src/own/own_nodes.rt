//! The nodes of a worker, sorted by where they stand.

ghost use Rattle.std.specs.Prelude.{◌≡◌, ◌<◌, ◌≤◌, ℕ, suc, IfOk, None, Some, length, slice_index_or};
ghost use Rattle.plan_model.specs.declared.limits.TheConstants.{MOST_MARKS};
ghost use Rattle.plan_model.specs.declared.trees.Knot.{Knot};
ghost use Rattle.grown_runs.specs.Runs.PackedRuns.{state_of_lists};
ghost use Rattle.report_judge.specs.Laws.FirstBreaks.{FitsEdges};
ghost use Rattle.report_judge.specs.Workers.OwnNodes.{AreNodesBefore, IsPlacedAt};
ghost use Rattle.report_judge.specs.Workers.SeenNodes.{AreTurnsOf, HaveOwnTurns};

use crate::marks::presence::is_placed;
use crate::own::own_turns::OwnTurns;
use crate::trees::exact_edges::knot_at;
use plan_model::{Knot, Memory, Point, Record};
use point_bands::{Bands, Numbered};
use std::alloc::Global;

/// The nodes of a worker that stood before a turn, each numbered by its place: the start by 0, and the node that was placed in a turn by
/// the number of turns up to it, that turn included. O(n log n) for n turns.
///
/// # Errors
///
/// `Memory` if out of memory for them.
pub(crate) fn nodes_before(
    alloc: Global,
    knots: &[Option<Knot>],
    records: &[Record],
    turns: &OwnTurns,
    limit: u32,
) -> Result<Bands, Memory>
    requires few { length records.now ≤ MOST_MARKS }
    requires fit { (n : ℕ) (other : Knot) → slice_index_or knots.now n None ≡ Some other → FitsEdges other }
    requires turns { AreTurnsOf records.now turns.now }
    requires own { HaveOwnTurns records.now }
    requires limit { limit ≤ length turns.now.marks.items }
    ensures { IfOk result (λ nodes. AreNodesBefore (state_of_lists knots.now records.now) turns.now.worker limit nodes) }
{
    let mut nodes = Vec::new(alloc);
    if let Some(start) = knot_at(knots, 0) {
        nodes.push(Numbered {
            point: start.point,
            number: 0,
        })?;
    }
    for turn in 0..limit {
        if let Some(point) = placed_at(knots, records, turns.marks[turn as usize]) {
            let number = turn + 1;
            nodes.push(Numbered { point, number })?;
        }
    }
    Ok(Bands::new(nodes))
}

/// Where the node of a mark stands, if there is a mark that was placed.
fn placed_at(knots: &[Option<Knot>], records: &[Record], k: Option<u32>) -> Option<Point>
    requires few { length records.now ≤ MOST_MARKS }
    requires fit { (n : ℕ) (other : Knot) → slice_index_or knots.now n None ≡ Some other → FitsEdges other }
    ensures { IsPlacedAt knots.now records.now k result }
{
    let Some(k) = k else {
        return None;
    };
    if k as usize >= records.len() {
        return None;
    }
    if !is_placed(records[k as usize].outcome) {
        return None;
    }
    match knot_at(knots, k + 1) {
        Some(knot) => Some(knot.point),
        None => None,
    }
}
