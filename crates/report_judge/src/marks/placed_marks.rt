//! Whether what the record of a placed mark says is borne out by the tree.

ghost use Rattle.std.specs.Prelude.{◌↔◌, ◌<◌, IsTrue, List};
ghost use Rattle.plan_model.specs.Geometry.Plane.{IsBounded};
ghost use Rattle.plan_model.specs.Runs.Endings.{first_hanging};
ghost use Rattle.plan_model.specs.Runs.ClosedLaw.{HangsLawfully};
ghost use Rattle.plan_model.specs.Trees.NodeLists.{IsPresent, StandsAt};
ghost use Rattle.plan_model.specs.declared.limits.TheConstants.{MOST_MARKS};
ghost use Rattle.plan_model.specs.declared.records.Record.{Record};
ghost use Rattle.grown_runs.specs.Runs.PackedRuns.{state_of_lists};
ghost use Rattle.report_judge.specs.Workers.JudgedRuns.{IsAsked, IsJudged, run_of, setup_by};
ghost use Rattle.report_judge.specs.Workers.OwnNodes.{IsWithinFirst};

use crate::marks::judged::{Judged, Marked};
use crate::trees::best_paths::kept_cost;
use crate::trees::exact_edges::knot_at;
use crate::trees::hanging::{first_cost, may_hang};
use edge_cost::cost;
use plan_model::{Knot, Point, Record};
use swept_check::Clearing;

/// Whether the node of a mark hangs as the record says: it stands at `p`, may hang below its first parent at its first cost, which is at
/// most that by way of this parent or of the nearest node as they were placed, and at most a longest edge for each other node; and it costs
/// no more now. O(1) besides a segment.
pub(crate) fn hangs_lawfully<C: Clearing>(
    hall: &C,
    judged: &Judged<'_>,
    marked: Marked,
    p: Point,
) -> bool
    requires asked { IsAsked (C.space hall.now) judged.now marked.entry p }
    requires low { marked.k < MOST_MARKS }
    requires nearest { IsPresent (run_of judged.now).points marked.entry.nearest }
    ensures { IsTrue result ↔ HangsLawfully (setup_by judged.now) (run_of judged.now) marked.k marked.entry.nearest (first_hanging marked.entry) p }
{
    let scene = &judged.task.scene;
    let entry = marked.entry;
    let node = marked.k + 1;
    if !stands_at(judged.knots, node, p) {
        return false;
    }
    if kept_cost(judged.knots, node) > entry.first_cost {
        return false;
    }
    if entry.nearest == node {
        return false;
    }
    if entry.first_cost > 256 * u64::from(scene.step) * u64::from(judged.nodes - 1) {
        return false;
    }
    if !is_within_first(judged, entry, entry.nearest, p) {
        return false;
    }
    if !is_within_first(judged, entry, entry.first_parent, p) {
        return false;
    }
    let place = Knot {
        point: p,
        parent: entry.first_parent,
        cost: entry.first_cost,
    };
    let squared_step = u64::from(scene.step) * u64::from(scene.step);
    may_hang(hall, squared_step, judged.knots, node, place)
}

/// Whether a node is present and stands at a point.
pub(crate) fn stands_at(knots: &[Option<Knot>], node: u32, p: Point) -> bool
    ensures { (records : List Record) → (IsTrue result ↔ StandsAt (state_of_lists knots.now records).points node p) }
{
    match knot_at(knots, node) {
        Some(knot) => knot.point == p,
        None => false,
    }
}

/// Whether a node is present, and the way by it to `p`, as it was placed, costs at least the first cost of a record.
fn is_within_first(judged: &Judged<'_>, entry: Record, node: u32, p: Point) -> bool
    requires judged { IsJudged entry.worker judged.now }
    requires p { IsBounded p }
    ensures { IsTrue result ↔ IsWithinFirst (run_of judged.now) entry.first_cost node p }
{
    match knot_at(judged.knots, node) {
        Some(knot) => entry.first_cost <= first_cost(judged.records, node) + cost(knot.point, p),
        None => false,
    }
}
