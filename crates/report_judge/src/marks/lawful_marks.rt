//! Whether the record of a mark keeps the law of records.

ghost use Rattle.std.specs.Prelude.{◌≡◌, ◌≢◌, ◌↔◌, ◌<◌, ◌≤◌, IsFalse, IsTrue};
ghost use Rattle.plan_model.specs.Geometry.Plane.{IsBounded};
ghost use Rattle.plan_model.specs.Geometry.Lengths.{radius_of_class};
ghost use Rattle.plan_model.specs.Runs.ClosedLaw.{HasClass, earlier_count, IsBlockedLawfully, IsChosenLawfully, IsLawfulRecord, IsSkippedLawfully};
ghost use Rattle.plan_model.specs.Runs.Endings.{first_hanging};
ghost use Rattle.plan_model.specs.declared.records.Outcome.TheVariants.{Skipped};
ghost use Rattle.plan_model.specs.Runs.Textbook.{Setup, mark_bound, setup_of, skipping_goals};
ghost use Rattle.plan_model.specs.Spaces.Clearance.{Clear};
ghost use Rattle.plan_model.specs.Trees.NodeLists.{IsPresent, node_count, point_of};
ghost use Rattle.plan_model.specs.declared.limits.TheConstants.{MOST_MARKS};
ghost use Rattle.report_judge.specs.Workers.JudgedRuns.{IsAsked, IsJudged, run_of, setup_by};
ghost use Rattle.report_judge.specs.Workers.OwnNodes.{AreDearer, IsReachedLawfully, IsNearestOfEarlier};
ghost use Rattle.report_judge.specs.Workers.SeenNodes.{AreSeen};
ghost use Rattle.report_judge.specs.declared.marks.judged.Judged.{Judged};
ghost use Rattle.plan_model.specs.declared.records.Record.{Record};

use crate::marks::judged::{Judged, Marked};
use crate::marks::placed_marks::{hangs_lawfully, stands_at};
use crate::own::searches::{is_nearest, is_nearest_and_keeps_near, is_taken};
use crate::own::seen_nodes::Seen;
use crate::trees::exact_edges::knot_at;
use edge_cost::{bound, class, steer};
use grown_runs::lies_in_goals;
use plan_model::{Outcome, Point, Record, Scene};
use swept_check::Clearing;

/// Whether the record of a mark keeps the law of records. `seen` is what stood before its turn. O(k + s log n) on average besides segments,
/// for k nodes near the mark or near its node, of n nodes of its worker in s bands.
pub(crate) fn is_lawful<C: Clearing>(
    hall: &C,
    judged: &Judged<'_>,
    seen: Seen,
    marked: Marked,
) -> bool
    requires asked { IsAsked (C.space hall.now) judged.now marked.entry marked.mark }
    requires low { marked.k < MOST_MARKS }
    requires seen { AreSeen (skipping_goals judged.now.task.now.scene) (run_of judged.now) marked.entry.worker marked.entry.turn seen }
    ensures { IsTrue result ↔ IsLawfulRecord (setup_by judged.now) (run_of judged.now) marked.k marked.mark marked.entry }
{
    match marked.entry.outcome {
        Outcome::Skipped => {
            is_skipped_lawfully(&judged.task.scene, judged, marked.entry, marked.mark)
        }
        _ => is_steered_lawfully(hall, judged, seen, marked),
    }
}

/// Whether a mark was skipped by a goal node that costs no more than the bound of the mark.
fn is_skipped_lawfully(scene: &Scene, judged: &Judged<'_>, entry: Record, point: Point) -> bool
    requires point { IsBounded point }
    ensures { IsTrue result ↔ IsSkippedLawfully (setup_of scene.now) (run_of judged.now) point entry.nearest }
{
    if !scene.informed {
        return false;
    }
    let Some(goal) = knot_at(judged.knots, entry.nearest) else {
        return false;
    };
    lies_in_goals(scene.goals.as_slice(), goal.point)
        && goal.cost <= bound(scene.start, scene.goals.as_slice(), point)
}

/// Whether a mark may lead to a cheaper path, was steered to by the nearest node, and ended as its record says.
fn is_steered_lawfully<C: Clearing>(
    hall: &C,
    judged: &Judged<'_>,
    seen: Seen,
    marked: Marked,
) -> bool
    requires asked { IsAsked (C.space hall.now) judged.now marked.entry marked.mark }
    requires low { marked.k < MOST_MARKS }
    requires seen { AreSeen (skipping_goals judged.now.task.now.scene) (run_of judged.now) marked.entry.worker marked.entry.turn seen }
    ensures lawful { IsTrue result → IsLawfulRecord (setup_by judged.now) (run_of judged.now) marked.k marked.mark marked.entry }
    ensures only { IsFalse result → marked.entry.outcome ≢ Skipped
        → ¬ IsLawfulRecord (setup_by judged.now) (run_of judged.now) marked.k marked.mark marked.entry }
{
    let Some(nearest) = knot_at(judged.knots, marked.entry.nearest) else {
        return false;
    };
    if !may_be_cheaper(&judged.task.scene, seen, marked.mark) {
        return false;
    }
    let p = steer(nearest.point, marked.mark, judged.task.scene.step);
    ends_lawfully(hall, judged, seen, marked, p)
}

/// Whether each goal node that stood before a mark was placed at more than the bound of the mark.
fn may_be_cheaper(scene: &Scene, seen: Seen, point: Point) -> bool
    requires point { IsBounded point }
    ensures { (judged : Judged) (entry : Record) → AreSeen (skipping_goals scene.now) (run_of judged) entry.worker entry.turn seen
        → (IsTrue result ↔ AreDearer (setup_of scene.now) (run_of judged) entry (mark_bound (setup_of scene.now) point)) }
{
    let Some(least) = seen.least else {
        return true;
    };
    if !scene.informed {
        return true;
    }
    bound(scene.start, scene.goals.as_slice(), point) < least
}

/// Whether a mark that was steered to `p` was steered by the nearest node, and ended as its record says.
fn ends_lawfully<C: Clearing>(
    hall: &C,
    judged: &Judged<'_>,
    seen: Seen,
    marked: Marked,
    p: Point,
) -> bool
    requires asked { IsAsked (C.space hall.now) judged.now marked.entry p }
    requires point { IsBounded marked.mark }
    requires low { marked.k < MOST_MARKS }
    requires seen { AreSeen (skipping_goals judged.now.task.now.scene) (run_of judged.now) marked.entry.worker marked.entry.turn seen }
    requires nearest { IsPresent (run_of judged.now).points marked.entry.nearest }
    ensures { IsTrue result ↔ (IsNearestOfEarlier (run_of judged.now) marked.entry marked.mark
        × IsReachedLawfully (setup_by judged.now) (run_of judged.now) marked.k marked.entry p) }
{
    let entry = marked.entry;
    match entry.outcome {
        Outcome::Placed => {
            is_chosen_lawfully(hall, judged, seen, marked, p)
                && hangs_lawfully(hall, judged, marked, p)
        }
        Outcome::Same(node) => is_nearest(hall, judged, entry, marked.mark)
            && stands_at(judged.knots, node, p),
        Outcome::Blocked => {
            is_nearest(hall, judged, entry, marked.mark)
                && is_blocked_lawfully(hall, judged, entry, p)
        }
        Outcome::Skipped => false,
    }
}

/// Whether the segment to `p` is not clear, and no node that stood already stands there.
fn is_blocked_lawfully<C: Clearing>(hall: &C, judged: &Judged<'_>, entry: Record, p: Point) -> bool
    requires judged { IsJudged entry.worker judged.now }
    requires turn { entry.turn ≤ judged.now.turns }
    requires p { IsBounded p }
    requires nearest { IsPresent (run_of judged.now).points entry.nearest }
    ensures { (setup : Setup) → setup.space ≡ C.space hall.now → (IsTrue result ↔ IsBlockedLawfully setup (run_of judged.now) entry entry.nearest p) }
{
    if is_clear_from_nearest(hall, judged, entry, p) {
        return false;
    }
    if is_taken(hall, judged, entry, p) {
        return false;
    }
    true
}

/// Whether the segment from the nearest node of a record to `p` is clear.
fn is_clear_from_nearest<C: Clearing>(
    hall: &C,
    judged: &Judged<'_>,
    entry: Record,
    p: Point,
) -> bool
    requires nearest { IsPresent (run_of judged.now).points entry.nearest }
    ensures { IsTrue result ↔ Clear (C.space hall.now) (point_of (run_of judged.now).points entry.nearest) p }
{
    match knot_at(judged.knots, entry.nearest) {
        Some(nearest) => hall.clear(nearest.point, p),
        None => false,
    }
}

/// Whether what the worker of a placed mark knows allows its record: the mark was steered by the nearest node, the segment is clear, the
/// class is that of a number of nodes that it may have counted, no neighbour was a cheaper parent, and none stays dearer than by way of the
/// new node.
fn is_chosen_lawfully<C: Clearing>(
    hall: &C,
    judged: &Judged<'_>,
    seen: Seen,
    marked: Marked,
    p: Point,
) -> bool
    requires asked { IsAsked (C.space hall.now) judged.now marked.entry p }
    requires point { IsBounded marked.mark }
    requires seen { AreSeen (skipping_goals judged.now.task.now.scene) (run_of judged.now) marked.entry.worker marked.entry.turn seen }
    requires nearest { IsPresent (run_of judged.now).points marked.entry.nearest }
    ensures { IsTrue result ↔ (IsNearestOfEarlier (run_of judged.now) marked.entry marked.mark
        × IsChosenLawfully (setup_by judged.now) (run_of judged.now) marked.entry marked.entry.nearest (first_hanging marked.entry) p
        (node_count (run_of judged.now).points)) }
{
    if !has_class(judged, seen, marked.entry) {
        return false;
    }
    if !is_clear_from_nearest(hall, judged, marked.entry, p) {
        return false;
    }
    let radius = radius_of_class(judged, marked.entry.class);
    is_nearest_and_keeps_near(hall, judged, marked.entry, marked.mark, p, radius)
}

/// Whether the class of a record is that of a number of nodes between those that stood already and all of them.
fn has_class(judged: &Judged<'_>, seen: Seen, entry: Record) -> bool
    requires judged { IsJudged entry.worker judged.now }
    requires seen { seen.nodes ≡ earlier_count (run_of judged.now) entry }
    ensures class { IsTrue result ↔ HasClass (run_of judged.now) entry entry.class (node_count (run_of judged.now).points) }
    ensures range { IsTrue result → (1 ≤ entry.class) × (entry.class ≤ 19) }
{
    class(u64::from(seen.nodes)) <= entry.class && entry.class <= class(u64::from(judged.nodes))
}

/// The radius of a class.
fn radius_of_class(judged: &Judged<'_>, class: u32) -> u32
    requires low { 1 ≤ class }
    requires high { class ≤ 19 }
    ensures { result ≡ radius_of_class judged.now.radii.now.step judged.now.radii.now.gamma class }
{
    judged.radii.at(1 << (class - 1))
}
