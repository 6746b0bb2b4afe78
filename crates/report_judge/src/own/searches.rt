//! Searches among the nodes of a worker for those that stood already when it handled a mark.

ghost use Rattle.std.specs.Prelude.{◌≡◌, ◌↔◌, ◌*◌, ◌<◌, ◌≤◌, ℕ, IsFalse, IsTrue, length};
ghost use Rattle.plan_model.specs.Geometry.Plane.{IsBounded};
ghost use Rattle.plan_model.specs.Runs.ClosedLaw.{IsEarlier};
ghost use Rattle.plan_model.specs.Trees.Nearness.{distance_to};
ghost use Rattle.plan_model.specs.Trees.NodeLists.{IsPresent, StandsAt};
ghost use Rattle.point_bands.specs.Walks.{IsWithin};
ghost use Rattle.point_bands.specs.declared.bands.Numbered.{Numbered};
ghost use Rattle.report_judge.specs.Workers.JudgedRuns.{IsJudged, run_of};
ghost use Rattle.report_judge.specs.Workers.OwnNodes.{HasNo, HasOne, IsCheaperAt};
ghost use Rattle.report_judge.specs.Workers.OwnNodes.{IsNearestOfEarlier, IsTaken, KeepsNear};

use crate::marks::judged::Judged;
use crate::own::standings::Standing;
use crate::trees::exact_edges::knot_at;
use edge_cost::costs_less_through;
use plan_model::{Point, Record};
use point_bands::{Disc, Numbered, Stretch};
use swept_check::Clearing;

/// A search among the nodes of a worker.
trait Search: Copy {
    ghost use Rattle.std.specs.Prelude.{List};
    ghost use Rattle.plan_model.specs.declared.configuration_spaces.ConfigurationSpace.{ConfigurationSpace};
    ghost use Rattle.report_judge.specs.declared.own.standings.Standing.{Standing};
    ghost use Rattle.point_bands.specs.declared.bands.Numbered.{Numbered};

    /// What it asks of the standings of the nodes.
    ghost may_look: { Self → List Standing → Type 0 };

    /// Which nodes it finds, where segments are clear in a space.
    ghost finds: { Self → ConfigurationSpace → List Standing → Numbered → Type 0 };

    /// Whether it finds a node. O(1), besides a segment if need be.
    fn has<C: Clearing>(self, hall: &C, standings: &[Standing], node: Numbered) -> bool
        requires may { may_look self standings.now }
        requires bounded { IsBounded node.point }
        ensures { IsTrue result ↔ finds self (C.space hall.now) standings.now node };
}

/// A search for a node that stood before a turn, and is nearer to a point than at a distance, or as near with a number below a number.
#[derive(Clone, Copy)]
struct NearerSearch {
    /// The point.
    point: Point,
    /// The square of the distance.
    distance: u64,
    /// The number.
    number: u32,
    /// The turn.
    turn: u32,
}

/// A search for a node that is nearer to a new node than it may be; or that stood before the same turn, within a radius of the new node and
/// with a clear segment to it, and was a cheaper parent of it, or is dearer than by way of it.
#[derive(Clone, Copy)]
struct NeighbourSearch {
    /// Which nodes are nearer to the new node than they may be: its distance is not above the radius.
    nearer: NearerSearch,
    /// The square of the radius.
    square: u64,
    /// What the new node cost at first.
    first_cost: u64,
}

/// Whether no node that stood already is nearer to a mark than the nearest of its record, or as near with a lesser number. O(k + s log n)
/// on average for k of the worker's n nodes within the distance to the nearest, in s bands.
pub(crate) fn is_nearest<C: Clearing>(
    hall: &C,
    judged: &Judged<'_>,
    entry: Record,
    mark: Point,
) -> bool
    requires bounded { IsBounded mark }
    requires judged { IsJudged entry.worker judged.now }
    requires turn { entry.turn ≤ judged.now.turns }
    requires nearest { IsPresent (run_of judged.now).points entry.nearest }
    ensures { IsTrue result ↔ IsNearestOfEarlier (run_of judged.now) entry mark }
{
    let search = NearerSearch {
        point: mark,
        distance: nearest_distance(judged, entry, mark),
        number: entry.nearest,
        turn: entry.turn,
    };
    !has_one(hall, judged, search, Disc::of_square(mark, search.distance))
}

/// The square of the distance from a mark to the nearest node of its record.
fn nearest_distance(judged: &Judged<'_>, entry: Record, mark: Point) -> u64
    requires bounded { IsBounded mark }
    requires judged { IsJudged entry.worker judged.now }
    requires nearest { IsPresent (run_of judged.now).points entry.nearest }
    ensures { result ≡ distance_to mark (run_of judged.now).points entry.nearest }
{
    match knot_at(judged.knots, entry.nearest) {
        Some(nearest) => nearest.point.squared_distance(mark),
        None => 0,
    }
}

/// Whether a node that stood already stands at a point. O(s log n) for n nodes of the worker in s bands.
pub(crate) fn is_taken<C: Clearing>(hall: &C, judged: &Judged<'_>, entry: Record, p: Point) -> bool
    requires bounded { IsBounded p }
    requires judged { IsJudged entry.worker judged.now }
    requires turn { entry.turn ≤ judged.now.turns }
    ensures taken { IsTrue result → IsTaken (run_of judged.now) entry p }
    ensures free { IsFalse result → (i : ℕ) → IsEarlier (run_of judged.now) entry i → ¬ StandsAt (run_of judged.now).points i p }
{
    let search = NearerSearch {
        point: p,
        distance: 0,
        number: u32::MAX,
        turn: entry.turn,
    };
    has_one(hall, judged, search, Disc::of_square(p, 0))
}

/// Whether no node that stood already is nearer to a mark than the nearest of its record, or as near with a lesser number, and none within
/// a radius of a new node at `p`, with a clear segment to it, was a cheaper parent or is dearer than by way of the new node. If the new node
/// stands at the mark, and the nearest within the radius, one search answers both. O(k + s log n) on average for k of the worker's n nodes
/// within the distance or the radius, in s bands; a segment is tested only from a node by whose costs it matters.
pub(crate) fn is_nearest_and_keeps_near<C: Clearing>(
    hall: &C,
    judged: &Judged<'_>,
    entry: Record,
    mark: Point,
    p: Point,
    radius: u32,
) -> bool
    requires mark { IsBounded mark }
    requires bounded { IsBounded p }
    requires judged { IsJudged entry.worker judged.now }
    requires turn { entry.turn ≤ judged.now.turns }
    requires nearest { IsPresent (run_of judged.now).points entry.nearest }
    ensures { IsTrue result ↔ (IsNearestOfEarlier (run_of judged.now) entry mark × KeepsNear (C.space hall.now) (run_of judged.now) entry p radius) }
{
    if p == mark {
        let distance = nearest_distance(judged, entry, mark);
        if distance <= u64::from(radius) * u64::from(radius) {
            return is_least_near(hall, judged, entry, mark, distance, radius);
        }
    }
    if !is_nearest(hall, judged, entry, mark) {
        return false;
    }
    keeps_near(hall, judged, entry, p, radius)
}

/// The same, of a new node at the mark, if the nearest stands within the radius; `distance` is the square of the distance to it.
fn is_least_near<C: Clearing>(
    hall: &C,
    judged: &Judged<'_>,
    entry: Record,
    mark: Point,
    distance: u64,
    radius: u32,
) -> bool
    requires bounded { IsBounded mark }
    requires judged { IsJudged entry.worker judged.now }
    requires turn { entry.turn ≤ judged.now.turns }
    requires distance { distance ≡ distance_to mark (run_of judged.now).points entry.nearest }
    requires within { distance ≤ radius * radius }
    ensures { IsTrue result ↔ (IsNearestOfEarlier (run_of judged.now) entry mark × KeepsNear (C.space hall.now) (run_of judged.now) entry mark radius) }
{
    let search = NeighbourSearch {
        nearer: NearerSearch {
            point: mark,
            distance,
            number: entry.nearest,
            turn: entry.turn,
        },
        square: u64::from(radius) * u64::from(radius),
        first_cost: entry.first_cost,
    };
    !has_one(hall, judged, search, Disc::of_radius(mark, radius))
}

/// Whether no node that stood already within a radius of a new node at `p`, with a clear segment to it, was a cheaper parent, and none
/// is dearer than by way of the new node.
fn keeps_near<C: Clearing>(
    hall: &C,
    judged: &Judged<'_>,
    entry: Record,
    p: Point,
    radius: u32,
) -> bool
    requires bounded { IsBounded p }
    requires judged { IsJudged entry.worker judged.now }
    requires turn { entry.turn ≤ judged.now.turns }
    ensures { IsTrue result ↔ KeepsNear (C.space hall.now) (run_of judged.now) entry p radius }
{
    let search = NeighbourSearch {
        nearer: NearerSearch {
            point: p,
            distance: 0,
            number: 0,
            turn: entry.turn,
        },
        square: u64::from(radius) * u64::from(radius),
        first_cost: entry.first_cost,
    };
    !has_one(hall, judged, search, Disc::of_radius(p, radius))
}

/// Whether a search finds a node of the worker. Each node that it finds lies in the disc.
fn has_one<C: Clearing, S: Search>(hall: &C, judged: &Judged<'_>, search: S, disc: Disc) -> bool
    requires may { S.may_look search judged.now.standings.now }
    requires within { (m : Numbered) → S.finds search (C.space hall.now) judged.now.standings.now m → IsWithin disc.center disc.square m.point }
    ensures some { IsTrue result → HasOne (S.finds search (C.space hall.now) judged.now.standings.now) judged.now.own.now 0 (length judged.now.own.now) }
    ensures none { IsFalse result → HasNo (S.finds search (C.space hall.now) judged.now.standings.now) judged.now.own.now 0 (length judged.now.own.now) }
{
    let mut at = 0;
    'walk: while let Some(stretch) = judged.own.next_stretch(at, disc) {
        if has_one_in(hall, judged, search, stretch) {
            return true;
        }
        at = stretch.end;
    }
    false
}

/// Whether it finds one in a stretch.
fn has_one_in<C: Clearing, S: Search>(
    hall: &C,
    judged: &Judged<'_>,
    search: S,
    stretch: Stretch,
) -> bool
    requires may { S.may_look search judged.now.standings.now }
    requires inside { stretch.end ≤ length judged.now.own.now }
    ensures some { IsTrue result → HasOne (S.finds search (C.space hall.now) judged.now.standings.now) judged.now.own.now stretch.start stretch.end }
    ensures none { IsFalse result → HasNo (S.finds search (C.space hall.now) judged.now.standings.now) judged.now.own.now stretch.start stretch.end }
{
    for position in stretch.start..stretch.end {
        if search.has(hall, judged.standings, judged.own.at(position)) {
            return true;
        }
    }
    false
}

impl Search for NearerSearch {
    ghost use Rattle.std.specs.Prelude.{◌<◌, length};
    ghost use Rattle.plan_model.specs.Geometry.Plane.{IsBounded};
    ghost use Rattle.report_judge.specs.Workers.OwnNodes.{IsNearerAt};

    ghost may_look = { λ s standings. IsBounded s.point × (s.turn < length standings) };

    ghost finds = { λ s space standings m. IsNearerAt standings s m };

    fn has<C: Clearing>(self, _hall: &C, standings: &[Standing], node: Numbered) -> bool {
        if node.number > self.turn {
            return false;
        }
        let distance = node.point.squared_distance(self.point);
        if distance < self.distance {
            return true;
        }
        distance == self.distance && standings[node.number as usize].node < self.number
    }
}

impl Search for NeighbourSearch {
    ghost use Rattle.std.specs.Prelude.{◌<◌, length};
    ghost use Rattle.plan_model.specs.Geometry.Plane.{IsBounded};
    ghost use Rattle.report_judge.specs.Workers.OwnNodes.{IsUnlawfulAt};

    ghost may_look = { λ s standings. IsBounded s.nearer.point × (s.nearer.turn < length standings) };

    ghost finds = { λ s space standings m. IsUnlawfulAt space standings s m };

    fn has<C: Clearing>(self, hall: &C, standings: &[Standing], node: Numbered) -> bool {
        if self.nearer.has(hall, standings, node) {
            return true;
        }
        if !is_cheaper(self, standings, node) {
            return false;
        }
        hall.clear(node.point, self.nearer.point)
    }
}

/// Whether a node is one of a search for neighbours, by its costs.
fn is_cheaper(search: NeighbourSearch, standings: &[Standing], node: Numbered) -> bool
    requires bounded { IsBounded search.nearer.point }
    requires node { IsBounded node.point }
    requires turn { search.nearer.turn < length standings.now }
    ensures { IsTrue result ↔ IsCheaperAt standings.now search node }
{
    if node.number > search.nearer.turn {
        return false;
    }
    if node.point.squared_distance(search.nearer.point) > search.square {
        return false;
    }
    let standing = standings[node.number as usize];
    costs_less_through(
        standing.first_cost,
        node.point,
        search.nearer.point,
        search.first_cost,
    ) || costs_less_through(
        search.first_cost,
        node.point,
        search.nearer.point,
        standing.cost,
    )
}
