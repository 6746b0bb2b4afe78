//! The exact test of one zone, which is counted.

ghost use Rattle.std.specs.Prelude.{◌≡◌, ◌↔◌, ◌+◌, IsTrue};
ghost use Rattle.plan_model.specs.Geometry.Plane.{IsBounded};
ghost use Rattle.swept_check.specs.Crossings.{Crosses};

use crate::clipping::crosses_polygon;
use crate::steps::Steps;
use convex_sets::Zone;
use plan_model::Point;
use std::sync::ledger::Ledger;

/// Whether the body at some rational point of the segment from `a` to `b`, both ends included, meets the obstacle of a zone with
/// the zone's clearance. Touching is meeting, and so is being exactly as far away as the clearance. No coordinate of an end is
/// above `MOST_COORDINATE`; the ends may be one point. It counts one step.
///
/// The segment is clipped against each edge of the zone, whatever the zone's bounding box: O(n) for n corners; no memory.
pub fn crosses<L: Ledger>(zone: &Zone, a: Point, b: Point, steps: &mut Steps<L>) -> bool
    requires from { IsBounded a }
    requires to { IsBounded b }
    ensures crosses { IsTrue result ↔ Crosses zone.now a b }
    ensures step { steps.new ≡ steps.old + 1 }
{
    steps.tick();
    crosses_polygon(zone.corners(), a, b)
}
