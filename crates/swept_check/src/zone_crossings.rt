//! Whether a segment crosses zones, by their bounding boxes first.

ghost use Rattle.std.specs.Prelude.{◌≡◌, ◌↔◌, All, IsTrue};
ghost use Rattle.plan_model.specs.Geometry.Plane.{IsBounded};
ghost use Rattle.convex_sets.specs.Boxes.{segment_box};
ghost use Rattle.swept_check.specs.Crossings.{Crosses};

use crate::clipping::crosses_polygon;
use convex_sets::{BoundingBox, Zone};
use plan_model::Point;

/// Whether the segment from `a` to `b` has no point in any of the zones. O(n) for n corners of zones; no memory.
// Inlined, its loop would share the registers with its caller, and take half as long again.
#[inline(never)]
pub(crate) fn crosses_no_zone(zones: &[Zone], a: Point, b: Point) -> bool
    requires from { IsBounded a }
    requires to { IsBounded b }
    ensures { IsTrue result ↔ All (λ zone. ¬ Crosses zone a b) zones.now }
{
    let segment = BoundingBox::of_segment(a, b);
    for zone in zones {
        if is_crossed(zone, segment, a, b) {
            return false;
        }
    }
    true
}

/// Whether some rational point of the segment from `a` to `b`, whose box this is, lies in the zone. O(1) if the box of the zone
/// is apart from it, otherwise O(n) for n corners; no memory.
fn is_crossed(zone: &Zone, segment: BoundingBox, a: Point, b: Point) -> bool
    requires from { IsBounded a }
    requires to { IsBounded b }
    requires segment { segment ≡ segment_box a b }
    ensures { IsTrue result ↔ Crosses zone.now a b }
{
    let corners = zone.corners();
    segment.meets(zone.bounding_box()) && crosses_polygon(corners, a, b)
}
