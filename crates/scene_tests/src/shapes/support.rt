//! Polygons and zones, for which there is memory.

ghost use Rattle.std.specs.Prelude.{◌≡◌, ◌==◌, ◌||◌, ◌≤◌, IfOk, IsTrue, Ok, length, true};
ghost use Rattle.std.specs.List.{list_all};
ghost use Rattle.plan_model.specs.Geometry.Plane.{is_strictly_convex};
ghost use Rattle.plan_model.specs.Scenes.Limits.{is_corner_between};
ghost use Rattle.plan_model.specs.declared.limits.TheConstants.{LEAST_BODY_COORDINATE, LEAST_SUMMAND_COORDINATE};
ghost use Rattle.plan_model.specs.declared.limits.TheConstants.{MOST_BODY_COORDINATE, MOST_CLEARANCE, MOST_SUMMAND_COORDINATE};

use convex_sets::Zone;
use plan_model::{Memory, Point, Poly, Sequence, Vertex};
use std::alloc::{AllocError, Global};
use std::process::Abort;

/// What was made, for which there is memory.
pub(crate) fn sure<R: Abort, T>(rt: &R, made: Result<T, Memory>) -> T
    ensures { made ≡ Ok result }
{
    match made {
        Ok(value) => value,
        Err(error) => panic!(rt; "{error}"),
    }
}

/// The polygon of these corners.
pub(crate) fn polygon(alloc: Global, corners: &[Vertex]) -> Result<Poly, AllocError>
    ensures { IfOk result (λ polygon. polygon ≡ corners.now) }
{
    Ok(Sequence::from_vec(Vec::from_slice(alloc, corners)?))
}

/// The zone of a body and an obstacle with these corners, and a clearance.
pub(crate) fn zone_of(
    alloc: Global,
    body: &[Vertex],
    obstacle: &[Vertex],
    clearance: u32,
) -> Result<Zone, Memory>
    requires body { IsTrue (length body.now == 1 || is_strictly_convex body.now) }
    requires body_within { IsTrue (list_all (is_corner_between LEAST_BODY_COORDINATE MOST_BODY_COORDINATE) body.now) }
    requires obstacle { is_strictly_convex obstacle.now ≡ true }
    requires obstacle_within { IsTrue (list_all (is_corner_between LEAST_SUMMAND_COORDINATE MOST_SUMMAND_COORDINATE) obstacle.now) }
    requires clearance { clearance ≤ MOST_CLEARANCE }
{
    let body = polygon(alloc, body)?;
    let obstacle = polygon(alloc, obstacle)?;
    let zone = Zone::sum(alloc, &body, &obstacle, clearance);
    drop(body);
    drop(obstacle);
    zone
}

/// Asserts the corners of the zone of a body and an obstacle with a clearance.
pub(crate) fn expect_corners<R: Abort>(
    rt: &R,
    alloc: Global,
    body: &[Vertex],
    obstacle: &[Vertex],
    clearance: u32,
    want: &[Vertex],
)
    requires body { IsTrue (length body.now == 1 || is_strictly_convex body.now) }
    requires body_within { IsTrue (list_all (is_corner_between LEAST_BODY_COORDINATE MOST_BODY_COORDINATE) body.now) }
    requires obstacle { is_strictly_convex obstacle.now ≡ true }
    requires obstacle_within { IsTrue (list_all (is_corner_between LEAST_SUMMAND_COORDINATE MOST_SUMMAND_COORDINATE) obstacle.now) }
    requires clearance { clearance ≤ MOST_CLEARANCE }
{
    let zone = sure(rt, zone_of(alloc, body, obstacle, clearance));
    assert!(rt; zone.corners() == want);
    drop(zone);
}

/// Asserts the least box round a zone, by its corners.
pub(crate) fn expect_box<R: Abort>(rt: &R, zone: &Zone, low: Vertex, high: Vertex) {
    let bounds = zone.bounding_box();
    assert!(rt; bounds.low == low);
    assert!(rt; bounds.high == high);
}

/// Asserts which points a zone has.
pub(crate) fn expect_points<R: Abort>(rt: &R, zone: &Zone, cases: &[(Point, bool)]) {
    for case in cases {
        assert!(rt; zone.has(case.0) == case.1);
    }
}
