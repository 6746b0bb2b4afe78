//! Zones: configuration-space obstacles.

use crate::bounding_boxes::BoundingBox;
use crate::half_planes::is_inside;
use crate::merging::merged;
use crate::outlines::{outline, reflected};
use crate::polygon_corners::corner_of;
use crate::widening::widened;
use plan_model::{Memory, Point, Poly, Vertex};
use std::alloc::Global;
use std::marker::Model;

/// A zone, the configuration-space obstacle of one obstacle: the points at which the body, moved there, meets the obstacle
/// with a clearance. All are closed, so touching is meeting, and so is being exactly as far away as the clearance.
///
/// The zone of a square with the corners (0, 0), (2, 0), (2, 2) and (0, 2) and a triangle with the corners (4, 2), (8, 2) and
/// (4, 6), without a clearance:
///
/// ```text
/// 6  +---o
///    |   : \
/// 4  |   :   \
///    |   :     \
/// 2  |   o.......o
///    |           |
/// 0  +-----------+
///    2   4   6   8
/// ```
///
/// It is kept as its corners, counterclockwise, with its bounding box beside them.
#[derive(Debug, Drop)]
pub struct Zone {
    corners: Vec<Vertex>,
    bounds: BoundingBox,
}

impl Model for Zone {
    ghost use Rattle.std.specs.Prelude.{List};
    ghost use Rattle.plan_model.specs.declared.geometry.Vertex.{Vertex};
    ghost use Rattle.convex_sets.specs.Boxes.{IsBoxed};

    ghost Value = { List Vertex };

    ghost view = { λ z. z.corners.items };

    ghost invariant = { λ z. IsBoxed z.corners.items z.bounds };
}

impl Zone {
    ghost use Rattle.std.specs.Prelude.{◌≡◌, ◌↔◌, ◌==◌, ◌||◌, ◌≤◌, IfOk, IsTrue, length, true};
    ghost use Rattle.std.specs.List.{list_all};
    ghost use Rattle.plan_model.specs.declared.limits.TheConstants.{LEAST_BODY_COORDINATE, LEAST_SUMMAND_COORDINATE};
    ghost use Rattle.plan_model.specs.declared.limits.TheConstants.{MOST_BODY_COORDINATE, MOST_CLEARANCE, MOST_SUMMAND_COORDINATE};
    ghost use Rattle.plan_model.specs.Scenes.Limits.{is_corner_between};
    ghost use Rattle.plan_model.specs.Spaces.Zones.{IsZoneOf};
    ghost use Rattle.convex_sets.specs.Boxes.{AreBoundedCorners};
    ghost use Rattle.convex_sets.specs.Boxes.{IsBoundingBox};
    ghost use Rattle.plan_model.specs.Geometry.Plane.{is_strictly_convex};
    ghost use Rattle.plan_model.specs.Spaces.Zones.{IsInside};
    ghost use Rattle.plan_model.specs.Spaces.ConfigurationSpace.{at_lattice};

    /// The zone of a body and an obstacle with a clearance: the Minkowski sum of the obstacle, the reflected body and the square
    /// from minus the clearance to the clearance on both axes, made of the edges of all three, sorted by angle. Parallel edges
    /// become one, so no corner stands between two others. O(n + m).
    ///
    /// The body is strictly convex, or has one corner; then the zone without a clearance is the obstacle, moved by minus that
    /// corner. Its coordinates are those that a body may have. The obstacle is strictly convex, with coordinates from
    /// `LEAST_SUMMAND_COORDINATE` to `MOST_SUMMAND_COORDINATE`. The clearance is at most `MOST_CLEARANCE`.
    ///
    /// # Errors
    ///
    /// `Memory` if out of memory for the corners.
    pub fn sum(alloc: Global, body: &Poly, obstacle: &Poly, clearance: u32) -> Result<Zone, Memory>
        requires body { IsTrue (length body.now == 1 || is_strictly_convex body.now) }
        requires body_within { IsTrue (list_all (is_corner_between LEAST_BODY_COORDINATE MOST_BODY_COORDINATE) body.now) }
        requires obstacle { is_strictly_convex obstacle.now ≡ true }
        requires obstacle_within { IsTrue (list_all (is_corner_between LEAST_SUMMAND_COORDINATE MOST_SUMMAND_COORDINATE) obstacle.now) }
        requires clearance { clearance ≤ MOST_CLEARANCE }
        ensures zone { IfOk result (λ zone. IsZoneOf clearance body.now obstacle.now zone) }
    {
        if clearance == 0 {
            return Zone::touching(alloc, body.as_slice(), obstacle.as_slice());
        }
        let wider = widened(alloc, body.as_slice(), clearance)?;
        Zone::touching(alloc, wider.as_slice(), obstacle.as_slice())
    }

    /// The zone of a body and an obstacle without a clearance: the sum of the obstacle and the reflected body. O(n + m).
    fn touching(alloc: Global, body: &[Vertex], obstacle: &[Vertex]) -> Result<Zone, Memory>
        requires body { IsTrue (length body.now == 1 || is_strictly_convex body.now) }
        requires body_within { IsTrue (list_all (is_corner_between LEAST_SUMMAND_COORDINATE MOST_SUMMAND_COORDINATE) body.now) }
        requires obstacle { is_strictly_convex obstacle.now ≡ true }
        requires obstacle_within { IsTrue (list_all (is_corner_between LEAST_SUMMAND_COORDINATE MOST_SUMMAND_COORDINATE) obstacle.now) }
        ensures zone { IfOk result (λ zone. IsZoneOf 0 body.now obstacle.now zone) }
    {
        let reflected = reflected(alloc, body)?;
        let body_outline = outline(alloc, reflected.as_slice())?;
        let obstacle_outline = outline(alloc, obstacle)?;
        let corners = merged(alloc, obstacle_outline.as_slice(), body_outline.as_slice())?;
        Ok(Zone::from_corners(corners))
    }

    /// The zone with these corners.
    fn from_corners(corners: Vec<Vertex>) -> Zone
        requires convex { is_strictly_convex corners.items ≡ true }
        requires bounded { AreBoundedCorners corners.items }
        ensures { result ≡ corners.items }
    {
        let bounds = BoundingBox::of(corners.as_slice());
        Zone { corners, bounds }
    }

    /// The corners, counterclockwise, from the lowest and of these the leftmost, in lattice steps. O(1); no memory.
    pub fn corners(&self) -> &[Vertex]
        ensures value { result.now ≡ self.now }
        ensures convex { is_strictly_convex self.now ≡ true }
        ensures bounded { AreBoundedCorners self.now }
    {
        self.corners.as_slice()
    }

    /// The least box round the corners. O(1); no memory.
    pub fn bounding_box(&self) -> BoundingBox
        ensures { IsBoundingBox self.now result }
    {
        self.bounds
    }

    /// Whether the body at a configuration, which may be any point, meets the obstacle with the zone's clearance. O(1) outside
    /// the bounding box, otherwise one orientation of 64 bits for each edge; no memory.
    pub fn has(&self, p: Point) -> bool
        ensures { IsTrue result ↔ IsInside self.now (at_lattice p) }
    {
        if !self.bounds.has(p) {
            return false;
        }
        is_inside(self.corners.as_slice(), corner_of(p))
    }
}
