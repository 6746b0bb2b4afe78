//! The exact collision checker of a scene.

ghost use Rattle.std.specs.Prelude.{◌≡◌, ◌↔◌, IfOk, IsTrue};
ghost use Rattle.plan_model.specs.Spaces.ConfigurationSpace.{space_of, InRoom, at_lattice};

use crate::clearing::Clearing;
use crate::zone_crossings::crosses_no_zone;
use convex_sets::Zone;
use plan_model::{ConfigurationSpace, Memory, Point, RoomSpans, Scene};
use std::alloc::Global;
use std::marker::Model;

/// The exact collision checker of a scene, by a zone (configuration-space obstacle) for each obstacle.
///
/// The body is clear along a segment if both ends lie in the room of configurations and the segment crosses no zone:
///
/// ```text
///     +--------------------------+  the room
///     | +----------------------+ |
///     | |  a----------b        | |  the room of configurations, for a body that
///     | |       +----+         | |  reaches one lattice step to each side of its origin
///     | |  c----|----|--d      | |
///     | |       +----+ zone    | |  clear: a to b; not clear: c to d
///     | +----------------------+ |
///     +--------------------------+
/// ```
#[derive(Debug, Drop)]
pub struct Hall {
    space: ConfigurationSpace,
    zones: Vec<Zone>,
    spans: RoomSpans,
}

impl Model for Hall {
    ghost use Rattle.plan_model.specs.declared.configuration_spaces.ConfigurationSpace.{ConfigurationSpace};
    ghost use Rattle.plan_model.specs.declared.limits.TheConstants.{MOST_COORDINATE};
    ghost use Rattle.swept_check.specs.Crossings.{AreZonesOf};
    ghost use Rattle.plan_model.specs.Scenes.MarkPoints.{AreSpansOf};
    ghost use Rattle.std.specs.Prelude.{◌≤◌};

    ghost Value = { ConfigurationSpace };

    ghost view = { λ h. h.space };

    ghost invariant = { λ h. record {
      zones : AreZonesOf h.space h.zones.items;
      spans : AreSpansOf h.space.room h.space.body h.spans;
      right : h.space.room.x ≤ MOST_COORDINATE;
      top : h.space.room.y ≤ MOST_COORDINATE;
    } };
}

impl Hall {
    ghost use Rattle.plan_model.specs.Geometry.Plane.{IsBounded};
    ghost use Rattle.plan_model.specs.Spaces.Clearance.{ClearAt};
    ghost use Rattle.swept_check.specs.Crossings.{AreZonesOf};

    /// The collision checker of a scene's room, body, obstacles and clearance; without an obstacle the walls alone count.
    /// O(n) for n corners in all of the zones.
    ///
    /// # Errors
    ///
    /// `Memory` if out of memory for the zones or for the copies of the body and the obstacles.
    pub fn new(alloc: Global, scene: &Scene) -> Result<Hall, Memory>
        ensures { IfOk result (λ hall. hall ≡ space_of scene.now) }
    {
        let mut zones = Vec::new(alloc);
        for obstacle in scene.obstacles.as_slice() {
            zones.push(Zone::sum(alloc, &scene.body, obstacle, scene.clearance)?)?;
        }
        Ok(Hall {
            space: ConfigurationSpace::of(alloc, scene)?,
            zones,
            spans: RoomSpans::new(scene.room, scene.body.as_slice()),
        })
    }

    /// Whether the body is clear of the walls and the obstacles at a configuration. Touching an obstacle collides, and so does
    /// coming within the clearance of it; touching a wall does not. As fast as [`clear`](Clearing::clear) from the point to
    /// itself; no memory.
    pub fn clear_at(&self, p: Point) -> bool
        ensures { IsTrue result ↔ ClearAt self.now p }
    {
        self.clear(p, p)
    }

    /// Whether the body at a configuration lies in the room, touching its walls or not. O(1); no memory.
    pub fn is_in_room(&self, p: Point) -> bool
        ensures room { IsTrue result ↔ InRoom self.now (at_lattice p) }
        ensures bounded { IsTrue result → IsBounded p }
    {
        self.spans.contains(p)
    }

    /// The zones, one for each obstacle, in the scene's order. O(1); no memory.
    pub fn zones(&self) -> &[Zone]
        ensures { AreZonesOf self.now result.now }
    {
        self.zones.as_slice()
    }
}

impl Clearing for Hall {
    ghost space = { λ h. h };

    /// O(1) for each zone whose bounding box lies apart from the segment's, otherwise two orientations of 64 bits for each of
    /// its edges, up to the first that has both ends strictly on its outer side. Fractions are compared by products of 128
    /// bits: once for each edge that clips the segment, and once more at the end if no edge has both ends on its outer side.
    fn clear(&self, a: Point, b: Point) -> bool {
        // The room of configurations is convex, so a segment lies in it if its ends do.
        if !self.is_in_room(a) || !self.is_in_room(b) {
            return false;
        }
        crosses_no_zone(self.zones.as_slice(), a, b)
    }

    fn room_is_bounded(&self) {
        // Its invariant is known once a field is read.
        let _room = self.space.room;
    }
}
