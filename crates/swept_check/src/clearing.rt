//! Collision checkers, as a planner sees them.

ghost use Rattle.std.specs.Prelude.{◌↔◌, IsTrue};
ghost use Rattle.plan_model.specs.Geometry.Plane.{IsBounded};
ghost use Rattle.plan_model.specs.declared.configuration_spaces.ConfigurationSpace.{ConfigurationSpace};
ghost use Rattle.plan_model.specs.Spaces.Clearance.{Clear};

use plan_model::Point;

/// A collision checker: it stands for the configuration space of a body in a room among obstacles.
pub trait Clearing: Sync {
    /// The room, the body, the obstacles and the clearance that it stands for.
    ghost space: { Self → ConfigurationSpace };

    /// Whether the body is clear of the walls and the obstacles at every rational point of the segment from `a` to `b`, both
    /// ends included. The ends may be any points, also one and the same. Touching an obstacle collides, and so does coming
    /// within the clearance of it; touching a wall does not. It takes no memory.
    fn clear(&self, a: Point, b: Point) -> bool
        ensures { IsTrue result ↔ Clear (space self.now) a b };

    /// No coordinate of its room is above `MOST_COORDINATE`, so both ends of a clear segment are within these bounds, and their
    /// distance may be taken ([`clear_segments_are_bounded`](crate::clearance_laws::clear_segments_are_bounded)). It does nothing.
    fn room_is_bounded(&self)
        ensures { IsBounded (space self.now).room };
}
