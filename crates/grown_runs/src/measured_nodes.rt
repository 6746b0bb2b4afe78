//! Nodes with their distances from a point, of which a search keeps the nearest.

ghost use Rattle.std.specs.Prelude.{◌≡◌};
ghost use Rattle.plan_model.specs.Geometry.Plane.{IsBounded, squared_distance};
ghost use Rattle.grown_runs.specs.Ways.KdLinks.{IsNearerOf};

use plan_model::Point;

/// A node, where it stands, and its squared distance from a point, in square lattice steps. The nearest node has the least pair of
/// distance and number.
#[derive(Clone, Copy)]
pub struct MeasuredNode {
    /// Its number.
    pub node: u32,
    /// Where it stands.
    pub at: Point,
    /// Its squared distance from the point.
    pub distance: u64,
}

impl MeasuredNode {
    /// A node at `at`, as it is seen from `p`. No coordinate is above `MOST_COORDINATE`. O(1).
    #[inline]
    pub fn new(node: u32, at: Point, p: Point) -> MeasuredNode
        requires at { IsBounded at }
        requires from { IsBounded p }
        ensures { result ≡ record { node = node; at = at; distance = squared_distance at p } }
    {
        MeasuredNode {
            node,
            at,
            distance: at.squared_distance(p),
        }
    }

    /// The nearer of two, of equally near ones that of the lesser number. O(1).
    #[inline]
    pub fn nearer(self, other: MeasuredNode) -> MeasuredNode
        ensures { IsNearerOf self other result }
    {
        if other.distance < self.distance {
            return other;
        }
        if other.distance == self.distance && other.node < self.node {
            return other;
        }
        self
    }
}
