//! Points and corners of the plane, in lattice steps; the y axis points upwards.

ghost use Rattle.std.specs.Prelude.{◌≡◌, ◌≤◌, ◌*◌};
ghost use Rattle.std.specs.Int.{abs_diff};
ghost use Rattle.plan_model.specs.declared.limits.TheConstants.{MOST_COORDINATE};

/// A configuration: where the body's origin stands.
#[derive(Clone, Copy, Debug, PartialEq, Eq)]
pub struct Point {
    /// The column, counted to the right from 0, in lattice steps.
    pub x: u32,
    /// The row, counted upwards from 0, in lattice steps.
    pub y: u32,
}

impl Point {
    ghost use Rattle.std.specs.Prelude.{◌≡◌, ◌^◌, ◌<◌};
    ghost use Rattle.plan_model.specs.Geometry.Plane.{squared_distance};
    ghost use Rattle.plan_model.specs.Geometry.Plane.{IsBounded};

    /// The square of the distance to another point, in square lattice steps. No coordinate is above `MOST_COORDINATE`. O(1).
    pub fn squared_distance(self, other: Point) -> u64
        requires from { IsBounded self }
        requires to { IsBounded other }
        ensures value { result ≡ squared_distance self other }
        ensures bound { result < 2 ^ 41 }
    {
        square_of_difference(self.x, other.x) + square_of_difference(self.y, other.y)
    }
}

/// The square of the difference of two coordinates.
fn square_of_difference(a: u32, b: u32) -> u64
    requires first { a ≤ MOST_COORDINATE }
    requires second { b ≤ MOST_COORDINATE }
    ensures value { result ≡ abs_diff a b * abs_diff a b }
    ensures bound { result ≤ MOST_COORDINATE * MOST_COORDINATE }
{
    let difference = i64::from(a) - i64::from(b);
    (difference * difference) as u64
}

/// A corner of a polygon.
#[derive(Clone, Copy, Debug, PartialEq, Eq)]
pub struct Vertex {
    /// The column, counted to the right from 0, in lattice steps; negative to the left of it.
    pub x: i32,
    /// The row, counted upwards from 0, in lattice steps; negative below it.
    pub y: i32,
}

/// A closed box of configurations.
#[derive(Clone, Copy, Debug, PartialEq, Eq)]
pub struct Goal {
    /// The lower left corner.
    pub low: Point,
    /// The upper right corner; it belongs to the box.
    pub high: Point,
}

impl Goal {
    ghost use Rattle.std.specs.Prelude.{◌≡◌};
    ghost use Rattle.plan_model.specs.Trees.BestNode.{is_in_goal};

    /// Whether the point lies in the box, on its edges or within them. A box may be a single point. O(1).
    pub fn contains(self, point: Point) -> bool
        ensures { result ≡ is_in_goal self point }
    {
        self.low.x <= point.x
            && point.x <= self.high.x
            && self.low.y <= point.y
            && point.y <= self.high.y
    }
}
