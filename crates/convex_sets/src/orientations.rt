//! On which side of a line a corner lies.

ghost use Rattle.std.specs.Prelude.{◌≡◌};
ghost use Rattle.convex_sets.specs.Boxes.{IsBoundedCorner};
ghost use Rattle.convex_sets.specs.Outlines.{IsShort, cross, from_to};
ghost use Rattle.plan_model.specs.Geometry.Plane.{orientation};

use plan_model::Vertex;

/// The vector from one corner to another.
pub(crate) fn edge(from: Vertex, to: Vertex) -> Vertex
    requires from { IsBoundedCorner from }
    requires to { IsBoundedCorner to }
    ensures value { result ≡ from_to from to }
    ensures short { IsShort result }
{
    Vertex {
        x: to.x - from.x,
        y: to.y - from.y,
    }
}

/// The cross product of two vectors: positive if the second points to the left of the first, negative if to its right.
pub(crate) fn cross(u: Vertex, v: Vertex) -> i64
    requires first { IsShort u }
    requires second { IsShort v }
    ensures { result ≡ cross u v }
{
    i64::from(u.x) * i64::from(v.y) - i64::from(u.y) * i64::from(v.x)
}

/// Twice the signed area of the triangle `a b c`: positive if `c` lies strictly to the left of the line from `a` to `b`,
/// 0 if it lies on it. Coordinates are `LEAST_CORNER_COORDINATE` to `MOST_CORNER_COORDINATE`. O(1).
pub fn orientation(a: Vertex, b: Vertex, c: Vertex) -> i64
    requires first { IsBoundedCorner a }
    requires second { IsBoundedCorner b }
    requires third { IsBoundedCorner c }
    ensures { result ≡ orientation a b c }
{
    cross(edge(a, b), edge(a, c))
}
