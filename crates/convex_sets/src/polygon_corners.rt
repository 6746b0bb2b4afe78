//! Corners of polygons, by number, and points as corners.

ghost use Rattle.std.specs.Prelude.{◌≡◌, ◌<◌};
ghost use Rattle.convex_sets.specs.Boxes.{IsBoundedCorner, corner_of};
ghost use Rattle.plan_model.specs.Geometry.Plane.{next_corner};

use plan_model::{Point, Vertex};

/// The number of the corner after corner `i` of `n`, which is below `n`: the first comes after the last. O(1).
pub fn next_corner(n: usize, i: usize) -> usize
    requires { i < n }
    ensures value { result ≡ next_corner n i }
    ensures within { result < n }
{
    if i + 1 == n { 0 } else { i + 1 }
}

/// The corner that stands at a point of the lattice, of which no coordinate is above `MOST_CORNER_COORDINATE`. O(1).
pub fn corner_of(p: Point) -> Vertex
    requires { IsBoundedCorner (corner_of p) }
    ensures { result ≡ corner_of p }
{
    Vertex {
        x: p.x as i32,
        y: p.y as i32,
    }
}
