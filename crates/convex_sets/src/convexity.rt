//! Whether a polygon is strictly convex.

ghost use Rattle.std.specs.Prelude.{◌≡◌, ◌<◌, length};
ghost use Rattle.convex_sets.specs.Outlines.{is_end_or_left};
ghost use Rattle.convex_sets.specs.Boxes.{AreBoundedCorners};
ghost use Rattle.plan_model.specs.Geometry.Plane.{is_left_of_edge, is_strictly_convex};

use crate::orientations::orientation;
use crate::polygon_corners::next_corner;
use plan_model::{LEAST_CORNERS, Vertex};

/// Whether the corners are those of a strictly convex polygon, counterclockwise: three corners at least, and every other corner
/// strictly to the left of the edge from each corner to the next. So no three corners stand in a line, no corner stands twice,
/// and the polygon goes round once. Coordinates are `LEAST_CORNER_COORDINATE` to `MOST_CORNER_COORDINATE`.
///
/// It stops at the first corner that fails. O(n²) at most; no memory.
pub fn is_convex(v: &[Vertex]) -> bool
    requires { AreBoundedCorners v.now }
    ensures { result ≡ is_strictly_convex v.now }
{
    if v.len() < LEAST_CORNERS {
        return false;
    }
    for i in 0..v.len() {
        if !is_left_of(v, i) {
            return false;
        }
    }
    true
}

/// Whether every other corner lies strictly to the left of the edge from corner `i` to the next.
fn is_left_of(v: &[Vertex], i: usize) -> bool
    requires within { i < length v.now }
    requires bounded { AreBoundedCorners v.now }
    ensures { result ≡ is_left_of_edge v.now i }
{
    let next = next_corner(v.len(), i);
    for k in 0..v.len() {
        if !is_end_or_left(v, i, next, k) {
            return false;
        }
    }
    true
}

/// Whether corner `k` is one of the two ends of an edge, or lies strictly to its left.
fn is_end_or_left(v: &[Vertex], from: usize, to: usize, k: usize) -> bool
    requires from { from < length v.now }
    requires to { to < length v.now }
    requires other { k < length v.now }
    requires bounded { AreBoundedCorners v.now }
    ensures { result ≡ is_end_or_left v.now from to k }
{
    k == from || k == to || orientation(v[from], v[to], v[k]) > 0
}
