//! Outlines: the corners of a polygon in order from the lowest and of these the leftmost.

ghost use Rattle.std.specs.Prelude.{◌≡◌, ℕ, ◌+◌, ◌<◌, ◌≤◌, ◌^◌, ◌≤ℤ◌, ◌||◌, ◌==◌, IfOk, IsTrue, MatchBool, length, map, pos};
ghost use Rattle.convex_sets.specs.Boxes.{AreBoundedCorners, IsBoundedCorner};
ghost use Rattle.convex_sets.specs.Outlines.{from_to, IsOutline, IsOutlineOf, IsTurned, places_after, reflection, rise};
ghost use Rattle.plan_model.specs.Geometry.Plane.{corner_at, is_strictly_convex};

use plan_model::{Memory, Vertex};
use std::alloc::Global;

/// The corners of a polygon turned to begin at the lowest and of these the leftmost, and that corner once more. One corner
/// stays alone. O(n).
pub(crate) fn outline(alloc: Global, corners: &[Vertex]) -> Result<Vec<Vertex>, Memory>
    requires shape { IsTrue (length corners.now == 1 || is_strictly_convex corners.now) }
    requires bounded { AreBoundedCorners corners.now }
    ensures outline { IfOk result (λ v. IsOutline v.items) }
    ensures corners { IfOk result (λ v. IsOutlineOf corners.now v.items) }
    ensures bounded { IfOk result (λ v. AreBoundedCorners v.items) }
{
    let first = lowest(corners);
    let count = if corners.len() == 1 {
        1
    } else {
        corners.len() + 1
    };
    turned(alloc, corners, first, count)
}

/// So many corners of the list that begins at one of the corners and goes round. O(count).
fn turned(
    alloc: Global,
    corners: &[Vertex],
    first: usize,
    count: usize,
) -> Result<Vec<Vertex>, Memory>
    requires first { first < length corners.now }
    requires count { count ≤ length corners.now + 1 }
    ensures { IfOk result (λ v. IsTurned corners.now v.items first count) }
{
    let mut outline = Vec::new(alloc);
    for k in 0..count {
        outline.push(corners[places_after(corners.len(), first, k)])?;
    }
    Ok(outline)
}

/// The number of the corner `k` corners after corner `i` of `n`.
fn places_after(n: usize, i: usize, k: usize) -> usize
    requires corner { i < n }
    requires within { k ≤ n }
    requires small { n < 2 ^ 62 }
    ensures value { result ≡ places_after n i k }
    ensures within { result < n }
{
    if i + k < n { i + k } else { i + k - n }
}

/// The number of the lowest corner, of these the leftmost.
fn lowest(corners: &[Vertex]) -> usize
    requires some { 0 < length corners.now }
    requires bounded { AreBoundedCorners corners.now }
    ensures within { result < length corners.now }
    ensures lowest { (i : ℕ) → i < length corners.now → pos 0 ≤ℤ rise (from_to (corner_at corners.now result) (corner_at corners.now i)) }
{
    let mut lowest = 0;
    for i in 1..corners.len() {
        if is_lower(corners[i], corners[lowest]) {
            lowest = i;
        }
    }
    lowest
}

/// Whether the first corner is lower than the second, or as low and further left.
fn is_lower(a: Vertex, b: Vertex) -> bool
    requires first { IsBoundedCorner a }
    requires second { IsBoundedCorner b }
    ensures { MatchBool result (pos 0 ≤ℤ rise (from_to a b)) (pos 0 ≤ℤ rise (from_to b a)) }
{
    if a.y == b.y { a.x < b.x } else { a.y < b.y }
}

/// The corners reflected in the origin. O(n).
pub(crate) fn reflected(alloc: Global, corners: &[Vertex]) -> Result<Vec<Vertex>, Memory>
    requires { AreBoundedCorners corners.now }
    ensures { IfOk result (λ v. v.items ≡ map reflection corners.now) }
{
    let mut reflected = Vec::new(alloc);
    for corner in corners {
        reflected.push(Vertex {
            x: -corner.x,
            y: -corner.y,
        })?;
    }
    Ok(reflected)
}
