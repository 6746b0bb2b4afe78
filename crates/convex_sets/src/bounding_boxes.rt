//! Bounding boxes.

ghost use Rattle.std.specs.Prelude.{◌≡◌, ◌↔◌, ◌≤ℤ◌, IsTrue, pos};

use plan_model::{Point, Vertex};

/// A closed box with sides along the axes, as the least one round a polygon or a segment.
#[derive(Debug, Clone, Copy, PartialEq, Eq)]
pub struct BoundingBox {
    /// The lower left corner, in lattice steps.
    pub low: Vertex,
    /// The upper right corner, in lattice steps.
    pub high: Vertex,
}

impl BoundingBox {
    ghost use Rattle.std.specs.Prelude.{◌<◌, length};
    ghost use Rattle.plan_model.specs.Geometry.Plane.{IsBounded};
    ghost use Rattle.convex_sets.specs.Boxes.{IsBoundingBox, IsInBox, boxes_meet, segment_box};

    /// The least box round one or more corners; round one it is that point. O(n); no memory.
    pub fn of(corners: &[Vertex]) -> BoundingBox
        requires { 0 < length corners.now }
        ensures { IsBoundingBox corners.now result }
    {
        let mut low = corners[0];
        let mut high = corners[0];
        for corner in corners {
            low.x = low.x.min(corner.x);
            low.y = low.y.min(corner.y);
            high.x = high.x.max(corner.x);
            high.y = high.y.max(corner.y);
        }
        BoundingBox { low, high }
    }

    /// The least box round the segment from `a` to `b`. No coordinate of an end is above `MOST_COORDINATE`. O(1); no memory.
    pub fn of_segment(a: Point, b: Point) -> BoundingBox
        requires from { IsBounded a }
        requires to { IsBounded b }
        ensures { result ≡ segment_box a b }
    {
        BoundingBox {
            low: Vertex {
                x: a.x.min(b.x) as i32,
                y: a.y.min(b.y) as i32,
            },
            high: Vertex {
                x: a.x.max(b.x) as i32,
                y: a.y.max(b.y) as i32,
            },
        }
    }

    /// Whether the two boxes have a point in common, so also if they touch. O(1); no memory.
    // All four comparisons are made: one branch is cheaper than four that are hard to predict.
    pub fn meets(self, other: BoundingBox) -> bool
        ensures { result ≡ boxes_meet self other }
    {
        let across = (self.low.x <= other.high.x) & (other.low.x <= self.high.x);
        let up = (self.low.y <= other.high.y) & (other.low.y <= self.high.y);
        across & up
    }

    /// Whether the point lies in the box, on its sides or within them. O(1); no memory.
    pub fn has(&self, p: Point) -> bool
        ensures { IsTrue result ↔ IsInBox self.now p }
    {
        is_between(self.low.x, p.x, self.high.x) && is_between(self.low.y, p.y, self.high.y)
    }
}

/// Whether a coordinate lies between two others, or is one of them.
fn is_between(low: i32, value: u32, high: i32) -> bool
    ensures { IsTrue result ↔ ((low ≤ℤ pos value) × (pos value ≤ℤ high)) }
{
    let value = i64::from(value);
    i64::from(low) <= value && value <= i64::from(high)
}
