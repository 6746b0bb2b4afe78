//! Boxes round segments, and boxes that meet.

ghost use Rattle.plan_model.specs.Geometry.Plane.{IsBounded};

use convex_sets::BoundingBox;
use plan_model::{Point, Vertex};
use std::process::Abort;

/// The box with these corners.
fn box_of(low: (i32, i32), high: (i32, i32)) -> BoundingBox {
    BoundingBox {
        low: Vertex { x: low.0, y: low.1 },
        high: Vertex {
            x: high.0,
            y: high.1,
        },
    }
}

/// Asserts the box round a segment, from either end.
fn expect_round<R: Abort>(rt: &R, a: Point, b: Point, want: BoundingBox)
    requires from { IsBounded a }
    requires to { IsBounded b }
{
    assert!(rt; BoundingBox::of_segment(a, b) == want);
    assert!(rt; BoundingBox::of_segment(b, a) == want);
}

#[test]
fn a_falling_segment(rt: HostRuntime) {
    let want = box_of((3, 2), (9, 7));
    expect_round(&rt, Point { x: 3, y: 7 }, Point { x: 9, y: 2 }, want);
}

#[test]
fn a_segment_of_one_point(rt: HostRuntime) {
    let end = Point { x: 5, y: 0 };
    expect_round(&rt, end, end, box_of((5, 0), (5, 0)));
}

/// Asserts whether a box meets that from (2, 2) to (6, 4), asked of either one.
fn expect_meeting<R: Abort>(rt: &R, other: BoundingBox, want: bool) {
    let bounds = box_of((2, 2), (6, 4));
    assert!(rt; bounds.meets(other) == want);
    assert!(rt; other.meets(bounds) == want);
}

#[test]
fn boxes_that_touch_meet(rt: HostRuntime) {
    expect_meeting(&rt, box_of((-3, -9), (2, 2)), true);
    expect_meeting(&rt, box_of((6, 0), (7, 9)), true);
    expect_meeting(&rt, box_of((3, 3), (4, 3)), true);
}

#[test]
fn boxes_apart_in_one_direction_do_not_meet(rt: HostRuntime) {
    expect_meeting(&rt, box_of((7, 2), (9, 4)), false);
    expect_meeting(&rt, box_of((2, -5), (6, 1)), false);
}
