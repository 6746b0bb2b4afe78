//! Polygons that are strictly convex, and polygons that are not.

ghost use Rattle.convex_sets.specs.Boxes.{AreBoundedCorners};

use convex_sets::is_convex;
use plan_model::Vertex;
use std::process::Abort;

/// Asserts whether the polygon of these corners is strictly convex.
fn expect<R: Abort>(rt: &R, corners: &[Vertex], want: bool)
    requires { AreBoundedCorners corners.now }
{
    assert!(rt; is_convex(corners) == want);
}

static COUNTERCLOCKWISE: [Vertex; 3] = [
    Vertex { x: 0, y: 0 },
    Vertex { x: 9, y: 0 },
    Vertex { x: 9, y: 9 },
];

#[test]
fn three_corners_counterclockwise(rt: HostRuntime) {
    expect(&rt, &COUNTERCLOCKWISE, true);
}

static TWO_CORNERS: [Vertex; 2] = [Vertex { x: 0, y: 0 }, Vertex { x: 9, y: 0 }];

#[test]
fn two_corners(rt: HostRuntime) {
    expect(&rt, &TWO_CORNERS, false);
}

static CLOCKWISE: [Vertex; 3] = [
    Vertex { x: 0, y: 0 },
    Vertex { x: 0, y: 9 },
    Vertex { x: 9, y: 9 },
];

#[test]
fn clockwise(rt: HostRuntime) {
    expect(&rt, &CLOCKWISE, false);
}

static THREE_IN_A_LINE: [Vertex; 4] = [
    Vertex { x: 0, y: 0 },
    Vertex { x: 5, y: 0 },
    Vertex { x: 9, y: 0 },
    Vertex { x: 9, y: 9 },
];

#[test]
fn three_in_a_line(rt: HostRuntime) {
    expect(&rt, &THREE_IN_A_LINE, false);
}

static A_CORNER_TWICE: [Vertex; 4] = [
    Vertex { x: 0, y: 0 },
    Vertex { x: 9, y: 0 },
    Vertex { x: 9, y: 9 },
    Vertex { x: 9, y: 9 },
];

#[test]
fn a_corner_twice(rt: HostRuntime) {
    expect(&rt, &A_CORNER_TWICE, false);
}

static A_DENT: [Vertex; 4] = [
    Vertex { x: 0, y: 0 },
    Vertex { x: 9, y: 0 },
    Vertex { x: 3, y: 3 },
    Vertex { x: 0, y: 9 },
];

#[test]
fn a_dent(rt: HostRuntime) {
    expect(&rt, &A_DENT, false);
}

static TWICE_ROUND: [Vertex; 5] = [
    Vertex { x: 0, y: 6 },
    Vertex { x: 10, y: 6 },
    Vertex { x: 2, y: 0 },
    Vertex { x: 5, y: 9 },
    Vertex { x: 8, y: 0 },
];

#[test]
fn twice_round(rt: HostRuntime) {
    expect(&rt, &TWICE_ROUND, false);
}

static AT_THE_LIMITS: [Vertex; 4] = [
    Vertex {
        x: -4194304,
        y: -4194304,
    },
    Vertex {
        x: 4194304,
        y: -4194304,
    },
    Vertex {
        x: 4194304,
        y: 4194304,
    },
    Vertex {
        x: -4194304,
        y: 4194304,
    },
];

#[test]
fn at_the_limits(rt: HostRuntime) {
    expect(&rt, &AT_THE_LIMITS, true);
}
