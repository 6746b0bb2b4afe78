//! Zones with a clearance: the square of the clearance is summed with the body and the obstacle.

use crate::shapes::support::{expect_box, expect_corners, expect_points, sure, zone_of};
use plan_model::{MOST_CLEARANCE, Point, Vertex};

static POINT: [Vertex; 1] = [Vertex { x: 0, y: 0 }];

static SLOPE: [Vertex; 3] = [
    Vertex { x: 40, y: 40 },
    Vertex { x: 60, y: 40 },
    Vertex { x: 40, y: 60 },
];

static FIVE_FROM_THE_SLOPE: [Vertex; 5] = [
    Vertex { x: 35, y: 35 },
    Vertex { x: 65, y: 35 },
    Vertex { x: 65, y: 45 },
    Vertex { x: 45, y: 65 },
    Vertex { x: 35, y: 65 },
];

#[test]
fn a_point_and_a_triangle(rt: HostRuntime) {
    expect_corners(&rt, rt.alloc(), &POINT, &SLOPE, 5, &FIVE_FROM_THE_SLOPE);
}

static BESIDE_THE_SLOPE: [(Point, bool); 8] = [
    // beside an edge along an axis
    (Point { x: 35, y: 50 }, true),
    (Point { x: 34, y: 50 }, false),
    (Point { x: 50, y: 35 }, true),
    (Point { x: 50, y: 34 }, false),
    // beside the slope: the corner of the square touches it
    (Point { x: 55, y: 55 }, true),
    (Point { x: 56, y: 55 }, false),
    // beside a corner
    (Point { x: 35, y: 35 }, true),
    (Point { x: 34, y: 35 }, false),
];

#[test]
fn coming_as_close_as_the_clearance_is_meeting(rt: HostRuntime) {
    let zone = sure(&rt, zone_of(rt.alloc(), &POINT, &SLOPE, 5));
    expect_points(&rt, &zone, &BESIDE_THE_SLOPE);
    expect_box(&rt, &zone, Vertex { x: 35, y: 35 }, Vertex { x: 65, y: 65 });
    drop(zone);
}

static TRIANGLE: [Vertex; 3] = [
    Vertex { x: 0, y: 0 },
    Vertex { x: 2, y: 0 },
    Vertex { x: 0, y: 2 },
];

static GREAT_TRIANGLE: [Vertex; 3] = [
    Vertex { x: 10, y: 10 },
    Vertex { x: 20, y: 10 },
    Vertex { x: 10, y: 20 },
];

static THREE_FROM_TRIANGLES: [Vertex; 6] = [
    Vertex { x: 7, y: 5 },
    Vertex { x: 23, y: 5 },
    Vertex { x: 23, y: 13 },
    Vertex { x: 13, y: 23 },
    Vertex { x: 5, y: 23 },
    Vertex { x: 5, y: 7 },
];

#[test]
fn two_triangles(rt: HostRuntime) {
    expect_corners(
        &rt,
        rt.alloc(),
        &TRIANGLE,
        &GREAT_TRIANGLE,
        3,
        &THREE_FROM_TRIANGLES,
    );
}

static SMALL_SQUARE: [Vertex; 4] = [
    Vertex { x: 0, y: 0 },
    Vertex { x: 2, y: 0 },
    Vertex { x: 2, y: 2 },
    Vertex { x: 0, y: 2 },
];

static PENTAGON: [Vertex; 5] = [
    Vertex { x: 5, y: 5 },
    Vertex { x: 9, y: 5 },
    Vertex { x: 9, y: 8 },
    Vertex { x: 7, y: 10 },
    Vertex { x: 5, y: 10 },
];

static MERGED: [Vertex; 5] = [
    Vertex { x: 2, y: 2 },
    Vertex { x: 10, y: 2 },
    Vertex { x: 10, y: 9 },
    Vertex { x: 8, y: 11 },
    Vertex { x: 2, y: 11 },
];

#[test]
fn parallel_edges_of_all_three_merge(rt: HostRuntime) {
    expect_corners(&rt, rt.alloc(), &SMALL_SQUARE, &PENTAGON, 1, &MERGED);
}

static WIDE_TRIANGLE: [Vertex; 3] = [
    Vertex { x: 0, y: 0 },
    Vertex { x: 6, y: 0 },
    Vertex { x: 0, y: 6 },
];

static LOW_TRIANGLE: [Vertex; 3] = [
    Vertex { x: 1, y: 1 },
    Vertex { x: 3, y: 0 },
    Vertex { x: 3, y: 4 },
];

static BELOW_ZERO: [Vertex; 7] = [
    Vertex { x: 1, y: -8 },
    Vertex { x: 5, y: -8 },
    Vertex { x: 5, y: 6 },
    Vertex { x: -5, y: 6 },
    Vertex { x: -7, y: 3 },
    Vertex { x: -7, y: -1 },
    Vertex { x: -1, y: -7 },
];

#[test]
fn a_zone_below_zero(rt: HostRuntime) {
    expect_corners(
        &rt,
        rt.alloc(),
        &WIDE_TRIANGLE,
        &LOW_TRIANGLE,
        2,
        &BELOW_ZERO,
    );
}

/// A body with a corner as far out as one may be.
static FAR_BODY: [Vertex; 3] = [
    Vertex { x: 4096, y: 4096 },
    Vertex { x: -4096, y: 0 },
    Vertex { x: 0, y: -4096 },
];

/// An obstacle with corners as far out as they may be in version 2.
static FAR_OBSTACLE: [Vertex; 3] = [
    Vertex {
        x: -2_097_152,
        y: -2_097_152,
    },
    Vertex {
        x: 2_097_151,
        y: -2_097_152,
    },
    Vertex {
        x: 2_097_151,
        y: 2_097_151,
    },
];

static FARTHEST: [Vertex; 8] = [
    Vertex {
        x: -2_105_344,
        y: -2_105_344,
    },
    Vertex {
        x: 2_097_151,
        y: -2_105_344,
    },
    Vertex {
        x: 2_105_343,
        y: -2_101_248,
    },
    Vertex {
        x: 2_105_343,
        y: 2_101_247,
    },
    Vertex {
        x: 2_101_247,
        y: 2_105_343,
    },
    Vertex {
        x: 2_093_055,
        y: 2_105_343,
    },
    Vertex {
        x: -2_101_248,
        y: -2_088_960,
    },
    Vertex {
        x: -2_105_344,
        y: -2_097_152,
    },
];

#[test]
fn the_greatest_coordinates_and_clearance(rt: HostRuntime) {
    expect_corners(
        &rt,
        rt.alloc(),
        &FAR_BODY,
        &FAR_OBSTACLE,
        MOST_CLEARANCE,
        &FARTHEST,
    );
}
