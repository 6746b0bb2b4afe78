//! Zones of small bodies and obstacles, without a clearance.

ghost use Rattle.std.specs.Prelude.{◌≡◌, ◌==◌, ◌||◌, IsTrue, length, true};
ghost use Rattle.std.specs.List.{list_all};
ghost use Rattle.convex_sets.specs.Boxes.{AreBoundedCorners};
ghost use Rattle.plan_model.specs.Geometry.Plane.{is_strictly_convex};
ghost use Rattle.plan_model.specs.Scenes.Limits.{is_corner_between};
ghost use Rattle.plan_model.specs.declared.limits.TheConstants.{LEAST_BODY_COORDINATE, LEAST_SUMMAND_COORDINATE};
ghost use Rattle.plan_model.specs.declared.limits.TheConstants.{MOST_BODY_COORDINATE, MOST_SUMMAND_COORDINATE};

use crate::shapes::support::{expect_box, expect_corners, expect_points, sure, zone_of};
use convex_sets::{Zone, is_convex};
use plan_model::{Memory, Point, Vertex};
use std::alloc::Global;
use std::process::Abort;

/// Asserts the corners of the zone of a body and an obstacle without a clearance.
fn expect<R: Abort>(rt: &R, alloc: Global, body: &[Vertex], obstacle: &[Vertex], want: &[Vertex])
    requires body { IsTrue (length body.now == 1 || is_strictly_convex body.now) }
    requires body_within { IsTrue (list_all (is_corner_between LEAST_BODY_COORDINATE MOST_BODY_COORDINATE) body.now) }
    requires obstacle { is_strictly_convex obstacle.now ≡ true }
    requires obstacle_within { IsTrue (list_all (is_corner_between LEAST_SUMMAND_COORDINATE MOST_SUMMAND_COORDINATE) obstacle.now) }
{
    expect_corners(rt, alloc, body, obstacle, 0, want);
}

static SQUARE: [Vertex; 4] = [
    Vertex { x: 0, y: 0 },
    Vertex { x: 4, y: 0 },
    Vertex { x: 4, y: 4 },
    Vertex { x: 0, y: 4 },
];

static WALL: [Vertex; 4] = [
    Vertex { x: 40, y: 0 },
    Vertex { x: 60, y: 0 },
    Vertex { x: 60, y: 60 },
    Vertex { x: 40, y: 60 },
];

static ROUND_THE_WALL: [Vertex; 4] = [
    Vertex { x: 36, y: -4 },
    Vertex { x: 60, y: -4 },
    Vertex { x: 60, y: 60 },
    Vertex { x: 36, y: 60 },
];

#[test]
fn a_square_and_a_wall(rt: HostRuntime) {
    expect(&rt, rt.alloc(), &SQUARE, &WALL, &ROUND_THE_WALL);
}

static TRIANGLE: [Vertex; 3] = [
    Vertex { x: 0, y: 0 },
    Vertex { x: 2, y: 0 },
    Vertex { x: 0, y: 2 },
];

static GREAT_TRIANGLE: [Vertex; 3] = [
    Vertex { x: 10, y: 10 },
    Vertex { x: 20, y: 10 },
    Vertex { x: 10, y: 20 },
];

static OF_TRIANGLES: [Vertex; 6] = [
    Vertex { x: 10, y: 8 },
    Vertex { x: 20, y: 8 },
    Vertex { x: 20, y: 10 },
    Vertex { x: 10, y: 20 },
    Vertex { x: 8, y: 20 },
    Vertex { x: 8, y: 10 },
];

#[test]
fn two_triangles(rt: HostRuntime) {
    expect(&rt, rt.alloc(), &TRIANGLE, &GREAT_TRIANGLE, &OF_TRIANGLES);
}

static ORIGIN: [Vertex; 1] = [Vertex { x: 0, y: 0 }];

#[test]
fn a_point_and_a_triangle(rt: HostRuntime) {
    expect(&rt, rt.alloc(), &ORIGIN, &GREAT_TRIANGLE, &GREAT_TRIANGLE);
}

static OFF_THE_ORIGIN: [Vertex; 1] = [Vertex { x: 3, y: -5 }];

static TRIANGLE_FROM_ABOVE: [Vertex; 3] = [
    Vertex { x: 10, y: 20 },
    Vertex { x: 10, y: 10 },
    Vertex { x: 20, y: 10 },
];

static MOVED: [Vertex; 3] = [
    Vertex { x: 7, y: 15 },
    Vertex { x: 17, y: 15 },
    Vertex { x: 7, y: 25 },
];

#[test]
fn a_point_off_the_origin(rt: HostRuntime) {
    expect(
        &rt,
        rt.alloc(),
        &OFF_THE_ORIGIN,
        &TRIANGLE_FROM_ABOVE,
        &MOVED,
    );
}

static SMALL_SQUARE: [Vertex; 4] = [
    Vertex { x: 0, y: 0 },
    Vertex { x: 2, y: 0 },
    Vertex { x: 2, y: 2 },
    Vertex { x: 0, y: 2 },
];

static PENTAGON: [Vertex; 5] = [
    Vertex { x: 5, y: 5 },
    Vertex { x: 9, y: 5 },
    Vertex { x: 9, y: 8 },
    Vertex { x: 7, y: 10 },
    Vertex { x: 5, y: 10 },
];

static MERGED: [Vertex; 5] = [
    Vertex { x: 3, y: 3 },
    Vertex { x: 9, y: 3 },
    Vertex { x: 9, y: 8 },
    Vertex { x: 7, y: 10 },
    Vertex { x: 3, y: 10 },
];

#[test]
fn parallel_edges_merge(rt: HostRuntime) {
    expect(&rt, rt.alloc(), &SMALL_SQUARE, &PENTAGON, &MERGED);
}

static WIDE_TRIANGLE: [Vertex; 3] = [
    Vertex { x: 0, y: 0 },
    Vertex { x: 6, y: 0 },
    Vertex { x: 0, y: 6 },
];

static LOW_TRIANGLE: [Vertex; 3] = [
    Vertex { x: 1, y: 1 },
    Vertex { x: 3, y: 0 },
    Vertex { x: 3, y: 4 },
];

static BELOW_ZERO: [Vertex; 5] = [
    Vertex { x: 3, y: -6 },
    Vertex { x: 3, y: 4 },
    Vertex { x: -3, y: 4 },
    Vertex { x: -5, y: 1 },
    Vertex { x: 1, y: -5 },
];

#[test]
fn a_zone_below_zero(rt: HostRuntime) {
    expect(&rt, rt.alloc(), &WIDE_TRIANGLE, &LOW_TRIANGLE, &BELOW_ZERO);
}

static BY_CORNERS: [(Point, bool); 5] = [
    (Point { x: 9, y: 9 }, true),
    (Point { x: 8, y: 9 }, false),
    (Point { x: 20, y: 9 }, true),
    (Point { x: 21, y: 9 }, false),
    (
        Point {
            x: 4_294_967_295,
            y: 9,
        },
        false,
    ),
];

#[test]
fn touching_at_a_corner_is_meeting(rt: HostRuntime) {
    let zone = sure(&rt, zone_of(rt.alloc(), &TRIANGLE, &GREAT_TRIANGLE, 0));
    expect_points(&rt, &zone, &BY_CORNERS);
    expect_box(&rt, &zone, Vertex { x: 8, y: 8 }, Vertex { x: 20, y: 20 });
    drop(zone);
}

static BODY_OF_MOST_CORNERS: [Vertex; 16] = [
    Vertex { x: -8, y: 64 },
    Vertex { x: -7, y: 49 },
    Vertex { x: -6, y: 36 },
    Vertex { x: -5, y: 25 },
    Vertex { x: -4, y: 16 },
    Vertex { x: -3, y: 9 },
    Vertex { x: -2, y: 4 },
    Vertex { x: -1, y: 1 },
    Vertex { x: 0, y: 0 },
    Vertex { x: 1, y: 1 },
    Vertex { x: 2, y: 4 },
    Vertex { x: 3, y: 9 },
    Vertex { x: 4, y: 16 },
    Vertex { x: 5, y: 25 },
    Vertex { x: 6, y: 36 },
    Vertex { x: 7, y: 49 },
];

static OBSTACLE_OF_MOST_CORNERS: [Vertex; 64] = [
    Vertex { x: -32, y: 1024 },
    Vertex { x: -31, y: 961 },
    Vertex { x: -30, y: 900 },
    Vertex { x: -29, y: 841 },
    Vertex { x: -28, y: 784 },
    Vertex { x: -27, y: 729 },
    Vertex { x: -26, y: 676 },
    Vertex { x: -25, y: 625 },
    Vertex { x: -24, y: 576 },
    Vertex { x: -23, y: 529 },
    Vertex { x: -22, y: 484 },
    Vertex { x: -21, y: 441 },
    Vertex { x: -20, y: 400 },
    Vertex { x: -19, y: 361 },
    Vertex { x: -18, y: 324 },
    Vertex { x: -17, y: 289 },
    Vertex { x: -16, y: 256 },
    Vertex { x: -15, y: 225 },
    Vertex { x: -14, y: 196 },
    Vertex { x: -13, y: 169 },
    Vertex { x: -12, y: 144 },
    Vertex { x: -11, y: 121 },
    Vertex { x: -10, y: 100 },
    Vertex { x: -9, y: 81 },
    Vertex { x: -8, y: 64 },
    Vertex { x: -7, y: 49 },
    Vertex { x: -6, y: 36 },
    Vertex { x: -5, y: 25 },
    Vertex { x: -4, y: 16 },
    Vertex { x: -3, y: 9 },
    Vertex { x: -2, y: 4 },
    Vertex { x: -1, y: 1 },
    Vertex { x: 0, y: 0 },
    Vertex { x: 1, y: 1 },
    Vertex { x: 2, y: 4 },
    Vertex { x: 3, y: 9 },
    Vertex { x: 4, y: 16 },
    Vertex { x: 5, y: 25 },
    Vertex { x: 6, y: 36 },
    Vertex { x: 7, y: 49 },
    Vertex { x: 8, y: 64 },
    Vertex { x: 9, y: 81 },
    Vertex { x: 10, y: 100 },
    Vertex { x: 11, y: 121 },
    Vertex { x: 12, y: 144 },
    Vertex { x: 13, y: 169 },
    Vertex { x: 14, y: 196 },
    Vertex { x: 15, y: 225 },
    Vertex { x: 16, y: 256 },
    Vertex { x: 17, y: 289 },
    Vertex { x: 18, y: 324 },
    Vertex { x: 19, y: 361 },
    Vertex { x: 20, y: 400 },
    Vertex { x: 21, y: 441 },
    Vertex { x: 22, y: 484 },
    Vertex { x: 23, y: 529 },
    Vertex { x: 24, y: 576 },
    Vertex { x: 25, y: 625 },
    Vertex { x: 26, y: 676 },
    Vertex { x: 27, y: 729 },
    Vertex { x: 28, y: 784 },
    Vertex { x: 29, y: 841 },
    Vertex { x: 30, y: 900 },
    Vertex { x: 31, y: 961 },
];

/// The zone, if both polygons pass the test of convexity.
fn checked_zone(alloc: Global, body: &[Vertex], obstacle: &[Vertex]) -> Result<Option<Zone>, Memory>
    requires body { IsTrue (list_all (is_corner_between LEAST_BODY_COORDINATE MOST_BODY_COORDINATE) body.now) }
    requires body_bounded { AreBoundedCorners body.now }
    requires obstacle { IsTrue (list_all (is_corner_between LEAST_SUMMAND_COORDINATE MOST_SUMMAND_COORDINATE) obstacle.now) }
    requires obstacle_bounded { AreBoundedCorners obstacle.now }
{
    if !is_convex(body) {
        return Ok(None);
    }
    if !is_convex(obstacle) {
        return Ok(None);
    }
    Ok(Some(zone_of(alloc, body, obstacle, 0)?))
}

/// The zone of polygons that both pass the test.
fn found<R: Abort>(rt: &R, zone: Option<Zone>) -> Zone {
    match zone {
        Some(zone) => zone,
        None => panic!(rt; "no zone"),
    }
}

#[test]
fn the_most_corners(rt: HostRuntime) {
    let checked = sure(
        &rt,
        checked_zone(rt.alloc(), &BODY_OF_MOST_CORNERS, &OBSTACLE_OF_MOST_CORNERS),
    );
    let zone = found(&rt, checked);
    assert!(rt; zone.corners().len() == 78);
    expect_box(
        &rt,
        &zone,
        Vertex { x: -39, y: -64 },
        Vertex { x: 39, y: 1024 },
    );
    drop(zone);
}
