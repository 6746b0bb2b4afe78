//! Segments that touch zones, and segments that just miss them.

ghost use Rattle.std.specs.Prelude.{IsTrue};
ghost use Rattle.plan_model.specs.Scenes.Limits.{is_body, is_obstacle};

use crate::exact_checks::support::{CLEAR, COLLIDES, Case, expect_each, hall_of_two, sure};
use plan_model::{Point, Vertex};
use std::alloc::Global;
use std::process::Abort;

/// Asserts each case in the hall of a body and one obstacle.
fn expect_beside<R: Abort>(
    rt: &R,
    alloc: Global,
    body: &[Vertex],
    obstacle: &[Vertex],
    cases: &[Case],
)
    requires body { IsTrue (is_body body.now) }
    requires obstacle { IsTrue (is_obstacle 1 obstacle.now) }
{
    let hall = sure(rt, hall_of_two(alloc, body, obstacle, obstacle));
    expect_each(rt, &hall, cases);
    drop(hall);
}

/// A body of one corner at its origin.
static POINT: [Vertex; 1] = [Vertex { x: 0, y: 0 }];

/// A square of side 4 in the middle of the room.
static SQUARE: [Vertex; 4] = [
    Vertex { x: 8, y: 8 },
    Vertex { x: 12, y: 8 },
    Vertex { x: 12, y: 12 },
    Vertex { x: 8, y: 12 },
];

static CORNERS_AND_EDGES: [Case; 9] = [
    // past the corner (8, 12), at the middle of the segment and at a third of it
    ((6, 10), (10, 14), COLLIDES),
    ((6, 11), (10, 15), CLEAR),
    ((7, 10), (10, 16), COLLIDES),
    ((7, 11), (10, 17), CLEAR),
    // to an edge
    ((10, 16), (10, 12), COLLIDES),
    ((10, 16), (10, 13), CLEAR),
    // from side to side, and within
    ((0, 10), (20, 10), COLLIDES),
    ((7, 11), (11, 13), COLLIDES),
    ((9, 9), (11, 10), COLLIDES),
];

#[test]
fn corners_and_edges_collide(rt: HostRuntime) {
    expect_beside(&rt, rt.alloc(), &POINT, &SQUARE, &CORNERS_AND_EDGES);
}

static ON_THE_LINE_OF_AN_EDGE: [Case; 6] = [
    ((2, 12), (7, 12), CLEAR),
    ((2, 12), (8, 12), COLLIDES),
    ((9, 12), (11, 12), COLLIDES),
    ((2, 12), (18, 12), COLLIDES),
    ((13, 12), (18, 12), CLEAR),
    ((2, 13), (18, 13), CLEAR),
];

#[test]
fn the_line_of_an_edge_collides_on_the_edge_alone(rt: HostRuntime) {
    expect_beside(&rt, rt.alloc(), &POINT, &SQUARE, &ON_THE_LINE_OF_AN_EDGE);
}

static TRIANGLE: [Vertex; 3] = [
    Vertex { x: 5, y: 5 },
    Vertex { x: 6, y: 5 },
    Vertex { x: 5, y: 6 },
];

static BETWEEN_LATTICE_POINTS: [Case; 2] = [((4, 6), (7, 5), COLLIDES), ((4, 7), (7, 6), CLEAR)];

#[test]
fn a_segment_may_collide_between_lattice_points(rt: HostRuntime) {
    expect_beside(&rt, rt.alloc(), &POINT, &TRIANGLE, &BETWEEN_LATTICE_POINTS);
}

static POINTS: [Case; 5] = [
    ((8, 8), (8, 8), COLLIDES),
    ((10, 8), (10, 8), COLLIDES),
    ((10, 10), (10, 10), COLLIDES),
    ((7, 8), (7, 8), CLEAR),
    ((10, 7), (10, 7), CLEAR),
];

#[test]
fn a_segment_may_be_a_point(rt: HostRuntime) {
    expect_beside(&rt, rt.alloc(), &POINT, &SQUARE, &POINTS);
}

#[test]
fn a_point_is_tested_alone(rt: HostRuntime) {
    let hall = sure(&rt, hall_of_two(rt.alloc(), &POINT, &SQUARE, &SQUARE));
    assert!(rt; !hall.clear_at(Point { x: 12, y: 9 }));
    assert!(rt; hall.clear_at(Point { x: 13, y: 9 }));
    drop(hall);
}

static ALONG_WALLS: [Case; 5] = [
    ((0, 0), (20, 0), CLEAR),
    ((20, 0), (20, 20), CLEAR),
    ((0, 0), (21, 0), COLLIDES),
    ((0, 0), (0, 21), COLLIDES),
    ((4_294_967_295, 0), (0, 4_294_967_295), COLLIDES),
];

#[test]
fn walls_may_be_touched(rt: HostRuntime) {
    expect_beside(&rt, rt.alloc(), &POINT, &SQUARE, &ALONG_WALLS);
}

static OFF_ITS_ORIGIN: [Vertex; 3] = [
    Vertex { x: -5, y: 1 },
    Vertex { x: -3, y: 1 },
    Vertex { x: -5, y: 3 },
];

static OF_A_BODY_OFF_ITS_ORIGIN: [Case; 7] = [
    // in the room from x = 5 and up to y = 17
    ((5, 0), (5, 17), CLEAR),
    ((4, 0), (5, 0), COLLIDES),
    ((5, 17), (5, 18), COLLIDES),
    // the body's corner (-3, 1) touches the square's left edge at x = 11, and its edge the upper right corner
    ((11, 8), (11, 10), COLLIDES),
    ((10, 8), (10, 11), CLEAR),
    ((18, 0), (18, 17), CLEAR),
    ((17, 0), (17, 17), COLLIDES),
];

#[test]
fn a_body_off_its_origin(rt: HostRuntime) {
    expect_beside(
        &rt,
        rt.alloc(),
        &OFF_ITS_ORIGIN,
        &SQUARE,
        &OF_A_BODY_OFF_ITS_ORIGIN,
    );
}

static LEFT_OF_THE_ROOM: [Vertex; 4] = [
    Vertex { x: -4, y: 4 },
    Vertex { x: 0, y: 4 },
    Vertex { x: 0, y: 8 },
    Vertex { x: -4, y: 8 },
];

static ABOVE_THE_ROOM: [Vertex; 3] = [
    Vertex { x: 4, y: 21 },
    Vertex { x: 8, y: 21 },
    Vertex { x: 6, y: 25 },
];

static BESIDE_THE_WALLS: [Case; 5] = [
    ((0, 2), (0, 9), COLLIDES),
    ((0, 8), (3, 11), COLLIDES),
    ((1, 2), (1, 9), CLEAR),
    ((0, 9), (0, 20), CLEAR),
    ((0, 20), (20, 20), CLEAR),
];

#[test]
fn obstacles_outside_the_room(rt: HostRuntime) {
    let hall = sure(
        &rt,
        hall_of_two(rt.alloc(), &POINT, &LEFT_OF_THE_ROOM, &ABOVE_THE_ROOM),
    );
    expect_each(&rt, &hall, &BESIDE_THE_WALLS);
    drop(hall);
}

static IN_THE_CORNER: [Vertex; 3] = [
    Vertex { x: 0, y: 0 },
    Vertex { x: 3, y: 0 },
    Vertex { x: 0, y: 3 },
];

static BY_TWO_OBSTACLES: [Case; 3] = [
    ((0, 10), (20, 10), COLLIDES),
    ((1, 2), (0, 10), COLLIDES),
    ((2, 2), (0, 4), CLEAR),
];

#[test]
fn each_obstacle_collides(rt: HostRuntime) {
    let hall = sure(
        &rt,
        hall_of_two(rt.alloc(), &POINT, &SQUARE, &IN_THE_CORNER),
    );
    expect_each(&rt, &hall, &BY_TWO_OBSTACLES);
    assert!(rt; hall.zones().len() == 2);
    drop(hall);
}

static AROUND_THE_ROOM: [Vertex; 4] = [
    Vertex { x: -10, y: -10 },
    Vertex { x: 30, y: -10 },
    Vertex { x: 30, y: 30 },
    Vertex { x: -10, y: 30 },
];

static WITHIN_AN_OBSTACLE: [Case; 3] = [
    ((0, 0), (20, 20), COLLIDES),
    ((10, 10), (10, 10), COLLIDES),
    ((0, 20), (0, 20), COLLIDES),
];

#[test]
fn an_obstacle_round_the_room(rt: HostRuntime) {
    expect_beside(
        &rt,
        rt.alloc(),
        &POINT,
        &AROUND_THE_ROOM,
        &WITHIN_AN_OBSTACLE,
    );
}
