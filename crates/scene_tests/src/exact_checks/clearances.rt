//! Segments that come as close to an obstacle as the clearance, and segments that just do not.

ghost use Rattle.std.specs.Prelude.{◌≤◌, IsTrue};
ghost use Rattle.plan_model.specs.Scenes.Limits.{is_body, is_obstacle};
ghost use Rattle.plan_model.specs.declared.limits.TheConstants.{MOST_CLEARANCE};

use crate::exact_checks::support::{CLEAR, COLLIDES, Case, expect_each, hall_with_clearance, sure};
use plan_model::Vertex;
use std::alloc::Global;
use std::process::Abort;

/// Asserts each case in the hall of a body and one obstacle with a clearance.
fn expect_beside<R: Abort>(
    rt: &R,
    alloc: Global,
    body: &[Vertex],
    obstacle: &[Vertex],
    clearance: u32,
    cases: &[Case],
)
    requires body { IsTrue (is_body body.now) }
    requires obstacle { IsTrue (is_obstacle 2 obstacle.now) }
    requires clearance { clearance ≤ MOST_CLEARANCE }
{
    let hall = sure(rt, hall_with_clearance(alloc, body, obstacle, clearance));
    expect_each(rt, &hall, cases);
    drop(hall);
}

/// A body of one corner at its origin.
static POINT: [Vertex; 1] = [Vertex { x: 0, y: 0 }];

/// A pillar that stands on the lower wall.
static PILLAR: [Vertex; 4] = [
    Vertex { x: 40, y: 0 },
    Vertex { x: 60, y: 0 },
    Vertex { x: 60, y: 60 },
    Vertex { x: 40, y: 60 },
];

static FIVE_FROM_THE_PILLAR: [Case; 7] = [
    // above it
    ((30, 65), (70, 65), COLLIDES),
    ((30, 66), (70, 66), CLEAR),
    // beside it
    ((35, 0), (35, 0), COLLIDES),
    ((34, 0), (34, 100), CLEAR),
    // beside its corner, in both coordinates
    ((35, 65), (35, 65), COLLIDES),
    ((30, 61), (39, 70), CLEAR),
    ((30, 60), (40, 70), COLLIDES),
];

#[test]
fn a_segment_as_close_as_the_clearance_collides(rt: HostRuntime) {
    expect_beside(&rt, rt.alloc(), &POINT, &PILLAR, 5, &FIVE_FROM_THE_PILLAR);
}

static ALONG_WALLS: [Case; 4] = [
    ((0, 0), (0, 100), CLEAR),
    ((0, 100), (100, 100), CLEAR),
    ((100, 100), (100, 0), CLEAR),
    ((0, 0), (0, 101), COLLIDES),
];

#[test]
fn walls_have_no_clearance(rt: HostRuntime) {
    expect_beside(&rt, rt.alloc(), &POINT, &PILLAR, 5, &ALONG_WALLS);
}

static TOUCHING_THE_PILLAR: [Case; 3] = [
    ((30, 60), (70, 60), COLLIDES),
    ((30, 61), (70, 61), CLEAR),
    ((39, 0), (39, 60), CLEAR),
];

#[test]
fn without_a_clearance_touching_collides(rt: HostRuntime) {
    expect_beside(&rt, rt.alloc(), &POINT, &PILLAR, 0, &TOUCHING_THE_PILLAR);
}

/// A triangle with a slope to its upper right.
static SLOPE: [Vertex; 3] = [
    Vertex { x: 40, y: 40 },
    Vertex { x: 60, y: 40 },
    Vertex { x: 40, y: 60 },
];

static ALONG_THE_SLOPE: [Case; 3] = [
    ((100, 10), (10, 100), COLLIDES),
    ((100, 11), (11, 100), CLEAR),
    ((55, 55), (55, 55), COLLIDES),
];

#[test]
fn beside_a_slope_the_corner_of_the_square_counts(rt: HostRuntime) {
    expect_beside(&rt, rt.alloc(), &POINT, &SLOPE, 5, &ALONG_THE_SLOPE);
}

static OFF_ITS_ORIGIN: [Vertex; 3] = [
    Vertex { x: -5, y: 1 },
    Vertex { x: -3, y: 1 },
    Vertex { x: -5, y: 3 },
];

static SQUARE: [Vertex; 4] = [
    Vertex { x: 8, y: 8 },
    Vertex { x: 12, y: 8 },
    Vertex { x: 12, y: 12 },
    Vertex { x: 8, y: 12 },
];

static OF_A_BODY_OFF_ITS_ORIGIN: [Case; 6] = [
    ((9, 0), (9, 20), CLEAR),
    ((10, 6), (10, 12), COLLIDES),
    // beside the slope of the body
    ((11, 5), (11, 5), COLLIDES),
    ((10, 5), (11, 4), CLEAR),
    // beside its left edge
    ((18, 4), (18, 12), COLLIDES),
    ((19, 0), (19, 20), CLEAR),
];

#[test]
fn a_body_off_its_origin(rt: HostRuntime) {
    expect_beside(
        &rt,
        rt.alloc(),
        &OFF_ITS_ORIGIN,
        &SQUARE,
        1,
        &OF_A_BODY_OFF_ITS_ORIGIN,
    );
}
