//! Paths in a room with an obstacle, and the points that smoothing keeps of them.

ghost use Rattle.std.specs.Prelude.{IsTrue, ◌<◌, length};
ghost use Rattle.plan_model.specs.Scenes.Limits.{is_obstacle};

use crate::paths::support::{Place, clear_path, hall_beside, sure};
use path_tools::smooth;
use plan_model::{Memory, Points, Vertex};
use std::alloc::Global;
use std::process::Abort;

/// Asserts the points of a path.
fn assert_places<R: Abort>(rt: &R, path: &Points, wants: &[Place], shows: &str) {
    assert!(rt; path.len() == wants.len(), "{shows}");
    for (point, want) in path.as_slice().iter().zip(wants) {
        assert!(rt; point.x == want.0 && point.y == want.1, "{shows}");
    }
}

/// Asserts which points of a clear path beside an obstacle smoothing keeps.
fn expect_kept<R: Abort>(
    rt: &R,
    alloc: Global,
    obstacle: &[Vertex],
    places: &[Place],
    wants: &[Place],
    shows: &str,
) -> Result<(), Memory>
    requires obstacle { IsTrue (is_obstacle 1 obstacle.now) }
    requires some { 0 < length places.now }
{
    let hall = hall_beside(alloc, obstacle)?;
    let path = clear_path(rt, alloc, &hall, places)?;
    let smoothed = smooth(alloc, &hall, &path)?;
    assert_places(rt, &smoothed, wants, shows);
    drop(smoothed);
    drop(path);
    drop(hall);
    Ok(())
}

/// A wall on the lower side of the room.
static WALL: [Vertex; 4] = [
    Vertex { x: 19, y: 0 },
    Vertex { x: 21, y: 0 },
    Vertex { x: 21, y: 5 },
    Vertex { x: 19, y: 5 },
];

#[test]
fn one_point_stays(rt: HostRuntime) {
    let made = expect_kept(&rt, rt.alloc(), &WALL, &[(7, 9)], &[(7, 9)], "one point");
    sure(&rt, made);
}

static ALONG_A_LINE: [Place; 4] = [(0, 50), (10, 50), (20, 50), (30, 50)];

#[test]
fn a_straight_line_is_its_ends(rt: HostRuntime) {
    let ends = [(0, 50), (30, 50)];
    let made = expect_kept(
        &rt,
        rt.alloc(),
        &WALL,
        &ALONG_A_LINE,
        &ends,
        "four points in a row",
    );
    sure(&rt, made);
}

/// Over the wall, by two points at each of which the way costs the same.
static OVER_THE_WALL: [Place; 4] = [(0, 0), (10, 20), (30, 20), (40, 0)];

#[test]
fn of_equal_ways_the_first_positions_win(rt: HostRuntime) {
    let by_the_first = [(0, 0), (10, 20), (40, 0)];
    let made = expect_kept(
        &rt,
        rt.alloc(),
        &WALL,
        &OVER_THE_WALL,
        &by_the_first,
        "two equal ways",
    );
    sure(&rt, made);
}

/// A wall that is as high as the way over it, but for a lattice step.
static TALL_WALL: [Vertex; 4] = [
    Vertex { x: 19, y: 0 },
    Vertex { x: 21, y: 0 },
    Vertex { x: 21, y: 19 },
    Vertex { x: 19, y: 19 },
];

/// Up, over the wall and down, with a point halfway up and one halfway down, which cost nothing.
static OVER_THE_TALL_WALL: [Place; 6] = [(0, 0), (0, 10), (0, 20), (40, 20), (40, 10), (40, 0)];

#[test]
fn of_equal_costs_the_fewest_points_win(rt: HostRuntime) {
    let corners = [(0, 0), (0, 20), (40, 20), (40, 0)];
    let made = expect_kept(
        &rt,
        rt.alloc(),
        &TALL_WALL,
        &OVER_THE_TALL_WALL,
        &corners,
        "points halfway",
    );
    sure(&rt, made);
}

/// A pillar, and a way round it.
static PILLAR: [Vertex; 4] = [
    Vertex { x: 11, y: 13 },
    Vertex { x: 13, y: 13 },
    Vertex { x: 13, y: 19 },
    Vertex { x: 11, y: 19 },
];

static ROUND_THE_PILLAR: [Place; 5] = [(0, 24), (11, 23), (22, 21), (22, 15), (15, 13)];

#[test]
fn the_least_cost_is_neither_the_fewest_points_nor_the_longest_first_segment(rt: HostRuntime) {
    let cheapest = [(0, 24), (11, 23), (22, 15), (15, 13)];
    let made = expect_kept(
        &rt,
        rt.alloc(),
        &PILLAR,
        &ROUND_THE_PILLAR,
        &cheapest,
        "a way round a pillar",
    );
    sure(&rt, made);
}
