//! Rooms with an obstacle, and clear paths in them. There is memory for them.

ghost use Rattle.std.specs.Prelude.{◌≡◌, ℕ, suc, ◌<◌, length, vec_len, IfOk, IsTrue, Ok};
ghost use Rattle.plan_model.specs.Scenes.Limits.{is_obstacle};
ghost use Rattle.plan_model.specs.Spaces.Clearance.{Clear, IsClearPath};

use plan_model::{Goal, Marks, Memory, Point, Points, Poly, Scene, Sequence, SmallScene, Vertex};
use std::alloc::Global;
use std::process::Abort;
use swept_check::{Clearing, Hall};

/// Where a point stands: its column and its row.
pub(crate) type Place = (u32, u32);

/// What was made, for which there is memory.
pub(crate) fn sure<R: Abort, T>(rt: &R, made: Result<T, Memory>) -> T
    ensures { made ≡ Ok result }
{
    match made {
        Ok(value) => value,
        Err(error) => panic!(rt; "{error}"),
    }
}

/// The scene of a point body and an obstacle in a room of 100 by 100.
fn scene_beside(alloc: Global, obstacle: Poly) -> Result<Scene, Memory>
    requires { IsTrue (is_obstacle 1 obstacle) }
{
    let small = SmallScene {
        room: Point { x: 100, y: 100 },
        start: Point { x: 0, y: 0 },
        goal: Goal {
            low: Point { x: 0, y: 0 },
            high: Point { x: 0, y: 0 },
        },
        step: 4,
        gamma: 0,
        seed: 0,
        strips: 1,
    };
    let body = Sequence::from_vec(vec![in alloc; Vertex { x: 0, y: 0 }]?);
    let obstacles = Sequence::from_vec(vec![in alloc; obstacle]?);
    small.scene(alloc, body, obstacles, Marks::Drawn(0))
}

/// The collision checker of a point body and an obstacle in a room of 100 by 100.
pub(crate) fn hall_beside(alloc: Global, obstacle: &[Vertex]) -> Result<Hall, Memory>
    requires { IsTrue (is_obstacle 1 obstacle.now) }
{
    let scene = scene_beside(alloc, Sequence::from_vec(Vec::from_slice(alloc, obstacle)?))?;
    let hall = Hall::new(alloc, &scene);
    drop(scene);
    hall
}

/// The points at these places.
fn points_at(alloc: Global, places: &[Place]) -> Result<Vec<Point>, Memory>
    ensures { IfOk result (λ points. vec_len points ≡ length places.now) }
{
    let points = places
        .iter()
        .map(|place| Point {
            x: place.0,
            y: place.1,
        })
        .collect(alloc)?;
    Ok(points)
}

/// Asserts that a segment is clear.
fn assert_segment<R: Abort>(rt: &R, hall: &Hall, from: Point, to: Point)
    ensures { Clear hall.now from to }
{
    if !hall.clear(from, to) {
        panic!(rt; "no path goes by {from:?} and {to:?}");
    }
}

/// Asserts that each two points that follow each other have a clear segment.
fn assert_clear<R: Abort>(rt: &R, hall: &Hall, points: &[Point])
    ensures { IsClearPath hall.now points.now }
{
    'edges: for first in 0..points.len().saturating_sub(1) {
        assert_segment(rt, hall, points[first], points[first + 1]);
    }
}

/// The path over these places, which is clear.
pub(crate) fn clear_path<R: Abort>(
    rt: &R,
    alloc: Global,
    hall: &Hall,
    places: &[Place],
) -> Result<Points, Memory>
    ensures count { IfOk result (λ path. length path ≡ length places.now) }
    ensures clear { IfOk result (IsClearPath hall.now) }
{
    let points = points_at(alloc, places)?;
    assert_clear(rt, hall, &points);
    Ok(Points::from_vec(points))
}
