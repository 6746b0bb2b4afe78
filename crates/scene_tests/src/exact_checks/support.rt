//! Collision checkers of two scenes: one without a clearance, and one with it. There is memory for them.

ghost use Rattle.std.specs.Prelude.{◌≡◌, ◌≤◌, IfOk, IsTrue, Ok};
ghost use Rattle.plan_model.specs.Scenes.Limits.{are_obstacles, is_body, is_obstacle};
ghost use Rattle.plan_model.specs.declared.limits.TheConstants.{MOST_CLEARANCE};

use plan_model::{Goal, Marks, Memory, Point, Poly, Polys, Scene, Sequence, SmallScene, Vertex};
use std::alloc::Global;
use std::process::Abort;
use swept_check::{Clearing, Hall};

/// What was made, for which there is memory.
pub(crate) fn sure<R: Abort, T>(rt: &R, made: Result<T, Memory>) -> T
    ensures { made ≡ Ok result }
{
    match made {
        Ok(value) => value,
        Err(error) => panic!(rt; "{error}"),
    }
}

/// The obstacles with these corners.
fn obstacles_of(alloc: Global, first: &[Vertex], second: &[Vertex]) -> Result<Polys, Memory>
    requires first { IsTrue (is_obstacle 1 first.now) }
    requires second { IsTrue (is_obstacle 1 second.now) }
    ensures { IfOk result (λ obstacles. IsTrue (are_obstacles 1 obstacles)) }
{
    let mut obstacles = Vec::new(alloc);
    obstacles.push(Sequence::from_vec(Vec::from_slice(alloc, first)?))?;
    obstacles.push(Sequence::from_vec(Vec::from_slice(alloc, second)?))?;
    Ok(Sequence::from_vec(obstacles))
}

/// The scene of a body and obstacles in a room of 20 by 20.
fn scene(alloc: Global, body: &[Vertex], obstacles: Polys) -> Result<Scene, Memory>
    requires body { IsTrue (is_body body.now) }
    requires obstacles { IsTrue (are_obstacles 1 obstacles) }
{
    let small = SmallScene {
        room: Point { x: 20, y: 20 },
        start: Point { x: 0, y: 0 },
        goal: Goal {
            low: Point { x: 20, y: 20 },
            high: Point { x: 20, y: 20 },
        },
        step: 4,
        gamma: 0,
        seed: 0,
        strips: 1,
    };
    let body = Sequence::from_vec(Vec::from_slice(alloc, body)?);
    small.scene(alloc, body, obstacles, Marks::Drawn(0))
}

/// The collision checker of a body and two obstacles in a room of 20 by 20.
pub(crate) fn hall_of_two(
    alloc: Global,
    body: &[Vertex],
    first: &[Vertex],
    second: &[Vertex],
) -> Result<Hall, Memory>
    requires body { IsTrue (is_body body.now) }
    requires first { IsTrue (is_obstacle 1 first.now) }
    requires second { IsTrue (is_obstacle 1 second.now) }
{
    let obstacles = obstacles_of(alloc, first, second)?;
    let scene = scene(alloc, body, obstacles)?;
    let hall = Hall::new(alloc, &scene);
    drop(scene);
    hall
}

/// The scene of a body and an obstacle with a clearance, in a room of 100 by 100.
fn scene_with_clearance(
    alloc: Global,
    body: &[Vertex],
    obstacle: &[Vertex],
    clearance: u32,
) -> Result<Scene, Memory>
    requires body { IsTrue (is_body body.now) }
    requires obstacle { IsTrue (is_obstacle 2 obstacle.now) }
    requires clearance { clearance ≤ MOST_CLEARANCE }
{
    let corner = Point { x: 100, y: 100 };
    let obstacle: Poly = Sequence::from_vec(Vec::from_slice(alloc, obstacle)?);
    let goal = Goal {
        low: corner,
        high: corner,
    };
    Ok(Scene {
        version: 2,
        room: corner,
        body: Sequence::from_vec(Vec::from_slice(alloc, body)?),
        obstacles: Sequence::from_vec(vec![in alloc; obstacle]?),
        clearance,
        start: Point { x: 0, y: 0 },
        goals: Sequence::from_vec(vec![in alloc; goal]?),
        step: 4,
        gamma: 0,
        seed: 0,
        strips: 1,
        informed: false,
        plan: Marks::Drawn(0),
    })
}

/// The collision checker of a body and an obstacle with a clearance, in a room of 100 by 100.
pub(crate) fn hall_with_clearance(
    alloc: Global,
    body: &[Vertex],
    obstacle: &[Vertex],
    clearance: u32,
) -> Result<Hall, Memory>
    requires body { IsTrue (is_body body.now) }
    requires obstacle { IsTrue (is_obstacle 2 obstacle.now) }
    requires clearance { clearance ≤ MOST_CLEARANCE }
{
    let scene = scene_with_clearance(alloc, body, obstacle, clearance)?;
    let hall = Hall::new(alloc, &scene);
    drop(scene);
    hall
}

/// The two ends of a segment, and whether the body is clear along it.
pub(crate) type Case = ((u32, u32), (u32, u32), bool);

pub(crate) const CLEAR: bool = true;

pub(crate) const COLLIDES: bool = false;

/// Asserts that the body is clear along the segment of the case with this number or collides, whichever end it sets out from.
fn expect<R: Abort>(rt: &R, hall: &Hall, number: usize, case: &Case) {
    let a = Point {
        x: case.0.0,
        y: case.0.1,
    };
    let b = Point {
        x: case.1.0,
        y: case.1.1,
    };
    let is_same = hall.clear(a, b) == case.2 && hall.clear(b, a) == case.2;
    assert!(rt; is_same, "case {number}");
}

/// The same of each case.
pub(crate) fn expect_each<R: Abort>(rt: &R, hall: &Hall, cases: &[Case]) {
    for (number, case) in cases.iter().enumerate() {
        expect(rt, hall, number, case);
    }
}
