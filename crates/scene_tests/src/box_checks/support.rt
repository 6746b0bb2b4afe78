//! Collision checkers of a point body among triangles and squares, in a room of 100 by 100.

ghost use Rattle.std.specs.Prelude.{◌≡◌, ◌≤◌, IsTrue, Ok};
ghost use Rattle.plan_model.specs.Scenes.Limits.{are_obstacles};
ghost use Rattle.plan_model.specs.declared.limits.TheConstants.{MOST_CLEARANCE};

use obstacle_boxes::Boxes;
use plan_model::{Goal, Marks, Point, Poly, Polys, Scene, Sequence, Vertex};
use std::alloc::Global;
use std::fmt;
use std::process::Abort;
use swept_check::Hall;

/// What was made, for which there is memory.
pub(crate) fn sure<R: Abort, T, E: fmt::Display>(rt: &R, made: Result<T, E>) -> T
    ensures { made ≡ Ok result }
{
    match made {
        Ok(value) => value,
        Err(error) => panic!(rt; "{error}"),
    }
}

/// The polygon of these corners.
pub(crate) fn polygon<R: Abort>(rt: &R, alloc: Global, corners: &[Vertex]) -> Poly
    ensures { result ≡ corners.now }
{
    Sequence::from_vec(sure(rt, Vec::from_slice(alloc, corners)))
}

/// The obstacles with these corners.
pub(crate) fn obstacles<R: Abort>(rt: &R, alloc: Global, corners: &[[Vertex; 4]]) -> Polys
    ensures { result ≡ corners.now }
{
    let mut polys = Vec::new(alloc);
    for four in corners {
        let next = polygon(rt, alloc, four);
        sure(rt, polys.push(next));
    }
    Sequence::from_vec(polys)
}

static POINT: [Vertex; 1] = [Vertex { x: 0, y: 0 }];

/// The scene of these obstacles with a clearance.
pub(crate) fn scene<R: Abort>(rt: &R, alloc: Global, obstacles: Polys, clearance: u32) -> Scene
    requires obstacles { IsTrue (are_obstacles 2 obstacles) }
    requires clearance { clearance ≤ MOST_CLEARANCE }
{
    let goal = Goal {
        low: Point { x: 99, y: 99 },
        high: Point { x: 99, y: 99 },
    };
    Scene {
        version: 2,
        room: Point { x: 100, y: 100 },
        body: polygon(rt, alloc, &POINT),
        obstacles,
        clearance,
        start: Point { x: 0, y: 0 },
        goals: Sequence::from_vec(sure(rt, vec![in alloc; goal])),
        step: 4,
        gamma: 0,
        seed: 0,
        strips: 1,
        informed: false,
        plan: Marks::Drawn(0),
    }
}

/// The boxes over the zones of a scene.
pub(crate) fn boxes_of<R: Abort>(rt: &R, alloc: Global, scene: &Scene) -> Boxes {
    let hall = sure(rt, Hall::new(alloc, scene));
    sure(rt, Boxes::new(alloc, hall))
}
