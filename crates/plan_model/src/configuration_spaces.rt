//! The configuration space of a translating body in a room among obstacles. A collision checker stands for one.

ghost use Rattle.std.specs.Prelude.{◌≡◌, IfOk};
ghost use Rattle.plan_model.specs.Spaces.ConfigurationSpace.{space_of};

use crate::errors::Memory;
use crate::geometry::Point;
use crate::lists::Sequence;
use crate::scenes::{Poly, Polys, Scene};
use std::alloc::Global;

/// What of a scene decides where the body is clear.
#[derive(Debug, Drop)]
pub struct ConfigurationSpace {
    /// The upper right corner of the room, whose lower left corner is (0, 0).
    pub room: Point,
    /// The corners of the body.
    pub body: Poly,
    /// The corners of each obstacle.
    pub obstacles: Polys,
    /// The clearance from obstacles, in lattice steps: the body collides with an obstacle if it comes within so many
    /// lattice steps of it in both coordinates, so with 0 if it touches it. Walls have no clearance.
    pub clearance: u32,
}

impl ConfigurationSpace {
    /// The configuration space of a scene. O(n) for n corners of the body and the obstacles.
    ///
    /// # Errors
    ///
    /// `Memory` if out of memory for the copies of the body and the obstacles.
    pub fn of(alloc: Global, scene: &Scene) -> Result<ConfigurationSpace, Memory>
        ensures { IfOk result (λ space. space ≡ space_of scene.now) }
    {
        let mut obstacles = Vec::new(alloc);
        for obstacle in scene.obstacles.as_slice() {
            obstacles.push(copied(alloc, obstacle)?)?;
        }
        Ok(ConfigurationSpace {
            room: scene.room,
            body: copied(alloc, &scene.body)?,
            obstacles: Sequence::from_vec(obstacles),
            clearance: scene.clearance,
        })
    }
}

/// A copy of a polygon.
fn copied(alloc: Global, polygon: &Poly) -> Result<Poly, Memory>
    ensures { IfOk result (λ copy. copy ≡ polygon.now) }
{
    Ok(Sequence::from_vec(polygon.as_slice().to_vec(alloc)?))
}
