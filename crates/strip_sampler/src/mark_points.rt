//! The mark points of a scene.

ghost use Rattle.std.specs.Prelude.{◌≡◌, ℕ, All, IfOk};
ghost use Rattle.plan_model.specs.Spaces.ConfigurationSpace.{space_of, InRoom, at_lattice};
ghost use Rattle.plan_model.specs.Scenes.MarkPoints.{BodyFits, mark_points, points_of_marks};
ghost use Rattle.plan_model.specs.declared.scenes.Marks.TheVariants.{Drawn};

use crate::draws::drawn;
use plan_model::{Marks, Memory, Points, RoomSpans, Scene, Sequence};
use std::alloc::Global;

/// The mark points (the samples) of a scene, in the order of their numbers: the listed ones as they stand, or the drawn ones.
/// Marks are drawn only if the body fits into the room, and then each drawn point is one of the room of configurations. Listed
/// points may lie anywhere. A plan of no mark has no point. O(n) for n marks; memory is taken once.
///
/// # Errors
///
/// `Memory` if out of memory for the points.
pub fn marks(alloc: Global, scene: &Scene) -> Result<Points, Memory>
    requires fits { (n : ℕ) → scene.now.plan ≡ Drawn n → BodyFits scene.now.room scene.now.body }
    ensures value { IfOk result (λ points. points ≡ mark_points scene.now) }
    ensures in_room { (n : ℕ) → scene.now.plan ≡ Drawn n
        → IfOk result (λ points. All (λ p. InRoom (space_of scene.now) (at_lattice p)) points) }
{
    match &scene.plan {
        Marks::Listed(points) => Ok(Sequence::from_vec(points.as_slice().to_vec(alloc)?)),
        Marks::Drawn(count) => drawn_points(alloc, scene, *count),
    }
}

/// So many drawn marks of a scene.
fn drawn_points(alloc: Global, scene: &Scene, count: u32) -> Result<Points, Memory>
    requires { BodyFits scene.now.room scene.now.body }
    ensures value { IfOk result (λ points. points ≡ points_of_marks scene.now (Drawn count)) }
    ensures in_room { IfOk result (λ points. All (λ p. InRoom (space_of scene.now) (at_lattice p)) points) }
{
    let spans = RoomSpans::new(scene.room, scene.body.as_slice());
    let mut points = Vec::with_capacity(alloc, count as usize)?;
    for k in 0..count {
        points.push(drawn(scene, spans, k))?;
    }
    Ok(Sequence::from_vec(points))
}

#[cfg(test)]
mod tests;
