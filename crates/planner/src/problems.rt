//! What a scene gives to those who plan it.

ghost use Rattle.std.specs.Prelude.{◌≡◌};
ghost use Rattle.std.proofs.Props.{props};
ghost use Rattle.plan_model.specs.Spaces.Clearance.{ClearAt};
ghost use Rattle.plan_model.specs.Spaces.ConfigurationSpace.{space_of};

use obstacle_boxes::Boxes;
use plan_model::{Memory, Scene, Task};
use std::alloc::Global;
use strip_sampler::marks;
use swept_check::Hall;

/// A task whose start is clear, with the collision checker of its scene.
#[derive(Drop)]
pub struct Problem {
    /// The scene with its marks, as they are listed or drawn.
    pub task: Task,
    /// The collision checker.
    pub boxes: Boxes,
    pub ghost space: { boxes ≡ space_of task.scene } by { Prim.hlevel props },
    pub ghost start: { ClearAt (space_of task.scene) task.scene.start } by { Prim.hlevel props },
}

impl Problem {
    ghost use Rattle.std.specs.Prelude.{◌≡◌, IfNone, IfOk, IfSome};
    ghost use Rattle.plan_model.specs.Spaces.Clearance.{ClearAt};
    ghost use Rattle.plan_model.specs.Spaces.ConfigurationSpace.{space_of};

    /// The problem of a scene; `None` exactly if the start is not clear. O(n log² n) for n obstacles, and O(n) for n marks.
    ///
    /// # Errors
    ///
    /// `Memory` if out of memory for the zones, their boxes or the marks.
    pub(crate) fn if_start_clear(alloc: Global, scene: Scene) -> Result<Option<Problem>, Memory>
        ensures scene { IfOk result (λ made. IfSome made (λ problem. problem.task.scene ≡ scene)) }
        ensures blocked { IfOk result (λ made. IfNone made (¬ ClearAt (space_of scene) scene.start)) }
    {
        let hall = Hall::new(alloc, &scene)?;
        if !hall.clear_at(scene.start) {
            return Ok(None);
        }
        Ok(Some(Problem::new(alloc, scene, hall)?))
    }

    /// The problem of a scene whose start is clear, over its exact collision checker.
    ///
    /// # Errors
    ///
    /// `Memory` if out of memory for the boxes or the marks.
    pub(crate) fn new(alloc: Global, scene: Scene, hall: Hall) -> Result<Problem, Memory>
        requires hall { hall ≡ space_of scene }
        requires start { ClearAt (space_of scene) scene.start }
        ensures { IfOk result (λ problem. problem.task.scene ≡ scene) }
    {
        let boxes = Boxes::new(alloc, hall)?;
        // the start is clear, so there is room to draw marks in
        let marks = marks(alloc, &scene)?;
        let task = Task { scene, marks };
        Ok(Problem { task, boxes })
    }
}
