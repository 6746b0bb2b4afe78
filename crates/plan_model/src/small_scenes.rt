//! Small scenes for tests and examples, of this crate and of those above it.

ghost use Rattle.std.specs.Prelude.{◌≡◌, ◌≤◌, false, [], ◌∷◌, IfOk, IsTrue};
ghost use Rattle.plan_model.specs.Spaces.Clearance.{ClearAt};
ghost use Rattle.plan_model.specs.Spaces.ConfigurationSpace.{space_among, space_of, IsInRoom, empty_room};
ghost use Rattle.plan_model.specs.Scenes.Limits.{IsBetween, are_obstacles, is_body, is_goal, is_plan};
ghost use Rattle.plan_model.specs.Runs.Textbook.{setup_of};
ghost use Rattle.plan_model.specs.declared.scenes.Marks.TheVariants.{Listed};
ghost use Rattle.plan_model.specs.declared.limits.TheConstants.{LEAST_SIDE, LEAST_STEP, LEAST_STRIPS, MOST_GAMMA, MOST_SEED};
ghost use Rattle.plan_model.specs.declared.limits.TheConstants.{MOST_SIDE, MOST_STEP, MOST_STRIPS};

use crate::errors::Memory;
use crate::geometry::{Goal, Point, Vertex};
use crate::lists::Sequence;
use crate::scenes::{Marks, Poly, Polys, Scene};
use crate::tasks::Task;
use std::alloc::Global;

/// A small scene for tests and examples, of version 1: all of a scene but its body, its obstacles and its marks.
///
/// ```text
/// let task = SmallScene {
///     room: Point { x: 100, y: 100 },
///     start: Point { x: 0, y: 0 },
///     goal: Goal { low: Point { x: 90, y: 90 }, high: Point { x: 99, y: 99 } },
///     step: 50,
///     gamma: 1000,
///     seed: 0,
///     strips: 1,
/// }
/// .task(alloc, &[Point { x: 30, y: 40 }])?;
/// ```
#[derive(Clone, Copy, Debug)]
pub struct SmallScene {
    /// The upper right corner of the room.
    pub room: Point,
    /// Where the tree begins, in the room.
    pub start: Point,
    /// The closed box that is to be reached.
    pub goal: Goal,
    /// The longest edge of the tree, in lattice steps.
    pub step: u32,
    /// The factor of the rewiring radius, in lattice steps.
    pub gamma: u32,
    /// The seed of drawn marks.
    pub seed: u64,
    /// Into how many strips the room is cut for drawn marks.
    pub strips: u32,
    ghost room_within: { IsBetween LEAST_SIDE MOST_SIDE room },
    ghost start_within: { IsInRoom room start },
    ghost goal_within: { IsTrue (is_goal 1 goal) },
    ghost step_low: { LEAST_STEP ≤ step },
    ghost step_high: { step ≤ MOST_STEP },
    ghost gamma_high: { gamma ≤ MOST_GAMMA },
    ghost seed_high: { seed ≤ MOST_SEED },
    ghost strips_low: { LEAST_STRIPS ≤ strips },
    ghost strips_high: { strips ≤ MOST_STRIPS },
}

impl SmallScene {
    /// The scene with this body, these obstacles and this plan of marks, each within the limits of a [`Scene`] of version 1.
    /// O(1).
    ///
    /// # Errors
    ///
    /// `Memory` if out of memory for the goal.
    pub fn scene(
        self,
        alloc: Global,
        body: Poly,
        obstacles: Polys,
        plan: Marks,
    ) -> Result<Scene, Memory>
        requires body { IsTrue (is_body body) }
        requires obstacles { IsTrue (are_obstacles 1 obstacles) }
        requires plan { IsTrue (is_plan 1 plan) }
        ensures version { IfOk result (λ scene. scene.version ≡ 1) }
        ensures clearance { IfOk result (λ scene. scene.clearance ≡ 0) }
        ensures setup { IfOk result (λ scene. setup_of scene ≡ record {
          space = space_among self.room body obstacles;
          start = self.start;
          step = self.step;
          gamma = self.gamma;
          goals = [];
        }) }
        ensures goals { IfOk result (λ scene. scene.goals ≡ self.goal ∷ []) }
        ensures seed { IfOk result (λ scene. scene.seed ≡ self.seed) }
        ensures strips { IfOk result (λ scene. scene.strips ≡ self.strips) }
        ensures informed { IfOk result (λ scene. scene.informed ≡ false) }
        ensures plan { IfOk result (λ scene. scene.plan ≡ plan) }
    {
        Ok(Scene {
            version: 1,
            room: self.room,
            body,
            obstacles,
            clearance: 0,
            start: self.start,
            goals: Sequence::from_vec(vec![in alloc; self.goal]?),
            step: self.step,
            gamma: self.gamma,
            seed: self.seed,
            strips: self.strips,
            informed: false,
            plan,
        })
    }

    /// The task of these listed marks for a point body in the empty room, in which the start is clear. There are 0 to
    /// `MOST_MARKS` marks, with no coordinate above `MOST_SIDE`. O(n) for n marks.
    ///
    /// # Errors
    ///
    /// `Memory` if out of memory for the body, the goal or the marks.
    pub fn task(self, alloc: Global, marks: &[Point]) -> Result<Task, Memory>
        requires { IsTrue (is_plan 1 (Listed marks.now)) }
        ensures version { IfOk result (λ task. task.scene.version ≡ 1) }
        ensures clearance { IfOk result (λ task. task.scene.clearance ≡ 0) }
        ensures setup { IfOk result (λ task. setup_of task.scene ≡ record {
          space = empty_room self.room;
          start = self.start;
          step = self.step;
          gamma = self.gamma;
          goals = [];
        }) }
        ensures goals { IfOk result (λ task. task.scene.goals ≡ self.goal ∷ []) }
        ensures strips { IfOk result (λ task. task.scene.strips ≡ self.strips) }
        ensures informed { IfOk result (λ task. task.scene.informed ≡ false) }
        ensures marks { IfOk result (λ task. task.marks ≡ marks.now) }
        ensures clear { IfOk result (λ task. ClearAt (space_of task.scene) task.scene.start) }
    {
        let body = Sequence::from_vec(vec![in alloc; Vertex { x: 0, y: 0 }]?);
        let obstacles = Sequence::from_vec(Vec::new(alloc));
        let plan = Marks::Listed(Sequence::from_vec(Vec::from_slice(alloc, marks)?));
        Ok(Task {
            scene: self.scene(alloc, body, obstacles, plan)?,
            marks: Sequence::from_vec(Vec::from_slice(alloc, marks)?),
        })
    }
}
