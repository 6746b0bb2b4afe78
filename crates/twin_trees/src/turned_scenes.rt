//! The task from the other end of a scene.

ghost use Rattle.std.specs.Prelude.{◌≡◌, ◌+◌, ◌/◌, IfOk};
ghost use Rattle.twin_trees.specs.Twins.{IsTurnedRound, box_of, goal_middle, middle_of};

use plan_model::{ConfigurationSpace, Goal, Goals, Marks, Memory, Point, Points, Scene, Task};
use std::alloc::Global;

/// The task of the scene from the other end, over the same mark points: a copy.
pub(crate) fn turned_task(alloc: Global, task: &Task) -> Result<Task, Memory>
    ensures scene { IfOk result (λ turned. IsTurnedRound task.now.scene turned.scene) }
    ensures marks { IfOk result (λ turned. turned.marks ≡ task.now.marks) }
{
    let scene = turned_scene(alloc, &task.scene)?;
    let marks = copied(alloc, &task.marks)?;
    Ok(Task { scene, marks })
}

/// The scene from the other end: a copy.
fn turned_scene(alloc: Global, scene: &Scene) -> Result<Scene, Memory>
    ensures { IfOk result (IsTurnedRound scene.now) }
{
    let space = ConfigurationSpace::of(alloc, scene)?;
    let goals = Goals::from_vec(vec![in alloc; box_round(scene.start)]?);
    let plan = copied_plan(alloc, &scene.plan)?;
    Ok(Scene {
        version: scene.version,
        room: space.room,
        body: space.body,
        obstacles: space.obstacles,
        clearance: space.clearance,
        start: middle_of_first_goal(scene),
        goals,
        step: scene.step,
        gamma: scene.gamma,
        seed: scene.seed,
        strips: scene.strips,
        informed: scene.informed,
        plan,
    })
}

/// The middle of the first goal, rounded down. O(1).
pub(crate) fn middle_of_first_goal(scene: &Scene) -> Point
    ensures { result ≡ goal_middle scene.now }
{
    middle(scene.goals.as_slice()[0])
}

/// The middle of a box, rounded down.
fn middle(goal: Goal) -> Point
    ensures { result ≡ middle_of goal }
{
    Point {
        x: middle_of_two(goal.low.x, goal.high.x),
        y: middle_of_two(goal.low.y, goal.high.y),
    }
}

/// The number in the middle of two, rounded down.
fn middle_of_two(low: u32, high: u32) -> u32
    ensures { result ≡ (low + high) / 2 }
{
    ((u64::from(low) + u64::from(high)) / 2) as u32
}

/// The box of a single point.
fn box_round(point: Point) -> Goal
    ensures { result ≡ box_of point }
{
    Goal {
        low: point,
        high: point,
    }
}

/// A copy of points.
fn copied(alloc: Global, points: &Points) -> Result<Points, Memory>
    ensures { IfOk result (λ copy. copy ≡ points.now) }
{
    Ok(Points::from_vec(points.as_slice().to_vec(alloc)?))
}

/// A copy of the plan of the marks.
fn copied_plan(alloc: Global, plan: &Marks) -> Result<Marks, Memory>
    ensures { IfOk result (λ copy. copy ≡ plan.now) }
{
    match plan {
        Marks::Drawn(count) => Ok(Marks::Drawn(*count)),
        Marks::Listed(points) => Ok(Marks::Listed(copied(alloc, points)?)),
    }
}
