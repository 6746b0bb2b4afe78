//! The task of a small scene.

use plan_model::{Goal, Memory, Point, SmallScene, Task};
use std::alloc::Global;
use std::process::Abort;

/// The corner of the room, which is the goal and a mark too.
const CORNER: Point = Point { x: 9, y: 9 };

/// A task with one mark in an empty room.
fn small_task(alloc: Global) -> Result<Task, Memory> {
    SmallScene {
        room: CORNER,
        start: Point { x: 0, y: 0 },
        goal: Goal {
            low: CORNER,
            high: CORNER,
        },
        step: 5,
        gamma: 0,
        seed: 0,
        strips: 1,
    }
    .task(alloc, &[CORNER])
}

/// Asserts the room, the goal and the mark of that task.
fn assert_task(rt: &impl Abort, task: &Task) {
    assert!(rt; task.marks.as_slice() == [CORNER].as_slice());
    assert!(rt; task.scene.obstacles.len() == 0);
    assert!(rt; task.scene.room == CORNER);
    assert!(rt; task.scene.version == 1);
    assert!(rt; task.scene.goals.as_slice()[0].low == CORNER);
}

#[test]
fn makes_the_task_of_an_empty_room(rt: HostRuntime) -> Result<(), Memory> {
    let task = small_task(rt.alloc())?;
    assert_task(&rt, &task);
    drop(task);
    Ok(())
}
