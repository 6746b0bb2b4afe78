//! Two trees grown, settled and joined.

ghost use Rattle.std.specs.Prelude.{◌≡◌, ◌≤◌, Err, IfOk};
ghost use Rattle.plan_model.specs.Spaces.Clearance.{ClearAt};
ghost use Rattle.plan_model.specs.Spaces.ConfigurationSpace.{space_of};
ghost use Rattle.plan_model.specs.declared.limits.TheConstants.{MOST_WORKERS};
ghost use Rattle.twin_trees.specs.Twins.{goal_middle, IsTurnedRun, IsTwin, IsWholeRun};

use crate::bridging::least_bridge;
use crate::turned_scenes::{middle_of_first_goal, turned_task};
use crate::twin_runs::{Twin, TwinFault};
use plan_model::{Memory, Task};
use plan_work::{Gate, grow};
use settle_report::settle;
use std::alloc::Global;
use std::thread::Threads;
use step_core::Grown;
use swept_check::Clearing;

/// Grows a tree from the start of a scene and one from the middle of its first goal, over the same marks, each with 1 to `MOST_WORKERS`
/// workers and settled, and finds the bridge between them. The first is settled before the second begins. The start is clear, and the
/// hall stands for the scene; it serves both. The gate is told of the turns of the first run, and then of those of the second.
///
/// It takes what [`grow`] and [`settle`] take for each tree, and O(n s log n + k) for the bridge, for n nodes, s bands and k pairs of nodes within
/// a step of each other that the triangle law does not leave out.
///
/// # Errors
///
/// `GoalBlocked` exactly if the body is not clear in the middle of the first goal, and nothing is planned then; `Memory` if out of memory.
/// The task is gone.
pub fn twin<R: Threads + Sync, C: Clearing, G: Gate>(
    rt: &R,
    alloc: Global,
    task: Task,
    hall: &C,
    workers: u32,
    gate: &G,
) -> Result<Twin, TwinFault>
    requires hall { C.space hall.now ≡ space_of task.scene }
    requires start { ClearAt (space_of task.scene) task.scene.start }
    requires some { 1 ≤ workers }
    requires few { workers ≤ MOST_WORKERS }
    ensures twin { IfOk result (IsTwin workers task.scene) }
    ensures blocked { result ≡ Err TwinFault.GoalBlocked → ¬ ClearAt (space_of task.scene) (goal_middle task.scene) }
    ensures clear { (¬ ClearAt (space_of task.scene) (goal_middle task.scene)) → result ≡ Err TwinFault.GoalBlocked }
{
    let middle = middle_of_first_goal(&task.scene);
    if !hall.clear(middle, middle) {
        return Err(TwinFault::GoalBlocked);
    }
    Ok(twin_from(rt, alloc, task, hall, workers, gate)?)
}

/// The two trees, if the middle of the first goal is clear.
fn twin_from<R: Threads + Sync, C: Clearing, G: Gate>(
    rt: &R,
    alloc: Global,
    task: Task,
    hall: &C,
    workers: u32,
    gate: &G,
) -> Result<Twin, Memory>
    requires hall { C.space hall.now ≡ space_of task.scene }
    requires start { ClearAt (space_of task.scene) task.scene.start }
    requires middle { ClearAt (space_of task.scene) (goal_middle task.scene) }
    requires some { 1 ≤ workers }
    requires few { workers ≤ MOST_WORKERS }
    ensures { IfOk result (IsTwin workers task.scene) }
{
    let from_start = whole_run(rt, alloc, task, hall, workers, gate)?;
    let from_goal = turned_run(rt, alloc, from_start.task(), hall, workers, gate)?;
    let bridge = least_bridge(alloc, hall, &from_start, &from_goal)?;
    Ok(Twin {
        from_start,
        from_goal,
        bridge,
    })
}

/// A run over all marks of the task from the other end, settled.
fn turned_run<R: Threads + Sync, C: Clearing, G: Gate>(
    rt: &R,
    alloc: Global,
    task: &Task,
    hall: &C,
    workers: u32,
    gate: &G,
) -> Result<Grown, Memory>
    requires hall { C.space hall.now ≡ space_of task.now.scene }
    requires middle { ClearAt (space_of task.now.scene) (goal_middle task.now.scene) }
    requires some { 1 ≤ workers }
    requires few { workers ≤ MOST_WORKERS }
    ensures { IfOk result (IsTurnedRun workers task.now.scene) }
{
    let turned = turned_task(alloc, task)?;
    whole_run(rt, alloc, turned, hall, workers, gate)
}

/// A run over all marks of a task, settled.
fn whole_run<R: Threads + Sync, C: Clearing, G: Gate>(
    rt: &R,
    alloc: Global,
    task: Task,
    hall: &C,
    workers: u32,
    gate: &G,
) -> Result<Grown, Memory>
    requires hall { C.space hall.now ≡ space_of task.scene }
    requires start { ClearAt (space_of task.scene) task.scene.start }
    requires some { 1 ≤ workers }
    requires few { workers ≤ MOST_WORKERS }
    ensures { IfOk result (IsWholeRun workers task.scene) }
{
    let limit = task.marks.len() as u32;
    let fresh = Grown::new(alloc, task)?;
    let mut grown = grow(rt, alloc, fresh, hall, workers, limit, gate)?;
    settle(alloc, &mut grown)?;
    Ok(grown)
}
