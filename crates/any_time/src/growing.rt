//! Slices of marks: a run grows by a slice and is settled, over any collision checker in which runs can grow.

ghost use Rattle.std.specs.Prelude.{◌≡◌, ◌≢◌, ◌≤◌, ◌+◌, ◌<◌, IfOk, length, min};
ghost use Rattle.any_time.specs.Sessions.{Handles};
ghost use Rattle.plan_model.specs.Spaces.ConfigurationSpace.{space_of};
ghost use Rattle.plan_model.specs.declared.limits.TheConstants.{MOST_WORKERS};

use obstacle_boxes::Boxes;
use plan_model::Memory;
use plan_work::{NoGate, grow};
use settle_report::settle;
use std::alloc::Global;
use std::thread::Threads;
use step_core::Grown;
use swept_check::{Clearing, Hall};

/// A collision checker over which a session can grow its run. A method of a trait that starts threads cannot rest on a bound
/// with methods, so each checker says for itself how a run grows over it: by a call of [`grow_slice`].
pub trait Growing: Clearing {
    ghost use denote.Param.Send.{IsSync};
    ghost use Rattle.std.specs.Prelude.{◌≡◌, ◌≢◌, ◌≤◌, IfOk, length};
    ghost use Rattle.any_time.specs.Sessions.{Handles};
    ghost use Rattle.plan_model.specs.Spaces.ConfigurationSpace.{space_of};
    ghost use Rattle.plan_model.specs.declared.limits.TheConstants.{MOST_WORKERS};

    /// [`grow_slice`] over this checker.
    fn grow_slice<R: Threads + Sync>(
        &self,
        rt: &R,
        alloc: Global,
        grown: Grown,
        workers: u32,
        slice: u32,
    ) -> Result<Grown, Memory>
        requires sync { IsSync R.row }
        requires hall { Self.space self.now ≡ space_of grown.task.scene }
        requires some { 1 ≤ workers }
        requires few { workers ≤ MOST_WORKERS }
        requires slice { 1 ≤ slice }
        requires left { grown.limit ≢ length grown.task.marks }
        ensures { IfOk result (Handles workers slice grown) };
}

/// Grows a run, of which some mark is left, by the next slice of marks or by the rest, with 1 to `MOST_WORKERS` workers, and settles it:
/// each kept cost is the cost-to-come. A slice is at least one mark, and the hall stands for the scene. It takes what
/// [`grow`](plan_work::grow) and [`settle`](settle_report::settle) take: O(n * w) for n marks of the task, however few are handled.
///
/// # Errors
///
/// `Memory` if out of memory. The run is gone then.
pub fn grow_slice<R: Threads + Sync, C: Clearing>(
    rt: &R,
    alloc: Global,
    grown: Grown,
    hall: &C,
    workers: u32,
    slice: u32,
) -> Result<Grown, Memory>
    requires hall { C.space hall.now ≡ space_of grown.task.scene }
    requires some { 1 ≤ workers }
    requires few { workers ≤ MOST_WORKERS }
    requires slice { 1 ≤ slice }
    requires left { grown.limit ≢ length grown.task.marks }
    ensures { IfOk result (Handles workers slice grown) }
{
    let limit = next_limit(&grown, slice);
    let mut later = grow(rt, alloc, grown, hall, workers, limit, &NoGate)?;
    settle(alloc, &mut later)?;
    Ok(later)
}

/// How many marks there are.
pub(crate) fn mark_count(run: &Grown) -> u32
    ensures { result ≡ length run.now.task.marks }
{
    run.task().marks.len() as u32
}

/// How many marks are handled after the next slice.
fn next_limit(run: &Grown, slice: u32) -> u32
    requires slice { 1 ≤ slice }
    requires left { run.now.limit ≢ length run.now.task.marks }
    ensures value { result ≡ min (run.now.limit + slice) (length run.now.task.marks) }
    ensures more { run.now.limit < result }
    ensures within { result ≤ length run.now.task.marks }
{
    run.limit().saturating_add(slice).min(mark_count(run))
}

impl Growing for Hall {
    fn grow_slice<R: Threads + Sync>(
        &self,
        rt: &R,
        alloc: Global,
        grown: Grown,
        workers: u32,
        slice: u32,
    ) -> Result<Grown, Memory> {
        grow_slice(rt, alloc, grown, self, workers, slice)
    }
}

impl Growing for Boxes {
    fn grow_slice<R: Threads + Sync>(
        &self,
        rt: &R,
        alloc: Global,
        grown: Grown,
        workers: u32,
        slice: u32,
    ) -> Result<Grown, Memory> {
        grow_slice(rt, alloc, grown, self, workers, slice)
    }
}
