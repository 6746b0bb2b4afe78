//! The planner by several workers.

ghost use Rattle.std.specs.Prelude.{◌≡◌, ◌+◌, ◌<◌, ◌≤◌, ℕ, [], ◌∷◌, All, IfOk, List, Some, length, slice_index_or};
ghost use Rattle.plan_model.specs.Spaces.ConfigurationSpace.{space_of};
ghost use Rattle.plan_model.specs.Trees.TreeStates.{GrowsInto};
ghost use Rattle.plan_model.specs.declared.limits.TheConstants.{MOST_WORKERS};
ghost use Rattle.plan_model.specs.declared.records.Record.{Record};
ghost use Rattle.plan_words.specs.States.{MayClaim, PassState};
ghost use Rattle.plan_work.specs.OneWorker.{IsOfTextbook};
ghost use Rattle.plan_work.specs.Workers.{HasLeft, HasStopped, HasTakenOver, IsReady, workers_with, left_of};
ghost use Rattle.grown_runs.specs.Runs.GrownRuns.{state_of_grown};

use crate::gates::Gate;
use crate::working::work;
use plan_model::Memory;
use plan_words::{Pass, Retired, Shared};
use std::alloc::{AllocError, Global};
use std::mem::replace;
use std::thread;
use std::thread::Threads;
use step_core::Grown;
use swept_check::Clearing;

/// RRT* by 1 to `MOST_WORKERS` workers over the marks (the samples) of a task below a limit, which go on from a run. Each mark
/// below the limit then has one record. Each worker has a thread of its own; if no thread can be made, they work one after
/// another.
///
/// The limit is at least the run's own, with which no mark is handled, and at most the number of marks. The hall stands for the
/// scene. O(n * w) for n words of the run and w workers, and what the marks take ([`extend`](crate::extend)).
///
/// # Errors
///
/// `Memory` if out of memory; all memory is taken before the first mark. The run is gone then.
pub fn grow<R: Threads + Sync, C: Clearing, G: Gate>(
    rt: &R,
    alloc: Global,
    grown: Grown,
    hall: &C,
    workers: u32,
    limit: u32,
    gate: &G,
) -> Result<Grown, Memory>
    requires hall { C.space hall.now ≡ space_of grown.task.scene }
    requires some { 1 ≤ workers }
    requires few { workers ≤ MOST_WORKERS }
    requires low { grown.limit ≤ limit }
    requires within { limit ≤ length grown.task.marks }
    ensures task { IfOk result (λ after. after.task ≡ grown.task) }
    ensures limit { IfOk result (λ after. after.limit ≡ limit) }
    ensures grows { IfOk result (λ after. GrowsInto (state_of_grown grown) (state_of_grown after)) }
    ensures workers { IfOk result (λ after. (k : ℕ) (entry : Record)
        → (state_of_grown after).record_of k ≡ Some entry → grown.limit ≤ k → entry.worker < workers) }
    // one worker goes on with a run of the textbook as the textbook does
    ensures textbook { workers ≡ 1 → IsOfTextbook grown → IfOk result (λ after. IsOfTextbook after) }
{
    let (shared, passes) = Shared::start(alloc, grown, workers)?;
    let mut all = workers_of(alloc, passes)?;
    work_all(rt, &shared, hall, limit, gate, all.as_mut_slice());
    let last = take_over_all(&shared, all);
    Ok(shared.end_retired(last))
}

/// A worker: its pass until that has worked, and what is left of it then.
#[derive(Drop)]
enum Worker {
    Working(Pass),
    Stopped(Retired),
    /// Neither, while the pass works.
    Away,
}

/// Workers that have these passes, in their order. O(w) for w of them.
fn workers_of(alloc: Global, passes: Vec<Pass>) -> Result<Vec<Worker>, AllocError>
    ensures { IfOk result (λ all. all.items ≡ workers_with passes.items) }
{
    let mut all = Vec::with_capacity(alloc, passes.len())?;
    for pass in passes {
        all.push(Worker::Working(pass))?;
    }
    Ok(all)
}

/// Each pass works in a thread of its own, until all have stopped. Where no thread can be made they work one after another.
fn work_all<R: Threads + Sync, C: Clearing, G: Gate>(
    rt: &R,
    shared: &Shared,
    hall: &C,
    limit: u32,
    gate: &G,
    all: &mut [Worker],
)
    requires hall { C.space hall.now ≡ space_of shared.now.task.scene }
    requires low { shared.now.opening ≤ limit }
    requires limit { limit ≤ length shared.now.task.marks }
    requires some { 1 ≤ length all.old }
    requires ready { All (IsReady shared.now) all.old }
    ensures count { length all.new ≡ length all.old }
    ensures each { (k : ℕ) (d : Worker) → k < length all.old
        → HasStopped shared.now limit (slice_index_or all.old k d) (slice_index_or all.new k d) }
{
    let threads = all.len();
    thread::for_each_mut(
        rt,
        all,
        threads,
        &|_number: usize, worker: &mut Worker|
            requires { IsReady shared.now worker.now × (C.space hall.now ≡ space_of shared.now.task.scene)
                × (shared.now.opening ≤ limit) × (limit ≤ length shared.now.task.marks) }
            ensures { HasStopped shared.entry.now limit worker.entry.now worker.exit.now }
        { work_and_retire(shared, worker, hall, limit, gate) },
    );
}

/// The pass of a worker works, and gives back its lists in the thread in which it has worked.
fn work_and_retire<C: Clearing, G: Gate>(
    shared: &Shared,
    worker: &mut Worker,
    hall: &C,
    limit: u32,
    gate: &G,
)
    requires ready { IsReady shared.now worker.old }
    requires hall { C.space hall.now ≡ space_of shared.now.task.scene }
    requires low { shared.now.opening ≤ limit }
    requires limit { limit ≤ length shared.now.task.marks }
    ensures { HasStopped shared.now limit worker.old worker.new }
{
    let Worker::Working(mut pass) = replace(worker, Worker::Away) else {
        unreachable!()
    };
    work(shared, &mut pass, hall, limit, gate);
    *worker = Worker::Stopped(pass.retire());
}

/// What is left of the last worker's pass takes over what is left of all others, with all that they have seen.
fn take_over_all(shared: &Shared, all: Vec<Worker>) -> Retired
    requires some { 1 ≤ length all.items }
    requires stopped { All HasLeft all.items }
    requires may_claim { All (MayClaim shared.now) (left_of all.items) }
    ensures taken { HasTakenOver shared.now (left_of all.items) result }
    ensures one { (left : PassState) → left_of all.items ≡ left ∷ [] → result ≡ left }
{
    let mut others = all;
    let Some(Worker::Stopped(last)) = others.pop() else {
        unreachable!()
    };
    let mut taken = last;
    'others: while let Some(other) = others.pop() {
        let Worker::Stopped(retired) = other else {
            unreachable!()
        };
        shared.join_retired(&mut taken, retired);
    }
    taken
}
