//! Sessions: runs that grow by a slice of marks a poll.

ghost use Rattle.std.specs.Prelude.{◌≡◌, ◌≤◌, None, IfOk, IfErr, IfSome, IfNone, Some, true};
ghost use Rattle.any_time.specs.Sessions.{Shows, best_of, best_sum, HasShown, IsBetter, Looks};
ghost use Rattle.futures.specs.Poll.{OnPending};
ghost use Rattle.futures.specs.Task.{Covers, Keeps};
ghost use Rattle.plan_work.specs.OneWorker.{IsOfTextbook};
ghost use Rattle.plan_model.specs.Spaces.Clearance.{ClearAt};
ghost use Rattle.plan_model.specs.Spaces.ConfigurationSpace.{space_of};
ghost use Rattle.plan_model.specs.Trees.TreeStates.{IsSettled};
ghost use Rattle.plan_model.specs.declared.limits.TheConstants.{MOST_WORKERS};
ghost use Rattle.grown_runs.specs.Runs.GrownRuns.{state_of_grown};

use crate::betters::{Better, Last};
use crate::growing::{Growing, mark_count};
use futures::Stream;
use futures::task::{Context, Poll};
use plan_model::{Memory, Points, Task};
use settle_report::{best, path_to};
use std::alloc::Global;
use std::marker::Model;
use std::thread::Threads;
use step_core::Grown;
use swept_check::Clearing;

/// A run that grows by a slice of marks (samples) a poll, and gives each better path: a stream of [`Better`].
#[derive(Drop)]
pub struct Session<C: Clearing, R> {
    rt: R,
    alloc: Global,
    hall: C,
    workers: u32,
    slice: u32,
    /// The run, settled; `None` exactly after an item `Memory`.
    run: Option<Grown>,
    last: Option<Last>,
}

impl<C: Clearing, R> Model for Session<C, R> {
    ghost use Rattle.std.specs.Prelude.{◌≡◌, ◌≤◌, IfSome};
    ghost use Rattle.any_time.specs.Sessions.{HasShown, SessionState};
    ghost use Rattle.std.specs.Coded.{codes};
    ghost use Rattle.grown_runs.specs.contracts.grown.Grown as grown;
    ghost use Rattle.plan_model.specs.Spaces.ConfigurationSpace.{space_of};
    ghost use Rattle.plan_model.specs.Trees.TreeStates.{IsSettled};
    ghost use Rattle.plan_model.specs.declared.limits.TheConstants.{MOST_WORKERS};
    ghost use Rattle.grown_runs.specs.Runs.GrownRuns.{state_of_grown};

    ghost Value = { SessionState };

    ghost coded = { Prim.hlevel (codes, grown.the_row.coded) };

    ghost view = { λ s. record { run = s.run; workers = s.workers; slice = s.slice; last = s.last } };

    ghost invariant = { λ s. (1 ≤ s.workers) × (s.workers ≤ MOST_WORKERS) × (1 ≤ s.slice)
        × IfSome s.run (λ run. (C.space s.hall ≡ space_of run.task.scene) × IsSettled (state_of_grown run) × HasShown run s.last) };
}

impl<C: Clearing + Drop, R: Threads + Sync + Drop> Session<C, R> {
    ghost use Rattle.any_time.specs.Sessions.{IsFresh};

    /// A session that has handled no mark and given nothing: `workers` threads handle `slice` marks a poll. The start is clear,
    /// the hall stands for the scene, there are 1 to `MOST_WORKERS` workers, and a slice is at least one mark. O(n) for n marks.
    ///
    /// # Errors
    ///
    /// `Memory` if out of memory for the run. The task is gone then.
    pub fn new(
        rt: R,
        alloc: Global,
        task: Task,
        hall: C,
        workers: u32,
        slice: u32,
    ) -> Result<Session<C, R>, Memory>
        requires start { ClearAt (space_of task.scene) task.scene.start }
        requires hall { C.space hall ≡ space_of task.scene }
        requires some { 1 ≤ workers }
        requires few { workers ≤ MOST_WORKERS }
        requires slice { 1 ≤ slice }
        ensures { IfOk result (IsFresh task workers slice) }
    {
        let run = fresh_run(alloc, task)?;
        Ok(Session {
            rt,
            alloc,
            hall,
            workers,
            slice,
            run: Some(run),
            last: None,
        })
    }
}

impl<C: Clearing + Drop, R: Drop> Session<C, R> {
    /// The run, settled, with all marks handled if the stream is at its end. `None` exactly after an item `Memory`. O(1).
    pub fn finish(self) -> Option<Grown>
        ensures { result ≡ self.run }
    {
        self.run
    }
}

impl<C: Growing + Drop, R: Threads + Sync + Drop> Stream for Session<C, R> {
    ghost use denote.Param.Send.{IsSync};
    ghost use Rattle.std.specs.Prelude.{◌≡◌, true};
    ghost use Rattle.any_time.specs.Sessions.{Polls};
    ghost use Rattle.futures.specs.Poll.{OnPending};
    ghost use Rattle.futures.specs.Task.{Covers, Keeps};

    type Item = Result<Better, Memory>;

    // A trait's method does not know its block's bound `R: Sync`.
    ghost can_poll = { λ _. IsSync R.row };

    /// A better path, if the run has one. Else the next slice of marks is handled, or the end is told if none is left. If no better
    /// path came of the slice, the session is to be polled again at once. After an item `Memory` the stream is at its end. A poll
    /// takes what [`grow_slice`](crate::grow_slice) takes for the slice, and O(n) for n marks handled so far.
    fn poll_next(&mut self, cx: &mut Context<'_>) -> Poll<Option<Result<Better, Memory>>>
        requires { IsSync R.row }
        ensures polls { Polls self.old result self.new }
        ensures woken { OnPending result (cx.new.is_woken ≡ true) }
        ensures registered { OnPending result (Covers cx.new (λ _. ⊥)) }
        ensures kept { Keeps cx.old cx.new }
    {
        let Some(run) = self.run.take() else {
            return Poll::Ready(None);
        };
        if first_node(&run, self.last).is_some() {
            return look(self.alloc, run, &mut self.run, &mut self.last, cx);
        }
        if run.limit() == mark_count(&run) {
            put_back(&mut self.run, run);
            return Poll::Ready(None);
        }
        let Ok(run) = self
            .hall
            .grow_slice(&self.rt, self.alloc, run, self.workers, self.slice)
        else {
            return Poll::Ready(Some(Err(Memory)));
        };
        look(self.alloc, run, &mut self.run, &mut self.last, cx)
    }
}

/// The run of a task that has handled no mark.
fn fresh_run(alloc: Global, task: Task) -> Result<Grown, Memory>
    requires { ClearAt (space_of task.scene) task.scene.start }
    ensures task { IfOk result (λ run. run.task ≡ task) }
    ensures limit { IfOk result (λ run. run.limit ≡ 0) }
    ensures textbook { IfOk result (λ run. IsOfTextbook run) }
    ensures settled { IfOk result (λ run. IsSettled (state_of_grown run)) }
{
    let fresh = Grown::new(alloc, task)?;
    Ok(fresh)
}

/// Puts a value back to its place. It is a function so that what the assignment drops is proved once.
pub(crate) fn put_back<T: Drop>(place: &mut Option<T>, value: T)
    ensures { place.new ≡ Some value }
{
    *place = Some(value);
}

/// What a run gives: its better path, if it has one, which is then the last item, and else that the session is to be polled again. The run
/// goes to its place, but is gone after `Memory`.
fn look(
    alloc: Global,
    run: Grown,
    place: &mut Option<Grown>,
    last: &mut Option<Last>,
    cx: &mut Context<'_>,
) -> Poll<Option<Result<Better, Memory>>>
    requires settled { IsSettled (state_of_grown run) }
    requires place { place.old ≡ None }
    ensures looks { Looks run last.old result place.new last.new }
    ensures shown { IfSome place.new (λ run. ¬ IsBetter (best_sum run) last.new) }
    ensures woken { OnPending result (cx.new.is_woken ≡ true) }
    ensures registered { OnPending result (Covers cx.new (λ _. ⊥)) }
    ensures kept { Keeps cx.old cx.new }
{
    match better_path(alloc, &run, *last) {
        Ok(Some(item)) => {
            *last = Some(item.last());
            put_back(place, run);
            Poll::Ready(Some(Ok(item)))
        }
        Ok(None) => {
            put_back(place, run);
            cx.yield_now()
        }
        Err(memory) => Poll::Ready(Some(Err(memory))),
    }
}

/// The best node of a run, if a poll gives its path before it handles marks. A run that has handled some was looked at then.
fn first_node(run: &Grown, last: Option<Last>) -> Option<u32>
    requires settled { IsSettled (state_of_grown run.now) }
    requires shown { HasShown run.now last }
    ensures some { IfSome result (λ node. IsBetter (best_sum run.now) last) }
    ensures none { IfNone result (¬ IsBetter (best_sum run.now) last) }
{
    if run.limit() > 0 {
        return None;
    }
    better_node(run, last)
}

/// The path to the best node of a run, if its sum is below that of the last item, or if there is none yet.
fn better_path(alloc: Global, run: &Grown, last: Option<Last>) -> Result<Option<Better>, Memory>
    requires { IsSettled (state_of_grown run.now) }
    ensures some { IfOk result (λ found. IfSome found (λ item. IsBetter (best_sum run.now) last × Shows run.now item)) }
    ensures none { IfOk result (λ found. IfNone found (¬ IsBetter (best_sum run.now) last)) }
    ensures memory { IfErr result (λ e. IsBetter (best_sum run.now) last) }
{
    match better_node(run, last) {
        Some(node) => Ok(Some(shown(alloc, run, node)?)),
        None => Ok(None),
    }
}

/// The best node of a run, if its sum is below that of the last item, or if there is none yet.
fn better_node(run: &Grown, last: Option<Last>) -> Option<u32>
    requires { IsSettled (state_of_grown run.now) }
    ensures some { IfSome result (λ node. (best_of run.now ≡ Some node) × IsBetter (best_sum run.now) last) }
    ensures none { IfNone result (¬ IsBetter (best_sum run.now) last) }
{
    let node = best(run)?;
    match last {
        Some(last) if last.cost <= run.cost(node) => None,
        _ => Some(node),
    }
}

/// The path to the best node of a run.
fn shown(alloc: Global, run: &Grown, node: u32) -> Result<Better, Memory>
    requires settled { IsSettled (state_of_grown run.now) }
    requires best { best_of run.now ≡ Some node }
    ensures { IfOk result (Shows run.now) }
{
    let path = path_to(alloc, run, node)?;
    Ok(Better {
        path: Points::from_vec(path),
        cost: run.cost(node),
        marks: run.limit(),
    })
}
