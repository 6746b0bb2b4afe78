//! Sessions that are taken to their end under an executor.

ghost use Rattle.std.specs.Prelude.{◌≡◌, ◌≤◌, ◌++◌, ◌∷◌, [], IfOk, OnOk, Some};
ghost use Rattle.any_time.specs.BetterPaths.{AreBetterPaths};
ghost use Rattle.any_time.specs.Items.{EndsWith};
ghost use Rattle.plan_model.specs.Spaces.Clearance.{ClearAt};
ghost use Rattle.plan_model.specs.Spaces.ConfigurationSpace.{space_of};
ghost use Rattle.plan_model.specs.declared.limits.TheConstants.{MOST_WORKERS};

use crate::betters::Better;
use crate::growing::Growing;
use crate::lists::Betters;
use crate::sessions::{Session, put_back};
use futures::executor::block_on;
use futures::task::{Context, Poll};
use futures::{Future, Stream};
use plan_model::{Memory, Sequence, Task};
use std::alloc::{AllocGlobal, Global};
use std::random::RandomSource;
use std::sync::Wait;
use std::thread::Threads;
use step_core::Grown;
use swept_check::Clearing;

/// A session, with the items that it has given.
#[derive(Drop)]
struct Gathered<C: Clearing, R> {
    session: Session<C, R>,
    items: Vec<Better>,
}

/// The future that takes all items of a session, and hands both back: at the end, or after an item `Memory`.
#[derive(Drop)]
struct Gather<C: Clearing, R> {
    /// `None` once both are handed back.
    state: Option<Gathered<C, R>>,
}

impl<C: Clearing, R> Gather<C, R> {
    /// Begins with these items.
    fn new(session: Session<C, R>, items: Vec<Better>) -> Gather<C, R>
        ensures { result.state ≡ Some (record { session = session; items = items }) }
    {
        Gather {
            state: Some(Gathered { session, items }),
        }
    }
}

impl<C: Growing + Drop, R: Threads + Sync + Drop> Future for Gather<C, R> {
    ghost use denote.Param.Send.{IsSync};
    ghost use Rattle.std.specs.Prelude.{◌≡◌, IfOk, IfSome, IsSome};
    ghost use Rattle.any_time.specs.Batches.{Gathers};

    type Output = Result<Gathered<C, R>, Memory>;

    ghost can_poll = { λ g. IsSync R.row × IsSome g.state };

    ghost gives = { λ g out. IfSome g.state (λ before.
        IfOk out (λ after. Gathers before.session before.items.items after.session after.items.items)) };

    fn poll(&mut self, cx: &mut Context<'_>) -> Poll<Result<Gathered<C, R>, Memory>> {
        let Some(mut gathered) = self.state.take() else {
            unreachable!()
        };
        match gathered.session.poll_next(cx) {
            Poll::Pending => {
                put_back(&mut self.state, gathered);
                Poll::Pending
            }
            Poll::Ready(Some(Ok(item))) => {
                if push_item(&mut gathered.items, item).is_err() {
                    return Poll::Ready(Err(Memory));
                }
                put_back(&mut self.state, gathered);
                cx.yield_now()
            }
            Poll::Ready(Some(Err(_))) => Poll::Ready(Ok(gathered)),
            Poll::Ready(None) => Poll::Ready(Ok(gathered)),
        }
    }
}

/// Adds an item to a list. It is a function so that what an error drops is proved once.
fn push_item(items: &mut Vec<Better>, item: Better) -> Result<(), Memory>
    ensures { OnOk result (items.new.items ≡ items.old.items ++ item ∷ []) }
{
    items.push(item)?;
    Ok(())
}

/// A run that a session has brought to its end, and all that it gave on the way.
#[derive(Drop)]
pub struct FinishedSession {
    /// The run, settled, over all marks of its task.
    pub run: Grown,
    /// The better paths, in the order in which they came.
    pub better: Betters,
}

/// Polls a session of a task until its end: `workers` threads handle `slice` marks (samples) a poll. The start is clear, the hall
/// stands for the scene, there are 1 to `MOST_WORKERS` workers, and a slice is at least one mark. It takes what
/// [`grow_slice`](crate::grow_slice) takes for each slice.
///
/// It waits under `block_on`: what it promises holds if it returns.
///
/// # Errors
///
/// `Memory` if out of memory, or if the runtime cannot be cloned or gives no executor.
pub fn finish_session<
    C: Growing + Drop,
    R: Threads + Sync + Wait + RandomSource + AllocGlobal + Clone + Drop,
>(
    rt: &R,
    alloc: Global,
    task: Task,
    hall: C,
    workers: u32,
    slice: u32,
) -> Result<FinishedSession, Memory>
    requires start { ClearAt (space_of task.scene) task.scene.start }
    requires hall { C.space hall ≡ space_of task.scene }
    requires some { 1 ≤ workers }
    requires few { workers ≤ MOST_WORKERS }
    requires slice { 1 ≤ slice }
    ensures ended { IfOk result (λ done. EndsWith task workers done.run) }
    ensures better { IfOk result (λ done. AreBetterPaths workers slice done.run done.better) }
{
    let session = Session::new(rt.clone()?, alloc, task, hall, workers, slice)?;
    let none = Vec::new(alloc);
    let Ok(answer) = block_on(rt, Gather::new(session, none)) else {
        return Err(Memory);
    };
    let Gathered { session, items } = answer?;
    let Some(run) = session.finish() else {
        return Err(Memory);
    };
    Ok(FinishedSession {
        run,
        better: Sequence::from_vec(items),
    })
}
