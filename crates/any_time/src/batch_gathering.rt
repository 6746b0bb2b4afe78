//! Batches that are taken to their end under an executor.

ghost use Rattle.std.specs.Prelude.{◌≡◌, ◌≤◌, ◌<◌, ◌++◌, ◌∷◌, [], ℕ, All, IfOk, IsSome, OnOk, Some, get_or, length, set, slice_index_or};
ghost use Rattle.any_time.specs.Batches.{AllEmpty, HasFinished};
ghost use Rattle.any_time.specs.Sessions.{IsFresh, SessionState};
ghost use Rattle.any_time.specs.declared.batches.TheConstants.{MOST_SESSIONS};
ghost use Rattle.plan_model.specs.declared.tasks.Task.{Task};
ghost use Rattle.grown_runs.specs.declared.grown.Grown.{Grown};

use crate::batches::Batch;
use crate::betters::Better;
use crate::growing::Growing;
use crate::lists::{BetterLists, Betters, Growns};
use crate::sessions::{Session, put_back};
use futures::executor::block_on;
use futures::task::{Context, Poll};
use futures::{Future, Stream};
use plan_model::{Memory, Sequence};
use std::alloc::{AllocGlobal, Global};
use std::mem::replace;
use std::random::RandomSource;
use std::sync::Wait;
use std::thread::Threads;
use swept_check::Clearing;

/// A batch, with the paths that each of its sessions has given.
#[derive(Drop)]
struct GatheredBatch<C: Clearing, R> {
    batch: Batch<C, R>,
    lists: Vec<Betters>,
}

/// The future that takes all items of a batch, each into the list of its session, and hands both back: at the end, or after an item
/// `Memory`.
#[derive(Drop)]
struct GatherBatch<C: Clearing, R> {
    alloc: Global,
    /// `None` once both are handed back.
    state: Option<GatheredBatch<C, R>>,
}

impl<C: Clearing, R> GatherBatch<C, R> {
    /// Begins with these lists, one for each session.
    fn new(alloc: Global, batch: Batch<C, R>, lists: Vec<Betters>) -> GatherBatch<C, R>
        ensures { result.state ≡ Some (record { batch = batch; lists = lists }) }
    {
        GatherBatch {
            alloc,
            state: Some(GatheredBatch { batch, lists }),
        }
    }
}

impl<C: Growing + Drop, R: Threads + Sync + Drop> Future for GatherBatch<C, R> {
    ghost use denote.Param.Send.{IsSync};
    ghost use Rattle.std.specs.Prelude.{◌≡◌, IfOk, IfSome, IsSomeAnd, length};
    ghost use Rattle.any_time.specs.Batches.{GathersBatch};

    type Output = Result<GatheredBatch<C, R>, Memory>;

    ghost can_poll = { λ g. IsSync R.row × IsSomeAnd g.state (λ s. length s.lists.items ≡ length s.batch.sessions) };

    ghost gives = { λ g out. IfSome g.state (λ before.
        IfOk out (λ after. GathersBatch before.batch before.lists.items after.batch after.lists.items)) };

    fn poll(&mut self, cx: &mut Context<'_>) -> Poll<Result<GatheredBatch<C, R>, Memory>> {
        let Some(mut gathered) = self.state.take() else {
            unreachable!()
        };
        match gathered.batch.poll_next(cx) {
            Poll::Pending => {
                put_back(&mut self.state, gathered);
                Poll::Pending
            }
            Poll::Ready(Some(Ok((number, better)))) => {
                if push_better(self.alloc, &mut gathered.lists, number as usize, better).is_err() {
                    return Poll::Ready(Err(Memory));
                }
                put_back(&mut self.state, gathered);
                cx.yield_now()
            }
            Poll::Ready(Some(Err(_))) => Poll::Ready(Ok(gathered)),
            Poll::Ready(None) => Poll::Ready(Ok(gathered)),
        }
    }
}

/// Adds a path to the list of this number.
fn push_better(
    alloc: Global,
    lists: &mut Vec<Betters>,
    number: usize,
    better: Better,
) -> Result<(), Memory>
    requires { number < length lists.old.items }
    ensures { OnOk result (lists.new.items ≡ set lists.old.items number (get_or lists.old.items number [] ++ better ∷ [])) }
{
    let none = Sequence::from_vec(Vec::new(alloc));
    let mut items = replace(&mut lists[number], none).into_vec();
    items.push(better)?;
    lists[number] = Sequence::from_vec(items);
    Ok(())
}

/// The runs that the sessions of a batch have brought to their ends, and all that they gave on the way.
#[derive(Drop)]
pub struct FinishedBatch {
    /// The runs, settled, over all marks of their tasks, in the order of the sessions.
    pub runs: Growns,
    /// The better paths, in a list for each session, in the order in which they came.
    pub better: BetterLists,
}

/// Polls sessions in turn, as a [`Batch`], until all are at their ends. There are at most `MOST_SESSIONS`, and none has given an item
/// `Memory`. What is said of each is said if it had handled nothing. It takes what the polls of the sessions take.
///
/// It waits under `block_on`: what it promises holds if it returns.
///
/// # Errors
///
/// `Memory` if out of memory, or if the runtime gives no executor.
pub fn finish_batch<
    C: Growing + Drop,
    R: Threads + Sync + Wait + RandomSource + AllocGlobal + Drop,
>(rt: &R, alloc: Global, sessions: Vec<Session<C, R>>) -> Result<FinishedBatch, Memory>
    requires few { length sessions.items ≤ MOST_SESSIONS }
    requires runs { All (λ s. IsSome s.run) sessions.items }
    ensures runs { IfOk result (λ done. length done.runs ≡ length sessions.items) }
    ensures lists { IfOk result (λ done. length done.better ≡ length sessions.items) }
    ensures each { IfOk result (λ done. (task : Task) (workers slice i : ℕ) (s : SessionState) (run : Grown) → i < length sessions.items
        → IsFresh task workers slice (slice_index_or sessions.items i s)
        → HasFinished task workers slice (slice_index_or done.better i []) (slice_index_or done.runs i run)) }
{
    let lists = empty_lists(alloc, sessions.len())?;
    let batch = Batch::new(alloc, sessions)?;
    let Ok(answer) = block_on(rt, GatherBatch::new(alloc, batch, lists)) else {
        return Err(Memory);
    };
    let GatheredBatch { batch, lists } = answer?;
    let Some(runs) = batch.finish() else {
        return Err(Memory);
    };
    Ok(FinishedBatch {
        runs,
        better: Sequence::from_vec(lists),
    })
}

/// So many empty lists.
fn empty_lists(alloc: Global, count: usize) -> Result<Vec<Betters>, Memory>
    ensures count { IfOk result (λ lists. length lists.items ≡ count) }
    ensures empty { IfOk result (λ lists. AllEmpty lists.items) }
{
    let mut lists = Vec::new(alloc);
    for _number in 0..count {
        lists.push(Sequence::from_vec(Vec::new(alloc)))?;
    }
    Ok(lists)
}
