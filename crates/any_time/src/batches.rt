//! Batches: sessions that are polled in turn.

ghost use Rattle.std.specs.Prelude.{◌≡◌, ◌≤◌, ◌<◌, ◌+◌, All, IfSome, IsSome, Some, [], length, map, vec_capacity};
ghost use Rattle.any_time.specs.Batches.{place_of, turn_after};
ghost use Rattle.any_time.specs.declared.batches.TheConstants.{MOST_SESSIONS};

use crate::betters::Better;
use crate::growing::Growing;
use crate::lists::Growns;
use crate::sessions::Session;
use futures::Stream;
use futures::task::{Context, Poll};
use plan_model::Memory;
use std::alloc::Global;
use std::marker::Model;
use std::thread::Threads;
use step_core::Grown;
use swept_check::Clearing;

/// The most sessions of a batch.
pub const MOST_SESSIONS: usize = 64;

/// Sessions that are polled in turn: a stream of each better path, with the number of the session that gives it.
#[derive(Drop)]
pub struct Batch<C: Clearing, R> {
    sessions: Vec<Session<C, R>>,
    /// The number of the session that gave the last item.
    last: Option<u32>,
    /// Whether an item `Memory` was given.
    failed: bool,
    /// Room for the finished runs.
    runs: Vec<Grown>,
}

impl<C: Clearing, R> Model for Batch<C, R> {
    ghost use Rattle.std.specs.Prelude.{◌≡◌, ◌≤◌, ◌<◌, All, IfSome, IsSome, false, [], length, vec_capacity};
    ghost use Rattle.any_time.specs.Batches.{BatchState};
    ghost use Rattle.any_time.specs.declared.batches.TheConstants.{MOST_SESSIONS};
    ghost use Rattle.std.specs.Coded.{codes};
    ghost use Rattle.grown_runs.specs.contracts.grown.Grown as grown;

    ghost Value = { BatchState };

    ghost coded = { Prim.hlevel (codes, grown.the_row.coded) };

    ghost view = { λ b. record { sessions = b.sessions.items; last = b.last; failed = b.failed } };

    ghost invariant = { λ b. (length b.sessions.items ≤ MOST_SESSIONS) × (b.runs.items ≡ []) × (length b.sessions.items ≤ vec_capacity b.runs)
        × IfSome b.last (λ number. number < length b.sessions.items)
        × (b.failed ≡ false → All (λ s. IsSome s.run) b.sessions.items) };
}

impl<C: Clearing, R: Threads + Sync> Batch<C, R> {
    ghost use Rattle.std.specs.Prelude.{◌≡◌, ◌≤◌, All, IsSome, IfOk, None, false, length};
    ghost use Rattle.any_time.specs.declared.batches.TheConstants.{MOST_SESSIONS};

    /// Sessions that are polled in turn, at most `MOST_SESSIONS`, none of which has given an item `Memory`. It takes the room for
    /// their runs. O(n) for n sessions.
    ///
    /// # Errors
    ///
    /// `Memory` if out of memory. The sessions are gone then.
    pub fn new(alloc: Global, sessions: Vec<Session<C, R>>) -> Result<Batch<C, R>, Memory>
    where
        C: Drop,
        R: Drop,
        requires few { length sessions.items ≤ MOST_SESSIONS }
        requires runs { All (λ s. IsSome s.run) sessions.items }
        ensures { IfOk result (λ b. b ≡ record { sessions = sessions.items; last = None; failed = false }) }
    {
        let runs = Vec::with_capacity(alloc, sessions.len())?;
        Ok(Batch {
            sessions,
            last: None,
            failed: false,
            runs,
        })
    }
}

impl<C: Clearing + Drop, R: Drop> Batch<C, R> {
    ghost use Rattle.std.specs.Prelude.{◌≡◌, MatchOption, Some, true, false, map};
    ghost use Rattle.any_time.specs.Batches.{IsBatchOver};

    /// The runs of the sessions, in their order, when the stream is at its end: settled, with all marks handled. `None` exactly after
    /// an item `Memory`. It takes no memory. O(n) for n sessions.
    pub fn finish(self) -> Option<Growns>
        requires { IsBatchOver self }
        ensures { MatchOption result (self.failed ≡ true)
            (λ runs. (self.failed ≡ false) × (map (λ s. s.run) self.sessions ≡ map Some runs)) }
    {
        if self.failed {
            return None;
        }
        let Batch {
            sessions,
            last: _,
            failed: _,
            runs,
        } = self;
        Some(Growns::from_vec(runs_of(sessions, runs)))
    }
}

impl<C: Growing + Drop, R: Threads + Sync + Drop> Stream for Batch<C, R> {
    ghost use denote.Param.Send.{IsSync};
    ghost use Rattle.std.specs.Prelude.{◌≡◌, true};
    ghost use Rattle.any_time.specs.Batches.{BatchPolls};
    ghost use Rattle.futures.specs.Poll.{OnPending};
    ghost use Rattle.futures.specs.Task.{Covers, Keeps};

    type Item = Result<(u32, Better), Memory>;

    // A trait's method does not know its block's bound `R: Sync`.
    ghost can_poll = { λ _. IsSync R.row };

    /// A better path of one of the sessions, with its number. They are polled in turn, each at most once, from the one after that
    /// which gave the last item: in rising number, and after the greatest from 0. The first item ends the poll. If none gave one, the
    /// batch is at its end if all sessions are at theirs, and else it is to be polled again at once: each session that is not at its
    /// end has handled its next slice of marks. After an item `Memory` the stream is at its end. A poll takes what its polls of
    /// sessions take.
    fn poll_next(&mut self, cx: &mut Context<'_>) -> Poll<Option<Result<(u32, Better), Memory>>>
        requires { IsSync R.row }
        ensures polls { BatchPolls self.old result self.new }
        ensures woken { OnPending result (cx.new.is_woken ≡ true) }
        ensures registered { OnPending result (Covers cx.new (λ _. ⊥)) }
        ensures kept { Keeps cx.old cx.new }
    {
        if self.failed {
            return Poll::Ready(None);
        }
        let count = self.sessions.len();
        let from = turn_after(count, self.last);
        let mut is_pending = false;
        for place in 0..count {
            let number = number_at(count, from, place);
            match self.sessions[number].poll_next(cx) {
                Poll::Pending => is_pending = true,
                Poll::Ready(None) => {}
                Poll::Ready(Some(Ok(better))) => {
                    self.last = Some(number as u32);
                    return Poll::Ready(Some(Ok((number as u32, better))));
                }
                Poll::Ready(Some(Err(memory))) => {
                    self.failed = true;
                    return Poll::Ready(Some(Err(memory)));
                }
            }
        }
        if is_pending {
            cx.yield_now()
        } else {
            Poll::Ready(None)
        }
    }
}

/// The runs of the sessions, in their order. There is room for them.
fn runs_of<C: Clearing + Drop, R: Drop>(
    sessions: Vec<Session<C, R>>,
    runs: Vec<Grown>,
) -> Vec<Grown>
    requires room { length sessions.items ≤ vec_capacity runs }
    requires empty { runs.items ≡ [] }
    requires runs { All (λ s. IsSome s.run) sessions.items }
    ensures { map (λ s. s.run) sessions.items ≡ map Some result.items }
{
    let mut runs = runs;
    for session in sessions {
        let Some(run) = session.finish() else {
            unreachable!()
        };
        runs.push_reserved(run);
    }
    runs
}

/// The number that a poll of so many sessions begins with.
fn turn_after(count: usize, last: Option<u32>) -> usize
    requires { IfSome last (λ number. number < count) }
    ensures turn { result ≡ turn_after count last }
    ensures within { result ≤ count }
{
    match last {
        Some(last) if (last as usize) + 1 < count => last as usize + 1,
        _ => 0,
    }
}

/// The number at a place of the order that begins with `from`.
fn number_at(count: usize, from: usize, place: usize) -> usize
    requires from { from ≤ count }
    requires place { place < count }
    requires few { count ≤ MOST_SESSIONS }
    ensures within { result < count }
    ensures place { place_of count from result ≡ place }
{
    if from + place < count {
        from + place
    } else {
        from + place - count
    }
}
