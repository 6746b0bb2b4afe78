//! One step of a session that is watched: to its next item, whose block is handed to a sink.

ghost use Rattle.std.specs.Prelude.{◌≡◌, IfOk, OnErr, Ok, Some};
ghost use Rattle.path_watch.specs.Watching.{Steps, TakesBlock, given_in};

use crate::blocks::block;
use crate::progress::Progress;
use any_time::{Better, Growing, Session};
use futures::executor::block_on;
use futures::task::{Context, Poll};
use futures::{Future, Stream};
use plan_model::{Memory, Sink};
use settle_report::deliver;
use std::alloc::{AllocGlobal, Global};
use std::random::RandomSource;
use std::sync::Wait;
use std::thread::Threads;
use swept_check::Clearing;

/// A session, and what it gave: an item, or `None` at its end.
#[derive(Drop)]
struct Given<C: Clearing, R> {
    session: Session<C, R>,
    item: Option<Result<Better, Memory>>,
}

/// The future that polls a session until it gives something, and hands it back with that.
#[derive(Drop)]
struct NextItem<'a, C: Clearing, R, P> {
    /// `None` once it is handed back.
    session: Option<Session<C, R>>,
    progress: &'a P,
}

impl<'a, C: Clearing, R, P: Progress> NextItem<'a, C, R, P> {
    /// Begins with this session.
    fn new(session: Session<C, R>, progress: &'a P) -> NextItem<'a, C, R, P>
        ensures { result.session ≡ Some session }
    {
        NextItem {
            session: Some(session),
            progress,
        }
    }
}

impl<'a, C: Growing + Drop, R: Threads + Sync + Drop, P: Progress> Future
    for NextItem<'a, C, R, P> {
    ghost use denote.Param.Send.{IsSync};
    ghost use Rattle.std.specs.Prelude.{◌≡◌, IfSome, IsSome};
    ghost use Rattle.path_watch.specs.Watching.{Comes};

    type Output = Given<C, R>;

    ghost can_poll = { λ f. IsSync R.row × IsSome f.session };

    ghost gives = { λ f given. IfSome f.session (λ before. Comes before given.item given.session) };

    fn poll(&mut self, cx: &mut Context<'_>) -> Poll<Given<C, R>> {
        let Some(mut session) = self.session.take() else {
            unreachable!()
        };
        match session.poll_next(cx) {
            Poll::Pending => {
                self.progress.grows();
                self.session = Some(session);
                Poll::Pending
            }
            Poll::Ready(item) => Poll::Ready(Given { session, item }),
        }
    }
}

/// What came of a step.
#[derive(Debug, Drop)]
pub enum Step {
    /// The session gave this item, and the sink took its block.
    Given(Better),
    /// The session gave this item, and the sink failed and took a proper prefix of its block.
    Cut(Better),
    /// The session is at its end, and nothing was written.
    Over,
}

/// A session after a step.
#[derive(Drop)]
pub struct Handed<C: Clearing, R> {
    /// The session, at the run of the item that it gave, or at its end.
    pub session: Session<C, R>,
    /// What came of the step.
    pub step: Step,
}

/// Polls a session until it gives its next item, and hands the item's [`block`] to the sink, in one write if the sink takes it in one.
/// At the end of the session nothing is written. It takes what the polls take, and O(n) for n points of the path.
///
/// It waits under `block_on`: what it promises holds if it returns.
///
/// # Errors
///
/// `Memory` if out of memory, or if the runtime gives no executor. The session is gone then, and nothing is written.
pub fn hand_next<
    C: Growing + Drop,
    R: Threads + Sync + Wait + RandomSource + AllocGlobal + Drop,
    K: Sink,
    P: Progress,
>(
    rt: &R,
    alloc: Global,
    session: Session<C, R>,
    sink: &mut K,
    progress: &P,
) -> Result<Handed<C, R>, Memory>
    ensures step { IfOk result (λ handed. Steps (session, K.state sink.old) handed.step (handed.session, K.state sink.new)) }
    ensures unwritten { OnErr result (sink.new ≡ sink.old) }
{
    let Ok(given) = block_on(rt, NextItem::new(session, progress)) else {
        return Err(Memory);
    };
    let Given { session, item } = given;
    match item {
        Some(Ok(item)) => {
            progress.finds(item.marks, item.cost);
            let step = hand_block(alloc, item, sink)?;
            Ok(Handed { session, step })
        }
        Some(Err(memory)) => Err(memory),
        None => Ok(Handed {
            session,
            step: Step::Over,
        }),
    }
}

/// Hands the block of an item to the sink.
fn hand_block<K: Sink>(alloc: Global, item: Better, sink: &mut K) -> Result<Step, Memory>
    ensures given { IfOk result (λ step. given_in step ≡ Some (Ok item)) }
    ensures taken { IfOk result (λ step. TakesBlock (K.state sink.old) step (K.state sink.new)) }
    ensures unwritten { OnErr result (sink.new ≡ sink.old) }
{
    let text = block(alloc, &item)?;
    match deliver(sink, &text) {
        Ok(()) => Ok(Step::Given(item)),
        Err(_) => Ok(Step::Cut(item)),
    }
}
