//! The planner by one worker, in the thread of the caller.

ghost use Rattle.std.specs.Prelude.{◌≡◌, ◌≤◌, ◌<◌, ℕ, [], ◌∷◌, All, IfOk, Some, length};
ghost use Rattle.plan_model.specs.Spaces.ConfigurationSpace.{space_of};
ghost use Rattle.plan_model.specs.Trees.TreeStates.{GrowsInto};
ghost use Rattle.plan_model.specs.declared.records.Record.{Record};
ghost use Rattle.plan_work.specs.OneWorker.{IsOfTextbook};
ghost use Rattle.grown_runs.specs.Runs.GrownRuns.{state_of_grown};

use crate::gates::NoGate;
use crate::working::work;
use plan_model::Memory;
use plan_words::{Pass, Shared};
use std::alloc::Global;
use step_core::Grown;
use swept_check::Clearing;

/// RRT* by one worker over the marks (the samples) of a task below a limit, which go on from a run, as [`grow`](crate::grow) does by
/// one worker. It makes no thread, and needs no runtime that could.
///
/// The limit is at least the run's own, with which no mark is handled, and at most the number of marks. The hall stands for the
/// scene. O(n) for n words of the run, and what the marks take ([`extend`](crate::extend)).
///
/// # Errors
///
/// `Memory` if out of memory; all memory is taken before the first mark. The run is gone then.
pub fn grow_alone<C: Clearing>(
    alloc: Global,
    grown: Grown,
    hall: &C,
    limit: u32,
) -> Result<Grown, Memory>
    requires hall { C.space hall.now ≡ space_of grown.task.scene }
    requires low { grown.limit ≤ limit }
    requires within { limit ≤ length grown.task.marks }
    ensures task { IfOk result (λ after. after.task ≡ grown.task) }
    ensures limit { IfOk result (λ after. after.limit ≡ limit) }
    ensures grows { IfOk result (λ after. GrowsInto (state_of_grown grown) (state_of_grown after)) }
    ensures worker { IfOk result (λ after. (k : ℕ) (entry : Record)
        → (state_of_grown after).record_of k ≡ Some entry → grown.limit ≤ k → entry.worker < 1) }
    // a run of the textbook goes on as the textbook does
    ensures textbook { IsOfTextbook grown → IfOk result (λ after. IsOfTextbook after) }
{
    let (shared, passes) = Shared::start(alloc, grown, 1)?;
    let mut pass = only_pass(passes);
    work(&shared, &mut pass, hall, limit, &NoGate);
    Ok(shared.end(pass))
}

/// The pass that is alone in a list.
fn only_pass(passes: Vec<Pass>) -> Pass
    requires { length passes.items ≡ 1 }
    ensures { passes.items ≡ result ∷ [] }
{
    let mut passes = passes;
    let Some(pass) = passes.pop() else {
        unreachable!()
    };
    pass
}
