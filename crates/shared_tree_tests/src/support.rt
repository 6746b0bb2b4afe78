//! What all tests share: a shared tree with its passes, and values that they cannot go on without. Tests let a tree and its passes go
//! by `drop`, so that what these let go is no part of their own proofs.

ghost use Rattle.std.specs.Prelude.{◌≡◌, All, IfSome, Ok, Some};
ghost use Rattle.plan_model.specs.Spaces.Clearance.{ClearAt};
ghost use Rattle.plan_model.specs.Spaces.ConfigurationSpace.{space_of};
ghost use Rattle.plan_words.specs.States.{MayClaim};

use plan_model::{Memory, Task};
use plan_words::{Pass, Shared};
use std::alloc::Global;
use std::process::Abort;
use step_core::Grown;

/// What was made, for which memory lasts. A test ends here if none is left, so that no value is dropped on the way.
pub(crate) fn sure<R: Abort, T>(rt: &R, made: Result<T, Memory>) -> T
    ensures { made ≡ Ok result }
{
    match made {
        Ok(value) => value,
        Err(error) => panic!(rt; "{error}"),
    }
}

/// What was found, for which there is something.
pub(crate) fn some<R: Abort, T>(rt: &R, found: Option<T>) -> T
    ensures { found ≡ Some result }
{
    match found {
        Some(value) => value,
        None => panic!(rt; "there is none"),
    }
}

/// The last pass of the list.
pub(crate) fn last_pass(shared: &Shared, passes: &mut Vec<Pass>) -> Option<Pass>
    requires { All (MayClaim shared.now) passes.old.items }
    ensures rest { All (MayClaim shared.now) passes.new.items }
    ensures last { IfSome result (MayClaim shared.now) }
{
    passes.pop()
}

/// A shared tree, and its first and its second pass.
#[derive(Drop)]
pub(crate) struct TwoPasses {
    pub(crate) shared: Shared,
    pub(crate) first: Pass,
    pub(crate) second: Pass,
}

/// Two passes over the marks of a task.
pub(crate) fn two_over<R: Abort>(rt: &R, alloc: Global, task: Task) -> TwoPasses
    requires { ClearAt (space_of task.scene) task.scene.start }
    ensures opening { result.shared.opening ≡ 0 }
    ensures task { result.shared.task ≡ task }
    ensures first { MayClaim result.shared result.first }
    ensures second { MayClaim result.shared result.second }
{
    let grown = sure(rt, Grown::new(alloc, task));
    let (shared, mut passes) = sure(rt, Shared::start(alloc, grown, 2));
    let second = some(rt, last_pass(&shared, &mut passes));
    let first = some(rt, last_pass(&shared, &mut passes));
    TwoPasses {
        shared,
        first,
        second,
    }
}
