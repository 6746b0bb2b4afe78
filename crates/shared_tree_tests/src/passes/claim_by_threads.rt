//! Passes that claim marks and record them, each in a thread of its own.

ghost use Rattle.std.specs.Prelude.{◌≡◌, ◌≤◌, All, length};
ghost use Rattle.plan_words.specs.States.{MayClaim};
ghost use Rattle.shared_tree_tests.specs.declared.passes.claim_by_threads.TheConstants.{COUNT};

use crate::passes::support::{ThreePasses, take_turn, three_passes};
use crate::support::sure;
use plan_model::Memory;
use plan_words::{Pass, Shared};
use std::alloc::Global;
use std::process::Abort;
use std::thread;
use std::thread::Threads;

/// How many marks there are.
const COUNT: u32 = 3000;

/// A pass, and the marks that it has claimed.
#[derive(Drop)]
struct Worker {
    pass: Pass,
    marks: Vec<u32>,
}

/// Claims and records marks until none below the limit is left.
fn work<R: Abort>(rt: &R, shared: &Shared, worker: &mut Worker, limit: u32)
    requires may_claim { MayClaim shared.now worker.old.pass }
    requires low { shared.now.opening ≤ limit }
    requires limit { limit ≤ length shared.now.task.marks }
{
    'marks: for _ in 0..limit {
        match take_turn(rt, shared, &mut worker.pass, limit) {
            Some(mark) => {
                // a worker that is out of memory loses a mark, and the test fails
                let _pushed = worker.marks.push(mark);
            }
            None => return,
        }
    }
}

/// A worker that has claimed nothing.
fn worker_of(alloc: Global, shared: &Shared, pass: Pass) -> Worker
    requires { MayClaim shared.now pass }
    ensures { MayClaim shared.now result.pass }
{
    Worker {
        pass,
        marks: Vec::new(alloc),
    }
}

/// The workers claim marks, each in a thread of its own.
fn work_all<R: Threads + Sync + Abort>(rt: &R, shared: &Shared, workers: &mut [Worker], limit: u32)
    requires may_claim { All (λ worker. MayClaim shared.now worker.pass) workers.old }
    requires low { shared.now.opening ≤ limit }
    requires limit { limit ≤ length shared.now.task.marks }
{
    thread::for_each_mut(rt, workers, 3, &|_, worker| work(rt, shared, worker, limit));
}

/// The marks of all workers, in rising number.
fn marks_of(alloc: Global, workers: &[Worker]) -> Result<Vec<u32>, Memory> {
    let mut marks = Vec::new(alloc);
    for worker in workers {
        marks.extend_from_slice(worker.marks.as_slice())?;
    }
    marks.sort_unstable();
    Ok(marks)
}

/// The marks that three passes claim of all, each in a thread of its own, in rising number.
fn claimed_by<R: Threads + Sync + Abort>(
    rt: &R,
    alloc: Global,
    shared: &Shared,
    first: Pass,
    second: Pass,
    third: Pass,
) -> Vec<u32>
    requires first { MayClaim shared.now first }
    requires second { MayClaim shared.now second }
    requires third { MayClaim shared.now third }
    requires opening { shared.now.opening ≡ 0 }
    requires marks { length shared.now.task.marks ≡ COUNT }
{
    let first = worker_of(alloc, shared, first);
    let second = worker_of(alloc, shared, second);
    let third = worker_of(alloc, shared, third);
    let mut workers = [first, second, third];
    work_all(rt, shared, &mut workers, COUNT);
    sure(rt, marks_of(alloc, &workers))
}

#[test]
fn threads_claim_each_mark_once(rt: HostRuntime) {
    let ThreePasses {
        shared,
        first,
        second,
        third,
    } = three_passes(&rt, rt.alloc(), COUNT);
    let marks = claimed_by(&rt, rt.alloc(), &shared, first, second, third);
    assert!(rt; marks.iter().copied().eq(0..COUNT));
    drop(shared);
    drop(marks);
}
