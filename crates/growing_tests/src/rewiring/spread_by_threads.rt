//! Passes that lower one node, each below another node and in a thread of its own.

ghost use Rattle.std.specs.Prelude.{◌≡◌, All, IfOk};
ghost use Rattle.plan_model.specs.Geometry.Plane.{IsBounded};
ghost use Rattle.plan_model.specs.Spaces.ConfigurationSpace.{space_of};
ghost use Rattle.plan_words.specs.States.{MayClaim};

use crate::rewiring::support::{
    expect_pairs, last_pass, lower_and_spread, marks_in_square, passes_after, some, sure,
};
use plan_model::{Memory, Point};
use plan_words::{Pass, Shared};
use std::alloc::Global;
use std::process::Abort;
use std::thread;
use std::thread::Threads;
use swept_check::Hall;

const WORKERS: u32 = 20;

/// The node that all lower.
const LAST: Point = Point { x: 100, y: 100 };

/// A pass, and the point of its node, in the lowest row.
#[derive(Drop)]
struct Worker {
    pass: Pass,
    from: Point,
    ghost bounded: { IsBounded from },
}

/// The nodes in the lowest row, and the points of a long way round to the node that all lower, with three below it.
static ROUND: [Point; 34] = [
    Point { x: 10, y: 0 },
    Point { x: 20, y: 0 },
    Point { x: 30, y: 0 },
    Point { x: 40, y: 0 },
    Point { x: 50, y: 0 },
    Point { x: 60, y: 0 },
    Point { x: 70, y: 0 },
    Point { x: 80, y: 0 },
    Point { x: 90, y: 0 },
    Point { x: 100, y: 0 },
    Point { x: 110, y: 0 },
    Point { x: 120, y: 0 },
    Point { x: 130, y: 0 },
    Point { x: 140, y: 0 },
    Point { x: 150, y: 0 },
    Point { x: 160, y: 0 },
    Point { x: 170, y: 0 },
    Point { x: 180, y: 0 },
    Point { x: 190, y: 0 },
    Point { x: 200, y: 0 },
    Point { x: 240, y: 0 },
    Point { x: 280, y: 0 },
    Point { x: 280, y: 40 },
    Point { x: 280, y: 80 },
    Point { x: 280, y: 120 },
    Point { x: 280, y: 160 },
    Point { x: 240, y: 160 },
    Point { x: 200, y: 160 },
    Point { x: 160, y: 160 },
    Point { x: 120, y: 160 },
    Point { x: 100, y: 100 },
    Point { x: 100, y: 120 },
    Point { x: 90, y: 140 },
    Point { x: 80, y: 120 },
];

/// Lowers the node below the worker's own while it is dearer than that, and spreads what fell.
fn work(shared: &Shared, hall: &Hall, worker: &mut Worker)
    requires may_claim { MayClaim shared.now worker.old.pass }
    requires hall { hall.now ≡ space_of shared.now.task.scene }
{
    let _lowered = lower_and_spread(shared, hall, &mut worker.pass, LAST, worker.from);
}

/// The workers do so, each in a thread of its own.
fn work_all<R: Threads + Sync>(rt: &R, shared: &Shared, hall: &Hall, workers: &mut [Worker])
    requires may_claim { All (λ worker. MayClaim shared.now worker.pass) workers.old }
    requires hall { hall.now ≡ space_of shared.now.task.scene }
{
    thread::for_each_mut(
        rt,
        workers,
        WORKERS as usize,
        &|_, worker| work(shared, hall, worker),
    );
}

/// A worker for each pass, the dearest first.
fn workers_of(alloc: Global, shared: &Shared, passes: &mut Vec<Pass>) -> Result<Vec<Worker>, Memory>
    requires { All (MayClaim shared.now) passes.old.items }
    ensures rest { All (MayClaim shared.now) passes.new.items }
    ensures may_claim { IfOk result (λ workers. All (λ worker. MayClaim shared.now worker.pass) workers.items) }
{
    let mut workers = Vec::new(alloc);
    'passes: for number in 0..WORKERS {
        let Some(pass) = last_pass(shared, passes) else {
            break;
        };
        let from = Point {
            x: 10 * (WORKERS - number),
            y: 0,
        };
        workers.push(Worker { pass, from })?;
    }
    Ok(workers)
}

/// The lowered node and those below it, before that and after it.
static HUNG: [(Point, (u32, u64)); 4] = [
    (Point { x: 100, y: 100 }, (30, 169_791)),
    (Point { x: 100, y: 120 }, (31, 174_911)),
    (Point { x: 90, y: 140 }, (32, 180_636)),
    (Point { x: 80, y: 120 }, (32, 180_031)),
];

static LOWERED: [(Point, (u32, u64)); 4] = [
    (Point { x: 100, y: 100 }, (1, 37_002)),
    (Point { x: 100, y: 120 }, (31, 42_122)),
    (Point { x: 90, y: 140 }, (32, 47_847)),
    (Point { x: 80, y: 120 }, (32, 47_242)),
];

/// A pass that looks, which is the last one, and a worker for each of the others.
fn looker_and_workers<R: Abort>(
    rt: &R,
    alloc: Global,
    shared: &Shared,
    passes: Vec<Pass>,
) -> (Pass, Vec<Worker>)
    requires { All (MayClaim shared.now) passes.items }
    ensures looks { MayClaim shared.now result.0 }
    ensures may_claim { All (λ worker. MayClaim shared.now worker.pass) result.1.items }
{
    let mut passes = passes;
    let looker = some(rt, last_pass(shared, &mut passes));
    let workers = sure(rt, workers_of(alloc, shared, &mut passes));
    (looker, workers)
}

/// A shared tree, the collision checker of its room, a pass that looks, and the workers.
#[derive(Drop)]
struct Gathered {
    shared: Shared,
    hall: Hall,
    looker: Pass,
    workers: Vec<Worker>,
}

/// The workers, and one pass more, over a tree in which each node hangs below the one that was nearest.
fn workers_round<R: Threads + Sync + Abort>(rt: &R, alloc: Global) -> Gathered
    ensures hall { result.hall ≡ space_of result.shared.task.scene }
    ensures looks { MayClaim result.shared result.looker }
    ensures may_claim { All (λ worker. MayClaim result.shared worker.pass) result.workers.items }
{
    let task = marks_in_square(rt, alloc, 300, 150, 0, &ROUND);
    let (shared, hall, passes) = passes_after(rt, alloc, task, 34, WORKERS + 1);
    let (looker, workers) = looker_and_workers(rt, alloc, &shared, passes);
    Gathered {
        shared,
        hall,
        looker,
        workers,
    }
}

/// Compares the node that all lower and those below it, before and after they do so.
fn expect_lowered<R: Threads + Sync + Abort>(
    rt: &R,
    shared: &Shared,
    hall: &Hall,
    looker: &mut Pass,
    workers: &mut [Worker],
)
    requires looks { MayClaim shared.now looker.old }
    requires may_claim { All (λ worker. MayClaim shared.now worker.pass) workers.old }
    requires hall { hall.now ≡ space_of shared.now.task.scene }
{
    expect_pairs(rt, shared, looker, &HUNG);
    assert_eq!(rt; workers.len(), WORKERS as usize);
    work_all(rt, shared, hall, workers);
    expect_pairs(rt, shared, looker, &LOWERED);
}

#[test]
fn threads_lower_one_node_from_all_sides(rt: HostRuntime) {
    let mut all = workers_round(&rt, rt.alloc());
    expect_lowered(
        &rt,
        &all.shared,
        &all.hall,
        &mut all.looker,
        all.workers.as_mut_slice(),
    );
    drop(all);
}
