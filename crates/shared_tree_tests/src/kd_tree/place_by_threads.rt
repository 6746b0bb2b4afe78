//! Passes that place the same points, each in a thread of its own.

ghost use Rattle.std.specs.Prelude.{◌≡◌, ◌*◌, All, IfOk, IsTrue, length};
ghost use Rattle.plan_model.specs.Spaces.Clearance.{ClearAt};
ghost use Rattle.plan_model.specs.Spaces.ConfigurationSpace.{space_of};
ghost use Rattle.plan_model.specs.Scenes.Limits.{is_plan};
ghost use Rattle.plan_model.specs.declared.scenes.Marks.TheVariants.{Listed};
ghost use Rattle.plan_words.specs.States.{MayClaim};

use crate::kd_tree::support::{marks_round, place_next};
use crate::support::{last_pass, sure};
use kd_shared::Placing;
use plan_model::{Memory, Point, Task};
use plan_words::{Pass, Shared};
use std::alloc::Global;
use std::process::Abort;
use std::thread;
use std::thread::Threads;
use step_core::Grown;
use swept_check::Hall;

const WORKERS: u32 = 64;

const POINTS: u32 = 1000;

const START: Point = Point { x: 2000, y: 2000 };

/// A pass, and the node that it found or placed at each of the points, in their order.
#[derive(Drop)]
struct Worker {
    pass: Pass,
    nodes: Vec<u32>,
    placed: u32,
}

/// The points, each so often in a row. As many strips take turns, so each worker has all the points in its own strip.
fn repeated_points(alloc: Global) -> Result<Vec<Point>, Memory>
    ensures plan { IfOk result (λ points. IsTrue (is_plan 1 (Listed points.items))) }
    ensures count { IfOk result (λ points. length points.items ≡ POINTS * WORKERS) }
{
    let mut marks = Vec::new(alloc);
    'marks: for mark in 0..POINTS * WORKERS {
        let number = mark / WORKERS;
        marks.push(Point {
            x: number * 7919 % 3989,
            y: number * 104_729 % 4001,
        })?;
    }
    Ok(marks)
}

/// Places the points of the worker's own marks.
fn work(shared: &Shared, hall: &Hall, worker: &mut Worker)
    requires hall { hall.now ≡ space_of shared.now.task.scene }
    requires may_claim { MayClaim shared.now worker.old.pass }
    requires opening { shared.now.opening ≡ 0 }
    requires marks { length shared.now.task.marks ≡ POINTS * WORKERS }
{
    'points: for _ in 0..POINTS {
        let Some(next) = place_next(shared, hall, &mut worker.pass, POINTS * WORKERS) else {
            return;
        };
        let node = match next.placing {
            Placing::Placed => {
                worker.placed = worker.placed.wrapping_add(1);
                next.mark.wrapping_add(1)
            }
            Placing::Same(node) => node,
        };
        // a worker that is out of memory loses a node, and the test fails
        let _pushed = worker.nodes.push(node);
    }
}

fn work_all<R: Threads + Sync>(rt: &R, shared: &Shared, hall: &Hall, workers: &mut [Worker])
    requires hall { hall.now ≡ space_of shared.now.task.scene }
    requires may_claim { All (λ worker. MayClaim shared.now worker.pass) workers.old }
    requires opening { shared.now.opening ≡ 0 }
    requires marks { length shared.now.task.marks ≡ POINTS * WORKERS }
{
    thread::for_each_mut(
        rt,
        workers,
        WORKERS as usize,
        &|_, worker| work(shared, hall, worker),
    );
}

/// A worker for each pass.
fn workers_of(alloc: Global, shared: &Shared, passes: &mut Vec<Pass>) -> Result<Vec<Worker>, Memory>
    requires { All (MayClaim shared.now) passes.old.items }
    ensures { IfOk result (λ workers. All (λ worker. MayClaim shared.now worker.pass) workers.items) }
{
    let mut workers = Vec::new(alloc);
    'passes: for _ in 0..WORKERS {
        let Some(pass) = last_pass(shared, passes) else {
            break;
        };
        workers.push(Worker {
            pass,
            nodes: Vec::new(alloc),
            placed: 0,
        })?;
    }
    Ok(workers)
}

/// The task of these points, with a strip for each worker.
fn repeated_task<R: Abort>(rt: &R, alloc: Global) -> Task
    ensures clear { ClearAt (space_of result.scene) result.scene.start }
    ensures marks { length result.marks ≡ POINTS * WORKERS }
{
    let points = sure(rt, repeated_points(alloc));
    let task = sure(rt, marks_round(alloc, START, WORKERS, points.as_slice()));
    drop(points);
    task
}

/// The shared tree of a task, and its workers.
fn shared_by_workers<R: Abort>(rt: &R, alloc: Global, task: Task) -> (Shared, Vec<Worker>)
    requires { ClearAt (space_of task.scene) task.scene.start }
    ensures opening { result.0.opening ≡ 0 }
    ensures task { result.0.task ≡ task }
    ensures workers { All (λ worker. MayClaim result.0 worker.pass) result.1.items }
{
    let grown = sure(rt, Grown::new(alloc, task));
    let (shared, mut passes) = sure(rt, Shared::start(alloc, grown, WORKERS));
    let workers = sure(rt, workers_of(alloc, &shared, &mut passes));
    drop(passes);
    (shared, workers)
}

/// The workers after each has placed all points in a thread of its own.
fn workers_done<R: Threads + Sync + Abort>(rt: &R, alloc: Global) -> Vec<Worker> {
    let task = repeated_task(rt, alloc);
    let hall = sure(rt, Hall::new(alloc, &task.scene));
    let (shared, mut workers) = shared_by_workers(rt, alloc, task);
    work_all(rt, &shared, &hall, workers.as_mut_slice());
    drop(hall);
    drop(shared);
    workers
}

/// Asserts that a worker came to each point, and at each to the same node as another.
fn expect_nodes<R: Abort>(rt: &R, worker: &Worker, nodes: &[u32]) {
    assert!(rt; worker.nodes.len() == POINTS as usize);
    assert!(rt; worker.nodes.as_slice() == nodes);
}

/// Asserts that the workers came to the same nodes, and placed each once.
fn expect_alike<R: Abort>(rt: &R, workers: &[Worker]) {
    assert!(rt; workers.len() == WORKERS as usize);
    let mut placed = 0u32;
    for worker in workers {
        expect_nodes(rt, worker, workers[0].nodes.as_slice());
        placed = placed.wrapping_add(worker.placed);
    }
    assert!(rt; placed == POINTS, "{placed} nodes");
}

#[test]
fn each_point_stands_once(rt: HostRuntime) {
    let workers = workers_done(&rt, rt.alloc());
    expect_alike(&rt, workers.as_slice());
    drop(workers);
}
