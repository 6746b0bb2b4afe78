//! What the tests share: passes that go on from a run, looks at what they see, and a pass with a share that lowers one node below
//! another.

ghost use Rattle.std.specs.Prelude.{◌≡◌, ◌≢◌, ◌≤◌, All, IfSome, IsTrue, Ok, Some, false, length};
ghost use Rattle.plan_model.specs.Geometry.Plane.{IsBounded};
ghost use Rattle.plan_model.specs.Runs.OrderLaw.{IsAllowedEdge};
ghost use Rattle.plan_model.specs.Scenes.Limits.{is_plan};
ghost use Rattle.plan_model.specs.Spaces.Clearance.{ClearAt};
ghost use Rattle.plan_model.specs.Spaces.ConfigurationSpace.{space_of};
ghost use Rattle.plan_model.specs.declared.limits.TheConstants.{MOST_WORKERS};
ghost use Rattle.plan_model.specs.declared.scenes.Marks.TheVariants.{Listed};
ghost use Rattle.plan_words.specs.States.{GoesOn, MayClaim, run_in};
ghost use Rattle.step_core.specs.ViewTrees.{SeesPoint};
ghost use Rattle.step_core.specs.Views.{setup_in};
ghost use Rattle.tree_rewire.specs.SeenCosts.{SeesPair};
ghost use Rattle.growing_tests.specs.LoweredNodes.HeldMarks.{IsAtWork};

use crate::edges::{Edge, is_allowed, seen_cost};
use edge_cost::cost;
use kd_shared::find;
use plan_model::{Goal, Memory, Point, SmallScene, Task};
use plan_words::{Pass, Shared};
use plan_work::{NoGate, grow};
use std::alloc::Global;
use std::process::Abort;
use std::thread::Threads;
use step_core::Grown;
use swept_check::Hall;
use tree_rewire::spread;

pub(crate) const START: Point = Point { x: 0, y: 0 };

/// A node at the end of its way, which is the goal of all scenes.
pub(crate) const FAR: Point = Point { x: 40, y: 79 };

/// What was made, for which memory lasts. A test ends here if none is left, so that no value is dropped on the way.
pub(crate) fn sure<R: Abort, T>(rt: &R, made: Result<T, Memory>) -> T
    ensures { made ≡ Ok result }
{
    match made {
        Ok(value) => value,
        Err(error) => panic!(rt; "{error}"),
    }
}

/// What was found, for which there is something.
pub(crate) fn some<R: Abort, T>(rt: &R, found: Option<T>) -> T
    ensures { found ≡ Some result }
{
    match found {
        Some(value) => value,
        None => panic!(rt; "there is none"),
    }
}

/// These marks in a square room, from its corner, in one strip.
pub(crate) fn marks_in_square<R: Abort>(
    rt: &R,
    alloc: Global,
    side: u32,
    step: u32,
    gamma: u32,
    marks: &[Point],
) -> Task
    requires side { 100 ≤ side }
    requires small { side ≤ 300 }
    requires step { 50 ≤ step }
    requires short { step ≤ 150 }
    requires gamma { gamma ≤ 1000 }
    requires plan { IsTrue (is_plan 1 (Listed marks.now)) }
    ensures marks { result.marks ≡ marks.now }
    ensures plain { result.scene.informed ≡ false }
    ensures clear { ClearAt (space_of result.scene) result.scene.start }
{
    let small = SmallScene {
        room: Point { x: side, y: side },
        start: START,
        goal: Goal {
            low: FAR,
            high: FAR,
        },
        step,
        gamma,
        seed: 0,
        strips: 1,
    };
    sure(rt, small.task(alloc, marks))
}

/// The run of one worker, which has handled the marks below a limit, and the collision checker of its room.
fn run_to<R: Threads + Sync + Abort>(rt: &R, alloc: Global, task: Task, limit: u32) -> (Grown, Hall)
    requires clear { ClearAt (space_of task.scene) task.scene.start }
    requires limit { limit ≤ length task.marks }
    ensures limit { result.0.limit ≡ limit }
    ensures task { result.0.task ≡ task }
    ensures hall { result.1 ≡ space_of task.scene }
{
    let hall = sure(rt, Hall::new(alloc, &task.scene));
    let fresh = sure(rt, Grown::new(alloc, task));
    let grown = sure(rt, grow(rt, alloc, fresh, &hall, 1, limit, &NoGate));
    (grown, hall)
}

/// A shared tree that goes on from such a run, the collision checker of its room, and so many passes.
pub(crate) fn passes_after<R: Threads + Sync + Abort>(
    rt: &R,
    alloc: Global,
    task: Task,
    limit: u32,
    workers: u32,
) -> (Shared, Hall, Vec<Pass>)
    requires clear { ClearAt (space_of task.scene) task.scene.start }
    requires limit { limit ≤ length task.marks }
    requires some { 1 ≤ workers }
    requires few { workers ≤ MOST_WORKERS }
    ensures opening { result.0.opening ≡ limit }
    ensures workers { result.0.workers ≡ workers }
    ensures task { result.0.task ≡ task }
    ensures hall { result.1 ≡ space_of result.0.task.scene }
    ensures may_claim { All (MayClaim result.0) result.2.items }
{
    let (grown, hall) = run_to(rt, alloc, task, limit);
    let (shared, passes) = sure(rt, Shared::start(alloc, grown, workers));
    (shared, hall, passes)
}

/// The last pass of the list.
pub(crate) fn last_pass(shared: &Shared, passes: &mut Vec<Pass>) -> Option<Pass>
    requires { All (MayClaim shared.now) passes.old.items }
    ensures rest { All (MayClaim shared.now) passes.new.items }
    ensures last { IfSome result (MayClaim shared.now) }
{
    passes.pop()
}

/// The last pass of a list that is let go.
fn only_pass<R: Abort>(rt: &R, shared: &Shared, passes: Vec<Pass>) -> Pass
    requires { All (MayClaim shared.now) passes.items }
    ensures { MayClaim shared.now result }
{
    let mut passes = passes;
    some(rt, last_pass(shared, &mut passes))
}

/// A shared tree that has begun, the collision checker of its room, and its only pass. Tests let it go by `drop`, so that what its
/// fields let go is no part of their own proofs.
#[derive(Drop)]
pub(crate) struct Begun {
    pub(crate) shared: Shared,
    pub(crate) hall: Hall,
    pub(crate) pass: Pass,
}

/// One pass that goes on from such a run.
pub(crate) fn begun_after<R: Threads + Sync + Abort>(
    rt: &R,
    alloc: Global,
    task: Task,
    limit: u32,
) -> Begun
    requires clear { ClearAt (space_of task.scene) task.scene.start }
    requires limit { limit ≤ length task.marks }
    ensures opening { result.shared.opening ≡ limit }
    ensures one { result.shared.workers ≡ 1 }
    ensures task { result.shared.task ≡ task }
    ensures hall { result.hall ≡ space_of result.shared.task.scene }
    ensures may_claim { MayClaim result.shared result.pass }
{
    let (shared, hall, passes) = passes_after(rt, alloc, task, limit, 1);
    let pass = only_pass(rt, &shared, passes);
    Begun { shared, hall, pass }
}

/// The node at a point, with its parent and its cost loaded.
fn load_at(shared: &Shared, pass: &mut Pass, at: Point) -> Option<(u32, (u32, u64))>
    requires { IsAtWork shared.now pass.old }
    ensures works { IsAtWork shared.now pass.new }
    ensures goes_on { IfSome result (λ _. GoesOn pass.old.view pass.new.view) }
    ensures stands { IfSome result (λ found. SeesPoint pass.new.view found.0 at) }
    ensures pair { IfSome result (λ found. SeesPair pass.new.view found.0) }
{
    let node = find(shared, pass, at)?;
    let pair = shared.tree(pass, node);
    Some((node, pair))
}

/// Compares the parent and the cost of the node at a point.
pub(crate) fn expect_pair<R: Abort>(
    rt: &R,
    shared: &Shared,
    pass: &mut Pass,
    at: Point,
    want: (u32, u64),
)
    requires { IsAtWork shared.now pass.old }
    ensures { IsAtWork shared.now pass.new }
{
    let Some((_, pair)) = load_at(shared, pass, at) else {
        panic!(rt; "no node stands there")
    };
    assert_eq!(rt; pair, want);
}

/// Compares the parents and the costs of the nodes at these points.
pub(crate) fn expect_pairs<R: Abort>(
    rt: &R,
    shared: &Shared,
    pass: &mut Pass,
    wants: &[(Point, (u32, u64))],
)
    requires { IsAtWork shared.now pass.old }
    ensures { IsAtWork shared.now pass.new }
{
    'nodes: for (at, want) in wants {
        expect_pair(rt, shared, pass, *at, *want);
    }
}

/// Lowers the node of an edge below the parent while it is dearer than through that, both as they were seen last.
fn lower_while_dearer(shared: &Shared, pass: &mut Pass, edge: Edge)
    requires works { IsAtWork shared.now pass.old }
    requires node { SeesPoint pass.old.view edge.node edge.at }
    requires pair { SeesPair pass.old.view edge.node }
    requires parent { SeesPoint pass.old.view edge.parent edge.from }
    requires parent_pair { SeesPair pass.old.view edge.parent }
    requires apart { edge.parent ≢ edge.node }
    requires allowed { IsAllowedEdge (setup_in (run_in shared.now)) edge.from edge.at }
    requires from { IsBounded edge.from }
    requires at { IsBounded edge.at }
    ensures works { IsAtWork shared.now pass.new }
    ensures pair { SeesPair pass.new.view edge.node }
{
    let most = seen_cost(pass, edge.parent) + cost(edge.from, edge.at);
    'lowers: while most < seen_cost(pass, edge.node) {
        // one that fails finds a lower cost, with whatever parent
        let _found = shared.lower(pass, edge.node, edge.parent, most);
    }
}

/// Lowers the node at a point below that at another while it is dearer than through that. `None` if there are no two nodes with an
/// allowed edge.
pub(crate) fn lower_below(
    shared: &Shared,
    hall: &Hall,
    pass: &mut Pass,
    at: Point,
    from: Point,
) -> Option<u32>
    requires works { IsAtWork shared.now pass.old }
    requires hall { hall.now ≡ space_of shared.now.task.scene }
    requires from { IsBounded from }
    requires at { IsBounded at }
    ensures works { IsAtWork shared.now pass.new }
    ensures pair { IfSome result (λ node. SeesPair pass.new.view node) }
{
    let (parent, _) = load_at(shared, pass, from)?;
    let (node, _) = load_at(shared, pass, at)?;
    let edge = Edge {
        parent,
        from,
        node,
        at,
    };
    if parent == node || !is_allowed(shared, hall, edge) {
        return None;
    }
    lower_while_dearer(shared, pass, edge);
    Some(node)
}

/// Does so, and spreads what fell. Whether there are two such nodes.
pub(crate) fn lower_and_spread(
    shared: &Shared,
    hall: &Hall,
    pass: &mut Pass,
    at: Point,
    from: Point,
) -> bool
    requires works { IsAtWork shared.now pass.old }
    requires hall { hall.now ≡ space_of shared.now.task.scene }
    requires from { IsBounded from }
    requires at { IsBounded at }
    ensures { IsAtWork shared.now pass.new }
{
    let Some(node) = lower_below(shared, hall, pass, at, from) else {
        return false;
    };
    spread(shared, pass, node);
    true
}
