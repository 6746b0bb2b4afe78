//! A cost that one pass lowers after another saw it, which then finds the lowered one.

ghost use Rattle.std.specs.Prelude.{◌≡◌, length};
ghost use Rattle.plan_model.specs.Geometry.Plane.{IsBounded};
ghost use Rattle.plan_model.specs.Spaces.ConfigurationSpace.{space_of};
ghost use Rattle.plan_words.specs.States.{GoesOn};
ghost use Rattle.growing_tests.specs.Shares.Sharers.{HasShare};
ghost use Rattle.step_core.specs.ViewTrees.{SeesPoint};
ghost use Rattle.tree_rewire.specs.SeenCosts.{SeesPair};

use crate::edges::{Edge, is_allowed, seen_cost};
use crate::workers::support::{Ending, assert_ending, assert_extended, task_to, two_passes};
use edge_cost::cost;
use kd_shared::find;
use plan_model::{Outcome, Point};
use plan_words::{Pass, Shared};
use std::process::Abort;
use swept_check::Hall;

const START: Point = Point { x: 0, y: 0 };

const ACROSS: Point = Point { x: 30, y: 30 };

const RIGHT: Point = Point { x: 10, y: 0 };

/// The node at a point. It is this one, and its parent and its cost, which are loaded, are these.
pub(crate) fn load_node<R: Abort>(
    rt: &R,
    shared: &Shared,
    pass: &mut Pass,
    at: Point,
    want: (u32, (u32, u64)),
) -> u32
    requires { HasShare shared.now 1 pass.old }
    ensures share { HasShare shared.now 1 pass.new }
    ensures goes_on { GoesOn pass.old.view pass.new.view }
    ensures stands { SeesPoint pass.new.view result at }
    ensures pair { SeesPair pass.new.view result }
{
    let Some(node) = find(shared, pass, at) else {
        panic!(rt; "no node stands there")
    };
    let pair = shared.tree(pass, node);
    assert!(rt; (node, pair) == want);
    node
}

/// Two nodes, each as `load_node` gives it.
fn load_two<R: Abort>(
    rt: &R,
    shared: &Shared,
    pass: &mut Pass,
    one: (Point, (u32, (u32, u64))),
    other: (Point, (u32, (u32, u64))),
) -> (u32, u32)
    requires { HasShare shared.now 1 pass.old }
    ensures share { HasShare shared.now 1 pass.new }
    ensures stands { SeesPoint pass.new.view result.0 one.0 }
    ensures pair { SeesPair pass.new.view result.0 }
    ensures other_stands { SeesPoint pass.new.view result.1 other.0 }
    ensures other_pair { SeesPair pass.new.view result.1 }
{
    let first = load_node(rt, shared, pass, one.0, one.1);
    let second = load_node(rt, shared, pass, other.0, other.1);
    (first, second)
}

/// Lowers the node of an edge below the parent, by what was seen of both, to this cost, and asserts what the exchange gives.
fn assert_lowered<R: Abort>(
    rt: &R,
    shared: &Shared,
    hall: &Hall,
    pass: &mut Pass,
    edge: Edge,
    want: (u64, Result<(), (u32, u64)>),
)
    requires share { HasShare shared.now 1 pass.old }
    requires hall { hall.now ≡ space_of shared.now.task.scene }
    requires node { SeesPoint pass.old.view edge.node edge.at }
    requires pair { SeesPair pass.old.view edge.node }
    requires parent { SeesPoint pass.old.view edge.parent edge.from }
    requires parent_pair { SeesPair pass.old.view edge.parent }
    requires from { IsBounded edge.from }
    requires at { IsBounded edge.at }
    ensures { HasShare shared.now 1 pass.new }
{
    let lowered = seen_cost(pass, edge.parent) + cost(edge.from, edge.at);
    assert!(rt; lowered == want.0);
    if !is_allowed(shared, hall, edge) || lowered >= seen_cost(pass, edge.node) {
        panic!(rt; "it may not be lowered so");
    }
    let found = shared.lower(pass, edge.node, edge.parent, lowered);
    assert!(rt; found == want.1);
}

static NEARER: Ending = Ending {
    count: 4,
    records: &[
        (0, 0, 0, Outcome::Placed, 0, 7_680, 1),
        (0, 1, 1, Outcome::Placed, 1, 15_360, 2),
        (0, 2, 0, Outcome::Placed, 0, 2_560, 2),
    ],
    nodes: &[
        Some((0, 0, 0, 0)),
        Some((0, 30, 0, 7_680)),
        Some((30, 30, 0, 10_862)),
        Some((10, 0, 0, 2_560)),
    ],
};

static MARKS: [Point; 3] = [Point { x: 0, y: 30 }, ACROSS, RIGHT];

/// Asserts that a pass handles the three marks.
fn assert_three<R: Abort>(rt: &R, shared: &Shared, hall: &Hall, pass: &mut Pass)
    requires pass { HasShare shared.now 1 pass.old }
    requires hall { hall.now ≡ space_of shared.now.task.scene }
    requires opening { shared.now.opening ≡ 0 }
    requires marks { length shared.now.task.marks ≡ 3 }
    ensures { HasShare shared.now 1 pass.new }
{
    assert_extended(rt, shared, hall, pass, 0, &NEARER);
    assert_extended(rt, shared, hall, pass, 1, &NEARER);
    assert_extended(rt, shared, hall, pass, 2, &NEARER);
}

/// Asserts that the first pass lowers a node, and that the second, by what it saw of that before, does not.
fn assert_stale<R: Abort>(rt: &R, shared: &Shared, hall: &Hall, first: &mut Pass, second: &mut Pass)
    requires first { HasShare shared.now 1 first.old }
    requires second { HasShare shared.now 1 second.old }
    requires hall { hall.now ≡ space_of shared.now.task.scene }
    ensures first { HasShare shared.now 1 first.new }
    ensures second { HasShare shared.now 1 second.new }
{
    let kept = (ACROSS, (2, (1, 15_360)));
    let (start, across) = load_two(rt, shared, first, (START, (0, (0, 0))), kept);
    let (stale, right) = load_two(rt, shared, second, kept, (RIGHT, (3, (0, 2_560))));
    let straight = Edge {
        parent: start,
        from: START,
        node: across,
        at: ACROSS,
    };
    let round = Edge {
        parent: right,
        from: RIGHT,
        node: stale,
        at: ACROSS,
    };
    assert_lowered(rt, shared, hall, first, straight, (10_862, Ok(())));
    assert_lowered(rt, shared, hall, second, round, (11_791, Err((0, 10_862))));
}

#[test]
fn a_stale_cost_is_not_exchanged(rt: HostRuntime) {
    let task = task_to(&rt, rt.alloc(), ACROSS, 0, &MARKS);
    let (shared, hall, mut first, mut second) = two_passes(&rt, rt.alloc(), task);
    assert_three(&rt, &shared, &hall, &mut first);
    assert_stale(&rt, &shared, &hall, &mut first, &mut second);
    load_node(&rt, &shared, &mut second, ACROSS, (2, (0, 10_862)));
    drop(hall);
    assert_ending(&rt, shared, first, second, &NEARER);
}
