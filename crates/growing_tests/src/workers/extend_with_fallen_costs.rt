//! Costs that fell: the parent of a new node is chosen by costs that are loaded for it, and the nodes below a lowered one fall with it.

ghost use Rattle.std.specs.Prelude.{◌≡◌, ◌<◌, ◌≤◌, length};
ghost use Rattle.plan_model.specs.Spaces.ConfigurationSpace.{space_of};
ghost use Rattle.growing_tests.specs.Shares.Sharers.{HasShare};

use crate::workers::extend_with_stale_costs::load_node;
use crate::workers::support::{Entry, assert_entry, extend_claimed, task_to, two_passes};
use plan_model::{Outcome, Point};
use plan_words::{Pass, Shared};
use std::process::Abort;
use swept_check::Hall;

/// Asserts that a pass claims this mark, and that its record is the one that is listed for it.
fn assert_handled<R: Abort>(
    rt: &R,
    shared: &Shared,
    hall: &Hall,
    pass: &mut Pass,
    mark: u32,
    wants: &[Entry],
)
    requires pass { HasShare shared.now 1 pass.old }
    requires hall { hall.now ≡ space_of shared.now.task.scene }
    requires opening { shared.now.opening ≡ 0 }
    requires marks { length shared.now.task.marks ≡ length wants.now }
    requires mark { mark < length wants.now }
    ensures { HasShare shared.now 1 pass.new }
{
    let limit = wants.len() as u32;
    let Some(claimed) = shared.claim(pass, limit) else {
        panic!(rt; "no mark is left")
    };
    let record = extend_claimed(shared, pass, hall, claimed);
    assert!(rt; claimed == mark);
    assert_entry(rt, record, mark, &wants[mark as usize]);
}

/// Asserts which parent and which cost a pass saw last of a node. Nothing is loaded for that.
fn assert_seen<R: Abort>(rt: &R, shared: &Shared, pass: &Pass, node: u32, want: (u32, u64))
    requires pass { HasShare shared.now 1 pass.now }
    requires node { node ≤ length shared.now.task.marks }
{
    assert!(rt; pass.pair(node) == Some(want));
}

/// Lets go what two passes have grown.
fn end_tree(shared: Shared, hall: Hall, first: Pass, second: Pass) {
    drop(shared);
    drop(hall);
    drop(first);
    drop(second);
}

// ---- a cost that falls before a parent is chosen

const FALLEN: Point = Point { x: 28, y: 25 };

/// The third gives the node of the second a cheaper way. With a gamma of 32 the fourth is near to the nodes of the first and the second
/// alone, and that of the first is the nearest.
static THROUGH_FALLEN: [Point; 4] = [
    Point { x: 50, y: 0 },
    FALLEN,
    Point { x: 14, y: 12 },
    Point { x: 52, y: 22 },
];

/// By the cost that was seen before the third mark, the fourth would hang below node 1 at 18,456: through node 2 it would cost 27,518.
static CHOSEN: [Entry; 4] = [
    (1, 0, 0, Outcome::Placed, 0, 12_800, 1),
    (1, 1, 1, Outcome::Placed, 1, 21_326, 2),
    (0, 0, 0, Outcome::Placed, 0, 4_721, 2),
    (1, 2, 1, Outcome::Placed, 2, 15_804, 3),
];

/// Asserts that the second pass handles a mark after the first has lowered a node, of which the second has seen the higher cost alone.
fn assert_chosen<R: Abort>(
    rt: &R,
    shared: &Shared,
    hall: &Hall,
    first: &mut Pass,
    second: &mut Pass,
)
    requires first { HasShare shared.now 1 first.old }
    requires second { HasShare shared.now 1 second.old }
    requires hall { hall.now ≡ space_of shared.now.task.scene }
    requires opening { shared.now.opening ≡ 0 }
    requires marks { length shared.now.task.marks ≡ 4 }
    ensures first { HasShare shared.now 1 first.new }
    ensures second { HasShare shared.now 1 second.new }
{
    assert_handled(rt, shared, hall, second, 0, &CHOSEN);
    assert_handled(rt, shared, hall, second, 1, &CHOSEN);
    assert_handled(rt, shared, hall, first, 2, &CHOSEN);
    load_node(rt, shared, first, FALLEN, (2, (3, 9_612)));
    assert_seen(rt, shared, second, 2, (1, 21_326));
    assert_handled(rt, shared, hall, second, 3, &CHOSEN);
}

#[test]
fn a_parent_is_chosen_by_costs_loaded_now(rt: HostRuntime) {
    let task = task_to(&rt, rt.alloc(), FALLEN, 32, &THROUGH_FALLEN);
    let (shared, hall, mut first, mut second) = two_passes(&rt, rt.alloc(), task);
    assert_chosen(&rt, &shared, &hall, &mut first, &mut second);
    end_tree(shared, hall, first, second);
}

// ---- a cost that falls with that of the parent

const NODE: Point = Point { x: 40, y: 60 };

const CHILD: Point = Point { x: 60, y: 90 };

const GRANDCHILD: Point = Point { x: 95, y: 90 };

/// The fifth gives the node of the second a cheaper way. Those of the third and the fourth hang below that, and are not near the fifth.
static LINE: [Point; 5] = [
    Point { x: 0, y: 50 },
    NODE,
    CHILD,
    GRANDCHILD,
    Point { x: 30, y: 30 },
];

static HUNG: [Entry; 5] = [
    (1, 0, 0, Outcome::Placed, 0, 12_800, 1),
    (0, 0, 1, Outcome::Placed, 1, 23_356, 2),
    (1, 1, 2, Outcome::Placed, 2, 32_587, 2),
    (0, 1, 3, Outcome::Placed, 3, 41_547, 3),
    (0, 2, 2, Outcome::Placed, 0, 10_862, 3),
];

/// Asserts that two passes hang a node, its child and its grandchild, one below the other, and that the first then lowers the node.
fn assert_hung<R: Abort>(rt: &R, shared: &Shared, hall: &Hall, first: &mut Pass, second: &mut Pass)
    requires first { HasShare shared.now 1 first.old }
    requires second { HasShare shared.now 1 second.old }
    requires hall { hall.now ≡ space_of shared.now.task.scene }
    requires opening { shared.now.opening ≡ 0 }
    requires marks { length shared.now.task.marks ≡ 5 }
    ensures first { HasShare shared.now 1 first.new }
    ensures second { HasShare shared.now 1 second.new }
{
    assert_handled(rt, shared, hall, second, 0, &HUNG);
    assert_handled(rt, shared, hall, first, 1, &HUNG);
    assert_handled(rt, shared, hall, second, 2, &HUNG);
    assert_handled(rt, shared, hall, first, 3, &HUNG);
    assert_handled(rt, shared, hall, first, 4, &HUNG);
}

/// Asserts what a pass then loads of the three.
fn assert_fallen<R: Abort>(rt: &R, shared: &Shared, pass: &mut Pass)
    requires { HasShare shared.now 1 pass.old }
    ensures { HasShare shared.now 1 pass.new }
{
    load_node(rt, shared, pass, NODE, (2, (5, 18_958)));
    load_node(rt, shared, pass, CHILD, (3, (2, 28_189)));
    load_node(rt, shared, pass, GRANDCHILD, (4, (3, 37_149)));
}

#[test]
fn a_grandchild_falls_with_its_parent(rt: HostRuntime) {
    let task = task_to(&rt, rt.alloc(), GRANDCHILD, 1000, &LINE);
    let (shared, hall, mut first, mut second) = two_passes(&rt, rt.alloc(), task);
    assert_hung(&rt, &shared, &hall, &mut first, &mut second);
    assert_fallen(&rt, &shared, &mut second);
    end_tree(shared, hall, first, second);
}
