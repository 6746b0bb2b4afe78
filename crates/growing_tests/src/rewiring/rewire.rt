//! A mark whose node becomes the parent of a near one.

ghost use Rattle.std.specs.Prelude.{◌≡◌, ◌≤◌, IfSome, false, length};
ghost use Rattle.plan_model.specs.Spaces.ConfigurationSpace.{space_of};
ghost use Rattle.plan_words.specs.States.{MayClaim};
ghost use Rattle.step_core.specs.declared.views.Stage.TheVariants.{Claimed, Pointed, Treed};
ghost use Rattle.growing_tests.specs.LoweredNodes.HeldMarks.{HasNearInReach, HoldsMark, IfPlaced, IsAtWork, MayRewire};

use crate::rewiring::support::{Begun, FAR, begun_after, expect_pair, marks_in_square};
use edge_cost::{Radii, steer};
use kd_shared::{Placing, near, nearest, place};
use plan_model::Point;
use plan_words::{Pass, Shared};
use std::alloc::Global;
use std::process::Abort;
use std::thread::Threads;
use swept_check::{Clearing, Hall};
use tree_rewire::{choose, rewire};

static MARKS: [Point; 3] = [Point { x: 0, y: 50 }, FAR, Point { x: 40, y: 30 }];

/// A pass that goes on from two placed marks to the third.
fn begun_after_two<R: Threads + Sync + Abort>(rt: &R, alloc: Global) -> Begun
    ensures opening { result.shared.opening ≡ 2 }
    ensures marks { length result.shared.task.marks ≡ 3 }
    ensures plain { result.shared.task.scene.informed ≡ false }
    ensures hall { result.hall ≡ space_of result.shared.task.scene }
    ensures may_claim { MayClaim result.shared result.pass }
{
    let task = marks_in_square(rt, alloc, 100, 50, 1000, &MARKS);
    begun_after(rt, alloc, task, 2)
}

/// Claims the third mark.
fn take_mark(shared: &Shared, pass: &mut Pass) -> Option<u32>
    requires may_claim { MayClaim shared.now pass.old }
    requires opening { shared.now.opening ≡ 2 }
    requires marks { length shared.now.task.marks ≡ 3 }
    ensures { IfSome result (λ k. HoldsMark shared.now k Claimed 0 pass.new) }
{
    shared.claim(pass, 3)
}

/// Writes the point of the mark in hand, steered from the node that is nearest to it, which is returned.
fn write_near(shared: &Shared, pass: &mut Pass, mark: u32) -> u32
    requires holds { HoldsMark shared.now mark Claimed 0 pass.old }
    requires plain { shared.now.task.scene.informed ≡ false }
    ensures { HoldsMark shared.now mark Pointed result pass.new }
{
    let towards = shared.task().marks.as_slice()[mark as usize];
    let node = nearest(shared, pass, towards);
    let from = shared.point(pass, node);
    let p = steer(from, towards, shared.task().scene.step);
    shared.write_point(pass, node, p);
    node
}

/// The radius of the count of nodes that is loaded.
fn load_radius<R: Abort>(rt: &R, shared: &Shared, pass: &mut Pass, mark: u32, nearest: u32) -> u32
    requires { HoldsMark shared.now mark Pointed nearest pass.old }
    ensures holds { HoldsMark shared.now mark Pointed nearest pass.new }
    ensures short { result ≤ shared.now.task.scene.step }
{
    let count = shared.number(pass);
    assert_eq!(rt; count, 3);
    let scene = &shared.task().scene;
    let radius = Radii::new(scene.step, scene.gamma).at(3);
    if radius > scene.step {
        panic!(rt; "the radius is too great");
    }
    radius
}

/// Fills the near list with the nodes within a radius of the point in hand.
fn fill_near(shared: &Shared, pass: &mut Pass, mark: u32, nearest: u32, radius: u32)
    requires holds { HoldsMark shared.now mark Pointed nearest pass.old }
    requires short { radius ≤ shared.now.task.scene.step }
    ensures holds { HoldsMark shared.now mark Pointed nearest pass.new }
    ensures near { HasNearInReach pass.new }
{
    let p = pass.hand_point();
    near(shared, pass, p, radius);
}

/// Chooses a parent for the node in hand, and writes it with the cost. `None` if the segment from the nearest node is not clear.
fn hang(
    shared: &Shared,
    hall: &Hall,
    pass: &mut Pass,
    mark: u32,
    nearest: u32,
) -> Option<(u32, u64)>
    requires holds { HoldsMark shared.now mark Pointed nearest pass.old }
    requires near { HasNearInReach pass.old }
    requires hall { hall.now ≡ space_of shared.now.task.scene }
    ensures holds { IfSome result (λ _. HoldsMark shared.now mark Treed nearest pass.new) }
    ensures near { IfSome result (λ _. HasNearInReach pass.new) }
{
    let p = pass.hand_point();
    let from = shared.point(pass, nearest);
    if !hall.clear(from, p) {
        return None;
    }
    let (parent, cost) = choose(shared, pass, hall, p, nearest);
    shared.write_tree(pass, parent, cost);
    Some((parent, cost))
}

/// Places the node of the mark in hand.
fn place_mark(shared: &Shared, pass: &mut Pass, mark: u32, nearest: u32) -> Placing
    requires holds { HoldsMark shared.now mark Treed nearest pass.old }
    requires near { HasNearInReach pass.old }
    requires plain { shared.now.task.scene.informed ≡ false }
    ensures { IfPlaced result (MayRewire shared.now mark pass.new) }
{
    place(shared, pass, mark)
}

/// Claims the third mark, and writes its point. Returns its number and that of the nearest node.
fn begin_third<R: Abort>(rt: &R, shared: &Shared, pass: &mut Pass) -> (u32, u32)
    requires may_claim { MayClaim shared.now pass.old }
    requires opening { shared.now.opening ≡ 2 }
    requires marks { length shared.now.task.marks ≡ 3 }
    requires plain { shared.now.task.scene.informed ≡ false }
    ensures { HoldsMark shared.now result.0 Pointed result.1 pass.new }
{
    let Some(mark) = take_mark(shared, pass) else {
        panic!(rt; "no mark is left")
    };
    let closest = write_near(shared, pass, mark);
    assert_eq!(rt; (mark, closest), (2, 1));
    (mark, closest)
}

/// Hangs its node below the start, which is not the nearest node.
fn hang_third<R: Abort>(
    rt: &R,
    shared: &Shared,
    hall: &Hall,
    pass: &mut Pass,
    mark: u32,
    nearest: u32,
)
    requires holds { HoldsMark shared.now mark Pointed nearest pass.old }
    requires hall { hall.now ≡ space_of shared.now.task.scene }
    ensures holds { HoldsMark shared.now mark Treed nearest pass.new }
    ensures near { HasNearInReach pass.new }
{
    let radius = load_radius(rt, shared, pass, mark, nearest);
    fill_near(shared, pass, mark, nearest, radius);
    let Some(choice) = hang(shared, hall, pass, mark, nearest) else {
        panic!(rt; "the segment is not clear")
    };
    assert_eq!(rt; choice, (0, 12_800));
}

/// Rewires the near nodes below the node of the mark in hand, which is placed.
fn rewire_placed(shared: &Shared, hall: &Hall, pass: &mut Pass, mark: u32)
    requires may { MayRewire shared.now mark pass.old }
    requires hall { hall.now ≡ space_of shared.now.task.scene }
    ensures { IsAtWork shared.now pass.new }
{
    rewire(shared, pass, hall, mark);
}

/// Places the node, and rewires the near ones.
fn rewire_third<R: Abort>(
    rt: &R,
    shared: &Shared,
    hall: &Hall,
    pass: &mut Pass,
    mark: u32,
    nearest: u32,
)
    requires holds { HoldsMark shared.now mark Treed nearest pass.old }
    requires near { HasNearInReach pass.old }
    requires hall { hall.now ≡ space_of shared.now.task.scene }
    requires plain { shared.now.task.scene.informed ≡ false }
    ensures { IsAtWork shared.now pass.new }
{
    let Placing::Placed = place_mark(shared, pass, mark, nearest) else {
        panic!(rt; "another node stands there")
    };
    rewire_placed(shared, hall, pass, mark);
}

/// Handles the third mark, below whose node that of the second then hangs.
fn expect_rewired<R: Abort>(rt: &R, shared: &Shared, hall: &Hall, pass: &mut Pass)
    requires may_claim { MayClaim shared.now pass.old }
    requires opening { shared.now.opening ≡ 2 }
    requires marks { length shared.now.task.marks ≡ 3 }
    requires hall { hall.now ≡ space_of shared.now.task.scene }
    requires plain { shared.now.task.scene.informed ≡ false }
{
    let (mark, closest) = begin_third(rt, shared, pass);
    hang_third(rt, shared, hall, pass, mark, closest);
    rewire_third(rt, shared, hall, pass, mark, closest);
    expect_pair(rt, shared, pass, FAR, (3, 25_344));
}

#[test]
fn a_near_node_is_rewired_below_a_new_one(rt: HostRuntime) {
    let mut begun = begun_after_two(&rt, rt.alloc());
    expect_rewired(&rt, &begun.shared, &begun.hall, &mut begun.pass);
    drop(begun);
}
