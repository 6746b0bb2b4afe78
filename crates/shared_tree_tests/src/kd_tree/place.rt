//! Two passes whose points lead to one place of the kd-tree, and a pass that comes to a point second.

ghost use Rattle.std.specs.Prelude.{◌≡◌, ◌≤◌, IsTrue, length};
ghost use Rattle.shared_tree_tests.specs.SteeredPasses.HeldMarks.{HoldsMark, SteersFrom};
ghost use Rattle.plan_model.specs.Spaces.Clearance.{ClearAt};
ghost use Rattle.plan_model.specs.Spaces.ConfigurationSpace.{space_of};
ghost use Rattle.plan_model.specs.Scenes.Limits.{is_plan};
ghost use Rattle.plan_model.specs.declared.scenes.Marks.TheVariants.{Listed};
ghost use Rattle.plan_words.specs.States.{BelongsTo, MayClaim};
ghost use Rattle.step_core.specs.declared.views.Stage.TheVariants.{Claimed, Pointed};

use crate::kd_tree::searches::{expect_near, expect_nearest};
use crate::kd_tree::support::{Steering, place_and_finish, take_mark, write_from_nearest};
use crate::support::{TwoPasses, some, sure, two_over};
use kd_shared::{Placing, find};
use plan_model::{Goal, Point, SmallScene, Task};
use plan_words::{Pass, Shared};
use std::alloc::Global;
use std::process::Abort;
use swept_check::Hall;

const ABOVE: Point = Point { x: 0, y: 50 };

const FAR: Point = Point { x: 40, y: 79 };

const MIDDLE: Point = Point { x: 22, y: 44 };

const RIGHT: Point = Point { x: 40, y: 30 };

/// These marks in a small room, from a corner of it.
fn small_task<R: Abort>(rt: &R, alloc: Global, marks: &[Point]) -> Task
    requires { IsTrue (is_plan 1 (Listed marks.now)) }
    ensures clear { ClearAt (space_of result.scene) result.scene.start }
    ensures marks { result.marks ≡ marks.now }
{
    let small = SmallScene {
        room: Point { x: 100, y: 100 },
        start: Point { x: 0, y: 0 },
        goal: Goal {
            low: FAR,
            high: FAR,
        },
        step: 50,
        gamma: 0,
        seed: 0,
        strips: 1,
    };
    sure(rt, small.task(alloc, marks))
}

/// Two passes over these marks in a small room.
fn two_passes<R: Abort>(rt: &R, alloc: Global, marks: &[Point]) -> TwoPasses
    requires { IsTrue (is_plan 1 (Listed marks.now)) }
    ensures opening { result.shared.opening ≡ 0 }
    ensures marks { result.shared.task.marks ≡ marks.now }
    ensures first { MayClaim result.shared result.first }
    ensures second { MayClaim result.shared result.second }
{
    let task = small_task(rt, alloc, marks);
    two_over(rt, alloc, task)
}

/// Claims this mark, the next one below the limit.
fn claim_mark<R: Abort>(rt: &R, shared: &Shared, pass: &mut Pass, limit: u32, mark: u32)
    requires may_claim { MayClaim shared.now pass.old }
    requires low { shared.now.opening ≤ limit }
    requires limit { limit ≤ length shared.now.task.marks }
    ensures { HoldsMark shared.now mark Claimed pass.new }
{
    let claimed = some(rt, take_mark(shared, pass, limit));
    assert!(rt; claimed == mark, "mark {claimed} in place of mark {mark}");
}

/// Claims this mark, the next one below the limit, and writes its point, steered from the nearest node to where it must come.
fn begin_mark<R: Abort>(
    rt: &R,
    shared: &Shared,
    pass: &mut Pass,
    limit: u32,
    mark: u32,
    want: Point,
) -> Steering
    requires may_claim { MayClaim shared.now pass.old }
    requires low { shared.now.opening ≤ limit }
    requires limit { limit ≤ length shared.now.task.marks }
    ensures holds { HoldsMark shared.now result.mark Pointed pass.new }
    ensures steers { SteersFrom result.nearest pass.new.view }
{
    assert!(rt; !shared.task().scene.informed, "marks may be skipped");
    claim_mark(rt, shared, pass, limit, mark);
    let steering = write_from_nearest(shared, pass, mark);
    assert!(rt; steering.point == want, "the point of mark {mark}");
    steering
}

/// Finds no node at the point that was written for the mark in hand.
fn expect_free<R: Abort>(rt: &R, shared: &Shared, pass: &mut Pass, steering: Steering)
    requires holds { HoldsMark shared.now steering.mark Pointed pass.old }
    requires steers { SteersFrom steering.nearest pass.old.view }
    ensures holds { HoldsMark shared.now steering.mark Pointed pass.new }
    ensures steers { SteersFrom steering.nearest pass.new.view }
{
    let found = find(shared, pass, steering.point);
    assert!(rt; found.is_none(), "for mark {}", steering.mark);
}

/// Places the node of a mark that was steered to, and compares how that ended.
fn expect_placing<R: Abort>(
    rt: &R,
    shared: &Shared,
    hall: &Hall,
    pass: &mut Pass,
    steering: Steering,
    want: Placing,
)
    requires holds { HoldsMark shared.now steering.mark Pointed pass.old }
    requires steers { SteersFrom steering.nearest pass.old.view }
    requires hall { hall.now ≡ space_of shared.now.task.scene }
    ensures { MayClaim shared.now pass.new }
{
    let placing = some(
        rt,
        place_and_finish(shared, hall, pass, steering.mark, steering.nearest),
    );
    assert!(rt; placing == want, "{placing:?} for mark {}", steering.mark);
}

/// Asserts how many nodes there are.
fn expect_number<R: Abort>(rt: &R, shared: &Shared, pass: &mut Pass, want: u32)
    requires { BelongsTo pass.old shared.now }
{
    let nodes = shared.number(pass);
    assert!(rt; nodes == want, "{nodes} nodes");
}

/// Two passes come to one place of the kd-tree, which both see empty, and both place their nodes.
fn place_both<R: Abort>(rt: &R, shared: &Shared, hall: &Hall, first: &mut Pass, second: &mut Pass)
    requires first { MayClaim shared.now first.old }
    requires second { MayClaim shared.now second.old }
    requires hall { hall.now ≡ space_of shared.now.task.scene }
    requires opening { shared.now.opening ≡ 0 }
    requires marks { length shared.now.task.marks ≡ 3 }
    ensures { BelongsTo first.new shared.now }
{
    let upper = begin_mark(rt, shared, first, 3, 0, ABOVE);
    let middle = begin_mark(rt, shared, second, 3, 1, MIDDLE);
    expect_free(rt, shared, first, upper);
    expect_free(rt, shared, second, middle);
    expect_placing(rt, shared, hall, first, upper, Placing::Placed);
    expect_placing(rt, shared, hall, second, middle, Placing::Placed);
}

/// Asserts which node stands at a point.
fn expect_found<R: Abort>(rt: &R, shared: &Shared, pass: &mut Pass, p: Point, want: u32)
    requires { BelongsTo pass.old shared.now }
    ensures { BelongsTo pass.new shared.now }
{
    let found = some(rt, find(shared, pass, p));
    assert!(rt; found == want, "node {found}");
}

/// Asserts what a pass finds of the two nodes that were placed.
fn expect_both<R: Abort>(rt: &R, shared: &Shared, pass: &mut Pass)
    requires { BelongsTo pass.old shared.now }
{
    expect_found(rt, shared, pass, MIDDLE, 2);
    expect_nearest(rt, shared, pass, FAR, 2);
    expect_near(rt, shared, pass, ABOVE, 23, &[1, 2]);
    expect_number(rt, shared, pass, 3);
}

#[test]
fn the_second_at_a_place_goes_one_node_deeper(rt: HostRuntime) {
    let mut two = two_passes(&rt, rt.alloc(), &[ABOVE, FAR, RIGHT]);
    let hall = sure(&rt, Hall::new(rt.alloc(), &two.shared.task().scene));
    place_both(&rt, &two.shared, &hall, &mut two.first, &mut two.second);
    drop(hall);
    expect_both(&rt, &two.shared, &mut two.first);
    drop(two);
}

/// The first pass sees no node at a point, and comes there after the second has placed one.
fn place_after<R: Abort>(rt: &R, shared: &Shared, hall: &Hall, first: &mut Pass, second: &mut Pass)
    requires first { MayClaim shared.now first.old }
    requires second { MayClaim shared.now second.old }
    requires hall { hall.now ≡ space_of shared.now.task.scene }
    requires opening { shared.now.opening ≡ 0 }
    requires marks { length shared.now.task.marks ≡ 2 }
    ensures { BelongsTo first.new shared.now }
{
    let upper = begin_mark(rt, shared, first, 2, 0, ABOVE);
    let also = begin_mark(rt, shared, second, 2, 1, ABOVE);
    expect_free(rt, shared, first, upper);
    expect_placing(rt, shared, hall, second, also, Placing::Placed);
    expect_placing(rt, shared, hall, first, upper, Placing::Same(2));
}

#[test]
fn the_second_at_a_point_is_told_the_first(rt: HostRuntime) {
    let mut two = two_passes(&rt, rt.alloc(), &[ABOVE, ABOVE]);
    let hall = sure(&rt, Hall::new(rt.alloc(), &two.shared.task().scene));
    place_after(&rt, &two.shared, &hall, &mut two.first, &mut two.second);
    drop(hall);
    expect_number(&rt, &two.shared, &mut two.first, 2);
    drop(two);
}
