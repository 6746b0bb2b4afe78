//! Marks that two passes of one thread handle in turn.

ghost use Rattle.std.specs.Prelude.{◌≡◌, ◌∷◌, [], IfOk, IsTrue, length};
ghost use Rattle.plan_model.specs.Spaces.Clearance.{ClearAt};
ghost use Rattle.plan_model.specs.Spaces.ConfigurationSpace.{space_of};
ghost use Rattle.plan_model.specs.Scenes.Limits.{are_obstacles, is_plan};
ghost use Rattle.plan_model.specs.declared.scenes.Marks.TheVariants.{Listed};
ghost use Rattle.growing_tests.specs.Shares.Sharers.{HasShare};

use crate::workers::support::{
    Ending, TO_REWIRE, assert_ending, assert_extended, assert_found, small_task, sure, two_passes,
};
use plan_model::{
    Goal, Marks, Memory, Outcome, Point, Poly, Polys, Scene, Sequence, SmallScene, Task, Vertex,
};
use plan_words::{Pass, Shared};
use std::alloc::Global;
use std::process::Abort;
use swept_check::Hall;

/// The point that mark 0 steers to.
const ABOVE: Point = Point { x: 0, y: 50 };

static REWIRED: Ending = Ending {
    count: 4,
    records: &[
        (0, 0, 0, Outcome::Placed, 0, 12_800, 1),
        (1, 0, 1, Outcome::Placed, 1, 25_449, 2),
        (0, 1, 1, Outcome::Placed, 0, 12_800, 2),
    ],
    nodes: &[
        Some((0, 0, 0, 0)),
        Some((0, 50, 0, 12_800)),
        Some((40, 79, 3, 25_344)),
        Some((40, 30, 0, 12_800)),
    ],
};

/// Asserts that two passes handle three marks in turn, and what the first sees between.
fn assert_rewired<R: Abort>(
    rt: &R,
    shared: &Shared,
    hall: &Hall,
    first: &mut Pass,
    second: &mut Pass,
)
    requires first { HasShare shared.now 1 first.old }
    requires second { HasShare shared.now 1 second.old }
    requires hall { hall.now ≡ space_of shared.now.task.scene }
    requires opening { shared.now.opening ≡ 0 }
    requires marks { length shared.now.task.marks ≡ 3 }
    ensures first { HasShare shared.now 1 first.new }
    ensures second { HasShare shared.now 1 second.new }
{
    assert_extended(rt, shared, hall, first, 0, &REWIRED);
    assert_found(rt, shared, first, ABOVE, (1, (0, 12_800)));
    assert_extended(rt, shared, hall, second, 1, &REWIRED);
    assert_extended(rt, shared, hall, first, 2, &REWIRED);
}

#[test]
fn two_passes_grow_one_tree(rt: HostRuntime) {
    let task = small_task(&rt, rt.alloc(), &TO_REWIRE);
    let (shared, hall, mut first, mut second) = two_passes(&rt, rt.alloc(), task);
    assert_rewired(&rt, &shared, &hall, &mut first, &mut second);
    drop(hall);
    assert_ending(&rt, shared, first, second, &REWIRED);
}

/// The list of these values.
fn list_of<T: Copy>(alloc: Global, items: &[T]) -> Result<Sequence<T>, Memory>
    ensures { IfOk result (λ list. list ≡ items.now) }
{
    Ok(Sequence::from_vec(Vec::from_slice(alloc, items)?))
}

/// The list of this obstacle alone.
fn only(alloc: Global, obstacle: Poly) -> Result<Polys, Memory>
    ensures { IfOk result (λ obstacles. obstacles ≡ obstacle ∷ []) }
{
    Ok(Sequence::from_vec(vec![in alloc; obstacle]?))
}

/// A body that is a point.
static BODY: [Vertex; 1] = [Vertex { x: 0, y: 0 }];

/// A wall that stands to the right of the start.
static WALL: [Vertex; 4] = [
    Vertex { x: 20, y: 0 },
    Vertex { x: 30, y: 0 },
    Vertex { x: 30, y: 60 },
    Vertex { x: 20, y: 60 },
];

/// The wall, which is the only obstacle.
fn wall<R: Abort>(rt: &R, alloc: Global) -> Polys
    ensures { IsTrue (are_obstacles 1 result) }
{
    let obstacle = sure(rt, list_of(alloc, &WALL));
    sure(rt, only(alloc, obstacle))
}

/// The scene of these marks for a point body in a room of 100 by 100, with the wall.
fn walled_scene<R: Abort>(rt: &R, alloc: Global, marks: &[Point]) -> Scene
    requires { IsTrue (is_plan 1 (Listed marks.now)) }
    ensures { result.plan ≡ Listed marks.now }
{
    let body = sure(rt, list_of(alloc, &BODY));
    let obstacles = wall(rt, alloc);
    let plan = Marks::Listed(sure(rt, list_of(alloc, marks)));
    let small = SmallScene {
        room: Point { x: 100, y: 100 },
        start: Point { x: 0, y: 0 },
        goal: Goal {
            low: Point { x: 90, y: 90 },
            high: Point { x: 99, y: 99 },
        },
        step: 50,
        gamma: 1000,
        seed: 0,
        strips: 1,
    };
    sure(rt, small.scene(alloc, body, obstacles, plan))
}

/// The task of these marks in that scene.
fn walled_task<R: Abort>(rt: &R, alloc: Global, marks: &[Point]) -> Task
    requires { IsTrue (is_plan 1 (Listed marks.now)) }
    ensures { result.marks ≡ marks.now }
{
    let scene = walled_scene(rt, alloc, marks);
    let marks = sure(rt, list_of(alloc, marks));
    Task { scene, marks }
}

/// Asserts that the start of a scene is clear.
fn assert_start_clear<R: Abort>(rt: &R, alloc: Global, scene: &Scene)
    ensures { ClearAt (space_of scene.now) scene.now.start }
{
    let hall = sure(rt, Hall::new(alloc, scene));
    assert!(rt; hall.clear_at(scene.start));
    drop(hall);
}

/// The task of these marks in the room with the wall, where its start is clear.
fn task_by_wall<R: Abort>(rt: &R, alloc: Global, marks: &[Point]) -> Task
    requires { IsTrue (is_plan 1 (Listed marks.now)) }
    ensures clear { ClearAt (space_of result.scene) result.scene.start }
    ensures marks { result.marks ≡ marks.now }
{
    let task = walled_task(rt, alloc, marks);
    assert_start_clear(rt, alloc, &task.scene);
    task
}

/// Asserts how many nodes are counted.
fn assert_number<R: Abort>(rt: &R, shared: &Shared, pass: &mut Pass, want: u32)
    requires { HasShare shared.now 1 pass.old }
    ensures { HasShare shared.now 1 pass.new }
{
    let nodes = shared.number(pass);
    assert!(rt; nodes == want);
}

static BLOCKED: Ending = Ending {
    count: 2,
    records: &[
        (0, 0, 0, Outcome::Placed, 0, 12_800, 1),
        (1, 0, 1, Outcome::Same(1), 0, 0, 0),
        (0, 1, 0, Outcome::Blocked, 0, 0, 0),
    ],
    nodes: &[Some((0, 0, 0, 0)), Some((0, 50, 0, 12_800)), None, None],
};

static ON_ANOTHER_AND_BEHIND: [Point; 3] = [ABOVE, ABOVE, Point { x: 40, y: 10 }];

/// Asserts that two passes handle three marks in turn, and count two nodes after each.
fn assert_blocked<R: Abort>(
    rt: &R,
    shared: &Shared,
    hall: &Hall,
    first: &mut Pass,
    second: &mut Pass,
)
    requires first { HasShare shared.now 1 first.old }
    requires second { HasShare shared.now 1 second.old }
    requires hall { hall.now ≡ space_of shared.now.task.scene }
    requires opening { shared.now.opening ≡ 0 }
    requires marks { length shared.now.task.marks ≡ 3 }
    ensures first { HasShare shared.now 1 first.new }
    ensures second { HasShare shared.now 1 second.new }
{
    assert_extended(rt, shared, hall, first, 0, &BLOCKED);
    assert_number(rt, shared, first, 2);
    assert_extended(rt, shared, hall, second, 1, &BLOCKED);
    assert_number(rt, shared, second, 2);
    assert_extended(rt, shared, hall, first, 2, &BLOCKED);
    assert_number(rt, shared, first, 2);
}

#[test]
fn no_node_is_placed_on_another_or_behind_a_wall(rt: HostRuntime) {
    let task = task_by_wall(&rt, rt.alloc(), &ON_ANOTHER_AND_BEHIND);
    let (shared, hall, mut first, mut second) = two_passes(&rt, rt.alloc(), task);
    assert_blocked(&rt, &shared, &hall, &mut first, &mut second);
    drop(hall);
    assert_ending(&rt, shared, first, second, &BLOCKED);
}
