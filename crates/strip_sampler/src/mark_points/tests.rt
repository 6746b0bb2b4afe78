//! Marks that are listed, and marks that are drawn. What is drawn was worked out apart from the planner.

ghost use Rattle.std.specs.Prelude.{◌≡◌, ◌≤◌, IsTrue, Ok};
ghost use Rattle.plan_model.specs.Scenes.Limits.{IsBetween, is_body, is_plan};
ghost use Rattle.plan_model.specs.declared.scenes.Marks.TheVariants.{Drawn};
ghost use Rattle.plan_model.specs.declared.limits.TheConstants.{LEAST_SIDE, LEAST_STRIPS, MOST_SIDE, MOST_STRIPS};

use super::*;
use plan_model::{Goal, MOST_MARKS, Point, SmallScene, Vertex};
use std::alloc::AllocError;
use std::process::Abort;

/// What was made, for which memory lasts. A test ends here if none is left, so that no value is dropped on the way.
fn sure<R: Abort, T>(rt: &R, made: Result<T, Memory>) -> T
    ensures { made ≡ Ok result }
{
    match made {
        Ok(value) => value,
        Err(error) => panic!(rt; "{error}"),
    }
}

/// The copy of a list, for which memory lasts.
fn copied<R: Abort, T>(rt: &R, made: Result<Vec<T>, AllocError>) -> Vec<T>
    ensures { made ≡ Ok result }
{
    match made {
        Ok(values) => values,
        Err(_) => panic!(rt; "no memory"),
    }
}

/// The words by which marks are drawn begin at this seed, in so many strips.
#[derive(Clone, Copy)]
struct Draw {
    seed: u64,
    strips: u32,
}

/// A scene without obstacles.
fn open_scene<R: Abort>(
    rt: &R,
    alloc: Global,
    room: Point,
    body: &[Vertex],
    draw: Draw,
    plan: Marks,
) -> Scene
    requires room { IsBetween LEAST_SIDE MOST_SIDE room }
    requires body { IsTrue (is_body body.now) }
    requires strips_low { LEAST_STRIPS ≤ draw.strips }
    requires strips_high { draw.strips ≤ MOST_STRIPS }
    requires plan { IsTrue (is_plan 1 plan) }
    ensures room { result.room ≡ room }
    ensures body { result.body ≡ body.now }
    ensures plan { result.plan ≡ plan }
{
    let small = SmallScene {
        room,
        start: Point { x: 0, y: 0 },
        goal: Goal {
            low: Point { x: 0, y: 0 },
            high: Point { x: 0, y: 0 },
        },
        step: 4,
        gamma: 0,
        seed: draw.seed,
        strips: draw.strips,
    };
    let body = Sequence::from_vec(copied(rt, body.to_vec(alloc)));
    let obstacles = Sequence::from_vec(Vec::new(alloc));
    sure(rt, small.scene(alloc, body, obstacles, plan))
}

/// So many marks of a point body, drawn in a room whose sides are as long as each other.
fn drawn_marks<R: Abort>(
    rt: &R,
    alloc: Global,
    side: u32,
    seed: u64,
    strips: u32,
    count: u32,
) -> Points
    requires side_low { LEAST_SIDE ≤ side }
    requires side_high { side ≤ MOST_SIDE }
    requires strips_low { LEAST_STRIPS ≤ strips }
    requires strips_high { strips ≤ MOST_STRIPS }
    requires count { IsTrue (is_plan 1 (Drawn count)) }
{
    let room = Point { x: side, y: side };
    let body = [Vertex { x: 0, y: 0 }];
    let scene = open_scene(
        rt,
        alloc,
        room,
        &body,
        Draw { seed, strips },
        Marks::Drawn(count),
    );
    let drawn = sure(rt, marks(alloc, &scene));
    drop(scene);
    drawn
}

/// Asserts that points are these.
fn assert_points<R: Abort>(rt: &R, points: Points, want: &[Point]) {
    assert!(rt; points.as_slice() == want);
    drop(points);
}

#[test]
fn listed_marks_stay(rt: HostRuntime) {
    // the second lies outside of the room, and the third is the first again
    let listed = [
        Point { x: 60, y: 80 },
        Point { x: 65_535, y: 0 },
        Point { x: 60, y: 80 },
    ];
    let points = copied(&rt, listed.to_vec(rt.alloc()));
    let plan = Marks::Listed(Sequence::from_vec(points));
    let room = Point { x: 99, y: 99 };
    let body = [Vertex { x: 0, y: 0 }];
    let draw = Draw { seed: 7, strips: 3 };
    let scene = open_scene(&rt, rt.alloc(), room, &body, draw, plan);
    let points = sure(&rt, marks(rt.alloc(), &scene));
    assert_points(&rt, points, &listed);
    drop(scene);
}

#[test]
fn no_marks_are_drawn(rt: HostRuntime) {
    let drawn = drawn_marks(&rt, rt.alloc(), 99, 0, 1, 0);
    assert!(rt; drawn.is_empty());
    drop(drawn);
}

#[test]
fn marks_are_drawn_from_their_strips(rt: HostRuntime) {
    let drawn = drawn_marks(&rt, rt.alloc(), 99, 5, 3, 6);
    let want = [
        Point { x: 12, y: 75 },
        Point { x: 57, y: 44 },
        Point { x: 79, y: 1 },
        Point { x: 20, y: 61 },
        Point { x: 55, y: 75 },
        Point { x: 67, y: 73 },
    ];
    assert_points(&rt, drawn, &want);
}

#[test]
fn marks_keep_the_body_from_the_walls(rt: HostRuntime) {
    let body = [
        Vertex { x: -3, y: 0 },
        Vertex { x: 4, y: -2 },
        Vertex { x: 0, y: 5 },
    ];
    let room = Point { x: 99, y: 99 };
    let draw = Draw { seed: 5, strips: 3 };
    let scene = open_scene(&rt, rt.alloc(), room, &body, draw, Marks::Drawn(3));
    let drawn = sure(&rt, marks(rt.alloc(), &scene));
    drop(scene);
    let want = [
        Point { x: 14, y: 71 },
        Point { x: 56, y: 43 },
        Point { x: 77, y: 3 },
    ];
    assert_points(&rt, drawn, &want);
}

#[test]
fn few_columns_are_one_strip(rt: HostRuntime) {
    let drawn = drawn_marks(&rt, rt.alloc(), 2, 5, 64, 3);
    let xs = [1, 2, 1];
    for (mark, x) in drawn.as_slice().iter().zip(&xs) {
        assert!(rt; mark.x == *x);
    }
    drop(drawn);
}

#[test]
fn seed_and_mark_are_added(rt: HostRuntime) {
    let first = Point { x: 88, y: 43 };
    let from_0 = drawn_marks(&rt, rt.alloc(), 99, 0, 1, 1);
    assert_points(&rt, from_0, &[first]);
    // the state of the second mark is 2^64, which is 0 again
    let from_greatest = drawn_marks(&rt, rt.alloc(), 99, u64::MAX, 1, 2);
    assert!(rt; from_greatest.as_slice().get(1) == Some(&first));
    drop(from_greatest);
}

#[test]
fn a_longer_plan_begins_alike(rt: HostRuntime) {
    let short = drawn_marks(&rt, rt.alloc(), 99, 7, 3, 5);
    let long = drawn_marks(&rt, rt.alloc(), 99, 7, 3, 11);
    assert!(rt; long.as_slice().starts_with(short.as_slice()));
    assert!(rt; long.len() == 11);
    drop(short);
    drop(long);
}

#[test]
fn the_greatest_plan_is_drawn(rt: HostRuntime) {
    let drawn = drawn_marks(&rt, rt.alloc(), 65_535, 2026, 64, MOST_MARKS);
    assert!(rt; drawn.len() == 262_143);
    let first = Point { x: 878, y: 30_908 };
    assert!(rt; drawn.as_slice().first() == Some(&first));
    let last = Point {
        x: 63_694,
        y: 37_741,
    };
    assert!(rt; drawn.as_slice().last() == Some(&last));
    drop(drawn);
}
