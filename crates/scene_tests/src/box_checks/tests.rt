//! How many zones are tested exactly.
//!
//! A counter of steps takes no bytes, so no program can read it. Here the zones are counted whose box meets a segment's, and
//! the contract of `counted` says that the steps are as many.

ghost use Rattle.std.specs.Prelude.{◌≡◌, ◌+◌, ◌<◌, ◌≤◌, IfOk, IsTrue, List, false};
ghost use Rattle.plan_model.specs.Spaces.ConfigurationSpace.{InRoom, at_lattice};
ghost use Rattle.plan_model.specs.Geometry.Plane.{IsBounded};
ghost use Rattle.plan_model.specs.Scenes.Limits.{are_obstacles};
ghost use Rattle.plan_model.specs.declared.limits.TheConstants.{MOST_CLEARANCE};
ghost use Rattle.obstacle_boxes.specs.Trees.{AreZoneBoxes, near_count};

use crate::box_checks::support::{boxes_of, polygon, scene, sure};
use convex_sets::BoundingBox;
use obstacle_boxes::Boxes;
use plan_model::{MOST_COORDINATE, Memory, Point, Polys, Sequence, Vertex};
use std::alloc::Global;
use std::marker::Brand;
use std::process::Abort;
use std::sync::ledger::{Blank, Ledger};
use swept_check::{Clearing, Steps};

/// The least box round each zone.
fn zone_boxes(alloc: Global, boxes: &Boxes) -> Result<Vec<BoundingBox>, Memory>
    ensures { IfOk result (λ all. AreZoneBoxes boxes.now all.items) }
{
    let mut all = Vec::new(alloc);
    for zone in boxes.zones() {
        all.push(zone.bounding_box())?;
    }
    Ok(all)
}

/// How many boxes meet that of the segment.
fn near_boxes(all: &[BoundingBox], a: Point, b: Point) -> usize
    requires from { IsBounded a }
    requires to { IsBounded b }
    ensures { result ≡ near_count all.now a b }
{
    let segment = BoundingBox::of_segment(a, b);
    let mut count = 0;
    for bounds in all {
        if segment.meets(*bounds) {
            count += 1;
        }
    }
    count
}

/// The answer of `tests`, and how many zones are near, by the boxes of all zones. If the answer is true, the steps are as many; if
/// it is false between points of the room, there is a step, and there are no more than that.
fn counted<L: Ledger>(
    boxes: &Boxes,
    all: &[BoundingBox],
    a: Point,
    b: Point,
    steps: &mut Steps<L>,
) -> (bool, usize)
    requires from { IsBounded a }
    requires to { IsBounded b }
    requires boxes { AreZoneBoxes boxes.now all.now }
    ensures all { IsTrue result.0 → steps.new ≡ steps.old + result.1 }
    ensures few { steps.new ≤ steps.old + result.1 }
    ensures some { result.0 ≡ false → InRoom boxes.now (at_lattice a) → InRoom boxes.now (at_lattice b) → steps.old < steps.new }
    ensures outside { ¬ (InRoom boxes.now (at_lattice a) × InRoom boxes.now (at_lattice b)) → steps.new ≡ steps.old }
{
    (boxes.tests(a, b, steps), near_boxes(all, a, b))
}

/// The same with a counter of its own, for a segment that is tested by `clear` too.
fn answer<L: Ledger>(
    rt: &impl Abort,
    boxes: &Boxes,
    all: &[BoundingBox],
    from: (u32, u32),
    to: (u32, u32),
    blank: Blank,
) -> (bool, usize)
    requires all { AreZoneBoxes boxes.now all.now }
    requires name { blank.name ≡ L.name }
    requires parts { blank.parts ≡ L.parts }
    requires some { 0 < blank.parts }
{
    let a = Point {
        x: from.0,
        y: from.1,
    };
    let b = Point { x: to.0, y: to.1 };
    assert!(rt; a.x.max(a.y).max(b.x).max(b.y) <= MOST_COORDINATE);
    let mut steps = Steps::<L>::new(blank);
    let answer = counted(boxes, all, a, b, &mut steps);
    assert!(rt; boxes.clear(a, b) == answer.0);
    answer
}

static SQUARE: [Vertex; 4] = [
    Vertex { x: 40, y: 0 },
    Vertex { x: 60, y: 0 },
    Vertex { x: 60, y: 60 },
    Vertex { x: 40, y: 60 },
];

static TRIANGLE: [Vertex; 3] = [
    Vertex { x: 10, y: 10 },
    Vertex { x: 20, y: 10 },
    Vertex { x: 10, y: 20 },
];

/// A square, and a small triangle beside it.
fn two<R: Abort>(rt: &R, alloc: Global) -> Polys
    ensures { IsTrue (are_obstacles 2 result) }
{
    let square = polygon(rt, alloc, &SQUARE);
    let triangle = polygon(rt, alloc, &TRIANGLE);
    Sequence::from_vec(sure(rt, vec![in alloc; square, triangle]))
}

/// The ends of a segment, whether it is clear, and how many boxes meet its own.
type Case = ((u32, u32), (u32, u32), bool, usize);

static WITHOUT_CLEARANCE: [Case; 4] = [
    ((30, 61), (70, 61), true, 0),
    ((30, 5), (9, 26), true, 1),
    ((30, 0), (70, 61), false, 1),
    // an end outside of the room: no step, whichever boxes are near
    ((0, 0), (101, 0), false, 1),
];

/// With a clearance of 5.
static WITH_CLEARANCE: [Case; 5] = [
    ((30, 61), (70, 61), false, 1),
    ((30, 66), (70, 66), true, 0),
    ((30, 5), (9, 26), false, 1),
    ((31, 10), (10, 31), true, 1),
    ((26, 0), (34, 100), true, 0),
];

/// Asserts the answer to the segment of a case.
fn expect(rt: &impl Abort, boxes: &Boxes, all: &[BoundingBox], case: &Case)
    requires { AreZoneBoxes boxes.now all.now }
{
    let (is_clear, near) = answer::<Brand>(rt, boxes, all, case.0, case.1, Blank::new(1));
    assert!(rt; is_clear == case.2);
    assert!(rt; near == case.3);
}

/// The same of each case.
fn expect_each(rt: &impl Abort, boxes: &Boxes, all: &[BoundingBox], cases: &[Case])
    requires { AreZoneBoxes boxes.now all.now }
{
    for case in cases {
        expect(rt, boxes, all, case);
    }
}

/// Asserts each case in a scene with a clearance.
fn expect_with<R: Abort>(rt: &R, alloc: Global, clearance: u32, cases: &[Case])
    requires { clearance ≤ MOST_CLEARANCE }
{
    let obstacles = two(rt, alloc);
    let scene = scene(rt, alloc, obstacles, clearance);
    let boxes = boxes_of(rt, alloc, &scene);
    drop(scene);
    let all = sure(rt, zone_boxes(alloc, &boxes));
    expect_each(rt, &boxes, all.as_slice(), cases);
    drop(all);
    drop(boxes);
}

#[test]
fn zones_whose_boxes_are_apart_are_not_tested(rt: HostRuntime) {
    expect_with(&rt, rt.alloc(), 0, &WITHOUT_CLEARANCE);
}

#[test]
fn the_boxes_are_those_of_the_zones_with_the_clearance(rt: HostRuntime) {
    expect_with(&rt, rt.alloc(), 5, &WITH_CLEARANCE);
}
