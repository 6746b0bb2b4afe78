//! A scene with more obstacles than stand side by side below one box.

ghost use Rattle.std.specs.Prelude.{◌<◌, ◌≤◌};
ghost use Rattle.plan_model.specs.declared.limits.TheConstants.{MOST_CLEARANCE};

use crate::box_checks::support::{boxes_of, obstacles, scene, sure};
use obstacle_boxes::Boxes;
use plan_model::{Point, Vertex};
use std::alloc::Global;
use std::process::Abort;
use swept_check::{Clearing, Hall};

/// Twenty quadrilaterals.
static TWENTY: [[Vertex; 4]; 20] = [
    [
        Vertex { x: 43, y: 21 },
        Vertex { x: 48, y: 21 },
        Vertex { x: 48, y: 28 },
        Vertex { x: 45, y: 28 },
    ],
    [
        Vertex { x: 8, y: 11 },
        Vertex { x: 16, y: 11 },
        Vertex { x: 16, y: 17 },
        Vertex { x: 12, y: 17 },
    ],
    [
        Vertex { x: 14, y: 48 },
        Vertex { x: 20, y: 48 },
        Vertex { x: 20, y: 50 },
        Vertex { x: 17, y: 50 },
    ],
    [
        Vertex { x: 66, y: 29 },
        Vertex { x: 68, y: 29 },
        Vertex { x: 68, y: 31 },
        Vertex { x: 67, y: 31 },
    ],
    [
        Vertex { x: 57, y: 55 },
        Vertex { x: 59, y: 55 },
        Vertex { x: 59, y: 58 },
        Vertex { x: 58, y: 58 },
    ],
    [
        Vertex { x: 13, y: 72 },
        Vertex { x: 18, y: 72 },
        Vertex { x: 18, y: 74 },
        Vertex { x: 15, y: 74 },
    ],
    [
        Vertex { x: 74, y: 17 },
        Vertex { x: 77, y: 17 },
        Vertex { x: 77, y: 24 },
        Vertex { x: 75, y: 24 },
    ],
    [
        Vertex { x: 82, y: 76 },
        Vertex { x: 84, y: 76 },
        Vertex { x: 84, y: 82 },
        Vertex { x: 83, y: 82 },
    ],
    [
        Vertex { x: 76, y: 52 },
        Vertex { x: 78, y: 52 },
        Vertex { x: 78, y: 55 },
        Vertex { x: 77, y: 55 },
    ],
    [
        Vertex { x: 7, y: 73 },
        Vertex { x: 15, y: 73 },
        Vertex { x: 15, y: 76 },
        Vertex { x: 11, y: 76 },
    ],
    [
        Vertex { x: 39, y: 55 },
        Vertex { x: 42, y: 55 },
        Vertex { x: 42, y: 61 },
        Vertex { x: 40, y: 61 },
    ],
    [
        Vertex { x: 17, y: 75 },
        Vertex { x: 21, y: 75 },
        Vertex { x: 21, y: 81 },
        Vertex { x: 19, y: 81 },
    ],
    [
        Vertex { x: 89, y: 25 },
        Vertex { x: 91, y: 25 },
        Vertex { x: 91, y: 31 },
        Vertex { x: 90, y: 31 },
    ],
    [
        Vertex { x: 75, y: 83 },
        Vertex { x: 78, y: 83 },
        Vertex { x: 78, y: 87 },
        Vertex { x: 76, y: 87 },
    ],
    [
        Vertex { x: 14, y: 72 },
        Vertex { x: 21, y: 72 },
        Vertex { x: 21, y: 74 },
        Vertex { x: 17, y: 74 },
    ],
    [
        Vertex { x: 74, y: 9 },
        Vertex { x: 80, y: 9 },
        Vertex { x: 80, y: 12 },
        Vertex { x: 77, y: 12 },
    ],
    [
        Vertex { x: 65, y: 89 },
        Vertex { x: 71, y: 89 },
        Vertex { x: 71, y: 94 },
        Vertex { x: 68, y: 94 },
    ],
    [
        Vertex { x: 42, y: 61 },
        Vertex { x: 48, y: 61 },
        Vertex { x: 48, y: 66 },
        Vertex { x: 45, y: 66 },
    ],
    [
        Vertex { x: 48, y: 40 },
        Vertex { x: 51, y: 40 },
        Vertex { x: 51, y: 48 },
        Vertex { x: 49, y: 48 },
    ],
    [
        Vertex { x: 25, y: 33 },
        Vertex { x: 27, y: 33 },
        Vertex { x: 27, y: 39 },
        Vertex { x: 26, y: 39 },
    ],
];

/// Asserts that the boxes answer as the hall does to the segment with this number. The answer.
fn answer<R: Abort>(rt: &R, hall: &Hall, boxes: &Boxes, number: u32) -> bool
    requires { number < 500 }
{
    let a = Point {
        x: number * 37 % 101,
        y: number * 53 % 101,
    };
    let b = Point {
        x: number * 11 % 101,
        y: number * 97 % 101,
    };
    let is_clear = boxes.clear(a, b);
    assert!(rt; is_clear == hall.clear(a, b), "segment {number}");
    is_clear
}

/// How many of 500 segments are clear.
fn clear_count<R: Abort>(rt: &R, hall: &Hall, boxes: &Boxes) -> u32 {
    let mut count = 0u32;
    for number in 0..500u32 {
        if answer(rt, hall, boxes, number) {
            count = count.saturating_add(1);
        }
    }
    count
}

/// The same among the twenty obstacles with a clearance.
fn clear_with<R: Abort>(rt: &R, alloc: Global, clearance: u32) -> u32
    requires { clearance ≤ MOST_CLEARANCE }
{
    let twenty = obstacles(rt, alloc, &TWENTY);
    let scene = scene(rt, alloc, twenty, clearance);
    let hall = sure(rt, Hall::new(alloc, &scene));
    let boxes = boxes_of(rt, alloc, &scene);
    drop(scene);
    let count = clear_count(rt, &hall, &boxes);
    drop(hall);
    drop(boxes);
    count
}

#[test]
fn boxes_answer_as_the_hall(rt: HostRuntime) {
    let count = clear_with(&rt, rt.alloc(), 0);
    assert!(rt; count == 258);
}

#[test]
fn boxes_answer_as_the_hall_with_a_clearance(rt: HostRuntime) {
    let count = clear_with(&rt, rt.alloc(), 2);
    assert!(rt; count == 135);
}
