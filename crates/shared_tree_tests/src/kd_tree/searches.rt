//! Searches against scans.

ghost use Rattle.std.specs.Prelude.{◌+◌, ◌<◌, ◌^◌, ◌≡◌, ◌≤◌, IsTrue};
ghost use Rattle.plan_model.specs.Geometry.Plane.{IsBounded};
ghost use Rattle.plan_model.specs.Spaces.ConfigurationSpace.{IsInRoom};
ghost use Rattle.plan_model.specs.Scenes.Limits.{is_plan};
ghost use Rattle.plan_model.specs.declared.limits.TheConstants.{MOST_COORDINATE};
ghost use Rattle.plan_model.specs.declared.scenes.Marks.TheVariants.{Listed};
ghost use Rattle.plan_words.specs.States.{BelongsTo};

use crate::kd_tree::scans::{is_scan_near, scan_find, scan_nearest};
use crate::kd_tree::support::tree_of;
use kd_shared::{around, find, near, nearest};
use plan_model::Point;
use plan_words::{Pass, Shared};
use std::alloc::Global;
use std::process::Abort;

/// Asserts which node is nearest to a point.
pub(crate) fn expect_nearest<R: Abort>(
    rt: &R,
    shared: &Shared,
    pass: &mut Pass,
    p: Point,
    want: u32,
)
    requires belongs { BelongsTo pass.old shared.now }
    requires bounded { IsBounded p }
    ensures { BelongsTo pass.new shared.now }
{
    let closest = nearest(shared, pass, p);
    assert!(rt; closest == want, "node {closest}");
}

/// Asserts which nodes are within a radius of a point.
pub(crate) fn expect_near<R: Abort>(
    rt: &R,
    shared: &Shared,
    pass: &mut Pass,
    p: Point,
    r: u32,
    want: &[u32],
)
    requires belongs { BelongsTo pass.old shared.now }
    requires bounded { IsBounded p }
    ensures { BelongsTo pass.new shared.now }
{
    near(shared, pass, p, r);
    let close = pass.near_list();
    assert!(rt; close == want, "nodes {close:?}");
}

/// Whether the searches for the node at this point, and for the nearest one, answer as scans do.
fn node_answers_as_scans(
    shared: &Shared,
    pass: &mut Pass,
    start: Point,
    points: &[Point],
    p: Point,
) -> bool
    requires belongs { BelongsTo pass.old shared.now }
    requires start { IsInRoom (record { x = 65535; y = 65535 }) start }
    requires plan { IsTrue (is_plan 1 (Listed points.now)) }
    requires bounded { IsBounded p }
    ensures { BelongsTo pass.new shared.now }
{
    let found = find(shared, pass, p);
    let closest = nearest(shared, pass, p);
    found == scan_find(start, points, p) && closest == scan_nearest(start, points, p)
}

/// Whether each search for this point answers as a scan does. Near is asked with one radius, around with a greater one.
fn answers_as_scans(
    shared: &Shared,
    pass: &mut Pass,
    start: Point,
    points: &[Point],
    p: Point,
    r: u32,
) -> bool
    requires belongs { BelongsTo pass.old shared.now }
    requires start { IsInRoom (record { x = 65535; y = 65535 }) start }
    requires plan { IsTrue (is_plan 1 (Listed points.now)) }
    requires bounded { IsBounded p }
    requires radius { r + 1 < 2 ^ 32 }
    ensures { BelongsTo pass.new shared.now }
{
    near(shared, pass, p, r);
    around(shared, pass, p, r + 1);
    node_answers_as_scans(shared, pass, start, points, p)
        && is_scan_near(pass.near_list(), start, points, p, r)
        && is_scan_near(pass.around_list(), start, points, p, r + 1)
}

/// The square of this side above and to the right of the point with both coordinates `low`.
#[derive(Clone, Copy)]
struct Window {
    low: u32,
    side: u32,
}

/// Whether they do so for each point of the window.
fn all_answer_as_scans(
    shared: &Shared,
    pass: &mut Pass,
    start: Point,
    points: &[Point],
    window: Window,
    r: u32,
) -> bool
    requires belongs { BelongsTo pass.old shared.now }
    requires start { IsInRoom (record { x = 65535; y = 65535 }) start }
    requires plan { IsTrue (is_plan 1 (Listed points.now)) }
    requires bounded { window.low + window.side ≤ MOST_COORDINATE + 1 }
    requires side { window.side ≤ 16 }
    requires radius { r + 1 < 2 ^ 32 }
{
    let mut all = true;
    'places: for place in 0..window.side * window.side {
        let p = Point {
            x: window.low + place % window.side,
            y: window.low + place / window.side,
        };
        all &= answers_as_scans(shared, pass, start, points, p, r);
    }
    all
}

/// Asserts that they do so in a tree of these points, for each point of the window.
fn expect_scans<R: Abort>(
    rt: &R,
    alloc: Global,
    start: Point,
    points: &[Point],
    window: Window,
    r: u32,
)
    requires start { IsInRoom (record { x = 65535; y = 65535 }) start }
    requires plan { IsTrue (is_plan 1 (Listed points.now)) }
    requires bounded { window.low + window.side ≤ MOST_COORDINATE + 1 }
    requires side { window.side ≤ 16 }
    requires radius { r + 1 < 2 ^ 32 }
{
    let mut one = tree_of(rt, alloc, start, points);
    let all = all_answer_as_scans(&one.shared, &mut one.pass, start, points, window, r);
    assert!(rt; all, "with radius {r}");
    drop(one);
}

fn at(x: u32, y: u32) -> Point
    ensures { result ≡ record { x = x; y = y } }
{
    Point { x, y }
}

/// Points with equal columns and rows, among them the start's, and some twice.
fn square() -> [Point; 12]
    ensures { IsTrue (is_plan 1 (Listed result)) }
{
    [
        at(5, 2),
        at(2, 5),
        at(5, 8),
        at(8, 5),
        at(5, 5),
        at(2, 2),
        at(8, 8),
        at(2, 8),
        at(8, 2),
        at(5, 2),
        at(8, 8),
        at(3, 5),
    ]
}

#[test]
fn equal_columns_and_rows_are_found(rt: HostRuntime) {
    let window = Window { low: 0, side: 12 };
    'radii: for r in 0..5 {
        expect_scans(&rt, rt.alloc(), at(5, 5), &square(), window, r);
    }
}

/// Nodes as far to the left of the line through the start as to the right, and above as below; the lesser numbers on the far side.
fn across() -> [Point; 6]
    ensures { IsTrue (is_plan 1 (Listed result)) }
{
    [at(4, 6), at(8, 6), at(6, 4), at(6, 8), at(3, 9), at(9, 3)]
}

#[test]
fn of_equally_near_nodes_across_a_line_the_first_is_nearest(rt: HostRuntime) {
    let window = Window { low: 0, side: 13 };
    expect_scans(&rt, rt.alloc(), at(6, 6), &across(), window, 2);
    let mut one = tree_of(&rt, rt.alloc(), at(6, 1), &across());
    expect_nearest(&rt, &one.shared, &mut one.pass, at(6, 6), 1);
    drop(one);
}

/// A tree of one branch.
fn stairs() -> [Point; 9]
    ensures { IsTrue (is_plan 1 (Listed result)) }
{
    [
        at(1, 1),
        at(2, 2),
        at(3, 3),
        at(4, 4),
        at(5, 5),
        at(6, 6),
        at(7, 7),
        at(8, 8),
        at(9, 9),
    ]
}

#[test]
fn one_branch_is_searched(rt: HostRuntime) {
    let window = Window { low: 0, side: 11 };
    expect_scans(&rt, rt.alloc(), at(0, 0), &stairs(), window, 4);
}

/// Nodes at the greatest coordinates of a room, and a step away.
fn corner() -> [Point; 4]
    ensures { IsTrue (is_plan 1 (Listed result)) }
{
    [
        at(65535, 65534),
        at(65534, 65535),
        at(61439, 65535),
        at(65535, 61439),
    ]
}

#[test]
fn the_greatest_coordinates_and_radii_are_searched(rt: HostRuntime) {
    let start = at(65535, 65535);
    let room = Window {
        low: 65530,
        side: 9,
    };
    let bound = Window {
        low: 1048573,
        side: 3,
    };
    expect_scans(&rt, rt.alloc(), start, &corner(), room, 4096);
    expect_scans(&rt, rt.alloc(), start, &corner(), bound, 1390158);
    let mut one = tree_of(&rt, rt.alloc(), start, &corner());
    expect_near(
        &rt,
        &one.shared,
        &mut one.pass,
        at(0, 0),
        u32::MAX,
        &[0, 1, 2, 3, 4],
    );
    drop(one);
}

#[test]
fn the_start_alone_is_found(rt: HostRuntime) {
    expect_scans(
        &rt,
        rt.alloc(),
        at(2, 2),
        &[],
        Window { low: 0, side: 5 },
        0,
    );
}
