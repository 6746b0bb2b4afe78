//! Generated scenes, against lines and plans that were worked out apart from the planner.

use super::plans::lines_with;
use super::*;

// Numbers of generated scenes, and how their texts begin and end.
static TEXTS: [(&str, &str, &str); 4] = [
    (
        "0",
        "prrt 1\nroom 9999 9999\nbody 0 0 20 0 20 20 0 20\nobstacle 631 700 961 700 961 1030 631 1030\n",
        "\nmarks 2000\n",
    ),
    (
        "3",
        "prrt 1\nroom 9999 9999\nbody 0 0 20 0 20 20 0 20\nobstacle ",
        "\nmarks 8000\n",
    ),
    ("9", "prrt 1\n", "\nmarks 20000\n"),
    (
        "9999",
        "prrt 1\nroom 9999 9999\nbody 0 0 20 0 20 20 0 20\nobstacle ",
        "\nmarks 20000\n",
    ),
];

// Compares how the text of a generated scene begins and ends, and its lines, ten of which are of no obstacle.
fn expect_generated<R: Threads + Sync + Wait + RandomSource + AllocGlobal + Clone + Drop + Abort>(
    rt: &R,
    alloc: Global,
    number: &str,
    begin: &str,
    end: &str,
) {
    let called = call_unread(rt, alloc, &["gen", number]);
    expect_number(rt, called.status(), 0, "a generated scene");
    expect_ends(rt, called.text(), begin, end);
    expect_number(rt, lines_with(called.text(), "obstacle "), 64, "obstacles");
    expect_number(rt, lines_with(called.text(), ""), 10 + 64, "lines");
    drop(called);
}

#[test]
fn writes_obstacles_and_marks_by_its_number(rt: HostRuntime) {
    for (number, begin, end) in &TEXTS {
        expect_generated(&rt, rt.alloc(), number, begin, end);
    }
}

// Numbers of generated scenes, a cell of each, and the line of the obstacle in it.
static OBSTACLES: [(&str, usize, &str); 3] = [
    ("0", 1, "obstacle 1643 303 1789 303 1643 449"),
    ("3", 17, "obstacle 1578 2756 1764 2756 1578 2942"),
    (
        "9999",
        62,
        "obstacle 7983 9437 8208 9437 8208 9662 7983 9662",
    ),
];

// Compares the line of the obstacle in a cell of a generated scene. It stands after three others and those of the cells before.
fn expect_obstacle<R: Threads + Sync + Wait + RandomSource + AllocGlobal + Clone + Drop + Abort>(
    rt: &R,
    alloc: Global,
    number: &str,
    cell: usize,
    line: &str,
) {
    let called = call_unread(rt, alloc, &["gen", number]);
    let got = called.text().lines().nth(cell.saturating_add(3));
    expect_that(rt, got == Some(line), line);
    drop(called);
}

#[test]
fn places_squares_and_triangles(rt: HostRuntime) {
    for (number, cell, line) in &OBSTACLES {
        expect_obstacle(&rt, rt.alloc(), number, *cell, line);
    }
}

// Compares how the plan of a generated scene begins and ends that has a path.
fn expect_planned<R: Threads + Sync + Wait + RandomSource + AllocGlobal + Clone + Drop + Abort>(
    rt: &R,
    alloc: Global,
    number: &str,
    begin: &str,
    end: &str,
) {
    let scene = call_unread(rt, alloc, &["gen", number]);
    let called = call(rt, alloc, &["plain"], scene.text(), 1 << 16, 0);
    drop(scene);
    expect_number(rt, called.status(), 0, "a path");
    expect_ends(rt, called.text(), begin, end);
    drop(called);
}

// A trial is the plan of the generated scene without the lines of the points. It was worked out apart from the planner.
#[test]
fn tries_a_generated_scene(rt: HostRuntime) {
    let path = "path 48 cost 3522991\n";
    let counts = "\nnodes 7605 placed 7604 same 0 blocked 396\n";
    expect_planned(&rt, rt.alloc(), "3", path, counts);
    let called = call_unread(&rt, rt.alloc(), &["trial", "3"]);
    expect_answer(&rt, &["trial", "3"], &called, &TRIED);
    drop(called);
}

static TRIED: Case = Case {
    shows: "a generated scene",
    scene: "",
    status: 0,
    text: "path 48 cost 3522991\nnodes 7605 placed 7604 same 0 blocked 396\n",
    run: Some((7605, 8000)),
};
