//! Textbook runs of informed scenes, by their reports.

ghost use Rattle.std.specs.Prelude.{◌≡◌, ◌≤◌, IfOk, IsTrue};
ghost use Rattle.plan_model.specs.Scenes.Limits.{IsBetween, are_goals, is_goal, is_plan};
ghost use Rattle.plan_model.specs.Spaces.Clearance.{ClearAt};
ghost use Rattle.plan_model.specs.Spaces.ConfigurationSpace.{space_of, IsInRoom};
ghost use Rattle.plan_model.specs.declared.limits.TheConstants.{LEAST_SIDE, LEAST_STEP, MOST_GAMMA, MOST_SIDE, MOST_STEP};
ghost use Rattle.plan_model.specs.declared.scenes.Marks.TheVariants.{Listed};

use plan_model::{Goal, Marks, Memory, Point, Scene, Sequence, Task, Vertex};
use seq_planner::textbook;
use settle_report::report;
use std::alloc::Global;
use std::process::Abort;
use swept_check::Hall;

/// Where a point body begins in an empty room, and how it moves.
#[derive(Clone, Copy)]
struct Robot {
    room: Point,
    start: Point,
    step: u32,
    gamma: u32,
    ghost room_within: { IsBetween LEAST_SIDE MOST_SIDE room },
    ghost start_within: { IsInRoom room start },
    ghost step_low: { LEAST_STEP ≤ step },
    ghost step_high: { step ≤ MOST_STEP },
    ghost gamma_high: { gamma ≤ MOST_GAMMA },
}

/// The scene of a robot with these goals and these marks, informed or not.
fn scene_of(
    alloc: Global,
    robot: Robot,
    goals: &[Goal],
    marks: &[Point],
    informed: bool,
) -> Result<Scene, Memory>
    requires goals { IsTrue (are_goals 2 goals.now) }
    requires marks { IsTrue (is_plan 2 (Listed marks.now)) }
    ensures clear { IfOk result (λ scene. ClearAt (space_of scene) scene.start) }
    ensures plan { IfOk result (λ scene. scene.plan ≡ Listed marks.now) }
{
    Ok(Scene {
        version: 2,
        room: robot.room,
        body: Sequence::from_vec(vec![in alloc; Vertex { x: 0, y: 0 }]?),
        obstacles: Sequence::from_vec(Vec::new(alloc)),
        clearance: 0,
        start: robot.start,
        goals: Sequence::from_vec(Vec::from_slice(alloc, goals)?),
        step: robot.step,
        gamma: robot.gamma,
        seed: 0,
        strips: 1,
        informed,
        plan: Marks::Listed(Sequence::from_vec(Vec::from_slice(alloc, marks)?)),
    })
}

/// The report of the textbook run of a scene.
fn report_of(
    alloc: Global,
    robot: Robot,
    goals: &[Goal],
    marks: &[Point],
    informed: bool,
    full: bool,
) -> Result<Vec<u8>, Memory>
    requires goals { IsTrue (are_goals 2 goals.now) }
    requires marks { IsTrue (is_plan 2 (Listed marks.now)) }
{
    let task = Task {
        scene: scene_of(alloc, robot, goals, marks, informed)?,
        marks: Sequence::from_vec(Vec::from_slice(alloc, marks)?),
    };
    let hall = Hall::new(alloc, &task.scene)?;
    let grown = textbook(alloc, task, &hall)?;
    let text = report(alloc, &grown, full);
    drop(grown);
    drop(hall);
    text
}

/// Asserts the bytes of a text, which ends here.
fn assert_text<R: Abort>(rt: &R, text: Result<Vec<u8>, Memory>, want: &str) {
    match text {
        Ok(text) => {
            assert!(rt; text.as_slice() == want.as_bytes(), "in place of {want}");
            drop(text);
        }
        Err(error) => panic!(rt; "{error}"),
    }
}

/// A robot in a square room.
fn robot_in(side: u32, start: Point, step: u32, gamma: u32) -> Robot
    requires side { LEAST_SIDE ≤ side × side ≤ MOST_SIDE }
    requires start { start.x ≤ side × start.y ≤ side }
    requires step { LEAST_STEP ≤ step × step ≤ MOST_STEP }
    requires gamma { gamma ≤ MOST_GAMMA }
{
    Robot {
        room: Point { x: side, y: side },
        start,
        step,
        gamma,
    }
}

/// The box with these corners.
fn box_of(left: u32, bottom: u32, right: u32, top: u32) -> Goal
    requires across { left ≤ right × right ≤ MOST_SIDE }
    requires up { bottom ≤ top × top ≤ MOST_SIDE }
    ensures { IsTrue (is_goal 2 result) }
{
    Goal {
        low: Point { x: left, y: bottom },
        high: Point { x: right, y: top },
    }
}

#[test]
fn skips_a_mark_that_is_too_far_from_start_and_goal(rt: HostRuntime) {
    let robot = robot_in(100, Point { x: 0, y: 0 }, 100, 0);
    let marks = [
        Point { x: 0, y: 40 },
        Point { x: 30, y: 40 },
        Point { x: 10, y: 10 },
        Point { x: 0, y: 90 },
    ];
    let goals = [box_of(30, 40, 30, 40)];
    let want = "path 3 cost 17920\n0 0\n0 40\n30 40\nnodes 4 placed 3 same 0 blocked 0 skipped 1\n\
                node 0 at 0 0 parent 0 cost 0\nnode 1 at 0 40 parent 0 cost 10240\n\
                node 2 at 30 40 parent 1 cost 17920\nnode 3 at 10 10 parent 0 cost 3621\n\
                mark 0 worker 0 turn 0 nearest 0 placed class 1 first 0 10240\n\
                mark 1 worker 0 turn 1 nearest 1 placed class 2 first 1 17920\n\
                mark 2 worker 0 turn 2 nearest 0 placed class 2 first 0 3621\n\
                mark 3 worker 0 turn 3 skipped by 2\n";
    let text = report_of(rt.alloc(), robot, &goals, &marks, true, true);
    assert_text(&rt, text, want);
}

#[test]
fn skips_a_mark_by_a_goal_node_whose_cost_fell_to_its_bound(rt: HostRuntime) {
    let robot = robot_in(100, Point { x: 0, y: 0 }, 50, 1000);
    let marks = [
        Point { x: 0, y: 50 },
        Point { x: 40, y: 79 },
        Point { x: 40, y: 30 },
        Point { x: 40, y: 30 },
    ];
    let goals = [box_of(40, 79, 40, 79)];
    let want = "path 3 cost 25344\n0 0\n40 30\n40 79\nnodes 4 placed 3 same 0 blocked 0 skipped 1\n\
                node 0 at 0 0 parent 0 cost 0\nnode 1 at 0 50 parent 0 cost 12800\n\
                node 2 at 40 79 parent 3 cost 25344\nnode 3 at 40 30 parent 0 cost 12800\n\
                mark 0 worker 0 turn 0 nearest 0 placed class 1 first 0 12800\n\
                mark 1 worker 0 turn 1 nearest 1 placed class 2 first 1 25449\n\
                mark 2 worker 0 turn 2 nearest 1 placed class 2 first 0 12800\n\
                mark 3 worker 0 turn 3 skipped by 2\n";
    let text = report_of(rt.alloc(), robot, &goals, &marks, true, true);
    assert_text(&rt, text, want);
}

#[test]
fn bounds_a_mark_by_the_nearest_of_several_goals(rt: HostRuntime) {
    let robot = robot_in(100, Point { x: 50, y: 50 }, 100, 0);
    let marks = [
        Point { x: 45, y: 65 },
        Point { x: 28, y: 60 },
        Point { x: 40, y: 50 },
        Point { x: 30, y: 50 },
        Point { x: 35, y: 50 },
    ];
    let goals = [box_of(90, 40, 99, 60), box_of(20, 40, 30, 60)];
    let want =
        "path 3 cost 5120\n50 50\n40 50\n30 50\nnodes 5 placed 4 same 0 blocked 0 skipped 1\n";
    let text = report_of(rt.alloc(), robot, &goals, &marks, true, false);
    assert_text(&rt, text, want);
}

/// The report of a run of five marks; the first of those that lead into the goal is dear.
fn narrow_report(alloc: Global, informed: bool) -> Result<Vec<u8>, Memory> {
    let robot = robot_in(20, Point { x: 10, y: 0 }, 8, 60);
    let marks = [
        Point { x: 17, y: 12 },
        Point { x: 9, y: 16 },
        Point { x: 2, y: 20 },
        Point { x: 1, y: 6 },
        Point { x: 4, y: 12 },
    ];
    report_of(
        alloc,
        robot,
        &[box_of(6, 16, 6, 16)],
        &marks,
        informed,
        false,
    )
}

#[test]
fn a_mark_that_is_skipped_might_have_steered_to_a_cheaper_path(rt: HostRuntime) {
    let want =
        "path 4 cost 5205\n10 0\n14 6\n11 12\n6 16\nnodes 5 placed 4 same 0 blocked 0 skipped 1\n";
    assert_text(&rt, narrow_report(rt.alloc(), true), want);
    let want = "path 4 cost 5040\n10 0\n4 4\n4 12\n6 16\nnodes 6 placed 5 same 0 blocked 0\n";
    assert_text(&rt, narrow_report(rt.alloc(), false), want);
}

#[test]
fn skips_all_marks_if_the_start_lies_in_a_goal(rt: HostRuntime) {
    let robot = robot_in(10, Point { x: 5, y: 5 }, 4, 0);
    let marks = [Point { x: 1, y: 1 }, Point { x: 2, y: 2 }];
    let want = "path 1 cost 0\n5 5\nnodes 1 placed 0 same 0 blocked 0 skipped 2\n";
    let text = report_of(
        rt.alloc(),
        robot,
        &[box_of(0, 0, 9, 9)],
        &marks,
        true,
        false,
    );
    assert_text(&rt, text, want);
}

#[test]
fn counts_skipped_marks_of_an_informed_scene_without_one(rt: HostRuntime) {
    let robot = robot_in(10, Point { x: 5, y: 5 }, 4, 0);
    let want = "no path\nnodes 2 placed 1 same 0 blocked 0 skipped 0\n";
    let marks = [Point { x: 7, y: 7 }];
    let text = report_of(
        rt.alloc(),
        robot,
        &[box_of(9, 9, 9, 9)],
        &marks,
        true,
        false,
    );
    assert_text(&rt, text, want);
}
