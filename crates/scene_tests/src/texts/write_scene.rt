//! Canonical texts of a small scene, of one with as many obstacles as there may be, and of scenes that are read again.

ghost use Rattle.std.specs.Prelude.{◌≡◌, false, IfOk, IsTrue};
ghost use Rattle.plan_model.specs.Scenes.Limits.{is_obstacle, are_obstacles};

use crate::texts::support::{POLYGONS, assert_written, scene_of, sure};
use plan_model::{MOST_OBSTACLES, Poly, Polys, Scene, Vertex};
use scene_text::{as_version_2, read_scene, write_scene};
use std::alloc::{AllocError, Global};
use std::process::Abort;
use std::test::Fail;

const SMALL: &str = "prrt 1\nroom 9 9\nstart 0 0\ngoal 1 1 2 2\nstep 4\n";

const SMALL_WRITTEN: &str =
    "prrt 1\nroom 9 9\nbody 0 0\nstart 0 0\ngoal 1 1 2 2\nstep 4\ngamma 0\nseed 0\nstrips 1\n";

const POLYGONS_WRITTEN: &str =
    "prrt 1\nroom 9 9\nbody -1 -2 3 -2 3 4 -1 4\nobstacle 4 4 6 4 5 7\nobstacle -9 2 3 2 3 3\nstart 0 0\ngoal 1 1 2 2\nstep 4\ngamma 0\nseed 0\nstrips 1\n";

// A triangle as wide as an obstacle may be.
static WIDE: [Vertex; 3] = [
    Vertex {
        x: -2_097_152,
        y: 0,
    },
    Vertex { x: 2_097_151, y: 0 },
    Vertex { x: 0, y: 2_097_151 },
];

fn triangle(alloc: Global) -> Result<Poly, AllocError>
    ensures { IfOk result (λ corners. IsTrue (is_obstacle 2 corners)) }
{
    let corners = Vec::from_slice(alloc, &WIDE)?;
    Ok(Poly::from_vec(corners))
}

fn most_obstacles(alloc: Global) -> Result<Polys, AllocError>
    ensures { IfOk result (λ obstacles. IsTrue (are_obstacles 2 obstacles)) }
{
    let mut obstacles = Vec::new(alloc);
    for _number in 0..MOST_OBSTACLES {
        obstacles.push(triangle(alloc)?)?;
    }
    Ok(Polys::from_vec(obstacles))
}

// Asserts the canonical text of the scene of a text.
fn assert_rewritten<R: Abort>(rt: &R, alloc: Global, text: &str, want: &str) {
    let scene = scene_of(rt, alloc, text);
    assert_written(rt, alloc, &scene, want);
    drop(scene);
}

#[test]
fn writes_every_line(rt: HostRuntime) {
    assert_rewritten(&rt, rt.alloc(), SMALL, SMALL_WRITTEN);
    assert_rewritten(&rt, rt.alloc(), POLYGONS, POLYGONS_WRITTEN);
}

// The canonical text with as many of these triangles as there may be.
fn most_obstacles_written<R: Abort>(rt: &R, alloc: Global) -> String {
    let line = "obstacle -2097152 0 2097151 0 0 2097151\n";
    let obstacles = sure(rt, line.repeat(alloc, 1_024));
    let lines = [
        "prrt 2\nroom 9 9\nbody 0 0\n",
        obstacles.as_str(),
        "clearance 0\nstart 0 0\ngoal 1 1 2 2\nstep 4\ngamma 0\nseed 0\nstrips 1\n",
    ];
    let text = sure(rt, lines.concat(alloc));
    drop(obstacles);
    text
}

// The small scene in version 2, with as many obstacles as there may be.
fn scene_with_most_obstacles<R: Abort>(rt: &R, alloc: Global) -> Scene {
    let obstacles = sure(rt, most_obstacles(alloc));
    let mut scene = as_version_2(scene_of(rt, alloc, SMALL));
    scene.obstacles = obstacles;
    scene
}

#[test]
fn writes_as_many_obstacles_as_there_may_be(rt: HostRuntime) {
    let want = most_obstacles_written(&rt, rt.alloc());
    let scene = scene_with_most_obstacles(&rt, rt.alloc());
    assert_written(&rt, rt.alloc(), &scene, want.as_str());
    drop(scene);
    drop(want);
}

// Texts that are canonical already, with a line for each field: drawn marks, and listed ones.
const DRAWN: &str =
    "prrt 1\nroom 65535 1\nbody -4096 0 4096 -1 0 4096\nobstacle -131072 0 131071 0 0 131071\nobstacle 4 4 6 4 5 7\n\
start 65535 0\ngoal 0 1 65535 65535\nstep 4096\ngamma 16777215\nseed 18446744073709551615\nstrips 64\nmarks 262143\n";

const LISTED: &str =
    "prrt 1\nroom 1 65535\nbody -3 -4\nobstacle 0 0 9 0 9 9\nstart 0 1\ngoal 0 0 0 0\nstep 4\ngamma 1\nseed 1\nstrips 2\n\
mark 0 0\nmark 65535 65535\nmark 0 0\n";

// And of version 2: the greatest numbers, and two goals whose order is not that of their places.
const WIDEST: &str =
    "prrt 2\nroom 1048575 1\nbody -4096 0 4096 -1 0 4096\nobstacle -2097152 0 2097151 0 0 2097151\nclearance 4096\n\
start 1048575 0\ngoal 0 1 1048575 1048575\ngoal 0 0 0 0\nstep 65536\ngamma 16777215\nseed 18446744073709551615\nstrips 64\n\
marks 262143\n";

const LISTED_FAR: &str =
    "prrt 2\nroom 1 1048575\nbody -3 -4\nclearance 0\nstart 0 1\ngoal 0 0 0 0\nstep 4\ngamma 1\nseed 1\nstrips 2\n\
mark 0 0\nmark 1048575 1048575\nmark 0 0\n";

// The scene that is read from what is written for it.
fn read_again(alloc: Global, scene: &Scene) -> Result<Scene, Fail>
    // it is the same
    ensures { IfOk result (λ again. again ≡ scene.now) }
{
    let text = write_scene(alloc, scene)?;
    let again = read_scene(alloc, &text)?;
    drop(text);
    Ok(again)
}

// Asserts that the scene of a canonical text is read again from what is written for it, and is then written as this text.
fn assert_read_again<R: Abort>(rt: &R, alloc: Global, canonical: &str) {
    let scene = scene_of(rt, alloc, canonical);
    let again = match read_again(alloc, &scene) {
        Ok(again) => again,
        Err(_) => panic!(rt; "not read again"),
    };
    assert_written(rt, alloc, &again, canonical);
    drop(again);
    drop(scene);
}

#[test]
fn what_is_written_is_read_again(rt: HostRuntime) {
    assert_read_again(&rt, rt.alloc(), DRAWN);
    assert_read_again(&rt, rt.alloc(), LISTED);
    assert_read_again(&rt, rt.alloc(), WIDEST);
    assert_read_again(&rt, rt.alloc(), LISTED_FAR);
}
