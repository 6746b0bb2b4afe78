//! What only version 2 has, where each version refuses a text, and scenes that are converted.

ghost use Rattle.std.specs.Prelude.{◌≡◌, true};

use crate::texts::support::{
    assert_each_refused, assert_refused, assert_written, repeated, scene_of, sure,
};
use plan_model::{Kind, Scene};
use scene_text::as_version_2;
use std::alloc::Global;
use std::process::Abort;

static FAULTS: [(&str, u32, Kind); 27] = [
    ("prrt 3\n", 1, Kind::Version),
    ("prrt 02\n", 1, Kind::Version),
    ("prrt 2 2\n", 1, Kind::Version),
    ("prrt 2\nprrt 2\n", 2, Kind::Key),
    // what version 1 does not have
    ("prrt 1\nclearance 1\n", 2, Kind::Key),
    ("prrt 1\ninformed 1\n", 2, Kind::Key),
    ("prrt 1\ngoal 1 1 2 2\ngoal 1 1 2 2\n", 3, Kind::Repeat),
    ("prrt 1\nroom 9 9\ngoal 1 1 2 2\ngoal x\n", 4, Kind::Repeat),
    ("prrt 1\nroom 65536 1\n", 2, Kind::Range),
    ("prrt 1\nstep 4097\n", 2, Kind::Range),
    ("prrt 1\nobstacle 0 0 131072 0 0 9\n", 2, Kind::Range),
    ("prrt 1\nobstacle -131073 0 9 0 0 9\n", 2, Kind::Range),
    // one more than version 2 has
    ("prrt 2\nroom 1048576 1\n", 2, Kind::Range),
    ("prrt 2\nstart 0 1048576\n", 2, Kind::Range),
    ("prrt 2\ngoal 0 0 1048576 0\n", 2, Kind::Range),
    ("prrt 2\nmark 1048576 0\n", 2, Kind::Range),
    ("prrt 2\nstep 65537\n", 2, Kind::Range),
    ("prrt 2\nobstacle 0 0 2097152 0 0 9\n", 2, Kind::Range),
    ("prrt 2\nobstacle -2097153 0 9 0 0 9\n", 2, Kind::Range),
    ("prrt 2\nclearance 4097\n", 2, Kind::Range),
    ("prrt 2\nclearance -1\n", 2, Kind::Range),
    ("prrt 2\nclearance 1\nclearance x y\n", 3, Kind::Repeat),
    ("prrt 2\nclearance 1 1\n", 2, Kind::Words),
    ("prrt 2\ninformed x y\n", 2, Kind::Words),
    ("prrt 2\ninformed 2\n", 2, Kind::Range),
    ("prrt 2\ninformed 0\ninformed 1\n", 3, Kind::Repeat),
    ("prrt 2\nroom 9 9\nstart 0 0\nstep 4\n", 5, Kind::Missing),
];

#[test]
fn refuses_by_the_version(rt: HostRuntime) {
    assert_each_refused(&rt, rt.alloc(), &FAULTS);
}

// What stands in the line after those of as many goals as there may be, and the kind of its fault.
static AFTER_16_GOALS: [(&str, Kind); 5] = [
    ("goal 1 1 2\n", Kind::Words),
    ("goal 1 1 2 2\n", Kind::Many),
    ("goal a b c d\n", Kind::Many),
    ("goal 2 2 1 1\n", Kind::Many),
    ("", Kind::Missing),
];

// Asserts that a text with as many goals as there may be, and then this line, is refused there.
fn assert_refused_after_16_goals<R: Abort>(rt: &R, alloc: Global, line: &str, kind: Kind) {
    let goals = repeated(rt, alloc, "prrt 2\n", "goal 1 1 2 2\n", 16);
    let text = sure(rt, [goals.as_str(), line].concat(alloc));
    drop(goals);
    assert_refused(rt, alloc, text.as_str(), 18, kind);
    drop(text);
}

#[test]
fn refuses_the_seventeenth_goal(rt: HostRuntime) {
    for case in &AFTER_16_GOALS {
        assert_refused_after_16_goals(&rt, rt.alloc(), case.0, case.1);
    }
}

const FIRST: &str = "prrt 1\nroom 9 9\nstart 0 0\ngoal 1 1 2 2\nstep 4\n";

const FIRST_CONVERTED: &str =
    "prrt 2\nroom 9 9\nbody 0 0\nclearance 0\nstart 0 0\ngoal 1 1 2 2\nstep 4\ngamma 0\nseed 0\nstrips 1\n";

const SECOND: &str =
    "prrt 2\nroom 9 9\nbody 0 0\nclearance 3\nstart 0 0\ngoal 8 8 9 9\ngoal 1 1 2 2\nstep 4\ngamma 5\nseed 7\nstrips 2\n\
mark 3 4\nmark 3 4\n";

// Asserts what is written for the scene of a text once it is converted.
fn assert_converted<R: Abort>(rt: &R, alloc: Global, text: &str, want: &str) {
    let scene = as_version_2(scene_of(rt, alloc, text));
    assert_written(rt, alloc, &scene, want);
    drop(scene);
}

#[test]
fn converts_to_version_2(rt: HostRuntime) {
    assert_converted(&rt, rt.alloc(), FIRST, FIRST_CONVERTED);
    assert_converted(&rt, rt.alloc(), SECOND, SECOND);
}

const INFORMED: &str =
    "prrt 2\nroom 9 9\nbody 0 0\nclearance 0\nstart 0 0\ngoal 1 1 2 2\nstep 4\ngamma 0\nseed 0\nstrips 1\ninformed 1\n";

// The scene, but informed.
fn as_informed(scene: Scene) -> Scene
    ensures { result.informed ≡ true }
{
    let mut second = as_version_2(scene);
    second.informed = true;
    second
}

#[test]
fn writes_and_reads_that_a_scene_is_informed(rt: HostRuntime) {
    let scene = as_informed(scene_of(&rt, rt.alloc(), FIRST));
    assert_written(&rt, rt.alloc(), &scene, INFORMED);
    drop(scene);
    assert_converted(&rt, rt.alloc(), INFORMED, INFORMED);
}
