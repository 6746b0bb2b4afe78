//! What the tests of the reader and the writer share: values that memory lasts for, texts with their scenes, texts that are refused, scenes
//! that are written, and how a refusal is shown.

ghost use Rattle.std.specs.Prelude.{◌≡◌, Ok};

use plan_model::{Kind, MOST_TEXT_BYTES, Scene};
use scene_text::{SceneFault, SceneRefusal, read_scene, write_scene};
use std::alloc::Global;
use std::fmt;
use std::process::Abort;

/// What was made, for which there is memory.
pub(crate) fn sure<R: Abort, T, E: fmt::Display + Copy>(rt: &R, made: Result<T, E>) -> T
    ensures { made ≡ Ok result }
{
    match made {
        Ok(value) => value,
        Err(error) => panic!(rt; "{error}"),
    }
}

/// A text with a body and obstacles, in no order.
pub(crate) const POLYGONS: &str =
    "prrt 1\nobstacle 4 4 6 4 5 7\nroom 9 9\nstart 0 0\nstep 4\ngoal 1 1 2 2\nbody -1 -2 3 -2 3 4 -1 4\nobstacle -9 2 3 2 3 3\n";

/// The scene of a text, or why it is refused.
pub(crate) fn read(rt: &impl Abort, alloc: Global, text: &str) -> Result<Scene, SceneRefusal> {
    assert!(rt; text.len() <= MOST_TEXT_BYTES);
    read_scene(alloc, text.as_bytes())
}

/// The scene of a text that is not refused.
pub(crate) fn scene_of(rt: &impl Abort, alloc: Global, text: &str) -> Scene {
    sure(rt, read(rt, alloc, text))
}

/// Asserts that a text is refused at this line, for a fault of this kind.
pub(crate) fn assert_refused<R: Abort>(rt: &R, alloc: Global, text: &str, line: u32, kind: Kind) {
    let fault = SceneFault { line, kind };
    match read(rt, alloc, text) {
        Err(refusal) => assert!(rt; refusal == SceneRefusal::Fault(fault)),
        Ok(_) => panic!(rt; "read"),
    }
}

/// Asserts that each text is refused at its line, for a fault of its kind.
pub(crate) fn assert_each_refused<R: Abort>(rt: &R, alloc: Global, cases: &[(&str, u32, Kind)]) {
    for case in cases {
        assert_refused(rt, alloc, case.0, case.1, case.2);
    }
}

/// A text, and then a piece of text so many times.
pub(crate) fn repeated<R: Abort>(
    rt: &R,
    alloc: Global,
    before: &str,
    piece: &str,
    count: usize,
) -> String {
    let pieces = sure(rt, piece.repeat(alloc, count));
    let text = sure(rt, [before, pieces.as_str()].concat(alloc));
    drop(pieces);
    text
}

/// Asserts the canonical text of a scene.
pub(crate) fn assert_written<R: Abort>(rt: &R, alloc: Global, scene: &Scene, want: &str) {
    let text = sure(rt, write_scene(alloc, scene));
    assert!(rt; text.as_slice() == want.as_bytes());
    drop(text);
}

/// Asserts how a fault or a refusal is shown.
pub(crate) fn assert_shown<R: Abort, T: fmt::Display>(
    rt: &R,
    alloc: Global,
    value: &T,
    want: &str,
) {
    let shown = sure(rt, value.to_string(alloc));
    assert!(rt; shown.as_str() == want);
    drop(shown);
}
