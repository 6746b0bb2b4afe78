//! Batches that are read, and texts that are refused as batches.

use crate::texts::support::{repeated, scene_of, sure};
use plan_model::{Kind, MOST_TEXT_BYTES, Scene};
use scene_text::{SceneFault, SceneRefusal, read_batch, write_scene};
use std::alloc::Global;
use std::process::Abort;

const GOOD: &str = "prrt 1\nroom 10 10\nstart 5 5\ngoal 0 0 9 9\nstep 4\n";

const OTHER: &str = "prrt 2\nroom 20 30\nstart 1 2\ngoal 3 4 5 6\nstep 7\nmark 8 9\n";

const GOOD_AND_NEXT: &str = "prrt 1\nroom 10 10\nstart 5 5\ngoal 0 0 9 9\nstep 4\nnext\n";

/// The scenes of a text, or why it is refused.
fn read(rt: &impl Abort, alloc: Global, text: &str) -> Result<Vec<Scene>, SceneRefusal> {
    assert!(rt; text.len() <= MOST_TEXT_BYTES);
    read_batch(alloc, text.as_bytes())
}

/// Two texts as one.
fn joined<R: Abort>(rt: &R, alloc: Global, first: &str, second: &str) -> String {
    sure(rt, [first, second].concat(alloc))
}

/// Asserts that a text is refused as a batch at this line, for a fault of this kind.
fn assert_batch_refused<R: Abort>(rt: &R, alloc: Global, text: &str, line: u32, kind: Kind) {
    let fault = SceneFault { line, kind };
    match read(rt, alloc, text) {
        Err(refusal) => assert!(rt; refusal == SceneRefusal::Fault(fault)),
        Ok(_) => panic!(rt; "read"),
    }
}

/// Asserts that a scene is the one that a text alone spells.
fn assert_spelled<R: Abort>(rt: &R, alloc: Global, scene: &Scene, text: &str) {
    let alone = scene_of(rt, alloc, text);
    let want = sure(rt, write_scene(alloc, &alone));
    let got = sure(rt, write_scene(alloc, scene));
    assert!(rt; got.as_slice() == want.as_slice());
}

/// Asserts that a text spells these scenes, each as a text of its own.
fn assert_batch<R: Abort>(rt: &R, alloc: Global, text: &str, want: &[&str]) {
    let scenes = sure(rt, read(rt, alloc, text));
    assert!(rt; scenes.len() == want.len());
    for (scene, text) in scenes.iter().zip(want) {
        assert_spelled(rt, alloc, scene, text);
    }
}

#[test]
fn a_text_without_next_is_a_batch_of_one(rt: HostRuntime) {
    assert_batch(&rt, rt.alloc(), GOOD, &[GOOD]);
}

#[test]
fn scenes_are_in_order(rt: HostRuntime) {
    let text = sure(
        &rt,
        [GOOD, "next\n", OTHER, "next\n", GOOD].concat(rt.alloc()),
    );
    assert_batch(&rt, rt.alloc(), text.as_str(), &[GOOD, OTHER, GOOD]);
}

// Each part begins anew, also with a version of its own; the last line needs no line feed.
#[test]
fn the_last_line_may_end_with_the_text(rt: HostRuntime) {
    let text = sure(
        &rt,
        [
            OTHER,
            "next\nprrt 1\nroom 10 10\nstart 5 5\nstep 4\ngoal 0 0 9 9",
        ]
        .concat(rt.alloc()),
    );
    assert_batch(&rt, rt.alloc(), text.as_str(), &[OTHER, GOOD]);
}

#[test]
fn next_in_a_comment_is_none(rt: HostRuntime) {
    let text = sure(&rt, [GOOD, "# next\n", "next\n", GOOD].concat(rt.alloc()));
    assert_batch(&rt, rt.alloc(), text.as_str(), &[GOOD, GOOD]);
}

static FIRST_FAULTS: [(&str, &str, &str, u32, Kind); 11] = [
    (
        "prrt 1\nroom 9 9\nstart 0 0\nstep 4\n",
        "next\n",
        GOOD,
        5,
        Kind::Missing,
    ),
    (
        GOOD,
        "next\n",
        "prrt 1\nroom 9 9\nstart 0 0\nstep 4\n",
        11,
        Kind::Missing,
    ),
    (GOOD, "next \n", GOOD, 6, Kind::Key),
    (GOOD, " next\n", GOOD, 6, Kind::Key),
    (GOOD, "next\n", "prrt 3\n", 7, Kind::Version),
    (GOOD, "next\n", "", 7, Kind::Version),
    (GOOD, "next", "", 7, Kind::Version),
    (GOOD, "next\n", "next\n", 7, Kind::Version),
    (GOOD, "", GOOD, 6, Kind::Key),
    ("", "", "", 1, Kind::Version),
    ("", "next\n", GOOD, 1, Kind::Version),
];

#[test]
fn refuses_the_first_fault_at_its_line_in_the_whole(rt: HostRuntime) {
    for case in &FIRST_FAULTS {
        let text = sure(&rt, [case.0, case.1, case.2].concat(rt.alloc()));
        assert_batch_refused(&rt, rt.alloc(), text.as_str(), case.3, case.4);
        drop(text);
    }
}

static MANY_PARTS: [(usize, &str, u32, Kind); 6] = [
    // a line `next` after the last part that there may be
    (64, "", 384, Kind::Many),
    (64, GOOD, 384, Kind::Many),
    (64, "x\n", 384, Kind::Many),
    // an empty last part
    (63, "", 379, Kind::Version),
    // the fault of the last part comes first
    (
        63,
        "prrt 1\nroom 9 9\nstart 0 0\nstep 4\nnext\nx\n",
        383,
        Kind::Missing,
    ),
    (65, "x\n", 384, Kind::Many),
];

#[test]
fn refuses_the_part_after_the_last_that_there_may_be(rt: HostRuntime) {
    for case in &MANY_PARTS {
        let parts = repeated(&rt, rt.alloc(), "", GOOD_AND_NEXT, case.0);
        let text = joined(&rt, rt.alloc(), parts.as_str(), case.1);
        assert_batch_refused(&rt, rt.alloc(), text.as_str(), case.2, case.3);
        drop(text);
        drop(parts);
    }
}

#[test]
fn reads_as_many_scenes_as_there_may_be(rt: HostRuntime) {
    let parts = repeated(&rt, rt.alloc(), "", GOOD_AND_NEXT, 63);
    let text = joined(&rt, rt.alloc(), parts.as_str(), OTHER);
    let scenes = sure(&rt, read(&rt, rt.alloc(), text.as_str()));
    assert!(rt; scenes.len() == 64);
    if let Some(last) = scenes.last() {
        assert_spelled(&rt, rt.alloc(), last, OTHER);
    }
}
