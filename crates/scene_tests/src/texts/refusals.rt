//! How faults and refusals of scene texts are shown.

use crate::texts::support::assert_shown;
use plan_model::Kind;
use scene_text::{SceneFault, SceneRefusal};
use std::alloc::Global;
use std::process::Abort;

static FAULTS: [(SceneFault, &str); 2] = [
    (
        SceneFault {
            line: 5,
            kind: Kind::Repeat,
        },
        "line 5 kind 6 Repeat",
    ),
    (
        SceneFault {
            line: 16_777_217,
            kind: Kind::Unbuilt,
        },
        "line 16777217 kind 10 Unbuilt",
    ),
];

// Asserts how a fault is shown, and the refusal for it.
fn assert_fault_shown<R: Abort>(rt: &R, alloc: Global, fault: SceneFault, want: &str) {
    assert_shown(rt, alloc, &fault, want);
    assert_shown(rt, alloc, &SceneRefusal::Fault(fault), want);
}

#[test]
fn shows_faults_as_lines(rt: HostRuntime) {
    for case in &FAULTS {
        assert_fault_shown(&rt, rt.alloc(), case.0, case.1);
    }
}
