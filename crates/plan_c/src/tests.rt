//! Calls over rooms of several sizes, over texts that are refused, and over reports.

use crate::exports::{
    NO_ROOM, VERSION, kimorefo_check, kimorefo_logic, kimorefo_plan, kimorefo_smooth,
    kimorefo_version,
};
use std::alloc::Global;
use std::process::Abort;

/// A scene whose only mark is the goal, and its reports.
const ONE_MARK: &str = "prrt 1\nroom 100 100\nstart 0 0\ngoal 30 40 30 40\nstep 100\nmark 30 40\n";

const SHORT: &str = "path 2 cost 12800\n0 0\n30 40\nnodes 2 placed 1 same 0 blocked 0\n";

const FULL: &str = "path 2 cost 12800\n0 0\n30 40\nnodes 2 placed 1 same 0 blocked 0\n\
    node 0 at 0 0 parent 0 cost 0\nnode 1 at 30 40 parent 0 cost 12800\n\
    mark 0 worker 0 turn 0 nearest 0 placed class 1 first 0 12800\n";

/// What a byte of a room is that no call has written.
const UNWRITTEN: u8 = b'#';

/// What a call that plans tells.
#[derive(Clone, Copy, Debug, PartialEq, Eq)]
struct Told {
    status: u32,
    count: usize,
    line: u32,
    kind: u32,
}

/// The call of a command.
#[derive(Clone, Copy, Debug, PartialEq, Eq)]
enum Call {
    Plan,
    PlanFull,
    Smooth,
}

fn answer_to(alloc: Global, call: Call, scene: &[u8], room: &mut [u8]) -> Told {
    let (mut count, mut line, mut kind) = (1, 1, 1);
    let status = match call {
        Call::Smooth => kimorefo_smooth(alloc, scene, room, &mut count, &mut line, &mut kind),
        _ => kimorefo_plan(
            alloc,
            scene,
            call == Call::PlanFull,
            room,
            &mut count,
            &mut line,
            &mut kind,
        ),
    };
    Told {
        status,
        count,
        line,
        kind,
    }
}

fn unwritten<R: Abort>(rt: &R, alloc: Global, bytes: usize) -> Vec<u8> {
    match vec![in alloc; UNWRITTEN; bytes] {
        Ok(room) => room,
        Err(_) => panic!(rt; "no memory"),
    }
}

/// Whether a text stands at the front of a room, and the rest is unwritten.
fn is_written(room: &[u8], text: &str) -> bool {
    match room.strip_prefix(text.as_bytes()) {
        Some(rest) => rest.iter().all(|byte| *byte == UNWRITTEN),
        None => false,
    }
}

/// A call over a room of so many bytes tells this, and writes that text.
fn expect<R: Abort>(
    rt: &R,
    alloc: Global,
    (call, scene): (Call, &str),
    bytes: usize,
    (want, text): (Told, &str),
) {
    let mut room = unwritten(rt, alloc, bytes);
    let is_told = answer_to(alloc, call, scene.as_bytes(), room.as_mut_slice()) == want;
    assert!(rt; is_told, "{call:?} of {scene} into {bytes}");
    assert!(rt; is_written(&room, text), "{call:?} of {scene} into {bytes}");
    drop(room);
}

/// A success, or too little room.
fn counted(status: u32, count: usize) -> Told {
    Told {
        status,
        count,
        line: 0,
        kind: 0,
    }
}

/// A refusal, with the line and the kind of a fault.
fn refused(status: u32, line: u32, kind: u32) -> Told {
    Told {
        status,
        count: 0,
        line,
        kind,
    }
}

#[test]
fn a_report_stands_at_the_front_of_its_room(rt: HostRuntime) {
    for bytes in [62, 63, 1000] {
        expect(
            &rt,
            rt.alloc(),
            (Call::Plan, ONE_MARK),
            bytes,
            (counted(0, 62), SHORT),
        );
    }
    for bytes in [190, 1000] {
        expect(
            &rt,
            rt.alloc(),
            (Call::PlanFull, ONE_MARK),
            bytes,
            (counted(0, 190), FULL),
        );
    }
}

#[test]
fn too_little_room_is_left_as_it_was(rt: HostRuntime) {
    for bytes in [0, 1, 61] {
        expect(
            &rt,
            rt.alloc(),
            (Call::Plan, ONE_MARK),
            bytes,
            (counted(NO_ROOM, 62), ""),
        );
        expect(
            &rt,
            rt.alloc(),
            (Call::Smooth, ONE_MARK),
            bytes,
            (counted(NO_ROOM, 62), ""),
        );
    }
    expect(
        &rt,
        rt.alloc(),
        (Call::PlanFull, ONE_MARK),
        189,
        (counted(NO_ROOM, 190), ""),
    );
}

/// The straight way passes the point of a node.
const BENT: &str =
    "prrt 1\nroom 100 100\nstart 0 0\ngoal 40 79 40 79\nstep 50\ngamma 1000\nmark 0 50\nmark 40 79\nmark 40 30\n";

#[test]
fn a_path_is_smoothed(rt: HostRuntime) {
    let bent = "path 3 cost 25344\n0 0\n40 30\n40 79\nnodes 4 placed 3 same 0 blocked 0\n";
    expect(
        &rt,
        rt.alloc(),
        (Call::Plan, BENT),
        100,
        (counted(0, 68), bent),
    );
    let straight = "path 2 cost 22669\n0 0\n40 79\nnodes 4 placed 3 same 0 blocked 0\n";
    expect(
        &rt,
        rt.alloc(),
        (Call::Smooth, BENT),
        100,
        (counted(0, 62), straight),
    );
}

#[test]
fn without_a_path_the_status_is_another(rt: HostRuntime) {
    let beside = "prrt 1\nroom 100 100\nstart 0 0\ngoal 30 40 30 40\nstep 100\nmark 30 41\n";
    let want = (
        counted(1, 42),
        "no path\nnodes 2 placed 1 same 0 blocked 0\n",
    );
    expect(&rt, rt.alloc(), (Call::Plan, beside), 50, want);
    expect(&rt, rt.alloc(), (Call::Smooth, beside), 50, want);
}

#[test]
fn a_refusal_is_told_in_numbers(rt: HostRuntime) {
    for (scene, want) in [
        ("", refused(3, 1, 1)),
        (
            "prrt 1\nroom 100 100\nstart 0 0\ngoal 30 40 30 40\nstep 0\n",
            refused(3, 5, 5),
        ),
        (
            "prrt 1\nroom 100 100\nstart 0 0\nstep 9\n",
            refused(3, 5, 9),
        ),
        (
            "prrt 1\nroom 10 10\nstart 11 5\ngoal 0 0 9 9\nstep 4\n",
            refused(4, 0, 0),
        ),
    ] {
        for call in [Call::Plan, Call::PlanFull, Call::Smooth] {
            expect(&rt, rt.alloc(), (call, scene), 100, (want, ""));
        }
    }
}

/// A judgement of a report tells this status, line, kind and law.
fn expect_judged<R: Abort>(rt: &R, alloc: Global, scene: &[u8], report: &str, want: [u32; 4]) {
    let (mut line, mut kind, mut law) = (1, 1, 1);
    let status = kimorefo_check(
        alloc,
        scene,
        report.as_bytes(),
        &mut line,
        &mut kind,
        &mut law,
    );
    assert!(rt; [status, line, kind, law] == want, "{report}");
}

#[test]
fn reports_are_judged(rt: HostRuntime) {
    let scene = ONE_MARK.as_bytes();
    expect_judged(&rt, rt.alloc(), scene, FULL, [0, 0, 0, 0]);
    expect_judged(&rt, rt.alloc(), scene, SHORT, [1, 5, 0, 1]);
    expect_judged(&rt, rt.alloc(), scene, "", [1, 1, 0, 1]);
    expect_judged(&rt, rt.alloc(), b"prrt 1\nroom 0 100\n", FULL, [3, 2, 5, 0]);
    expect_judged(
        &rt,
        rt.alloc(),
        b"prrt 1\nroom 9 9\nstart 11 5\ngoal 0 0 9 9\nstep 4\n",
        FULL,
        [4, 0, 0, 0],
    );
}

#[test]
fn one_byte_too_many_is_refused_without_a_line(rt: HostRuntime) {
    let most = unwritten(&rt, rt.alloc(), 16_777_216);
    expect_judged(&rt, rt.alloc(), &most, FULL, [3, 2, 1, 0]);
    drop(most);
    let long = unwritten(&rt, rt.alloc(), 16_777_217);
    expect_judged(&rt, rt.alloc(), &long, FULL, [3, 0, 0, 0]);
    let mut room = unwritten(&rt, rt.alloc(), 9);
    assert_eq!(rt;
        answer_to(rt.alloc(), Call::Plan, &long, room.as_mut_slice()),
        refused(3, 0, 0)
    );
    assert!(rt; is_written(&room, ""));
    drop(room);
    drop(long);
}

#[test]
fn the_library_names_its_version_and_its_logic(rt: HostRuntime) {
    assert_eq!(rt; kimorefo_version(), VERSION);
    for (bytes, status, text) in [
        (15, NO_ROOM, ""),
        (16, 0, "dac8208d650f15bf"),
        (17, 0, "dac8208d650f15bf"),
    ] {
        let mut room = unwritten(&rt, rt.alloc(), bytes);
        let mut count = 1;
        assert_eq!(rt; kimorefo_logic(room.as_mut_slice(), &mut count), status);
        assert_eq!(rt; count, 16);
        assert!(rt; is_written(&room, text));
        drop(room);
    }
}
