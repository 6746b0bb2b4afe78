//! What other languages call.

ghost use Rattle.std.specs.Prelude.{◌≡◌, codes};
ghost use Rattle.plan_c.specs.Calls.{HasAnswered, HasJudged, HandsOut};
ghost use Rattle.planner.specs.declared.commands.Command.{Command};

use crate::answers::{judge_alone, plan_alone, smooth_alone};
use crate::rooms::{answer_out, hand_out};
use crate::told_causes::tell_verdict;
use std::alloc::Global;

/// Major, minor and patch number of the version, as `major * 100_000 + minor * 100 + patch`.
pub const VERSION: u32 = 1000;

/// The logic of the toolchain that proves this, as `rt version` names it.
pub const LOGIC: &str = "dac8208d650f15bf";

/// The status of a call whose text has no room.
pub const NO_ROOM: u32 = 9;

/// Plans the scene that a text spells as `plan 1` or `plan 1 full` does, and writes the report at the front of the room.
///
/// The status is that of the program. With 0 and 1 the report stands in the room, and the count is that of its bytes. With 9 it has
/// more bytes than the room, and the count says how many. With 3 line and kind are those of the fault of the text, or 0 if it has too
/// many bytes. Line, kind and count are 0 where nothing is said of them, and no other byte of the room is written.
#[unsafe(no_mangle)]
pub extern "C" fn kimorefo_plan(
    alloc: Global,
    text: &[u8],
    full: bool,
    room: &mut [u8],
    count: &mut usize,
    line: &mut u32,
    kind: &mut u32,
) -> u32
    ensures answered { HasAnswered (Command.Plan 1 full) text.now room.old room.new count.new line.new kind.new result }
{
    answer_out(plan_alone(alloc, text, full), room, count, line, kind)
}

/// Plans the scene that a text spells as `smooth 1` does. All else is as in [`kimorefo_plan`].
#[unsafe(no_mangle)]
pub extern "C" fn kimorefo_smooth(
    alloc: Global,
    text: &[u8],
    room: &mut [u8],
    count: &mut usize,
    line: &mut u32,
    kind: &mut u32,
) -> u32
    ensures answered { HasAnswered (Command.Smooth 1) text.now room.old room.new count.new line.new kind.new result }
{
    answer_out(smooth_alone(alloc, text), room, count, line, kind)
}

/// Judges a report as one of the scene that a text spells, as `check` does.
///
/// The status is that of the program. With 1 the report breaks the law, first at the line. With 3 line and kind are those of the fault
/// of the text, or 0 if it or the report has too many bytes: more than 4,294,967,294 in a report, which is looked at before the text.
/// Line, kind and law are 0 where nothing is said of them.
#[unsafe(no_mangle)]
pub extern "C" fn kimorefo_check(
    alloc: Global,
    text: &[u8],
    report: &[u8],
    line: &mut u32,
    kind: &mut u32,
    law: &mut u32,
) -> u32
    ensures judged { HasJudged text.now report.now line.new kind.new law.new result }
{
    tell_verdict(judge_alone(alloc, text, report), line, kind, law)
}

/// The version of the planner: [`VERSION`].
#[unsafe(no_mangle)]
pub extern "C" fn kimorefo_version() -> u32
    ensures { result ≡ 1000 }
{
    VERSION
}

/// Writes the logic of the toolchain that proves this, [`LOGIC`], at the front of the room, with status and count as in
/// [`kimorefo_plan`].
#[unsafe(no_mangle)]
pub extern "C" fn kimorefo_logic(room: &mut [u8], count: &mut usize) -> u32
    ensures { HandsOut (codes "dac8208d650f15bf") 0 room.old room.new count.new result }
{
    hand_out(LOGIC.as_bytes(), 0, room, count)
}
