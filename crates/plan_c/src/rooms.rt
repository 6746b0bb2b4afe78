//! What is written into the room of a caller.

ghost use Rattle.std.specs.Prelude.{◌≡◌, IfErr, IfOk};
ghost use Rattle.plan_c.specs.Calls.{HandsOut, HandsOutAnswer};

use crate::exports::NO_ROOM;
use crate::told_causes::tell_refusal;
use planner::{Answer, Refusal};

/// Writes a text at the front of a room, if it fits, and counts its bytes; the status is then this one.
pub(crate) fn hand_out(text: &[u8], status: u8, room: &mut [u8], count: &mut usize) -> u32
    ensures { HandsOut text.now status room.old room.new count.new result }
{
    *count = text.len();
    if text.len() > room.len() {
        return NO_ROOM;
    }
    let (front, _) = room.split_at_mut(text.len());
    front.copy_from_slice(text);
    u32::from(status)
}

/// Hands out an answer: its text into the room, or the cause of its refusal as numbers.
pub(crate) fn answer_out(
    answer: Result<Answer, Refusal>,
    room: &mut [u8],
    count: &mut usize,
    line: &mut u32,
    kind: &mut u32,
) -> u32
    ensures { HandsOutAnswer answer room.old room.new count.new line.new kind.new result }
{
    match answer {
        Ok(Answer { done, text }) => {
            *line = 0;
            *kind = 0;
            hand_out(&text, done.status, room, count)
        }
        Err(refusal) => {
            *count = 0;
            tell_refusal(refusal, line, kind)
        }
    }
}
