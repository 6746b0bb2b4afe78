//! Why the program writes no report: the status that it ends with, and the line that it writes, which takes no memory.

ghost use Rattle.std.specs.Prelude.{◌≡◌, ◌≤◌, ◌<◌, ◌+◌, ◌++◌, length, decimal};
ghost use Rattle.planner.specs.Refusals.{message_of, line_of, status_of};
ghost use Rattle.planner.specs.declared.short_lines.TheConstants.{LINE_CAPACITY};

use crate::short_lines::{Line, line_from, push, push_number};
use crate::statuses::{
    GOAL_BLOCKED, NO_MEMORY, READ_FAULT, START_BLOCKED, TEXT_REFUSED, WORDS_REFUSED,
};
use plan_model::{Kind, Memory};
use scene_text::{FetchFault, SceneRefusal};
use std::error::Error;
use std::fmt;
use std::fmt::{Display, Formatter};
use twin_trees::TwinFault;

/// Why the program writes no report. It is displayed as its line, without the line feed.
#[derive(Clone, Copy, Debug, PartialEq, Eq)]
pub enum Refusal {
    /// The words of the command line ask for no command.
    Words,
    /// More bytes came than a text may have.
    TooLong,
    /// The text is not what the command reads: a scene, scenes with lines `next` between them, or a scene, a line `report` and a report.
    /// The number of the line, from 1, and the kind of its fault.
    Text(u32, Kind),
    /// The start of the scene is not clear.
    StartBlocked,
    /// The middle of the first goal is not clear.
    GoalBlocked,
    /// The source could not be read.
    ReadFault,
    /// The program is out of memory, or, with `anytime W S` and `batch W S`, the runtime cannot be cloned or gives no executor.
    Memory,
}

impl Refusal {
    /// The status that the program ends with.
    pub fn status(&self) -> u8
        ensures { result ≡ status_of self.now }
    {
        match self {
            Refusal::Words => WORDS_REFUSED,
            Refusal::TooLong | Refusal::Text(..) => TEXT_REFUSED,
            Refusal::StartBlocked => START_BLOCKED,
            Refusal::GoalBlocked => GOAL_BLOCKED,
            Refusal::ReadFault => READ_FAULT,
            Refusal::Memory => NO_MEMORY,
        }
    }

    /// The line that the program writes, with its line feed.
    pub fn line(&self) -> Line
        ensures { result.bytes ≡ line_of self.now }
    {
        let mut line = self.message();
        push(&mut line, "\n");
        line
    }

    /// The line without its line feed.
    fn message(&self) -> Line
        ensures text { result.bytes ≡ message_of self.now }
        ensures short { length result.bytes < LINE_CAPACITY }
    {
        match self {
            Refusal::Words => line_from("words refused"),
            Refusal::TooLong => line_from("text too long"),
            Refusal::Text(number, kind) => fault_message(*number, *kind),
            Refusal::StartBlocked => line_from("start blocked"),
            Refusal::GoalBlocked => line_from("goal blocked"),
            Refusal::ReadFault => line_from("read fault"),
            Refusal::Memory => line_from("no memory"),
        }
    }
}

impl Display for Refusal {
    ghost use Rattle.std.specs.Prelude.{Some};
    ghost use Rattle.planner.specs.Refusals.{message_of};

    ghost output = { λ refusal. Some (message_of refusal) };

    fn fmt<W: fmt::Write>(&self, f: &mut Formatter<W>) -> fmt::Result {
        f.write_str(self.message().as_str())
    }
}

impl Error for Refusal {}

impl From<FetchFault> for Refusal {
    ghost use Rattle.planner.specs.Refusals.{refusal_of_fetch};
    ghost use Rattle.std.specs.Prelude.{◌≡◌};

    ghost from_gives = { λ fault refusal. refusal ≡ refusal_of_fetch fault };

    fn from(fault: FetchFault) -> Refusal {
        match fault {
            FetchFault::Read => Refusal::ReadFault,
            FetchFault::TooLong => Refusal::TooLong,
            FetchFault::Memory => Refusal::Memory,
        }
    }
}

impl From<SceneRefusal> for Refusal {
    ghost use Rattle.planner.specs.Refusals.{refusal_of_scene};
    ghost use Rattle.std.specs.Prelude.{◌≡◌};

    ghost from_gives = { λ fault refusal. refusal ≡ refusal_of_scene fault };

    fn from(refusal: SceneRefusal) -> Refusal {
        match refusal {
            SceneRefusal::Fault(fault) => Refusal::Text(fault.line, fault.kind),
            SceneRefusal::Memory => Refusal::Memory,
        }
    }
}

impl From<TwinFault> for Refusal {
    ghost use Rattle.planner.specs.Refusals.{refusal_of_twin};
    ghost use Rattle.std.specs.Prelude.{◌≡◌};

    ghost from_gives = { λ fault refusal. refusal ≡ refusal_of_twin fault };

    fn from(fault: TwinFault) -> Refusal {
        match fault {
            TwinFault::GoalBlocked => Refusal::GoalBlocked,
            TwinFault::Memory => Refusal::Memory,
        }
    }
}

impl From<Memory> for Refusal {
    ghost use Rattle.planner.specs.declared.refusals.Refusal.TheVariants as refusals;
    ghost use Rattle.std.specs.Prelude.{◌≡◌};

    ghost from_gives = { λ _ refusal. refusal ≡ refusals.Memory };

    fn from(_memory: Memory) -> Refusal {
        Refusal::Memory
    }
}

/// Of a text that is no scene: the number of the line, and the kind of its fault.
fn fault_message(number: u32, kind: Kind) -> Line
    ensures text { result.bytes ≡ message_of (Refusal.Text number kind) }
    ensures short { length result.bytes < LINE_CAPACITY }
{
    let mut line = Line::new();
    push(&mut line, "line ");
    push_number(&mut line, number);
    push(&mut line, " kind ");
    push_number(&mut line, kind.number());
    push(&mut line, " ");
    push(&mut line, kind.name());
    line
}
