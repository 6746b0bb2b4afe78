//! The statuses that the program ends with, each said once.

ghost use Rattle.planner.specs.Endings.{FixedNumbers, WorkedStatuses};

/// The command is done; for `plain` and `plan W`, in short or in full, for `smooth W`, `anytime W S` and `trial`, a path was found, for
/// `batch W S` one of each scene, for `twin W` a bridge; for `check`, the report is lawful.
pub const DONE: u8 = 0;

/// `plain` and `plan W`, in short or in full, `smooth W`, `anytime W S` and `trial`: no node of the tree lies in a goal. `batch W S`: so of
/// some tree. `twin W`: there is no bridge. `check`: the report breaks a law.
pub const NO_PATH: u8 = 1;

/// The words of the command line ask for no command.
pub const WORDS_REFUSED: u8 = 2;

/// The text is too long, or is not what the command reads: a scene, scenes with lines `next` between them, or a scene, a line `report` and
/// a report.
pub const TEXT_REFUSED: u8 = 3;

/// The scene's start, or one of those of several, is not clear.
pub const START_BLOCKED: u8 = 4;

/// The source could not be read.
pub const READ_FAULT: u8 = 5;

/// The sink could not be written.
pub const WRITE_FAULT: u8 = 6;

/// The program is out of memory, or, with `anytime W S` and `batch W S`, the runtime cannot be cloned or gives no executor.
pub const NO_MEMORY: u8 = 7;

/// The middle of the scene's first goal is not clear.
pub const GOAL_BLOCKED: u8 = 8;

/// The statuses, the number of the last generated scene, and how many scenes a batch may have, have the values that callers know.
pub fn fixed_numbers()
    ensures { FixedNumbers }
{}

/// Worked values of the tables of commands, and of a text that is too long by one byte.
pub fn worked_statuses()
    ensures { WorkedStatuses }
{}
