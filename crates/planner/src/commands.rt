//! The commands that the words of the command line may ask for.

ghost use Rattle.std.specs.Prelude.{◌≡◌, ◌≤◌, map, string_bytes, IfSome};
ghost use Rattle.planner.specs.Commands.{command_of, command_of_word, command_of_two, command_of_three, command_about};
ghost use Rattle.planner.specs.Commands.{anytime_by, batch_by, plan_by, number_in, waits, IsNumbered};

use crate::generated_scenes::MOST_GENERATED;
use crate::number_words::{number_in, slice_in};
use crate::worker_counts::WorkerCount;

/// What the words of the command line ask for.
#[derive(Clone, Copy, Debug, PartialEq, Eq)]
pub enum Command {
    /// `plain` and `plain full`: the report of the textbook run of the scene that is read.
    Plain {
        /// Whether it is the full report, with a line for each node and each mark; otherwise it is the short one.
        full: bool,
    },
    /// `plan W` and `plan W full`: the report of a run of the scene that is read, grown by several workers.
    Plan {
        /// How many workers grow it.
        workers: WorkerCount,
        /// Whether it is the full report; otherwise it is the short one.
        full: bool,
    },
    /// `smooth W`: the short report of a run of the scene that is read, grown by so many workers, with its path smoothed.
    Smooth(WorkerCount),
    /// `anytime W S`: the better paths of a run of the scene that is read, as they come while it grows by a slice of marks at a time,
    /// and the short report of the run.
    Anytime {
        /// How many workers grow it.
        workers: WorkerCount,
        /// How many marks a slice has: 1 to `MOST_MARKS`.
        slice: u32,
    },
    /// `twin W`: the report of two trees of the scene that is read, from its start and from the middle of its first goal, each grown by
    /// so many workers.
    Twin(WorkerCount),
    /// `batch W S`: for each of the scenes that are read, what `anytime W S` says of it.
    Batch {
        /// How many workers grow each run.
        workers: WorkerCount,
        /// How many marks a slice has: 1 to `MOST_MARKS`.
        slice: u32,
    },
    /// `check`: the verdict on the full report that is read after its scene.
    Check,
    /// `show`: the canonical text of the scene that is read.
    Show,
    /// `convert`: the canonical text of the scene that is read, in version 2.
    Convert,
    /// `gen N`: the canonical text of the generated scene of this number.
    Gen(u32),
    /// `trial N`: the summary of the textbook run of the generated scene of this number.
    Trial(u32),
}

impl Command {
    /// Whether it is done under an executor, and so may wait: `anytime W S` and `batch W S`.
    pub fn waits(&self) -> bool
        ensures { result ≡ waits self.now }
    {
        matches!(self, Command::Anytime { .. } | Command::Batch { .. })
    }
}

/// The command that the words ask for, without the program's name. `None` if they ask for none.
pub fn command_of(words: &[String]) -> Option<Command>
    ensures value { result ≡ command_of (map string_bytes words.now) }
    ensures numbered { IfSome result IsNumbered }
{
    match words {
        [] => None,
        [word] => command_of_word(word.as_str()),
        [word, second] => command_of_two(word.as_str(), second.as_str()),
        [word, second, third] => command_of_three(word.as_str(), second.as_str(), third.as_str()),
        _ => None,
    }
}

/// The command that one word asks for.
fn command_of_word(word: &str) -> Option<Command>
    ensures value { result ≡ command_of_word word.now }
    ensures numbered { IfSome result IsNumbered }
{
    match word {
        "plain" => Some(Command::Plain { full: false }),
        "check" => Some(Command::Check),
        "show" => Some(Command::Show),
        "convert" => Some(Command::Convert),
        _ => None,
    }
}

/// The command that two words ask for.
fn command_of_two(word: &str, second: &str) -> Option<Command>
    ensures value { result ≡ command_of_two word.now second.now }
    ensures numbered { IfSome result IsNumbered }
{
    match (word, second) {
        ("plain", "full") => Some(Command::Plain { full: true }),
        ("plan", _) => plan_by(second, false),
        ("smooth", _) => Some(Command::Smooth(WorkerCount::in_word(second)?)),
        ("twin", _) => Some(Command::Twin(WorkerCount::in_word(second)?)),
        _ => command_about(word, number_in(second.as_bytes(), 0, MOST_GENERATED)?),
    }
}

/// The command that three words ask for.
fn command_of_three(word: &str, second: &str, third: &str) -> Option<Command>
    ensures value { result ≡ command_of_three word.now second.now third.now }
    ensures numbered { IfSome result IsNumbered }
{
    match (word, third) {
        ("plan", "full") => plan_by(second, true),
        ("anytime", _) => anytime_by(second, third),
        ("batch", _) => batch_by(second, third),
        _ => None,
    }
}

/// The command to plan by so many workers, which a word says.
fn plan_by(word: &str, full: bool) -> Option<Command>
    ensures value { result ≡ plan_by full word.now }
    ensures numbered { IfSome result IsNumbered }
{
    let workers = WorkerCount::in_word(word)?;
    Some(Command::Plan { workers, full })
}

/// The command to grow a run by so many workers, so many marks at a time, which two words say.
fn anytime_by(second: &str, third: &str) -> Option<Command>
    ensures value { result ≡ anytime_by second.now third.now }
    ensures numbered { IfSome result IsNumbered }
{
    let workers = WorkerCount::in_word(second)?;
    let slice = slice_in(third)?;
    Some(Command::Anytime { workers, slice })
}

/// The command to grow a run of each of several scenes by so many workers, so many marks at a time, which two words say.
fn batch_by(second: &str, third: &str) -> Option<Command>
    ensures value { result ≡ batch_by second.now third.now }
    ensures numbered { IfSome result IsNumbered }
{
    let workers = WorkerCount::in_word(second)?;
    let slice = slice_in(third)?;
    Some(Command::Batch { workers, slice })
}

/// The command of a word about the generated scene of a number.
fn command_about(word: &str, number: u32) -> Option<Command>
    requires { number ≤ MOST_GENERATED }
    ensures value { result ≡ command_about word.now number }
    ensures numbered { IfSome result IsNumbered }
{
    match word {
        "gen" => Some(Command::Gen(number)),
        "trial" => Some(Command::Trial(number)),
        _ => None,
    }
}
