//! Two runs of a scene, one from each end.

use plan_model::Memory;
use std::error::Error;
use std::fmt;
use step_core::Grown;

/// Two settled runs of a scene over all of its marks, one from each end, and the bridge between them.
#[derive(Drop)]
pub struct Twin {
    /// The run of the scene itself.
    pub from_start: Grown,
    /// The run of the scene from the other end: it starts in the middle of the first goal, and its only goal is the start.
    pub from_goal: Grown,
    /// A node of the first run and one of the second with a clear segment of at most a step between them, over which the way costs least;
    /// of those over which it costs as much, the one with the least number in the first run, and then in the second. `None` if there are
    /// no two such nodes.
    pub bridge: Option<(u32, u32)>,
}

/// Why there are no two trees.
#[derive(Clone, Copy, Debug, PartialEq, Eq)]
pub enum TwinFault {
    /// The body is not clear in the middle of the first goal.
    GoalBlocked,
    /// Out of memory.
    Memory,
}

impl fmt::Display for TwinFault {
    ghost use Rattle.std.specs.Prelude.{Some};
    ghost use Rattle.twin_trees.specs.Twins.{fault_message};

    ghost output = { λ fault. Some (fault_message fault) };

    fn fmt<W: fmt::Write>(&self, f: &mut fmt::Formatter<W>) -> fmt::Result {
        match self {
            TwinFault::GoalBlocked => write!(f, "the middle of the first goal is not clear"),
            TwinFault::Memory => write!(f, "out of memory"),
        }
    }
}

impl Error for TwinFault {}

impl From<Memory> for TwinFault {
    ghost use Rattle.twin_trees.specs.declared.twin_runs.TwinFault.TheVariants as faults;
    ghost use Rattle.std.specs.Prelude.{◌≡◌};

    ghost from_gives = { λ _ fault. fault ≡ faults.Memory };

    fn from(_memory: Memory) -> TwinFault {
        TwinFault::Memory
    }
}
