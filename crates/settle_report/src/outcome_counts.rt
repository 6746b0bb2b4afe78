//! How many marks had each outcome.

ghost use Rattle.std.specs.Prelude.{◌≡◌, ◌+◌, ◌<◌, ◌^◌};
ghost use Rattle.settle_report.specs.SettledMarks.{with_outcome};

use plan_model::Outcome;

/// How many marks had each outcome.
#[derive(Clone, Copy, Debug, PartialEq, Eq)]
pub struct OutcomeCounts {
    /// The marks that were placed.
    pub placed: u64,
    /// The marks that ended where a node stood already.
    pub same: u64,
    /// The marks that were blocked.
    pub blocked: u64,
    /// The marks that were skipped.
    pub skipped: u64,
}

impl OutcomeCounts {
    /// Those of no marks.
    pub const NONE: OutcomeCounts = OutcomeCounts {
        placed: 0,
        same: 0,
        blocked: 0,
        skipped: 0,
    };

    /// Counts the outcome of one mark more. O(1).
    pub fn count(&mut self, outcome: Outcome)
        requires { ((self.old.placed + self.old.same) + self.old.blocked) + self.old.skipped < 2 ^ 32 }
        ensures { self.new ≡ with_outcome self.old outcome }
    {
        match outcome {
            Outcome::Placed => self.placed += 1,
            Outcome::Same(_) => self.same += 1,
            Outcome::Blocked => self.blocked += 1,
            Outcome::Skipped => self.skipped += 1,
        }
    }
}
