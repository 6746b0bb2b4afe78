//! The counts of a report.

ghost use Rattle.std.specs.Prelude.{◌≡◌, ◌≤◌, ℕ, List, Option, length, slice_get};
ghost use Rattle.plan_model.specs.Runs.ClosedLaw.{outcome_count};
ghost use Rattle.plan_model.specs.Runs.Outcomes.{is_blocked, is_placed, is_same};
ghost use Rattle.plan_model.specs.declared.limits.TheConstants.{MOST_MARKS};
ghost use Rattle.plan_model.specs.declared.trees.Knot.{Knot};
ghost use Rattle.settle_report.specs.SettledMarks.{AreCounts};
ghost use Rattle.grown_runs.specs.Runs.PackedRuns.{state_of_lists};
ghost use Rattle.report_judge.specs.Laws.SheetLaws.{skipped_of};

use plan_model::Record;
use settle_report::OutcomeCounts;

/// The counts of a report: of nodes, and of marks by what became of them.
#[derive(Clone, Copy, PartialEq, Eq)]
pub(crate) struct Tally {
    /// The nodes.
    pub nodes: u64,
    /// The marks that were placed.
    pub placed: u64,
    /// The marks that ended where a node stood already.
    pub same: u64,
    /// The marks that were blocked.
    pub blocked: u64,
    /// The marks that were skipped, in an informed scene.
    pub skipped: Option<u64>,
}

/// The counts of so many nodes and of marks by their records. Skipped marks are counted where the scene is informed. O(n) for n marks.
pub(crate) fn counted(informed: bool, nodes: u32, records: &[Record]) -> Tally
    requires { length records.now ≤ MOST_MARKS }
    ensures nodes { result.nodes ≡ nodes }
    ensures placed { result.placed ≡ outcome_count (slice_get records.now) (length records.now) is_placed }
    ensures same { result.same ≡ outcome_count (slice_get records.now) (length records.now) is_same }
    ensures blocked { result.blocked ≡ outcome_count (slice_get records.now) (length records.now) is_blocked }
    ensures skipped { (knots : List (Option Knot)) → result.skipped ≡ skipped_of informed (length records.now) (state_of_lists knots records.now) }
{
    let counts = counts_of(records);
    let skipped = if informed { Some(counts.skipped) } else { None };
    Tally {
        nodes: u64::from(nodes),
        placed: counts.placed,
        same: counts.same,
        blocked: counts.blocked,
        skipped,
    }
}

/// The outcomes of marks, counted.
fn counts_of(records: &[Record]) -> OutcomeCounts
    requires { length records.now ≤ MOST_MARKS }
    ensures { AreCounts (slice_get records.now) (length records.now) result }
{
    let mut counts = OutcomeCounts::NONE;
    for entry in records {
        counts.count(entry.outcome);
    }
    counts
}
