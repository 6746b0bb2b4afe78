//! Whether each placed mark has a node, and no other mark.

ghost use Rattle.std.specs.Prelude.{◌≡◌, suc, length};
ghost use Rattle.plan_model.specs.Runs.Outcomes.{is_placed as is_placed_outcome};
ghost use Rattle.report_judge.specs.Laws.FirstBreaks.{IsFirstBreak, KeepsPresence};

use plan_model::{Knot, Outcome, Record};

/// The first mark that was placed and has no node, or was not placed and has one; `None` exactly if there is no such mark. O(n) for n
/// marks.
pub(crate) fn first_unlike(knots: &[Option<Knot>], records: &[Record]) -> Option<usize>
    requires { length knots.now ≡ suc (length records.now) }
    ensures { IsFirstBreak (KeepsPresence knots.now records.now) (length records.now) result }
{
    for (k, entry) in records.iter().enumerate() {
        if knots[k + 1].is_some() != is_placed(entry.outcome) {
            return Some(k);
        }
    }
    None
}

/// Whether a node was placed for the mark. O(1).
pub(crate) fn is_placed(outcome: Outcome) -> bool
    ensures { result ≡ is_placed_outcome outcome }
{
    matches!(outcome, Outcome::Placed)
}
