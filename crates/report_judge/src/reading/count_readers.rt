//! The line of counts of a report, read with its line feed.

ghost use Rattle.std.specs.Prelude.{◌≡◌, ◌++◌, ◌∷◌, ◌<◌, ◌^◌, ℕ, List, Option, IfNone, IfSome, codes, decimal};
ghost use Rattle.plan_model.specs.Reports.ReportText.{line};
ghost use Rattle.report_judge.specs.Texts.ReportLines.{FitsSkipped, FitsTally, line_text, skipped_count};
ghost use Rattle.report_judge.specs.Texts.ReportLines.ReportLine.{Counts};
ghost use Rattle.report_judge.specs.declared.tallies.Tally.{Tally};

use crate::reading::fields::read_field;
use crate::tallies::Tally;

/// The counts at the end of a line of counts.
#[derive(Clone, Copy)]
struct LastCounts {
    /// The blocked marks.
    blocked: u64,
    /// The skipped ones, in an informed scene.
    skipped: Option<u64>,
}

/// The counts of a line, and what stands after the line; `None` exactly if the text does not begin with such a line of a report of a
/// scene that is informed, or is not. O(n) for n bytes of it.
pub(crate) fn read_counts(text: &[u8], informed: bool) -> Option<(Tally, &[u8])>
    ensures fits { IfSome result (λ read. FitsTally informed read.0) }
    ensures some { IfSome result (λ read. text.now ≡ line_text (Counts read.0) ++ read.1.now) }
    ensures none { IfNone result ((tally : Tally) (rest : List ℕ) → FitsTally informed tally → ¬ (text.now ≡ line_text (Counts tally) ++ rest)) }
{
    let (nodes, rest) = read_field(text, b"nodes ", b' ', u64::MAX)?;
    let (placed, rest) = read_field(rest, b"placed ", b' ', u64::MAX)?;
    let (same, rest) = read_field(rest, b"same ", b' ', u64::MAX)?;
    let (last, rest) = read_last_counts(rest, informed)?;
    let tally = Tally {
        nodes,
        placed,
        same,
        blocked: last.blocked,
        skipped: last.skipped,
    };
    Some((tally, rest))
}

/// The count of blocked marks, and that of skipped ones in an informed scene; `None` exactly if the line does not go on so.
fn read_last_counts(text: &[u8], informed: bool) -> Option<(LastCounts, &[u8])>
    ensures fits { IfSome result (λ read. (read.0.blocked < 2 ^ 64) × FitsSkipped informed read.0.skipped) }
    ensures some { IfSome result (λ read. text.now ≡ line (codes "blocked" ∷ decimal read.0.blocked ∷ skipped_count read.0.skipped) ++ read.1.now) }
    ensures none { IfNone result ((blocked : ℕ) (skipped : Option ℕ) (rest : List ℕ) → blocked < 2 ^ 64 → FitsSkipped informed skipped
        → ¬ (text.now ≡ line (codes "blocked" ∷ decimal blocked ∷ skipped_count skipped) ++ rest)) }
{
    if !informed {
        let (blocked, rest) = read_field(text, b"blocked ", b'\n', u64::MAX)?;
        let last = LastCounts {
            blocked,
            skipped: None,
        };
        return Some((last, rest));
    }
    let (blocked, rest) = read_field(text, b"blocked ", b' ', u64::MAX)?;
    let (skipped, rest) = read_field(rest, b"skipped ", b'\n', u64::MAX)?;
    let last = LastCounts {
        blocked,
        skipped: Some(skipped),
    };
    Some((last, rest))
}
