//! The line of a mark in a report, read with its line feed.

ghost use Rattle.std.specs.Prelude.{◌≡◌, ◌++◌, ◌<◌, ◌≤◌, ◌^◌, ℕ, Bool, List, IfNone, IfSome, codes};
ghost use Rattle.plan_model.specs.Reports.ReportText.{line, ending_words};
ghost use Rattle.plan_model.specs.Runs.Endings.{ending_of};
ghost use Rattle.plan_model.specs.declared.limits.TheConstants.{MOST_MARKS};
ghost use Rattle.plan_model.specs.declared.records.Record.{Record};
ghost use Rattle.report_judge.specs.Texts.ReportLines.{FitsEntry, field, line_text};
ghost use Rattle.report_judge.specs.Texts.ReportLines.ReportLine.{MarkLine};

use crate::reading::fields::after;
use crate::reading::mark_fields::{read_nearest, read_placed, read_same, read_skipped, read_turn};
use plan_model::{Outcome, Record};

/// The record of a mark, and what stands after its line; `None` exactly if the text does not begin with a line of this mark in a report
/// over so many marks, of a scene that is informed or is not. O(n) for n bytes of it.
pub(crate) fn read_mark(text: &[u8], k: u32, marks: u32, informed: bool) -> Option<(Record, &[u8])>
    requires low { k < marks }
    requires few { marks ≤ MOST_MARKS }
    ensures fits { IfSome result (λ read. FitsEntry (record { marks = marks; informed = informed }) read.0) }
    ensures some { IfSome result (λ read. text.now ≡ line_text (MarkLine k read.0) ++ read.1.now) }
    ensures none { IfNone result ((entry : Record) (rest : List ℕ) → FitsEntry (record { marks = marks; informed = informed }) entry
        → ¬ (text.now ≡ line_text (MarkLine k entry) ++ rest)) }
{
    let (front, rest) = read_turn(text, marks)?;
    if front.mark != k {
        return None;
    }
    let (entry, rest) = read_outcome(rest, front.worker, front.turn, marks, informed)?;
    Some((entry, rest))
}

/// The record of a mark with this worker and turn, from what stands after them, and what stands after its line; `None` exactly if the
/// line does not go on so.
fn read_outcome(
    text: &[u8],
    worker: u32,
    turn: u32,
    marks: u32,
    informed: bool,
) -> Option<(Record, &[u8])>
    requires worker { worker < 64 }
    requires turn { turn < 2 ^ 18 }
    requires few { marks ≤ MOST_MARKS }
    ensures fits { IfSome result (λ read. FitsEntry (record { marks = marks; informed = informed }) read.0) }
    ensures own { IfSome result (λ read. (read.0.worker ≡ worker) × (read.0.turn ≡ turn)) }
    ensures some { IfSome result (λ read. text.now ≡ line (ending_words (ending_of read.0)) ++ read.1.now) }
    ensures none { IfNone result ((entry : Record) (rest : List ℕ) → FitsEntry (record { marks = marks; informed = informed }) entry
        → ¬ (text.now ≡ line (ending_words (ending_of entry)) ++ rest)) }
{
    if let Some((nearest, rest)) = read_nearest(text, marks) {
        return read_steered(rest, worker, turn, nearest, marks);
    }
    if !informed {
        return None;
    }
    let (goal, rest) = read_skipped(text, marks)?;
    let entry = Record::unplaced(worker, turn, goal, Outcome::Skipped);
    Some((entry, rest))
}

/// The same of a mark that was steered to from a nearest node, from what stands after that.
fn read_steered(
    text: &[u8],
    worker: u32,
    turn: u32,
    nearest: u32,
    marks: u32,
) -> Option<(Record, &[u8])>
    requires worker { worker < 64 }
    requires turn { turn < 2 ^ 18 }
    requires nearest { nearest ≤ marks }
    requires few { marks ≤ MOST_MARKS }
    ensures fits { (informed : Bool) → IfSome result (λ read. FitsEntry (record { marks = marks; informed = informed }) read.0) }
    ensures own { IfSome result (λ read. (read.0.worker ≡ worker) × (read.0.turn ≡ turn)) }
    ensures some { IfSome result (λ read. field (codes "nearest ") nearest 32 text.now ≡ line (ending_words (ending_of read.0)) ++ read.1.now) }
    ensures none { (informed : Bool) → IfNone result ((entry : Record) (rest : List ℕ) → FitsEntry (record { marks = marks; informed = informed }) entry
        → ¬ (field (codes "nearest ") nearest 32 text.now ≡ line (ending_words (ending_of entry)) ++ rest)) }
{
    if let Some((first, rest)) = read_placed(text, marks) {
        let entry = Record {
            worker,
            turn,
            nearest,
            outcome: Outcome::Placed,
            first_parent: first.parent,
            first_cost: first.cost,
            class: first.class,
        };
        return Some((entry, rest));
    }
    if let Some((node, rest)) = read_same(text, marks) {
        let entry = Record::unplaced(worker, turn, nearest, Outcome::Same(node));
        return Some((entry, rest));
    }
    let rest = after(text, b"blocked\n")?;
    let entry = Record::unplaced(worker, turn, nearest, Outcome::Blocked);
    Some((entry, rest))
}
