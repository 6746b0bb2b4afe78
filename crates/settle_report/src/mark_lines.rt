//! The lines of a full report on the marks of a run.

ghost use Rattle.std.specs.Prelude.{◌≡◌, ◌++◌, OnOk, string_bytes};
ghost use Rattle.plan_model.specs.Reports.ReportText.{ending_words, line, mark_line, mark_lines};
ghost use Rattle.plan_model.specs.Runs.Endings.{ending_of};
ghost use Rattle.grown_runs.specs.Runs.GrownRuns.{state_of_grown};
ghost use Rattle.settle_report.specs.SettledMarks.{words_before_outcome};

use grown_runs::Grown;
use plan_model::{Outcome, Record};
use std::alloc::AllocError;

/// A line for each mark that was handled, in rising number: its worker and turn, and what became of it. O(n) for n marks.
///
/// # Errors
///
/// `AllocError` if out of memory for the text.
pub(crate) fn push_mark_lines(text: &mut String, grown: &Grown) -> Result<(), AllocError>
    ensures { OnOk result (string_bytes text.new ≡ string_bytes text.old ++ mark_lines grown.now.limit (state_of_grown grown.now)) }
{
    for mark in 0..grown.limit() {
        push_mark_line(text, mark, grown.record_of(mark))?;
    }
    Ok(())
}

/// Appends the line of one mark, as a full report has it: its worker and turn, and what became of it. O(1).
///
/// # Errors
///
/// `AllocError` if out of memory for the text, which may then end with a part of the line.
pub fn push_mark_line(text: &mut String, mark: u32, entry: Record) -> Result<(), AllocError>
    ensures { OnOk result (string_bytes text.new ≡ string_bytes text.old ++ mark_line mark entry) }
{
    push_handling(text, mark, entry)?;
    push_outcome(text, entry)
}

/// The words of a mark's line before its outcome, each with a space after it.
fn push_handling(text: &mut String, mark: u32, entry: Record) -> Result<(), AllocError>
    ensures { OnOk result (string_bytes text.new ≡ string_bytes text.old ++ words_before_outcome mark entry) }
{
    write!(
        text,
        "mark {mark} worker {} turn {} ",
        entry.worker, entry.turn
    )
}

/// The rest of a mark's line: what became of it.
fn push_outcome(text: &mut String, entry: Record) -> Result<(), AllocError>
    ensures { OnOk result (string_bytes text.new ≡ string_bytes text.old ++ line (ending_words (ending_of entry))) }
{
    match entry.outcome {
        Outcome::Placed => write!(
            text,
            "nearest {} placed class {} first {} {}\n",
            entry.nearest, entry.class, entry.first_parent, entry.first_cost
        ),
        Outcome::Same(node) => write!(text, "nearest {} same {node}\n", entry.nearest),
        Outcome::Blocked => write!(text, "nearest {} blocked\n", entry.nearest),
        Outcome::Skipped => write!(text, "skipped by {}\n", entry.nearest),
    }
}
