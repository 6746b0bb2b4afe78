//! What it means that a text is cut at a report. The law is the contract of a function that does nothing.

ghost use Rattle.std.specs.Prelude.{◌≡◌, ℕ, List};
ghost use Rattle.report_judge.specs.Texts.ReportCuts.{HasNoReportLine, IsCutAtReport};

/// A text is cut at one place at most, and one that is cut has a line that is exactly `report`.
pub fn cuts_are_unique()
    ensures scene { (text scene report other_scene other_report : List ℕ) → IsCutAtReport text scene report
        → IsCutAtReport text other_scene other_report → scene ≡ other_scene }
    ensures report { (text scene report other_scene other_report : List ℕ) → IsCutAtReport text scene report
        → IsCutAtReport text other_scene other_report → report ≡ other_report }
    ensures not_both { (text scene report : List ℕ) → IsCutAtReport text scene report → ¬ HasNoReportLine text }
{}
