//! Laws of verdicts on reports, each the contract of a function that does nothing.

ghost use Rattle.std.specs.Prelude.{◌≡◌, ℕ, List};
ghost use Rattle.plan_model.specs.Spaces.Clearance.{ClearAt};
ghost use Rattle.plan_model.specs.Spaces.ConfigurationSpace.{space_of};
ghost use Rattle.plan_model.specs.declared.tasks.Task.{Task};
ghost use Rattle.report_judge.specs.Laws.Verdicts.{IsBroken, IsLawful, IsReportOfRun};

/// Bytes that break no law are the full report of a settled run of the task that is closed over all of its marks, if the start is
/// clear; and such a report breaks no law.
pub fn lawful_bytes_are_reports_of_runs()
    ensures run { (task : Task) (report : List ℕ) → ClearAt (space_of task.scene) task.scene.start → IsLawful task report
        → IsReportOfRun task report }
    ensures lawful { (task : Task) (report : List ℕ) → IsReportOfRun task report → IsLawful task report }
{}

/// Bytes have one verdict: lawful ones break no law, and others one law at one line.
pub fn bytes_have_one_verdict()
    ensures not_both { (task : Task) (report : List ℕ) (law line : ℕ) → IsLawful task report → ¬ IsBroken task report law line }
    ensures one_break { (task : Task) (report : List ℕ) (law line other_law other_line : ℕ) → IsBroken task report law line
        → IsBroken task report other_law other_line → (law ≡ other_law) × (line ≡ other_line) }
{}
