//! Laws of reports, each the contract of a function that does nothing.

ghost use Rattle.std.specs.Prelude.{◌≡◌, ℕ, Bool, List};
ghost use Rattle.plan_model.specs.Trees.BestNode.{best_node, goals_of};
ghost use Rattle.plan_model.specs.Spaces.Clearance.{ClearAt};
ghost use Rattle.plan_model.specs.Runs.OrderLaw.{KeepsOrder};
ghost use Rattle.plan_model.specs.Reports.ReportText.{report_text, summary};
ghost use Rattle.plan_model.specs.Runs.Textbook.{IsOfTextbookRun, Setup};
ghost use Rattle.plan_model.specs.Trees.TreeStates.{AreSameRuns, TreeState};
ghost use Rattle.plan_model.specs.declared.geometry.Point.{Point};
ghost use Rattle.plan_model.specs.declared.geometry.Goal.{Goal};
ghost use Rattle.plan_model.specs.declared.scenes.Scene.{Scene};

/// Runs that are the same, however they are kept, have the same best node, the same report, short and full, and the same
/// summary. One of them keeps the order law, as every closed run does.
pub fn same_runs_have_the_same_report()
    ensures best { (setup : Setup) (one other : TreeState) → KeepsOrder setup one → AreSameRuns one other
        → (goals : List Goal) (limit : ℕ) → best_node goals limit other ≡ best_node goals limit one }
    ensures report { (setup : Setup) (one other : TreeState) → KeepsOrder setup one → AreSameRuns one other
        → (scene : Scene) (limit : ℕ) (full : Bool) → report_text full scene limit other ≡ report_text full scene limit one }
    ensures summary { (setup : Setup) (one other : TreeState) → KeepsOrder setup one → AreSameRuns one other
        → (scene : Scene) (limit : ℕ) → summary scene limit other ≡ summary scene limit one }
{}

/// Trees of the textbook run over the same marks, from a start that is clear, are the same run, and so have the same report,
/// short and full, and the same summary.
pub fn textbook_runs_have_one_report()
    ensures run { (setup : Setup) (marks : List Point) (one other : TreeState) → ClearAt setup.space setup.start
        → IsOfTextbookRun setup marks one → IsOfTextbookRun setup marks other → AreSameRuns one other }
    ensures report { (setup : Setup) (marks : List Point) (one other : TreeState) → ClearAt setup.space setup.start
        → IsOfTextbookRun setup marks one → IsOfTextbookRun setup marks other
        → (scene : Scene) (limit : ℕ) (full : Bool) → report_text full scene limit other ≡ report_text full scene limit one }
    ensures summary { (setup : Setup) (marks : List Point) (one other : TreeState) → ClearAt setup.space setup.start
        → IsOfTextbookRun setup marks one → IsOfTextbookRun setup marks other
        → (scene : Scene) (limit : ℕ) → summary scene limit other ≡ summary scene limit one }
{}

/// Of the scene a report looks at its goals alone, and whether it is informed: scenes that have the same ones, and are both informed or
/// neither, have the same report of each tree, short and full, and the same summary.
pub fn same_goals_have_the_same_report()
    ensures report { (one other : Scene) (limit : ℕ) (state : TreeState) → goals_of other ≡ goals_of one → other.informed ≡ one.informed
        → (full : Bool)
        → report_text full other limit state ≡ report_text full one limit state }
    ensures summary { (one other : Scene) (limit : ℕ) (state : TreeState) → goals_of other ≡ goals_of one → other.informed ≡ one.informed
        → summary other limit state ≡ summary one limit state }
{}
