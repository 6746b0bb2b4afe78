//! Laws of settled runs that grow, each the contract of a function that does nothing.

ghost use Rattle.std.specs.Prelude.{ℕ, ◌≤◌, List};
ghost use Rattle.plan_model.specs.Trees.BestNode.{IsBestNode, IsGoalNode};
ghost use Rattle.plan_model.specs.Spaces.Clearance.{ClearAt};
ghost use Rattle.plan_model.specs.Trees.NodeLists.{IsPresent};
ghost use Rattle.plan_model.specs.Runs.Textbook.{IsOfTextbookRun, Setup};
ghost use Rattle.plan_model.specs.Trees.TreeStates.{ChangesCosts, GrowsInto, IsSettled, TreeState, sum_in};
ghost use Rattle.plan_model.specs.declared.geometry.Point.{Point};
ghost use Rattle.plan_model.specs.declared.geometry.Goal.{Goal};

/// If a settled run grows into a settled one, no node's sum rises, goal nodes stay, and the best node of the later run has no greater
/// sum than that of the earlier.
pub fn sums_of_settled_runs_fall()
    ensures sums { (before after : TreeState) → GrowsInto before after → IsSettled before → IsSettled after
        → (n : ℕ) → IsPresent before.points n → sum_in after n ≤ sum_in before n }
    ensures goals { (goals : List Goal) (before after : TreeState) → GrowsInto before after
        → (n : ℕ) → IsGoalNode goals before.points n → IsGoalNode goals after.points n }
    ensures best { (goals : List Goal) (before after : TreeState) (m n : ℕ) → GrowsInto before after → IsSettled before → IsSettled after
        → IsBestNode goals before m → IsBestNode goals after n → sum_in after n ≤ sum_in before m }
{}

/// A tree of a textbook run from a clear start is one still once its costs are settled.
pub fn settling_keeps_textbook_runs()
    ensures { (setup : Setup) (marks : List Point) (before after : TreeState) → ClearAt setup.space setup.start
        → IsOfTextbookRun setup marks before → ChangesCosts before after → IsSettled after → IsOfTextbookRun setup marks after }
{}
