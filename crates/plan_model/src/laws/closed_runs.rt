//! Laws of closed runs, each the contract of a function that does nothing.

ghost use Rattle.std.specs.Prelude.{◌≡◌, ℕ, suc, ◌+◌, ◌<◌, List, [], Option, Some, length};
ghost use Rattle.plan_model.specs.Trees.BestNode.{best_node};
ghost use Rattle.plan_model.specs.Spaces.Clearance.{ClearAt, IsClearPath};
ghost use Rattle.plan_model.specs.Runs.ClosedLaw.{IsClosed, mark_at, outcome_count};
ghost use Rattle.plan_model.specs.Runs.OrderLaw.{KeepsFirstCosts, AreTurns, RunFromZero};
ghost use Rattle.plan_model.specs.Runs.Outcomes.{is_blocked, is_placed, is_same, is_skipped};
ghost use Rattle.plan_model.specs.Trees.NodeLists.{AreNumberedTo, IsPresent, node_count};
ghost use Rattle.plan_model.specs.Reports.ReportText.{best_path, path_to};
ghost use Rattle.plan_model.specs.Runs.Textbook.{IsTextbookRun, Nodes, Setup, IsOfTextbookRun};
ghost use Rattle.plan_model.specs.Trees.TreeStates.{GrowsInto, IsSettled, TreeState, state_of};
ghost use Rattle.plan_model.specs.declared.geometry.Point.{Point};
ghost use Rattle.plan_model.specs.declared.limits.TheConstants.{MOST_WORKERS};
ghost use Rattle.plan_model.specs.declared.records.Record.{Record};
ghost use Rattle.plan_model.specs.declared.geometry.Goal.{Goal};

/// A textbook run from a clear start is closed at the number of its marks.
pub fn textbook_run_is_closed()
    ensures { (setup : Setup) (marks : List Point) (tree : Nodes) (records : List Record)
        → ClearAt setup.space setup.start → IsTextbookRun setup marks tree records
        → IsClosed setup marks (length marks) (state_of tree records) }
{}

/// The tree of a textbook run from a clear start, kept as any other list or table, is closed at the number of its marks
/// and settled.
pub fn trees_of_textbook_runs_are_closed()
    ensures closed { (setup : Setup) (marks : List Point) (state : TreeState) → ClearAt setup.space setup.start
        → IsOfTextbookRun setup marks state → IsClosed setup marks (length marks) state }
    ensures settled { (setup : Setup) (marks : List Point) (state : TreeState) → ClearAt setup.space setup.start
        → IsOfTextbookRun setup marks state → IsSettled state }
{}

/// In a closed run costs strictly fall along parents, so there is no cycle, and no node costs more than
/// it was placed at.
pub fn costs_of_closed_runs_fall()
    ensures falls { (setup : Setup) (marks : List Point) (limit : ℕ) (state : TreeState)
        → IsClosed setup marks limit state
        → (n : ℕ) → IsPresent state.points (suc n) → state.cost (state.parent (suc n)) < state.cost (suc n) }
    ensures first_costs { (setup : Setup) (marks : List Point) (limit : ℕ) (state : TreeState)
        → IsClosed setup marks limit state → KeepsFirstCosts setup state }
{}

/// In a closed run the placed, the same, the blocked and the skipped marks add up to the limit, and none is skipped if there are no
/// goals by which marks are skipped. There is a node for each placed mark beside the start, and no node has a number past the limit.
pub fn marks_of_closed_runs_add_up()
    ensures outcomes { (setup : Setup) (marks : List Point) (limit : ℕ) (state : TreeState)
        → IsClosed setup marks limit state
        → ((outcome_count state.record_of limit is_placed + outcome_count state.record_of limit is_same)
        + outcome_count state.record_of limit is_blocked) + outcome_count state.record_of limit is_skipped ≡ limit }
    ensures none_skipped { (setup : Setup) (marks : List Point) (limit : ℕ) (state : TreeState)
        → IsClosed setup marks limit state
        → setup.goals ≡ [] → outcome_count state.record_of limit is_skipped ≡ 0 }
    ensures nodes { (setup : Setup) (marks : List Point) (limit : ℕ) (state : TreeState)
        → IsClosed setup marks limit state
        → node_count state.points ≡ suc (outcome_count state.record_of limit is_placed) }
    ensures numbers { (setup : Setup) (marks : List Point) (limit : ℕ) (state : TreeState)
        → IsClosed setup marks limit state → AreNumberedTo limit state.points }
{}

/// Turns of which each is counted once run from 0, with no gap and none twice, and such turns are counted once each.
pub fn counted_turns_run_from_0()
    ensures run { (record_of : ℕ → Option Record) (limit : ℕ)
        → ((k : ℕ) (entry : Record) → record_of k ≡ Some entry → k < limit)
        → AreTurns limit record_of → RunFromZero record_of }
    ensures counted { (record_of : ℕ → Option Record) (limit : ℕ)
        → ((k : ℕ) (entry : Record) → record_of k ≡ Some entry → k < limit)
        → RunFromZero record_of → AreTurns limit record_of }
{}

/// The closed law has one proof at most: what is only known of it is so.
pub fn closed_law_has_one_proof()
    ensures { (setup : Setup) (marks : List Point) (limit : ℕ) (state : TreeState)
        → IsProp (IsClosed setup marks limit state) }
{}

/// In a closed run each edge of the path to a node is clear, and so is each edge of the best path.
pub fn paths_of_closed_runs_are_clear()
    ensures path { (setup : Setup) (marks : List Point) (limit : ℕ) (state : TreeState)
        → IsClosed setup marks limit state → (n : ℕ) → IsPresent state.points n → IsClearPath setup.space (path_to state n) }
    ensures best { (setup : Setup) (marks : List Point) (limit : ℕ) (state : TreeState)
        → IsClosed setup marks limit state
        → (goals : List Goal) → IsClearPath setup.space (best_path state (best_node goals limit state)) }
{}
