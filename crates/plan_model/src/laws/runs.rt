//! Laws of the textbook run, each the contract of a function that does nothing.

ghost use Rattle.std.specs.Prelude.{◌≡◌, ℕ, List, Option};
ghost use Rattle.plan_model.specs.declared.configuration_spaces.ConfigurationSpace.{ConfigurationSpace};
ghost use Rattle.plan_model.specs.Scenes.MarkPoints.{mark_points};
ghost use Rattle.plan_model.specs.Trees.Nearness.{IsNearest};
ghost use Rattle.plan_model.specs.Trees.NodeLists.{AreDistinct, points_of};
ghost use Rattle.plan_model.specs.Runs.Textbook.{HaveSameFields, HaveSameInputs, Ends, IsBestParent, IsTextbookRun, Nodes, Rewires, RewiresOne, Setup};
ghost use Rattle.plan_model.specs.Runs.Textbook.{setup_of};
ghost use Rattle.plan_model.specs.Runs.Endings.{Ending, FirstHanging, NewNode, NoWay, Reached, SameNode, SkippedBy, Steered};
ghost use Rattle.plan_model.specs.Runs.Endings.{ending_of, record_of_ending};
ghost use Rattle.plan_model.specs.declared.geometry.Point.{Point};
ghost use Rattle.plan_model.specs.declared.records.Record.{Record};
ghost use Rattle.plan_model.specs.declared.scenes.Scene.{Scene};

/// Records with the same fields are the same.
pub fn records_are_their_fields()
    ensures { (one other : Record) → HaveSameFields one other → one ≡ other }
{}

/// The nearest node, the best parent, each step of rewiring and the tree after all steps are unique.
pub fn choices_are_unique()
    ensures nearest { (points : List (Option Point)) (q : Point) (m n : ℕ) → IsNearest points q m → IsNearest points q n
        → m ≡ n }
    ensures parent { (setup : Setup) (tree : Nodes) (nearest : ℕ) (p : Point) (f g : ℕ)
        → IsBestParent setup tree nearest p f → IsBestParent setup tree nearest p g → f ≡ g }
    ensures rewired_one { (space : ConfigurationSpace) (tree : Nodes) (n i : ℕ) (one other : Nodes)
        → RewiresOne space tree n i one → RewiresOne space tree n i other → one ≡ other }
    ensures rewired { (space : ConfigurationSpace) (tree : Nodes) (n : ℕ) (near : List ℕ) (one other : Nodes)
        → Rewires space tree n near one → Rewires space tree n near other → one ≡ other }
{}

/// The record of what became of a mark says it, and each record is that of what it says.
pub fn records_are_their_endings()
    ensures said { (worker turn : ℕ) (ending : Ending) → ending_of (record_of_ending worker turn ending) ≡ ending }
    ensures again { (entry : Record) → record_of_ending entry.worker entry.turn (ending_of entry) ≡ entry }
{}

/// A mark has one outcome: no two of Same, Blocked, Placed and Skipped.
pub fn outcomes_exclude_each_other()
    ensures same_or_blocked { (setup : Setup) (tree : Nodes) (k : ℕ) (mark : Point) (m n j : ℕ) (after others : Nodes)
        → Ends setup tree k mark (Steered m (SameNode j)) after → ¬ Ends setup tree k mark (Steered n NoWay) others }
    ensures same_or_placed { (setup : Setup) (tree : Nodes) (k : ℕ) (mark : Point) (m n j : ℕ) (first : FirstHanging) (after others : Nodes)
        → Ends setup tree k mark (Steered m (SameNode j)) after → ¬ Ends setup tree k mark (Steered n (NewNode first)) others }
    ensures blocked_or_placed { (setup : Setup) (tree : Nodes) (k : ℕ) (mark : Point) (m n : ℕ) (first : FirstHanging) (after others : Nodes)
        → Ends setup tree k mark (Steered m NoWay) after → ¬ Ends setup tree k mark (Steered n (NewNode first)) others }
    ensures steered_or_skipped { (setup : Setup) (tree : Nodes) (k : ℕ) (mark : Point) (m g : ℕ) (reached : Reached) (after others : Nodes)
        → Ends setup tree k mark (Steered m reached) after → ¬ Ends setup tree k mark (SkippedBy g) others }
{}

/// No two nodes of a textbook run stand at one point.
pub fn nodes_stand_apart()
    ensures { (setup : Setup) (marks : List Point) (tree : Nodes) (records : List Record)
        → IsTextbookRun setup marks tree records → AreDistinct (points_of tree) }
{}

/// The textbook run is one run: the same setup and marks give the same tree and the same records.
pub fn textbook_run_is_unique()
    ensures tree { (setup : Setup) (marks : List Point) (one other : Nodes) (records entries : List Record)
        → IsTextbookRun setup marks one records → IsTextbookRun setup marks other entries
        → one ≡ other }
    ensures records { (setup : Setup) (marks : List Point) (one other : Nodes) (records entries : List Record)
        → IsTextbookRun setup marks one records → IsTextbookRun setup marks other entries
        → records ≡ entries }
{}

/// Scenes with the same space, start, step, gamma and marks, and the same goals by which marks may be skipped, have the same run.
pub fn same_inputs_have_the_same_run()
    ensures { (one other : Scene) (tree : Nodes) (records : List Record) → HaveSameInputs one other
        → IsTextbookRun (setup_of one) (mark_points one) tree records
        → IsTextbookRun (setup_of other) (mark_points other) tree records }
{}
