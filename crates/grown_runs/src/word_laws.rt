//! Laws of the words, each the contract of a function that does nothing.

ghost use Rattle.std.specs.Prelude.{◌≡◌, ℕ, ◌<◌, ◌^◌, ◌↔◌, Bool, false, List, Option, Some, None, length};
ghost use Rattle.std.specs.Int.{bit_at};
ghost use Rattle.plan_model.specs.Geometry.Plane.{IsBounded};
ghost use Rattle.plan_model.specs.Runs.ClosedLaw.{IsClosed};
ghost use Rattle.plan_model.specs.Runs.Textbook.{setup_of};
ghost use Rattle.plan_model.specs.Trees.TreeStates.{AreSameRuns};
ghost use Rattle.plan_model.specs.declared.geometry.Point.{Point};
ghost use Rattle.plan_model.specs.declared.records.Record.{Record};
ghost use Rattle.plan_model.specs.declared.trees.Knot.{Knot};
ghost use Rattle.grown_runs.specs.Runs.GrownRuns.{state_of_grown};
ghost use Rattle.grown_runs.specs.Runs.PackedRuns.{state_of_lists};
ghost use Rattle.plan_model.specs.declared.tasks.Task.{Task};
ghost use Rattle.grown_runs.specs.Table.WordKinds.{AreBehind};
ghost use Rattle.grown_runs.specs.Runs.GrownWords.{HoldRun, cleared, is_linked, has_node, sizes_of, state_by, state_of_words};
ghost use Rattle.grown_runs.specs.Table.WordNames.{Word, Words, WritesWord};
ghost use Rattle.grown_runs.specs.Table.WordNames.Word.{Best, ChildOf};
ghost use Rattle.grown_runs.specs.Table.WordPlaces.{HasWord, Sizes, place_of, word_count};
ghost use Rattle.grown_runs.specs.declared.grown.Grown.{Grown};
ghost use Rattle.grown_runs.specs.Table.Words.{FitsWord, IsFirstWord, point_of_word, point_word, record_of_word, record_word, tree_of_word, tree_word};

/// What is packed is read again: a point, a parent with its cost, and a whole record with the first word of its node.
pub fn packed_words_are_read_again()
    ensures point { (p : Point) → IsBounded p → point_of_word (point_word p) ≡ Some p }
    ensures tree { (parent cost : ℕ) → parent < 2 ^ 18 → cost < 2 ^ 44 → tree_of_word (tree_word parent cost) ≡ Some (parent, cost) }
    ensures record { (entry : Record) (first : ℕ) → FitsWord entry → IsFirstWord entry first
        → record_of_word (record_word entry) first ≡ Some entry }
{}

/// Packed words fit 64 bits.
pub fn packed_words_fit()
    ensures point { (p : Point) → IsBounded p → point_word p < 2 ^ 64 }
    ensures tree { (parent cost : ℕ) → parent < 2 ^ 18 → cost < 2 ^ 44 → tree_word parent cost < 2 ^ 64 }
    ensures record { (entry : Record) → FitsWord entry → record_word entry < 2 ^ 64 }
{}

/// Different values have different words: values with the same word are the same. For records the first words count too.
pub fn different_values_have_different_words()
    ensures point { (p q : Point) → IsBounded p → IsBounded q → point_word p ≡ point_word q → p ≡ q }
    ensures parent { (parent other cost more : ℕ) → parent < 2 ^ 18 → other < 2 ^ 18 → cost < 2 ^ 44 → more < 2 ^ 44
        → tree_word parent cost ≡ tree_word other more → parent ≡ other }
    ensures cost { (parent other cost more : ℕ) → parent < 2 ^ 18 → other < 2 ^ 18 → cost < 2 ^ 44 → more < 2 ^ 44
        → tree_word parent cost ≡ tree_word other more → cost ≡ more }
    ensures record { (one other : Record) (first : ℕ) → FitsWord one → FitsWord other → IsFirstWord one first → IsFirstWord other first
        → record_word one ≡ record_word other → one ≡ other }
{}

/// A word holds nothing exactly if its bit 63 is 0.
pub fn words_without_bit_63_hold_nothing()
    ensures point { (word : ℕ) → word < 2 ^ 64 → (point_of_word word ≡ None ↔ bit_at word 63 ≡ 0) }
    ensures tree { (word : ℕ) → word < 2 ^ 64 → (tree_of_word word ≡ None ↔ bit_at word 63 ≡ 0) }
    ensures record { (word first : ℕ) → word < 2 ^ 64 → (record_of_word word first ≡ None ↔ bit_at word 63 ≡ 0) }
{}

/// A lower cost has a lower word, whichever the parents are.
pub fn lower_costs_have_lower_words()
    ensures { (parent other cost more : ℕ) → parent < 2 ^ 18 → cost < more → tree_word parent cost < tree_word other more }
{}

/// Words of different names have different places, each among the words of the run.
pub fn words_have_their_own_places()
    ensures once { (sizes : Sizes) (name other : Word) → HasWord sizes name → HasWord sizes other → place_of sizes name ≡ place_of sizes other
        → name ≡ other }
    ensures within { (sizes : Sizes) (name : Word) → HasWord sizes name → place_of sizes name < word_count sizes }
{}

/// Each word may stay as it is, and what may become of words in two steps may become of them in one.
pub fn words_go_on()
    ensures stay { (words : Words) → AreBehind words words }
    ensures go_on { (words later last : Words) → AreBehind words later → AreBehind later last → AreBehind words last }
{}

/// A run is closed by its type, and so is each run that is given by lists and is the same: it may be packed.
pub fn runs_may_be_packed_again()
    ensures closed { (grown : Grown) → IsClosed (setup_of grown.task.scene) grown.task.marks grown.limit (state_of_grown grown) }
    ensures again { (grown : Grown) (knots : List (Option Knot)) (records : List Record)
        → AreSameRuns (state_of_grown grown) (state_of_lists knots records) → length records ≡ grown.limit
        → IsClosed (setup_of grown.task.scene) grown.task.marks (length records) (state_of_lists knots records) }
{}

/// The best word is no part of a run at rest: whatever is written there, the words are still those of the run, with the same tree.
pub fn best_words_are_no_part_of_runs()
    ensures run { (task : Task) (limit word : ℕ) (words after : Words) → HoldRun task limit words → WritesWord Best word words after
        → HoldRun task limit after }
    ensures state { (task : Task) (word : ℕ) (words after : Words) → WritesWord Best word words after
        → state_of_words (sizes_of task) after ≡ state_of_words (sizes_of task) words }
{}

/// In a closed run the same nodes are present by their links as by their records, nothing is written for a number without a node,
/// and so its words are the cleared ones.
pub fn closed_runs_link_their_nodes()
    ensures links { (task : Task) (limit : ℕ) (words : Words) → HoldRun task limit words → (n : ℕ) → is_linked (sizes_of task) words n ≡ has_node words n }
    ensures state { (task : Task) (limit : ℕ) (words : Words) → HoldRun task limit words
        → state_by (is_linked (sizes_of task) words) (sizes_of task) words ≡ state_of_words (sizes_of task) words }
    ensures no_child { (task : Task) (limit : ℕ) (words : Words) → HoldRun task limit words → (n : ℕ) (side : Bool) → has_node words n ≡ false
        → words (ChildOf n side) ≡ 0 }
    ensures cleared { (task : Task) (limit : ℕ) (words : Words) → HoldRun task limit words → cleared words ≡ words }
{}
