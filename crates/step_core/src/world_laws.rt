//! The law of worlds: how a world begins, that each step keeps it, and what it says of marks, workers, links and what was seen. Each law
//! is the contract of a function that does nothing. It speaks of a moment between two steps (`specs/Steps`): the words of the run, the
//! views of its passes, and the one that steps next.

ghost use Rattle.std.specs.Prelude.{◌≡◌, ◌≢◌, ◌↔◌, ℕ, suc, ◌+◌, ◌<◌, ◌≤◌, ◌^◌, Bool, true, List, [], ◌∷◌, ◌++◌, length, slice_set, IsSome, Some, None};
ghost use lib.ListN.{get_elem?};
ghost use mathlib.Core.Option.{some};
ghost use Rattle.plan_model.specs.Scenes.MarkPoints.{is_claimed, quota_of};
ghost use Rattle.plan_model.specs.Runs.Textbook.{skipping_goals};
ghost use Rattle.plan_model.specs.Trees.BestNode.{IsGoalNode};
ghost use Rattle.plan_model.specs.Trees.NodeLists.{IsFree, node_count};
ghost use Rattle.plan_model.specs.Seen.Sights.{EndsSince, IsLaterMoment, KeepsSight};
ghost use Rattle.plan_model.specs.Trees.TreeStates.{TreeState};
ghost use Rattle.plan_model.specs.declared.geometry.Point.{Point};
ghost use Rattle.plan_model.specs.declared.limits.TheConstants.{MOST_WORKERS};
ghost use Rattle.plan_model.specs.declared.records.Record.{Record};
ghost use Rattle.plan_model.specs.declared.tasks.Task.{Task};
ghost use Rattle.grown_runs.specs.Runs.GrownWords.{HoldRun, IsLinked, children_of_words, cleared, has_node, is_linked, record_at, run_words, sizes_of};
ghost use Rattle.grown_runs.specs.Runs.GrownWords.{state_of_words};
ghost use Rattle.step_core.specs.Histories.{HasCome, WasFree, WasSo, StandsAsSeen, HasLooked, IsLater, IsLawfulView};
ghost use Rattle.step_core.specs.Notes.{FillsNoPlace, IsLoaded, NotesAsSeen, SeesSome, last_seen};
ghost use Rattle.step_core.specs.SeenBests.{IsInformed, IsUnskipped, MayPost};
ghost use Rattle.grown_runs.specs.Runs.PackedRuns.{IsLeastBest};
ghost use Rattle.step_core.specs.SeenRecords.{own_count};
ghost use Rattle.step_core.specs.Stages.{linked_points};
ghost use Rattle.step_core.specs.Steps.{Holds, IsMoment, MayCheapen, MayClaim, MayFinish, MayJoin, MayLink, Moment, Step, Steps, steps_by, view_after, views_after};
ghost use Rattle.step_core.specs.Views.{newcomer, holds, last_look, last_zero, run_of, run_sizes, sees, share, spent, tree_seen};
ghost use Rattle.step_core.specs.ViewSteps.{best_loaded, best_with, posted};
ghost use Rattle.step_core.specs.ViewSteps.{claimed, counted, finished, half, joined, linked, loaded, looker, lowered, pair_in_hand, parted};
ghost use Rattle.step_core.specs.ViewSteps.{pointed, stepped, steps_then, treed, worker_apart};
ghost use Rattle.step_core.specs.ViewTrees.{IsOnWayOf, IsSteered, LeadsTo, MayHang, MayLoad, SeesNode, sight_in};
ghost use Rattle.grown_runs.specs.Table.WordKinds.{AreBehind, MayBecome, kind_of};
ghost use Rattle.grown_runs.specs.Table.WordNames.{Word, Words, WritesWord};
ghost use Rattle.grown_runs.specs.Table.WordNames.Word.{Best, ChildOf, Count, Counter, FirstOf, PointOf, RecordOf, TreeOf};
ghost use Rattle.grown_runs.specs.Table.WordPlaces.{word_count};
ghost use Rattle.grown_runs.specs.Table.Words.{best_cost_in, best_node_in, best_word, no_best};
ghost use Rattle.grown_runs.specs.Table.Words.{cost_in, parent_in, point_of_word, point_word, record_word, tree_of_word, tree_word};
ghost use Rattle.step_core.specs.Worlds.{IsTold, IsWorld, counters, is_recorded};
ghost use Rattle.step_core.specs.declared.views.Hand.{Hand};
ghost use Rattle.step_core.specs.declared.views.SharedRun.{SharedRun};
ghost use Rattle.step_core.specs.declared.views.Stage.TheVariants.{Claimed, Half, Linked, Pointed, Posted, Treed};
ghost use Rattle.step_core.specs.declared.views.View.{View};

/// The words of a closed run are a lawful world with one view, which has the share of all workers and has seen all words, once the best
/// word is the least pair of its goal nodes by which marks are skipped.
pub fn closed_runs_begin_worlds()
    ensures { (task : Task) (limit workers : ℕ) (items : List ℕ) → length items ≡ word_count (sizes_of task) → HoldRun task limit (run_words task items)
        → IsLeastBest (skipping_goals task.scene) (state_of_words (sizes_of task) (run_words task items)) (run_words task items Best)
        → 1 ≤ workers → workers ≤ MOST_WORKERS
        → IsWorld (run_of task workers limit) (run_words task items) (newcomer (run_of task workers limit) items ∷ []) }
{}

/// Each step keeps the law, of whichever kind it is and whichever view makes it. What each word was may become what it is then, so no cost
/// rises, and the view that stepped is a later one. The laws that follow say it of each kind.
pub fn steps_keep_the_law()
    ensures law { (now : Moment) → IsMoment now → (step : Step) (after : Words) → Steps now step after → IsWorld now.run after (views_after now step) }
    ensures words { (now : Moment) → IsMoment now → (step : Step) (after : Words) → Steps now step after → AreBehind now.words after }
    // the best word does not rise
    ensures best { (now : Moment) → IsMoment now → (step : Step) (after : Words) → Steps now step after → after Best ≤ now.words Best }
    ensures view { (now : Moment) → IsMoment now → (step : Step) (after : Words) → Steps now step after → IsLater now.view (view_after now step) }
{}

/// A claim keeps the law: the counter of a strip goes up by one, and the mark of that number in the strip is in hand.
pub fn claims_keep_the_law()
    ensures law { (now : Moment) → IsMoment now → (strip limit : ℕ) → MayClaim now strip limit → (after : Words)
        → WritesWord (Counter strip) (now.words (Counter strip) + 1) now.words after
        → IsWorld now.run after (slice_set now.views now.id (claimed now.view strip (now.words (Counter strip)) limit (steps_by now))) }
    // a claim that finds another number than was seen finds a higher one
    ensures failed { (now : Moment) → IsMoment now → (strip : ℕ) → now.words (Counter strip) ≢ sees now.view (Counter strip)
        → sees now.view (Counter strip) < now.words (Counter strip) }
{}

/// A load keeps the law. It is of the count, of a counter, or of a seen node's point, child or tree word. What was seen may
/// become what is seen then.
pub fn loads_keep_the_law()
    ensures law { (now : Moment) → IsMoment now → (name : Word) → MayLoad now.view name
        → IsWorld now.run now.words (slice_set now.views now.id (loaded now.view name (now.words name))) }
    ensures seen { (now : Moment) → IsMoment now → (name : Word) → MayLoad now.view name
        → AreBehind (sees now.view) (sees (loaded now.view name (now.words name))) }
    // the point of a seen node is written
    ensures written { (now : Moment) → IsMoment now → (n : ℕ) → SeesNode now.view n → IsSome (point_of_word (now.words (PointOf n))) }
    // and so are its parent and its cost
    ensures written_trees { (now : Moment) → IsMoment now → (n : ℕ) → SeesNode now.view n → IsSome (tree_of_word (now.words (TreeOf n))) }
{}

/// Writing the point of the node in hand keeps the law. Nothing was written for the mark, the mark is not skipped, and the point is a step
/// from a seen node towards it.
pub fn points_keep_the_law()
    ensures { (now : Moment) → IsMoment now → (hand : Hand) → Holds now.view hand Claimed → (m : ℕ) (p : Point) → IsSteered now.view hand.mark m p
        → IsUnskipped now.view hand → (after : Words) → WritesWord (PointOf (suc hand.mark)) (point_word p) now.words after
        → IsWorld now.run after (slice_set now.views now.id (pointed now.view hand m p)) }
{}

/// Writing the first word and then the tree word of the node in hand keeps the law. Both hold the parent and the cost that the
/// node is placed with. The parent is seen, with an edge that is allowed; the cost is what the parent was seen to cost and the
/// edge, and is no more than below the nearest node.
pub fn trees_keep_the_law()
    ensures first { (now : Moment) → IsMoment now → (hand : Hand) → Holds now.view hand Pointed → (parent cost : ℕ) → MayHang now.view hand parent cost
        → (after : Words) → WritesWord (FirstOf (suc hand.mark)) (tree_word parent cost) now.words after
        → IsWorld now.run after (slice_set now.views now.id (half now.view hand parent cost)) }
    ensures tree { (now : Moment) → IsMoment now → (hand : Hand) → Holds now.view hand Half → (after : Words)
        → WritesWord (TreeOf (suc hand.mark)) (pair_in_hand hand) now.words after
        → IsWorld now.run after (slice_set now.views now.id (treed now.view hand)) }
{}

/// A link keeps the law. It puts the node in hand, whose words are written, into an empty child word, to which the way of the
/// point leads over what the view has seen. If that word is not 0, the step only loads it.
pub fn links_keep_the_law()
    ensures law { (now : Moment) → IsMoment now → (hand : Hand) (n : ℕ) (side : Bool) → MayLink now hand n side → (after : Words)
        → WritesWord (ChildOf n side) (suc hand.mark) now.words after
        → IsWorld now.run after (slice_set now.views now.id (linked now.view hand n side (steps_by now))) }
    // a link that finds a child takes the way a step deeper, to that child
    ensures failed { (before after : View) → IsLater before after → (p : Point) (n c : ℕ) (side : Bool) (leads : LeadsTo before p n side)
        → (tree_seen after).child n side ≡ Some c → IsOnWayOf after p (suc leads.depth) c }
    // the linked nodes are those that links lead to from node 0
    ensures linked { (run : SharedRun) (words : Words) (views : List View) → IsWorld run words views → (n : ℕ)
        → is_linked (run_sizes run) words n ≡ true ↔ IsLinked words n }
{}

/// Counting the linked node in hand keeps the law.
pub fn counts_keep_the_law()
    ensures law { (now : Moment) → IsMoment now → (hand : Hand) → Holds now.view hand Linked → (after : Words)
        → WritesWord Count (now.words Count + 1) now.words after → IsWorld now.run after (slice_set now.views now.id (counted now.view hand (now.words Count + 1) (steps_by now))) }
    // no more nodes are counted than there may be
    ensures most { (run : SharedRun) (words : Words) (views : List View) → IsWorld run words views → words Count ≤ length run.marks + 1 }
    // and no fewer than a worker has placed, by the records that a view has seen
    ensures own { (now : Moment) → IsMoment now → (entry : Record) → own_count now.view entry ≤ now.words Count }
{}

/// Lowering the cost of a node keeps the law. The tree word that was seen last gives way to one of strictly lower cost: that of
/// a seen parent and the edge, which is allowed. Whatever the parent costs by now, it is no more than what was seen.
pub fn lowers_keep_the_law()
    ensures law { (now : Moment) → IsMoment now → (n parent cost : ℕ) → MayCheapen now n parent cost → (after : Words)
        → WritesWord (TreeOf n) (tree_word parent cost) now.words after
        → IsWorld now.run after (slice_set now.views now.id (lowered now.view n parent cost (steps_by now))) }
    // one that finds another word than was seen finds a lower cost
    ensures failed { (now : Moment) → IsMoment now → (n : ℕ) → 2 ^ 63 ≤ sees now.view (TreeOf n) → now.words (TreeOf n) ≢ sees now.view (TreeOf n)
        → (2 ^ 63 ≤ now.words (TreeOf n)) × (cost_in (now.words (TreeOf n)) < cost_in (sees now.view (TreeOf n))) }
{}

/// Loading the best word keeps the law, in a run in which marks are skipped. A hand for whose mark nothing is written yet takes what was
/// found.
pub fn best_loads_keep_the_law()
    ensures { (now : Moment) → IsMoment now → IsInformed now.run
        → IsWorld now.run now.words (slice_set now.views now.id (best_loaded now.view (now.words Best))) }
{}

/// Posting a goal node keeps the law. It is seen with its point and its tree word, and the best word becomes the lesser of what it was
/// and of the pair of what the node was seen to cost and its number.
pub fn posts_keep_the_law()
    ensures { (now : Moment) → IsMoment now → (n : ℕ) → MayPost now.view n → (after : Words)
        → WritesWord Best (best_with now.view n (now.words Best)) now.words after
        → IsWorld now.run after (slice_set now.views now.id (posted now.view n (now.words Best) (steps_by now))) }
{}

/// The best word is at most the pair of first cost and number of each goal node that is the start, that is recorded as placed, or that the
/// hand of a view has posted. If it is a pair, that is of a linked goal node, which costs no more.
pub fn best_words_are_least()
    ensures placed { (run : SharedRun) (words : Words) (views : List View) → IsWorld run words views → (n : ℕ) → has_node words n ≡ true
        → IsGoalNode run.goals (linked_points (run_sizes run) words) n → words Best ≤ best_word (cost_in (words (FirstOf n))) n }
    ensures in_hand { (now : Moment) → IsMoment now → (hand : Hand) → now.view.hand ≡ Some hand → hand.stage ≡ Posted
        → now.words Best ≤ best_word (cost_in (now.words (FirstOf (suc hand.mark)))) (suc hand.mark) }
    ensures pair { (run : SharedRun) (words : Words) (views : List View) → IsWorld run words views → words Best ≢ no_best
        → IsGoalNode run.goals (linked_points (run_sizes run) words) (best_node_in (words Best))
        × (cost_in (words (TreeOf (best_node_in (words Best)))) ≤ best_cost_in (words Best)) × (best_cost_in (words Best) < 2 ^ 44) }
    // what a view has seen of it is no less
    ensures seen { (now : Moment) → IsMoment now → now.words Best ≤ now.view.best }
    // and if that is a pair, it is of a goal node too
    ensures goal { (now : Moment) → IsMoment now → now.view.best ≢ no_best
        → IsGoalNode now.run.goals (linked_points (run_sizes now.run) now.words) (best_node_in now.view.best) }
{}

/// A record of the mark in hand keeps the law. It is of the first worker of the view's crew, and of its next turn. It says that
/// the mark was placed if its node is counted, and posted if that lies in a goal by which marks are skipped, and anything else only if its
/// node is not linked. What it says is borne out by what the view has seen.
pub fn records_keep_the_law()
    ensures { (now : Moment) → IsMoment now → (hand : Hand) (entry : Record) → MayFinish now.view hand entry → (after : Words)
        → WritesWord (RecordOf hand.mark) (record_word entry) now.words after
        → IsWorld now.run after (slice_set now.views now.id (finished now.view hand.mark (record_word entry))) }
{}

/// A split keeps the law: one without a share for the new view, and one that gives it the second worker of the crew.
pub fn splits_keep_the_law()
    ensures worker { (now : Moment) → IsMoment now
        → IsWorld now.run now.words (slice_set now.views now.id (parted now.view) ++ worker_apart now.view ∷ []) }
    ensures looker { (now : Moment) → IsMoment now → IsWorld now.run now.words (slice_set now.views now.id (stepped now.view) ++ looker now.view ∷ []) }
{}

/// A join keeps the law, if neither view has a mark in hand. What either had seen may become what is seen then.
pub fn joins_keep_the_law()
    ensures law { (now : Moment) → IsMoment now → (j : ℕ) (other : View) → MayJoin now j other
        → IsWorld now.run now.words (slice_set (slice_set now.views now.id (joined now.view other)) j spent) }
    ensures seen { (view other : View) → AreBehind (sees view) (sees (joined view other)) }
    ensures others_seen { (now : Moment) → IsMoment now → (j : ℕ) (other : View) → other.run ≡ now.run → get_elem? now.views j ≡ some other
        → AreBehind (sees other) (sees (joined now.view other)) }
{}

/// A place of a child that is empty has no node beyond it: if the way of a point over what a view has seen leads to the place, and its
/// word is 0, no linked node stands at that point. So a pass that finds the place empty has missed none, and whoever comes to that
/// point is linked later.
pub fn empty_places_have_no_node()
    ensures { (now : Moment) → IsMoment now → (q : Point) (n : ℕ) (side : Bool) → LeadsTo now.view q n side → now.words (ChildOf n side) ≡ 0
        → IsFree (linked_points (run_sizes now.run) now.words) q }
{}

/// A place of a child that a step says to have found empty was empty. That holds of a step of any kind which keeps the law, leaves a
/// later view and notes no place of a child: a view cannot have found a place empty by it that was filled before. So no node stood then at a point
/// whose way leads to that place by what the view sees at that moment, or at any later one.
pub fn what_was_found_empty_was_empty()
    ensures before { (now : Moment) → IsMoment now → (after : Words) (then : View) → IsWorld now.run after (slice_set now.views now.id then)
        → IsLater now.view then → FillsNoPlace now.view then → (n : ℕ) (side : Bool) → now.view.steps < last_zero then (ChildOf n side)
        → now.words (ChildOf n side) ≡ 0 }
    // and the step left it empty
    ensures after { (now : Moment) → IsMoment now → (after : Words) (then : View) → IsWorld now.run after (slice_set now.views now.id then)
        → FillsNoPlace now.view then → (n : ℕ) (side : Bool) → now.view.steps < last_zero then (ChildOf n side) → after (ChildOf n side) ≡ 0 }
    // so a load may not tell of a filled place that it was found empty, whatever the view had seen there
    ensures stale { (now : Moment) → IsMoment now → (n : ℕ) (side : Bool) → n ≤ length now.run.marks → now.words (ChildOf n side) ≢ 0
        → ¬ IsWorld now.run now.words (slice_set now.views now.id (loaded now.view (ChildOf n side) 0)) }
    // If the way of a point leads, by what a view sees in the same world or a later one, to a place that is empty now, no node stands
    // there now.
    ensures no_node { (run : SharedRun) (words later : Words) (views lasts : List View) (id : ℕ) (view : View) → IsWorld run words views
        → IsWorld run later lasts → AreBehind words later → get_elem? lasts id ≡ some view → view.run ≡ run → (q : Point) (n : ℕ) (side : Bool)
        → LeadsTo view q n side → words (ChildOf n side) ≡ 0 → IsFree (linked_points (run_sizes run) words) q }
    // Both together: no node stood at the point by the step that found the place empty.
    ensures by_then { (run : SharedRun) (words after later : Words) (views lasts : List View) (id : ℕ) (view then last : View) → IsWorld run words views
        → get_elem? views id ≡ some view → IsWorld run after (slice_set views id then) → view.run ≡ run → FillsNoPlace view then
        → IsWorld run later lasts → AreBehind after later → get_elem? lasts id ≡ some last → last.run ≡ run → (q : Point) (n : ℕ) (side : Bool)
        → LeadsTo last q n side → view.steps < last_zero then (ChildOf n side) → IsFree (linked_points (run_sizes run) after) q }
    // What a view has swept since some of its steps has such a place.
    ensures swept { (view : View) (steps : ℕ) (q : Point) → EndsSince (sight_in view) steps q
        → (n : ℕ) × (side : Bool) × LeadsTo view q n side × (steps < last_zero view (ChildOf n side)) }
{}

/// What a step tells of a word that passes load while others change it is the word as it is after the step, if the view says to have looked at it by
/// this step. That holds of a step of any kind which keeps the law, and notes nothing else of the word than what it tells. Of a tree word it is
/// asked that something was seen.
pub fn looks_tell_what_words_are()
    ensures as_it_is { (now : Moment) → IsMoment now → (after : Words) (then : View) → IsWorld now.run after (slice_set now.views now.id then)
        → (name : Word) → IsLoaded now.run name → now.view.steps < last_look then name → NotesAsSeen now.view then name → SeesSome then name
        → last_seen then name ≡ after name }
    // so no load may tell another word, whatever the view had seen before
    ensures stale { (now : Moment) → IsMoment now → (name : Word) → IsLoaded now.run name → name ≢ Best → (word : ℕ) → word ≢ now.words name
        → SeesSome (loaded now.view name word) name → ¬ IsWorld now.run now.words (slice_set now.views now.id (loaded now.view name word)) }
    // nor another best word
    ensures stale_best { (now : Moment) → IsMoment now → (word : ℕ) → word ≢ now.words Best
        → ¬ IsWorld now.run now.words (slice_set now.views now.id (best_loaded now.view word)) }
    // Over many steps: what a pass sees last of a word at which it has looked since a call began was so at some moment of this very call.
    ensures was_so { (run : SharedRun) (id : ℕ) (words last : Words) (views lasts : List View) (first end : View) → IsWorld run words views
        → get_elem? views id ≡ some first → HasCome run id words views last lasts → get_elem? lasts id ≡ some end → end.run ≡ run → (name : Word)
        → IsLoaded run name → first.steps < last_look end name → SeesSome end name → WasSo run words last name (last_seen end name) }
{}

/// Each point that a call of a pass has swept, and at which the pass sees no node, was free at some moment of this very call. The
/// call began with the view `first`, and ends with the view `end`.
pub fn swept_points_were_free()
    ensures swept { (run : SharedRun) (id : ℕ) (words last : Words) (views lasts : List View) (first end : View) → IsWorld run words views
        → get_elem? views id ≡ some first → HasCome run id words views last lasts → get_elem? lasts id ≡ some end → end.run ≡ run → (q : Point)
        → EndsSince (sight_in end) first.steps q → WasFree run words last q }
    // The world comes further by a link of the view. By its other steps it does as they note no place of a child, and by those of other views as
    // the view stays.
    ensures link { (run : SharedRun) (id : ℕ) (words now after : Words) (views here : List View) (view : View) → IsWorld run words views
        → HasCome run id words views now here → get_elem? here id ≡ some view → view.run ≡ run → (hand : Hand) → view.hand ≡ Some hand
        → hand.stage ≡ Treed → (n : ℕ) (side : Bool) → LeadsTo view hand.point n side → now (ChildOf n side) ≡ 0
        → WritesWord (ChildOf n side) (suc hand.mark) now after
        → HasCome run id words views after (slice_set here id (linked view hand n side (steps_then here id view))) }
    ensures other { (run : SharedRun) (id j : ℕ) (words now after : Words) (views here : List View) (view then : View)
        → HasCome run id words views now here → get_elem? here id ≡ some view → j ≢ id → IsWorld run after (slice_set here j then)
        → AreBehind now after → HasCome run id words views after (slice_set here j then) }
{}

/// No word that tells of the run goes back, and so no cost rises. That holds of a step of any kind which keeps the law and leaves a
/// later view: each such word was seen as it is by some view with a share, and what that has seen may become the word after.
pub fn no_cost_rises()
    ensures told { (now : Moment) → IsMoment now → (after : Words) (then : View) → IsWorld now.run after (slice_set now.views now.id then)
        → IsLater now.view then → (name : Word) → IsTold now.run now.words name → MayBecome (kind_of name) (now.words name) (after name) }
    ensures costs { (now : Moment) → IsMoment now → (after : Words) (then : View) → IsWorld now.run after (slice_set now.views now.id then)
        → IsLater now.view then → (n : ℕ) → is_linked (run_sizes now.run) now.words n ≡ true → cost_in (after (TreeOf n)) ≤ cost_in (now.words (TreeOf n)) }
    // nor does the best word
    ensures best { (now : Moment) → IsMoment now → (after : Words) (then : View) → IsWorld now.run after (slice_set now.views now.id then)
        → IsLater now.view then → after Best ≤ now.words Best }
{}

/// A view looks at words, and finds them 0, by steps that it has made. So where a look at a word is later than a moment, the view has
/// stepped since: what is told of words that were loaded after a moment speaks of loads after it.
pub fn looks_are_by_steps_made()
    ensures looked { (now : Moment) → IsMoment now → (name : Word) (moment : ℕ) → moment < last_look now.view name → moment < now.view.steps }
    ensures found_zero { (now : Moment) → IsMoment now → (name : Word) (moment : ℕ) → moment < last_zero now.view name → moment < now.view.steps }
{}

/// A mark in hand has no record yet, is one of the marks, and is in no other hand.
pub fn marks_in_hand_are_in_one_hand()
    ensures no_record { (now : Moment) → IsMoment now → (hand : Hand) → now.view.hand ≡ Some hand → record_at now.words hand.mark ≡ None }
    ensures within { (now : Moment) → IsMoment now → (hand : Hand) → now.view.hand ≡ Some hand → hand.mark < length now.run.marks }
    ensures alone { (run : SharedRun) (words : Words) (views : List View) (i j : ℕ) (one other : View) → IsWorld run words views
        → get_elem? views i ≡ some one → get_elem? views j ≡ some other → (k : ℕ) → holds k one.hand ≡ true → holds k other.hand ≡ true → i ≡ j }
{}

/// If one view has the whole share, it sees each word that tells of the run as it is: the counters, the records, and the words of
/// the linked nodes; and so the best word.
pub fn whole_shares_see_all_words()
    ensures words { (now : Moment) → IsMoment now → share now.view ≡ now.run.workers → (name : Word) → IsTold now.run now.words name
        → sees now.view name ≡ now.words name }
    ensures best { (now : Moment) → IsMoment now → share now.view ≡ now.run.workers → now.view.best ≡ now.words Best }
    // it sees each record that there is, and no other
    ensures records { (now : Moment) → IsMoment now → share now.view ≡ now.run.workers → (k : ℕ) → record_at (sees now.view) k ≡ record_at now.words k }
{}

/// If one view has the whole share, the tree that it has seen is that of the linked nodes.
pub fn whole_shares_see_all_nodes()
    // it sees the linked nodes, and no others
    ensures nodes { (now : Moment) → IsMoment now → share now.view ≡ now.run.workers → (n : ℕ)
        → SeesNode now.view n ↔ is_linked (run_sizes now.run) now.words n ≡ true }
    // with the points where they stand,
    ensures points { (now : Moment) → IsMoment now → share now.view ≡ now.run.workers
        → (tree_seen now.view).points ≡ linked_points (run_sizes now.run) now.words }
    // with their children,
    ensures children { (now : Moment) → IsMoment now → share now.view ≡ now.run.workers → (n : ℕ) (side : Bool)
        → (tree_seen now.view).child n side ≡ children_of_words now.words n side }
    // with their parents and costs,
    ensures trees { (now : Moment) → IsMoment now → share now.view ≡ now.run.workers → (n : ℕ) → is_linked (run_sizes now.run) now.words n ≡ true
        → (tree_seen now.view).parent_and_cost n ≡ Some (parent_in (now.words (TreeOf n)), cost_in (now.words (TreeOf n))) }
    // if all that it has linked is counted, the count is the number of nodes that it sees
    ensures count { (now : Moment) → IsMoment now → share now.view ≡ now.run.workers → ((hand : Hand) → now.view.hand ≡ Some hand → hand.stage ≢ Linked)
        → now.words Count ≡ node_count (tree_seen now.view).points }
{}

/// If one view has the whole share and nothing in hand, exactly the marks below the counters are recorded.
pub fn whole_shares_have_all_recorded()
    ensures { (now : Moment) → IsMoment now → share now.view ≡ now.run.workers → now.view.hand ≡ None → (k : ℕ)
        → is_recorded now.words k ≡ is_claimed now.run.strips (counters now.words) k }
{}

/// If one view has the whole share and nothing in hand, and has seen each counter at or above its quota below a limit no less than
/// its greatest, the words are those of a run that is closed at its greatest limit, once those of numbers without a node are
/// cleared.
pub fn whole_shares_close_runs()
    ensures run { (task : Task) (workers opening : ℕ) (words : Words) (views : List View) (id : ℕ) (view : View)
        → IsWorld (run_of task workers opening) words views → get_elem? views id ≡ some view → share view ≡ workers → view.hand ≡ None → (limit : ℕ)
        → view.most ≤ limit → ((g : ℕ) → g < task.scene.strips → quota_of task.scene.strips g limit ≤ sees view (Counter g))
        → HoldRun task view.most (cleared words) }
    // all that the view has seen stands in that run
    ensures seen { (task : Task) (workers opening : ℕ) (words : Words) (views : List View) (id : ℕ) (view : View)
        → IsWorld (run_of task workers opening) words views → get_elem? views id ≡ some view → share view ≡ workers → view.hand ≡ None → (limit : ℕ)
        → view.most ≤ limit → ((g : ℕ) → g < task.scene.strips → quota_of task.scene.strips g limit ≤ sees view (Counter g))
        → view.run ≡ run_of task workers opening → StandsAsSeen view (state_of_words (sizes_of task) (cleared words)) }
    // the records of marks from the opening limit on are by workers of the run
    ensures workers { (task : Task) (workers opening : ℕ) (words : Words) (views : List View) (id : ℕ) (view : View)
        → IsWorld (run_of task workers opening) words views → get_elem? views id ≡ some view → share view ≡ workers → view.hand ≡ None → (limit : ℕ)
        → view.most ≤ limit → ((g : ℕ) → g < task.scene.strips → quota_of task.scene.strips g limit ≤ sees view (Counter g))
        → (k : ℕ) (entry : Record) → opening ≤ k → record_at (cleared words) k ≡ Some entry → entry.worker < workers }
{}

/// In the run that the words have come to, each mark that the view has seen claimed is below the view's greatest limit.
pub fn seen_claims_are_below_the_limit()
    ensures { (view : View) (state : TreeState) → StandsAsSeen view state → 0 < view.run.strips → (k : ℕ)
        → is_claimed view.run.strips (counters (sees view)) k ≡ true → k < view.most }
{}

/// A view after steps of its own is a later one: what was seen may become what is seen, and the numbers of steps go on. That one step leads
/// to such a view is in `steps_keep_the_law`.
pub fn steps_lead_to_later_views()
    ensures stay { (view : View) → IsLater view view }
    ensures go_on { (before mid after : View) → IsLater before mid → IsLater mid after → IsLater before after }
    // if what it sees otherwise was looked at since by each of two calls, so it was by both
    ensures looked { (before mid after : View) → IsLater before mid → IsLater mid after → HasLooked before mid → HasLooked mid after
        → HasLooked before after }
{}

/// What the law says of each view alone: its worker, its turn, its mark in hand and the numbers that it has seen are within their
/// limits, and it has seen at least what the pass had that it last took over. Of the tree it has seen each node where its way
/// leads, no two at one point, and not the node in its hand before that is linked.
pub fn views_of_worlds_are_lawful()
    ensures { (now : Moment) → IsMoment now → IsLawfulView now.view }
{}

/// A lawful view keeps to what is said of sights (`plan_model/specs/Seen/Sights`), and a later view of the same pass is a later moment
/// of its sight. So what a pass has swept stays swept, and a way that it found to end misses no node.
pub fn lawful_views_are_sights()
    ensures keeps { (view : View) → IsLawfulView view → KeepsSight (sight_in view) }
    ensures later { (before after : View) → IsLater before after → IsLaterMoment (sight_in before) (sight_in after) }
{}
