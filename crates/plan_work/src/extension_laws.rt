//! What it means that a mark was handled as `extend` promises. Each law is the contract of a function that does nothing.

ghost use Rattle.std.specs.Prelude.{◌≡◌, ◌≢◌, ◌⊎◌, ℕ, suc, ◌+◌, ◌*◌, ◌<◌, ◌≤◌, true};
ghost use Rattle.plan_model.specs.Spaces.Clearance.{Clear};
ghost use Rattle.plan_model.specs.Runs.ClosedLaw.{mark_at};
ghost use Rattle.plan_model.specs.Geometry.Lengths.{cost_of, class_of};
ghost use Rattle.plan_model.specs.Geometry.Plane.{squared_distance};
ghost use Rattle.plan_model.specs.Trees.BestNode.{lies_in_goals};
ghost use Rattle.plan_model.specs.Trees.Nearness.{IsNotAbove, distance_to};
ghost use Rattle.plan_model.specs.Trees.NodeLists.{IsFree, IsPresent, point_of};
ghost use Rattle.plan_model.specs.Runs.Textbook.{mark_bound};
ghost use Rattle.plan_model.specs.Seen.Sights.{IsSwept};
ghost use Rattle.plan_model.specs.declared.geometry.Point.{Point};
ghost use Rattle.plan_model.specs.declared.records.Outcome.TheVariants.{Blocked, Placed, Same, Skipped};
ghost use Rattle.plan_model.specs.declared.records.Record.{Record};
ghost use Rattle.plan_words.specs.States.{GoesOn};
ghost use Rattle.plan_work.specs.Extensions.{IsExtended, IsWithinRadius, radius_in, steered_point};
ghost use Rattle.plan_work.specs.Workers.{AllExtended};
ghost use Rattle.step_core.specs.SeenBests.{IsInformed};
ghost use Rattle.step_core.specs.ViewSteps.{best_loaded, finished};
ghost use Rattle.step_core.specs.ViewTrees.{SeesPoint, sight_in};
ghost use Rattle.step_core.specs.Views.{last_look, sees, setup_in, tree_seen};
ghost use Rattle.grown_runs.specs.Table.WordNames.Word.{Best, Count, RecordOf, TreeOf};
ghost use Rattle.grown_runs.specs.Table.Words.{best_cost_in, best_node_in, best_word, no_best, record_word, tree_word};
ghost use Rattle.step_core.specs.declared.views.View.{View};
ghost use Rattle.tree_rewire.specs.Spreads.{IsInFall, IsWithinParent};
ghost use Rattle.tree_rewire.specs.SeenCosts.{SeesPair, cost_seen, parent_seen};

/// No node that the pass had seen with its point is nearer to a mark that was handled, and not skipped, than its nearest node. The outcome
/// is `Same` with a node seen at the steered point, and `Blocked` if none is seen there at return; then the segment is not clear.
pub fn handled_marks_are_steered_to()
    ensures nearest { (before after : View) (k : ℕ) (entry : Record) → IsExtended before after k entry → entry.outcome ≢ Skipped → (n : ℕ)
        → IsPresent (tree_seen before).points n
        → IsNotAbove (distance_to (mark_at after.run.marks k) (tree_seen after).points) entry.nearest n }
    ensures same { (before after : View) (k : ℕ) (entry : Record) → IsExtended before after k entry → (j : ℕ) → entry.outcome ≡ Same j
        → SeesPoint after j (steered_point after k entry.nearest) }
    ensures blocked { (before after : View) (k : ℕ) (entry : Record) → IsExtended before after k entry → entry.outcome ≡ Blocked
        → IsFree (tree_seen after).points (steered_point after k entry.nearest)
        × (¬ Clear (setup_in after.run).space (point_of (tree_seen after).points entry.nearest) (steered_point after k entry.nearest)) }
    ensures free { (before after : View) (k : ℕ) (entry : Record) → IsExtended before after k entry → entry.outcome ≢ Skipped
        → IsFree (tree_seen after).points (steered_point after k entry.nearest) → entry.outcome ≡ Blocked }
    // all points at most as far from the mark as the nearest node are swept, and so is the point of a blocked mark
    ensures swept { (before after : View) (k : ℕ) (entry : Record) → IsExtended before after k entry → entry.outcome ≢ Skipped → (q : Point)
        → squared_distance q (mark_at after.run.marks k)
        ≤ distance_to (mark_at after.run.marks k) (tree_seen after).points entry.nearest → IsSwept (sight_in after) before.steps q }
    ensures blocked_swept { (before after : View) (k : ℕ) (entry : Record) → IsExtended before after k entry
        → entry.outcome ≡ Blocked → IsSwept (sight_in after) before.steps (steered_point after k entry.nearest) }
{}

/// A mark is skipped only where marks may be, and only if the best that the call loaded is known and costs no more than the bound of
/// the mark; the record names its goal node then, and the call made two steps: the load and the store of the record. Any other call
/// looked at the best too, if marks may be skipped, and goes on from a view that a load of some word leaves as its first step, by whose
/// node the mark is not skipped. That is the best word seen at the end, or the call looked at the best again, as by a post; then this
/// does not say which of its looks found the word.
pub fn marks_are_skipped_by_the_best()
    ensures skipped { (before after : View) (k : ℕ) (entry : Record) → IsExtended before after k entry → entry.outcome ≡ Skipped
        → IsInformed after.run × ((word : ℕ) × (word ≢ no_best) × (entry.nearest ≡ best_node_in word)
        × (best_cost_in word ≤ mark_bound (setup_in after.run) (mark_at after.run.marks k))
        × (after ≡ finished (best_loaded before word) k (record_word entry))) }
    ensures steps { (before after : View) (k : ℕ) (entry : Record) → IsExtended before after k entry → entry.outcome ≡ Skipped
        → after.steps ≡ before.steps + 2 }
    ensures unskipped { (before after : View) (k : ℕ) (entry : Record) → IsExtended before after k entry → entry.outcome ≢ Skipped
        → IsInformed after.run → (word : ℕ) × GoesOn (best_loaded before word) after
        × ((after.best ≡ word) ⊎ (before.steps + 1 < last_look after Best))
        × (word ≢ no_best → mark_bound (setup_in after.run) (mark_at after.run.marks k) < best_cost_in word) }
{}

/// A mark that was placed: its node is seen at the steered point, with the class of the count that was loaded in the call. Each node
/// that the pass had seen with its point, within the radius of that class and with a clear edge, was loaded in the call. It is no
/// cheaper a parent than the first one, by what it was seen to cost at entry, and it costs no more than through the new node, by
/// what it is seen to cost at return.
pub fn placed_marks_have_the_best_parent()
    ensures node { (before after : View) (k : ℕ) (entry : Record) → IsExtended before after k entry → entry.outcome ≡ Placed
        → SeesPoint after (suc k) (steered_point after k entry.nearest) × (entry.class ≡ class_of (sees after Count)) × (before.steps < last_look after Count) }
    ensures loaded { (before after : View) (k : ℕ) (entry : Record) → IsExtended before after k entry → entry.outcome ≡ Placed
        → (i : ℕ) (q : Point) → SeesPoint before i q
        → squared_distance q (steered_point after k entry.nearest) ≤ radius_in after entry.class * radius_in after entry.class
        → Clear (setup_in after.run).space q (steered_point after k entry.nearest) → before.steps < last_look after (TreeOf i) }
    ensures chosen { (before after : View) (k : ℕ) (entry : Record) → IsExtended before after k entry → entry.outcome ≡ Placed
        → (i : ℕ) (q : Point) → SeesPoint before i q → SeesPair before i
        → squared_distance q (steered_point after k entry.nearest) ≤ radius_in after entry.class * radius_in after entry.class
        → Clear (setup_in after.run).space q (steered_point after k entry.nearest)
        → entry.first_cost ≤ cost_seen before i + cost_of q (steered_point after k entry.nearest) }
    ensures rewired { (before after : View) (k : ℕ) (entry : Record) → IsExtended before after k entry → entry.outcome ≡ Placed
        → (i : ℕ) (q : Point) → SeesPoint before i q
        → squared_distance q (steered_point after k entry.nearest) ≤ radius_in after entry.class * radius_in after entry.class
        → Clear (setup_in after.run).space q (steered_point after k entry.nearest)
        → SeesPair after i × (cost_seen after i ≤ entry.first_cost + cost_of q (steered_point after k entry.nearest)) }
    ensures swept { (before after : View) (k : ℕ) (entry : Record) → IsExtended before after k entry → entry.outcome ≡ Placed
        → (q : Point) → squared_distance q (steered_point after k entry.nearest) ≤ radius_in after entry.class * radius_in after entry.class
        → IsSwept (sight_in after) before.steps q }
{}

/// A mark that was placed: there is a moment at which its node was linked, with its first parent and its first cost, and posted if it lies in a
/// goal by which marks are skipped; the nodes near it were rewired after that. Each node
/// that the pass has seen to fall since, outside the radius, costs no more than through its parent, and neither does a child of it
/// that was seen by then.
pub fn placed_marks_bring_falls_down()
    ensures linked { (before after : View) (k : ℕ) (entry : Record) → IsExtended before after k entry → entry.outcome ≡ Placed
        → (mid : View) × GoesOn before mid × GoesOn mid after
        × (sees mid (TreeOf (suc k)) ≡ tree_word entry.first_parent entry.first_cost)
        × (lies_in_goals after.run.goals (steered_point after k entry.nearest) ≡ true → mid.best ≤ best_word entry.first_cost (suc k)) }
    ensures fallen { (before after : View) (k : ℕ) (entry : Record) → IsExtended before after k entry → entry.outcome ≡ Placed
        → (mid : View) × GoesOn before mid × GoesOn mid after × ((n : ℕ) → IsInFall mid after n
        → (¬ IsWithinRadius mid entry.class (steered_point after k entry.nearest) n) ⊎ (parent_seen after n ≡ suc k) → IsWithinParent after n) }
{}

/// Each mark of which a worker's pass sees a record now, and saw none before, was handled as `extend` promises, between two moments
/// of the call; the record's word is the one stored then.
pub fn worked_marks_were_extended()
    ensures { (before after : View) → AllExtended before after → (k : ℕ) → sees before (RecordOf k) ≡ 0 → sees after (RecordOf k) ≢ 0
        → (entry : Record) × (begun : View) × (ended : View) × GoesOn before begun × GoesOn ended after × IsExtended begun ended k entry
        × (sees after (RecordOf k) ≡ sees ended (RecordOf k)) }
{}
