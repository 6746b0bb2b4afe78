//! The place of a new node: its parent and its cost, its link in the kd-tree, its post if it lies in a goal by which marks are skipped,
//! and the rewiring of the nodes near it.

ghost use Rattle.std.specs.Prelude.{◌≡◌, ◌∷◌, ◌<◌, ◌≤◌, true, false, suc, All, IfSome, IsSome};
ghost use Rattle.kd_shared.specs.Placings.{GoesOnPlacing, IsPlaced, KeepsShare};
ghost use Rattle.plan_model.specs.Trees.BestNode.{lies_in_goals};
ghost use Rattle.plan_model.specs.Spaces.Clearance.{Clear};
ghost use Rattle.plan_model.specs.Spaces.ConfigurationSpace.{space_of};
ghost use Rattle.plan_words.specs.Nodes.{SeesBestSince};
ghost use Rattle.plan_words.specs.Claims.{SeesAsBefore};
ghost use Rattle.plan_words.specs.SearchLists.{numbers_of, weighed};
ghost use Rattle.plan_words.specs.States.{BelongsTo, GoesOn, HasWholeShare, PassState, with_view};
ghost use Rattle.plan_work.specs.Extensions.{HandlesMark};
ghost use Rattle.plan_work.specs.ExtensionSteps.{HasCome, HasReached, IsFilledSince, IsHung, IsPointed, IsTried, KeepsRecords, MayPlace};
ghost use Rattle.plan_work.specs.OneWorker.{IsNotSkippedIn, SeesTextbook, WorksAlone, IsFilledWhole, IsSteeredWhole, IsTriedWhole, KeepsOthers};
ghost use Rattle.step_core.specs.ViewSteps.{last_note, with_post};
ghost use Rattle.step_core.specs.Views.{sees, share, tree_seen};
ghost use Rattle.grown_runs.specs.Table.WordNames.Word.{Count, TreeOf};
ghost use Rattle.grown_runs.specs.Table.Words.{best_word, cost_in};
ghost use Rattle.step_core.specs.declared.views.Hand.{Hand};
ghost use Rattle.step_core.specs.declared.views.Stage.TheVariants.{Treed};
ghost use Rattle.tree_rewire.specs.NearNodes.{IsMeasured};
ghost use Rattle.tree_rewire.specs.SeenCosts.{IsBestParentSeen, IsInReach};
ghost use Rattle.plan_model.specs.Trees.NodeLists.{point_of};

use crate::mark_steering::Steering;
use crate::recording::{record_placed, record_unplaced};
use edge_cost::Parent;
use kd_shared::{Placing, place};
use plan_model::{Outcome, Point, Record};
use plan_words::{Pass, Shared};
use swept_check::Clearing;
use tree_rewire::{choose_found, rewire_found};

/// What a new node hangs by.
#[derive(Clone, Copy)]
pub(crate) struct Hanging {
    pub(crate) parent: Parent,
    /// The class of the number of nodes.
    pub(crate) class: u32,
}

/// A new node, hung and tried to be placed: where it came to, and what it hangs by.
#[derive(Clone, Copy)]
struct Tried {
    placing: Placing,
    hanging: Hanging,
}

/// Writes the parent and the cost of the node in hand: of the nearest node and of those found with a clear edge, the one through which
/// it costs the least.
fn choose_and_write<C: Clearing>(
    shared: &Shared,
    pass: &mut Pass,
    hall: &C,
    p: Point,
    nearest: u32,
) -> Parent
    requires belongs { BelongsTo pass.old shared.now }
    requires hall { C.space hall.now ≡ space_of shared.now.task.scene }
    requires hand { IsSome pass.old.view.hand }
    requires pointed { IfSome pass.old.view.hand (λ hand. IsPointed hand nearest p) }
    requires nearest { IsInReach pass.old.view p nearest }
    requires clear { Clear (space_of shared.now.task.scene) (point_of (tree_seen pass.old.view).points nearest) p }
    requires near { All (IsInReach pass.old.view p) (numbers_of pass.old.lists.search.found) }
    requires measured { All (IsMeasured pass.old.view p) pass.old.lists.search.found }
    ensures keeps { KeepsRecords shared.now pass.old pass.new }
    ensures found { pass.new.lists.search.found ≡ weighed pass.old.lists.search.found }
    ensures count { sees pass.new.view Count ≡ sees pass.old.view Count }
    ensures hung { IfSome pass.old.view.hand (λ hand. IsHung pass.old.view.steps pass.new.view hand result (numbers_of pass.old.lists.search.found)) }
    ensures whole { HasWholeShare pass.old.view → SeesAsBefore pass.old.view pass.new.view
        × IsBestParentSeen (space_of shared.now.task.scene) pass.old.view p (nearest ∷ numbers_of pass.old.lists.search.found) result }
{
    let parent = choose_found(shared, pass, hall, p, nearest);
    shared.write_tree(pass, parent.node, parent.cost);
    parent
}

/// Places the node of the mark in hand at its point p, and posts it if it lies in a goal by which marks are skipped: others may skip
/// marks by it before any node near it is rewired.
fn place_and_post(shared: &Shared, pass: &mut Pass, k: u32, p: Point) -> Placing
    requires belongs { BelongsTo pass.old shared.now }
    requires part { 0 < share pass.old.view }
    requires hand { IsSome pass.old.view.hand }
    requires mark { IfSome pass.old.view.hand (λ hand. hand.mark ≡ k) }
    requires point { IfSome pass.old.view.hand (λ hand. hand.point ≡ p) }
    requires treed { IfSome pass.old.view.hand (λ hand. hand.stage ≡ Treed) }
    ensures belongs { BelongsTo pass.new shared.now }
    ensures goes_on { GoesOnPlacing pass.old.view pass.new.view }
    ensures share { KeepsShare pass.old.view pass.new.view }
    ensures view_alone { pass.new ≡ with_view pass.old pass.new.view }
    ensures placed { IfSome pass.old.view.hand (λ hand. HasCome pass.new.view hand result) }
    ensures whole { HasWholeShare pass.old.view → IfSome pass.old.view.hand (λ hand. KeepsOthers pass.old.view pass.new.view hand.mark result) }
{
    match place(shared, pass, k) {
        Placing::Placed => {
            post_goal_node(shared, pass, k, p);
            Placing::Placed
        }
        Placing::Same(node) => Placing::Same(node),
    }
}

/// Posts the node of the mark in hand, which is placed at p, if it lies in a goal by which marks are skipped.
fn post_goal_node(shared: &Shared, pass: &mut Pass, k: u32, p: Point)
    requires belongs { BelongsTo pass.old shared.now }
    requires part { 0 < share pass.old.view }
    requires placed { (hand : Hand) × IsPlaced pass.old.view hand × (hand.mark ≡ k) × (hand.point ≡ p) }
    ensures belongs { BelongsTo pass.new shared.now }
    ensures goes_on { GoesOn pass.old.view pass.new.view }
    ensures best { SeesBestSince pass.old.view pass.new.view }
    ensures in_goal { lies_in_goals pass.old.view.run.goals p ≡ true
        → (pass.new ≡ with_view pass.old (with_post pass.old.view (suc k) pass.new.view.best (last_note pass.new.view)))
        × (pass.new.view.best ≤ best_word (cost_in (sees pass.old.view (TreeOf (suc k)))) (suc k)) }
    ensures elsewhere { lies_in_goals pass.old.view.run.goals p ≡ false → pass.new ≡ pass.old }
{
    if shared.has_goal_at(p) {
        shared.post(pass, k + 1);
    }
}

/// Hangs the node in hand by the nodes found, which are near its point, and tries to place it.
fn choose_and_place<C: Clearing>(
    shared: &Shared,
    pass: &mut Pass,
    hall: &C,
    k: u32,
    steering: Steering,
) -> Tried
    requires may { MayPlace shared.now pass.old k steering.nearest steering.point }
    requires part { 0 < share pass.old.view }
    requires near { All (IsInReach pass.old.view steering.point) (numbers_of pass.old.lists.search.found) }
    requires measured { All (IsMeasured pass.old.view steering.point) pass.old.lists.search.found }
    requires hall { C.space hall.now ≡ space_of shared.now.task.scene }
    ensures keeps { KeepsRecords shared.now pass.old pass.new }
    ensures tried { IfSome pass.old.view.hand (λ hand. IsTried pass.old pass.new hand result.placing result.hanging) }
    ensures class { result.hanging.class ≡ steering.class }
    ensures whole { HasWholeShare pass.old.view
        → IsTriedWhole (space_of shared.now.task.scene) pass.old.view pass.new.view k steering.point steering.nearest
        (numbers_of pass.old.lists.search.found) result.placing result.hanging }
{
    let parent = choose_and_write(shared, pass, hall, steering.point, steering.nearest);
    let placing = place_and_post(shared, pass, k, steering.point);
    let hanging = Hanging {
        parent,
        class: steering.class,
    };
    Tried { placing, hanging }
}

/// Places the node of the mark in hand, rewires the nodes found, and records what became of it.
pub(crate) fn place_rewire_and_record<C: Clearing>(
    shared: &Shared,
    pass: &mut Pass,
    hall: &C,
    k: u32,
    steering: Steering,
) -> Record
    requires may { MayPlace shared.now pass.old k steering.nearest steering.point }
    requires part { 0 < share pass.old.view }
    requires filled { (first : PassState) × IsFilledSince shared.now first pass.old steering.point steering.class }
    requires hall { C.space hall.now ≡ space_of shared.now.task.scene }
    ensures handled { HandlesMark shared.now pass.old pass.new k result }
    // of the time since any moment after which the near nodes were found
    ensures ended { (first : PassState) → IsFilledSince shared.now first pass.old steering.point steering.class
        → HasReached first.view pass.new.view k result steering.nearest steering.point }
    // a pass that works alone does so as in the textbook
    ensures textbook { IsSteeredWhole pass.old.view k steering.nearest steering.point
        → IsFilledWhole pass.old.view steering.point steering.class pass.old.lists.search.found
        → WorksAlone pass.old.view k → SeesTextbook pass.old.view k → IsNotSkippedIn pass.old.view k
        → WorksAlone pass.new.view (suc k) × SeesTextbook pass.new.view (suc k) }
{
    let tried = choose_and_place(shared, pass, hall, k, steering);
    match tried.placing {
        Placing::Placed => {
            rewire_found(shared, pass, hall, k);
            record_placed(shared, pass, steering.nearest, tried.hanging)
        }
        Placing::Same(node) => {
            record_unplaced(shared, pass, steering.nearest, Outcome::Same(node))
        }
    }
}
