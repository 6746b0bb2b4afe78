//! The steps on nodes: a pass looks at the children and the points of nodes that it has seen, writes the point of the node in
//! its hand, links that into the kd-tree, and counts it.

ghost use Rattle.std.specs.Prelude.{◌≡◌, ◌≢◌, ℕ, suc, ◌+◌, ◌<◌, ◌≤◌, ◌^◌, ◌==◌, if◌then◌else◌, length, unwrap_or};
ghost use Rattle.std.specs.Prelude.{IfErr, IfOk, IfSome, IsOk, IsSome, MatchOption, Some};
ghost use Rattle.plan_model.specs.Geometry.Plane.{IsBounded};
ghost use Rattle.plan_words.specs.Nodes.{HasLinked, IsLinkedAt, LeadsOn, NamesChildOrPoint, NamesNode};
ghost use Rattle.plan_words.specs.States.{BelongsTo, GoesOn, HasWholeShare, with_view};
ghost use Rattle.grown_runs.specs.Runs.GrownWords.{child_of_word};
ghost use Rattle.step_core.specs.SeenBests.{IsUnskipped};
ghost use Rattle.step_core.specs.ViewSteps.{counted, last_note, linked, loaded, note_before, pointed};
ghost use Rattle.step_core.specs.ViewTrees.{IsSteered, LeadsTo, SeesNode, SeesPoint, sight_in};
ghost use Rattle.step_core.specs.Views.{last_look, sees, tree_seen};
ghost use Rattle.grown_runs.specs.Table.WordNames.{ChangesOnly, WritesWord};
ghost use Rattle.grown_runs.specs.Table.WordNames.Word.{ChildOf, PointOf};
ghost use Rattle.grown_runs.specs.Table.Words.{point_in};
ghost use Rattle.step_core.specs.declared.views.Stage.TheVariants.{Claimed, Counted, Linked, Treed};

use crate::passes::Pass;
use crate::rules::{Count, Link, Load, SteeredFrom, WritePoint};
use crate::shared::Shared;
use plan_model::Point;
use std::marker::Brand;
use step_core::{Hand, Stage, pack_point, pack_tree, point_in};

impl Shared {
    /// The child of a seen node on its left or its right, which the pass has then seen; or `None`, and then its view notes that this
    /// step found the place empty. That there was no child at this step the law `what_was_found_empty_was_empty` says.
    pub fn child(&self, pass: &mut Pass, node: u32, right: bool) -> Option<u32>
        requires belongs { BelongsTo pass.old self.now }
        requires seen_node { SeesNode pass.old.view node }
        ensures view { pass.new ≡ with_view pass.old (loaded pass.old.view (ChildOf node right) (unwrap_or result 0)) }
        ensures goes_on { GoesOn pass.old.view pass.new.view }
        // this word is seen as it was found, all others as before
        ensures seen { WritesWord (ChildOf node right) (unwrap_or result 0) (sees pass.old.view) (sees pass.new.view) }
        ensures looked { WritesWord (ChildOf node right) (pass.old.view.steps + 1) (last_look pass.old.view) (last_look pass.new.view) }
        ensures found { MatchOption result (pass.old.view.steps < (sight_in pass.new.view).found_empty node right)
            (λ c. ((tree_seen pass.new.view).child node right ≡ Some c) × SeesNode pass.new.view c) }
        // a pass with the whole share finds nothing new
        ensures whole { HasWholeShare pass.old.view → unwrap_or result 0 ≡ sees pass.old.view (ChildOf node right) }
    {
        child_in(self.child_or_start(pass, node, right))
    }

    /// The same child, or node 0 if there is none: no node has that as its child, and each pass sees it. So whoever loads what is there
    /// need not ask whether there is a child.
    #[inline]
    pub fn child_or_start(&self, pass: &mut Pass, node: u32, right: bool) -> u32
        requires belongs { BelongsTo pass.old self.now }
        requires seen_node { SeesNode pass.old.view node }
        ensures view { pass.new ≡ with_view pass.old (loaded pass.old.view (ChildOf node right) result) }
        ensures goes_on { GoesOn pass.old.view pass.new.view }
        ensures seen { WritesWord (ChildOf node right) result (sees pass.old.view) (sees pass.new.view) }
        ensures looked { WritesWord (ChildOf node right) (pass.old.view.steps + 1) (last_look pass.old.view) (last_look pass.new.view) }
        ensures found { MatchOption (child_of_word result) (pass.old.view.steps < (sight_in pass.new.view).found_empty node right)
            (λ c. ((tree_seen pass.new.view).child node right ≡ Some c) × SeesNode pass.new.view c) }
        ensures whole { HasWholeShare pass.old.view → result ≡ sees pass.old.view (ChildOf node right) }
    {
        let seat = &mut pass.seat;
        let place = self.places.child(node as usize, right);
        self.table.shared.load::<Load>(seat, place) as u32
    }

    /// The word of the point of a seen node, which is seen there then.
    #[inline]
    pub fn point_word(&self, pass: &mut Pass, node: u32) -> u64
        requires belongs { BelongsTo pass.old self.now }
        requires seen_node { SeesNode pass.old.view node }
        ensures view { pass.new ≡ with_view pass.old (loaded pass.old.view (PointOf node) (sees pass.new.view (PointOf node))) }
        ensures goes_on { GoesOn pass.old.view pass.new.view }
        // all other words are seen as before
        ensures seen { WritesWord (PointOf node) (sees pass.new.view (PointOf node)) (sees pass.old.view) (sees pass.new.view) }
        ensures looked { WritesWord (PointOf node) (pass.old.view.steps + 1) (last_look pass.old.view) (last_look pass.new.view) }
        ensures found { SeesPoint pass.new.view node (point_in result) }
        // a pass with the whole share finds nothing new
        ensures whole { HasWholeShare pass.old.view → sees pass.new.view (PointOf node) ≡ sees pass.old.view (PointOf node) }
    {
        self.point_at(&mut pass.seat, node)
    }

    /// The point of a seen node, which is seen there then.
    pub fn point(&self, pass: &mut Pass, node: u32) -> Point
        requires belongs { BelongsTo pass.old self.now }
        requires seen_node { SeesNode pass.old.view node }
        ensures view { pass.new ≡ with_view pass.old (loaded pass.old.view (PointOf node) (sees pass.new.view (PointOf node))) }
        ensures goes_on { GoesOn pass.old.view pass.new.view }
        // all other words are seen as before
        ensures seen { WritesWord (PointOf node) (sees pass.new.view (PointOf node)) (sees pass.old.view) (sees pass.new.view) }
        ensures looked { WritesWord (PointOf node) (pass.old.view.steps + 1) (last_look pass.old.view) (last_look pass.new.view) }
        ensures found { SeesPoint pass.new.view node result }
        ensures bounded { IsBounded result }
        // a pass with the whole share finds nothing new
        ensures whole { HasWholeShare pass.old.view → sees pass.new.view (PointOf node) ≡ sees pass.old.view (PointOf node) }
    {
        point_in(self.point_word(pass, node))
    }

    /// Writes the point of the node in hand, for which nothing is written yet. The point is a step towards the mark from a node
    /// that the pass has seen with its point. In an informed scene the best was loaded for the mark, and the bound of the mark is below it.
    pub fn write_point(&self, pass: &mut Pass, nearest: u32, p: Point)
        requires belongs { BelongsTo pass.old self.now }
        requires hand { IsSome pass.old.view.hand }
        requires claimed { IfSome pass.old.view.hand (λ hand. hand.stage ≡ Claimed) }
        requires steered { IfSome pass.old.view.hand (λ hand. IsSteered pass.old.view hand.mark nearest p) }
        requires unskipped { IfSome pass.old.view.hand (λ hand. IsUnskipped pass.old.view hand) }
        ensures view { IfSome pass.old.view.hand (λ hand. pass.new ≡ with_view pass.old (pointed pass.old.view hand nearest p)) }
        ensures goes_on { GoesOn pass.old.view pass.new.view }
    {
        self.store_point::<Brand>(pass, nearest, p);
    }

    /// Stores the word of that point. The proof alone is told which node it was steered from.
    fn store_point<S: SteeredFrom>(&self, pass: &mut Pass, nearest: u32, p: Point)
        requires belongs { BelongsTo pass.old self.now }
        requires hand { IsSome pass.old.view.hand }
        requires claimed { IfSome pass.old.view.hand (λ hand. hand.stage ≡ Claimed) }
        requires steered { IfSome pass.old.view.hand (λ hand. IsSteered pass.old.view hand.mark nearest p) }
        requires unskipped { IfSome pass.old.view.hand (λ hand. IsUnskipped pass.old.view hand) }
        requires told_nearest { S.nearest ≡ nearest }
        requires told_point { S.point ≡ p }
        ensures view { IfSome pass.old.view.hand (λ hand. pass.new ≡ with_view pass.old (pointed pass.old.view hand nearest p)) }
        ensures goes_on { GoesOn pass.old.view pass.new.view }
    {
        let Some(hand) = pass.hand else {
            unreachable!()
        };
        let place = self.places.point(hand.mark as usize + 1);
        self.table
            .shared
            .store::<WritePoint<S>>(&mut pass.seat, place, pack_point(p));
        pass.hand = Some(Hand {
            stage: Stage::Pointed,
            nearest,
            point: p,
            ..hand
        });
    }

    /// Links the node in hand, whose words are written, as a child of another, if there is none on that side, and counts it. The
    /// way of its point leads there over what the pass has seen.
    ///
    /// # Errors
    ///
    /// The child that is there at this step. The pass has then seen it, and its hand is as before.
    pub fn link(&self, pass: &mut Pass, node: u32, right: bool) -> Result<(), u32>
        requires belongs { BelongsTo pass.old self.now }
        requires hand { IsSome pass.old.view.hand }
        requires treed { IfSome pass.old.view.hand (λ hand. hand.stage ≡ Treed) }
        requires leads { IfSome pass.old.view.hand (λ hand. LeadsTo pass.old.view hand.point node right) }
        ensures view { IfOk result (λ _. IfSome pass.old.view.hand (HasLinked pass.old pass.new node right)) }
        ensures goes_on { GoesOn pass.old.view pass.new.view }
        ensures linked { IfOk result (λ _. IfSome pass.old.view.hand (λ hand. IsLinkedAt pass.new.view node right hand)) }
        ensures view_found { IfErr result (λ c. pass.new ≡ with_view pass.old (loaded pass.old.view (ChildOf node right) c)) }
        // the exchange, the first step of the two, or the only one, looked at the place
        ensures looked { WritesWord (ChildOf node right) (pass.old.view.steps + 1) (last_look pass.old.view) (last_look pass.new.view) }
        ensures found { IfErr result (λ c. ((tree_seen pass.new.view).child node right ≡ Some c) × SeesNode pass.new.view c) }
        // the way leads on to the node, or to the child that is there: a try that fails takes it a step deeper
        ensures on_way { IfOk result (λ _. IfSome pass.old.view.hand (λ hand. LeadsOn pass.old.view pass.new.view hand.point node right (suc hand.mark))) }
        ensures deeper { IfErr result (λ c. IfSome pass.old.view.hand (λ hand. LeadsOn pass.old.view pass.new.view hand.point node right c)) }
        // nothing is seen anew but words of nodes, and by a try that fails but children and points
        ensures others { ChangesOnly NamesNode (sees pass.old.view) (sees pass.new.view) }
        ensures others_found { IfErr result (λ _. ChangesOnly NamesChildOrPoint (sees pass.old.view) (sees pass.new.view)) }
        // a pass with the whole share succeeds where it has seen no child, and finds none but the child that it has seen
        ensures whole { HasWholeShare pass.old.view → sees pass.old.view (ChildOf node right) ≡ 0 → IsOk result }
        ensures whole_found { HasWholeShare pass.old.view → IfErr result (λ c. c ≡ sees pass.old.view (ChildOf node right)) }
    {
        let child = self.put(pass, node, right);
        if child != 0 {
            return Err(child);
        }
        self.count(pass);
        Ok(())
    }

    /// Puts the node in hand into a child word if that is empty. Returns what the word was.
    fn put(&self, pass: &mut Pass, node: u32, right: bool) -> u32
        requires belongs { BelongsTo pass.old self.now }
        requires hand { IsSome pass.old.view.hand }
        requires treed { IfSome pass.old.view.hand (λ hand. hand.stage ≡ Treed) }
        requires leads { IfSome pass.old.view.hand (λ hand. LeadsTo pass.old.view hand.point node right) }
        ensures view { IfSome pass.old.view.hand (λ hand. pass.new ≡ with_view pass.old
            (if result == 0 then linked pass.old.view hand node right (last_note pass.new.view)
            else loaded pass.old.view (ChildOf node right) result)) }
        ensures goes_on { GoesOn pass.old.view pass.new.view }
        ensures whole { HasWholeShare pass.old.view → result ≡ sees pass.old.view (ChildOf node right) }
    {
        let Some(hand) = pass.hand else {
            unreachable!()
        };
        let place = self.places.child(node as usize, right);
        let found = self
            .table
            .shared
            .compare_exchange::<Link>(&mut pass.seat, place, 0, u64::from(hand.mark + 1));
        pass.hand = Some(after_link(hand, found));
        if found == 0 {
            pass.pairs
                .set(hand.mark + 1, pack_tree(hand.parent, hand.cost));
        }
        found as u32
    }

    /// Counts the linked node in hand.
    fn count(&self, pass: &mut Pass)
        requires belongs { BelongsTo pass.old self.now }
        requires hand { IsSome pass.old.view.hand }
        requires linked { IfSome pass.old.view.hand (λ hand. hand.stage ≡ Linked) }
        ensures view { IfSome pass.old.view.hand (λ hand. pass.new ≡ with_view pass.old
            (counted pass.old.view hand (note_before pass.new.view 0).word (last_note pass.new.view))) }
        ensures goes_on { GoesOn pass.old.view pass.new.view }
    {
        let Some(hand) = pass.hand else {
            unreachable!()
        };
        let _count = self
            .table
            .shared
            .fetch_add::<Count>(&mut pass.seat, self.places.count(), 1);
        pass.hand = Some(at_stage(hand, Stage::Counted));
    }
}

/// The child that a word names.
fn child_in(word: u32) -> Option<u32>
    ensures { result ≡ child_of_word word }
{
    if word == 0 {
        return None;
    }
    Some(word)
}

/// The hand after a link was tried, by what the word was.
fn after_link(hand: Hand, found: u64) -> Hand
    ensures { result ≡ (if found == 0 then record hand { stage = Linked } else hand) }
{
    if found == 0 {
        at_stage(hand, Stage::Linked)
    } else {
        hand
    }
}

/// The hand, at this stage.
pub(crate) fn at_stage(hand: Hand, stage: Stage) -> Hand
    ensures { result ≡ record hand { stage = stage } }
{
    Hand { stage, ..hand }
}
