//! The steps on parents and costs: a pass looks at the tree words of nodes that it has seen, writes the first word and the tree
//! word of the node in its hand, and lowers the cost of a node below a parent by which it is cheaper.

ghost use Rattle.std.specs.Prelude.{◌≡◌, ◌≢◌, ℕ, ◌+◌, ◌<◌, ◌≤◌, ◌^◌, ◌==◌, if◌then◌else◌, false, IfErr, IfOk, IfSome, IsOk, IsSome, List, true};
ghost use Rattle.plan_model.specs.Trees.NodeLists.{IsPresent};
ghost use Rattle.plan_words.specs.Nodes.{LooksAndPosts, OnlyPosts, FindsLess, IsEdgeSeen, IsPairIn};
ghost use Rattle.plan_words.specs.States.{BelongsTo, GoesOn, HasWholeShare, with_view};
ghost use Rattle.step_core.specs.Histories.{HasLooked};
ghost use Rattle.step_core.specs.SeenBests.{SeesGoal};
ghost use Rattle.step_core.specs.ViewSteps.{half, last_note, loaded, lowered, pair_in_hand, treed};
ghost use Rattle.step_core.specs.ViewTrees.{MayHang, MayLower, SeesNode};
ghost use Rattle.step_core.specs.Views.{last_look, sees, share, tree_seen};
ghost use Rattle.grown_runs.specs.Table.WordNames.{WritesWord};
ghost use Rattle.grown_runs.specs.Table.WordNames.Word.{TreeOf};
ghost use Rattle.grown_runs.specs.Table.Words.{best_word, cost_in, tree_word};
ghost use Rattle.step_core.specs.declared.views.Stage.TheVariants.{Half, Pointed};

use crate::nodes::at_stage;
use crate::passes::Pass;
use crate::rules::{Load, WriteFirst, WriteTree};
use crate::shared::Shared;
use step_core::{Hand, Stage, pack_tree, pair_in};

impl Shared {
    /// The parent of a seen node, and its cost in 256ths of a lattice step; the start is its own, at 0. The cost is no more
    /// than the pass had seen of the node. If the pass sees both with their points, the edge between them is allowed.
    pub fn tree(&self, pass: &mut Pass, node: u32) -> (u32, u64)
        requires belongs { BelongsTo pass.old self.now }
        requires seen_node { SeesNode pass.old.view node }
        ensures view { pass.new ≡ with_view pass.old (loaded pass.old.view (TreeOf node) (sees pass.new.view (TreeOf node))) }
        ensures goes_on { GoesOn pass.old.view pass.new.view }
        // all other words are seen as before
        ensures seen { WritesWord (TreeOf node) (sees pass.new.view (TreeOf node)) (sees pass.old.view) (sees pass.new.view) }
        ensures looked { WritesWord (TreeOf node) (pass.old.view.steps + 1) (last_look pass.old.view) (last_look pass.new.view) }
        ensures found { IsPairIn (sees pass.new.view (TreeOf node)) result }
        ensures not_above { 2 ^ 63 ≤ sees pass.old.view (TreeOf node) → result.1 ≤ cost_in (sees pass.old.view (TreeOf node)) }
        ensures edge { IsEdgeSeen pass.new.view node result.0 }
        // a pass with the whole share finds nothing new
        ensures whole { HasWholeShare pass.old.view → sees pass.new.view (TreeOf node) ≡ sees pass.old.view (TreeOf node) }
    {
        let seat = &mut pass.seat;
        let place = self.places.tree(node as usize);
        let word = self.table.shared.load::<Load>(seat, place);
        pass.pairs.set(node, word);
        pair_in(word)
    }

    /// Writes the parent and the cost of the node in hand, in its first word and then in its tree word: two steps. Its point is
    /// written, and no more. The parent is seen, with an edge that is allowed. The cost, in 256ths of a lattice step, is what
    /// the parent was seen to cost and the edge, and no more than below the nearest node.
    pub fn write_tree(&self, pass: &mut Pass, parent: u32, cost: u64)
        requires belongs { BelongsTo pass.old self.now }
        requires hand { IsSome pass.old.view.hand }
        requires pointed { IfSome pass.old.view.hand (λ hand. hand.stage ≡ Pointed) }
        requires may { IfSome pass.old.view.hand (λ hand. MayHang pass.old.view hand parent cost) }
        ensures view { IfSome pass.old.view.hand (λ hand. pass.new ≡ with_view pass.old
            (treed (half pass.old.view hand parent cost) (record hand { stage = Half; parent = parent; cost = cost }))) }
        ensures goes_on { GoesOn pass.old.view pass.new.view }
    {
        self.store_first(pass, parent, cost);
        self.store_tree(pass);
    }

    /// Stores the first word.
    fn store_first(&self, pass: &mut Pass, parent: u32, cost: u64)
        requires belongs { BelongsTo pass.old self.now }
        requires hand { IsSome pass.old.view.hand }
        requires pointed { IfSome pass.old.view.hand (λ hand. hand.stage ≡ Pointed) }
        requires may { IfSome pass.old.view.hand (λ hand. MayHang pass.old.view hand parent cost) }
        ensures view { IfSome pass.old.view.hand (λ hand. pass.new ≡ with_view pass.old (half pass.old.view hand parent cost)) }
        ensures goes_on { GoesOn pass.old.view pass.new.view }
    {
        let Some(hand) = pass.hand else {
            unreachable!()
        };
        let place = self.places.first(hand.mark as usize + 1);
        self.table
            .shared
            .store::<WriteFirst>(&mut pass.seat, place, pack_tree(parent, cost));
        pass.hand = Some(Hand {
            stage: Stage::Half,
            parent,
            cost,
            ..hand
        });
    }

    /// Stores the tree word, as the first word is.
    fn store_tree(&self, pass: &mut Pass)
        requires belongs { BelongsTo pass.old self.now }
        requires hand { IsSome pass.old.view.hand }
        requires half { IfSome pass.old.view.hand (λ hand. hand.stage ≡ Half) }
        ensures view { IfSome pass.old.view.hand (λ hand. pass.new ≡ with_view pass.old (treed pass.old.view hand)) }
        ensures goes_on { GoesOn pass.old.view pass.new.view }
    {
        let Some(hand) = pass.hand else {
            unreachable!()
        };
        let place = self.places.tree(hand.mark as usize + 1);
        self.table
            .shared
            .store::<WriteTree>(&mut pass.seat, place, pack_tree(hand.parent, hand.cost));
        pass.hand = Some(at_stage(hand, Stage::Treed));
    }

    /// Lowers the cost of a node, which gets another parent or keeps its own. The cost is less than the pass has seen of the node:
    /// it is what the parent was seen to cost and the edge, which is allowed by the points that the pass has seen of both: no step of this
    /// call looks at the parent. The pass has a share. In an informed scene the point of the node is looked at then, and if it lies in a goal
    /// it is posted.
    ///
    /// # Errors
    ///
    /// The parent and the cost that the node has at this step, only if it has changed since the pass saw it last. They are seen
    /// then, and the cost is strictly less than was seen. The edge is allowed, as that of [`tree`](Shared::tree).
    pub fn lower(
        &self,
        pass: &mut Pass,
        node: u32,
        parent: u32,
        cost: u64,
    ) -> Result<(), (u32, u64)>
        requires belongs { BelongsTo pass.old self.now }
        requires part { 0 < share pass.old.view }
        requires may { MayLower pass.old.view node parent cost }
        // in a scene that is not informed this is one step
        ensures view { self.now.task.scene.informed ≡ false
            → IfOk result (λ _. pass.new ≡ with_view pass.old (lowered pass.old.view node parent cost (last_note pass.new.view))) }
        ensures posts { self.now.task.scene.informed ≡ true
            → IfOk result (λ _. (steps : List ℕ) × LooksAndPosts node (lowered pass.old.view node parent cost steps) pass.new.view) }
        ensures kept { IfOk result (λ _. OnlyPosts node pass.old pass.new) }
        ensures goes_on { GoesOn pass.old.view pass.new.view }
        ensures view_found { IfErr result (λ _. pass.new ≡ with_view pass.old (loaded pass.old.view (TreeOf node) (sees pass.new.view (TreeOf node)))) }
        ensures found { IfErr result (λ pair. IsPairIn (sees pass.new.view (TreeOf node)) pair) }
        ensures edge_found { IfErr result (λ pair. IsEdgeSeen pass.new.view node pair.0) }
        // all other words are seen as before
        ensures seen { WritesWord (TreeOf node) (sees pass.new.view (TreeOf node)) (sees pass.old.view) (sees pass.new.view) }
        // the exchange, the first step, looked at the word; so it was left as it is seen then, or it was another one
        ensures looked { last_look pass.new.view (TreeOf node) ≡ pass.old.view.steps + 1 }
        // and nothing is seen otherwise than before that no step of this call looked at
        ensures shown { HasLooked pass.old.view pass.new.view }
        // the node is seen with this parent and at this cost then
        ensures lowered { IfOk result (λ _. sees pass.new.view (TreeOf node) ≡ tree_word parent cost) }
        // the cost that is seen falls, whichever it is
        ensures falls { FindsLess (sees pass.old.view (TreeOf node)) (sees pass.new.view (TreeOf node)) }
        // of a goal node the best word is at most its pair then
        ensures posted { IfOk result (λ _. SeesGoal pass.old.view node → pass.new.view.best ≤ best_word cost node) }
        // a pass with the whole share succeeds
        ensures whole { HasWholeShare pass.old.view → IsOk result }
    {
        self.lower_pair(pass, node, parent, cost)?;
        if self.task.scene.informed {
            self.post_lowered(pass, node);
        }
        Ok(())
    }

    /// Lowers the parent and the cost of a node, and posts nothing.
    fn lower_pair(
        &self,
        pass: &mut Pass,
        node: u32,
        parent: u32,
        cost: u64,
    ) -> Result<(), (u32, u64)>
        requires belongs { BelongsTo pass.old self.now }
        requires part { 0 < share pass.old.view }
        requires may { MayLower pass.old.view node parent cost }
        ensures view { IfOk result (λ _. pass.new ≡ with_view pass.old (lowered pass.old.view node parent cost (last_note pass.new.view))) }
        ensures goes_on { GoesOn pass.old.view pass.new.view }
        ensures view_found { IfErr result (λ _. pass.new ≡ with_view pass.old (loaded pass.old.view (TreeOf node) (sees pass.new.view (TreeOf node)))) }
        ensures found { IfErr result (λ pair. IsPairIn (sees pass.new.view (TreeOf node)) pair) }
        ensures edge_found { IfErr result (λ pair. IsEdgeSeen pass.new.view node pair.0) }
        // all other words are seen as before
        ensures seen { WritesWord (TreeOf node) (sees pass.new.view (TreeOf node)) (sees pass.old.view) (sees pass.new.view) }
        ensures looked { last_look pass.new.view (TreeOf node) ≡ pass.old.view.steps + 1 }
        ensures shown { HasLooked pass.old.view pass.new.view }
        // the cost that is seen falls, whichever it is
        ensures falls { FindsLess (sees pass.old.view (TreeOf node)) (sees pass.new.view (TreeOf node)) }
        // a pass with the whole share succeeds
        ensures whole { HasWholeShare pass.old.view → IsOk result }
    {
        let seen = pass.pairs.word(node);
        let found = self.exchange_tree(pass, node, parent, cost);
        if found == seen {
            return Ok(());
        }
        Err(pair_in(found))
    }

    /// Posts a node whose cost was lowered, if it lies in a goal.
    fn post_lowered(&self, pass: &mut Pass, node: u32)
        requires belongs { BelongsTo pass.old self.now }
        requires part { 0 < share pass.old.view }
        requires present { IsPresent (tree_seen pass.old.view).points node }
        requires written { 2 ^ 63 ≤ sees pass.old.view (TreeOf node) }
        ensures posts { LooksAndPosts node pass.old.view pass.new.view }
        ensures kept { OnlyPosts node pass.old pass.new }
        ensures goes_on { GoesOn pass.old.view pass.new.view }
        ensures seen { sees pass.new.view ≡ sees pass.old.view }
        ensures looked { (n : ℕ) → last_look pass.new.view (TreeOf n) ≡ last_look pass.old.view (TreeOf n) }
        ensures shown { HasLooked pass.old.view pass.new.view }
        ensures posted { SeesGoal pass.old.view node → pass.new.view.best ≤ best_word (cost_in (sees pass.old.view (TreeOf node))) node }
    {
        let point = self.point(pass, node);
        if self.has_goal_at(point) {
            self.post(pass, node);
        }
    }

    /// Exchanges the tree word of a node if it is the one that the pass saw last. Returns what it was.
    fn exchange_tree(&self, pass: &mut Pass, node: u32, parent: u32, cost: u64) -> u64
        requires belongs { BelongsTo pass.old self.now }
        requires part { 0 < share pass.old.view }
        requires may { MayLower pass.old.view node parent cost }
        ensures view { pass.new ≡ with_view pass.old
            (if result == sees pass.old.view (TreeOf node) then lowered pass.old.view node parent cost (last_note pass.new.view)
            else loaded pass.old.view (TreeOf node) result) }
        ensures goes_on { GoesOn pass.old.view pass.new.view }
        ensures looked { last_look pass.new.view (TreeOf node) ≡ pass.old.view.steps + 1 }
        ensures shown { HasLooked pass.old.view pass.new.view }
        ensures found { result ≢ sees pass.old.view (TreeOf node) → FindsLess (sees pass.old.view (TreeOf node)) result }
        ensures whole { HasWholeShare pass.old.view → result ≡ sees pass.old.view (TreeOf node) }
    {
        let seen = pass.pairs.word(node);
        let found = self.lower_at(&mut pass.seat, node, seen, parent, cost);
        let word = after_exchange(found, seen, pack_tree(parent, cost));
        pass.pairs.set(node, word);
        found
    }
}

/// The word after an exchange was tried, by what the word was.
fn after_exchange(found: u64, expected: u64, word: u64) -> u64
    ensures { result ≡ (if found == expected then word else found) }
{
    if found == expected { word } else { found }
}
