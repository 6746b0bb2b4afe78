//! The steps of a seat on points, on tree words that were seen, and on the best word. A pass is a seat with what it remembers: that follows
//! these steps.

ghost use Rattle.std.specs.Prelude.{◌≡◌, ◌≢◌, ◌+◌, ◌<◌, ◌≤◌, ◌==◌, if◌then◌else◌};
ghost use Rattle.plan_words.specs.LoweredChildren.{LooksOn, SitsAt};
ghost use Rattle.plan_words.specs.Nodes.{FindsLess};
ghost use Rattle.plan_words.specs.States.{GoesOn, HasWholeShare};
ghost use Rattle.step_core.specs.SeenBests.{MayPost};
ghost use Rattle.step_core.specs.ViewSteps.{best_with, last_note, loaded, lowered, with_post};
ghost use Rattle.step_core.specs.ViewTrees.{MayLower, SeesNode, SeesPoint};
ghost use Rattle.step_core.specs.Views.{last_look, sees, share};
ghost use Rattle.grown_runs.specs.Table.WordNames.{WritesWord};
ghost use Rattle.grown_runs.specs.Table.WordNames.Word.{Best, PointOf, TreeOf};
ghost use Rattle.grown_runs.specs.Table.Words.{best_word, cost_in, point_in, tree_word};

use crate::openings::Aim;
use crate::rules::{Load, Lower, Post};
use crate::shared::Shared;
use atomic_table::Seat;
use step_core::{View, pack_best, pack_tree};

impl Shared {
    /// The word of the point of a seen node.
    #[inline]
    pub(crate) fn point_at(&self, seat: &mut Seat<Aim, View>, node: u32) -> u64
        requires sits { SitsAt self.now seat.old.table_id seat.old.me }
        requires seen_node { SeesNode seat.old.me.0 node }
        ensures sits { SitsAt self.now seat.new.table_id seat.new.me }
        ensures looks { LooksOn seat.old.me.0 seat.new.me.0 }
        ensures view { seat.new.me.0 ≡ loaded seat.old.me.0 (PointOf node) (sees seat.new.me.0 (PointOf node)) }
        ensures seen { WritesWord (PointOf node) (sees seat.new.me.0 (PointOf node)) (sees seat.old.me.0) (sees seat.new.me.0) }
        ensures looked { WritesWord (PointOf node) (seat.old.me.0.steps + 1) (last_look seat.old.me.0) (last_look seat.new.me.0) }
        ensures found { SeesPoint seat.new.me.0 node (point_in result) }
        ensures whole { HasWholeShare seat.old.me.0 → sees seat.new.me.0 (PointOf node) ≡ sees seat.old.me.0 (PointOf node) }
    {
        let place = self.places.point(node as usize);
        self.table.shared.load::<Load>(seat, place)
    }

    /// Exchanges the tree word of a node if it is the one that was seen last. Returns what it was.
    pub(crate) fn lower_at(
        &self,
        seat: &mut Seat<Aim, View>,
        node: u32,
        seen: u64,
        parent: u32,
        cost: u64,
    ) -> u64
        requires sits { SitsAt self.now seat.old.table_id seat.old.me }
        requires part { 0 < share seat.old.me.0 }
        requires may { MayLower seat.old.me.0 node parent cost }
        requires seen { seen ≡ sees seat.old.me.0 (TreeOf node) }
        ensures sits { SitsAt self.now seat.new.table_id seat.new.me }
        ensures looks { LooksOn seat.old.me.0 seat.new.me.0 }
        ensures hand { seat.new.me.0.hand ≡ seat.old.me.0.hand }
        ensures view { seat.new.me.0 ≡ (if result == seen then lowered seat.old.me.0 node parent cost (last_note seat.new.me.0)
            else loaded seat.old.me.0 (TreeOf node) result) }
        ensures wrote { WritesWord (TreeOf node) (if result == seen then tree_word parent cost else result) (sees seat.old.me.0) (sees seat.new.me.0) }
        ensures looked { last_look seat.new.me.0 (TreeOf node) ≡ seat.old.me.0.steps + 1 }
        ensures found { result ≢ seen → FindsLess seen result }
        ensures whole { HasWholeShare seat.old.me.0 → result ≡ seen }
    {
        let place = self.places.tree(node as usize);
        self.table
            .shared
            .compare_exchange::<Lower>(seat, place, seen, pack_tree(parent, cost))
    }

    /// Posts a goal node, which was seen at this cost.
    pub(crate) fn post_at(&self, seat: &mut Seat<Aim, View>, node: u32, cost: u64)
        requires sits { SitsAt self.now seat.old.table_id seat.old.me }
        requires may { MayPost seat.old.me.0 node }
        requires cost { cost ≡ cost_in (sees seat.old.me.0 (TreeOf node)) }
        ensures sits { SitsAt self.now seat.new.table_id seat.new.me }
        ensures goes_on { GoesOn seat.old.me.0 seat.new.me.0 }
        ensures view { seat.new.me.0 ≡ with_post seat.old.me.0 node seat.new.me.0.best (last_note seat.new.me.0) }
        ensures looked { WritesWord Best (seat.old.me.0.steps + 1) (last_look seat.old.me.0) (last_look seat.new.me.0) }
        ensures posted { seat.new.me.0.best ≤ best_word cost node }
        ensures whole { HasWholeShare seat.old.me.0 → seat.new.me.0.best ≡ best_with seat.old.me.0 node seat.old.me.0.best }
    {
        let place = self.places.best();
        let _found = self
            .table
            .shared
            .fetch_min::<Post>(seat, place, pack_best(cost, node));
    }
}
