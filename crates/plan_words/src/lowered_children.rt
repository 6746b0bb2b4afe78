//! A lowered cost comes to the children of its node.

ghost use Rattle.std.specs.Prelude.{◌≡◌, ◌≢◌, ◌⊎◌, ℕ, suc, ◌+◌, ◌<◌, ◌≤◌, ◌^◌, ◌==◌, if◌then◌else◌, IfErr, IfNone, IfOk, IfSome, IsOk, IsTrue, None, length};
ghost use Rattle.std.specs.Prelude.{slice_index, slice_set};
ghost use Rattle.std.specs.Vec.{vec_capacity};
ghost use Rattle.plan_model.specs.Geometry.Plane.{IsBounded};
ghost use Rattle.plan_words.specs.Claims.{SeesAsBefore};
ghost use Rattle.plan_words.specs.LoweredChildren.{CostsAtMostThrough, HasQueued, IsFound, IsFoundChild, IsSeenAbove, LooksOn, LowersChildren, PostsChanged};
ghost use Rattle.plan_words.specs.LoweredChildren.{SeesSamePoints, SitsAt, sibling_chain_in};
ghost use Rattle.plan_words.specs.Nodes.{FindsLess};
ghost use Rattle.plan_words.specs.States.{BelongsTo, GoesOn, HasFirstPairs, HasWholeShare};
ghost use Rattle.plan_words.specs.SearchLists.{HasSeenParent, IsOn};
ghost use Rattle.grown_runs.specs.ChildChains.{IndexesChains};
ghost use Rattle.step_core.specs.SeenBests.{MayPost, SeesGoal};
ghost use Rattle.step_core.specs.ViewTrees.{MayLower, SeesNode, SeesPoint};
ghost use Rattle.step_core.specs.Views.{sees, share};
ghost use Rattle.grown_runs.specs.Table.WordNames.{Word};
ghost use Rattle.grown_runs.specs.Table.WordNames.Word.{PointOf, TreeOf};
ghost use Rattle.grown_runs.specs.Table.Words.{best_word, cost_in, parent_in, tree_word};

use crate::bests::note_post;
use crate::openings::Aim;
use crate::passes::Pass;
use crate::shared::Shared;
use crate::waiting::Waiting;
use atomic_table::Seat;
use edge_cost::cost;
use plan_model::Point;
use step_core::{ChildIndex, Hand, View, pack_tree, pair_in, point_in};

/// A node with its point and its cost, as a pass has seen them last.
#[derive(Clone, Copy)]
pub(crate) struct Above {
    pub(crate) node: u32,
    pub(crate) point: Point,
    pub(crate) cost: u64,
}

/// What children are lowered below: the node, and the tree in which it stands.
#[derive(Clone, Copy)]
pub(crate) struct Lowering<'a> {
    pub(crate) shared: &'a Shared,
    pub(crate) above: Above,
}

/// A child that is not lowered, since another word was found at it, with that word.
#[derive(Clone, Copy)]
pub(crate) struct FoundChild {
    pub(crate) node: u32,
    pub(crate) word: u64,
}

impl Shared {
    /// Lowers each child of a node that costs more than through it, both as the pass has seen them last, to what it costs through it.
    /// Those whose cost fell come on the list of the nodes that wait, if they have children themselves. The node is seen with its
    /// parent and its cost, and the pass has a share. O(k) for k children.
    ///
    /// It loads no costs. Each child that is lowered and lies in a goal by which marks are skipped is posted. An exchange that fails
    /// shows a child at a lower cost, with whatever parent: that child is returned, and the others may not have been looked at. `None`
    /// if all were.
    pub fn lower_children(&self, pass: &mut Pass, node: u32) -> Option<u32>
        requires belongs { BelongsTo pass.old self.now }
        requires part { 0 < share pass.old.view }
        requires pair { 2 ^ 63 ≤ sees pass.old.view (TreeOf node) }
        ensures belongs { BelongsTo pass.new self.now }
        ensures looks { LooksOn pass.old.view pass.new.view }
        ensures lists { (pass.new.lists.near ≡ pass.old.lists.near) × (pass.new.lists.around ≡ pass.old.lists.around)
            × (pass.new.lists.search ≡ pass.old.lists.search) }
        ensures lowered { LowersChildren (IsFound result) pass.old.view pass.new.view node }
        // of a goal node that was lowered the best word is at most its pair then
        ensures posted { PostsChanged (IsFound result) pass.old.view pass.new.view }
        ensures all { IfNone result ((n : ℕ) → HasSeenParent pass.new.view node n → CostsAtMostThrough pass.new.view node n) }
        // the child is one that was seen, and is found at less
        ensures found { IfSome result (λ n. HasSeenParent pass.old.view node n × FindsLess (sees pass.old.view (TreeOf n)) (sees pass.new.view (TreeOf n))) }
        // each whose cost fell and that has a child waits; the child that was found aside
        ensures parents { (n m : ℕ) → ¬ IsFound result n → ¬ IsFound result m
            → cost_in (sees pass.new.view (TreeOf n)) < cost_in (sees pass.old.view (TreeOf n)) → HasSeenParent pass.new.view n m
            → IsOn pass.new.lists.waiting n }
        ensures keeps { (n : ℕ) → IsOn pass.old.lists.waiting n → IsOn pass.new.lists.waiting n }
        ensures only { (n : ℕ) → IsOn pass.new.lists.waiting n → IsOn pass.old.lists.waiting n ⊎ HasSeenParent pass.old.view node n }
        // if no cost fell, none came on the list, and there are never more on it than there may be nodes
        ensures same { (pass.new.lists.waiting ≡ pass.old.lists.waiting)
            ⊎ HasQueued pass.old.view pass.new.view pass.new.lists.waiting (length pass.old.view.run.marks + 1) }
        // a pass with the whole share succeeds, and is shown no new point
        ensures whole { HasWholeShare pass.old.view → result ≡ None }
        ensures points { HasWholeShare pass.old.view → SeesSamePoints pass.old.view pass.new.view }
    {
        let point = self.point(pass, node);
        let (_, cost) = pair_in(pass.pairs.word(node));
        let from = Lowering {
            shared: self,
            above: Above { node, point, cost },
        };
        let found = pass.pairs.lower_children(
            from,
            &mut pass.seat,
            &mut pass.hand,
            &mut pass.lists.waiting,
        )?;
        pass.pairs.set(found.node, found.word);
        Some(found.node)
    }

    /// Lowers a child to what it costs through its parent, if that is less, and posts it then if it lies in a goal by which marks are
    /// skipped. Its word then, or the one of lower cost that was found.
    fn lower_child(
        &self,
        seat: &mut Seat<Aim, View>,
        hand: &mut Option<Hand>,
        above: Above,
        child: u32,
        seen: u64,
    ) -> Result<u64, u64>
        requires sits { SitsAt self.now seat.old.table_id seat.old.me }
        requires held { hand.old ≡ seat.old.me.0.hand }
        requires part { 0 < share seat.old.me.0 }
        requires above { IsSeenAbove seat.old.me.0 above }
        requires child { HasSeenParent seat.old.me.0 above.node child }
        requires seen { seen ≡ sees seat.old.me.0 (TreeOf child) }
        ensures sits { SitsAt self.now seat.new.table_id seat.new.me }
        ensures held { hand.new ≡ seat.new.me.0.hand }
        ensures looks { LooksOn seat.old.me.0 seat.new.me.0 }
        ensures others { (n : ℕ) → n ≢ child → sees seat.new.me.0 (TreeOf n) ≡ sees seat.old.me.0 (TreeOf n) }
        ensures here { IfOk result (λ word. word ≡ sees seat.new.me.0 (TreeOf child)) }
        ensures is { IfOk result (λ word. HasSeenParent seat.new.me.0 above.node child × CostsAtMostThrough seat.new.me.0 above.node child) }
        ensures fell { IfOk result (λ word. (word ≡ seen) ⊎ FindsLess seen word) }
        ensures found { IfErr result (λ word. (word ≡ sees seat.new.me.0 (TreeOf child)) × FindsLess seen word) }
        ensures posted { IfOk result (λ word. word ≢ seen → SeesGoal seat.old.me.0 child → seat.new.me.0.best ≤ best_word (cost_in word) child) }
        ensures whole { HasWholeShare seat.old.me.0 → IsOk result }
        ensures points { HasWholeShare seat.old.me.0 → SeesSamePoints seat.old.me.0 seat.new.me.0 }
    {
        let word = self.point_at(seat, child);
        let point = point_in(word);
        let cost = above.cost + cost(above.point, point);
        let (_, kept_cost) = pair_in(seen);
        if kept_cost <= cost {
            return Ok(seen);
        }
        let found = self.lower_at(seat, child, seen, above.node, cost);
        if found == seen {
            self.post_child(seat, hand, child, point, cost);
            Ok(pack_tree(above.node, cost))
        } else {
            Err(found)
        }
    }

    /// Posts a node that was lowered to this cost, if the point at which it stands lies in a goal by which marks are skipped.
    fn post_child(
        &self,
        seat: &mut Seat<Aim, View>,
        hand: &mut Option<Hand>,
        node: u32,
        point: Point,
        cost: u64,
    )
        requires sits { SitsAt self.now seat.old.table_id seat.old.me }
        requires held { hand.old ≡ seat.old.me.0.hand }
        requires part { 0 < share seat.old.me.0 }
        requires stands { SeesPoint seat.old.me.0 node point }
        requires written { 2 ^ 63 ≤ sees seat.old.me.0 (TreeOf node) }
        requires cost { cost ≡ cost_in (sees seat.old.me.0 (TreeOf node)) }
        ensures sits { SitsAt self.now seat.new.table_id seat.new.me }
        ensures held { hand.new ≡ seat.new.me.0.hand }
        ensures looks { LooksOn seat.old.me.0 seat.new.me.0 }
        ensures seen { sees seat.new.me.0 ≡ sees seat.old.me.0 }
        ensures posted { SeesGoal seat.old.me.0 node → seat.new.me.0.best ≤ best_word cost node }
    {
        if self.has_goal_at(point) {
            self.post_at(seat, node, cost);
            *hand = note_post(*hand, node);
        }
    }
}

/// Lowers the children of a node that are on its chain, and writes down their words. If another word was found at a child, that is
/// not written down. The words are those of the first nodes, of which the node is one.
pub(crate) fn lower_chain(
    words: &mut Vec<u64>,
    children: &ChildIndex,
    from: Lowering<'_>,
    seat: &mut Seat<Aim, View>,
    hand: &mut Option<Hand>,
    waiting: &mut Waiting,
) -> Option<FoundChild>
    requires index { IndexesChains (length words.old.items) (sibling_chain_in words.old.items) children.now }
    requires sits { SitsAt from.shared.now seat.old.table_id seat.old.me }
    requires held { hand.old ≡ seat.old.me.0.hand }
    requires part { 0 < share seat.old.me.0 }
    requires pairs { HasFirstPairs seat.old.me.0 words.old.items }
    requires low { from.above.node < length words.old.items }
    requires above { IsSeenAbove seat.old.me.0 from.above }
    requires size { length words.old.items ≤ waiting.old.size }
    ensures chains { (n : ℕ) → sibling_chain_in words.new.items n ≡ sibling_chain_in words.old.items n }
    ensures as_many { length words.new.items ≡ length words.old.items }
    ensures capacity { vec_capacity words.new ≡ vec_capacity words.old }
    ensures sits { SitsAt from.entry.shared.now seat.new.table_id seat.new.me }
    ensures held { hand.new ≡ seat.new.me.0.hand }
    ensures looks { LooksOn seat.old.me.0 seat.new.me.0 }
    ensures pairs { IfNone result (HasFirstPairs seat.new.me.0 words.new.items) }
    ensures pairs_found { IfSome result (λ found. (found.node < length words.old.items)
        × HasFirstPairs seat.new.me.0 (slice_set words.new.items found.node found.word)) }
    ensures size { waiting.new ≡ record waiting.old { nodes = waiting.new.nodes } }
    ensures lowered { LowersChildren (IsFoundChild result) seat.old.me.0 seat.new.me.0 from.entry.above.node }
    ensures posted { PostsChanged (IsFoundChild result) seat.old.me.0 seat.new.me.0 }
    ensures all { IfNone result ((n : ℕ) → HasSeenParent seat.new.me.0 from.entry.above.node n → CostsAtMostThrough seat.new.me.0 from.entry.above.node n) }
    ensures found { IfSome result (λ found. HasSeenParent seat.old.me.0 from.entry.above.node found.node
        × FindsLess (sees seat.old.me.0 (TreeOf found.node)) (sees seat.new.me.0 (TreeOf found.node))) }
    ensures parents { (n m : ℕ) → ¬ IsFoundChild result n → ¬ IsFoundChild result m
        → cost_in (sees seat.new.me.0 (TreeOf n)) < cost_in (sees seat.old.me.0 (TreeOf n)) → HasSeenParent seat.new.me.0 n m → IsOn waiting.new.nodes n }
    ensures keeps { (n : ℕ) → IsOn waiting.old.nodes n → IsOn waiting.new.nodes n }
    ensures only { (n : ℕ) → IsOn waiting.new.nodes n → IsOn waiting.old.nodes n ⊎ HasSeenParent seat.old.me.0 from.entry.above.node n }
    ensures same { (waiting.new.nodes ≡ waiting.old.nodes) ⊎ HasQueued seat.old.me.0 seat.new.me.0 waiting.new.nodes waiting.old.size }
    ensures whole { HasWholeShare seat.old.me.0 → result ≡ None }
    ensures points { HasWholeShare seat.old.me.0 → SeesSamePoints seat.old.me.0 seat.new.me.0 }
{
    let mut child = children.first_child(from.above.node);
    'children: while child != 0 {
        let seen = words[child as usize];
        // Loaded before the exchange, since no later load begins before an exchange has ended.
        let next = children.next_sibling(child);
        let has_child = children.first_child(child) != 0;
        let word = match from.shared.lower_child(seat, hand, from.above, child, seen) {
            Ok(word) => word,
            Err(found) => {
                return Some(FoundChild {
                    node: child,
                    word: found,
                });
            }
        };
        write_down(words, has_child, waiting, child, word);
        child = next;
    }
    None
}

/// Writes down the word of a node. If it is another than it was and the node has a child, the node waits then.
fn write_down(words: &mut Vec<u64>, has_child: bool, waiting: &mut Waiting, node: u32, word: u64)
    requires low { node < length words.old.items }
    requires room { node < waiting.old.size }
    ensures words { words.new.items ≡ slice_set words.old.items node word }
    ensures capacity { vec_capacity words.new ≡ vec_capacity words.old }
    ensures kept { waiting.new ≡ record waiting.old { nodes = waiting.new.nodes } }
    ensures keeps { (n : ℕ) → IsOn waiting.old.nodes n → IsOn waiting.new.nodes n }
    ensures only { (n : ℕ) → IsOn waiting.new.nodes n → IsOn waiting.old.nodes n ⊎ (n ≡ node) }
    ensures parent { IsTrue has_child → word ≢ slice_index words.old.items node → IsOn waiting.new.nodes node }
    ensures same { (waiting.new.nodes ≡ waiting.old.nodes)
        ⊎ ((word ≢ slice_index words.old.items node) × (length waiting.new.nodes ≤ waiting.old.size)) }
{
    if words[node as usize] == word {
        return;
    }
    words[node as usize] = word;
    if has_child {
        waiting.push(node);
    }
}
