//! The rewiring of nodes near a new one.

ghost use Rattle.std.specs.Prelude.{◌≡◌, ◌≢◌, ℕ, suc, ◌+◌, ◌<◌, ◌≤◌, All, Contains, IfSome, IsSome, List};
ghost use Rattle.std.specs.List.Sorted.{IsStrictlyIncreasing};
ghost use Rattle.plan_model.specs.Geometry.Plane.{IsBounded};
ghost use Rattle.plan_model.specs.Spaces.Clearance.{Clear};
ghost use Rattle.plan_model.specs.Spaces.ConfigurationSpace.{space_of};
ghost use Rattle.plan_model.specs.Geometry.Lengths.{cost_of};
ghost use Rattle.plan_model.specs.Runs.OrderLaw.{IsAllowedEdge};
ghost use Rattle.plan_model.specs.Trees.NodeLists.{IsPresent, point_of};
ghost use Rattle.plan_model.specs.Runs.Textbook.{Nodes, Rewires, RewiresOne};
ghost use Rattle.plan_words.specs.Nodes.{HasPostedGoals};
ghost use Rattle.plan_words.specs.Claims.{SeesAsBefore};
ghost use Rattle.plan_words.specs.SearchLists.{numbers_of};
ghost use Rattle.plan_words.specs.States.{BelongsTo, HasWholeShare};
ghost use Rattle.step_core.specs.ViewTrees.{SeesPoint};
ghost use Rattle.step_core.specs.Views.{sees, setup_in, share, tree_seen};
ghost use Rattle.grown_runs.specs.Table.WordNames.{WritesWord};
ghost use Rattle.grown_runs.specs.Table.WordNames.Word.{TreeOf};
ghost use Rattle.grown_runs.specs.Table.Words.{tree_word};
ghost use Rattle.tree_rewire.specs.NearNodes.{AreOf, IsWeighed, nodes_on};
ghost use Rattle.tree_rewire.specs.Spreads.{Mirrors, HasPlaced, HasSpreadFalls, OnlyAt};
ghost use Rattle.tree_rewire.specs.SeenCosts.{IsInReach, NamesLowered, NamesLoweredOrPoint, NamesTree, PassLowers, PassSees, SeesAnew, SeesPair, cost_seen};

use crate::near_nodes::NearNodes;
use crate::seen_costs::seen_cost;
use crate::spreading::spread;
use edge_cost::{cost, costs_less_through};
use plan_model::Point;
use plan_words::{Pass, Shared};
use swept_check::Clearing;

/// Rewires the nodes on the near list, in their order, once the node of mark k is placed: it becomes the parent of each that
/// is then strictly cheaper, over a clear edge, and what fell is [spread] before the next is looked at. Each near node is seen
/// with its point, at most a step from the new one; without any, nothing changes. The pass has a share. Each node that is lowered
/// and lies in a goal by which marks are skipped is posted.
///
/// An edge is tested only if the node would be cheaper than it was seen to be last. Another pass may lower the node first, or give
/// it another parent; it is lowered again only while it is still dearer. O(n) for n near nodes, and what the spreads take.
pub fn rewire<C: Clearing>(shared: &Shared, pass: &mut Pass, hall: &C, k: u32)
    requires belongs { BelongsTo pass.old shared.now }
    requires part { 0 < share pass.old.view }
    requires hall { C.space hall.now ≡ space_of shared.now.task.scene }
    requires hand { IsSome pass.old.view.hand }
    requires placed { IfSome pass.old.view.hand (λ hand. HasPlaced pass.old.view k hand) }
    requires near { IfSome pass.old.view.hand (λ hand. All (IsInReach pass.old.view hand.point) pass.old.lists.near) }
    ensures belongs { BelongsTo pass.new shared.now }
    ensures seen { SeesAnew NamesLoweredOrPoint pass.old.view pass.new.view }
    ensures lists { (pass.new.lists.near ≡ pass.old.lists.near) × (pass.new.lists.around ≡ pass.old.lists.around)
        × (pass.new.lists.search ≡ pass.old.lists.search) }
    ensures pairs { All (SeesPair pass.new.view) pass.old.lists.near }
    // each near node with a clear edge costs no more than through the new node, by the cost that this was placed at
    ensures rewired { IfSome pass.old.view.hand (λ hand. (i : ℕ) → Contains pass.old.lists.near i
        → Clear (space_of shared.now.task.scene) hand.point (point_of (tree_seen pass.old.view).points i)
        → cost_seen pass.new.view i ≤ hand.cost + cost_of hand.point (point_of (tree_seen pass.old.view).points i)) }
    // each node whose cost fell, or whose parent's did, costs no more than through its parent, by what is seen then, unless it is a near
    // node to which the new one is a shortcut and which hangs elsewhere, as another pass has lowered it
    ensures spread { HasSpreadFalls (space_of shared.now.task.scene) (Contains pass.old.lists.near) (suc k) pass.old.view pass.new.view }
    // the goal nodes that a pass with the whole share sees stay posted
    ensures goals { HasWholeShare pass.old.view → HasPostedGoals pass.old.view → HasPostedGoals pass.new.view }
    // a pass with the whole share sees a tree, and then that tree rewired as in the textbook
    ensures whole { HasWholeShare pass.old.view → (tree : Nodes) → Mirrors pass.old.view tree
        → (after : Nodes) × Rewires (space_of shared.now.task.scene) tree (suc k) pass.old.lists.near after × Mirrors pass.new.view after }
{
    rewire_each(shared, pass, hall, k, NearNodes::Listed);
}

/// The same with the nodes that the last search of the pass found, in whatever order, whose records have the costs of their edges to
/// the new node.
///
/// Seen costs only fall: a node that is not dearer than through the new one now never becomes so. So those that are dearer are picked
/// first, without a branch on what was seen, and they alone are sorted, and looked at again when their turn comes. O(n) for n found nodes,
/// O(k log k) for k that are dearer, and what the spreads take.
pub fn rewire_found<C: Clearing>(shared: &Shared, pass: &mut Pass, hall: &C, k: u32)
    requires belongs { BelongsTo pass.old shared.now }
    requires part { 0 < share pass.old.view }
    requires hall { C.space hall.now ≡ space_of shared.now.task.scene }
    requires hand { IsSome pass.old.view.hand }
    requires placed { IfSome pass.old.view.hand (λ hand. HasPlaced pass.old.view k hand) }
    requires near { IfSome pass.old.view.hand (λ hand. All (IsInReach pass.old.view hand.point) (numbers_of pass.old.lists.search.found)) }
    requires weighed { IfSome pass.old.view.hand (λ hand. All (IsWeighed pass.old.view hand.point) pass.old.lists.search.found) }
    ensures belongs { BelongsTo pass.new shared.now }
    ensures seen { SeesAnew NamesLoweredOrPoint pass.old.view pass.new.view }
    ensures lists { (pass.new.lists.near ≡ pass.old.lists.near) × (pass.new.lists.around ≡ pass.old.lists.around) }
    ensures pairs { All (SeesPair pass.new.view) (numbers_of pass.old.lists.search.found) }
    // each found node with a clear edge costs no more than through the new node, by the cost that this was placed at
    ensures rewired { IfSome pass.old.view.hand (λ hand. (i : ℕ) → Contains (numbers_of pass.old.lists.search.found) i
        → Clear (space_of shared.now.task.scene) hand.point (point_of (tree_seen pass.old.view).points i)
        → cost_seen pass.new.view i ≤ hand.cost + cost_of hand.point (point_of (tree_seen pass.old.view).points i)) }
    // as `rewire` promises it
    ensures spread { HasSpreadFalls (space_of shared.now.task.scene) (Contains (numbers_of pass.old.lists.search.found)) (suc k) pass.old.view pass.new.view }
    // the goal nodes that a pass with the whole share sees stay posted
    ensures goals { HasWholeShare pass.old.view → HasPostedGoals pass.old.view → HasPostedGoals pass.new.view }
    // a pass with the whole share sees a tree, and then that tree rewired as in the textbook, in rising number
    ensures whole { HasWholeShare pass.old.view → (tree : Nodes) → Mirrors pass.old.view tree
        → (near : List ℕ) → IsStrictlyIncreasing near → AreOf pass.old.lists.search.found near
        → (after : Nodes) × Rewires (space_of shared.now.task.scene) tree (suc k) near after × Mirrors pass.new.view after }
{
    let cost = seen_cost(pass, k + 1);
    pass.keep_dearer(cost);
    rewire_each(shared, pass, hall, k, NearNodes::Searched);
}

/// Rewires the nodes on a list of the pass, in their order.
fn rewire_each<C: Clearing>(shared: &Shared, pass: &mut Pass, hall: &C, k: u32, among: NearNodes)
    requires belongs { BelongsTo pass.old shared.now }
    requires part { 0 < share pass.old.view }
    requires hall { C.space hall.now ≡ space_of shared.now.task.scene }
    requires hand { IsSome pass.old.view.hand }
    requires placed { IfSome pass.old.view.hand (λ hand. HasPlaced pass.old.view k hand) }
    requires near { IfSome pass.old.view.hand (λ hand. All (IsInReach pass.old.view hand.point) (nodes_on among pass.old.lists)) }
    ensures belongs { BelongsTo pass.new shared.now }
    ensures seen { SeesAnew NamesLoweredOrPoint pass.old.view pass.new.view }
    ensures lists { (pass.new.lists.near ≡ pass.old.lists.near) × (pass.new.lists.around ≡ pass.old.lists.around)
        × (pass.new.lists.search ≡ pass.old.lists.search) }
    ensures pairs { All (SeesPair pass.new.view) (nodes_on among pass.old.lists) }
    ensures rewired { IfSome pass.old.view.hand (λ hand. (i : ℕ) → Contains (nodes_on among pass.old.lists) i
        → Clear (space_of shared.now.task.scene) hand.point (point_of (tree_seen pass.old.view).points i)
        → cost_seen pass.new.view i ≤ hand.cost + cost_of hand.point (point_of (tree_seen pass.old.view).points i)) }
    ensures spread { HasSpreadFalls (space_of shared.now.task.scene) (Contains (nodes_on among pass.old.lists)) (suc k) pass.old.view pass.new.view }
    ensures goals { HasWholeShare pass.old.view → HasPostedGoals pass.old.view → HasPostedGoals pass.new.view }
    ensures whole { HasWholeShare pass.old.view → (tree : Nodes) → Mirrors pass.old.view tree
        → (after : Nodes) × Rewires (space_of shared.now.task.scene) tree (suc k) (nodes_on among pass.old.lists) after
        × Mirrors pass.new.view after }
{
    let count = among.count(pass);
    let from = pass.hand_point();
    'nodes: for index in 0..count {
        let node = among.node(pass, index);
        rewire_node(shared, pass, hall, k + 1, from, node);
    }
}

/// Takes a node at a point as the parent of another, if that is then cheaper, over a clear edge.
fn rewire_node<C: Clearing>(
    shared: &Shared,
    pass: &mut Pass,
    hall: &C,
    parent: u32,
    from: Point,
    node: u32,
)
    requires belongs { BelongsTo pass.old shared.now }
    requires part { 0 < share pass.old.view }
    requires hall { C.space hall.now ≡ space_of shared.now.task.scene }
    requires parent { SeesPoint pass.old.view parent from }
    requires parent_pair { SeesPair pass.old.view parent }
    requires reach { IsInReach pass.old.view from node }
    ensures steps { PassLowers shared.now pass.old pass.new }
    ensures pair { SeesPair pass.new.view node }
    ensures rewired { Clear (C.space hall.now) from (point_of (tree_seen pass.old.view).points node)
        → cost_seen pass.new.view node
        ≤ cost_seen pass.old.view parent + cost_of from (point_of (tree_seen pass.old.view).points node) }
    ensures spread { HasSpreadFalls (C.space hall.now) (λ n. n ≡ node) parent pass.old.view pass.new.view }
    ensures goals { HasWholeShare pass.old.view → HasPostedGoals pass.old.view → HasPostedGoals pass.new.view }
    ensures whole { HasWholeShare pass.old.view → (tree : Nodes) → Mirrors pass.old.view tree
        → (after : Nodes) × RewiresOne (C.space hall.now) tree parent node after × Mirrors pass.new.view after }
{
    let kept_cost = known_cost(shared, pass, node);
    let to = shared.point(pass, node);
    if costs_less_through(seen_cost(pass, parent), from, to, kept_cost) && hall.clear(from, to) {
        improve(shared, pass, parent, from, node, to);
        spread(shared, pass, node);
    }
}

/// What a node was seen to cost last. It is loaded only if it was not seen with a cost yet: if it has fallen meanwhile, the exchange
/// of a lower one shows that.
fn known_cost(shared: &Shared, pass: &mut Pass, node: u32) -> u64
    requires belongs { BelongsTo pass.old shared.now }
    requires node { IsPresent (tree_seen pass.old.view).points node }
    ensures steps { PassSees NamesTree shared.now pass.old pass.new }
    ensures pair { SeesPair pass.new.view node }
    ensures cost { result ≡ cost_seen pass.new.view node }
    // of a node that was seen with its cost nothing is seen anew
    ensures kept { (n : ℕ) → SeesPair pass.old.view n → sees pass.new.view (TreeOf n) ≡ sees pass.old.view (TreeOf n) }
    ensures whole { HasWholeShare pass.old.view → SeesAsBefore pass.old.view pass.new.view }
{
    if let Some((_, cost)) = pass.pair(node) {
        return cost;
    }
    shared.tree(pass, node).1
}

/// Lowers a node below this parent until it costs no more than through it.
fn improve(shared: &Shared, pass: &mut Pass, parent: u32, from: Point, node: u32, to: Point)
    requires belongs { BelongsTo pass.old shared.now }
    requires part { 0 < share pass.old.view }
    requires parent { SeesPoint pass.old.view parent from }
    requires parent_pair { SeesPair pass.old.view parent }
    requires node { SeesPoint pass.old.view node to }
    requires pair { SeesPair pass.old.view node }
    requires apart { parent ≢ node }
    requires edge { IsAllowedEdge (setup_in pass.old.view.run) from to }
    requires from { IsBounded from }
    requires to { IsBounded to }
    ensures steps { PassSees NamesLowered shared.now pass.old pass.new }
    ensures others { OnlyAt node pass.old.view pass.new.view }
    ensures most { cost_seen pass.new.view node ≤ cost_seen pass.old.view parent + cost_of from to }
    ensures goals { HasWholeShare pass.old.view → HasPostedGoals pass.old.view → HasPostedGoals pass.new.view }
    // a pass with the whole share lowers it once
    ensures whole { HasWholeShare pass.old.view → cost_seen pass.old.view parent + cost_of from to < cost_seen pass.old.view node
        → WritesWord (TreeOf node) (tree_word parent (cost_seen pass.old.view parent + cost_of from to)) (sees pass.old.view) (sees pass.new.view) }
{
    let most = seen_cost(pass, parent) + cost(from, to);
    'lowers: while most < seen_cost(pass, node) {
        let _found = shared.lower(pass, node, parent, most);
    }
}
