//! The words of a new node's pairs of parent and cost, and the least of them with a clear edge.

ghost use Rattle.std.specs.Prelude.{◌≡◌, ◌∷◌, ◌⊎◌, ℕ, ◌≢◌, ◌<◌, ◌≤◌, Contains, IsFalse, IsTrue, map};
ghost use Rattle.plan_model.specs.Geometry.Plane.{IsBounded};
ghost use Rattle.plan_model.specs.Trees.NodeLists.{IsPresent};
ghost use Rattle.plan_words.specs.States.{BelongsTo};
ghost use Rattle.step_core.specs.Views.{tree_seen};
ghost use Rattle.grown_runs.specs.Table.Words.{parent_in};
ghost use Rattle.tree_rewire.specs.NearNodes.{AreKnown, IsBlockedBelow, IsClearTo, IsNextOf, IsNextWord, IsOpenWord, nodes_on, word_through};
ghost use Rattle.tree_rewire.specs.SeenCosts.{IsBestParentSeen, NamesNothing, PassSees};
ghost use Rattle.tree_rewire.specs.Spreads.{SeesKnot};

use crate::near_nodes::NearNodes;
use crate::seen_costs::seen_cost;
use edge_cost::{Parent, cost};
use plan_model::Point;
use plan_words::{Pass, Shared};
use step_core::{pack_tree, pair_in};
use swept_check::Clearing;

/// The best parent of a new node at a point among a node with a clear edge and those on a list, by the costs that were seen last, and
/// what the new one costs through it.
///
/// The tree word of a parent and the cost through it is the lower number of two if the pair is the lesser. So the least word is found
/// without a branch on what was loaded, and its edge is tested first; only if that is blocked the next greater word is looked for.
pub(crate) fn best_open<C: Clearing>(
    shared: &Shared,
    pass: &mut Pass,
    hall: &C,
    p: Point,
    nearest: u32,
    among: NearNodes,
) -> Parent
    requires belongs { BelongsTo pass.old shared.now }
    requires bounded { IsBounded p }
    requires nearest { SeesKnot pass.old.view nearest }
    requires clear { IsClearTo (C.space hall.now) pass.old.view p nearest }
    requires known { AreKnown among pass.old.view p pass.old.lists }
    ensures steps { PassSees NamesNothing shared.now pass.old pass.new }
    ensures least { IsBestParentSeen (C.space hall.now) pass.new.view p (nearest ∷ nodes_on among pass.old.lists) result }
{
    let last = word_of(shared, pass, p, nearest);
    let word = least_open(shared, pass, hall, p, among, last);
    let (node, cost) = pair_in(word);
    Parent { node, cost }
}

/// The word of a new node below a node that was seen with its cost.
fn word_of(shared: &Shared, pass: &mut Pass, p: Point, node: u32) -> u64
    requires belongs { BelongsTo pass.old shared.now }
    requires bounded { IsBounded p }
    requires node { SeesKnot pass.old.view node }
    ensures steps { PassSees NamesNothing shared.now pass.old pass.new }
    ensures word { result ≡ word_through pass.old.view p node }
{
    let kept_cost = seen_cost(pass, node);
    let from = shared.point(pass, node);
    pack_tree(node, kept_cost + cost(from, p))
}

/// The least word of a new node below a node of a list with a clear edge to it, or the last word, if none of them is less.
fn least_open<C: Clearing>(
    shared: &Shared,
    pass: &mut Pass,
    hall: &C,
    p: Point,
    among: NearNodes,
    last: u64,
) -> u64
    requires belongs { BelongsTo pass.old shared.now }
    requires bounded { IsBounded p }
    requires known { AreKnown among pass.old.view p pass.old.lists }
    requires last { 0 < last }
    ensures steps { PassSees NamesNothing shared.now pass.old pass.new }
    ensures one_of { (result ≡ last) ⊎ IsOpenWord (C.space hall.now) pass.old.view p (nodes_on among pass.old.lists) result }
    ensures most { result ≤ last }
    // those below it are blocked
    ensures blocked { (n : ℕ) → Contains (nodes_on among pass.old.lists) n → IsBlockedBelow (C.space hall.now) pass.old.view p result n }
{
    let mut word = next_word(shared, pass, p, among, 0, last);
    'blocked: while is_blocked(shared, pass, hall, p, word, last) {
        word = next_word(shared, pass, p, among, word, last);
    }
    word
}

/// Whether a word is not the last, and the edge of its node is not clear.
fn is_blocked<C: Clearing>(
    shared: &Shared,
    pass: &mut Pass,
    hall: &C,
    p: Point,
    word: u64,
    last: u64,
) -> bool
    requires belongs { BelongsTo pass.old shared.now }
    requires bounded { IsBounded p }
    requires node { word ≢ last → IsPresent (tree_seen pass.old.view).points (parent_in word) }
    ensures steps { PassSees NamesNothing shared.now pass.old pass.new }
    ensures blocked { IsTrue result → (word ≢ last) × (¬ IsClearTo (C.space hall.now) pass.old.view p (parent_in word)) }
    ensures open { IsFalse result → (word ≡ last) ⊎ IsClearTo (C.space hall.now) pass.old.view p (parent_in word) }
{
    if word == last {
        return false;
    }
    let from = shared.point(pass, pair_in(word).0);
    !hall.clear(from, p)
}

/// The least word of a new node below a node of a list that is above a word, or the last, if none of them is less.
fn next_word(
    shared: &Shared,
    pass: &mut Pass,
    p: Point,
    among: NearNodes,
    low: u64,
    last: u64,
) -> u64
    requires belongs { BelongsTo pass.old shared.now }
    requires bounded { IsBounded p }
    requires known { AreKnown among pass.old.view p pass.old.lists }
    requires low { low < last }
    ensures steps { PassSees NamesNothing shared.now pass.old pass.new }
    ensures next { IsNextWord (map (word_through pass.old.view p) (nodes_on among pass.old.lists)) low last result }
{
    let mut next = last;
    let count = among.count(pass);
    'words: for index in 0..count {
        let near = among.weighed(shared, pass, p, index);
        let word = pack_tree(near.node, seen_cost(pass, near.node) + u64::from(near.edge));
        next = next_of(low, word, next);
    }
    next
}

/// The word, if it is above the low one and below the next one so far; else that one.
#[inline]
fn next_of(low: u64, word: u64, next: u64) -> u64
    ensures { IsNextOf low word next result }
{
    let beyond = if low < word { word } else { next };
    next.min(beyond)
}
