//! The search for the nearest node of those that are seen.

ghost use Rattle.std.specs.Prelude.{◌≡◌, ◌⊎◌, ◌<◌, ◌≤◌, ◌+◌, Contains, IsFalse, length, nat_le};
ghost use Rattle.kd_shared.specs.Searches.{LoadsFar, LoadsSpot, PopsFar, StacksFar, WalksOn, line_square, near_side, IsNearestSeen};
ghost use Rattle.kd_shared.specs.Looking.{KeepsLists, OnlyLooks, searched};
ghost use Rattle.plan_model.specs.Geometry.Plane.{IsBounded};
ghost use Rattle.plan_words.specs.States.{BelongsTo, with_view};
ghost use Rattle.plan_words.specs.declared.spots.Spot.{Spot as SpotState};
ghost use Rattle.step_core.specs.ViewTrees.{SeesNode, sight_in};

use crate::squares::square;
use plan_model::{MOST_NODES, Point};
use plan_words::{Pass, Shared, Spot};
use step_core::{MeasuredNode, distance_to_split, goes_right};

/// The node nearest to a point of those that the pass has seen with their points, at entry and at return; of equally near ones that
/// of the least number, and in a tree of the start alone node 0. Each point that is at most as far is swept. No coordinate is above
/// `MOST_COORDINATE`.
///
/// It walks down the near sides, and comes back to a far side only if its line is no farther than the nearest so far: O(log n) nodes on
/// average for n random nodes, O(n) at worst.
pub fn nearest(shared: &Shared, pass: &mut Pass, p: Point) -> u32
    requires belongs { BelongsTo pass.old shared.now }
    requires bounded { IsBounded p }
    ensures belongs { BelongsTo pass.new shared.now }
    ensures looks { OnlyLooks pass.old.view pass.new.view }
    ensures lists { KeepsLists pass.old pass.new }
    ensures nearest { IsNearestSeen (sight_in pass.old.view) (sight_in pass.new.view) p result }
{
    let start = shared.point_word(pass, 0);
    let mut here = Spot {
        node: 0,
        by_rows: false,
        word: start,
    };
    let mut best = MeasuredNode::new(0, here.point(), p);
    pass.clear_search();
    'visits: for _visit in 0..MOST_NODES {
        best = best.nearer(MeasuredNode::new(here.node, here.point(), p));
        stack_far_side(shared, pass, here, p, best.distance);
        let Some(next) = next_spot(shared, pass, here, p, best.distance) else {
            return best.node;
        };
        here = next;
    }
    best.node
}

/// Puts a node on the stack, if it has a child on its far side and that may hold points within the bound.
fn stack_far_side(shared: &Shared, pass: &mut Pass, here: Spot, p: Point, bound: u64)
    requires belongs { BelongsTo pass.old shared.now }
    requires seen { SeesNode pass.old.view here.node }
    requires room { pass.old.lists.search.taken + length pass.old.lists.search.spots ≤ length pass.old.view.run.marks + 1 }
    ensures belongs { BelongsTo pass.new shared.now }
    ensures looks { OnlyLooks pass.old.view pass.new.view }
    ensures others { pass.new ≡ searched pass.old pass.new.view (record pass.old.lists.search { spots = pass.new.lists.search.spots }) }
    ensures stacks { StacksFar (sight_in pass.old.view) (sight_in pass.new.view) p bound pass.old.lists.search.spots pass.new.lists.search.spots here }
{
    let right = goes_right_of(here, p);
    let far = shared.child_or_start(pass, here.node, !right);
    pass.put_spot_if(here, is_left(far, here, p, bound));
}

/// The node to visit next: the child on the near side, or else one on the far side of a node that is popped.
fn next_spot(shared: &Shared, pass: &mut Pass, here: Spot, p: Point, bound: u64) -> Option<Spot>
    requires belongs { BelongsTo pass.old shared.now }
    requires seen { SeesNode pass.old.view here.node }
    requires seen_stack { (spot : SpotState) → Contains pass.old.lists.search.spots spot → SeesNode pass.old.view spot.node }
    ensures belongs { BelongsTo pass.new shared.now }
    ensures looks { OnlyLooks pass.old.view pass.new.view }
    ensures others { pass.new ≡ searched pass.old pass.new.view (record pass.old.lists.search { spots = pass.new.lists.search.spots }) }
    ensures walks { WalksOn (sight_in pass.old.view) (sight_in pass.new.view) p bound here pass.old.lists.search.spots pass.new.lists.search.spots
        result }
{
    let right = goes_right_of(here, p);
    if let Some(near) = child_spot(shared, pass, here, right) {
        return Some(near);
    }
    next_far_spot(shared, pass, p, bound)
}

/// Pops nodes until one has a child on its far side, and that may hold points within the bound: the child.
fn next_far_spot(shared: &Shared, pass: &mut Pass, p: Point, bound: u64) -> Option<Spot>
    requires belongs { BelongsTo pass.old shared.now }
    requires seen_stack { (spot : SpotState) → Contains pass.old.lists.search.spots spot → SeesNode pass.old.view spot.node }
    ensures belongs { BelongsTo pass.new shared.now }
    ensures looks { OnlyLooks pass.old.view pass.new.view }
    ensures others { pass.new ≡ searched pass.old pass.new.view (record pass.old.lists.search { spots = pass.new.lists.search.spots }) }
    ensures pops { PopsFar (sight_in pass.old.view) (sight_in pass.new.view) p bound pass.old.lists.search.spots pass.new.lists.search.spots result }
{
    'pops: while let Some(above) = pass.pop_spot() {
        if let Some(far) = far_spot(shared, pass, above, p, bound) {
            return Some(far);
        }
    }
    None
}

/// The child on the far side of a node, if that may hold points within the bound.
fn far_spot(shared: &Shared, pass: &mut Pass, above: Spot, p: Point, bound: u64) -> Option<Spot>
    requires belongs { BelongsTo pass.old shared.now }
    requires seen { SeesNode pass.old.view above.node }
    ensures belongs { BelongsTo pass.new shared.now }
    ensures looks { OnlyLooks pass.old.view pass.new.view }
    ensures view_alone { pass.new ≡ with_view pass.old pass.new.view }
    ensures loads { LoadsFar (sight_in pass.old.view) (sight_in pass.new.view) p bound above result }
{
    if !reaches(above, p, bound) {
        return None;
    }
    let right = goes_right_of(above, p);
    child_spot(shared, pass, above, !right)
}

/// The child of a node on one side with its point, if there is one.
fn child_spot(shared: &Shared, pass: &mut Pass, spot: Spot, right: bool) -> Option<Spot>
    requires belongs { BelongsTo pass.old shared.now }
    requires seen { SeesNode pass.old.view spot.node }
    ensures belongs { BelongsTo pass.new shared.now }
    ensures looks { OnlyLooks pass.old.view pass.new.view }
    ensures view_alone { pass.new ≡ with_view pass.old pass.new.view }
    ensures loads { LoadsSpot (sight_in pass.old.view) (sight_in pass.new.view) spot right result }
{
    let Some(node) = shared.child(pass, spot.node, right) else {
        return None;
    };
    let word = shared.point_word(pass, node);
    let by_rows = !spot.by_rows;
    Some(Spot {
        node,
        by_rows,
        word,
    })
}

/// Whether a point belongs to the right of a node.
#[inline]
fn goes_right_of(spot: Spot, p: Point) -> bool
    ensures { result ≡ near_side spot p }
{
    goes_right(spot.by_rows, spot.point(), p)
}

/// Whether the far side of a node is left to walk: it has this child, if not 0, and its points may be within the bound.
fn is_left(far: u32, here: Spot, p: Point, bound: u64) -> bool
    ensures { IsFalse result → (far ≡ 0) ⊎ (bound < line_square here p) }
{
    (far != 0) & reaches(here, p, bound)
}

/// Whether the far side of a node may hold points within the bound.
#[inline]
fn reaches(spot: Spot, p: Point, bound: u64) -> bool
    ensures { result ≡ nat_le (line_square spot p) bound }
{
    square(distance_to_split(spot.by_rows, spot.point(), p)) <= bound
}
