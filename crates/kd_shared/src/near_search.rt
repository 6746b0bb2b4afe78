//! The search for the nodes within a radius.

ghost use Rattle.std.specs.Prelude.{◌≡◌, ◌+◌, ◌<◌, ◌≤◌, IsFalse, false, if◌then◌else◌, length, true};
ghost use Rattle.kd_shared.specs.Looking.{KeepsLists, OnlyLooks, PassLooks};
ghost use Rattle.kd_shared.specs.Searches.{AreGathered, AreNearSeen, IsChildWithin, side_distance};
ghost use Rattle.plan_model.specs.Geometry.Plane.{IsBounded};
ghost use Rattle.plan_words.specs.States.{BelongsTo};
ghost use Rattle.step_core.specs.ViewTrees.{SeesNode, sight_in};

use crate::squares::square;
use plan_model::Point;
use plan_words::{Pass, Shared, Spot};

/// Fills the near list of the pass with exactly the nodes that it has seen by then with their points and that stand within a radius
/// of a point, in rising number; with a radius of 0 with the node at the point, if one is seen. Each point within the radius is
/// swept. The radius is in lattice steps, and no coordinate is above `MOST_COORDINATE`.
///
/// O(log n + k log k) on average for k found of n random nodes, O(n log n) at worst.
pub fn near(shared: &Shared, pass: &mut Pass, p: Point, r: u32)
    requires belongs { BelongsTo pass.old shared.now }
    requires bounded { IsBounded p }
    ensures belongs { BelongsTo pass.new shared.now }
    ensures looks { OnlyLooks pass.old.view pass.new.view }
    ensures around_list { pass.new.lists.around ≡ pass.old.lists.around }
    ensures near { AreNearSeen (sight_in pass.old.view) (sight_in pass.new.view) p r pass.new.lists.near }
{
    gather(shared, pass, p, r);
    pass.fill_near();
}

/// The same with the second list of the pass; the near list stays.
pub fn around(shared: &Shared, pass: &mut Pass, p: Point, r: u32)
    requires belongs { BelongsTo pass.old shared.now }
    requires bounded { IsBounded p }
    ensures belongs { BelongsTo pass.new shared.now }
    ensures looks { OnlyLooks pass.old.view pass.new.view }
    ensures near_list { pass.new.lists.near ≡ pass.old.lists.near }
    ensures near { AreNearSeen (sight_in pass.old.view) (sight_in pass.new.view) p r pass.new.lists.around }
{
    gather(shared, pass, p, r);
    pass.fill_around();
}

/// Finds the nodes within a radius of a point: the pass has them in the order in which they were found, until its next search.
///
/// It goes breadth first, so that the loads of one depth need not wait for one another, and leaves out a side of a node only if that is
/// farther than the radius. Both children are loaded before either waits. No branch depends on what was loaded, as many of them would be
/// guessed wrongly. O(log n + k) on average for k found of n random nodes, O(n) at worst.
pub fn gather(shared: &Shared, pass: &mut Pass, p: Point, r: u32)
    requires belongs { BelongsTo pass.old shared.now }
    requires bounded { IsBounded p }
    ensures belongs { BelongsTo pass.new shared.now }
    ensures looks { OnlyLooks pass.old.view pass.new.view }
    ensures lists { KeepsLists pass.old pass.new }
    ensures gathered { AreGathered (sight_in pass.old.view) (sight_in pass.new.view) p r pass.new.lists.search.found }
    ensures few { length pass.new.lists.search.found ≤ length pass.new.view.run.marks + 1 }
{
    let most = square(r);
    let start = shared.point_word(pass, 0);
    pass.clear_search();
    pass.put_spot_if(
        Spot {
            node: 0,
            by_rows: false,
            word: start,
        },
        true,
    );
    // These stay in registers; a field of the pass would be stored and loaded again around each load.
    let mut taken = 0;
    let mut count = 0;
    'visits: while let Some(spot) = pass.spot(taken) {
        taken += 1;
        let here = spot.point();
        let distance = here.squared_distance(p);
        pass.note(count, spot.node, distance);
        count += usize::from(distance <= most);
        let (left, right) = sides_within(spot.by_rows, here, p, r);
        let left_child = child_spot(shared, pass, spot, false, left);
        let right_child = child_spot(shared, pass, spot, true, right);
        pass.put_spot_if(left_child, left_child.node != 0);
        pass.put_spot_if(right_child, right_child.node != 0);
    }
    pass.end_search(count);
}

/// Whether the left and the right of a node may hold points within the radius: a side is left out only if it is farther.
#[inline]
fn sides_within(by_rows: bool, here: Point, p: Point, r: u32) -> (bool, bool)
    ensures left { IsFalse result.0 → r < side_distance by_rows here p false }
    ensures right { IsFalse result.1 → r < side_distance by_rows here p true }
{
    let short = if by_rows {
        i64::from(here.y) - i64::from(p.y)
    } else {
        i64::from(here.x) - i64::from(p.x)
    };
    let reach = i64::from(r);
    (-reach <= short, short <= reach)
}

/// The child on one side with its point: it is to wait, unless it is node 0. If there is none, or its side is not within the radius,
/// node 0 stands for it before its point is loaded.
#[inline]
fn child_spot(shared: &Shared, pass: &mut Pass, spot: Spot, right: bool, within: bool) -> Spot
    requires belongs { BelongsTo pass.old shared.now }
    requires seen { SeesNode pass.old.view spot.node }
    ensures looks { PassLooks shared.now pass.old pass.new }
    ensures child { IsChildWithin (sight_in pass.old.view) (sight_in pass.new.view) spot right within result }
{
    let node = child_within(shared.child_or_start(pass, spot.node, right), within);
    let word = shared.point_word(pass, node);
    Spot {
        node,
        by_rows: !spot.by_rows,
        word,
    }
}

/// The child, or node 0 if its side is not within the radius.
#[inline]
fn child_within(child: u32, within: bool) -> u32
    ensures { result ≡ (if within then child else 0) }
{
    if within { child } else { 0 }
}
