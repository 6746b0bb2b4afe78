//! The steering towards a mark: the nearest node, the nodes near the point that it steers to, and whether the segment is clear.

ghost use Rattle.std.specs.Prelude.{◌≡◌, ◌↔◌, All, IfSome, IsSome, IsTrue};
ghost use Rattle.plan_model.specs.Geometry.Plane.{IsBounded};
ghost use Rattle.plan_model.specs.Spaces.Clearance.{Clear};
ghost use Rattle.plan_model.specs.Trees.NodeLists.{point_of};
ghost use Rattle.plan_words.specs.SearchLists.{numbers_of};
ghost use Rattle.plan_words.specs.States.{BelongsTo, HasWholeShare, PassState};
ghost use Rattle.plan_work.specs.Extensions.{HasSteered};
ghost use Rattle.plan_work.specs.ExtensionSteps.{AreRadiiOf, FitsWord, HasFilledNear, IsFilledSince, IsNearestOf, KeepsRecords};
ghost use Rattle.plan_work.specs.OneWorker.{HasCounted, IsFilledWhole, SeesButCount};
ghost use Rattle.step_core.specs.Views.{tree_seen};
ghost use Rattle.tree_rewire.specs.NearNodes.{IsMeasured};

use edge_cost::{Radii, class, steer};
use kd_shared::{gather, nearest};
use plan_model::Point;
use plan_words::{Pass, Shared};
use step_core::{View, pack_tree, pair_in};
use swept_check::Clearing;

/// The node that steers towards a mark, and where to. The nodes near that point were found.
#[derive(Clone, Copy)]
pub(crate) struct Steering {
    /// The nearest node's number.
    pub(crate) nearest: u32,
    /// Where it stands.
    pub(crate) from: Point,
    /// The point that it steers to.
    pub(crate) point: Point,
    /// The class of the number of nodes, by which the radius goes within which they are near.
    pub(crate) class: u32,
}

/// A steering, and whether its segment is clear.
#[derive(Clone, Copy)]
pub(crate) struct Tested {
    pub(crate) steering: Steering,
    pub(crate) is_clear: bool,
}

/// Finds the nodes within the radius of a point, and returns the class of the number of nodes, by which that radius goes.
fn find_near(shared: &Shared, pass: &mut Pass, radii: &Radii, p: Point) -> u32
    requires belongs { BelongsTo pass.old shared.now }
    requires radii { AreRadiiOf shared.now.task.scene radii.now }
    requires bounded { IsBounded p }
    ensures keeps { KeepsRecords shared.now pass.old pass.new }
    ensures hand { pass.new.view.hand ≡ pass.old.view.hand }
    ensures filled { HasFilledNear pass.old.view pass.new.view p result pass.new.lists.search.found }
    // with the whole share it is that of the textbook
    ensures whole { HasWholeShare pass.old.view → HasCounted pass.old.view
        → SeesButCount pass.old.view pass.new.view × IsFilledWhole pass.new.view p result pass.new.lists.search.found }
{
    let nodes = u64::from(shared.number(pass));
    gather(shared, pass, p, radii.at(nodes));
    class(nodes)
}

/// The steering towards the mark in hand from the nearest node, for which it searches the tree, as it does for the nodes near the point.
fn steer_from_nearest(shared: &Shared, pass: &mut Pass, radii: &Radii, k: u32) -> Steering
    requires belongs { BelongsTo pass.old shared.now }
    requires some { IsSome pass.old.view.hand }
    requires hand { IfSome pass.old.view.hand (λ hand. hand.mark ≡ k) }
    requires radii { AreRadiiOf shared.now.task.scene radii.now }
    ensures keeps { KeepsRecords shared.now pass.old pass.new }
    ensures hand { pass.new.view.hand ≡ pass.old.view.hand }
    ensures steered { HasSteered pass.old.view pass.new.view k result.nearest result.from result.point }
    ensures filled { HasFilledNear pass.old.view pass.new.view result.point result.class pass.new.lists.search.found }
    ensures bounded { IsBounded result.point }
    ensures whole { HasWholeShare pass.old.view → HasCounted pass.old.view
        → SeesButCount pass.old.view pass.new.view × IsFilledWhole pass.new.view result.point result.class pass.new.lists.search.found }
{
    let mark = shared.task().marks.as_slice()[k as usize];
    let nearest = nearest(shared, pass, mark);
    let from = shared.point(pass, nearest);
    let point = steer(from, mark, shared.task().scene.step);
    let class = find_near(shared, pass, radii, point);
    Steering {
        nearest,
        from,
        point,
        class,
    }
}

/// The node nearest to the point of the search among those that it found, of equally near ones that of the least number. `None` if it
/// found none. O(n) for n found nodes.
///
/// The tree word of a node and its distance is the lower number of two if the pair is the lesser, so no branch depends on what was loaded.
fn nearest_found(pass: &Pass) -> Option<u32>
    requires { All FitsWord pass.now.lists.search.found }
    ensures some { IfSome result (λ m. (view : View) (p : Point) → All (IsMeasured view p) pass.now.lists.search.found
        → IsNearestOf view p (numbers_of pass.now.lists.search.found) (numbers_of pass.now.lists.search.found) m (point_of (tree_seen view).points m)) }
{
    let count = pass.found_count();
    if count == 0 {
        return None;
    }
    let mut least = u64::MAX;
    'others: for index in 0..count {
        let found = pass.found(index);
        least = least.min(pack_tree(found.node, found.distance));
    }
    Some(pair_in(least).0)
}

/// The steering towards the mark in hand.
///
/// It looks for near nodes of the mark first. The nearest of them is the nearest of all, and since no radius is longer than a step,
/// the steered point is the mark itself. Only if there are none it takes a search for the nearest node, and one more for those near
/// the point.
fn steer_among_near(shared: &Shared, pass: &mut Pass, radii: &Radii, k: u32) -> Steering
    requires belongs { BelongsTo pass.old shared.now }
    requires some { IsSome pass.old.view.hand }
    requires hand { IfSome pass.old.view.hand (λ hand. hand.mark ≡ k) }
    requires radii { AreRadiiOf shared.now.task.scene radii.now }
    ensures keeps { KeepsRecords shared.now pass.old pass.new }
    ensures hand { pass.new.view.hand ≡ pass.old.view.hand }
    ensures steered { HasSteered pass.old.view pass.new.view k result.nearest result.from result.point }
    ensures filled { HasFilledNear pass.old.view pass.new.view result.point result.class pass.new.lists.search.found }
    ensures bounded { IsBounded result.point }
    ensures whole { HasWholeShare pass.old.view → HasCounted pass.old.view
        → SeesButCount pass.old.view pass.new.view × IsFilledWhole pass.new.view result.point result.class pass.new.lists.search.found }
{
    let mark = shared.task().marks.as_slice()[k as usize];
    let class = find_near(shared, pass, radii, mark);
    if let Some(nearest) = nearest_found(pass) {
        let from = shared.point(pass, nearest);
        return Steering {
            nearest,
            from,
            point: mark,
            class,
        };
    }
    steer_from_nearest(shared, pass, radii, k)
}

/// Finds the near nodes anew, if by the number of nodes now the class is another one, and returns the class of that number.
fn renew_near(shared: &Shared, pass: &mut Pass, radii: &Radii, p: Point, old: u32) -> u32
    requires belongs { BelongsTo pass.old shared.now }
    requires radii { AreRadiiOf shared.now.task.scene radii.now }
    requires bounded { IsBounded p }
    ensures keeps { KeepsRecords shared.now pass.old pass.new }
    ensures hand { pass.new.view.hand ≡ pass.old.view.hand }
    ensures filled { (first : PassState) → IsFilledSince shared.now first pass.old p old → IsFilledSince shared.now first pass.new p result }
    ensures whole { HasWholeShare pass.old.view → HasCounted pass.old.view → IsFilledWhole pass.old.view p old pass.old.lists.search.found
        → SeesButCount pass.old.view pass.new.view × IsFilledWhole pass.new.view p result pass.new.lists.search.found }
{
    let class = class(u64::from(shared.number(pass)));
    if class == old {
        return class;
    }
    find_near(shared, pass, radii, p)
}

/// The steering towards the mark in hand, and whether the segment is clear.
///
/// Nodes may come while the segment is tested, so the class is that of the number of nodes after it.
pub(crate) fn steer_and_test<C: Clearing>(
    shared: &Shared,
    pass: &mut Pass,
    radii: &Radii,
    hall: &C,
    k: u32,
) -> Tested
    requires belongs { BelongsTo pass.old shared.now }
    requires some { IsSome pass.old.view.hand }
    requires hand { IfSome pass.old.view.hand (λ hand. hand.mark ≡ k) }
    requires radii { AreRadiiOf shared.now.task.scene radii.now }
    ensures keeps { KeepsRecords shared.now pass.old pass.new }
    ensures hand { pass.new.view.hand ≡ pass.old.view.hand }
    ensures steered { HasSteered pass.old.view pass.new.view k result.steering.nearest result.steering.from result.steering.point }
    ensures filled { HasFilledNear pass.old.view pass.new.view result.steering.point result.steering.class pass.new.lists.search.found }
    ensures bounded { IsBounded result.steering.point }
    ensures whole { HasWholeShare pass.old.view → HasCounted pass.old.view
        → SeesButCount pass.old.view pass.new.view × IsFilledWhole pass.new.view result.steering.point result.steering.class pass.new.lists.search.found }
    ensures clear { IsTrue result.is_clear ↔ Clear (C.space hall.now) result.steering.from result.steering.point }
{
    let mut steering = steer_among_near(shared, pass, radii, k);
    let is_clear = hall.clear(steering.from, steering.point);
    steering.class = renew_near(shared, pass, radii, steering.point, steering.class);
    Tested { steering, is_clear }
}
