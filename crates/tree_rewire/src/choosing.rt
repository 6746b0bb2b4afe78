//! The choice of a new node's parent.

ghost use Rattle.std.specs.Prelude.{◌≡◌, ◌∷◌, All};
ghost use Rattle.plan_model.specs.Geometry.Plane.{IsBounded};
ghost use Rattle.plan_model.specs.Spaces.Clearance.{Clear};
ghost use Rattle.plan_model.specs.Spaces.ConfigurationSpace.{space_of};
ghost use Rattle.plan_model.specs.Trees.Nearness.{IsFirstLeast};
ghost use Rattle.plan_model.specs.Trees.BestNode.{IsOpenTo};
ghost use Rattle.plan_model.specs.Trees.NodeLists.{IsPresent, point_of};
ghost use Rattle.plan_words.specs.Claims.{SeesAsBefore};
ghost use Rattle.plan_words.specs.SearchLists.{numbers_of, weighed};
ghost use Rattle.plan_words.specs.States.{BelongsTo, HasWholeShare, with_lists, with_view};
ghost use Rattle.step_core.specs.ViewTrees.{IsCostBelow};
ghost use Rattle.step_core.specs.Views.{tree_seen};
ghost use Rattle.tree_rewire.specs.NearNodes.{IsMeasured, with_found, AreMeasured, nodes_on, weighed_on};
ghost use Rattle.tree_rewire.specs.SeenCosts.{IsBestParentSeen, IsInReach, IsLoadedSince, NamesTree, PassSees, SeesAnew, SeesPair, seen_cost_through};

use crate::near_nodes::NearNodes;
use crate::open_words::best_open;
use edge_cost::Parent;
use plan_model::Point;
use plan_words::{Pass, Shared};
use swept_check::Clearing;

/// The parent of a new node at a point, and what the new one then costs: among the nearest node and those on the near list with
/// a clear edge to it, the one through which it costs the least by the costs that this call loads; of those with equal costs, the
/// one with the least number.
///
/// The nearest node is seen with its point, and its edge to the new one is clear and at most a step long. Each near node is
/// seen with its point, at most a step away; with none the nearest is taken. The cost is in 256ths of a lattice step.
///
/// All costs are loaded before the first is compared, so that the loads need not wait for one another. An edge is tested only for a
/// node that would win. O(n) for n near nodes, and as much for each blocked edge.
pub fn choose<C: Clearing>(
    shared: &Shared,
    pass: &mut Pass,
    hall: &C,
    p: Point,
    nearest: u32,
) -> (u32, u64)
    requires belongs { BelongsTo pass.old shared.now }
    requires hall { C.space hall.now ≡ space_of shared.now.task.scene }
    requires nearest { IsInReach pass.old.view p nearest }
    requires clear { Clear (space_of shared.now.task.scene) (point_of (tree_seen pass.old.view).points nearest) p }
    requires near { All (IsInReach pass.old.view p) pass.old.lists.near }
    ensures belongs { BelongsTo pass.new shared.now }
    ensures seen { SeesAnew NamesTree pass.old.view pass.new.view }
    ensures view_alone { pass.new ≡ with_view pass.old pass.new.view }
    ensures pairs { All (SeesPair pass.new.view) (nearest ∷ pass.old.lists.near) }
    // each cost was loaded in this call
    ensures loaded { All (IsLoadedSince pass.old.view.steps pass.new.view) (nearest ∷ pass.old.lists.near) }
    ensures least { IsFirstLeast (seen_cost_through pass.new.view p)
        (IsOpenTo (space_of shared.now.task.scene) (tree_seen pass.new.view).points p (nearest ∷ pass.old.lists.near)) result.0 }
    ensures cost { result.1 ≡ seen_cost_through pass.new.view p result.0 }
    // so the new node may hang below it
    ensures below { IsCostBelow pass.new.view p result.0 result.1 }
    // a pass with the whole share sees nothing new
    ensures whole { HasWholeShare pass.old.view → SeesAsBefore pass.old.view pass.new.view }
{
    let parent = choose_among(shared, pass, hall, p, nearest, NearNodes::Listed);
    (parent.node, parent.cost)
}

/// The same among the nearest node and the nodes that the last search of the pass found, in whatever order. The records of these have
/// the costs of their edges to the point then.
pub fn choose_found<C: Clearing>(
    shared: &Shared,
    pass: &mut Pass,
    hall: &C,
    p: Point,
    nearest: u32,
) -> Parent
    requires belongs { BelongsTo pass.old shared.now }
    requires hall { C.space hall.now ≡ space_of shared.now.task.scene }
    requires nearest { IsInReach pass.old.view p nearest }
    requires clear { Clear (space_of shared.now.task.scene) (point_of (tree_seen pass.old.view).points nearest) p }
    requires near { All (IsInReach pass.old.view p) (numbers_of pass.old.lists.search.found) }
    requires measured { All (IsMeasured pass.old.view p) pass.old.lists.search.found }
    ensures belongs { BelongsTo pass.new shared.now }
    ensures seen { SeesAnew NamesTree pass.old.view pass.new.view }
    ensures found_alone { pass.new ≡ with_found pass.old pass.new.view (weighed pass.old.lists.search.found) }
    ensures pairs { All (SeesPair pass.new.view) (nearest ∷ numbers_of pass.old.lists.search.found) }
    // each cost was loaded in this call
    ensures loaded { All (IsLoadedSince pass.old.view.steps pass.new.view) (nearest ∷ numbers_of pass.old.lists.search.found) }
    ensures least { IsBestParentSeen (space_of shared.now.task.scene) pass.new.view p (nearest ∷ numbers_of pass.old.lists.search.found) result }
    // so the new node may hang below it
    ensures below { IsCostBelow pass.new.view p result.node result.cost }
    // a pass with the whole share sees nothing new
    ensures whole { HasWholeShare pass.old.view → SeesAsBefore pass.old.view pass.new.view }
{
    choose_among(shared, pass, hall, p, nearest, NearNodes::Searched)
}

/// The same among the nearest node and those on a list of the pass. The loads come first, in a loop of their own: none of them waits
/// for another then, nor for a square root.
fn choose_among<C: Clearing>(
    shared: &Shared,
    pass: &mut Pass,
    hall: &C,
    p: Point,
    nearest: u32,
    among: NearNodes,
) -> Parent
    requires belongs { BelongsTo pass.old shared.now }
    requires hall { C.space hall.now ≡ space_of shared.now.task.scene }
    requires nearest { IsInReach pass.old.view p nearest }
    requires clear { Clear (space_of shared.now.task.scene) (point_of (tree_seen pass.old.view).points nearest) p }
    requires near { All (IsInReach pass.old.view p) (nodes_on among pass.old.lists) }
    requires measured { AreMeasured among pass.old.view p pass.old.lists }
    ensures belongs { BelongsTo pass.new shared.now }
    ensures seen { SeesAnew NamesTree pass.old.view pass.new.view }
    ensures alone { pass.new ≡ with_lists (with_view pass.old pass.new.view) (weighed_on among pass.old.lists) }
    ensures pairs { All (SeesPair pass.new.view) (nearest ∷ nodes_on among pass.old.lists) }
    ensures loaded { All (IsLoadedSince pass.old.view.steps pass.new.view) (nearest ∷ nodes_on among pass.old.lists) }
    ensures least { IsBestParentSeen (space_of shared.now.task.scene) pass.new.view p (nearest ∷ nodes_on among pass.old.lists) result }
    ensures below { IsCostBelow pass.new.view p result.node result.cost }
    ensures whole { HasWholeShare pass.old.view → SeesAsBefore pass.old.view pass.new.view }
{
    load_costs(shared, pass, nearest, among);
    among.weigh(pass);
    best_open(shared, pass, hall, p, nearest, among)
}

/// Loads the costs of a node and of those on a list.
fn load_costs(shared: &Shared, pass: &mut Pass, nearest: u32, among: NearNodes)
    requires belongs { BelongsTo pass.old shared.now }
    requires nearest { IsPresent (tree_seen pass.old.view).points nearest }
    requires near { All (IsPresent (tree_seen pass.old.view).points) (nodes_on among pass.old.lists) }
    ensures steps { PassSees NamesTree shared.now pass.old pass.new }
    ensures pairs { All (SeesPair pass.new.view) (nearest ∷ nodes_on among pass.old.lists) }
    ensures loaded { All (IsLoadedSince pass.old.view.steps pass.new.view) (nearest ∷ nodes_on among pass.old.lists) }
    ensures whole { HasWholeShare pass.old.view → SeesAsBefore pass.old.view pass.new.view }
{
    let count = among.count(pass);
    let _pair = shared.tree(pass, nearest);
    'loads: for index in 0..count {
        let node = among.node(pass, index);
        let _pair = shared.tree(pass, node);
    }
}
