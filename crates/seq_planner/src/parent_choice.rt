//! The choice of a new node's parent.

ghost use Rattle.std.specs.Prelude.{◌≡◌, ◌≤◌, ◌∷◌, length, All, IsTrue, IsFalse};
ghost use Rattle.edge_cost.specs.LeastParents.{IsLeastParent};
ghost use Rattle.plan_model.specs.Geometry.Plane.{IsBounded};
ghost use Rattle.plan_model.specs.Spaces.Clearance.{Clear};
ghost use Rattle.plan_model.specs.Trees.Nearness.{IsNotAbove};
ghost use Rattle.plan_model.specs.Trees.BestNode.{IsOpenTo};
ghost use Rattle.plan_model.specs.Trees.NodeLists.{IsPresent, point_of, points_of};
ghost use Rattle.plan_model.specs.Runs.Textbook.{cost_through};
ghost use Rattle.plan_model.specs.declared.limits.TheConstants.{MOST_NODES};
ghost use Rattle.seq_planner.specs.SearchTrees.{IsSoundTree};

use crate::search_tree::SearchTree;
use edge_cost::Parent;
use plan_model::Point;
use swept_check::Clearing;

impl SearchTree {
    /// The parent of a new node: among the nearest node and the near ones with a clear edge to it, the one through which
    /// it costs the least; of those with equal costs, the one with the least number.
    ///
    /// A root is taken, and an edge is tested, only for a node that would win. O(n) for n near nodes.
    pub(crate) fn choose<C: Clearing>(
        &self,
        hall: &C,
        point: Point,
        nearest: u32,
        near: &[u32],
    ) -> Parent
        requires sound { IsSoundTree self.now }
        requires few { length self.now.nodes ≤ MOST_NODES }
        requires bounded { IsBounded point }
        requires nearest { IsPresent (points_of self.now.nodes) nearest }
        requires clear { Clear (C.space hall.now) (point_of (points_of self.now.nodes) nearest) point }
        requires near { All (IsPresent (points_of self.now.nodes)) near.now }
        ensures { IsLeastParent (cost_through self.now.nodes point)
            (IsOpenTo (C.space hall.now) (points_of self.now.nodes) point (nearest ∷ near.now)) result }
    {
        let mut best = self.parent(nearest, point);
        for &number in near {
            if self.wins(hall, number, point, best) {
                best = self.parent(number, point);
            }
        }
        best
    }

    /// The node with this number as the parent of a new one.
    pub(crate) fn parent(&self, number: u32, point: Point) -> Parent
        requires sound { IsSoundTree self.now }
        requires few { length self.now.nodes ≤ MOST_NODES }
        requires bounded { IsBounded point }
        requires present { IsPresent (points_of self.now.nodes) number }
        ensures node { result.node ≡ number }
        ensures cost { result.cost ≡ cost_through self.now.nodes point number }
    {
        let kept_cost = self.costs[number as usize];
        Parent::through(number, kept_cost, self.nodes.point(number), point)
    }

    /// Whether the node with this number is a better parent of a new one, over a clear edge.
    fn wins<C: Clearing>(&self, hall: &C, number: u32, point: Point, best: Parent) -> bool
        requires sound { IsSoundTree self.now }
        requires bounded { IsBounded point }
        requires present { IsPresent (points_of self.now.nodes) number }
        requires best { best.cost ≡ cost_through self.now.nodes point best.node }
        ensures clear { IsTrue result → Clear (C.space hall.now) (point_of (points_of self.now.nodes) number) point }
        ensures wins { IsTrue result → IsNotAbove (cost_through self.now.nodes point) number best.node }
        ensures loses { IsFalse result → Clear (C.space hall.now) (point_of (points_of self.now.nodes) number) point
            → IsNotAbove (cost_through self.now.nodes point) best.node number }
    {
        let from = self.nodes.point(number);
        let kept_cost = self.costs[number as usize];
        best.is_beaten_by(number, kept_cost, from, point) && hall.clear(from, point)
    }
}
