//! The choice of the node that steers towards a mark.

ghost use Rattle.std.specs.Prelude.{◌≡◌, ◌<◌, ℕ, All, Contains, length};
ghost use Rattle.std.specs.List.Sorted.{IsStrictlyIncreasing};
ghost use Rattle.plan_model.specs.Geometry.Plane.{IsBounded};
ghost use Rattle.plan_model.specs.Trees.Nearness.{IsFirstLeast, IsNearest, distance_to};
ghost use Rattle.plan_model.specs.Trees.NodeLists.{points_of, IsPresent};
ghost use Rattle.seq_planner.specs.LinkedTrees.{listed_near};
ghost use Rattle.seq_planner.specs.SearchTrees.{IsSoundTree};

use crate::search_tree::SearchTree;
use plan_model::Point;

impl SearchTree {
    /// The nearest node to a mark, of those equally near the one with the least number, by the list of the nodes near the mark.
    ///
    /// If there are any, the nearest of them is the nearest of all: O(m) for m of them. Otherwise all nodes are scanned.
    pub(crate) fn nearest(&self, mark: Point, near: &[u32]) -> u32
        requires sound { IsSoundTree self.now }
        requires bounded { IsBounded mark }
        requires near { (radius : ℕ) × (near.now ≡ listed_near (points_of self.now.nodes) mark radius) }
        ensures { IsNearest (points_of self.now.nodes) mark result }
    {
        if near.is_empty() {
            self.placed.nearest(mark)
        } else {
            self.nearest_listed(mark, near)
        }
    }

    /// The nearest to a mark of the nodes of a list in rising number, of those equally near the one with the least number.
    /// O(m) for m nodes.
    fn nearest_listed(&self, mark: Point, list: &[u32]) -> u32
        requires sound { IsSoundTree self.now }
        requires bounded { IsBounded mark }
        requires some { 0 < length list.now }
        requires present { All (IsPresent (points_of self.now.nodes)) list.now }
        requires rising { IsStrictlyIncreasing list.now }
        ensures { IsFirstLeast (distance_to mark (points_of self.now.nodes)) (Contains list.now) result }
    {
        let mut best = 0;
        let mut least = self.distance(list[0], mark);
        for (index, &number) in list.iter().enumerate() {
            let distance = self.distance(number, mark);
            if distance < least {
                best = index;
                least = distance;
            }
        }
        list[best]
    }

    /// The squared distance of a node from a mark, in square lattice steps.
    fn distance(&self, number: u32, mark: Point) -> u64
        requires sound { IsSoundTree self.now }
        requires bounded { IsBounded mark }
        requires present { IsPresent (points_of self.now.nodes) number }
        ensures { result ≡ distance_to mark (points_of self.now.nodes) number }
    {
        self.nodes.point(number).squared_distance(mark)
    }
}
