//! The choice of a new node's parent.

ghost use Rattle.std.specs.Prelude.{◌≡◌, ◌+◌, ◌^◌, ◌<◌, ℕ, IsFalse, IsTrue};
ghost use Rattle.plan_model.specs.Geometry.Plane.{IsBounded};
ghost use Rattle.plan_model.specs.Geometry.Lengths.{cost_of};
ghost use Rattle.plan_model.specs.Trees.Nearness.{IsNotAbove};

use crate::cost_bounds::{costs_at_most_through, costs_less_through};
use crate::costs::cost;
use plan_model::Point;

/// A node as the parent of a new one, with the cost of the new one through it.
///
/// The best parent has the least pair of cost and number. So a planner keeps the best so far, asks of each further node
/// whether it [is better](Parent::is_beaten_by), and only then tests whether the edge is clear and
/// [takes](Parent::through) the root that its cost needs.
#[derive(Clone, Copy, Debug)]
pub struct Parent {
    /// Its number.
    pub node: u32,
    /// The cost from the start through it to the new node, in 256ths of a lattice step.
    pub cost: u64,
}

impl Parent {
    /// A node at `from` that costs `cost_to_come`, which is below 2^63, as the parent of a new one at `to`. No coordinate is
    /// above `MOST_COORDINATE`. O(1), with a root.
    pub fn through(node: u32, cost_to_come: u64, from: Point, to: Point) -> Parent
        requires low { cost_to_come < 2 ^ 63 }
        requires from { IsBounded from }
        requires to { IsBounded to }
        ensures node { result.node ≡ node }
        ensures cost { result.cost ≡ cost_to_come + cost_of from to }
    {
        Parent {
            node,
            cost: cost_to_come + cost(from, to),
        }
    }

    /// Whether a node at `from` that costs `cost_to_come` is a better parent of a new one at `to`: the new one costs less
    /// through it, or as much, and its number is less. No coordinate is above `MOST_COORDINATE`. Without a root; whether its
    /// edge is clear is not looked at. O(1).
    pub fn is_beaten_by(self, node: u32, cost_to_come: u64, from: Point, to: Point) -> bool
        requires from { IsBounded from }
        requires to { IsBounded to }
        ensures wins { (through : ℕ → ℕ) → self.cost ≡ through self.node → cost_to_come + cost_of from to ≡ through node
            → IsTrue result → IsNotAbove through node self.node }
        ensures loses { (through : ℕ → ℕ) → self.cost ≡ through self.node → cost_to_come + cost_of from to ≡ through node
            → IsFalse result → IsNotAbove through self.node node }
    {
        if node < self.node {
            costs_at_most_through(cost_to_come, from, to, self.cost)
        } else {
            costs_less_through(cost_to_come, from, to, self.cost)
        }
    }
}

#[cfg(test)]
mod tests {
    use super::*;
    use crate::bounded;

    /// Node 5 at the origin, which costs 200, as the parent of a node at (30, 40), which then costs 13,000.
    fn fifth() -> Parent {
        Parent::through(5, 200, bounded((0, 0)), bounded((30, 40)))
    }

    #[test]
    fn a_parent_has_the_cost_through_it(rt: HostRuntime) {
        assert_eq!(rt; fifth().node, 5);
        assert_eq!(rt; fifth().cost, 13_000);
    }

    /// Another node, its cost-to-come and where it stands, and whether it is the better parent.
    static RIVALS: [(u32, u64, (u16, u16), bool); 10] = [
        (4, 200, (0, 0), true),
        (6, 200, (0, 0), false),
        (4, 201, (0, 0), false),
        (6, 199, (0, 0), true),
        (4, 13_000, (30, 40), true),
        (6, 13_000, (30, 40), false),
        (6, 0, (30, 41), true),
        (4, 14_000, (30, 40), false),
        (4, 12_637, (29, 39), true),
        (4, 12_638, (29, 39), false),
    ];

    #[test]
    fn the_lesser_cost_wins_and_of_equal_costs_the_lesser_number(rt: HostRuntime) {
        let best = fifth();
        for &(node, cost_to_come, from, want) in &RIVALS {
            let beaten = best.is_beaten_by(node, cost_to_come, bounded(from), bounded((30, 40)));
            assert_eq!(rt; beaten, want, "node {node} at the cost {cost_to_come}");
        }
    }
}
