//! Costs by way of a node, against a bound.

ghost use Rattle.std.specs.Prelude.{◌↔◌, ◌+◌, ◌<◌, ◌≤◌, IsTrue};
ghost use Rattle.plan_model.specs.Geometry.Lengths.{cost_of};
ghost use Rattle.plan_model.specs.Geometry.Plane.{IsBounded};

use crate::costs::SQUARED_UNITS;
use plan_model::Point;

/// Every cost of an edge is below it, in 256ths of a lattice step.
const COST_BOUND: u64 = 536_870_912;

/// The question of rewiring: whether a node at `to` that is kept at `kept_cost` costs strictly less through a node at
/// `from` that costs `cost_to_come`. The same as `cost_to_come + cost(from, to) < kept_cost`, without a root.
///
/// Costs are in 256ths of a lattice step, and any numbers; below a kept cost of 0 there is none. No coordinate is above
/// `MOST_COORDINATE`. O(1).
pub fn costs_less_through(cost_to_come: u64, from: Point, to: Point, kept_cost: u64) -> bool
    requires from { IsBounded from }
    requires to { IsBounded to }
    ensures { IsTrue result ↔ cost_to_come + cost_of from to < kept_cost }
{
    kept_cost > 0 && costs_at_most_through(cost_to_come, from, to, kept_cost - 1)
}

/// The same with a bound that may be reached: whether `cost_to_come + cost(from, to) <= bound`.
pub(crate) fn costs_at_most_through(cost_to_come: u64, from: Point, to: Point, bound: u64) -> bool
    requires from { IsBounded from }
    requires to { IsBounded to }
    ensures { IsTrue result ↔ cost_to_come + cost_of from to ≤ bound }
{
    if bound < cost_to_come {
        return false;
    }
    // all bounds of an edge above this one have the same answer, and its square fits
    let most = (bound - cost_to_come).min(COST_BOUND);
    SQUARED_UNITS * from.squared_distance(to) <= most * most
}

#[cfg(test)]
mod tests {
    use super::*;
    use crate::bounded;

    /// A node's cost-to-come, an edge from it, a kept cost, and whether the way through the node costs less.
    type Case = (u64, (u16, u16), (u16, u16), u64, bool);

    static CASES: [Case; 17] = [
        (0, (5, 5), (5, 5), 0, false),
        (0, (5, 5), (5, 5), 1, true),
        (700, (5, 5), (5, 5), 700, false),
        (700, (5, 5), (5, 5), 701, true),
        (0, (0, 0), (30, 40), 0, false),
        (0, (0, 0), (30, 40), 12_800, false),
        (0, (0, 0), (30, 40), 12_801, true),
        (200, (0, 0), (30, 40), 12_999, false),
        (200, (0, 0), (30, 40), 13_000, false),
        (200, (0, 0), (30, 40), 13_001, true),
        (13_000, (0, 0), (30, 40), 12_801, false),
        (0, (1, 1), (0, 0), 363, false),
        (0, (1, 1), (0, 0), 364, true),
        (0, (0, 0), (65_535, 65_535), 23_726_205, false),
        (0, (0, 0), (65_535, 65_535), 23_726_206, true),
        (0, (0, 0), (65_535, 65_535), u64::MAX, true),
        (u64::MAX, (0, 0), (65_535, 65_535), u64::MAX, false),
    ];

    #[test]
    fn compares_costs_through_a_node_with_kept_costs(rt: HostRuntime) {
        for &(cost_to_come, from, to, kept_cost, want) in &CASES {
            let less = costs_less_through(cost_to_come, bounded(from), bounded(to), kept_cost);
            assert_eq!(rt; less, want, "below {kept_cost}");
        }
    }
}
