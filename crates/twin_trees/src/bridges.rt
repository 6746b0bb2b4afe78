//! A bridge, and the order of bridges.

ghost use Rattle.std.specs.Prelude.{◌≡◌, ◌+◌, ◌<◌, ◌≤◌, ◌^◌, ◌⊎◌, IfSome, IsFalse, IsTrue, Some};
ghost use Rattle.plan_model.specs.Geometry.Plane.{IsBounded};
ghost use Rattle.plan_model.specs.Geometry.Lengths.{cost_of};
ghost use Rattle.twin_trees.specs.Twins.{IsMatched, IsNoWorse};

use edge_cost::costs_less_through;
use point_bands::Numbered;

/// A bridge, with what the way over it costs.
#[derive(Clone, Copy, Debug)]
pub(crate) struct Bridge {
    /// What it costs from root to root, in 256ths of a lattice step.
    pub cost: u64,
    /// The node of the first run.
    pub first: u32,
    /// The node of the second run.
    pub second: u32,
}

/// Whether the way over two nodes, whose costs-to-come add up to `costs_to_come`, is better than a bridge so far, if there is one. Without a
/// root.
pub(crate) fn so_far_is_beaten(
    so_far: Option<Bridge>,
    costs_to_come: u64,
    end: Numbered,
    other: Numbered,
) -> bool
    requires end { IsBounded end.point }
    requires other { IsBounded other.point }
    requires low { IfSome so_far (λ bridge. bridge.cost < 2 ^ 63) }
    ensures beaten { IsTrue result → IsNoWorse so_far (Some (record {
      cost = costs_to_come + cost_of end.point other.point;
      first = end.number;
      second = other.number;
    })) }
    ensures matched { IsFalse result → IsMatched so_far (costs_to_come + cost_of end.point other.point) end.number other.number }
{
    match so_far {
        Some(bridge) => is_beaten(bridge, costs_to_come, end, other),
        None => true,
    }
}

/// The same of a bridge.
fn is_beaten(bridge: Bridge, costs_to_come: u64, end: Numbered, other: Numbered) -> bool
    requires end { IsBounded end.point }
    requires other { IsBounded other.point }
    requires low { bridge.cost < 2 ^ 63 }
    ensures beaten { IsTrue result → IsNoWorse (Some bridge) (Some (record {
      cost = costs_to_come + cost_of end.point other.point;
      first = end.number;
      second = other.number;
    })) }
    ensures matched { IsFalse result → IsMatched (Some bridge) (costs_to_come + cost_of end.point other.point) end.number other.number }
{
    if is_numbered_before(bridge, end.number, other.number) {
        costs_less_through(costs_to_come, end.point, other.point, bridge.cost + 1)
    } else {
        costs_less_through(costs_to_come, end.point, other.point, bridge.cost)
    }
}

/// Whether two nodes have numbers before those of a bridge, compared from the front.
fn is_numbered_before(bridge: Bridge, first: u32, second: u32) -> bool
    ensures before { IsTrue result → (first < bridge.first) ⊎ ((first ≡ bridge.first) × (second < bridge.second)) }
    ensures after { IsFalse result → (bridge.first < first) ⊎ ((bridge.first ≡ first) × (bridge.second ≤ second)) }
{
    if first == bridge.first {
        second < bridge.second
    } else {
        first < bridge.first
    }
}
