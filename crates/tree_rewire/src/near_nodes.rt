//! The nodes near a new one, on whichever list of a pass they are.

ghost use Rattle.std.specs.Prelude.{◌≡◌, ◌^◌, ◌<◌, All, Some, length, slice_get};
ghost use Rattle.plan_model.specs.Geometry.Plane.{IsBounded};
ghost use Rattle.plan_model.specs.Geometry.Lengths.{cost_of};
ghost use Rattle.plan_model.specs.Trees.NodeLists.{point_of};
ghost use Rattle.plan_words.specs.SearchLists.{weighed};
ghost use Rattle.plan_words.specs.States.{BelongsTo, with_lists};
ghost use Rattle.step_core.specs.Views.{tree_seen};
ghost use Rattle.tree_rewire.specs.NearNodes.{with_found, AreKnown, AreMeasured, nodes_on, weighed_on};
ghost use Rattle.tree_rewire.specs.SeenCosts.{NamesNothing, PassSees};

use edge_cost::{cost, cost_of_square};
use plan_model::Point;
use plan_words::{Found, Pass, Shared};

/// The list.
#[derive(Clone, Copy)]
pub(crate) enum NearNodes {
    /// The near list.
    Listed,
    /// The nodes that the last search found, whose records have the costs of their edges once they are weighed.
    Searched,
}

/// A node with the cost of its edge to a point, in 256ths of a lattice step.
#[derive(Clone, Copy)]
pub(crate) struct WeighedNode {
    pub(crate) node: u32,
    pub(crate) edge: u32,
}

impl NearNodes {
    /// How many there are.
    #[inline]
    pub(crate) fn count(self, pass: &Pass) -> usize
        ensures { result ≡ length (nodes_on self pass.now.lists) }
    {
        match self {
            NearNodes::Listed => pass.near_count(),
            NearNodes::Searched => pass.found_count(),
        }
    }

    /// The node at this index, which is below their count.
    #[inline]
    pub(crate) fn node(self, pass: &Pass, index: usize) -> u32
        requires { index < length (nodes_on self pass.now.lists) }
        ensures { slice_get (nodes_on self pass.now.lists) index ≡ Some result }
    {
        match self {
            NearNodes::Listed => pass.near_node(index),
            NearNodes::Searched => pass.found(index).node,
        }
    }

    /// Works out the costs of the edges of nodes that a search found, into their records.
    #[inline]
    pub(crate) fn weigh(self, pass: &mut Pass)
        requires measured { (p : Point) × IsBounded p × AreMeasured self pass.old.view p pass.old.lists }
        ensures { pass.new ≡ with_lists pass.old (weighed_on self pass.old.lists) }
    {
        match self {
            NearNodes::Listed => {}
            NearNodes::Searched => set_edges(pass),
        }
    }

    /// The node at this index with the cost of its edge to a point, which is in its record, or is worked out.
    #[inline]
    pub(crate) fn weighed(
        self,
        shared: &Shared,
        pass: &mut Pass,
        p: Point,
        index: usize,
    ) -> WeighedNode
        requires belongs { BelongsTo pass.old shared.now }
        requires bounded { IsBounded p }
        requires known { AreKnown self pass.old.view p pass.old.lists }
        requires within { index < length (nodes_on self pass.old.lists) }
        ensures steps { PassSees NamesNothing shared.now pass.old pass.new }
        ensures node { slice_get (nodes_on self pass.old.lists) index ≡ Some result.node }
        ensures edge { result.edge ≡ cost_of (point_of (tree_seen pass.old.view).points result.node) p }
    {
        match self {
            NearNodes::Listed => {
                let node = pass.near_node(index);
                let from = shared.point(pass, node);
                WeighedNode {
                    node,
                    edge: cost(from, p) as u32,
                }
            }
            NearNodes::Searched => {
                let found = pass.found(index);
                WeighedNode {
                    node: found.node,
                    edge: found.edge,
                }
            }
        }
    }
}

/// Puts the costs of the edges of the nodes found into their records.
fn set_edges(pass: &mut Pass)
    requires { All (λ (f : Found). f.distance < 2 ^ 41) pass.old.lists.search.found }
    ensures { pass.new ≡ with_found pass.old pass.old.view (weighed pass.old.lists.search.found) }
{
    let count = pass.found_count();
    'edges: for index in 0..count {
        let found = pass.found(index);
        let edge = cost_of_square(found.distance) as u32;
        pass.set_edge(index, edge);
    }
}
