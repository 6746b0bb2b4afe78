//! The tree of nodes. The start has number 0, and the node that mark `k` gives has number `k + 1`.

use crate::geometry::Point;
use crate::lists::Sequence;

/// A node: a vertex of the tree with the edge to its parent.
#[derive(Clone, Copy, Debug, PartialEq, Eq)]
pub struct Twig {
    /// Where it stands.
    pub point: Point,
    /// The number of its parent; the start is its own.
    pub parent: u32,
}

/// A node with its kept cost-to-come, in 256ths of a lattice step.
#[derive(Clone, Copy, Debug, PartialEq, Eq)]
pub struct Knot {
    /// Where it stands.
    pub point: Point,
    /// The number of its parent; the start is its own.
    pub parent: u32,
    /// The cost from the start, as it is kept.
    pub cost: u64,
}

/// Nodes with their kept costs by number; absent if the mark was not placed.
pub type Knots = Sequence<Option<Knot>>;
