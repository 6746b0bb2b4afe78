//! The nodes of a search: those that wait, and those that it found.

ghost use Rattle.std.specs.Prelude.{◌≡◌};
ghost use Rattle.plan_words.specs.SearchLists.{cell_of, found_in, noted_cell, noted_spot, point_of_spot, spot_in};

use plan_model::Point;
use step_core::point_in;

/// A node that a search has come to, with the word of its point.
#[derive(Clone, Copy)]
pub struct Spot {
    /// The number of the node.
    pub node: u32,
    /// Whether it stands at an odd depth, so that its children are split by row, or by column.
    pub by_rows: bool,
    /// The word of its point, as it was loaded: it is taken apart once, when the node is visited.
    pub word: u64,
}

impl Spot {
    /// Where it stands. O(1).
    #[inline]
    pub fn point(self) -> Point
        ensures { result ≡ point_of_spot self }
    {
        point_in(self.word)
    }
}

/// A node that a search has found, with its distance.
#[derive(Clone, Copy)]
pub struct Found {
    /// The number of the node.
    pub node: u32,
    /// The cost of an edge to it, in 256ths of a lattice step, which is below 2^29; 0 until it is worked out.
    pub edge: u32,
    /// Its squared distance from the point of the search, in square lattice steps.
    pub distance: u64,
}

/// What both are made of: two numbers and a word, and nothing between them.
#[derive(Clone, Copy)]
pub(crate) struct Cell {
    pub(crate) node: u32,
    /// 1 for a spot whose children are split by row, 0 for one of the others; the cost of the edge of a found node.
    tag: u32,
    /// The word of the point of a spot; the squared distance of a found node.
    word: u64,
}

impl Cell {
    /// The cell of a spot.
    #[inline]
    pub(crate) fn of(spot: Spot) -> Cell
        ensures cell { result ≡ cell_of spot }
        ensures spot { spot_in result ≡ spot }
    {
        Cell {
            node: spot.node,
            tag: u32::from(spot.by_rows),
            word: spot.word,
        }
    }

    /// The cell of a node that is found at this squared distance, with no cost of an edge.
    #[inline]
    pub(crate) fn noted(node: u32, distance: u64) -> Cell
        ensures cell { result ≡ noted_cell node distance }
        ensures spot { spot_in result ≡ noted_spot node distance }
    {
        Cell {
            node,
            tag: 0,
            word: distance,
        }
    }

    /// The same found node with this cost of its edge.
    #[inline]
    pub(crate) fn with_edge(self, edge: u32) -> Cell
        ensures { found_in result ≡ record (found_in self) { edge = edge } }
    {
        Cell {
            node: self.node,
            tag: edge,
            word: self.word,
        }
    }

    /// The spot that it is of.
    #[inline]
    pub(crate) fn spot(self) -> Spot
        ensures { result ≡ spot_in self }
    {
        Spot {
            node: self.node,
            by_rows: self.tag != 0,
            word: self.word,
        }
    }

    /// The found node that it is of.
    #[inline]
    pub(crate) fn found(self) -> Found
        ensures { result ≡ found_in self }
    {
        Found {
            node: self.node,
            edge: self.tag,
            distance: self.word,
        }
    }
}
