//! The extension of a search tree by one mark.

ghost use Rattle.std.specs.Prelude.{◌≡◌, Some, None};
ghost use Rattle.plan_model.specs.Runs.Endings.{NewNode, NoWay, SameNode, SkippedBy, Steered, record_of_ending};

use edge_cost::Parent;
use plan_model::{Outcome, Point, Record, Twig};

/// What a mark (a sample) adds to a search tree.
#[derive(Clone, Copy)]
pub(crate) struct Extension {
    /// The new node, if the mark is placed.
    pub(crate) node: Option<Twig>,
    /// The cost from the start to the new node, in 256ths of a lattice step, else 0.
    pub(crate) cost: u64,
    /// The record of the mark.
    pub(crate) entry: Record,
}

impl Extension {
    /// The extension by a mark that ends where a node stands already, the node with this number.
    pub(crate) fn same(turn: u32, nearest: u32, number: u32) -> Extension
        ensures node { result.node ≡ None }
        ensures cost { result.cost ≡ 0 }
        ensures entry { result.entry ≡ record_of_ending 0 turn (Steered nearest (SameNode number)) }
    {
        Extension {
            node: None,
            cost: 0,
            entry: Record::unplaced(0, turn, nearest, Outcome::Same(number)),
        }
    }

    /// The extension by a mark whose segment from the nearest node is not clear.
    pub(crate) fn blocked(turn: u32, nearest: u32) -> Extension
        ensures node { result.node ≡ None }
        ensures cost { result.cost ≡ 0 }
        ensures entry { result.entry ≡ record_of_ending 0 turn (Steered nearest NoWay) }
    {
        Extension {
            node: None,
            cost: 0,
            entry: Record::unplaced(0, turn, nearest, Outcome::Blocked),
        }
    }

    /// The extension by a mark that is skipped by this goal node.
    pub(crate) fn skipped(turn: u32, goal_node: u32) -> Extension
        ensures node { result.node ≡ None }
        ensures cost { result.cost ≡ 0 }
        ensures entry { result.entry ≡ record_of_ending 0 turn (SkippedBy goal_node) }
    {
        Extension {
            node: None,
            cost: 0,
            entry: Record::unplaced(0, turn, goal_node, Outcome::Skipped),
        }
    }

    /// The extension by a mark that is placed: a new node at a point under this parent, in a tree of this class.
    pub(crate) fn placed(
        turn: u32,
        nearest: u32,
        point: Point,
        parent: Parent,
        class: u32,
    ) -> Extension
        ensures node { result.node ≡ Some (record { point = point; parent = parent.node }) }
        ensures cost { result.cost ≡ parent.cost }
        ensures entry { result.entry
            ≡ record_of_ending 0 turn (Steered nearest (NewNode (record { parent = parent.node; cost = parent.cost; class = class }))) }
    {
        Extension {
            node: Some(Twig {
                point,
                parent: parent.node,
            }),
            cost: parent.cost,
            entry: Record {
                worker: 0,
                turn,
                nearest,
                outcome: Outcome::Placed,
                first_parent: parent.node,
                first_cost: parent.cost,
                class,
            },
        }
    }
}
