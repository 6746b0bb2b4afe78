//! What became of each mark (each sample).

ghost use Rattle.std.specs.Prelude.{IsTrue};
ghost use Rattle.plan_model.specs.Runs.Outcomes.{is_zero_unless_placed};

use crate::lists::Sequence;

/// What became of a mark.
#[derive(Clone, Copy, Debug, PartialEq, Eq)]
pub enum Outcome {
    /// A node was placed for it.
    Placed,
    /// The steered point is that of the node with this number already.
    Same(u32),
    /// The segment from the nearest node to the steered point is not clear.
    Blocked,
    /// No path over the mark could be cheaper than one that was known: the mark was steered to by no node.
    Skipped,
}

/// What became of one mark, and who handled it when.
#[derive(Clone, Copy, Debug, PartialEq, Eq)]
pub struct Record {
    /// The worker that handled the mark.
    pub worker: u32,
    /// How many marks that worker had handled before.
    pub turn: u32,
    /// The nearest node; of a skipped mark the goal node that costs no more than any path over the mark could.
    pub nearest: u32,
    /// What became of the mark.
    pub outcome: Outcome,
    /// The parent that a placed node was given first, else 0.
    pub first_parent: u32,
    /// The cost that a placed node was given first, in 256ths of a lattice step, else 0.
    pub first_cost: u64,
    /// For a placed node, the class of the number of nodes that its worker counted, else 0. The class of a number is how many
    /// binary digits it has; the worker counts at least the start and the nodes that it placed earlier, and at most all nodes.
    pub class: u32,
    // a mark that was not placed has no first parent, no first cost and no class
    ghost unplaced: { IsTrue (is_zero_unless_placed outcome first_parent first_cost class) },
}

impl Record {
    ghost use Rattle.std.specs.Prelude.{◌≡◌};
    ghost use Rattle.plan_model.specs.Runs.Endings.{unplaced_record};

    /// The record of a mark for which no node is placed: first parent, first cost and class are 0. O(1).
    pub fn unplaced(worker: u32, turn: u32, nearest: u32, outcome: Outcome) -> Record
        ensures { result ≡ unplaced_record worker turn nearest outcome }
    {
        Record {
            worker,
            turn,
            nearest,
            outcome,
            first_parent: 0,
            first_cost: 0,
            class: 0,
        }
    }
}

/// Records, by the number of the mark.
pub type Records = Sequence<Record>;
