//! What the nodes of a worker cost, in the order in which it placed them.

ghost use Rattle.std.specs.Prelude.{◌≡◌, ◌≤◌, IfOk, length};
ghost use Rattle.plan_model.specs.declared.limits.TheConstants.{MOST_MARKS};
ghost use Rattle.grown_runs.specs.Runs.PackedRuns.{state_of_lists};
ghost use Rattle.report_judge.specs.Workers.SeenNodes.{AreTurnsOf, HaveOwnTurns, AreStandings, standing_of};

use crate::own::own_turns::{OwnTurns, node_of};
use crate::trees::best_paths::kept_cost;
use crate::trees::hanging::first_cost;
use plan_model::{Knot, Memory, Record};
use std::alloc::Global;

/// What a node cost when it was placed, and what it costs now, in 256ths of a lattice step.
#[derive(Clone, Copy)]
pub(crate) struct Standing {
    /// The node.
    pub node: u32,
    /// Its first cost.
    pub first_cost: u64,
    /// What it costs now.
    pub cost: u64,
}

/// The standings of a worker's nodes by place: that of the start in front, and for each turn that of the node of its mark. So those that
/// stood before a turn have the places up to its number. O(n) for n turns.
///
/// # Errors
///
/// `Memory` if out of memory for them.
pub(crate) fn standings(
    alloc: Global,
    knots: &[Option<Knot>],
    records: &[Record],
    turns: &OwnTurns,
) -> Result<Vec<Standing>, Memory>
    requires few { length records.now ≤ MOST_MARKS }
    requires turns { AreTurnsOf records.now turns.now }
    requires own { HaveOwnTurns records.now }
    ensures { IfOk result (λ all. AreStandings (state_of_lists knots.now records.now) turns.now.worker (length turns.now.marks.items) all.items) }
{
    let mut standings = Vec::with_capacity(alloc, turns.marks.len() + 1)?;
    standings.push(costs_of(knots, records, 0))?;
    for k in &turns.marks {
        standings.push(costs_of(knots, records, node_of(*k)))?;
    }
    Ok(standings)
}

/// What a node cost at first, and what it costs now.
fn costs_of(knots: &[Option<Knot>], records: &[Record], node: u32) -> Standing
    ensures { result ≡ standing_of (state_of_lists knots.now records.now) node }
{
    Standing {
        node,
        first_cost: first_cost(records, node),
        cost: kept_cost(knots, node),
    }
}
