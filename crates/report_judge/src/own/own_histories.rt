//! What is kept of a worker while its marks are judged.

ghost use Rattle.std.specs.Prelude.{◌≡◌, ◌≤◌, ℕ, suc, IfOk, length};
ghost use Rattle.plan_model.specs.declared.limits.TheConstants.{MOST_MARKS};
ghost use Rattle.report_judge.specs.Workers.JudgedRuns.{IsOwnHistory};
ghost use Rattle.report_judge.specs.Workers.SeenNodes.{HaveOwnTurns};

use crate::own::own_turns::{OwnTurns, own_turns};
use crate::own::seen_nodes::{Seen, seen_by_turn};
use crate::own::standings::{Standing, standings};
use plan_model::{Goal, Knot, Memory, Record};
use std::alloc::Global;

/// The marks of a worker by its turns, what it has seen before each of them, and what its nodes cost.
#[derive(Drop)]
pub(crate) struct OwnHistory {
    /// Its marks.
    pub turns: OwnTurns,
    /// What it has seen before each turn.
    pub seen: Vec<Seen>,
    /// The standings of its nodes, by place.
    pub standings: Vec<Standing>,
}

/// What is kept of a worker with so many turns. O(n) for n marks.
///
/// # Errors
///
/// `Memory` if out of memory for it.
pub(crate) fn own_history(
    alloc: Global,
    goals: &[Goal],
    knots: &[Option<Knot>],
    records: &[Record],
    worker: u32,
    turns: u32,
) -> Result<OwnHistory, Memory>
    requires few { length records.now ≤ MOST_MARKS }
    requires turns { turns ≤ MOST_MARKS }
    requires numbers { length knots.now ≡ suc (length records.now) }
    requires own { HaveOwnTurns records.now }
    ensures { IfOk result (IsOwnHistory goals.now knots.now records.now worker turns) }
{
    let turns = own_turns(alloc, records, worker, turns)?;
    let seen = seen_by_turn(alloc, goals, knots, records, &turns)?;
    let standings = standings(alloc, knots, records, &turns)?;
    Ok(OwnHistory {
        turns,
        seen,
        standings,
    })
}
