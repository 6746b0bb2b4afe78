//! What a worker has seen of its own nodes before each of its turns.

ghost use Rattle.std.specs.Prelude.{◌≡◌, ◌+◌, ◌<◌, ◌≤◌, ℕ, IfNone, IfOk, IfSome, List, Some, length, min, slice_get, suc};
ghost use Rattle.plan_model.specs.declared.limits.TheConstants.{MOST_MARKS};
ghost use Rattle.plan_model.specs.declared.records.Record.{Record};
ghost use Rattle.report_judge.specs.declared.own.seen_nodes.Seen.{Seen};
ghost use Rattle.grown_runs.specs.Runs.PackedRuns.{state_of_lists};
ghost use Rattle.report_judge.specs.Workers.SeenNodes.{AreSeen, AreTurnsOf, HaveOwnTurns, IsMarkOfTurn};

use crate::marks::presence::is_placed;
use crate::own::own_turns::OwnTurns;
use crate::trees::best_paths::is_goal_node;
use plan_model::{Goal, Knot, Memory, Record};
use std::alloc::Global;

/// What a worker has seen of its own nodes.
#[derive(Clone, Copy)]
pub(crate) struct Seen {
    /// How many there are, the start included.
    pub nodes: u32,
    /// The least cost that one of them in a goal was placed at; `None` if none lies in a goal.
    pub least: Option<u64>,
}

impl Seen {
    /// The nodes before any turn: the start alone.
    fn at_start(goals: &[Goal], knots: &[Option<Knot>]) -> Seen
        requires { 0 < length knots.now }
        ensures { (records : List Record) (worker : ℕ) → AreSeen goals.now (state_of_lists knots.now records) worker 0 result }
    {
        let least = if is_goal_node(goals, knots, 0) {
            Some(0)
        } else {
            None
        };
        Seen { nodes: 1, least }
    }

    /// The same after the turn in which the worker handled a mark, if there is one.
    fn after(
        self,
        goals: &[Goal],
        knots: &[Option<Knot>],
        records: &[Record],
        k: Option<u32>,
    ) -> Seen
        requires few { length records.now ≤ MOST_MARKS }
        requires numbers { length knots.now ≡ suc (length records.now) }
        requires own { HaveOwnTurns records.now }
        requires low { IfSome k (λ m. m < length records.now) }
        requires room { self.nodes ≤ MOST_MARKS }
        ensures more { result.nodes ≤ self.nodes + 1 }
        ensures seen { (worker turn : ℕ) → IsMarkOfTurn records.now worker turn k
            → AreSeen goals.now (state_of_lists knots.now records.now) worker turn self
            → AreSeen goals.now (state_of_lists knots.now records.now) worker (suc turn) result }
    {
        let Some(k) = k else {
            return self;
        };
        let entry = records[k as usize];
        if !is_placed(entry.outcome) {
            return self;
        }
        let nodes = self.nodes + 1;
        if !is_goal_node(goals, knots, k + 1) {
            return Seen {
                nodes,
                least: self.least,
            };
        }
        Seen {
            nodes,
            least: Some(lesser(self.least, entry.first_cost)),
        }
    }
}

/// The lesser of two costs, if there are two.
fn lesser(cost: Option<u64>, other: u64) -> u64
    ensures none { IfNone cost (result ≡ other) }
    ensures some { IfSome cost (λ one. result ≡ min one other) }
{
    match cost {
        Some(one) => one.min(other),
        None => other,
    }
}

/// What a worker has seen before each of its turns, in their order. O(t) for t turns.
///
/// # Errors
///
/// `Memory` if out of memory for it.
pub(crate) fn seen_by_turn(
    alloc: Global,
    goals: &[Goal],
    knots: &[Option<Knot>],
    records: &[Record],
    turns: &OwnTurns,
) -> Result<Vec<Seen>, Memory>
    requires few { length records.now ≤ MOST_MARKS }
    requires turns { length turns.now.marks.items ≤ MOST_MARKS }
    requires marks { AreTurnsOf records.now turns.now }
    requires numbers { length knots.now ≡ suc (length records.now) }
    requires own { HaveOwnTurns records.now }
    ensures length { IfOk result (λ all. length all.items ≡ length turns.now.marks.items) }
    ensures seen { IfOk result (λ all. (turn : ℕ) (seen : Seen) → slice_get all.items turn ≡ Some seen
        → AreSeen goals.now (state_of_lists knots.now records.now) turns.now.worker turn seen) }
{
    let mut all = Vec::with_capacity(alloc, turns.marks.len())?;
    let mut seen = Seen::at_start(goals, knots);
    for k in &turns.marks {
        all.push(seen)?;
        seen = seen.after(goals, knots, records, *k);
    }
    Ok(all)
}
