//! The marks of a worker by its turns.

ghost use Rattle.std.specs.Prelude.{◌≡◌, ◌≤◌, IfNone, IfOk, IfSome, length, suc};
ghost use Rattle.plan_model.specs.declared.limits.TheConstants.{MOST_MARKS};
ghost use Rattle.report_judge.specs.Workers.SeenNodes.{AreMarksByTurn, AreTurnsOf};

use plan_model::{Memory, Record};
use std::alloc::Global;

/// Which mark a worker handled in each of its turns.
#[derive(Drop)]
pub(crate) struct OwnTurns {
    /// The worker.
    pub worker: u32,
    /// Its marks, by turn; `None` for a turn without one.
    pub marks: Vec<Option<u32>>,
}

/// The marks of a worker by its turns, up to a number of turns. O(n) for n marks.
///
/// # Errors
///
/// `Memory` if out of memory for them.
pub(crate) fn own_turns(
    alloc: Global,
    records: &[Record],
    worker: u32,
    turns: u32,
) -> Result<OwnTurns, Memory>
    requires few { length records.now ≤ MOST_MARKS }
    ensures turns { IfOk result (λ own. AreTurnsOf records.now own) }
    ensures worker { IfOk result (λ own. own.worker ≡ worker) }
    ensures length { IfOk result (λ own. length own.marks.items ≡ turns) }
{
    let marks = marks_by_turn(alloc, records, worker, turns)?;
    Ok(OwnTurns { worker, marks })
}

/// The same as a list.
fn marks_by_turn(
    alloc: Global,
    records: &[Record],
    worker: u32,
    turns: u32,
) -> Result<Vec<Option<u32>>, Memory>
    requires few { length records.now ≤ MOST_MARKS }
    ensures marks { IfOk result (λ order. AreMarksByTurn records.now worker order.items) }
    ensures length { IfOk result (λ order. length order.items ≡ turns) }
{
    let mut order = vec![in alloc; None; turns as usize]?;
    for (k, entry) in records.iter().enumerate() {
        let turn = entry.turn as usize;
        if entry.worker == worker {
            if turn < order.len() {
                order[turn] = Some(k as u32);
            }
        }
    }
    Ok(order)
}

/// The node of a mark; the start's, 0, if there is no mark.
pub(crate) fn node_of(k: Option<u32>) -> u32
    requires { IfSome k (λ m. suc m ≤ MOST_MARKS) }
    ensures none { IfNone k (result ≡ 0) }
    ensures some { IfSome k (λ m. result ≡ suc m) }
{
    match k {
        Some(k) => k + 1,
        None => 0,
    }
}
