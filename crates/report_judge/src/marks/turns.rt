//! Whether the turns of each worker run from 0, none of them twice.

ghost use Rattle.std.specs.Prelude.{◌≡◌, ◌+◌, ◌*◌, ◌<◌, ◌≤◌, ◌^◌, ℕ, IfOk, Some, length, slice_get, slice_index_or};
ghost use Rattle.plan_model.specs.Runs.OrderLaw.{turns_of};
ghost use Rattle.plan_model.specs.declared.limits.TheConstants.{MOST_MARKS};
ghost use Rattle.plan_model.specs.declared.records.Record.{Record};
ghost use Rattle.report_judge.specs.Laws.FirstBreaks.{HasFewTurns, HasLowTurn, IsFirstBreak, KeepsTurn, turn_key};

use crate::first_breaks::earlier;
use crate::repeats::first_repeat;
use plan_model::{MOST_WORKERS, Memory, Record};
use std::alloc::Global;

/// How many workers a record may name.
pub(crate) const WORKERS: usize = MOST_WORKERS as usize;

/// The first mark whose turn is that of an earlier mark of its worker, or is not below the number of its worker's marks; `None` exactly
/// if there is none. O(n log n) for n marks.
///
/// # Errors
///
/// `Memory` if out of memory.
pub(crate) fn first_wrong_turn(alloc: Global, records: &[Record]) -> Result<Option<usize>, Memory>
    requires few { length records.now ≤ MOST_MARKS }
    requires fit { (k : ℕ) (entry : Record) → slice_get records.now k ≡ Some entry → HasFewTurns entry }
    ensures { IfOk result (λ first. IsFirstBreak (KeepsTurn records.now) (length records.now) first) }
{
    let keys = turn_keys(alloc, records)?;
    let repeat = first_repeat(alloc, &keys)?;
    Ok(earlier(repeat, first_high_turn(records)))
}

/// A number for the worker and the turn of each record.
fn turn_keys(alloc: Global, records: &[Record]) -> Result<Vec<u64>, Memory>
    requires fit { (k : ℕ) (entry : Record) → slice_get records.now k ≡ Some entry → HasFewTurns entry }
    ensures length { IfOk result (λ keys. length keys.items ≡ length records.now) }
    ensures keys { IfOk result (λ keys. (k : ℕ) (entry : Record) → slice_get records.now k ≡ Some entry
        → slice_index_or keys.items k 0 ≡ turn_key entry) }
{
    let mut keys = Vec::with_capacity(alloc, records.len())?;
    for entry in records {
        keys.push(key(*entry))?;
    }
    Ok(keys)
}

/// A number for the worker and the turn of a record.
fn key(entry: Record) -> u64
    requires { HasFewTurns entry }
    ensures { result ≡ turn_key entry }
{
    u64::from(entry.worker) * 262_144 + u64::from(entry.turn)
}

/// The first mark whose turn is not below the number of its worker's marks; `None` exactly if there is none. O(n).
fn first_high_turn(records: &[Record]) -> Option<usize>
    requires few { length records.now ≤ MOST_MARKS }
    requires fit { (k : ℕ) (entry : Record) → slice_get records.now k ≡ Some entry → HasFewTurns entry }
    ensures { IsFirstBreak (HasLowTurn records.now) (length records.now) result }
{
    let counts = marks_by_worker(records);
    for (k, entry) in records.iter().enumerate() {
        if entry.turn >= counts[entry.worker as usize] {
            return Some(k);
        }
    }
    None
}

/// How many marks each worker has handled. O(n).
pub(crate) fn marks_by_worker(records: &[Record]) -> [u32; WORKERS]
    requires few { length records.now ≤ MOST_MARKS }
    requires fit { (k : ℕ) (entry : Record) → slice_get records.now k ≡ Some entry → HasFewTurns entry }
    ensures { (w : ℕ) → w < 64 → slice_index_or result w 0 ≡ turns_of (slice_get records.now) (length records.now) w }
{
    let mut counts = [0; WORKERS];
    for entry in records {
        counts[entry.worker as usize] += 1;
    }
    counts
}
