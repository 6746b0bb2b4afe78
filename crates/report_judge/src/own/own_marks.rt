//! The marks of a worker, sorted by where they lie.

ghost use Rattle.std.specs.Prelude.{◌≡◌, ◌≤◌, IfOk, length};
ghost use Rattle.plan_model.specs.declared.limits.TheConstants.{MOST_MARKS};
ghost use Rattle.report_judge.specs.Workers.OwnNodes.{AreMarksBetween};
ghost use Rattle.report_judge.specs.Workers.SeenNodes.{AreTurnsOf, HaveOwnTurns};

use crate::own::own_turns::OwnTurns;
use plan_model::{Memory, Record, Task};
use point_bands::{Bands, Numbered};
use std::alloc::Global;

/// The marks that a worker handled in its turns from one up to another, and without that, each by its number. O(n log n) for n turns.
///
/// # Errors
///
/// `Memory` if out of memory for them.
pub(crate) fn marks_between(
    alloc: Global,
    task: &Task,
    records: &[Record],
    turns: &OwnTurns,
    from: u32,
    to: u32,
) -> Result<Bands, Memory>
    requires few { length records.now ≤ MOST_MARKS }
    requires marks { length records.now ≡ length task.now.marks }
    requires turns { AreTurnsOf records.now turns.now }
    requires own { HaveOwnTurns records.now }
    requires onward { from ≤ to }
    requires to { to ≤ length turns.now.marks.items }
    ensures { IfOk result (λ marks. AreMarksBetween records.now turns.now.worker from to marks) }
{
    let points = task.marks.as_slice();
    let mut marks = Vec::new(alloc);
    for turn in from..to {
        if let Some(number) = turns.marks[turn as usize] {
            let point = points[number as usize];
            marks.push(Numbered { point, number })?;
        }
    }
    Ok(Bands::new(marks))
}
