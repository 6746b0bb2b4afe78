//! The first number of a list that stood in it before.

ghost use Rattle.std.specs.Prelude.{◌<◌, ℕ, IfOk, IsTrue, length};
ghost use Rattle.report_judge.specs.Laws.FirstBreaks.{IsFirstBreak, IsNewKey};

use plan_model::Memory;
use std::alloc::Global;
use std::collections::BTreeSet;

/// The place of the first number that an earlier one is equal to; `None` exactly if no two are equal. O(n log n) for n numbers.
///
/// # Errors
///
/// `Memory` if out of memory for a copy of the numbers, or for a set of them.
pub(crate) fn first_repeat(alloc: Global, keys: &[u64]) -> Result<Option<usize>, Memory>
    ensures { IfOk result (λ first. IsFirstBreak (IsNewKey keys.now) (length keys.now) first) }
{
    if are_different(alloc, keys)? {
        return Ok(None);
    }
    let mut seen = BTreeSet::new(alloc);
    for (place, key) in keys.iter().enumerate() {
        if !seen.insert(*key)? {
            return Ok(Some(place));
        }
    }
    Ok(None)
}

/// Whether the numbers are known to be different, by a sorted copy, which takes less time than a set; `false` says nothing.
fn are_different(alloc: Global, keys: &[u64]) -> Result<bool, Memory>
    ensures { IfOk result (λ different. IsTrue different → (k : ℕ) → k < length keys.now → IsNewKey keys.now k) }
{
    let mut sorted = keys.to_vec(alloc)?;
    sorted.sort_unstable_by_key(|key| *key);
    for place in 1..sorted.len() {
        if sorted[place - 1] >= sorted[place] {
            return Ok(false);
        }
    }
    Ok(true)
}
