//! A node's parent and cost as a word: bit 63 set, the cost in bits 18 to 61, the parent in bits 0 to 17. A word is 0
//! until it is written.
//!
//! The tree word of a node changes as the node is rewired, and its first word keeps what it was placed with; both are
//! packed the same. The cost has the high bits, so that of two words the one with the lower cost is the lower number.

ghost use Rattle.std.specs.Prelude.{◌≡◌, ◌^◌, ◌<◌};
ghost use Rattle.grown_runs.specs.Table.Words.{cost_in, parent_in, tree_of_word, tree_word};

use crate::layout::{COST_MASK, COST_SHIFT, NUMBER_MASK, WRITTEN};

/// The word of a parent below 2^18 and a cost below 2^44, in 256ths of a lattice step. That of parent 3 and cost 25,344 is
/// 2^63 + 25,344 * 2^18 + 3. O(1).
pub fn pack_tree(parent: u32, cost: u64) -> u64
    requires parent { parent < 2 ^ 18 }
    requires cost { cost < 2 ^ 44 }
    ensures { result ≡ tree_word parent cost }
{
    WRITTEN | cost << COST_SHIFT | u64::from(parent)
}

/// The parent and the cost of a word; `None` exactly if bit 63 is 0, as it is until the word is written. O(1).
pub fn read_tree(word: u64) -> Option<(u32, u64)>
    ensures read { result ≡ tree_of_word word }
{
    if word < WRITTEN {
        return None;
    }
    Some((parent_in(word), cost_in(word)))
}

/// The parent in a word.
pub(crate) fn parent_in(word: u64) -> u32
    ensures { result ≡ parent_in word }
{
    (word & NUMBER_MASK) as u32
}

/// The cost in a word, in 256ths of a lattice step.
pub(crate) fn cost_in(word: u64) -> u64
    ensures { result ≡ cost_in word }
{
    word >> COST_SHIFT & COST_MASK
}

/// The parent and the cost in a word that is written; of any other word what its bits say. O(1).
pub fn pair_in(word: u64) -> (u32, u64)
    ensures parent { result.0 ≡ parent_in word }
    ensures cost { result.1 ≡ cost_in word }
{
    (parent_in(word), cost_in(word))
}
