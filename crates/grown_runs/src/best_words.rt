//! The best word: the least pair of a cost and a goal node that the run began with or a pass has posted. The cost is in bits 18 to 61 and the node in bits 0 to 17, so
//! that a lesser pair is a lesser number. Bit 63 is set only while no goal node is known: then all 64 bits are.

ghost use Rattle.std.specs.Prelude.{◌≡◌, ◌^◌, ◌<◌};
ghost use Rattle.grown_runs.specs.Table.Words.{best_of_word, best_word};

use crate::layout::{COST_SHIFT, NO_BEST, NUMBER_MASK};

/// The best word of a cost below 2^44, in 256ths of a lattice step, and a goal node below 2^18. That of cost 17,920 and node 2 is
/// 17,920 * 2^18 + 2. O(1).
pub fn pack_best(cost: u64, node: u32) -> u64
    requires cost { cost < 2 ^ 44 }
    requires node { node < 2 ^ 18 }
    ensures { result ≡ best_word cost node }
{
    cost << COST_SHIFT | u64::from(node)
}

/// The goal node and the cost of the best word; `None` while no goal node is known. O(1).
pub fn read_best(word: u64) -> Option<(u32, u64)>
    ensures read { result ≡ best_of_word word }
{
    if word == NO_BEST {
        return None;
    }
    Some(((word & NUMBER_MASK) as u32, word >> COST_SHIFT))
}
