//! Where the fields of a word stand: each field by the number of its lowest bit, and by a mask of as many ones as
//! it has bits.

/// Bit 63, which is set in every word that is written.
pub(crate) const WRITTEN: u64 = 1 << 63;

/// A coordinate has 20 bits; x stands at bit 0.
pub(crate) const COORDINATE_MASK: u64 = (1 << 20) - 1;

/// The lowest bit of y in a point's word.
pub(crate) const Y_SHIFT: u32 = 20;

/// The number of a node has 18 bits, and so have a turn and a class; a parent stands at bit 0.
pub(crate) const NUMBER_MASK: u64 = (1 << 18) - 1;

/// The lowest bit of the cost in a tree word and in the best word.
pub(crate) const COST_SHIFT: u32 = 18;

/// A cost has 44 bits.
pub(crate) const COST_MASK: u64 = (1 << 44) - 1;

/// The best word while no goal node is known.
pub(crate) const NO_BEST: u64 = u64::MAX;

/// A worker has 6 bits and stands at bit 0 of a record's word.
pub(crate) const WORKER_MASK: u64 = (1 << 6) - 1;

/// The lowest bit of the turn in a record's word.
pub(crate) const TURN_SHIFT: u32 = 6;

/// The lowest bit of the nearest node in a record's word.
pub(crate) const NEAREST_SHIFT: u32 = 24;

/// The lowest bit of the outcome in a record's word.
pub(crate) const OUTCOME_SHIFT: u32 = 42;

/// The number of an outcome has 2 bits.
pub(crate) const OUTCOME_MASK: u64 = (1 << 2) - 1;

/// The outcome of a placed mark.
pub(crate) const PLACED: u64 = 0;

/// The outcome of a mark that ended at a node.
pub(crate) const SAME: u64 = 1;

/// The outcome of a blocked mark.
pub(crate) const BLOCKED: u64 = 2;

/// The outcome of a skipped mark.
pub(crate) const SKIPPED: u64 = 3;

/// The lowest bit of the last field in a record's word: the class, or the node of the same point.
pub(crate) const LAST_SHIFT: u32 = 44;
