//! Paths that are better than those before them.

ghost use Rattle.std.specs.Prelude.{◌≡◌};

use plan_model::Points;

/// A path from the start into a goal that is cheaper than all that were given before it.
#[derive(Debug, Drop)]
pub struct Better {
    /// Its points: the start first, a point in a goal last.
    pub path: Points,
    /// What its edges cost together, in 256ths of a lattice step.
    pub cost: u64,
    /// After how many marks (samples) it was the best path.
    pub marks: u32,
}

/// What a session keeps of the last path that it gave.
#[derive(Clone, Copy, Debug, PartialEq, Eq)]
pub struct Last {
    /// What it cost, in 256ths of a lattice step.
    pub cost: u64,
    /// After how many marks it was the best path.
    pub marks: u32,
}

impl Better {
    /// What a session keeps of it.
    pub(crate) fn last(&self) -> Last
        ensures { result ≡ record { cost = self.now.cost; marks = self.now.marks } }
    {
        Last {
            cost: self.cost,
            marks: self.marks,
        }
    }
}
