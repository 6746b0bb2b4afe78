//! What a table is told once, and what a claim tells with its exchange.

ghost use Rattle.std.specs.Prelude.{◌≤◌};
ghost use Rattle.plan_model.specs.declared.limits.TheConstants.{MOST_WORKERS};
ghost use Rattle.plan_words.specs.OpeningBests.{HasLeastBest, HasLeastBest-prop};

use step_core::Grown;

/// A closed run that workers go on from, with the best word that they begin with, and how many workers there are.
#[derive(Drop)]
pub struct Opening {
    pub(crate) grown: Grown,
    pub(crate) workers: u32,
    ghost some: { 1 ≤ workers },
    ghost few: { workers ≤ MOST_WORKERS },
    ghost best: { HasLeastBest grown } by { HasLeastBest-prop grown },
}

/// What a claim asks for: the next mark of a strip, below a limit.
#[derive(Drop)]
pub struct Aim {
    pub(crate) strip: u32,
    pub(crate) limit: u32,
}
