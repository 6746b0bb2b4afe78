//! How many workers grow a run.

ghost use Rattle.std.specs.Prelude.{◌≡◌, ◌≤◌};
ghost use Rattle.plan_model.specs.declared.limits.TheConstants.{MOST_WORKERS};

use crate::number_words::number_in;
use plan_model::MOST_WORKERS;
use std::marker::Model;

/// A number of workers: 1 to `MOST_WORKERS`.
#[derive(Clone, Copy, Debug, PartialEq, Eq)]
pub struct WorkerCount {
    count: u32,
}

impl Model for WorkerCount {
    ghost use Rattle.std.specs.Prelude.{ℕ, ◌≤◌};
    ghost use Rattle.plan_model.specs.declared.limits.TheConstants.{MOST_WORKERS};

    ghost Value = { ℕ };

    ghost view = { λ workers. workers.count };

    ghost invariant = { λ workers. (1 ≤ workers.count) × (workers.count ≤ MOST_WORKERS) };

    ghost inverse = { λ count. record { count = count } };
}

impl WorkerCount {
    ghost use Rattle.planner.specs.Commands.{number_in};

    /// The number of workers that a word says; `None` if it says none from 1 to `MOST_WORKERS`.
    pub fn in_word(word: &str) -> Option<WorkerCount>
        ensures { result ≡ number_in 1 MOST_WORKERS word.now }
    {
        let count = number_in(word.as_bytes(), 1, MOST_WORKERS)?;
        Some(WorkerCount { count })
    }

    /// The number. O(1).
    pub fn get(self) -> u32
        ensures value { result ≡ self }
        ensures some { 1 ≤ result }
        ensures few { result ≤ MOST_WORKERS }
    {
        self.count
    }
}
