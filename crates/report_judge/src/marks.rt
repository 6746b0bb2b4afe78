//! The marks of a report, by the laws of turns, presence and records.

pub(crate) mod judged;
pub(crate) mod lawful_marks;
pub(crate) mod lawful_records;
pub(crate) mod placed_marks;
pub(crate) mod presence;
pub(crate) mod turns;
