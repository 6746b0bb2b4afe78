//! The anytime planner: sessions that grow a run slice by slice, and give each better path as it comes.
//!
//! A [`Session`] is a stream of `futures` that its caller polls. A poll handles the next marks (samples), by the workers of
//! `plan_work`, and settles the run. If the cheapest path into a goal is cheaper than the last one that was given, or is the
//! first, the poll gives it as a [`Better`]; else it asks to be polled again. Costs of the paths that are given fall, and each is
//! the best path of the whole run so far: law [`items_fall`]. [`Session::finish`] hands out the run, at the end or before it.
//!
//! A [`Batch`] polls several sessions in turn, and gives each path with the number of its session: those of one number are those of
//! its session, in their order, to its end (law [`items_are_of_sessions`]).
//!
//! A session is a stream over each collision checker in which runs can grow: [`Growing`].
#![tactic(auto)]

mod batch_gathering;
mod batch_reports;
mod batches;
mod better_reports;
mod betters;
mod gathering;
mod growing;
mod laws;
mod lists;
mod sessions;

pub use batch_gathering::{FinishedBatch, finish_batch};
pub use batch_reports::{BatchReport, batch_report};
pub use batches::{Batch, MOST_SESSIONS};
pub use better_reports::better_report;
pub use betters::{Better, Last};
pub use gathering::{FinishedSession, finish_session};
pub use growing::{Growing, grow_slice};
pub use laws::{items_are_of_sessions, items_fall, one_worker_gives_textbook_items};
pub use lists::{BetterLists, Betters, Growns};
pub use sessions::Session;
