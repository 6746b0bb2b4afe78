//! Paths as they come: a session is watched, and each better path is written when it is found.
//!
//! RRT\* (Karaman and Frazzoli, IJRR 2011) is an anytime planner. [`hand_next`] brings a session of `any_time` to its next item, and
//! hands the item's block to a sink: a line with the cost and the marks (samples) so far, the path, and an empty line. The block is
//! made whole, and handed over before the session is polled again; so whoever stops the program has all paths so far, and the last
//! whole block is the best. [`watch_session`] does so until the end, and [`watch`] reads the scene first. [`exit_code`] is what the
//! program `plan_watch` does.
//!
//! A [`Progress`] is told how far the session is. Nothing rests on it.
#![tactic(auto)]

mod blocks;
mod handing;
mod progress;
mod top_call;
mod watch_words;
mod watching;

pub use blocks::{block, end_text};
pub use handing::{Handed, Step, hand_next};
pub use progress::{NoProgress, Progress};
pub use top_call::{exit_code, watch};
pub use watch_words::{Orders, orders_of};
pub use watching::{Ending, watch_session};
