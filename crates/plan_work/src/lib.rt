//! The planner with several workers, which grow one tree: PRRT* (Ichnowski and Alterovitz, Parallel Sampling-Based
//! Motion Planning with Superlinear Speedup, IROS 2012). Each worker handles one mark (sample) after another until none
//! is left, and none waits for another: the tree is a table of words that are loaded, stored and exchanged one at a
//! time (`plan_words`).
//!
//! [`extend`] handles a mark as RRT* does (Karaman and Frazzoli, Sampling-based Algorithms for Optimal Motion Planning,
//! IJRR 2011), in a tree that other workers grow meanwhile: nearest node, steering, the test of the segment, the
//! cheapest parent among the near nodes, and rewiring, which also lowers the descendants that are seen. [`work`] is one
//! worker. [`grow`] runs as many as you ask for, each in a thread of its own, and [`grow_alone`] one in the thread of its
//! caller. A [`Gate`] is told when a worker begins a mark and when it has finished it, so that a test can order the workers.
//!
//! What each call promises holds however the steps of other workers fall between its own. The promises are about what
//! the pass of the call has seen: what other workers do at the same time may be seen at once, or at a later load.
#![tactic(auto)]

mod extending;
pub mod extension_laws;
mod gates;
mod growing;
mod growing_alone;
mod mark_placing;
mod mark_skipping;
mod mark_steering;
pub mod placed_laws;
mod recording;
mod working;

pub use extending::extend;
pub use gates::{Gate, NoGate};
pub use growing::grow;
pub use growing_alone::grow_alone;
pub use working::work;
