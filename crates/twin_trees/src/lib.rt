//! Two trees of a scene, from its start and from the middle of its first goal, joined by the cheapest bridge.
//!
//! Bidirectional search with RRT trees is that of Kuffner and LaValle, RRT-Connect, ICRA 2000, and with RRT* of Akgun and Stilman, IROS
//! 2011; there the trees grow towards each other. Here each is a whole run of RRT* by workers, over the same marks, and the two are
//! joined once both are settled: by the clear segment of at most a step between a node of each over which the way costs least.
#![tactic(auto)]

pub mod bridge_laws;
mod bridges;
mod bridging;
mod growing;
mod nodes;
mod reports;
mod turned_scenes;
mod twin_runs;

pub use growing::twin;
pub use reports::twin_report;
pub use twin_runs::{Twin, TwinFault};
