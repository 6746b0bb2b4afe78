//! The cheapest parent of a new node, and costs that fall, in a tree that several workers grow at the same time.
//!
//! It is RRT* as Karaman and Frazzoli have it (Sampling-based Algorithms for Optimal Motion Planning, IJRR 2011), over
//! the words of `plan_words`. [`choose`] finds the near node through which a new one has the least cost-to-come.
//! [`rewire`] makes the new node the parent of each near node that is then cheaper, and [`spread`] lowers the nodes of
//! its subtree. The first two go by the near list of the pass; [`choose_found`] and [`rewire_found`] do the same by what
//! its last search found, in whatever order. Each two are one body over a list of near nodes.
//!
//! Other workers lower costs meanwhile, so each promise is about costs as the pass has seen them last. It does no harm
//! if a parent is cheaper than it was seen to be: a node then costs more than through it, and never less.
//!
//! No call takes memory or waits. The share, limit and hand of the pass stay, and so do its lists of found nodes.
#![tactic(auto)]

mod choosing;
pub mod fall_laws;
mod near_nodes;
mod open_words;
mod rewiring;
mod seen_costs;
mod spreading;

pub use choosing::{choose, choose_found};
pub use rewiring::{rewire, rewire_found};
pub use spreading::spread;
