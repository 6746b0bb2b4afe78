//! Searches of a kd-tree that several workers grow at the same time, and the placing of new nodes in it.
//!
//! The tree is that of Bentley (CACM 1975): a node at even depth splits the nodes below it by column, one at odd depth
//! by row, and equal coordinates go right. It is shared as in PRRT* (Ichnowski and Alterovitz, IROS 2012): links are
//! only added, each by one exchange of an empty word. So no search waits, and none has to start again.
//!
//! ```text
//! depth 0             (50,40)              x < 50 | 50 ≤ x
//! depth 1       (20,70)    (80,40)         y < 70 | 70 ≤ y  ..  y < 40 | 40 ≤ y
//! depth 2   (30,10)            (50,90)
//! ```
//!
//! Other workers add nodes during a call. So each promise speaks of the nodes that the pass has seen with their points,
//! at entry and at return (`plan_model/specs/Seen/Sights`). A point is swept if a node is seen there, or if the way of
//! the point led to a place that this call found empty; the point was then free at some moment of the call (law
//! `swept_points_were_free` of `step_core`). [`find`] sweeps one point, [`nearest`] all points that are at most as far
//! as its answer, [`near`] and [`around`] all points within the radius. What they find are nodes, seen with their
//! points.
//!
//! [`place`] links the node in hand at the end of the way of its point, or tells which node stands at that very point.
//! If two workers come to one place, the second goes on below the node of the first.
//!
//! A pass with the share of all workers has seen all nodes as they are. A search shows it nothing new, so the promise
//! is then about all nodes; [`place`] shows it only the node that it links.
//!
//! No call takes memory or waits, and each visits a node at most once. The share, worker, records, limit and hand of
//! the pass stay as they are, except that `place` changes the stage of the hand. Distances are squared, in square
//! lattice steps.
#![tactic(auto)]

mod near_search;
mod nearest_search;
mod placing;
mod point_search;
pub mod search_laws;
mod shared_looks;
mod squares;
mod word_walks;

pub use near_search::{around, gather, near};
pub use nearest_search::nearest;
pub use placing::{Placing, place};
pub use point_search::find;
