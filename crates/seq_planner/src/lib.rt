//! The textbook planner: RRT* of Karaman and Frazzoli (Sampling-based Algorithms for Optimal Motion Planning, IJRR
//! 2011, algorithm 6) over the marks (the samples) in rising number, one after another.
//!
//! The search tree is plain lists by number: nodes with an index of their children, and costs-to-come. Nearest and near nodes
//! are found by scans over the points of the nodes that are present. A new node gets the best parent of the nearest node and
//! the near ones; near nodes that are strictly cheaper through it are rewired, and their lowered costs reach their
//! descendants by the index of children. After the last mark the nodes with their costs and the records are packed as a
//! closed run. In an informed scene a mark is skipped if the best goal node costs no more than the bound of the mark; the goal
//! nodes are listed as they are placed. The contract of [`textbook`] says that its tree and its records are those of the textbook run
//! over these marks. Which edges are clear it asks of a collision checker that stands for the scene.
#![tactic(auto)]

mod cost_spreading;
mod extensions;
mod goal_nodes;
mod linked_tree;
mod nearest_nodes;
mod parent_choice;
mod placed_points;
mod search_tree;
mod textbook_planner;
mod tree_rewiring;

pub use textbook_planner::textbook;
