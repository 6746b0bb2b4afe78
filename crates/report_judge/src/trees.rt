//! The nodes of a report, as a tree.

pub(crate) mod best_paths;
pub(crate) mod exact_edges;
pub(crate) mod hanging;
pub(crate) mod nodes;
