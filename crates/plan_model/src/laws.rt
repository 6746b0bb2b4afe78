//! Laws of the definitions, each the contract of a function that does nothing.

pub mod clearance;
pub mod closed_runs;
pub mod converted_scenes;
pub mod costs;
pub mod goal_bounds;
pub mod marks;
pub mod paths;
pub mod radii;
pub mod reports;
pub mod runs;
pub mod scene_batches;
pub mod scene_texts;
pub mod scenes;
pub mod seen_trees;
pub mod settled_runs;
pub mod steered_points;
pub mod trees;
pub mod ways;
