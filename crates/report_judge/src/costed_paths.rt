//! Paths with their costs.

use plan_model::Point;

/// A path with its cost.
#[derive(Drop)]
pub(crate) struct CostedPath {
    /// Its points, in order.
    pub points: Vec<Point>,
    /// What it costs, in 256ths of a lattice step.
    pub cost: u64,
}
