//! The parts of RRT* (Karaman and Frazzoli, Sampling-based Algorithms for Optimal Motion Planning, IJRR 2011)
//! that need no obstacles, in whole numbers: what an edge of the tree costs, which of two nodes is the better parent,
//! whether a node costs less through another, how a node steers towards a mark, the class of a number of nodes, the
//! rewiring radius of each class, and what a path over a point costs at least, the heuristic of Informed RRT* (Gammell,
//! Srinivasa and Barfoot, IROS 2014).
//!
//! Each function returns exactly what the definitions of `plan_model` say, for all points whose distances fit
//! 64 bits. An edge that is steered is no longer than the step.
#![tactic(auto)]

ghost use Rattle.std.specs.Prelude.{◌≡◌};
ghost use Rattle.plan_model.specs.Geometry.Plane.{IsBounded};

mod bounds;
mod classes;
mod cost_bounds;
mod costs;
mod parents;
mod radii;
mod roots;
mod steering;

pub use bounds::bound;
pub use classes::class;
pub use cost_bounds::costs_less_through;
pub use costs::{cost, cost_of_square};
pub use parents::Parent;
pub use radii::Radii;
pub use steering::steer;

/// A point of a test's table.
#[cfg(test)]
fn bounded(coordinates: (u16, u16)) -> plan_model::Point
    ensures { IsBounded result }
{
    plan_model::Point {
        x: u32::from(coordinates.0),
        y: u32::from(coordinates.1),
    }
}
