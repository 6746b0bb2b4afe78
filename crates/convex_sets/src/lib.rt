//! Convex polygons on the lattice, in exact whole numbers: whether a polygon is strictly convex, and zones, the
//! configuration-space obstacles of a convex body that moves without turning.
//!
//! A zone is the Minkowski sum of an obstacle, the body reflected in its origin, and the square of a clearance. It is
//! made by merging the edges of two polygons at a time in order of angle (de Berg, Cheong, van Kreveld and Overmars,
//! Computational Geometry, 3rd edition, section 13.3).
//!
//! What the contracts give: [`is_convex`] is the definition, every other corner strictly to the left of every edge. The
//! corners of [`Zone::sum`] bound exactly the points at which the body comes as close to the obstacle as the clearance,
//! or closer, in both coordinates. With clearance 0 these are the points at which the two, as closed convex hulls, have
//! a point in common. The corners are strictly convex, and begin at the lowest one, of several at the leftmost.
//! [`Zone::has`] is true exactly for those points.
#![tactic(auto)]

mod bounding_boxes;
mod convexity;
mod half_planes;
mod merging;
mod orientations;
mod outlines;
mod polygon_corners;
mod widening;
mod zones;

pub use bounding_boxes::BoundingBox;
pub use convexity::is_convex;
pub use orientations::orientation;
pub use polygon_corners::{corner_of, next_corner};
pub use zones::Zone;
