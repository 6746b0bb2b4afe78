//! The exact collision checker: where a translating convex body is clear of the walls of a room and of convex obstacles,
//! at a point and at every rational point of a segment.
//!
//! A segment is clipped against the zones (configuration-space obstacles) of `convex_sets`, as in Cyrus and Beck,
//! Generalized Two- and Three-Dimensional Clipping, Computers and Graphics 1978, with rational parameters in place of
//! floating ones. The contract of `clear` speaks of every rational point of the segment. `crosses` is the exact test of one
//! zone, for collision checkers that choose themselves which zones to test; it is counted.
#![tactic(auto)]

pub mod clearance_laws;
mod clearing;
mod clipping;
mod exact_tests;
mod fractions;
mod hall;
mod steps;
mod zone_crossings;

pub use clearing::Clearing;
pub use exact_tests::crosses;
pub use hall::Hall;
pub use steps::Steps;
