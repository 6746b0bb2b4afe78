//! Numbered points, sorted once into bands, and the walk over all of them within a distance of a point.
//!
//! [`Bands`] has the points of each horizontal band of the plane together, by column, so that those within a [`Disc`] stand in a few
//! stretches of neighbours, one in each band that the disc meets. All points are known before the first walk: nothing is added, so there is
//! no tree to keep, and no input makes a long chain. A walk goes from one stretch to the next ([`Bands::next_stretch`]); it takes no memory, and
//! may be left off at any point.
//!
//! The planner's own searches are in a kd-tree that grows while it is searched; these bands serve questions about a tree at rest.
#![tactic(auto)]

mod band_order;
mod bands;
mod discs;

pub use bands::{Bands, Numbered, Stretch};
pub use discs::Disc;
