//! A collision checker that looks only at the obstacles near a segment. It is a bounding volume hierarchy over the
//! bounding boxes of the zones (configuration-space obstacles), as in Kay and Kajiya, Ray Tracing Complex Scenes,
//! SIGGRAPH 1986. The zones are cut into halves along the wider side of their box until a few are left.
//!
//! ```text
//!     +-----------------+  +--------+
//!     | +---+           |  | +---+  |     The segment's box meets the left box, and in it the box of one zone,
//!     | |   |  +----+   |  | |   |  |     which is tested exactly. It does not meet the right box: all zones in
//!     | +---+  | a..|.. |  | +---+  |     there are skipped at once.
//!     |        +----+ b |  |  +--+  |
//!     +-----------------+  +--------+
//! ```
//!
//! What the contracts give: [`Boxes`] returns what the hall that it is made of returns. [`Boxes::tests`] counts the
//! exact tests: there are no more than zones whose box meets the segment's.
#![tactic(auto)]

mod box_nodes;
mod boxes;
mod descent;
mod leaves;

pub use boxes::Boxes;
