//! The marks (the samples) of a scene: listed ones as they stand, drawn ones from the strips of the room of configurations.
//!
//! Mark `k` belongs to strip `k` modulo the number of strips, and is drawn by a SplitMix64 (Steele, Lea and Flood, Fast
//! Splittable Pseudorandom Number Generators, OOPSLA 2014) of its own, whose state is the seed plus `k`. So a mark does not
//! depend on the marks before it, and a longer plan of the same scene begins with the same marks.
//!
//! What the contracts give: [`marks`] are the mark points of the scene by their definition, and [`quota`] is the number of
//! marks of a strip below a limit. [`drawn_words`] are the words that a mark is drawn by, for whatever else is drawn so.
#![tactic(auto)]

mod draws;
mod mark_points;
mod quotas;
mod strips;

pub use draws::drawn_words;
pub use mark_points::marks;
pub use quotas::quota;
