//! The model of the planner: the types that all crates share, and in `specs/` the definitions that every contract
//! cites. RRT* is that of Karaman and Frazzoli, Sampling-based Algorithms for Optimal Motion Planning, IJRR 2011.
//!
//! What the contracts give: laws over the definitions (`laws`), such as that each text spells one scene or has one
//! first fault, that a scene has one textbook run with one report, and that each edge of a path of a closed run is
//! clear. Sources and sinks in memory move exactly the bytes that they say.
#![tactic(auto)]

mod configuration_spaces;
mod errors;
mod geometry;
pub mod laws;
mod limits;
mod lists;
mod mark_numbers;
mod memory_streams;
mod number_words;
mod records;
mod scenes;
mod sinks;
mod small_scenes;
mod sources;
mod spans;
mod tasks;
mod text_lines;
mod text_terms;
mod trees;

pub use configuration_spaces::ConfigurationSpace;
pub use errors::{Failed, Memory};
pub use geometry::{Goal, Point, Vertex};
pub use limits::{
    LEAST_BODY_COORDINATE, LEAST_CORNER_COORDINATE, LEAST_CORNERS, LEAST_OBSTACLE_COORDINATE,
    LEAST_OBSTACLE_COORDINATE_OF_VERSION_2, LEAST_SIDE, LEAST_STEP, LEAST_STRIPS,
    LEAST_SUMMAND_COORDINATE, MOST_BODY_COORDINATE, MOST_BODY_CORNERS, MOST_CLEARANCE,
    MOST_COORDINATE, MOST_CORNER_COORDINATE, MOST_GAMMA, MOST_GOALS, MOST_MARKS, MOST_NODES,
    MOST_OBSTACLE_COORDINATE, MOST_OBSTACLE_COORDINATE_OF_VERSION_2, MOST_OBSTACLE_CORNERS,
    MOST_OBSTACLES, MOST_SCENES, MOST_SEED, MOST_SIDE, MOST_SIDE_OF_VERSION_2, MOST_STEERING_STEP,
    MOST_STEP, MOST_STEP_OF_VERSION_2, MOST_STRIPS, MOST_SUMMAND_COORDINATE, MOST_TEXT_BYTES,
    MOST_WORKERS,
};
pub use lists::Sequence;
pub use mark_numbers::{mark_of, strip_of_mark};
pub use memory_streams::{MemSink, MemSource, SureSource};
pub use number_words::{NumberRange, integer, is_number, natural};
pub use records::{Outcome, Record, Records};
pub use scenes::{Goals, Marks, Points, Poly, Polys, Scene};
pub use sinks::Sink;
pub use small_scenes::SmallScene;
pub use sources::Source;
pub use spans::{RoomSpans, Span};
pub use tasks::Task;
pub use text_lines::{next_line, next_word};
pub use text_terms::{Key, Kind};
pub use trees::{Knot, Knots, Twig};
