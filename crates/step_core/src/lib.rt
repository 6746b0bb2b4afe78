//! The law of worlds, for passes that step on the words of one run without a lock.
//!
//! What each pass knows is its [`View`], what holds between any two steps is the law of worlds (`specs/Worlds`), and for
//! each kind of step a law says that it keeps it (`world_laws`).
//!
//! The words themselves, the runs that they hold and the walks of their kd-tree are those of `grown_runs`, which are
//! passed on.
#![tactic(auto)]

pub mod seen_laws;
mod views;
pub mod world_laws;

pub use grown_runs::{
    ChildIndex, Grown, KdTree, MeasuredNode, RunWords, Stop, WordPlaces, distance_to_split,
    goes_right, lies_in_goals, pack_best, pack_mark, pack_point, pack_tree, pair_in, point_in,
    read_best, read_mark, read_point, read_tree, walk, word_laws,
};
pub use views::{Hand, Member, SharedRun, Stage, View};
