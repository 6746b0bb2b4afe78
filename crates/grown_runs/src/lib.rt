//! The words of a run: how a point, a parent with its cost, and a record are each packed into 64 bits and read again.
//!
//! This is the only place where the fields of a word are packed; sort keys elsewhere put two numbers into one for comparison
//! alone. Every word that is written has bit 63 set, so 0 is a word that is not written yet. `docs/words.md` has the layout, and `layout` has it as constants. The contracts say
//! what a word is as a number: a sum of products for what is packed, quotients and remainders for what is read.
//!
//! [`Grown`] is a closed run: a task, and a table of such words with the count of nodes, a counter for each strip, the
//! nodes, and a record for each mark. Its type keeps the closed law (`plan_model/specs/Runs/ClosedLaw`), and its nodes
//! are linked to a kd-tree. Only `word_places` knows the order of the words. [`RunWords`] keeps them in one list, and
//! reads and writes them by their names (`specs/Table/WordNames`), as contracts call them. `specs/Runs/GrownWords` says which
//! tree they stand for.
//!
//! [`walk`] follows the way of a point through a [`KdTree`], which is anything that looks up children and points by
//! number: the nodes of a run while it is packed, or a tree to which other workers add.
//!
//! [`ChildIndex`] finds the children of a node for planners that keep parents elsewhere: in words, or in a list.
#![tactic(auto)]

mod best_words;
mod child_index;
mod cleared_words;
mod grown;
mod kd_links;
mod kd_sides;
mod kd_trees;
mod kd_walks;
mod layout;
mod measured_nodes;
mod node_writes;
mod opening_bests;
mod packed_runs;
mod point_words;
mod record_words;
mod run_words;
mod tree_words;
pub mod word_laws;
mod word_places;

pub use best_words::{pack_best, read_best};
pub use child_index::ChildIndex;
pub use grown::Grown;
pub use kd_sides::{distance_to_split, goes_right};
pub use kd_trees::KdTree;
pub use kd_walks::{Stop, walk};
pub use measured_nodes::MeasuredNode;
pub use opening_bests::lies_in_goals;
pub use point_words::{pack_point, point_in, read_point};
pub use record_words::{pack_mark, read_mark};
pub use run_words::RunWords;
pub use tree_words::{pack_tree, pair_in, read_tree};
pub use word_places::WordPlaces;
