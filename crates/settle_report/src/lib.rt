//! What is said of a closed run: its costs settled, its best node, and its report as text.
//!
//! The cost-to-come of a node is what the edges from the start to it cost together. A run keeps a cost for each node,
//! which is at least that: if a node gets a cheaper parent, its own kept cost falls at once, but those of its
//! descendants may stay behind. [`settle`] makes each kept cost the cost-to-come, and the calls that speak of costs
//! take a run that is settled.
//!
//! [`best`] is the cheapest node in a goal, and [`path_to`] gives the points from the start to a node. [`report`] is
//! the text, short or full, and [`report_along`] the short one along another path; the calls that begin with `push`
//! append one line of it, or those of a path's points. [`deliver`] writes a text to a sink.
//!
//! Each takes time that is linear in the run and its text.
#![tactic(auto)]

mod best_node;
mod delivery;
mod mark_lines;
mod node_lines;
mod outcome_counts;
mod paths;
mod reports;
mod settling;

pub use best_node::best;
pub use delivery::deliver;
pub use mark_lines::push_mark_line;
pub use node_lines::push_node_line;
pub use outcome_counts::OutcomeCounts;
pub use paths::{path_back, path_to};
pub use reports::{
    push_counts_line, push_path_line, push_point_lines, report, report_along, report_by_best,
    summary, summary_by_best,
};
pub use settling::settle;
