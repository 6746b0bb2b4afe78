//! The judge of full reports, of whatever planner.
//!
//! [`check`] says whether bytes are the report of a lawful run, or else the least law that is broken, and the first line that breaks it.
#![tactic(auto)]

mod costed_paths;
mod first_breaks;
mod heads;
mod marks;
mod own;
mod reading;
mod repeats;
pub mod report_cut_laws;
mod report_cuts;
pub mod report_laws;
mod tallies;
mod trees;
mod verdicts;

pub use report_cuts::cut_at_report;
pub use verdicts::{Verdict, check, check_with};
