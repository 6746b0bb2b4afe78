//! What is made of a path or a report once a run is planned.
//!
//! [`smooth`] takes a path over those of its points that make it cheapest. [`check`] and what belongs to it are those of `report_judge`.
#![tactic(auto)]

mod rests;
mod smoothed_reports;
mod smoothing;
pub mod smoothing_laws;

pub use report_judge::{Verdict, check, check_with, cut_at_report, report_cut_laws, report_laws};
pub use smoothed_reports::smoothed_report;
pub use smoothing::smooth;
