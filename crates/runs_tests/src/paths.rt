//! Tests of `path_tools`: smoothed paths, and verdicts on reports.

mod check;
mod smooth;
mod support;
