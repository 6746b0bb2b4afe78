//! The planner for callers in C, C++, Python or Rust: a static library, whose header is `bindings/include/kimorefo.h`.
//!
//! A call plans or checks in the thread of its caller, by one worker, and nothing is kept between calls. It answers what the program
//! answers to the same bytes, which the clauses say by the definitions of `planner`, but that a report may be longer. Nothing checks
//! that a caller passes what a call asks for: the header says what that is.
#![tactic(auto)]

mod answers;
mod exports;
mod rooms;
#[cfg(test)]
mod tests;
mod told_causes;

pub use exports::{
    kimorefo_check, kimorefo_logic, kimorefo_plan, kimorefo_smooth, kimorefo_version,
};
