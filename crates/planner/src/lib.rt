//! Kimorefo: plans a scene by RRT* (Karaman and Frazzoli, Sampling-based Algorithms for Optimal Motion Planning, IJRR
//! 2011). The program `planner_main` reads a scene from standard input, does what the words of the command line ask for,
//! and writes the text of its answer to standard output.
//!
//! Everything is done by `run`, over any source and any sink. Its contract says what each status means:
//!
//! - A success writes the text that the command asks for. A report tells of the textbook run of the scene that the bytes
//!   spell, of a lawful run that workers have grown for that scene, or of the textbook run of a generated scene, and `run`
//!   hands out that run with the status, and with `anytime W S` its better paths; with `batch W S` a run and its better
//!   paths for each scene, and with `twin W` both runs. `show`, `convert` and `gen` write the canonical text of a scene,
//!   and `check` the verdict on a report.
//! - Each refusal has its cause.
//! - The bytes decide which status comes, if no read or write fails and memory lasts.
//!
//! The exit code is that of `exit_code`.
#![tactic(auto)]

mod answers;
mod batches;
mod checking;
mod command_line;
mod commands;
mod generated_scenes;
mod number_words;
mod problems;
mod read_laws;
mod refusals;
mod short_lines;
mod standard_streams;
pub mod statuses;
mod top_call;
mod worker_counts;

pub use answers::{Answer, report_of, smoothed_report_of};
pub use checking::problem_in;
pub use command_line::{exit_code, words_after_name};
pub use generated_scenes::{MOST_GENERATED, gen_scene};
pub use number_words::slice_in;
pub use problems::Problem;
pub use refusals::Refusal;
pub use standard_streams::{StdSink, StdSource};
pub use top_call::{Done, run, run_without_waiting};
pub use worker_counts::WorkerCount;
