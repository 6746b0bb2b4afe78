//! Tests of the public calls of the crates that make and tell of runs and stand on nothing that workers share: runs in words, the textbook
//! planner, reports and smoothing. They are a crate of their own, so that the libraries are proved once.
#![tactic(auto)]

#[cfg(test)]
mod packed_runs;
#[cfg(test)]
mod paths;
#[cfg(test)]
mod settled_runs;
#[cfg(test)]
mod textbook;
#[cfg(test)]
mod vectors;
