//! Tests of the public calls of the crates that grow runs by `plan_work`: sessions, batches and twin trees. They are a crate of their own, so
//! that the libraries are proved once.
#![tactic(auto)]

#[cfg(test)]
mod better_paths;
#[cfg(test)]
mod two_trees;
