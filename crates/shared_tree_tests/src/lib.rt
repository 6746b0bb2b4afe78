//! Tests of the public calls of the crates of the shared tree: the law of worlds, the words of a run in one table, and the kd-tree. They are
//! a crate of their own, so that the libraries are proved once.
#![tactic(auto)]

#[cfg(test)]
mod kd_tree;
#[cfg(test)]
mod passes;
#[cfg(test)]
mod support;
#[cfg(test)]
mod worlds;
