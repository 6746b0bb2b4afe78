//! Tests of the public calls of the crates by which workers grow a tree: parents and rewiring, marks and whole runs. They are a crate of
//! their own, so that the libraries are proved once.
#![tactic(auto)]

#[cfg(test)]
mod edges;
#[cfg(test)]
mod rewiring;
#[cfg(test)]
mod workers;
