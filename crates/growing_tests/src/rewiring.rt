//! Tests of `tree_rewire`: parents, rewired nodes and lowered costs, in one thread and in several.

mod rewire;
mod spread;
mod spread_by_threads;
mod spread_informed;
mod support;
