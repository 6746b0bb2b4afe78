//! Tests of `seq_planner`: the textbook run, mark by mark.

mod informed;
mod near_nodes;
mod outcomes;
mod rewired_nodes;
mod support;
