//! Tests of `obstacle_boxes`: the collision checker with a tree of boxes.

mod clear;
mod support;
mod tests;
