//! Tests of `swept_check`: the exact collision checker.

mod clearances;
mod crosses;
mod hall;
mod support;
