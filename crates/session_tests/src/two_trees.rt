//! Tests of `twin_trees`: two trees with a bridge, and their report.

mod twins;
mod workers;
