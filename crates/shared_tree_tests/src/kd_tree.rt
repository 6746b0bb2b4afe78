//! Tests of `kd_shared`: searches and places in a kd-tree to which others add.

mod place;
mod place_by_threads;
mod scans;
mod searches;
mod support;
