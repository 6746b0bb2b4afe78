//! Tests of `grown_runs`: runs and their words, packed and read back.

mod grown;
mod point_words;
mod record_words;
mod tree_words;
