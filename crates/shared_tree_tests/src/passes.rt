//! Tests of `plan_words`: passes over one table, in one thread and in several.

mod bests;
mod claim;
mod claim_by_threads;
mod end;
mod join;
mod link;
mod support;
