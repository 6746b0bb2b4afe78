//! Tests of `any_time`: sessions and batches that are polled by hand, and what they give for slices of each size.

mod batches;
mod finished;
mod held_workers;
mod sessions;
