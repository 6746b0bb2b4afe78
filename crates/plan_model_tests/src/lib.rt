//! Tests of the public calls of `plan_model`, and worked examples of its definitions and of those of `route_laws`, in a crate of their
//! own, so that the libraries are proved once.
#![tactic(auto)]

#[cfg(test)]
mod lists;
#[cfg(test)]
mod memory_streams;
#[cfg(test)]
mod routes;
#[cfg(test)]
mod small_scenes;
#[cfg(test)]
mod spans;
#[cfg(test)]
mod vectors;
