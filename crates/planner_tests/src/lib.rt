//! Tests of `planner` by its public calls. They are a crate of their own, so that the library is proved once.
#![tactic(auto)]

#[cfg(test)]
mod command_line;
#[cfg(test)]
mod refusals;
#[cfg(test)]
mod standard_streams;
#[cfg(test)]
mod support;
#[cfg(test)]
mod whole_calls;
