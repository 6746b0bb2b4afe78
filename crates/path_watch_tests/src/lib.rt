//! Tests of `path_watch` by its public calls. They are a crate of their own, so that the library is proved once.
#![tactic(auto)]

#[cfg(test)]
mod steps;
#[cfg(test)]
mod support;
#[cfg(test)]
mod whole_calls;
