//! Tests of the public calls of the crates between `plan_model` and the planners: polygons and zones, the collision checkers, and the texts
//! of scenes. They are a crate of their own, so that the libraries are proved once.
#![tactic(auto)]

#[cfg(test)]
mod box_checks;
#[cfg(test)]
mod exact_checks;
#[cfg(test)]
mod shapes;
#[cfg(test)]
mod texts;
