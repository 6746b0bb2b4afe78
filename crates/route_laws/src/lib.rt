//! Laws of routes and of chains of nodes in runs, each the contract of a function that does nothing.
#![tactic(auto)]

pub mod chains;
pub mod clear_discs;
pub mod followed_routes;
pub mod workers_routes;
