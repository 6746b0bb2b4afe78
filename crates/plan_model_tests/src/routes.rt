//! Worked examples of the definitions of `route_laws`, each the contract of a function that does nothing.

mod chains;
mod followed_routes;
