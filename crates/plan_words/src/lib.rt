//! The words of a shared run in one table, and the steps that its passes make on them. Each step is one load, store or
//! exchange of one word, and nothing is locked.
//!
//! [`Shared`] is the table. A [`Pass`] is one worker's handle on it, or that of several workers after a join; a pass of
//! no worker only looks. What a pass has seen and has in hand is its view, and contracts speak of views alone. The law
//! of worlds (`step_core/specs/Worlds`) is the rule of the table: it holds between any two steps, whichever passes make
//! them and in whichever order.
//!
//! A mark is handled by [`Shared::claim`], which puts it into the hand of one pass, and [`Shared::finish`], which
//! stores its record. So each mark below the counters is either recorded or in one hand.
//!
//! Between the two a pass grows the tree as in PRRT* (Ichnowski and Alterovitz, IROS 2012). [`Shared::write_point`]
//! writes where the node of the mark is to stand, [`Shared::write_tree`] its parent and its cost, and [`Shared::link`]
//! makes it the child of another node in one kd-tree (Bentley, CACM 1975), where other passes find it by
//! [`Shared::child`] and [`Shared::point`]. A link needs that the way of the point leads to its place over what the
//! pass has seen. A pass that comes second is told the child that came first. Later, a pass that knows a cheaper parent
//! lowers the cost by [`Shared::lower`]. One word holds parent and cost, so no other pass sees one without the other,
//! and no cost ever rises.
//!
//! [`Shared::join`] makes one pass of two. When one has taken over all others and no mark is left, [`Shared::end`] gives
//! the closed run. A pass that works no more may give back its lists first, by [`Pass::retire`];
//! [`Shared::join_retired`] and [`Shared::end_retired`] are `join` and `end` of what is left of it.
//!
//! A pass remembers the tree words that it has seen, with an index from each node to its children by these words. So
//! [`Shared::lower_children`] brings a lowered cost to the children of its node. Children whose cost fell wait on a
//! list for the same; [`Pass::queue_parent`] and [`Pass::pop_waiting`] handle that list, and are no steps on the table.
#![tactic(auto)]

mod bests;
pub mod claim_laws;
mod claims;
mod ends;
mod lowered_children;
mod nodes;
mod openings;
mod parent_steps;
mod passes;
mod retired;
mod rules;
mod scratch;
mod search_store;
mod seats;
mod seen_pairs;
mod shared;
mod spots;
mod starts;
mod waiting;

pub use passes::Pass;
pub use retired::Retired;
pub use shared::Shared;
pub use spots::{Found, Spot};
