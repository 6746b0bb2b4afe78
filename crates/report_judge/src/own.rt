//! What a worker knows of its own: its marks, its nodes, and searches among them.

pub(crate) mod own_histories;
pub(crate) mod own_marks;
pub(crate) mod own_nodes;
pub(crate) mod own_turns;
pub(crate) mod searches;
pub(crate) mod seen_nodes;
pub(crate) mod standings;
