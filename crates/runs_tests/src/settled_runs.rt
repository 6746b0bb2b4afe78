//! Tests of `settle_report`: settled runs, their best nodes, and their texts.

mod best;
mod deliver;
mod path_to;
mod push_mark_line;
mod push_node_line;
mod reports;
mod settle;
mod support;
