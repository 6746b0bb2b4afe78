//! The lines of single nodes.

use crate::settled_runs::support::sure;
use plan_model::{Knot, Memory, Point};
use settle_report::push_node_line;
use std::alloc::Global;
use std::process::Abort;

/// This text with the line of a node behind it.
fn with_line(alloc: Global, text: &str, node: u32, knot: Knot) -> Result<String, Memory> {
    let mut text = String::from_str(alloc, text)?;
    push_node_line(&mut text, node, knot)?;
    Ok(text)
}

/// Asserts what a text is with the line of a node behind it.
fn assert_line<R: Abort>(rt: &R, alloc: Global, text: &str, node: u32, knot: Knot, want: &str) {
    let line = sure(rt, with_line(alloc, text, node, knot));
    assert!(rt; line.as_str() == want, "in place of {want}");
    drop(line);
}

#[test]
fn appends_the_line_of_a_node(rt: HostRuntime) {
    let knot = Knot {
        point: Point { x: 40, y: 79 },
        parent: 3,
        cost: 25_344,
    };
    let want = "node 2 at 40 79 parent 3 cost 25344\n";
    assert_line(&rt, rt.alloc(), "", 2, knot, want);
    let want = "no path\nnode 2 at 40 79 parent 3 cost 25344\n";
    assert_line(&rt, rt.alloc(), "no path\n", 2, knot, want);
}

#[test]
fn writes_the_greatest_numbers(rt: HostRuntime) {
    let knot = Knot {
        point: Point {
            x: u32::MAX,
            y: u32::MAX,
        },
        parent: u32::MAX,
        cost: u64::MAX,
    };
    let want =
        "node 4294967295 at 4294967295 4294967295 parent 4294967295 cost 18446744073709551615\n";
    assert_line(&rt, rt.alloc(), "", u32::MAX, knot, want);
}
