//! What becomes of marks: steering, and each outcome.

use crate::textbook::support::assert_run;
use plan_model::{Memory, Outcome, Point};

#[test]
fn leaves_the_start_alone_without_marks(rt: HostRuntime) -> Result<(), Memory> {
    assert_run(&rt, rt.alloc(), 0, &[], &[Some((0, 0, 0, 0))], &[])
}

#[test]
fn handles_five_marks(rt: HostRuntime) -> Result<(), Memory> {
    // the fourth mark leads to the third node again, the fifth out of the room
    let marks = [
        Point { x: 60, y: 80 },
        Point { x: 70, y: 70 },
        Point { x: 60, y: 80 },
        Point { x: 60, y: 80 },
        Point { x: 150, y: 80 },
    ];
    let nodes = [
        Some((0, 0, 0, 0)),
        Some((30, 40, 0, 12_800)),
        Some((70, 70, 1, 25_600)),
        Some((60, 80, 2, 29_221)),
        None,
        None,
    ];
    let records = [
        (0, 0, Outcome::Placed, 0, 12_800, 1),
        (1, 1, Outcome::Placed, 1, 25_600, 2),
        (2, 2, Outcome::Placed, 2, 29_221, 2),
        (3, 3, Outcome::Same(3), 0, 0, 0),
        (4, 2, Outcome::Blocked, 0, 0, 0),
    ];
    assert_run(&rt, rt.alloc(), 0, &marks, &nodes, &records)
}
