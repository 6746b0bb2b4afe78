//! The columns and the rows of rooms, for bodies that fit into them or not.

use plan_model::{Point, RoomSpans, Span, Vertex};
use std::test::Fail;

#[test]
fn body_keeps_from_the_walls(rt: HostRuntime) -> Result<(), Fail> {
    let spans = RoomSpans::new(
        Point { x: 7, y: 5 },
        &[
            Vertex { x: -2, y: -1 },
            Vertex { x: 3, y: -1 },
            Vertex { x: 0, y: 1 },
        ],
    );
    assert_eq!(rt; spans.columns, Span { first: 2, count: 3 });
    assert_eq!(rt; spans.rows, Span { first: 1, count: 4 });
    assert!(rt; spans.contains(Point { x: 4, y: 4 }));
    assert!(rt; !spans.contains(Point { x: 5, y: 4 }));
    assert!(rt; !spans.contains(Point { x: 4, y: 0 }));
    Ok(())
}

#[test]
fn great_body_has_no_column(rt: HostRuntime) -> Result<(), Fail> {
    let spans = RoomSpans::new(Point { x: 7, y: 5 }, &[Vertex { x: 8, y: 0 }]);
    assert_eq!(rt; spans.columns, Span { first: 0, count: 0 });
    assert!(rt; !spans.columns.contains(0));
    Ok(())
}
