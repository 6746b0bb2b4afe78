//! The columns and the rows of the room of configurations.

ghost use Rattle.std.specs.Prelude.{◌≡◌, ◌↔◌, ◌≤◌, IsTrue, List};
ghost use Rattle.plan_model.specs.Scenes.MarkPoints.{IsInSpan, above_zero, below_zero, reach, span_within, AreSpansOf};
ghost use Rattle.plan_model.specs.declared.limits.TheConstants.{MOST_COORDINATE};

use crate::geometry::{Point, Vertex};

/// Columns or rows of the lattice, one after another: the coordinates from `first` to `first + count - 1`.
#[derive(Clone, Copy, Debug, PartialEq, Eq)]
pub struct Span {
    /// The first coordinate, in lattice steps.
    pub first: u32,
    /// How many coordinates there are; 0 if there is none.
    pub count: u32,
}

impl Span {
    /// The coordinates at which a body that reaches so far back and forth fits between 0 and a side.
    fn within(side: u32, back: u32, forth: u32) -> Span
        requires { side ≤ MOST_COORDINATE }
        ensures { result ≡ span_within side back forth }
    {
        Span {
            first: back,
            count: (side + 1).saturating_sub(back).saturating_sub(forth),
        }
    }

    /// Whether the span has the coordinate; an empty one has none. O(1).
    pub fn contains(self, n: u32) -> bool
        ensures { IsTrue result ↔ IsInSpan self n }
    {
        self.first <= n && n - self.first < self.count
    }
}

/// The columns and the rows of the room of configurations. Its lattice points are those in one of each:
///
/// ```text
/// 5  +-------------+
/// 4  |   . . .     |     a room of 7 by 5, a body that reaches 2 to the left,
/// 3  |   . . .     |     3 to the right, 1 down and 1 up: 3 columns from 2,
/// 2  |   . . .     |     4 rows from 1
/// 1  |   . . .     |
/// 0  +-------------+
///    0 1 2 3 4 5 6 7
/// ```
///
/// If the body does not fit into the room, one of the spans is empty.
#[derive(Clone, Copy, Debug, PartialEq, Eq)]
pub struct RoomSpans {
    /// The columns that the body's origin may stand in.
    pub columns: Span,
    /// The rows that the body's origin may stand in.
    pub rows: Span,
}

impl RoomSpans {
    /// The columns and rows of a body in a room, by the room's upper right corner and the body's corners. No side of the room
    /// is above `MOST_COORDINATE`. O(n) for n corners; no memory.
    pub fn new(room: Point, body: &[Vertex]) -> RoomSpans
        requires right { room.x ≤ MOST_COORDINATE }
        requires top { room.y ≤ MOST_COORDINATE }
        ensures { AreSpansOf room body.now result }
    {
        let reach = Reach::of(body);
        RoomSpans {
            columns: Span::within(room.x, reach.left, reach.right),
            rows: Span::within(room.y, reach.down, reach.up),
        }
    }

    /// Whether the room of configurations has the point. O(1).
    pub fn contains(self, p: Point) -> bool
        ensures { IsTrue result ↔ (IsInSpan self.columns p.x × IsInSpan self.rows p.y) }
    {
        self.columns.contains(p.x) && self.rows.contains(p.y)
    }
}

/// How far corners reach from the origin, 0 if they do not.
#[derive(Clone, Copy)]
struct Reach {
    left: u32,
    right: u32,
    down: u32,
    up: u32,
}

impl Reach {
    /// The reach of these corners.
    fn of(corners: &[Vertex]) -> Reach
        ensures left { result.left ≡ reach (λ v. below_zero v.x) corners.now }
        ensures right { result.right ≡ reach (λ v. above_zero v.x) corners.now }
        ensures down { result.down ≡ reach (λ v. below_zero v.y) corners.now }
        ensures up { result.up ≡ reach (λ v. above_zero v.y) corners.now }
    {
        let mut far = Reach {
            left: 0,
            right: 0,
            down: 0,
            up: 0,
        };
        for corner in corners {
            far.left = far.left.max(below_zero(corner.x));
            far.right = far.right.max(above_zero(corner.x));
            far.down = far.down.max(below_zero(corner.y));
            far.up = far.up.max(above_zero(corner.y));
        }
        far
    }
}

/// How far a coordinate lies below 0.
fn below_zero(coordinate: i32) -> u32
    ensures { result ≡ below_zero coordinate }
{
    if coordinate < 0 {
        coordinate.unsigned_abs()
    } else {
        0
    }
}

/// How far a coordinate lies above 0.
fn above_zero(coordinate: i32) -> u32
    ensures { result ≡ above_zero coordinate }
{
    if coordinate > 0 {
        coordinate.unsigned_abs()
    } else {
        0
    }
}
