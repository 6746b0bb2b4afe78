//! The lines of a report, each read with its line feed.

ghost use Rattle.std.specs.Prelude.{◌≡◌, ◌++◌, ◌<◌, ◌≤◌, ◌^◌, ℕ, List, IfNone, IfSome};
ghost use Rattle.plan_model.specs.Geometry.Plane.{IsBounded};
ghost use Rattle.plan_model.specs.declared.geometry.Point.{Point};
ghost use Rattle.plan_model.specs.declared.limits.TheConstants.{MOST_MARKS};
ghost use Rattle.plan_model.specs.declared.trees.Knot.{Knot};
ghost use Rattle.report_judge.specs.Texts.ReportLines.{FitsKnot, line_text, point_field};
ghost use Rattle.report_judge.specs.Texts.ReportLines.ReportLine.{NoPath, NodeLine, PathOf, PathPoint};

use crate::reading::fields::{after, read_field};
use plan_model::{Knot, MOST_COORDINATE, Point};

/// The greatest coordinate of a report.
const MOST_ORDINATE: u64 = MOST_COORDINATE as u64;

/// The greatest cost of a report.
pub(crate) const MOST_COST: u64 = (1 << 44) - 1;

/// What the line of a path says.
#[derive(Clone, Copy)]
pub(crate) struct PathLine {
    /// How many points it has.
    pub points: u64,
    /// What it costs.
    pub cost: u64,
}

/// What the line of a node says.
#[derive(Clone, Copy)]
pub(crate) struct NumberedKnot {
    /// Its number.
    pub number: u32,
    /// The node.
    pub knot: Knot,
}

/// What stands after the line of a report without a path; `None` exactly if the text does not begin with that line. O(1).
pub(crate) fn read_no_path(text: &[u8]) -> Option<&[u8]>
    ensures some { IfSome result (λ rest. text.now ≡ line_text NoPath ++ rest.now) }
    ensures none { IfNone result ((rest : List ℕ) → ¬ (text.now ≡ line_text NoPath ++ rest)) }
{
    after(text, b"no path\n")
}

/// How many points a path has and what it costs, by its line, and what stands after the line; `None` exactly if the text does not begin
/// with such a line. O(n) for n bytes of it.
pub(crate) fn read_path(text: &[u8]) -> Option<(PathLine, &[u8])>
    ensures cost { IfSome result (λ read. read.0.cost < 2 ^ 44) }
    ensures some { IfSome result (λ read. text.now ≡ line_text (PathOf read.0.points read.0.cost) ++ read.1.now) }
    ensures none { IfNone result ((points cost : ℕ) (rest : List ℕ) → points < 2 ^ 64 → cost < 2 ^ 44
        → ¬ (text.now ≡ line_text (PathOf points cost) ++ rest)) }
{
    let (points, rest) = read_field(text, b"path ", b' ', u64::MAX)?;
    let (cost, rest) = read_field(rest, b"cost ", b'\n', MOST_COST)?;
    Some((PathLine { points, cost }, rest))
}

/// A point of a path, and what stands after its line; `None` exactly if the text does not begin with such a line. O(n) for n bytes of it.
pub(crate) fn read_path_point(text: &[u8]) -> Option<(Point, &[u8])>
    ensures some { IfSome result (λ read. IsBounded read.0 × (text.now ≡ line_text (PathPoint read.0) ++ read.1.now)) }
    ensures none { IfNone result ((p : Point) (rest : List ℕ) → IsBounded p → ¬ (text.now ≡ line_text (PathPoint p) ++ rest)) }
{
    let (point, rest) = read_point(text, b"", b'\n')?;
    Some((point, rest))
}

/// A node's number and what its line says, and what stands after the line; `None` exactly if the text does not begin with such a line
/// of a report over so many marks. O(n) for n bytes of it.
pub(crate) fn read_node(text: &[u8], marks: u32) -> Option<(NumberedKnot, &[u8])>
    requires few { marks ≤ MOST_MARKS }
    ensures some { IfSome result (λ read. FitsKnot marks read.0.number read.0.knot
        × (text.now ≡ line_text (NodeLine read.0.number read.0.knot) ++ read.1.now)) }
    ensures none { IfNone result ((n : ℕ) (knot : Knot) (rest : List ℕ) → FitsKnot marks n knot
        → ¬ (text.now ≡ line_text (NodeLine n knot) ++ rest)) }
{
    let last = u64::from(marks);
    let (number, rest) = read_field(text, b"node ", b' ', last)?;
    let (point, rest) = read_point(rest, b"at ", b' ')?;
    let (parent, rest) = read_field(rest, b"parent ", b' ', last)?;
    let (cost, rest) = read_field(rest, b"cost ", b'\n', MOST_COST)?;
    let knot = Knot {
        point,
        parent: parent as u32,
        cost,
    };
    let number = number as u32;
    Some((NumberedKnot { number, knot }, rest))
}

/// A point within bounds, after a known word and before the byte that ends it, and what stands after that byte; `None` exactly if the text
/// does not begin so. The byte is no digit. O(n) for n bytes up to it.
fn read_point<'a>(text: &'a [u8], word: &[u8], end: u8) -> Option<(Point, &'a [u8])>
    requires end { end < 48 }
    ensures some { IfSome result (λ read. IsBounded read.0 × (text.now ≡ point_field word.now read.0 end read.1.now)) }
    ensures only { IfSome result (λ read. (p : Point) (rest : List ℕ) → IsBounded p → text.now ≡ point_field word.now p end rest → read.1.now ≡ rest) }
    ensures none { IfNone result ((p : Point) (rest : List ℕ) → IsBounded p → ¬ (text.now ≡ point_field word.now p end rest)) }
{
    let (x, rest) = read_field(text, word, b' ', MOST_ORDINATE)?;
    let (y, rest) = read_field(rest, b"", end, MOST_ORDINATE)?;
    let point = Point {
        x: x as u32,
        y: y as u32,
    };
    Some((point, rest))
}
