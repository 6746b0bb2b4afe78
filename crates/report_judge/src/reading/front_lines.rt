//! The lines of one kind at the front of a text, read as far as they go.

ghost use Rattle.std.specs.Prelude.{◌↔◌, ◌≤◌, IfOk, IsTrue};
ghost use Rattle.plan_model.specs.declared.limits.TheConstants.{MOST_MARKS};
ghost use Rattle.report_judge.specs.Texts.ReportForms.{IsNextNode, ReadsNodes, ReadsPoints, ReadsRecords};

use crate::reading::line_readers::{read_node, read_path_point};
use crate::reading::mark_readers::read_mark;
use plan_model::{Knot, Memory, Point, Record};
use std::alloc::Global;

/// The nodes at the front of a text.
#[derive(Drop)]
pub(crate) struct FrontNodes {
    /// The nodes by number.
    pub knots: Vec<Option<Knot>>,
    /// How many they are.
    pub count: u64,
}

/// The points of a path at the front of a text, at most so many, and what stands after their lines. O(n) for n bytes of them.
///
/// # Errors
///
/// `Memory` if out of memory.
pub(crate) fn read_points(
    alloc: Global,
    text: &[u8],
    most: u64,
) -> Result<(Vec<Point>, &[u8]), Memory>
    ensures { IfOk result (λ read. ReadsPoints most text.now read.0.items read.1.now) }
{
    let mut points = Vec::new(alloc);
    let mut rest = text;
    'points: for _place in 0..most {
        let Some((point, after)) = read_path_point(rest) else {
            return Ok((points, rest));
        };
        points.push(point)?;
        rest = after;
    }
    Ok((points, rest))
}

/// The nodes of a report over so many marks at the front of a text, at most so many, and what stands after their lines. O(n + m) for n
/// bytes of them and m marks.
///
/// # Errors
///
/// `Memory` if out of memory.
pub(crate) fn read_nodes(
    alloc: Global,
    text: &[u8],
    marks: u32,
    most: u64,
) -> Result<(FrontNodes, &[u8]), Memory>
    requires few { marks ≤ MOST_MARKS }
    ensures { IfOk result (λ read. ReadsNodes marks most text.now read.0.knots.items read.0.count read.1.now) }
{
    let mut knots = vec![in alloc; None; marks as usize + 1]?;
    let mut next = 0;
    let mut rest = text;
    for count in 0..most {
        let Some((node, after)) = read_node(rest, marks) else {
            return Ok((FrontNodes { knots, count }, rest));
        };
        if !may_follow(node.number, next) {
            return Ok((FrontNodes { knots, count }, rest));
        }
        knots[node.number as usize] = Some(node.knot);
        next = node.number + 1;
        rest = after;
    }
    let nodes = FrontNodes { knots, count: most };
    Ok((nodes, rest))
}

/// Whether a node may stand after nodes of lesser numbers than the next one's: the start if there is none yet.
fn may_follow(number: u32, next: u32) -> bool
    ensures { IsTrue result ↔ IsNextNode next number }
{
    if next == 0 {
        number == 0
    } else {
        number >= next
    }
}

/// The records of the first marks at the front of a text, and what stands after their lines. O(n) for n bytes of them.
///
/// # Errors
///
/// `Memory` if out of memory.
pub(crate) fn read_records(
    alloc: Global,
    text: &[u8],
    marks: u32,
    informed: bool,
) -> Result<(Vec<Record>, &[u8]), Memory>
    requires few { marks ≤ MOST_MARKS }
    ensures { IfOk result (λ read. ReadsRecords (record { marks = marks; informed = informed }) text.now read.0.items read.1.now) }
{
    let mut records = Vec::new(alloc);
    let mut rest = text;
    for k in 0..marks {
        let Some((entry, after)) = read_mark(rest, k, marks, informed) else {
            return Ok((records, rest));
        };
        records.push(entry)?;
        rest = after;
    }
    Ok((records, rest))
}
