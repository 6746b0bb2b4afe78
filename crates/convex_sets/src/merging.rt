//! The Minkowski sum of two convex polygons, by merging their edges in order of angle.

ghost use Rattle.std.specs.Prelude.{◌≡◌, ◌+◌, ◌<◌, ◌≤◌, ◌⊎◌, IfOk, length};
ghost use Rattle.convex_sets.specs.Boxes.{AreBoundedCorners};
ghost use Rattle.convex_sets.specs.Outlines.{IsMerged, IsOutline, IsMergeStep};

use crate::orientations::{cross, edge};
use plan_model::{Memory, Vertex};
use std::alloc::Global;

/// A corner of each of two outlines, by its index.
#[derive(Clone, Copy)]
struct CornerPair {
    first: usize,
    second: usize,
}

/// The corners of the sum of two outlines. O(n + m).
pub(crate) fn merged(alloc: Global, a: &[Vertex], b: &[Vertex]) -> Result<Vec<Vertex>, Memory>
    requires first { IsOutline a.now }
    requires second { IsOutline b.now }
    requires polygon { 4 ≤ length a.now }
    requires first_bounded { AreBoundedCorners a.now }
    requires second_bounded { AreBoundedCorners b.now }
    ensures { IfOk result (λ v. IsMerged a.now b.now v.items) }
{
    let mut corners = Vec::new(alloc);
    let mut reached = CornerPair {
        first: 0,
        second: 0,
    };
    while reached.first + 1 < a.len() || reached.second + 1 < b.len() {
        corners.push(Vertex {
            x: a[reached.first].x + b[reached.second].x,
            y: a[reached.first].y + b[reached.second].y,
        })?;
        reached = merge_step(a, b, reached);
    }
    Ok(corners)
}

/// The corners after the edge that comes next in order of angle. Two parallel edges are one edge of the sum.
fn merge_step(a: &[Vertex], b: &[Vertex], reached: CornerPair) -> CornerPair
    requires first { reached.first < length a.now }
    requires second { reached.second < length b.now }
    requires more { (reached.first + 1 < length a.now) ⊎ (reached.second + 1 < length b.now) }
    requires first_bounded { AreBoundedCorners a.now }
    requires second_bounded { AreBoundedCorners b.now }
    ensures { IsMergeStep a.now b.now reached.first reached.second result.first result.second }
{
    let CornerPair { first, second } = reached;
    let after_first = CornerPair {
        first: first + 1,
        second,
    };
    let after_second = CornerPair {
        first,
        second: second + 1,
    };
    let after_both = CornerPair {
        first: first + 1,
        second: second + 1,
    };
    if second + 1 == b.len() {
        return after_first;
    }
    if first + 1 == a.len() {
        return after_second;
    }
    let turn = cross(edge(a[first], a[first + 1]), edge(b[second], b[second + 1]));
    if turn > 0 {
        after_first
    } else if turn < 0 {
        after_second
    } else {
        after_both
    }
}
