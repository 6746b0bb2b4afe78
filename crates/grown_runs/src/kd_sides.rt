//! The two sides of a node in a kd-tree (Bentley, CACM 1975): a node at even depth splits what is below it by column, one at odd depth
//! by row, and equal coordinates go right.

ghost use Rattle.std.specs.Prelude.{◌≡◌};
ghost use Rattle.grown_runs.specs.Ways.KdLinks.{goes_right_by, split_distance};

use plan_model::Point;

/// Whether a point belongs to the right of a node at `here`: to the left only if its row, or its column, is lesser. O(1).
#[inline]
pub fn goes_right(by_rows: bool, here: Point, p: Point) -> bool
    ensures { result ≡ goes_right_by by_rows here p }
{
    if by_rows {
        p.y >= here.y
    } else {
        p.x >= here.x
    }
}

/// How far a point is from the line through `here` that splits its children, in lattice steps. All points beyond are at least as
/// far. O(1).
#[inline]
pub fn distance_to_split(by_rows: bool, here: Point, p: Point) -> u32
    ensures { result ≡ split_distance by_rows here p }
{
    if by_rows {
        here.y.abs_diff(p.y)
    } else {
        here.x.abs_diff(p.x)
    }
}
