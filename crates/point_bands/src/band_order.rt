//! The order of points in bands, and how far a walk over the points of a disc may skip in it.

ghost use Rattle.std.specs.Prelude.{◌≡◌, ◌+◌, ◌-◌, ◌*◌, ◌/◌, ◌^◌, ◌<◌, ◌≤◌, All, ℕ, length};
ghost use Rattle.std.specs.List.Sorted.{IsNonDecreasingBy};
ghost use Rattle.plan_model.specs.Geometry.Plane.{IsBounded};
ghost use Rattle.point_bands.specs.Walks.{StandsBetween, band_key, lowest_row, HasNoneBetween, IsNextStretch, numbered_at};

use crate::bands::{Numbered, Stretch};
use crate::discs::Disc;
use plan_model::Point;

/// Where a point stands in the order: by the lowest row of its band, and in a band by its column. `rows` is the mask of [`band_rows`].
pub(crate) fn key(point: Point, rows: u64) -> u64
    ensures { (height_log : ℕ) → height_log < 32 → rows ≡ 2 ^ 64 - 2 ^ (32 + height_log)
        → result ≡ lowest_row height_log point.y * 4294967296 + point.x }
{
    (u64::from(point.y) << 32) & rows | u64::from(point.x)
}

/// The mask of the bits of rows that tell bands apart, where a key has them.
pub(crate) fn band_rows(height_log: u32) -> u64
    requires { height_log < 32 }
    ensures { result ≡ 2 ^ 64 - 2 ^ (32 + height_log) }
{
    u64::MAX << (32 + height_log)
}

/// The lowest row of the band of a row.
fn lowest_row(row: u32, height_log: u32) -> u32
    requires { height_log < 32 }
    ensures { result ≡ lowest_row height_log row }
{
    row >> height_log << height_log
}

/// The key of a place: of the column with this number in the band with this lowest row.
fn place(row: u32, column: u32) -> u64
    ensures { result ≡ row * 4294967296 + column }
{
    u64::from(row) << 32 | u64::from(column)
}

/// The binary logarithm of a height of bands at which n points that lie evenly have about twice the root of n in a band. O(n).
pub(crate) fn height_log_for(points: &[Numbered]) -> u32
    ensures { result < 32 }
{
    let mut low = u32::MAX;
    let mut high = 0;
    for numbered in points {
        low = low.min(numbered.point.y);
        high = high.max(numbered.point.y);
    }
    let bands = points.len().isqrt() as u32 / 2 + 1;
    (high.saturating_sub(low) / bands).max(1).ilog2()
}

/// The first stretch, from `from` on; `None` if no point from there on is in the disc.
pub(crate) fn next_stretch(
    points: &[Numbered],
    height_log: u32,
    from: usize,
    disc: Disc,
) -> Option<Stretch>
    requires height { height_log < 32 }
    requires bounded { All (λ n. IsBounded n.point) points.now }
    requires sorted { IsNonDecreasingBy (band_key height_log) points.now }
    ensures { IsNextStretch disc.center disc.square points.now from result }
{
    let mut at = from;
    while at < points.len() {
        let start = skipped(points, height_log, at, disc);
        if start == at {
            let end = end_of_stretch(points, height_log, start, disc.right());
            return Some(Stretch { start, end });
        }
        at = start;
    }
    None
}

/// A position with none of the disc before it, from `at` on: `at` itself exactly if its point is in a band that the disc meets, and in a
/// column between the disc's left and right.
fn skipped(points: &[Numbered], height_log: u32, at: usize, disc: Disc) -> usize
    requires inside { at < length points.now }
    requires height { height_log < 32 }
    requires bounded { All (λ n. IsBounded n.point) points.now }
    requires sorted { IsNonDecreasingBy (band_key height_log) points.now }
    ensures later { at ≤ result }
    ensures within { result ≤ length points.now }
    ensures none { HasNoneBetween disc.center disc.square points.now at result }
    ensures columns { result ≡ at → StandsBetween (disc.center.x - disc.reach) (disc.center.x + disc.reach) points.now at }
{
    let point = points[at].point;
    let here = lowest_row(point.y, height_log);
    if here > disc.top() {
        return points.len();
    }
    let lowest = lowest_row(disc.bottom(), height_log);
    if here < lowest {
        return first_from(points, height_log, at + 1, place(lowest, disc.left()));
    }
    if point.x < disc.left() {
        return first_from(points, height_log, at + 1, place(here, disc.left()));
    }
    if point.x > disc.right() {
        return first_from(
            points,
            height_log,
            at + 1,
            place(here + (1 << height_log), disc.left()),
        );
    }
    at
}

/// The end of a stretch: the first position after `start` whose point is in another band or right of a column.
fn end_of_stretch(points: &[Numbered], height_log: u32, start: usize, right: u32) -> usize
    requires inside { start < length points.now }
    requires height { height_log < 32 }
    requires bounded { All (λ n. IsBounded n.point) points.now }
    requires sorted { IsNonDecreasingBy (band_key height_log) points.now }
    requires column { (numbered_at points.now start).point.x ≤ right }
    ensures some { start < result }
    ensures within { result ≤ length points.now }
    ensures columns { (j : ℕ) → start ≤ j → j < result → StandsBetween (numbered_at points.now start).point.x right points.now j }
{
    let rows = band_rows(height_log);
    let last = place(lowest_row(points[start].point.y, height_log), right);
    let mut end = start + 1;
    while end < points.len() {
        if key(points[end].point, rows) > last {
            return end;
        }
        end += 1;
    }
    end
}

/// The first position, from `from` on, whose key is not below `target`, by halving; the end if there is none. O(log n).
fn first_from(points: &[Numbered], height_log: u32, from: usize, target: u64) -> usize
    requires from { from ≤ length points.now }
    requires height { height_log < 32 }
    requires sorted { IsNonDecreasingBy (band_key height_log) points.now }
    ensures later { from ≤ result }
    ensures within { result ≤ length points.now }
    ensures before { (j : ℕ) → from ≤ j → j < result → band_key height_log (numbered_at points.now j) < target }
{
    let rows = band_rows(height_log);
    let mut low = from;
    let mut count = points.len() - from;
    while count > 0 {
        // halved alike whatever the answer, so that no branch is on a value that was just loaded
        let half = count - count / 2;
        if key(points[low + half - 1].point, rows) < target {
            low += half;
        }
        count /= 2;
    }
    low
}
