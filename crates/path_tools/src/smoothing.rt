//! Path smoothing: the cheapest way over some of the points of a path.

ghost use Rattle.std.specs.Prelude.{◌≡◌, suc, ◌<◌, ◌≤◌, length, IfOk};
ghost use Rattle.plan_model.specs.Spaces.Clearance.{IsClearPath};
ghost use Rattle.plan_model.specs.Trees.NodeLists.{length_of_path};
ghost use Rattle.path_tools.specs.SmoothPaths.{AreRestsFrom, IsRestBelow, IsSmoothed};

use crate::rests::Rest;
use plan_model::{Memory, Point, Points};
use std::alloc::Global;
use swept_check::Clearing;

/// The path over those of its points that make it cheapest.
///
/// The first and the last point stay, and each segment between two kept points that follow each other is clear; it may be longer
/// than the step that the path was planned by. Of all such choices of points the result has the least cost, of these the fewest
/// points, and of these the positions that come first, compared from the front. A path of one point stays as it is.
///
/// Costs are in 256ths of a lattice step, each segment rounded up. All points are of the path: a way over other points may cost less.
///
/// O(n²) comparisons for n points, without a root; a segment is tested only if the way over it would be better than the best so far. If the
/// straight segment from a point to the end is clear, that point takes O(1). Memory is linear.
///
/// # Errors
///
/// `Memory` if out of memory, or if the path has more than 4,294,967,295 points.
pub fn smooth<C: Clearing>(alloc: Global, hall: &C, path: &Points) -> Result<Points, Memory>
    requires some { 0 < length path.now }
    requires clear { IsClearPath (C.space hall.now) path.now }
    ensures { IfOk result (IsSmoothed (C.space hall.now) path.now) }
{
    let cheapest = cheapest_path(alloc, hall, path.as_slice())?;
    Ok(Points::from_vec(cheapest.points))
}

/// A path with its cost.
#[derive(Drop)]
pub(crate) struct CostedPath {
    /// Its points, in order.
    pub points: Vec<Point>,
    /// What it costs, in 256ths of a lattice step.
    pub cost: u64,
}

/// The smoothed path, with its cost.
pub(crate) fn cheapest_path<C: Clearing>(
    alloc: Global,
    hall: &C,
    path: &[Point],
) -> Result<CostedPath, Memory>
    requires some { 0 < length path.now }
    requires clear { IsClearPath (C.space hall.now) path.now }
    ensures smoothed { IfOk result (λ kept. IsSmoothed (C.space hall.now) path.now kept.points.items) }
    ensures cost { IfOk result (λ kept. kept.cost ≡ length_of_path kept.points.items) }
{
    let rests = least_rests(alloc, hall, path)?;
    let last = path.len() - 1;
    let mut points = vec![in alloc; path[0]]?;
    let mut at = 0;
    while at != last {
        at = rests[at].next as usize;
        points.push(path[at])?;
    }
    let cost = rests[0].cost;
    Ok(CostedPath { points, cost })
}

/// The least rest from each position of a path, from its end to its front.
fn least_rests<C: Clearing>(alloc: Global, hall: &C, path: &[Point]) -> Result<Vec<Rest>, Memory>
    requires some { 0 < length path.now }
    requires clear { IsClearPath (C.space hall.now) path.now }
    ensures { IfOk result (λ rests. AreRestsFrom (C.space hall.now) path.now 0 rests.items) }
{
    if u32::try_from(path.len()).is_err() {
        return Err(Memory);
    }
    let last = path.len() - 1;
    let mut rests = vec![in alloc; Rest::END; path.len()]?;
    for position in (0..last).rev() {
        rests[position] = least_rest(hall, path, &rests, position);
    }
    Ok(rests)
}

/// The least rest from a position before the last one, by those of the positions after it.
fn least_rest<C: Clearing>(hall: &C, path: &[Point], rests: &[Rest], position: usize) -> Rest
    requires inner { suc position < length path.now }
    requires few { length path.now ≤ u32.MAX }
    requires clear { IsClearPath (C.space hall.now) path.now }
    requires rests { AreRestsFrom (C.space hall.now) path.now (suc position) rests.now }
    ensures { IsRestBelow (C.space hall.now) path.now (length path.now) position result }
{
    hall.room_is_bounded();
    let from = path[position];
    let last = path.len() - 1;
    // no rest costs less than the straight segment to the end, and none has fewer points
    if hall.clear(from, path[last]) {
        return Rest::through(last as u32, path[last], rests[last], from);
    }
    let mut best = Rest::through(
        position as u32 + 1,
        path[position + 1],
        rests[position + 1],
        from,
    );
    for next in position + 2..last {
        let to = path[next];
        if best.is_beaten_by(to, rests[next], from) && hall.clear(from, to) {
            best = Rest::through(next as u32, to, rests[next], from);
        }
    }
    best
}
