//! The least bridge between two runs.
//!
//! A node of the first run is passed over if its cost-to-come and the straight line to the root of the second are above the least way so
//! far: by the triangle law no way over the node costs less. Of the others, the nodes of the second run within a step are found by bands.
//! A pair is compared by squares, and its segment is tested only if the way over it is better than the best so far.

ghost use Rattle.std.specs.Prelude.{◌≡◌, ℕ, ◌<◌, ◌≤◌, ◌*◌, ◌^◌, IfOk, IsTrue, length};
ghost use Rattle.plan_model.specs.Runs.Textbook.{setup_of};
ghost use Rattle.plan_model.specs.Spaces.ConfigurationSpace.{space_of};
ghost use Rattle.plan_model.specs.Trees.NodeLists.{StandsAt};
ghost use Rattle.plan_model.specs.Trees.TreeStates.{IsSettled};
ghost use Rattle.point_bands.specs.Walks.{IsWithin, numbered_at};
ghost use Rattle.grown_runs.specs.Runs.GrownRuns.{state_of_grown};
ghost use Rattle.twin_trees.specs.Twins.{IsNoWorse, AreNodes, MatchesIn, MayBeBestIn, IsBridge};

use crate::bridges::{Bridge, so_far_is_beaten};
use crate::nodes::bands_of;
use edge_cost::{cost, costs_less_through};
use plan_model::Memory;
use point_bands::{Bands, Disc, Numbered, Stretch};
use std::alloc::Global;
use step_core::Grown;
use swept_check::Clearing;

/// Two runs, between which a bridge is looked for.
#[derive(Clone, Copy)]
pub(crate) struct TwoRuns<'a> {
    /// The run from whose nodes bridges begin.
    pub first: &'a Grown,
    /// The run at whose nodes they end.
    pub second: &'a Grown,
}

/// The bridge between two settled runs: of all pairs of a node of each with a clear segment of at most a step between them, the one over
/// which the way costs least, of those the one with the least number in the first run, and then in the second. `None` if there is none.
/// The step is that of the first run, for whose scene the hall stands.
///
/// O(n s log n + k) for n nodes, s bands within a step of a node and k pairs within a step of each other that are not passed over.
///
/// # Errors
///
/// `Memory` if out of memory for the bands.
pub(crate) fn least_bridge<C: Clearing>(
    alloc: Global,
    hall: &C,
    first: &Grown,
    second: &Grown,
) -> Result<Option<(u32, u32)>, Memory>
    requires hall { C.space hall.now ≡ space_of first.now.task.scene }
    requires first { IsSettled (state_of_grown first.now) }
    requires second { IsSettled (state_of_grown second.now) }
    ensures { IfOk result (IsBridge (setup_of first.now.task.scene) (state_of_grown first.now) (state_of_grown second.now)) }
{
    let runs = TwoRuns { first, second };
    let bands = bands_of(alloc, second)?;
    let mut best: Option<Bridge> = None;
    for node in 0..first.limit() + 1 {
        best = best_over(hall, &runs, &bands, node, best);
    }
    match best {
        Some(bridge) => Ok(Some((bridge.first, bridge.second))),
        None => Ok(None),
    }
}

/// The best of a bridge so far and of all from a node of the first run, if there is one with this number.
fn best_over<C: Clearing>(
    hall: &C,
    runs: &TwoRuns<'_>,
    bands: &Bands,
    node: u32,
    so_far: Option<Bridge>,
) -> Option<Bridge>
    requires hall { C.space hall.now ≡ space_of runs.now.first.now.task.scene }
    requires first { IsSettled (state_of_grown runs.now.first.now) }
    requires second { IsSettled (state_of_grown runs.now.second.now) }
    requires nodes { AreNodes (state_of_grown runs.now.second.now) bands.now }
    requires best { MayBeBestIn runs.now so_far }
    ensures best { MayBeBestIn runs.now result }
    ensures no_worse { IsNoWorse so_far result }
    ensures from { (d : ℕ) → MatchesIn runs.now result node d }
{
    match runs.first.point(node) {
        Some(point) => {
            let end = Numbered {
                point,
                number: node,
            };
            best_from(hall, runs, bands, end, so_far)
        }
        None => so_far,
    }
}

/// The best of a bridge so far and of all from a node of the first run.
fn best_from<C: Clearing>(
    hall: &C,
    runs: &TwoRuns<'_>,
    bands: &Bands,
    end: Numbered,
    so_far: Option<Bridge>,
) -> Option<Bridge>
    requires hall { C.space hall.now ≡ space_of runs.now.first.now.task.scene }
    requires first { IsSettled (state_of_grown runs.now.first.now) }
    requires second { IsSettled (state_of_grown runs.now.second.now) }
    requires nodes { AreNodes (state_of_grown runs.now.second.now) bands.now }
    requires stands { StandsAt (state_of_grown runs.now.first.now).points end.number end.point }
    requires best { MayBeBestIn runs.now so_far }
    ensures best { MayBeBestIn runs.now result }
    ensures no_worse { IsNoWorse so_far result }
    ensures from { (d : ℕ) → MatchesIn runs.now result end.number d }
{
    if is_too_far(runs, end, so_far) {
        return so_far;
    }
    let disc = Disc::of_radius(end.point, runs.first.task().scene.step);
    let mut best = so_far;
    let mut at = 0;
    'walk: while let Some(stretch) = bands.next_stretch(at, disc) {
        best = best_in_stretch(hall, runs, bands, end, stretch, best);
        at = stretch.end;
    }
    best
}

/// The best of a bridge so far and of all from a node of the first run to nodes of a stretch of positions, within a step.
fn best_in_stretch<C: Clearing>(
    hall: &C,
    runs: &TwoRuns<'_>,
    bands: &Bands,
    end: Numbered,
    stretch: Stretch,
    so_far: Option<Bridge>,
) -> Option<Bridge>
    requires hall { C.space hall.now ≡ space_of runs.now.first.now.task.scene }
    requires first { IsSettled (state_of_grown runs.now.first.now) }
    requires second { IsSettled (state_of_grown runs.now.second.now) }
    requires nodes { AreNodes (state_of_grown runs.now.second.now) bands.now }
    requires stands { StandsAt (state_of_grown runs.now.first.now).points end.number end.point }
    requires inside { stretch.end ≤ length bands.now }
    requires best { MayBeBestIn runs.now so_far }
    ensures best { MayBeBestIn runs.now result }
    ensures no_worse { IsNoWorse so_far result }
    ensures stretch { (j : ℕ) → stretch.start ≤ j → j < stretch.end
        → IsWithin end.point (runs.now.first.now.task.scene.step * runs.now.first.now.task.scene.step) (numbered_at bands.now j).point
        → MatchesIn runs.now result end.number (numbered_at bands.now j).number }
{
    let step = runs.first.task().scene.step;
    let disc = Disc::of_radius(end.point, step);
    let mut best = so_far;
    for position in stretch.start..stretch.end {
        let other = bands.at(position);
        if disc.has(other.point) {
            best = better(hall, runs, end, other, best);
        }
    }
    best
}

/// Whether each way over a node of the first run costs more than a bridge so far: its cost-to-come and the straight line to the root of
/// the second run do.
fn is_too_far(runs: &TwoRuns<'_>, end: Numbered, so_far: Option<Bridge>) -> bool
    requires first { IsSettled (state_of_grown runs.now.first.now) }
    requires second { IsSettled (state_of_grown runs.now.second.now) }
    requires stands { StandsAt (state_of_grown runs.now.first.now).points end.number end.point }
    requires best { MayBeBestIn runs.now so_far }
    ensures { IsTrue result → (d : ℕ)
        → MatchesIn runs.now so_far end.number d }
{
    match so_far {
        Some(bridge) => {
            let root = runs.second.task().scene.start;
            !costs_less_through(
                runs.first.cost(end.number),
                end.point,
                root,
                bridge.cost + 1,
            )
        }
        None => false,
    }
}

/// The better one of a bridge so far and that of two nodes within a step of each other, if that is one. The segment is tested last.
fn better<C: Clearing>(
    hall: &C,
    runs: &TwoRuns<'_>,
    end: Numbered,
    other: Numbered,
    so_far: Option<Bridge>,
) -> Option<Bridge>
    requires hall { C.space hall.now ≡ space_of runs.now.first.now.task.scene }
    requires first { IsSettled (state_of_grown runs.now.first.now) }
    requires second { IsSettled (state_of_grown runs.now.second.now) }
    requires end { StandsAt (state_of_grown runs.now.first.now).points end.number end.point }
    requires other { StandsAt (state_of_grown runs.now.second.now).points other.number other.point }
    requires within { IsWithin end.point (runs.now.first.now.task.scene.step * runs.now.first.now.task.scene.step) other.point }
    requires best { MayBeBestIn runs.now so_far }
    ensures best { MayBeBestIn runs.now result }
    ensures no_worse { IsNoWorse so_far result }
    ensures pair { MatchesIn runs.now result end.number other.number }
{
    let costs_to_come = runs.first.cost(end.number) + runs.second.cost(other.number);
    if !so_far_is_beaten(so_far, costs_to_come, end, other) || !hall.clear(end.point, other.point) {
        return so_far;
    }
    Some(Bridge {
        cost: costs_to_come + cost(end.point, other.point),
        first: end.number,
        second: other.number,
    })
}
