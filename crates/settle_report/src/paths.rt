//! Paths of a run: from the start to a node, by the node's parents.

ghost use Rattle.std.specs.Prelude.{◌≡◌, IfOk, map};
ghost use Rattle.plan_model.specs.Trees.NodeLists.{IsPresent, point_of};
ghost use Rattle.plan_model.specs.Reports.ReportText.{path_to};
ghost use Rattle.plan_model.specs.Trees.TreeStates.{chain_in};
ghost use Rattle.grown_runs.specs.Runs.GrownRuns.{state_of_grown};

use grown_runs::Grown;
use plan_model::{Memory, Point};
use std::alloc::Global;

/// The points of the path from the start to a node that is present, by the node's parents: the start first, the node last,
/// one point of the lattice for each node on the way, so d + 1 of them for a node at depth d. That of node 0 is the start
/// alone. The run need not be settled. O(d).
///
/// # Errors
///
/// `Memory` if out of memory for the points.
pub fn path_to(alloc: Global, grown: &Grown, node: u32) -> Result<Vec<Point>, Memory>
    requires { IsPresent (state_of_grown grown.now).points node }
    ensures { IfOk result (λ path. path.items ≡ path_to (state_of_grown grown.now) node) }
{
    let mut path = path_back(alloc, grown, node)?;
    path.reverse();
    Ok(path)
}

/// The points of the path from a node that is present back to the start, by the node's parents: the same as [`path_to`], in reverse. O(d).
///
/// # Errors
///
/// `Memory` if out of memory for the points.
pub fn path_back(alloc: Global, grown: &Grown, node: u32) -> Result<Vec<Point>, Memory>
    requires { IsPresent (state_of_grown grown.now).points node }
    ensures { IfOk result (λ points. points.items ≡ map (point_of (state_of_grown grown.now).points) (chain_in (state_of_grown grown.now) node)) }
{
    let mut points = Vec::new(alloc);
    let mut at = node;
    while at != 0 {
        points.push(grown.point(at).unwrap())?;
        at = grown.parent(at);
    }
    points.push(grown.point(0).unwrap())?;
    Ok(points)
}
