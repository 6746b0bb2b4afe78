//! The nodes of a run as numbered points, in bands.

ghost use Rattle.std.specs.Prelude.{All, IfOk};
ghost use Rattle.plan_model.specs.Geometry.Plane.{IsBounded};
ghost use Rattle.grown_runs.specs.Runs.GrownRuns.{state_of_grown};
ghost use Rattle.twin_trees.specs.Twins.{AreNodes};

use plan_model::Memory;
use point_bands::{Bands, Numbered};
use std::alloc::Global;
use step_core::Grown;

/// The nodes that are present, in bands. O(n log n).
pub(crate) fn bands_of(alloc: Global, grown: &Grown) -> Result<Bands, Memory>
    ensures { IfOk result (AreNodes (state_of_grown grown.now)) }
{
    let nodes = nodes_of(alloc, grown)?;
    Ok(Bands::new(nodes))
}

/// The nodes that are present, by number. O(n).
fn nodes_of(alloc: Global, grown: &Grown) -> Result<Vec<Numbered>, Memory>
    ensures nodes { IfOk result (λ nodes. AreNodes (state_of_grown grown.now) nodes.items) }
    ensures bounded { IfOk result (λ nodes. All (λ n. IsBounded n.point) nodes.items) }
{
    let mut nodes = Vec::with_capacity(alloc, grown.count() as usize)?;
    for number in 0..grown.limit() + 1 {
        if let Some(point) = grown.point(number) {
            nodes.push(Numbered { point, number })?;
        }
    }
    Ok(nodes)
}
