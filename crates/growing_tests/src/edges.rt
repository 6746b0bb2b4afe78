//! Edges between nodes that a pass sees, by which a test lowers a node below another.

ghost use Rattle.std.specs.Prelude.{◌≡◌, IsTrue};
ghost use Rattle.plan_model.specs.Geometry.Plane.{IsBounded};
ghost use Rattle.plan_model.specs.Runs.OrderLaw.{IsAllowedEdge};
ghost use Rattle.plan_model.specs.Spaces.ConfigurationSpace.{space_of};
ghost use Rattle.plan_words.specs.States.{run_in};
ghost use Rattle.step_core.specs.Histories.{IsLawfulView};
ghost use Rattle.step_core.specs.Views.{setup_in};
ghost use Rattle.tree_rewire.specs.SeenCosts.{SeesPair, cost_seen};

use plan_model::Point;
use plan_words::{Pass, Shared};
use swept_check::{Clearing, Hall};

/// An edge between two nodes, each with its point.
#[derive(Clone, Copy)]
pub(crate) struct Edge {
    pub(crate) parent: u32,
    pub(crate) from: Point,
    pub(crate) node: u32,
    pub(crate) at: Point,
}

/// Whether an edge is clear and no longer than the step.
pub(crate) fn is_allowed(shared: &Shared, hall: &Hall, edge: Edge) -> bool
    requires hall { hall.now ≡ space_of shared.now.task.scene }
    requires from { IsBounded edge.from }
    requires at { IsBounded edge.at }
    ensures { IsTrue result → IsAllowedEdge (setup_in (run_in shared.now)) edge.from edge.at }
{
    let step = u64::from(shared.task().scene.step);
    hall.clear(edge.from, edge.at) && edge.from.squared_distance(edge.at) <= step * step
}

/// What a node was seen to cost last.
pub(crate) fn seen_cost(pass: &Pass, node: u32) -> u64
    requires lawful { IsLawfulView pass.now.view }
    requires pair { SeesPair pass.now.view node }
    ensures { result ≡ cost_seen pass.now.view node }
{
    pass.pair(node).unwrap().1
}
