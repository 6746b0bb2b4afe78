//! The search tree: its nodes, the costs that are kept beside them, and the records of the marks.

ghost use Rattle.std.specs.Prelude.{◌≡◌, ◌+◌, ◌≤◌, [], ◌∷◌, ◌++◌, length, IfOk, OnOk};
ghost use Rattle.plan_model.specs.Geometry.Plane.{IsBounded};
ghost use Rattle.plan_model.specs.Spaces.Clearance.{ClearAt};
ghost use Rattle.plan_model.specs.Spaces.ConfigurationSpace.{space_of};
ghost use Rattle.plan_model.specs.Runs.Textbook.{IsOfTextbookRun, IsTextbookRun, MayBeCheaper, setup_of, start_alone};
ghost use Rattle.plan_model.specs.Trees.NodeLists.{points_of, sum_of};
ghost use Rattle.plan_model.specs.Trees.TreeStates.{IsSettled};
ghost use Rattle.plan_model.specs.declared.geometry.Point.{Point};
ghost use Rattle.plan_model.specs.declared.limits.TheConstants.{MOST_MARKS};
ghost use Rattle.plan_model.specs.declared.scenes.Scene.{Scene};
ghost use Rattle.seq_planner.specs.SearchTrees.{Fits, GrowsByMark, IsExtensionOf, IsSkippedBy, IsSoundTree, with_cost, with_costs};
ghost use Rattle.grown_runs.specs.Runs.GrownRuns.{state_of_grown};

use crate::extensions::Extension;
use crate::linked_tree::LinkedTree;
use crate::placed_points::PlacedPoints;
use edge_cost::{Radii, class, steer};
use grown_runs::Grown;
use plan_model::{Knot, Memory, Point, Record, Scene, Sequence, Task, Twig};
use std::alloc::Global;
use swept_check::Clearing;

/// The tree that RRT* grows, with a number for each mark and the records so far.
///
/// Each mark that is handled adds a number to the nodes, a cost and a record. So the nodes and their costs have the same
/// numbers, one more than the records: node 0 is the start, and node `k + 1` belongs to mark `k`.
#[derive(Drop)]
pub(crate) struct SearchTree {
    /// The nodes by number; absent if the mark was not placed.
    pub(crate) nodes: LinkedTree,
    /// The cost from the start to each node, in 256ths of a lattice step; 0 if the node is absent.
    pub(crate) costs: Vec<u64>,
    /// Where the nodes stand that are present.
    pub(crate) placed: PlacedPoints,
    /// The records of the marks that were handled.
    pub(crate) records: Vec<Record>,
}

/// Lists that the handling of a mark fills, kept from mark to mark for their memory.
#[derive(Drop)]
pub(crate) struct Lists {
    /// The nodes near a mark or a new node.
    near: Vec<u32>,
    /// The nodes whose costs are still to be lowered.
    pending: Vec<u32>,
}

impl Lists {
    /// Empty lists.
    pub(crate) fn new(alloc: Global) -> Lists {
        Lists {
            near: Vec::new(alloc),
            pending: Vec::new(alloc),
        }
    }
}

impl SearchTree {
    /// The tree of the start alone, before the first mark.
    ///
    /// # Errors
    ///
    /// `Memory` if out of memory.
    pub(crate) fn new(alloc: Global, start: Point) -> Result<SearchTree, Memory>
        requires { IsBounded start }
        ensures nodes { IfOk result (λ tree. tree.nodes ≡ start_alone start) }
        ensures records { IfOk result (λ tree. tree.records.items ≡ []) }
        ensures sound { IfOk result IsSoundTree }
    {
        Ok(SearchTree {
            nodes: LinkedTree::new(alloc, start)?,
            costs: vec![in alloc; 0]?,
            placed: PlacedPoints::new(alloc, start)?,
            records: Vec::new(alloc),
        })
    }

    /// Handles the next mark, over which a path may be cheaper than each goal node is.
    ///
    /// # Errors
    ///
    /// `Memory` if out of memory; the tree is then of no more use.
    pub(crate) fn handle<C: Clearing>(
        &mut self,
        scene: &Scene,
        radii: &Radii,
        hall: &C,
        mark: Point,
        lists: &mut Lists,
    ) -> Result<(), Memory>
        requires step { radii.now.step ≡ scene.now.step }
        requires gamma { radii.now.gamma ≡ scene.now.gamma }
        requires hall { C.space hall.now ≡ space_of scene.now }
        requires sound { IsSoundTree self.old }
        requires few { length self.old.nodes ≤ MOST_MARKS }
        requires turn { length self.old.records.items + 1 ≡ length self.old.nodes }
        requires bounded { IsBounded mark }
        requires cheaper { MayBeCheaper (setup_of scene.now) (sum_of self.old.nodes) (points_of self.old.nodes) mark }
        ensures handles { OnOk result (GrowsByMark scene.now self.old mark self.new) }
        ensures sound { OnOk result (IsSoundTree self.new) }
    {
        let extension = self.extension(scene, radii, hall, mark, &mut lists.near)?;
        let number = self.push(extension)?;
        if extension.node.is_some() {
            self.rewire(hall, number, &lists.near, &mut lists.pending)?;
        }
        Ok(())
    }

    /// Records the next mark as skipped by this goal node.
    ///
    /// # Errors
    ///
    /// `Memory` if out of memory; the tree is then of no more use.
    pub(crate) fn skip(&mut self, goal_node: u32) -> Result<(), Memory>
        requires sound { IsSoundTree self.old }
        requires few { length self.old.nodes ≤ MOST_MARKS }
        requires turn { length self.old.records.items + 1 ≡ length self.old.nodes }
        ensures skips { OnOk result ((scene : Scene) (mark : Point) → IsSkippedBy scene self.old mark goal_node
            → GrowsByMark scene self.old mark self.new) }
        ensures sound { OnOk result (IsSoundTree self.new) }
    {
        let turn = self.records.len() as u32;
        self.push(Extension::skipped(turn, goal_node))?;
        Ok(())
    }

    /// The run of the marks that were handled, which are those of the task, with each node kept at its sum. O(n * d) for
    /// n nodes, d of them on the longest way through the kd-tree.
    ///
    /// # Errors
    ///
    /// `Memory` if out of memory for the nodes with their costs or for the run.
    pub(crate) fn into_run(self, alloc: Global, task: Task) -> Result<Grown, Memory>
        requires sound { IsSoundTree self }
        requires start { ClearAt (space_of task.scene) task.scene.start }
        requires run { IsTextbookRun (setup_of task.scene) task.marks self.nodes self.records.items }
        ensures task { IfOk result (λ grown. grown.task ≡ task) }
        ensures limit { IfOk result (λ grown. grown.limit ≡ length task.marks) }
        ensures run { IfOk result (λ grown. IsOfTextbookRun (setup_of task.scene) task.marks (state_of_grown grown)) }
        ensures settled { IfOk result (λ grown. IsSettled (state_of_grown grown)) }
    {
        let knots = Sequence::from_vec(self.knots(alloc)?);
        Grown::pack(alloc, task, &knots, &Sequence::from_vec(self.records))
    }

    /// The nodes with their kept costs, by number. O(n) for n nodes.
    ///
    /// # Errors
    ///
    /// `Memory` if out of memory.
    fn knots(&self, alloc: Global) -> Result<Vec<Option<Knot>>, Memory>
        ensures { IfOk result (λ knots. knots.items ≡ with_costs self.now.nodes self.now.costs.items) }
    {
        let kept = self.nodes.as_slice().iter().zip(self.costs.as_slice());
        Ok(kept.map(|(node, cost)| knot(*node, *cost)).collect(alloc)?)
    }

    /// What the next mark adds, with the nodes near a new one: the nearest node steers towards the mark, and a node is
    /// placed at the point that this leads to, unless it is the nearest node's own or the segment is not clear.
    ///
    /// The nodes near the mark are looked for first. The nearest of them is the nearest of all and steers to the mark
    /// itself, since no radius is longer than the step, so they are the nodes near the point. Only if there are none all
    /// nodes are scanned for the nearest, and again for those near the point.
    fn extension<C: Clearing>(
        &self,
        scene: &Scene,
        radii: &Radii,
        hall: &C,
        mark: Point,
        near: &mut Vec<u32>,
    ) -> Result<Extension, Memory>
        requires step { radii.now.step ≡ scene.now.step }
        requires gamma { radii.now.gamma ≡ scene.now.gamma }
        requires hall { C.space hall.now ≡ space_of scene.now }
        requires sound { IsSoundTree self.now }
        requires few { length self.now.nodes ≤ MOST_MARKS }
        requires turn { length self.now.records.items + 1 ≡ length self.now.nodes }
        requires bounded { IsBounded mark }
        requires cheaper { MayBeCheaper (setup_of scene.now) (sum_of self.now.nodes) (points_of self.now.nodes) mark }
        ensures { IfOk result (λ extension. IsExtensionOf scene.now self.now mark extension near.new.items) }
    {
        let turn = self.records.len() as u32;
        let present = self.placed.count();
        let radius = radii.at(present);
        self.placed.near(mark, radius, near)?;
        let nearest = self.nearest(mark, near);
        let from = self.nodes.point(nearest);
        let point = steer(from, mark, scene.step);
        // no other node stands there: the point is nearer to the mark than the nearest node
        if point == from {
            return Ok(Extension::same(turn, nearest, nearest));
        }
        if !hall.clear(from, point) {
            return Ok(Extension::blocked(turn, nearest));
        }
        // otherwise the point is the mark
        if near.is_empty() {
            self.placed.near(point, radius, near)?;
        }
        let parent = self.choose(hall, point, nearest, near);
        Ok(Extension::placed(turn, nearest, point, parent, class(present)))
    }

    /// Adds what the next mark adds, and returns the number of its node.
    fn push(&mut self, extension: Extension) -> Result<u32, Memory>
        requires sound { IsSoundTree self.old }
        requires few { length self.old.nodes ≤ MOST_MARKS }
        requires fits { Fits self.old.nodes extension.node extension.cost }
        ensures number { IfOk result (λ number. number ≡ length self.old.nodes) }
        ensures nodes { IfOk result (λ number. self.new.nodes ≡ self.old.nodes ++ extension.node ∷ []) }
        ensures records { IfOk result (λ number. self.new.records.items ≡ self.old.records.items ++ extension.entry ∷ []) }
        ensures sound { IfOk result (λ number. IsSoundTree self.new) }
    {
        let number = self.costs.len() as u32;
        self.nodes.push(extension.node)?;
        self.costs.push(extension.cost)?;
        self.records.push(extension.entry)?;
        if let Some(node) = extension.node {
            self.placed.push(number, node.point)?;
        }
        Ok(number)
    }
}

/// A node, if it is present, with its kept cost.
fn knot(node: Option<Twig>, cost: u64) -> Option<Knot>
    ensures { result ≡ with_cost node cost }
{
    let Twig { point, parent } = node?;
    Some(Knot {
        point,
        parent,
        cost,
    })
}
