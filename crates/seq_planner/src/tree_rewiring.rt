//! The rewiring of nodes near a new one.

ghost use Rattle.std.specs.Prelude.{◌≡◌, ◌↔◌, ◌≤◌, length, All, IsTrue, OnOk};
ghost use Rattle.plan_model.specs.Trees.NodeLists.{IsPresent, points_of};
ghost use Rattle.plan_model.specs.Runs.Textbook.{IsCheaperThrough, Rewires, RewiresOne};
ghost use Rattle.plan_model.specs.declared.limits.TheConstants.{MOST_NODES};
ghost use Rattle.seq_planner.specs.SearchTrees.{IsSoundTree};

use crate::cost_spreading::spread;
use crate::search_tree::SearchTree;
use edge_cost::costs_less_through;
use plan_model::Memory;
use swept_check::Clearing;

impl SearchTree {
    /// Looks at near nodes, one after another, each by the costs as they then stand: it gets the new node as its parent
    /// if it then costs strictly less and the edge is clear, and its descendants cost less by as much.
    ///
    /// `pending` is scratch memory. O(n + m) for n near nodes and m nodes whose costs are lowered.
    ///
    /// # Errors
    ///
    /// `Memory` if out of memory; the tree is then of no more use.
    pub(crate) fn rewire<C: Clearing>(
        &mut self,
        hall: &C,
        new_node: u32,
        near: &[u32],
        pending: &mut Vec<u32>,
    ) -> Result<(), Memory>
        requires sound { IsSoundTree self.old }
        requires few { length self.old.nodes ≤ MOST_NODES }
        requires present { IsPresent (points_of self.old.nodes) new_node }
        requires near { All (IsPresent (points_of self.old.nodes)) near.now }
        ensures rewired { OnOk result (Rewires (C.space hall.now) self.old.nodes new_node near.now self.new.nodes) }
        ensures sound { OnOk result (IsSoundTree self.new) }
        ensures points { OnOk result (points_of self.new.nodes ≡ points_of self.old.nodes) }
        ensures count { OnOk result (length self.new.nodes ≡ length self.old.nodes) }
        ensures records { OnOk result (self.new.records.items ≡ self.old.records.items) }
    {
        for &near_node in near {
            self.rewire_one(hall, new_node, near_node, pending)?;
        }
        Ok(())
    }

    /// Gives a near node the new node as its parent if its cost is then strictly lower and the edge is clear.
    fn rewire_one<C: Clearing>(
        &mut self,
        hall: &C,
        new_node: u32,
        near_node: u32,
        pending: &mut Vec<u32>,
    ) -> Result<(), Memory>
        requires sound { IsSoundTree self.old }
        requires few { length self.old.nodes ≤ MOST_NODES }
        requires present { IsPresent (points_of self.old.nodes) new_node }
        requires near { IsPresent (points_of self.old.nodes) near_node }
        ensures rewired { OnOk result (RewiresOne (C.space hall.now) self.old.nodes new_node near_node self.new.nodes) }
        ensures sound { OnOk result (IsSoundTree self.new) }
        ensures points { OnOk result (points_of self.new.nodes ≡ points_of self.old.nodes) }
        ensures count { OnOk result (length self.new.nodes ≡ length self.old.nodes) }
        ensures records { OnOk result (self.new.records.items ≡ self.old.records.items) }
    {
        if !self.is_cheaper(hall, new_node, near_node) {
            return Ok(());
        }
        let cost_through = self.parent(new_node, self.nodes.point(near_node)).cost;
        let fall = self.costs[near_node as usize] - cost_through;
        self.nodes.set_parent(near_node, new_node);
        spread(&self.nodes, &mut self.costs, near_node, fall, pending)
    }

    /// Whether a near node would cost strictly less with the new node as its parent, over a clear edge.
    fn is_cheaper<C: Clearing>(&self, hall: &C, new_node: u32, near_node: u32) -> bool
        requires sound { IsSoundTree self.now }
        requires few { length self.now.nodes ≤ MOST_NODES }
        requires present { IsPresent (points_of self.now.nodes) new_node }
        requires near { IsPresent (points_of self.now.nodes) near_node }
        ensures { IsTrue result ↔ IsCheaperThrough (C.space hall.now) self.now.nodes new_node near_node }
    {
        let from = self.nodes.point(new_node);
        let to = self.nodes.point(near_node);
        let new_cost = self.costs[new_node as usize];
        let kept_cost = self.costs[near_node as usize];
        // an edge is tested only for what wins
        costs_less_through(new_cost, from, to, kept_cost) && hall.clear(from, to)
    }
}
