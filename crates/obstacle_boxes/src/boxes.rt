//! The collision checker with boxes over the zones.

ghost use Rattle.std.specs.Prelude.{◌≡◌, ◌↔◌, ◌+◌, ◌<◌, ◌≤◌, IfOk, IsTrue, List, false};
ghost use Rattle.plan_model.specs.Spaces.Clearance.{Clear};
ghost use Rattle.plan_model.specs.Spaces.ConfigurationSpace.{InRoom, at_lattice};
ghost use Rattle.convex_sets.specs.declared.bounding_boxes.BoundingBox.{BoundingBox};

use crate::box_nodes::{Node, push_tree};
use crate::descent::is_clear_of_leaves;
use crate::leaves::{leaves_of, order};
use convex_sets::Zone;
use plan_model::{Memory, Point};
use std::alloc::Global;
use std::marker::{Brand, Model};
use std::sync::ledger::{Blank, Ledger};
use swept_check::{Clearing, Hall, Steps};

/// Up to this many zones, a hall tests all of them as fast as a tree finds the near ones.
const MOST_WITHOUT_TREE: usize = 8;

/// The exact collision checker of a scene, by a tree of boxes over its zones: a bounding volume hierarchy, which is built once.
///
/// The tree is one list of nodes. Read from its end, each node stands before the two halves that lie below it. It has a box round
/// each half and the numbers at which they begin, so that a search passes over a half whose box is apart from the segment's. Up
/// to two zones stand side by side in a half.
#[derive(Debug, Drop)]
pub struct Boxes {
    hall: Hall,
    nodes: Vec<Node>,
}

impl Model for Boxes {
    ghost use Rattle.plan_model.specs.declared.configuration_spaces.ConfigurationSpace.{ConfigurationSpace};
    ghost use Rattle.obstacle_boxes.specs.Trees.{IsTreeOver};

    ghost Value = { ConfigurationSpace };

    ghost view = { λ b. b.hall };

    ghost invariant = { λ b. IsTreeOver b.hall b.nodes.items };
}

impl Boxes {
    ghost use Rattle.obstacle_boxes.specs.Trees.{AreZoneBoxes, near_count};
    ghost use Rattle.swept_check.specs.Crossings.{AreZonesOf};

    /// The collision checker that returns what a hall returns, also without an obstacle. O(n log² n) for n obstacles.
    ///
    /// # Errors
    ///
    /// `Memory` if out of memory for the boxes. The hall is gone then.
    pub fn new(alloc: Global, hall: Hall) -> Result<Boxes, Memory>
        ensures { IfOk result (λ boxes. boxes ≡ hall) }
    {
        let mut leaves = leaves_of(alloc, hall.zones())?;
        order(leaves.as_mut_slice());
        let mut nodes = Vec::new(alloc);
        push_tree(leaves.as_slice(), &mut nodes)?;
        Ok(Boxes { hall, nodes })
    }

    /// What [`clear`](Clearing::clear) returns, with a count of the exact tests: a step is one call of `crosses`, for one zone.
    ///
    /// A zone is tested if its box meets that of the segment from `a` to `b`, and the search ends at the first one that is
    /// crossed. So if the body is clear along the segment, there are as many steps as such zones, and never more. If an end is
    /// outside of the room of configurations, nothing is tested and the answer is false. O(n) for n nodes and corners at most;
    /// no memory.
    pub fn tests<L: Ledger>(&self, a: Point, b: Point, steps: &mut Steps<L>) -> bool
        ensures clear { IsTrue result ↔ Clear self.now a b }
        ensures few { (boxes : List BoundingBox) → AreZoneBoxes self.now boxes → steps.new ≤ steps.old + near_count boxes a b }
        ensures all { IsTrue result → (boxes : List BoundingBox) → AreZoneBoxes self.now boxes → steps.new ≡ steps.old + near_count boxes a b }
        ensures some { result ≡ false → InRoom self.now (at_lattice a) → InRoom self.now (at_lattice b) → steps.old < steps.new }
        ensures outside { ¬ (InRoom self.now (at_lattice a) × InRoom self.now (at_lattice b)) → (result ≡ false) × (steps.new ≡ steps.old) }
    {
        if !self.hall.is_in_room(a) || !self.hall.is_in_room(b) {
            return false;
        }
        is_clear_of_leaves(self.nodes.as_slice(), self.hall.zones(), a, b, steps)
    }

    /// The same, for a counter that is made here.
    fn tests_by<L: Ledger>(&self, a: Point, b: Point, blank: Blank) -> bool
        requires name { blank.name ≡ L.name }
        requires parts { blank.parts ≡ L.parts }
        requires some { 0 < blank.parts }
        ensures { IsTrue result ↔ Clear self.now a b }
    {
        let mut steps = Steps::<L>::new(blank);
        self.tests(a, b, &mut steps)
    }

    /// The zones, one for each obstacle, in the scene's order. O(1); no memory.
    pub fn zones(&self) -> &[Zone]
        ensures { AreZonesOf self.now result.now }
    {
        self.hall.zones()
    }
}

impl Clearing for Boxes {
    ghost space = { λ b. b };

    /// Two tests of boxes by four comparisons for each node that is not passed over, and an exact test, as that of a hall, for
    /// each zone whose box meets the segment's, up to the first that is crossed. Up to eight zones are tested by the hall.
    fn clear(&self, a: Point, b: Point) -> bool {
        if self.hall.zones().len() <= MOST_WITHOUT_TREE {
            return self.hall.clear(a, b);
        }
        self.tests_by::<Brand>(a, b, Blank::new(1))
    }

    fn room_is_bounded(&self) {
        self.hall.room_is_bounded();
    }
}
