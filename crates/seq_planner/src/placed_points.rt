//! The points of the nodes that are present, and the scans over them for the nearest node and for the near ones.

ghost use Rattle.std.specs.Prelude.{◌≡◌, ◌<◌, Option, List, Some, [], ◌∷◌, ◌++◌, length, All, IfOk, OnOk};
ghost use Rattle.plan_model.specs.Geometry.Plane.{IsBounded};
ghost use Rattle.plan_model.specs.Trees.Nearness.{IsNearest};
ghost use Rattle.plan_model.specs.Trees.NodeLists.{node_count};
ghost use Rattle.plan_model.specs.declared.geometry.Point.{Point};
ghost use Rattle.seq_planner.specs.LinkedTrees.{ArePlaced, listed_near};

use plan_model::{Memory, Point};
use std::alloc::Global;

/// The points of the nodes that are present, in rising number.
///
/// They are kept apart from the rest of the nodes, so that a scan runs over nothing but points.
#[derive(Drop)]
pub(crate) struct PlacedPoints {
    /// Where each node stands.
    points: Vec<Point>,
    /// Its number.
    numbers: Vec<u32>,
}

impl PlacedPoints {
    /// The point of the start alone.
    ///
    /// # Errors
    ///
    /// `Memory` if out of memory.
    pub(crate) fn new(alloc: Global, start: Point) -> Result<PlacedPoints, Memory>
        ensures { IfOk result (λ placed. ArePlaced (Some start ∷ []) placed) }
    {
        Ok(PlacedPoints {
            points: vec![in alloc; start]?,
            numbers: vec![in alloc; 0]?,
        })
    }

    /// How many nodes are present.
    pub(crate) fn count(&self) -> u64
        ensures { (points : List (Option Point)) → ArePlaced points self.now → result ≡ node_count points }
    {
        self.points.len() as u64
    }

    /// Adds the node with the next number.
    ///
    /// # Errors
    ///
    /// `Memory` if out of memory; the points are then of no more use.
    pub(crate) fn push(&mut self, number: u32, point: Point) -> Result<(), Memory>
        ensures { OnOk result ((points : List (Option Point)) → number ≡ length points → ArePlaced points self.old
            → ArePlaced (points ++ Some point ∷ []) self.new) }
    {
        self.points.push(point)?;
        self.numbers.push(number)?;
        Ok(())
    }

    /// The nearest node to a mark, of those equally near the one with the least number. O(n) for n nodes.
    // Inlined, the loops of both scans would share the registers with their caller.
    #[inline(never)]
    pub(crate) fn nearest(&self, mark: Point) -> u32
        requires some { 0 < length self.now.points.items }
        requires numbered { length self.now.numbers.items ≡ length self.now.points.items }
        requires nodes { All IsBounded self.now.points.items }
        requires bounded { IsBounded mark }
        ensures { (points : List (Option Point)) → ArePlaced points self.now → IsNearest points mark result }
    {
        let mut best = 0;
        let mut least = self.points[0].squared_distance(mark);
        for (index, point) in self.points.iter().enumerate() {
            let distance = point.squared_distance(mark);
            if distance < least {
                best = index;
                least = distance;
            }
        }
        self.numbers[best]
    }

    /// Fills a list with the nodes at most `radius` away from a point, in rising number. O(n) for n nodes; with radius 0
    /// nothing is scanned, and none is listed.
    ///
    /// # Errors
    ///
    /// `Memory` if out of memory.
    #[inline(never)]
    pub(crate) fn near(&self, point: Point, radius: u32, found: &mut Vec<u32>) -> Result<(), Memory>
        requires numbered { length self.now.numbers.items ≡ length self.now.points.items }
        requires nodes { All IsBounded self.now.points.items }
        requires bounded { IsBounded point }
        ensures { OnOk result ((points : List (Option Point)) → ArePlaced points self.now
            → found.new.items ≡ listed_near points point radius) }
    {
        found.clear();
        if radius == 0 {
            return Ok(());
        }
        let most = u64::from(radius) * u64::from(radius);
        for (index, other) in self.points.iter().enumerate() {
            if other.squared_distance(point) <= most {
                found.push(self.numbers[index])?;
            }
        }
        Ok(())
    }
}
