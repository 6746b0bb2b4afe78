//! Nodes by number, with an index of the children of each.

ghost use Rattle.std.specs.Prelude.{◌≡◌, ◌+◌, ◌<◌, ◌≤◌, ℕ, Option, List, ◌∷◌, [], ◌++◌, length, IfOk, OnErr, OnOk, if◌then◌else◌};
ghost use Rattle.plan_model.specs.Trees.NodeLists.{IsPresent, point_of, points_of};
ghost use Rattle.plan_model.specs.Runs.Textbook.{start_alone, with_parent};
ghost use Rattle.plan_model.specs.declared.limits.TheConstants.{MOST_MARKS};
ghost use Rattle.plan_model.specs.declared.trees.Twig.{Twig};
ghost use Rattle.grown_runs.specs.ChildChains.{times};
ghost use Rattle.seq_planner.specs.LinkedTrees.{AreLinked, hangs_below, MayJoin};

use grown_runs::ChildIndex;
use plan_model::{Memory, Point, Twig};
use std::alloc::Global;
use std::marker::Model;

/// The nodes of a tree by number, each absent or a point with a parent, with an index of the children of each.
#[derive(Drop)]
pub(crate) struct LinkedTree {
    /// The nodes; absent if the mark was not placed.
    nodes: Vec<Option<Twig>>,
    /// The children of each.
    children: ChildIndex,
}

impl Model for LinkedTree {
    ghost Value = { List (Option Twig) };

    ghost view = { λ t. t.nodes.items };

    ghost invariant = { λ t. AreLinked t.nodes.items t.children };
}

impl LinkedTree {
    /// The tree of the start alone.
    ///
    /// # Errors
    ///
    /// `Memory` if out of memory.
    pub(crate) fn new(alloc: Global, start: Point) -> Result<LinkedTree, Memory>
        ensures { IfOk result (λ tree. tree ≡ start_alone start) }
    {
        let start = Twig {
            point: start,
            parent: 0,
        };
        Ok(LinkedTree {
            nodes: vec![in alloc; Some(start)]?,
            children: ChildIndex::new(alloc, 1)?,
        })
    }

    /// Where a node that is present stands.
    pub(crate) fn point(&self, number: u32) -> Point
        requires { IsPresent (points_of self.now) number }
        ensures { result ≡ point_of (points_of self.now) number }
    {
        self.nodes[number as usize].unwrap().point
    }

    /// Puts a node, or an absent one, at the end: it gets the next number. O(1), amortized over many.
    ///
    /// # Errors
    ///
    /// `Memory` if out of memory; the tree is then as it was.
    pub(crate) fn push(&mut self, node: Option<Twig>) -> Result<(), Memory>
        requires some { 0 < length self.old }
        requires few { length self.old ≤ MOST_MARKS }
        requires parent { MayJoin self.old node }
        ensures put { OnOk result (self.new ≡ self.old ++ node ∷ []) }
        ensures unchanged { OnErr result (self.new ≡ self.old) }
    {
        let number = self.nodes.len() as u32;
        self.nodes.reserve(1)?;
        self.children.push()?;
        self.nodes.push_reserved(node);
        if let Some(node) = node {
            self.children.relink(number, 0, node.parent + 1);
        }
        Ok(())
    }

    /// Gives a node another parent. O(1).
    pub(crate) fn set_parent(&mut self, number: u32, parent: u32)
        requires child { 0 < number }
        requires present { IsPresent (points_of self.old) number }
        requires parent { IsPresent (points_of self.old) parent }
        ensures { self.new ≡ with_parent self.old number parent }
    {
        let Twig {
            point,
            parent: former,
        } = self.nodes[number as usize].unwrap();
        self.children.relink(number, former + 1, parent + 1);
        self.nodes[number as usize] = Some(Twig { point, parent });
    }

    /// Appends the children of a node to a list, each once. O(n) for n children.
    ///
    /// # Errors
    ///
    /// `Memory` if out of memory.
    pub(crate) fn push_children(&self, number: u32, list: &mut Vec<u32>) -> Result<(), Memory>
        requires { IsPresent (points_of self.now) number }
        ensures { OnOk result ((c : ℕ) → times list.new.items c ≡ times list.old.items c + (if hangs_below self.now number c then 1 else 0)) }
    {
        let mut child = self.children.first_child(number);
        while child != 0 {
            list.push(child)?;
            child = self.children.next_sibling(child);
        }
        Ok(())
    }

    /// The nodes by number.
    pub(crate) fn as_slice(&self) -> &[Option<Twig>]
        ensures { result.now ≡ self.now }
    {
        self.nodes.as_slice()
    }
}
