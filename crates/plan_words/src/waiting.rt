//! A list of nodes that wait to be looked at. No node is on it twice.

ghost use Rattle.std.specs.Prelude.{◌≡◌, ◌⊎◌, ℕ, ◌<◌, ◌≤◌, ◌++◌, [], length, option_to_list, IfOk, IfSome, None};
ghost use Rattle.plan_words.specs.SearchLists.{AreMarked, IsOn, NoneMarked};

use std::alloc::{AllocError, Global};
use std::marker::Model;

/// A list of nodes that wait. Exactly those on the list are marked, and so each comes on it once and there is room for all.
#[derive(Drop)]
pub(crate) struct Waiting {
    nodes: Vec<u32>,
    marked: Vec<bool>,
}

impl Model for Waiting {
    ghost use Rattle.std.specs.Prelude.{length, vec_capacity};
    ghost use Rattle.plan_words.specs.SearchLists.{IsWaitingList, WaitingState};

    ghost Value = { WaitingState };

    ghost view = { λ w. record { nodes = w.nodes.items; size = length w.marked.items } };

    ghost invariant = { λ w. IsWaitingList w.nodes.items w.marked.items (vec_capacity w.nodes) };
}

impl Waiting {
    /// An empty list with room for so many nodes.
    pub(crate) fn new(alloc: Global, nodes: usize) -> Result<Waiting, AllocError>
        ensures { IfOk result (λ r. r ≡ record { nodes = []; size = nodes }) }
    {
        Ok(Waiting {
            nodes: Vec::with_capacity(alloc, nodes)?,
            marked: Vec::from_elem(alloc, false, nodes)?,
        })
    }

    /// Empties the list. O(n) for n nodes that are left on it.
    pub(crate) fn clear(&mut self)
        ensures { self.new ≡ record self.old { nodes = [] } }
    {
        unmark(&mut self.marked, self.nodes.as_slice());
        self.nodes.clear();
    }

    /// Puts a node on the list, if it is not there.
    pub(crate) fn push(&mut self, node: u32)
        requires low { node < self.old.size }
        ensures kept { self.new ≡ record self.old { nodes = self.new.nodes } }
        ensures here { IsOn self.new.nodes node }
        ensures keeps { (n : ℕ) → IsOn self.old.nodes n → IsOn self.new.nodes n }
        ensures only { (n : ℕ) → IsOn self.new.nodes n → IsOn self.old.nodes n ⊎ (n ≡ node) }
        ensures few { length self.new.nodes ≤ self.old.size }
    {
        if !self.marked[node as usize] {
            self.nodes.push_reserved(node);
            self.marked[node as usize] = true;
        }
    }

    /// Takes the last node off the list.
    pub(crate) fn pop(&mut self) -> Option<u32>
        ensures kept { self.new ≡ record self.old { nodes = self.new.nodes } }
        ensures popped { self.old.nodes ≡ self.new.nodes ++ option_to_list result }
        ensures none { result ≡ None → self.old.nodes ≡ [] }
        ensures low { IfSome result (λ n. n < self.old.size) }
    {
        let node = self.nodes.pop()?;
        self.marked[node as usize] = false;
        Some(node)
    }
}

/// Takes the marks off these nodes.
fn unmark(marked: &mut Vec<bool>, nodes: &[u32])
    requires { AreMarked nodes.now marked.old.items }
    ensures none { NoneMarked marked.new.items }
    ensures as_many { length marked.new.items ≡ length marked.old.items }
{
    for index in 0..nodes.len() {
        marked[nodes[index] as usize] = false;
    }
}
