//! An index from each number to its children: first child and next sibling (Knuth, The Art of Computer Programming, volume 1,
//! section 2.3.2), with the sibling before besides.

ghost use Rattle.std.specs.Prelude.{◌≡◌, ℕ, suc, ◌∷◌, ◌<◌, ◌≤◌, IfOk, OnErr, OnOk, slice_set};
ghost use Rattle.std.specs.Vec.{vec_capacity, vec_len};
ghost use Rattle.grown_runs.specs.ChildChains.{AreMembers, FitsNumbers, FitsOneMore, HasInChain, HasOneMore, HasSameChains};
ghost use Rattle.grown_runs.specs.ChildChains.{IndexesChains, KeepsRoom, MovesNode, firsts_of, nexts_of, previouses_of};
ghost use Rattle.grown_runs.specs.ChildChains.{siblings_from, size_of};

use std::alloc::{AllocError, Global};

/// The first child of a number, and its neighbours among the children of its parent.
#[derive(Clone, Copy)]
struct Links {
    first: u32,
    next: u32,
    previous: u32,
}

/// The children of each number, as a chain that is linked both ways: per number its first child, and its neighbours among the
/// children of its parent. 0 is no child, as number 0 is nobody's; so the neighbours of 0 mean nothing, and are written where
/// a child has none. The index does not have the parents: the caller that moves a number says where it was. A child that comes to a parent
/// is its first, so children stand in no order that means anything.
///
/// A chain has the number of its parent and 1; 0 is that of a number that is nobody's child.
#[derive(Drop)]
pub struct ChildIndex {
    links: Vec<Links>,
}

impl ChildIndex {
    /// Number 0 alone, which has no child, with room for `room` numbers. O(1).
    ///
    /// # Errors
    ///
    /// `AllocError` if out of memory.
    pub fn new(alloc: Global, room: usize) -> Result<ChildIndex, AllocError>
        requires { 0 < room }
        ensures chains { IfOk result (λ r. IndexesChains 1 (λ n. 0) r) }
        ensures room { IfOk result (λ r. FitsNumbers r room) }
    {
        let mut links = Vec::with_capacity(alloc, room)?;
        links.push_reserved(Links {
            first: 0,
            next: 0,
            previous: 0,
        });
        Ok(ChildIndex { links })
    }

    /// The same index again, with room for `room` numbers. O(n) for n numbers.
    ///
    /// # Errors
    ///
    /// `AllocError` if out of memory.
    pub fn copy(&self, alloc: Global, room: usize) -> Result<ChildIndex, AllocError>
        ensures chains { IfOk result (λ r. HasSameChains self.now r) }
        ensures room { IfOk result (λ r. FitsNumbers r room) }
    {
        let mut links = Vec::with_capacity(alloc, room)?;
        links.extend_from_slice(self.links.as_slice())?;
        Ok(ChildIndex { links })
    }

    /// Adds the next number, which has no child and is nobody's. O(1), amortized over many.
    ///
    /// # Errors
    ///
    /// `AllocError` if out of memory; the index is then as it was.
    pub fn push(&mut self) -> Result<(), AllocError>
        ensures more { OnOk result (HasOneMore self.old self.new) }
        ensures unchanged { OnErr result (HasSameChains self.old self.new) }
    {
        self.links.reserve(1)?;
        self.append();
        Ok(())
    }

    /// Adds the next number, which has no child and is nobody's, in the room that is there. O(1).
    pub fn push_reserved(&mut self)
        requires { FitsOneMore self.old }
        ensures more { HasOneMore self.old self.new }
        ensures room { KeepsRoom self.old self.new }
    {
        self.append();
    }

    /// Moves a number from one chain to the front of another. O(1).
    pub fn relink(&mut self, node: u32, from: u32, to: u32)
        requires here { HasInChain self.old node from }
        requires root { node ≡ 0 → to ≡ 0 }
        requires parent { to ≤ size_of self.old }
        ensures moves { MovesNode node from to self.old self.new }
        ensures room { KeepsRoom self.old self.new }
    {
        if from == to {
            return;
        }
        self.take_out(node, from);
        self.put_in(node, to);
    }

    /// The first child of a number, where a walk over all its children begins; 0 if it has none. O(1).
    #[inline]
    pub fn first_child(&self, parent: u32) -> u32
        requires { parent < size_of self.now }
        ensures { (nodes : ℕ) (chain : ℕ → ℕ) → IndexesChains nodes chain self.now → AreMembers chain (suc parent) (siblings_from self.now result) }
    {
        self.links[parent as usize].first
    }

    /// The next child of the same parent on such a walk; 0 if there is no other. O(1).
    #[inline]
    pub fn next_sibling(&self, node: u32) -> u32
        requires { (l : ℕ) × (0 < l) × HasInChain self.now node l }
        ensures { siblings_from self.now node ≡ node ∷ siblings_from self.now result }
    {
        self.links[node as usize].next
    }

    /// Makes the list longer by a number.
    fn append(&mut self)
        requires room { vec_len self.old.links < vec_capacity self.old.links }
        ensures more { HasOneMore self.old self.new }
        ensures room { KeepsRoom self.old self.new }
    {
        self.links.push_reserved(Links {
            first: 0,
            next: 0,
            previous: 0,
        });
    }

    /// Takes a number out of the chain that it is in, if it is in one.
    fn take_out(&mut self, node: u32, from: u32)
        requires here { HasInChain self.old node from }
        ensures moves { MovesNode node from 0 self.old self.new }
        ensures room { KeepsRoom self.old self.new }
    {
        if from == 0 {
            return;
        }
        let before = self.links[node as usize].previous;
        let after = self.links[node as usize].next;
        self.set_next(before, after);
        self.set_previous(after, before);
        if before == 0 {
            self.set_first(from - 1, after);
        }
    }

    /// Puts a number that is in no chain to the front of one, unless that is 0.
    fn put_in(&mut self, node: u32, to: u32)
        requires here { HasInChain self.old node 0 }
        requires root { node ≡ 0 → to ≡ 0 }
        requires parent { to ≤ size_of self.old }
        ensures moves { MovesNode node 0 to self.old self.new }
        ensures room { KeepsRoom self.old self.new }
    {
        if to == 0 {
            return;
        }
        let parent = to - 1;
        let front = self.links[parent as usize].first;
        self.set_next(node, front);
        self.set_previous(front, node);
        self.set_previous(node, 0);
        self.set_first(parent, node);
    }

    /// Sets the first child of a number.
    #[tactic(auto, using(crate::proofs::Children::MovedChildren::written_links))]
    fn set_first(&mut self, node: u32, first: u32)
        requires { node < size_of self.old }
        ensures firsts { firsts_of self.new ≡ slice_set (firsts_of self.old) node first }
        ensures nexts { nexts_of self.new ≡ nexts_of self.old }
        ensures previouses { previouses_of self.new ≡ previouses_of self.old }
        ensures room { KeepsRoom self.old self.new }
    {
        self.links[node as usize].first = first;
    }

    /// Sets the next sibling of a number.
    #[tactic(auto, using(crate::proofs::Children::MovedChildren::written_links))]
    fn set_next(&mut self, node: u32, next: u32)
        requires { node < size_of self.old }
        ensures firsts { firsts_of self.new ≡ firsts_of self.old }
        ensures nexts { nexts_of self.new ≡ slice_set (nexts_of self.old) node next }
        ensures previouses { previouses_of self.new ≡ previouses_of self.old }
        ensures room { KeepsRoom self.old self.new }
    {
        self.links[node as usize].next = next;
    }

    /// Sets the sibling before of a number.
    #[tactic(auto, using(crate::proofs::Children::MovedChildren::written_links))]
    fn set_previous(&mut self, node: u32, previous: u32)
        requires { node < size_of self.old }
        ensures firsts { firsts_of self.new ≡ firsts_of self.old }
        ensures nexts { nexts_of self.new ≡ nexts_of self.old }
        ensures previouses { previouses_of self.new ≡ slice_set (previouses_of self.old) node previous }
        ensures room { KeepsRoom self.old self.new }
    {
        self.links[node as usize].previous = previous;
    }
}
