//! The parents and costs that a pass saw last, with the children of each node by them.

ghost use Rattle.std.specs.Prelude.{◌≡◌, ◌⊎◌, ℕ, suc, ◌<◌, ◌≤◌, ◌^◌, length, slice_index, slice_set, IfNone, IfOk, IfSome, IsTrue, None, [], ◌∷◌, ◌+◌};
ghost use Rattle.std.specs.Vec.{vec_capacity};
ghost use Rattle.plan_words.specs.LoweredChildren.{CostsAtMostThrough, HasQueued, IsFoundChild, IsSeenAbove, LooksOn, LowersChildren, PostsChanged};
ghost use Rattle.plan_words.specs.LoweredChildren.{SeesSamePoints, SitsAt, AreSeenFirst, MayReach, Reaches, chain_of, sibling_chain_in};
ghost use Rattle.plan_words.specs.Nodes.{FindsLess};
ghost use Rattle.plan_words.specs.States.{HasPairs, HasWholeShare};
ghost use Rattle.plan_words.specs.SearchLists.{HasSeenParent, IsOn};
ghost use Rattle.grown_runs.specs.Runs.GrownRuns.{words_of_grown};
ghost use Rattle.step_core.specs.Views.{sees, share};
ghost use Rattle.grown_runs.specs.Table.WordNames.Word.{TreeOf};
ghost use Rattle.grown_runs.specs.Table.Words.{cost_in, parent_in};

use crate::lowered_children::{FoundChild, Lowering, lower_chain};
use crate::openings::Aim;
use crate::waiting::Waiting;
use atomic_table::Seat;
use std::alloc::{AllocError, Global};
use std::marker::Model;
use step_core::{ChildIndex, Grown, Hand, View, read_tree};

/// The tree word of each node as a pass saw it last, 0 if it did not, with an index from each node to those that have it as their
/// parent by these words. To a contract it is the list of the words.
///
/// The lists have room for all nodes, and an entry at least for each up to the greatest that was seen, as a node or as a parent.
#[derive(Drop)]
pub(crate) struct SeenPairs {
    /// How many nodes there may be.
    nodes: u32,
    /// The words of the first of them. All others are not seen, and have no child.
    words: Vec<u64>,
    children: ChildIndex,
}

impl Model for SeenPairs {
    ghost use Rattle.std.specs.Prelude.{ℕ, List};
    ghost use Rattle.std.specs.Vec.{vec_capacity};
    ghost use Rattle.plan_words.specs.LoweredChildren.{AreSeenFirst, seen_words};

    ghost Value = { List ℕ };

    ghost view = { λ p. seen_words p.nodes p.words.items };

    ghost invariant = { λ p. AreSeenFirst p.nodes p.words.items (vec_capacity p.words) p.children };
}

impl SeenPairs {
    /// The tree words of a closed run. O(n) for n marks below its limit.
    pub(crate) fn of_run(alloc: Global, grown: &Grown) -> Result<SeenPairs, AllocError>
        ensures count { IfOk result (λ r. length r ≡ length grown.now.task.marks + 1) }
        ensures each { IfOk result (λ r. (n : ℕ) → n ≤ length grown.now.task.marks → slice_index r n ≡ words_of_grown grown.now (TreeOf n)) }
    {
        let nodes = grown.task().marks.len() + 1;
        let mut words = Vec::with_capacity(alloc, nodes)?;
        words.push_reserved(0u64);
        let mut children = ChildIndex::new(alloc, nodes)?;
        see_run(&mut words, &mut children, grown);
        Ok(SeenPairs {
            nodes: nodes as u32,
            words,
            children,
        })
    }

    /// The same words again. O(n) for n entries.
    pub(crate) fn copy(&self, alloc: Global) -> Result<SeenPairs, AllocError>
        ensures { IfOk result (λ r. r ≡ self.now) }
    {
        let mut words = Vec::with_capacity(alloc, self.nodes as usize)?;
        words.extend_from_slice(self.words.as_slice())?;
        let children = self.children.copy(alloc, self.nodes as usize)?;
        Ok(SeenPairs {
            nodes: self.nodes,
            words,
            children,
        })
    }

    /// How many nodes there may be.
    pub(crate) fn len(&self) -> u32
        ensures { result ≡ length self.now }
    {
        self.nodes
    }

    /// The word of a node.
    pub(crate) fn word(&self, node: u32) -> u64
        requires { node < length self.now }
        ensures { result ≡ slice_index self.now node }
    {
        match self.words.get(node as usize) {
            Some(word) => *word,
            None => 0,
        }
    }

    /// A node is seen with this word. O(1), and O(n) once if the lists get longer by n entries. Mostly it was seen with it before.
    #[inline(always)]
    pub(crate) fn set(&mut self, node: u32, word: u64)
        requires node { node < length self.old }
        requires parent { 2 ^ 63 ≤ word → parent_in word < length self.old }
        ensures { self.new ≡ slice_set self.old node word }
    {
        if self.word(node) != word {
            self.set_anew(node, word);
        }
    }

    /// The same, of another word than before.
    #[inline(never)]
    fn set_anew(&mut self, node: u32, word: u64)
        requires node { node < length self.old }
        requires parent { 2 ^ 63 ≤ word → parent_in word < length self.old }
        ensures { self.new ≡ slice_set self.old node word }
    {
        let before = self.word(node);
        let chain = chain_of(node, word);
        reach(
            &mut self.words,
            &mut self.children,
            chain.max(node + 1) as usize,
        );
        self.children.relink(node, chain_of(node, before), chain);
        self.words[node as usize] = word;
    }

    /// Whether a node has a child.
    pub(crate) fn has_child(&self, parent: u32) -> bool
        requires { parent < length self.now }
        ensures { (n : ℕ) → sibling_chain_in self.now n ≡ suc parent → IsTrue result }
    {
        (parent as usize) < self.words.len() && self.children.first_child(parent) != 0
    }

    /// Lowers the children of a node.
    pub(crate) fn lower_children(
        &mut self,
        from: Lowering<'_>,
        seat: &mut Seat<Aim, View>,
        hand: &mut Option<Hand>,
        waiting: &mut Waiting,
    ) -> Option<FoundChild>
        requires sits { SitsAt from.shared.now seat.old.table_id seat.old.me }
        requires held { hand.old ≡ seat.old.me.0.hand }
        requires part { 0 < share seat.old.me.0 }
        requires pairs { HasPairs seat.old.me.0 self.old }
        requires above { IsSeenAbove seat.old.me.0 from.above }
        requires size { waiting.old.size ≡ length self.old }
        ensures as_many { length self.new ≡ length self.old }
        ensures sits { SitsAt from.entry.shared.now seat.new.table_id seat.new.me }
        ensures held { hand.new ≡ seat.new.me.0.hand }
        ensures looks { LooksOn seat.old.me.0 seat.new.me.0 }
        ensures pairs { IfNone result (HasPairs seat.new.me.0 self.new) }
        ensures pairs_found { IfSome result (λ found. HasPairs seat.new.me.0 (slice_set self.new found.node found.word)) }
        ensures size { waiting.new ≡ record waiting.old { nodes = waiting.new.nodes } }
        ensures lowered { LowersChildren (IsFoundChild result) seat.old.me.0 seat.new.me.0 from.entry.above.node }
        ensures posted { PostsChanged (IsFoundChild result) seat.old.me.0 seat.new.me.0 }
        ensures all { IfNone result ((n : ℕ) → HasSeenParent seat.new.me.0 from.entry.above.node n → CostsAtMostThrough seat.new.me.0 from.entry.above.node n) }
        ensures found { IfSome result (λ found. HasSeenParent seat.old.me.0 from.entry.above.node found.node
            × FindsLess (sees seat.old.me.0 (TreeOf found.node)) (sees seat.new.me.0 (TreeOf found.node))) }
        ensures parents { (n m : ℕ) → ¬ IsFoundChild result n → ¬ IsFoundChild result m
            → cost_in (sees seat.new.me.0 (TreeOf n)) < cost_in (sees seat.old.me.0 (TreeOf n)) → HasSeenParent seat.new.me.0 n m → IsOn waiting.new.nodes n }
        ensures keeps { (n : ℕ) → IsOn waiting.old.nodes n → IsOn waiting.new.nodes n }
        ensures only { (n : ℕ) → IsOn waiting.new.nodes n → IsOn waiting.old.nodes n ⊎ HasSeenParent seat.old.me.0 from.entry.above.node n }
        ensures same { (waiting.new.nodes ≡ waiting.old.nodes) ⊎ HasQueued seat.old.me.0 seat.new.me.0 waiting.new.nodes waiting.old.size }
        ensures whole { HasWholeShare seat.old.me.0 → result ≡ None }
        ensures points { HasWholeShare seat.old.me.0 → SeesSamePoints seat.old.me.0 seat.new.me.0 }
    {
        if from.above.node as usize >= self.words.len() {
            return None;
        }
        lower_chain(&mut self.words, &self.children, from, seat, hand, waiting)
    }
}

/// Sees the tree words of a closed run, of which none past the limit is written, in lists that have seen no node.
fn see_run(words: &mut Vec<u64>, children: &mut ChildIndex, grown: &Grown)
    requires first { AreSeenFirst (length grown.now.task.marks + 1) words.old.items (vec_capacity words.old) children.old }
    requires unseen { words.old.items ≡ 0 ∷ [] }
    ensures first { AreSeenFirst (length grown.now.task.marks + 1) words.new.items (vec_capacity words.new) children.new }
    ensures each { (n : ℕ) → slice_index words.new.items n ≡ words_of_grown grown.now (TreeOf n) }
{
    let nodes = grown.limit() + 1;
    lengthen(words, children, nodes as usize);
    for node in 0..nodes {
        let word = grown.words().tree(node as usize);
        children.relink(node, 0, chain_of(node, word));
        words[node as usize] = word;
    }
}

/// The chain that a node is in by this word.
fn chain_of(node: u32, word: u64) -> u32
    ensures { result ≡ chain_of node word }
{
    if node == 0 {
        return 0;
    }
    match read_tree(word) {
        Some((parent, _)) => parent + 1,
        None => 0,
    }
}

/// Makes the lists as long as so many nodes need.
fn reach(words: &mut Vec<u64>, children: &mut ChildIndex, nodes: usize)
    requires { MayReach nodes words.old.items (vec_capacity words.old) children.old }
    ensures { Reaches nodes words.old.items (vec_capacity words.old) children.old words.new.items (vec_capacity words.new) children.new }
{
    if words.len() < nodes {
        lengthen(words, children, nodes);
    }
}

/// Puts nodes that are not seen at the end of the lists, until they are as long as so many need. It is called seldom, and so out of
/// line.
#[inline(never)]
fn lengthen(words: &mut Vec<u64>, children: &mut ChildIndex, nodes: usize)
    requires { MayReach nodes words.old.items (vec_capacity words.old) children.old }
    ensures { Reaches nodes words.old.items (vec_capacity words.old) children.old words.new.items (vec_capacity words.new) children.new }
{
    while words.len() < nodes {
        words.push_reserved(0);
        children.push_reserved();
    }
}
