//! The scratch lists of a pass. Searches keep there what is left to visit, and what they found, and a spread the nodes that wait.
//!
//! They are taken when the pass is made, with all the room that a search may need, so that no search takes memory. Each node of the
//! run may be found. A search visits each node once, so those that it has visited and those that wait are no more than all nodes; a
//! spot that is not wanted is written, too, and dropped again, so there is room for one more.

ghost use Rattle.std.specs.Prelude.{◌≡◌, ◌⊎◌, ℕ, ◌<◌, ◌≤◌, ◌+◌, ◌^◌, ◌++◌, ◌∷◌, [], if◌then◌else◌};
ghost use Rattle.std.specs.Prelude.{All, IfOk, IfSome, IsPermutation, None, Some, filter, length, map, option_to_list, slice_get, slice_set, take};
ghost use Rattle.std.specs.List.Sorted.{IsNonDecreasing};
ghost use Rattle.std.specs.Vec.{vec_capacity};
ghost use Rattle.plan_words.specs.SearchLists.{IsNoted, found_of_spot, is_dearer, no_search, noted_spot, numbers_of, HasSeenParent, IsOn};
ghost use Rattle.plan_words.specs.States.{tree_words, with_lists};
ghost use Rattle.step_core.specs.Histories.{IsLawfulView};

use crate::passes::Pass;
use crate::search_store::SearchStore;
use crate::spots::{Found, Spot};
use crate::waiting::Waiting;
use std::alloc::{AllocError, Global};

/// The lists.
#[derive(Drop)]
pub(crate) struct Scratch {
    pub(crate) search: SearchStore,
    pub(crate) near: Vec<u32>,
    pub(crate) around: Vec<u32>,
    pub(crate) waiting: Waiting,
}

impl Scratch {
    /// Empty lists with room for so many nodes.
    pub(crate) fn new(alloc: Global, nodes: usize) -> Result<Scratch, AllocError>
        requires { nodes < 2 ^ 32 }
        ensures empty { IfOk result (λ lists. (lists.search.lists ≡ no_search) × (lists.near.items ≡ [])
            × (lists.around.items ≡ []) × (lists.waiting ≡ record { nodes = []; size = nodes })) }
        ensures room { IfOk result (λ lists. (nodes < lists.search.room) × (nodes ≤ vec_capacity lists.near)
            × (nodes ≤ vec_capacity lists.around) × (lists.waiting.size ≡ nodes)) }
    {
        Ok(Scratch {
            search: SearchStore::new(alloc, nodes + 1)?,
            near: Vec::with_capacity(alloc, nodes)?,
            around: Vec::with_capacity(alloc, nodes)?,
            waiting: Waiting::new(alloc, nodes)?,
        })
    }
}

impl Pass {
    /// Begins a search: none waits, and none is found.
    pub fn clear_search(&mut self)
        ensures others { self.new ≡ with_lists self.old self.new.lists }
        ensures search { self.new.lists ≡ record self.old.lists { search = no_search } }
        // what the law says of a view holds of that of each pass
        ensures lawful { IsLawfulView self.new.view }
    {
        self.lists.search.clear();
    }

    /// Puts a spot at the end of those that wait, if it is wanted; no branch depends on that. Those that wait and those that were taken
    /// are no more than there are nodes. O(1).
    #[inline]
    pub fn put_spot_if(&mut self, spot: Spot, wanted: bool)
        requires { self.old.lists.search.taken + length self.old.lists.search.spots ≤ length self.old.view.run.marks + 1 }
        ensures others { self.new ≡ with_lists self.old self.new.lists }
        ensures put { self.new.lists ≡ record self.old.lists {
          search = record self.old.lists.search {
            spots = if wanted then self.old.lists.search.spots ++ spot ∷ [] else self.old.lists.search.spots;
          };
        } }
    {
        self.lists.search.put_if(spot, wanted);
    }

    /// The spot at this index of those that wait; `None` exactly if no more do. None was taken off. O(1).
    #[inline]
    pub fn spot(&self, index: usize) -> Option<Spot>
        requires { self.now.lists.search.taken ≡ 0 }
        ensures { slice_get self.now.lists.search.spots index ≡ result }
    {
        self.lists.search.spot(index)
    }

    /// Takes the last spot that waits; `None` exactly if none does. O(1).
    #[inline]
    pub fn pop_spot(&mut self) -> Option<Spot>
        ensures others { self.new ≡ with_lists self.old self.new.lists }
        ensures search { self.new.lists ≡ record self.old.lists {
          search = record self.old.lists.search {
            spots = self.new.lists.search.spots;
          };
        } }
        ensures popped { self.old.lists.search.spots ≡ self.new.lists.search.spots ++ option_to_list result }
        ensures none { result ≡ None → self.old.lists.search.spots ≡ [] }
    {
        self.lists.search.pop()
    }

    /// Notes a node at this squared distance in place of the spot at this index, which was visited. None was taken off. O(1).
    #[inline]
    pub fn note(&mut self, index: usize, node: u32, distance: u64)
        requires untaken { self.old.lists.search.taken ≡ 0 }
        requires within { index < length self.old.lists.search.spots }
        ensures others { self.new ≡ with_lists self.old self.new.lists }
        ensures noted { self.new.lists ≡ record self.old.lists {
          search = record self.old.lists.search { spots = slice_set self.old.lists.search.spots index (noted_spot node distance) };
        } }
    {
        self.lists.search.note(index, node, distance);
    }

    /// Ends a search that has visited all spots and noted what it found in place of the first so many. O(1).
    pub fn end_search(&mut self, count: usize)
        requires untaken { self.old.lists.search.taken ≡ 0 }
        requires within { count ≤ length self.old.lists.search.spots }
        requires noted { All IsNoted (take count self.old.lists.search.spots) }
        ensures others { self.new ≡ with_lists self.old self.new.lists }
        ensures ended { self.new.lists ≡ record self.old.lists {
          search = record {
            spots = [];
            taken = length self.old.lists.search.spots;
            found = map found_of_spot (take count self.old.lists.search.spots);
          };
        } }
        // what the law says of a view holds of that of each pass
        ensures lawful { IsLawfulView self.new.view }
    {
        self.lists.search.end(count);
    }

    /// How many nodes the search found. O(1).
    #[inline]
    pub fn found_count(&self) -> usize
        ensures { result ≡ length self.now.lists.search.found }
    {
        self.lists.search.found_count()
    }

    /// The node found at this index, which is below their count. O(1).
    #[inline]
    pub fn found(&self, index: usize) -> Found
        requires { index < length self.now.lists.search.found }
        ensures { slice_get self.now.lists.search.found index ≡ Some result }
    {
        self.lists.search.found(index)
    }

    /// Gives the one found at this index, which is below their count, this cost of its edge. O(1).
    #[inline]
    pub fn set_edge(&mut self, index: usize, edge: u32)
        requires { index < length self.old.lists.search.found }
        ensures others { self.new ≡ with_lists self.old self.new.lists }
        ensures set { IfSome (slice_get self.old.lists.search.found index) (λ found. self.new.lists ≡ record self.old.lists {
          search = record self.old.lists.search { found = slice_set self.old.lists.search.found index (record found { edge = edge }) };
        }) }
    {
        self.lists.search.set_edge(index, edge);
    }

    /// Keeps of the nodes found those that cost more, as the pass saw them last, than this and their edges, in rising number. A node's
    /// number is at most that of marks, and the cost is below 2^63. No branch depends on what is kept. O(n) for n found, and
    /// O(k log k) for k kept.
    pub fn keep_dearer(&mut self, cost: u64)
        requires cost { cost < 2 ^ 63 }
        requires low { All (λ f. f.node ≤ length self.old.view.run.marks) self.old.lists.search.found }
        ensures others { self.new ≡ with_lists self.old self.new.lists }
        ensures search { self.new.lists ≡ record self.old.lists { search = self.new.lists.search } }
        ensures spots { self.new.lists.search.spots ≡ [] }
        ensures same { IsPermutation (filter (is_dearer (tree_words self.old.view) cost) self.old.lists.search.found) self.new.lists.search.found }
        ensures rising { IsNonDecreasing (numbers_of self.new.lists.search.found) }
        // what the law says of a view holds of that of each pass
        ensures lawful { IsLawfulView self.new.view }
    {
        self.lists.search.keep_dearer(&self.pairs, cost);
    }

    /// Fills the near list with the nodes that the search found, in rising number. O(n log n) for n nodes.
    pub fn fill_near(&mut self)
        requires { length self.old.lists.search.found ≤ length self.old.view.run.marks + 1 }
        ensures others { self.new ≡ with_lists self.old self.new.lists }
        ensures near { self.new.lists ≡ record self.old.lists { near = self.new.lists.near } }
        ensures same { IsPermutation (numbers_of self.old.lists.search.found) self.new.lists.near }
        ensures rising { IsNonDecreasing self.new.lists.near }
    {
        fill_sorted(&mut self.lists.near, &self.lists.search);
    }

    /// Fills the second list with them.
    pub fn fill_around(&mut self)
        requires { length self.old.lists.search.found ≤ length self.old.view.run.marks + 1 }
        ensures others { self.new ≡ with_lists self.old self.new.lists }
        ensures around { self.new.lists ≡ record self.old.lists { around = self.new.lists.around } }
        ensures same { IsPermutation (numbers_of self.old.lists.search.found) self.new.lists.around }
        ensures rising { IsNonDecreasing self.new.lists.around }
    {
        fill_sorted(&mut self.lists.around, &self.lists.search);
    }

    /// The near list: the nodes that the last search for near nodes found, in rising number. O(1).
    pub fn near_list(&self) -> &[u32]
        ensures { result.now ≡ self.now.lists.near }
    {
        self.lists.near.as_slice()
    }

    /// The node at this index of the near list, which is below their count. O(1). Whoever steps with the pass while it walks
    /// the list reads it by index.
    pub fn near_node(&self, index: usize) -> u32
        requires { index < length self.now.lists.near }
        ensures { slice_get self.now.lists.near index ≡ Some result }
    {
        self.lists.near[index]
    }

    /// How many nodes are on the near list. O(1).
    pub fn near_count(&self) -> usize
        ensures count { result ≡ length self.now.lists.near }
        // what the law says of a view holds of that of each pass
        ensures lawful { IsLawfulView self.now.view }
    {
        self.lists.near.len()
    }

    /// The second list: the nodes that the last search around a point found, in rising number. O(1).
    pub fn around_list(&self) -> &[u32]
        ensures { result.now ≡ self.now.lists.around }
    {
        self.lists.around.as_slice()
    }

    /// Empties the list of the nodes that wait to be looked at. O(n) for n nodes that are left on it.
    pub fn clear_waiting(&mut self)
        ensures others { self.new ≡ with_lists self.old self.new.lists }
        ensures waiting { self.new.lists ≡ record self.old.lists { waiting = [] } }
        ensures lawful { IsLawfulView self.new.view }
    {
        self.lists.waiting.clear();
    }

    /// Puts a node on the list of those that wait, if it has a child by the tree words that the pass saw last and is not there. A
    /// node's number is at most that of marks. O(1).
    pub fn queue_parent(&mut self, node: u32)
        requires low { node ≤ length self.old.view.run.marks }
        ensures others { self.new ≡ with_lists self.old self.new.lists }
        ensures waiting { self.new.lists ≡ record self.old.lists { waiting = self.new.lists.waiting } }
        ensures parent { (n : ℕ) → HasSeenParent self.old.view node n → IsOn self.new.lists.waiting node }
        ensures keeps { (n : ℕ) → IsOn self.old.lists.waiting n → IsOn self.new.lists.waiting n }
        ensures only { (n : ℕ) → IsOn self.new.lists.waiting n → IsOn self.old.lists.waiting n ⊎ (n ≡ node) }
        // there are never more on it than there may be nodes
        ensures few { (self.new.lists.waiting ≡ self.old.lists.waiting) ⊎ (length self.new.lists.waiting ≤ length self.old.view.run.marks + 1) }
    {
        if self.pairs.has_child(node) {
            self.lists.waiting.push(node);
        }
    }

    /// Takes the last of the nodes that wait off their list; `None` exactly if none does. O(1).
    pub fn pop_waiting(&mut self) -> Option<u32>
        ensures others { self.new ≡ with_lists self.old self.new.lists }
        ensures waiting { self.new.lists ≡ record self.old.lists { waiting = self.new.lists.waiting } }
        ensures popped { self.old.lists.waiting ≡ self.new.lists.waiting ++ option_to_list result }
        ensures none { result ≡ None → self.old.lists.waiting ≡ [] }
        ensures low { IfSome result (λ n. n ≤ length self.old.view.run.marks) }
        // it was on the list, which has all others still, and is shorter
        ensures was_on { IfSome result (λ n. IsOn self.old.lists.waiting n) }
        ensures keeps { (n : ℕ) → IsOn self.old.lists.waiting n → IsOn self.new.lists.waiting n ⊎ (result ≡ Some n) }
        ensures only { (n : ℕ) → IsOn self.new.lists.waiting n → IsOn self.old.lists.waiting n }
        ensures shorter { IfSome result (λ n. length self.new.lists.waiting < length self.old.lists.waiting) }
        // what the law says of a view holds of that of each pass
        ensures lawful { IsLawfulView self.new.view }
    {
        self.lists.waiting.pop()
    }
}

/// Fills a list with the nodes found, in rising number.
fn fill_sorted(list: &mut Vec<u32>, search: &SearchStore)
    requires { length search.now.lists.found ≤ vec_capacity list.old }
    ensures room { vec_capacity list.new ≡ vec_capacity list.old }
    ensures same { IsPermutation (numbers_of search.now.lists.found) list.new.items }
    ensures rising { IsNonDecreasing list.new.items }
{
    list.clear();
    for index in 0..search.found_count() {
        list.push_reserved(search.found(index).node);
    }
    list.sort_unstable();
}
