//! What a search keeps: the nodes that wait to be visited, and those that it found.

ghost use Rattle.std.specs.Prelude.{◌≡◌, ◌<◌, ◌≤◌, ◌+◌, ◌++◌, ◌∷◌, [], if◌then◌else◌};
ghost use Rattle.std.specs.Prelude.{◌^◌, All, IfOk, IfSome, IsPermutation, None, Some, filter, length, map, option_to_list, slice_get, slice_index, slice_set, take};
ghost use Rattle.std.specs.List.Sorted.{IsNonDecreasing};
ghost use Rattle.std.specs.Vec.{vec_capacity};
ghost use Rattle.plan_words.specs.SearchLists.{IsNoted, found_in, found_of_spot, is_dearer, no_search, noted_spot, numbers_of};

use crate::seen_pairs::SeenPairs;
use crate::spots::{Cell, Found, Spot};
use std::alloc::{AllocError, Global};
use std::marker::Model;
use step_core::pair_in;

/// A plain list of cells of which so many were taken off; the rest are the spots that wait. In front, where cells were taken off, stand
/// the nodes that were found, never more than were taken. A search that visits spots in the order in which they came takes none off
/// before it ends: it counts them itself, and notes what it finds in the cells of those that it has visited.
#[derive(Drop)]
pub(crate) struct SearchStore {
    cells: Vec<Cell>,
    taken: usize,
    count: usize,
}

impl Model for SearchStore {
    ghost use Rattle.std.specs.Prelude.{vec_capacity};
    ghost use Rattle.plan_words.specs.SearchLists.{IsSearchStore, SearchState, lists_in};

    ghost Value = { SearchState };

    ghost view = { λ s. record { lists = lists_in s.cells.items s.taken s.count; room = vec_capacity s.cells } };

    ghost invariant = { λ s. IsSearchStore s.cells.items s.taken s.count };
}

impl SearchStore {
    /// An empty store with room for so many spots.
    pub(crate) fn new(alloc: Global, spots: usize) -> Result<SearchStore, AllocError>
        ensures empty { IfOk result (λ r. r.lists ≡ no_search) }
        ensures room { IfOk result (λ r. spots ≤ r.room) }
    {
        Ok(SearchStore {
            cells: Vec::with_capacity(alloc, spots)?,
            taken: 0,
            count: 0,
        })
    }

    /// Empties it.
    pub(crate) fn clear(&mut self)
        ensures { self.new ≡ record self.old { lists = no_search } }
    {
        self.cells.clear();
        self.taken = 0;
        self.count = 0;
    }

    /// Puts a spot at the end of those that wait, if it is wanted. It is always written, so that no branch depends on that.
    pub(crate) fn put_if(&mut self, spot: Spot, wanted: bool)
        requires { self.old.lists.taken + length self.old.lists.spots < self.old.room }
        ensures { self.new ≡ record self.old {
          lists = record self.old.lists {
            spots = if wanted then self.old.lists.spots ++ spot ∷ [] else self.old.lists.spots;
          };
        } }
    {
        self.cells.push_reserved(Cell::of(spot));
        if !wanted {
            let _last = self.cells.take_last();
        }
    }

    /// The spot at this index of those that came, if none was taken off yet.
    #[inline]
    pub(crate) fn spot(&self, index: usize) -> Option<Spot>
        requires { self.now.lists.taken ≡ 0 }
        ensures { slice_get self.now.lists.spots index ≡ result }
    {
        let cell = *self.cells.as_slice().get(index)?;
        Some(cell.spot())
    }

    /// Takes the last spot that waits.
    pub(crate) fn pop(&mut self) -> Option<Spot>
        ensures others { self.new ≡ record self.old { lists = record self.old.lists { spots = self.new.lists.spots } } }
        ensures popped { self.old.lists.spots ≡ self.new.lists.spots ++ option_to_list result }
        ensures none { result ≡ None → self.old.lists.spots ≡ [] }
    {
        if self.cells.len() == self.taken {
            return None;
        }
        let cell = self.cells.pop()?;
        Some(cell.spot())
    }

    /// Notes a node at this squared distance in the cell of the spot at this index.
    #[inline]
    pub(crate) fn note(&mut self, index: usize, node: u32, distance: u64)
        requires untaken { self.old.lists.taken ≡ 0 }
        requires within { index < length self.old.lists.spots }
        ensures { self.new ≡ record self.old { lists = record self.old.lists { spots = slice_set self.old.lists.spots index (noted_spot node distance) } } }
    {
        self.cells[index] = Cell::noted(node, distance);
    }

    /// Ends a search that has visited all spots and noted nodes in the first so many cells.
    pub(crate) fn end(&mut self, count: usize)
        requires untaken { self.old.lists.taken ≡ 0 }
        requires within { count ≤ length self.old.lists.spots }
        requires noted { All IsNoted (take count self.old.lists.spots) }
        ensures { self.new ≡ record self.old {
          lists = record {
            spots = [];
            taken = length self.old.lists.spots;
            found = map found_of_spot (take count self.old.lists.spots);
          };
        } }
    {
        self.taken = self.cells.len();
        self.count = count;
    }

    /// Gives the one found at this index this cost of its edge.
    #[inline]
    pub(crate) fn set_edge(&mut self, index: usize, edge: u32)
        requires { index < length self.old.lists.found }
        ensures { IfSome (slice_get self.old.lists.found index) (λ found.
            self.new ≡ record self.old {
              lists = record self.old.lists {
                found = slice_set self.old.lists.found index (record found { edge = edge });
              };
            }) }
    {
        self.cells[index] = self.cells[index].with_edge(edge);
    }

    /// Keeps those found that were seen to cost more than this and their edges, in rising number. No branch depends on which do, and none
    /// waits then.
    pub(crate) fn keep_dearer(&mut self, pairs: &SeenPairs, cost: u64)
        requires cost { cost < 2 ^ 63 }
        requires low { All (λ f. f.node < length pairs.now) self.old.lists.found }
        ensures room { self.new.room ≡ self.old.room }
        ensures spots { self.new.lists.spots ≡ [] }
        ensures same { IsPermutation (filter (is_dearer (slice_index pairs.now) cost) self.old.lists.found) self.new.lists.found }
        ensures rising { IsNonDecreasing (numbers_of self.new.lists.found) }
    {
        let kept = keep_in_front(&mut self.cells, pairs, self.count, cost);
        self.cells.truncate(kept);
        self.cells.sort_unstable_by_key(|cell| cell.node);
        self.taken = kept;
        self.count = kept;
    }

    /// How many were found.
    pub(crate) fn found_count(&self) -> usize
        ensures { result ≡ length self.now.lists.found }
    {
        self.count
    }

    /// The found node at this index.
    pub(crate) fn found(&self, index: usize) -> Found
        requires { index < length self.now.lists.found }
        ensures { slice_get self.now.lists.found index ≡ Some result }
    {
        self.cells[index].found()
    }
}

/// Brings those of the first cells to the front that were seen to cost more than this and their edges, and returns how many they are.
/// Each is written there, and counted if it is one.
fn keep_in_front(cells: &mut Vec<Cell>, pairs: &SeenPairs, found: usize, cost: u64) -> usize
    requires within { found ≤ length cells.old.items }
    requires cost { cost < 2 ^ 63 }
    requires low { All (λ cell. cell.node < length pairs.now) (take found cells.old.items) }
    ensures within { result ≤ length cells.new.items }
    ensures room { vec_capacity cells.new ≡ vec_capacity cells.old }
    ensures kept { take result cells.new.items ≡ filter (λ cell. is_dearer (slice_index pairs.now) cost (found_in cell)) (take found cells.old.items) }
{
    let mut kept = 0;
    'founds: for index in 0..found {
        let cell = cells[index];
        cells[kept] = cell;
        let (_, seen) = pair_in(pairs.word(cell.node));
        let is_dearer = cost + u64::from(cell.found().edge) < seen;
        kept += usize::from(is_dearer);
    }
    kept
}
