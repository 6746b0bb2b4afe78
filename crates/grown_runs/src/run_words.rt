//! The words of a run in one list, which are read and written by their names.

ghost use Rattle.std.specs.Prelude.{◌≡◌, ◌≤◌, ◌<◌, ◌+◌, ◌^◌, IfOk, length, slice_index, slice_set};
ghost use Rattle.plan_model.specs.Scenes.MarkPoints.{strip_of_mark};
ghost use Rattle.grown_runs.specs.Runs.GrownWords.{has_node, record_at, sizes_of};
ghost use Rattle.grown_runs.specs.Table.PlacesOfWords.{sizes_in};
ghost use Rattle.grown_runs.specs.Table.WordNames.{Word, WritesWord};
ghost use Rattle.grown_runs.specs.Table.WordNames.Word.{Best, ChildOf, Count, Counter, FirstOf, PointOf, RecordOf, TreeOf};
ghost use Rattle.grown_runs.specs.Table.WordPlaces.{HasWord, place_of, word_count};

use crate::record_words::read_mark;
use crate::word_places::WordPlaces;
use plan_model::{Outcome, Record, Task};
use std::alloc::{AllocError, Global};

/// The words of a run, as many as its places say. A word is read or written in O(1), and a write changes no other.
#[derive(Drop)]
pub struct RunWords {
    list: Vec<u64>,
    places: WordPlaces,
    ghost sized: { length list.items ≡ word_count (sizes_in places) },
}

impl RunWords {
    ghost use Rattle.grown_runs.specs.Table.RunWords.{words_in};

    /// The words of a task's run, each 0. O(n) for n words.
    ///
    /// # Errors
    ///
    /// `AllocError` if out of memory.
    pub fn new(alloc: Global, task: &Task) -> Result<RunWords, AllocError>
        ensures sizes { IfOk result (λ words. sizes_in words.places ≡ sizes_of task.now) }
        ensures zeros { IfOk result (λ words. (name : Word) → words_in words name ≡ 0) }
    {
        let places = WordPlaces::of(task);
        let list = vec![in alloc; 0; places.len()]?;
        Ok(RunWords { list, places })
    }

    /// The places of the words. O(1).
    pub fn places(&self) -> WordPlaces
        ensures { result ≡ self.now.places }
    {
        self.places
    }

    /// The list of the words, each at its place. O(1).
    pub fn as_slice(&self) -> &[u64]
        ensures { result.now ≡ self.now.list.items }
    {
        self.list.as_slice()
    }

    /// The count of nodes.
    pub fn count(&self) -> u64
        ensures { result ≡ words_in self.now Count }
    {
        self.at(self.places.count())
    }

    /// The word of a node's point. A node's number, here and below, is at most that of marks.
    pub fn point(&self, node: usize) -> u64
        requires { node ≤ (sizes_in self.now.places).marks }
        ensures { result ≡ words_in self.now (PointOf node) }
    {
        self.at(self.places.point(node))
    }

    /// The word of a node's left or right child: its number, or 0 if it has none.
    pub fn child(&self, node: usize, right: bool) -> u64
        requires { node ≤ (sizes_in self.now.places).marks }
        ensures { result ≡ words_in self.now (ChildOf node right) }
    {
        self.at(self.places.child(node, right))
    }

    /// The word of a node's parent and kept cost.
    pub fn tree(&self, node: usize) -> u64
        requires { node ≤ (sizes_in self.now.places).marks }
        ensures { result ≡ words_in self.now (TreeOf node) }
    {
        self.at(self.places.tree(node))
    }

    /// The word of a mark's record, without the first word of its node.
    pub fn record(&self, mark: usize) -> u64
        requires { mark < (sizes_in self.now.places).marks }
        ensures { result ≡ words_in self.now (RecordOf mark) }
    {
        self.at(self.places.record(mark))
    }

    /// The record of a mark; `None` exactly if it has none, as each number past the marks.
    pub fn record_at(&self, mark: usize) -> Option<Record>
        ensures { result ≡ record_at (words_in self.now) mark }
    {
        if mark >= self.places.marks() {
            return None;
        }
        read_mark(self.record(mark), self.at(self.places.first(mark + 1)))
    }

    /// Whether a number has a node, by its record: it is the start's, or its mark was placed.
    pub fn has_node(&self, node: usize) -> bool
        ensures { result ≡ has_node (words_in self.now) node }
    {
        if node == 0 {
            return true;
        }
        let entry = self.record_at(node - 1);
        matches!(entry, Some(entry) if entry.outcome == Outcome::Placed)
    }

    /// Writes the count of nodes.
    pub fn set_count(&mut self, count: u64)
        ensures places { self.new.places ≡ self.old.places }
        ensures word { WritesWord Count count (words_in self.old) (words_in self.new) }
    {
        self.set(self.places.count(), count);
    }

    /// Writes the best word.
    pub fn set_best(&mut self, word: u64)
        ensures places { self.new.places ≡ self.old.places }
        ensures word { WritesWord Best word (words_in self.old) (words_in self.new) }
    {
        self.set(self.places.best(), word);
    }

    /// Counts a mark in the counter of its strip; the run has one strip or more.
    pub fn count_mark(&mut self, mark: usize)
        requires strips { 0 < (sizes_in self.old.places).strips }
        requires within { mark < (sizes_in self.old.places).marks }
        requires few { words_in self.old (Counter (strip_of_mark (sizes_in self.old.places).strips mark)) + 1 < 2 ^ 64 }
        ensures places { self.new.places ≡ self.old.places }
        ensures word { WritesWord (Counter (strip_of_mark (sizes_in self.old.places).strips mark))
            (words_in self.old (Counter (strip_of_mark (sizes_in self.old.places).strips mark)) + 1) (words_in self.old) (words_in self.new) }
    {
        let place = self.places.counter_of_mark(mark);
        self.set(place, self.at(place) + 1);
    }

    /// Writes the word of a node's point.
    pub fn set_point(&mut self, node: usize, word: u64)
        requires { node ≤ (sizes_in self.old.places).marks }
        ensures places { self.new.places ≡ self.old.places }
        ensures word { WritesWord (PointOf node) word (words_in self.old) (words_in self.new) }
    {
        self.set(self.places.point(node), word);
    }

    /// Writes the word of a node's left or right child.
    pub fn set_child(&mut self, node: usize, right: bool, word: u64)
        requires { node ≤ (sizes_in self.old.places).marks }
        ensures places { self.new.places ≡ self.old.places }
        ensures word { WritesWord (ChildOf node right) word (words_in self.old) (words_in self.new) }
    {
        self.set(self.places.child(node, right), word);
    }

    /// Writes the word of a node's parent and kept cost.
    pub fn set_tree(&mut self, node: usize, word: u64)
        requires { node ≤ (sizes_in self.old.places).marks }
        ensures places { self.new.places ≡ self.old.places }
        ensures word { WritesWord (TreeOf node) word (words_in self.old) (words_in self.new) }
    {
        self.set(self.places.tree(node), word);
    }

    /// Writes the word of a node's first parent and first cost.
    pub fn set_first(&mut self, node: usize, word: u64)
        requires { node ≤ (sizes_in self.old.places).marks }
        ensures places { self.new.places ≡ self.old.places }
        ensures word { WritesWord (FirstOf node) word (words_in self.old) (words_in self.new) }
    {
        self.set(self.places.first(node), word);
    }

    /// Writes the word of a mark's record.
    pub fn set_record(&mut self, mark: usize, word: u64)
        requires { mark < (sizes_in self.old.places).marks }
        ensures places { self.new.places ≡ self.old.places }
        ensures word { WritesWord (RecordOf mark) word (words_in self.old) (words_in self.new) }
    {
        self.set(self.places.record(mark), word);
    }

    /// The word at a place.
    pub(crate) fn at(&self, place: usize) -> u64
        requires { place < word_count (sizes_in self.now.places) }
        ensures item { result ≡ slice_index self.now.list.items place }
        ensures word { (name : Word) → HasWord (sizes_in self.now.places) name → place ≡ place_of (sizes_in self.now.places) name
            → result ≡ words_in self.now name }
    {
        self.list[place]
    }

    /// Writes the word at a place, as whoever copies all words does, one place after another.
    pub fn set(&mut self, place: usize, word: u64)
        requires { place < word_count (sizes_in self.old.places) }
        ensures places { self.new.places ≡ self.old.places }
        ensures list { self.new.list.items ≡ slice_set self.old.list.items place word }
        ensures word { (name : Word) → HasWord (sizes_in self.old.places) name → place ≡ place_of (sizes_in self.old.places) name
            → WritesWord name word (words_in self.old) (words_in self.new) }
    {
        self.list[place] = word;
    }
}
