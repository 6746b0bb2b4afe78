//! Where each word of a run stands. Nothing else knows the order:
//!
//! ```text
//!     place   0         1      2 ..       then five for each node, from 0 on         then
//!     word    count     best   counters   point  left  right  tree  first  ..        records
//! ```

ghost use Rattle.std.specs.Prelude.{◌≡◌, ◌≤◌, ◌<◌};
ghost use Rattle.plan_model.specs.declared.limits.TheConstants.{MOST_MARKS, MOST_STRIPS};
ghost use Rattle.plan_model.specs.Scenes.MarkPoints.{strip_of_mark};
ghost use Rattle.grown_runs.specs.Table.WordNames.Word.{Best, ChildOf, Count, Counter, FirstOf, PointOf, RecordOf, TreeOf};
ghost use Rattle.grown_runs.specs.Table.WordPlaces.{place_of, word_count};

use plan_model::{Task, strip_of_mark};

/// The places of the words of a run with this many strips and marks. Each place is found in O(1), without memory.
#[derive(Clone, Copy)]
pub struct WordPlaces {
    strips: usize,
    marks: usize,
    ghost few_strips: { strips ≤ MOST_STRIPS },
    ghost few_marks: { marks ≤ MOST_MARKS },
}

impl WordPlaces {
    ghost use Rattle.grown_runs.specs.Runs.GrownWords.{sizes_of};
    ghost use Rattle.grown_runs.specs.Table.PlacesOfWords.{sizes_in};

    /// The places of the words of a task's run.
    pub fn of(task: &Task) -> WordPlaces
        ensures { sizes_in result ≡ sizes_of task.now }
    {
        WordPlaces {
            strips: task.scene.strips as usize,
            marks: task.marks.len(),
        }
    }

    /// How many marks there are; the last node has this number.
    pub fn marks(self) -> usize
        ensures { result ≡ (sizes_in self).marks }
    {
        self.marks
    }

    /// How many words there are.
    pub fn len(self) -> usize
        ensures { result ≡ word_count (sizes_in self) }
    {
        self.record(self.marks)
    }

    /// The count of nodes.
    pub fn count(self) -> usize
        ensures { result ≡ place_of (sizes_in self) Count }
    {
        0
    }

    /// The best word: the least pair of a cost and a goal node.
    pub fn best(self) -> usize
        ensures { result ≡ place_of (sizes_in self) Best }
    {
        1
    }

    /// The counter of a strip, which is one of the run.
    pub fn counter(self, strip: usize) -> usize
        requires { strip < (sizes_in self).strips }
        ensures { result ≡ place_of (sizes_in self) (Counter strip) }
    {
        strip + 2
    }

    /// The counter of the strip that a mark of the run belongs to; the run has one strip or more.
    pub fn counter_of_mark(self, mark: usize) -> usize
        requires strips { 0 < (sizes_in self).strips }
        requires within { mark < (sizes_in self).marks }
        ensures { result ≡ place_of (sizes_in self) (Counter (strip_of_mark (sizes_in self).strips mark)) }
    {
        self.counter(strip_of_mark(self.strips as u32, mark as u32) as usize)
    }

    /// The point of a node, and the first of its words. A node's number, here and below, is at most that of marks.
    pub fn point(self, node: usize) -> usize
        requires { node ≤ (sizes_in self).marks }
        ensures { result ≡ place_of (sizes_in self) (PointOf node) }
    {
        self.strips + 2 + 5 * node
    }

    /// The left or the right child of a node.
    pub fn child(self, node: usize, right: bool) -> usize
        requires { node ≤ (sizes_in self).marks }
        ensures { result ≡ place_of (sizes_in self) (ChildOf node right) }
    {
        if right {
            self.point(node) + 2
        } else {
            self.point(node) + 1
        }
    }

    /// The parent and the kept cost of a node.
    pub fn tree(self, node: usize) -> usize
        requires { node ≤ (sizes_in self).marks }
        ensures { result ≡ place_of (sizes_in self) (TreeOf node) }
    {
        self.point(node) + 3
    }

    /// The first parent and the first cost of a node.
    pub fn first(self, node: usize) -> usize
        requires { node ≤ (sizes_in self).marks }
        ensures { result ≡ place_of (sizes_in self) (FirstOf node) }
    {
        self.point(node) + 4
    }

    /// The record of a mark; of the number of marks it is the place after the last record.
    pub fn record(self, mark: usize) -> usize
        requires { mark ≤ (sizes_in self).marks }
        ensures { result ≡ place_of (sizes_in self) (RecordOf mark) }
    {
        self.point(self.marks) + 5 + mark
    }
}
