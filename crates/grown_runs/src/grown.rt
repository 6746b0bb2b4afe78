//! A closed run: a task, a limit, and the words of the tree and the records that its marks below the limit have led to.

ghost use Rattle.std.specs.Prelude.{◌≡◌, ◌<◌, ◌≤◌, ℕ, Bool, [], length, IfOk, Some};
ghost use Rattle.plan_model.specs.Spaces.Clearance.{ClearAt};
ghost use Rattle.plan_model.specs.Runs.ClosedLaw.{IsClosed};
ghost use Rattle.plan_model.specs.Spaces.ConfigurationSpace.{space_of};
ghost use Rattle.plan_model.specs.Trees.NodeLists.{IsPresent, node_count, point_at};
ghost use Rattle.plan_model.specs.Runs.Textbook.{setup_of, skipping_goals, start_alone};
ghost use Rattle.grown_runs.specs.Runs.PackedRuns.{HoldRun-prop, Sizes-set, state_of_lists, IsLeastBest};
ghost use Rattle.grown_runs.specs.Runs.GrownWords.{HoldRun, cleared, sizes_of};
ghost use Rattle.plan_model.specs.Trees.TreeStates.{AreSameRuns, state_of};
ghost use Rattle.grown_runs.specs.Ways.KdLinks.{LinksRise};
ghost use Rattle.grown_runs.specs.Table.PlacesOfWords.{sizes_in};
ghost use Rattle.grown_runs.specs.Table.RunWords.{words_in};
ghost use Rattle.grown_runs.specs.Table.WordNames.{WritesWord};
ghost use Rattle.grown_runs.specs.Table.WordNames.Word.{Best};

use crate::cleared_words::clear;
use crate::opening_bests::least_best;
use crate::packed_runs::packed_run;
use crate::point_words::{pack_point, read_point};
use crate::run_words::RunWords;
use crate::tree_words::{cost_in, pack_tree, parent_in};
use plan_model::{Knots, Memory, Point, Record, Records, Task};
use std::alloc::Global;

/// A run that has handled all marks below its limit, as a table of 64-bit words.
///
/// Its tree, its costs and its records keep the closed law: each mark below the limit has a record that the tree bears out.
/// The present nodes are linked to a kd-tree, each at the end of the way of its point. A node is present if it is the start
/// or its mark was placed.
#[derive(Drop)]
pub struct Grown {
    task: Task,
    limit: u32,
    words: RunWords,
    ghost of_task: { sizes_in words.places ≡ sizes_of task } by { Sizes-set (sizes_in words.places) (sizes_of task) },
    ghost hold_run: { HoldRun task limit (words_in words) } by { HoldRun-prop task limit (words_in words) },
}

impl Grown {
    ghost use Rattle.grown_runs.specs.Runs.GrownRuns.{CostsInstead, MayCost, children_of_grown, state_of_grown, words_of_grown};

    /// The run that has handled no mark: the start, which is clear, alone, at limit 0. O(n) for n marks of the task.
    ///
    /// # Errors
    ///
    /// `Memory` if out of memory for the words. The task is gone then.
    pub fn new(alloc: Global, task: Task) -> Result<Grown, Memory>
        requires { ClearAt (space_of task.scene) task.scene.start }
        ensures task { IfOk result (λ grown. grown.task ≡ task) }
        ensures limit { IfOk result (λ grown. grown.limit ≡ 0) }
        ensures state { IfOk result (λ grown. AreSameRuns (state_of (start_alone task.scene.start) []) (state_of_grown grown)) }
    {
        let mut words = RunWords::new(alloc, &task)?;
        words.set_count(1);
        words.set_point(0, pack_point(task.scene.start));
        words.set_tree(0, pack_tree(0, 0));
        words.set_first(0, pack_tree(0, 0));
        Ok(Grown {
            task,
            limit: 0,
            words,
        })
    }

    /// The run with these nodes and these records, whose number is its limit; they keep the closed law of the task at that
    /// limit. The nodes are linked in rising number, so each but the start stands below one of a lesser number. O(n * d) for n
    /// nodes, d of them on the longest way.
    ///
    /// # Errors
    ///
    /// `Memory` if out of memory for the words. The task is gone then.
    pub fn pack(
        alloc: Global,
        task: Task,
        knots: &Knots,
        records: &Records,
    ) -> Result<Grown, Memory>
        requires { IsClosed (setup_of task.scene) task.marks (length records.now) (state_of_lists knots.now records.now) }
        ensures task { IfOk result (λ grown. grown.task ≡ task) }
        ensures limit { IfOk result (λ grown. grown.limit ≡ length records.now) }
        ensures state { IfOk result (λ grown. AreSameRuns (state_of_lists knots.now records.now) (state_of_grown grown)) }
        ensures links { IfOk result (λ grown. LinksRise (children_of_grown grown)) }
    {
        let words = packed_run(alloc, &task, knots.as_slice(), records.as_slice())?;
        Ok(Grown {
            task,
            limit: records.len() as u32,
            words,
        })
    }

    /// The task whose marks were handled. O(1).
    pub fn task(&self) -> &Task
        ensures { result.now ≡ self.now.task }
    {
        &self.task
    }

    /// How many marks were handled: those below this number. O(1).
    pub fn limit(&self) -> u32
        ensures { result ≡ self.now.limit }
    {
        self.limit
    }

    /// How many nodes are present, the start included. O(1).
    pub fn count(&self) -> u32
        ensures { result ≡ node_count (state_of_grown self.now).points }
    {
        self.words.count() as u32
    }

    /// Where a node stands; `None` exactly if it is absent, as each number past the limit is. O(1).
    pub fn point(&self, node: u32) -> Option<Point>
        ensures { result ≡ point_at (state_of_grown self.now).points node }
    {
        let node = node as usize;
        if !self.words.has_node(node) {
            return None;
        }
        read_point(self.words.point(node))
    }

    /// The parent of a node that is present; the start is its own. O(1).
    pub fn parent(&self, node: u32) -> u32
        requires { IsPresent (state_of_grown self.now).points node }
        ensures { result ≡ (state_of_grown self.now).parent node }
    {
        parent_in(self.words.tree(node as usize))
    }

    /// The kept cost of a node that is present, in 256ths of a lattice step; that of the start is 0. O(1).
    pub fn cost(&self, node: u32) -> u64
        requires { IsPresent (state_of_grown self.now).points node }
        ensures { result ≡ (state_of_grown self.now).cost node }
    {
        cost_in(self.words.tree(node as usize))
    }

    /// The record of a mark that was handled, so of one below the limit. O(1).
    pub fn record_of(&self, mark: u32) -> Record
        requires { mark < self.now.limit }
        ensures { (state_of_grown self.now).record_of mark ≡ Some result }
    {
        self.words.record_at(mark as usize).unwrap()
    }

    /// Lowers the kept cost of a node that is present, in 256ths of a lattice step, to no less than what its parent costs and
    /// the edge; it may stay as it is. All else stays. O(1).
    pub fn lower(&mut self, node: u32, cost: u64)
        requires present { IsPresent (state_of_grown self.old).points node }
        requires not_above { cost ≤ (state_of_grown self.old).cost node }
        requires above_parent { MayCost (state_of_grown self.old) node cost }
        ensures task { self.new.task ≡ self.old.task }
        ensures limit { self.new.limit ≡ self.old.limit }
        ensures state { CostsInstead (state_of_grown self.old) (state_of_grown self.new) node cost }
        ensures children { (n : ℕ) (right : Bool) → children_of_grown self.new n right ≡ children_of_grown self.old n right }
    {
        let word = pack_tree(self.parent(node), cost);
        self.words.set_tree(node as usize, word);
    }

    /// Writes the best word, by which passes that go on from the run skip marks: the least pair of kept cost and number of the nodes that
    /// lie in a goal, if there is one and the scene is informed. The run stays the same. O(n) for n marks below the limit; O(1) if the
    /// scene is not informed.
    pub fn write_best(&mut self)
        ensures task { self.new.task ≡ self.old.task }
        ensures limit { self.new.limit ≡ self.old.limit }
        ensures words { WritesWord Best (words_of_grown self.new Best) (words_of_grown self.old) (words_of_grown self.new) }
        ensures best { IsLeastBest (skipping_goals self.old.task.scene) (state_of_grown self.old) (words_of_grown self.new Best) }
    {
        let best = least_best(self);
        self.words.set_best(best);
    }

    /// The words of the run. O(1).
    pub fn words(&self) -> &RunWords
        ensures { result.now ≡ self.now.words }
    {
        &self.words
    }

    /// The task, the limit and the words of a run, which [`Grown::from_words`] takes back. Copies nothing; O(1).
    pub fn into_words(self) -> (Task, u32, RunWords)
        ensures task { result.0 ≡ self.task }
        ensures limit { result.1 ≡ self.limit }
        ensures words { result.2 ≡ self.words }
        ensures sizes { sizes_in result.2.places ≡ sizes_of result.0 }
        ensures run { HoldRun result.0 result.1 (words_in result.2) }
    {
        (self.task, self.limit, self.words)
    }

    /// The run whose words these are: they have the sizes of the task, and once they are cleared they hold a run at this
    /// limit. A number without a node may have a point, a parent and a cost left over from a mark that came to nothing: they
    /// are cleared, in place. O(n) for n marks; no memory.
    pub fn from_words(task: Task, limit: u32, words: RunWords) -> Grown
        requires sizes { sizes_in words.places ≡ sizes_of task }
        requires run { HoldRun task limit (cleared (words_in words)) }
        ensures task { result.task ≡ task }
        ensures limit { result.limit ≡ limit }
        ensures words { words_of_grown result ≡ cleared (words_in words) }
    {
        let mut words = words;
        clear(&mut words);
        Grown { task, limit, words }
    }
}
