//! The words of a run that is given by lists: nodes, records and counters are written one after another.

ghost use Rattle.std.specs.Prelude.{◌≡◌, ◌≤◌, ◌<◌, ℕ, Bool, IfOk, Some, count_by, is_some, length, slice_get};
ghost use Rattle.plan_model.specs.Runs.ClosedLaw.{IsClosed};
ghost use Rattle.plan_model.specs.Runs.Textbook.{setup_of};
ghost use Rattle.plan_model.specs.declared.trees.Knot.{Knot};
ghost use Rattle.plan_model.specs.declared.records.Record.{Record};
ghost use Rattle.grown_runs.specs.Runs.GrownWords.{HoldRun, children_of_words, sizes_of, state_of_words};
ghost use Rattle.grown_runs.specs.Ways.KdLinks.{LinksRise};
ghost use Rattle.plan_model.specs.Trees.TreeStates.{AreSameRuns};
ghost use Rattle.grown_runs.specs.Runs.PackedRuns.{CountsMarks, FitWords, FitsNode, FitsRecord, HoldLists, IsKnot, WritesNodes, WritesRecords, state_of_lists};
ghost use Rattle.grown_runs.specs.Table.PlacesOfWords.{sizes_in};
ghost use Rattle.grown_runs.specs.Table.RunWords.{words_in};
ghost use Rattle.grown_runs.specs.Table.WordNames.{Word};
ghost use Rattle.grown_runs.specs.Table.WordNames.Word.{ChildOf, Counter};

use crate::kd_links::link_all;
use crate::node_writes::{write_node, write_record};
use crate::run_words::RunWords;
use crate::tree_words::pack_tree;
use plan_model::{Knot, Record, Task};
use std::alloc::{AllocError, Global};

/// The words of a closed run with these nodes and records.
pub(crate) fn packed_run(
    alloc: Global,
    task: &Task,
    knots: &[Option<Knot>],
    records: &[Record],
) -> Result<RunWords, AllocError>
    requires { IsClosed (setup_of task.now.scene) task.now.marks (length records.now) (state_of_lists knots.now records.now) }
    ensures sizes { IfOk result (λ words. sizes_in words.places ≡ sizes_of task.now) }
    ensures run { IfOk result (λ words. HoldRun task.now (length records.now) (words_in words)) }
    ensures state { IfOk result (λ words. AreSameRuns (state_of_lists knots.now records.now) (state_of_words (sizes_of task.now) (words_in words))) }
    ensures links { IfOk result (λ words. LinksRise (children_of_words (words_in words))) }
{
    let mut words = RunWords::new(alloc, task)?;
    write_lists(&mut words, knots, records);
    link_all(&mut words, knots);
    Ok(words)
}

/// Writes the words of a run with these nodes and records, but for the links of its kd-tree.
fn write_lists(words: &mut RunWords, knots: &[Option<Knot>], records: &[Record])
    requires strips { 0 < (sizes_in words.old.places).strips }
    requires zeros { (name : Word) → words_in words.old name ≡ 0 }
    requires fit { FitWords (sizes_in words.old.places) knots.now records.now }
    ensures places { words.new.places ≡ words.old.places }
    ensures lists { HoldLists (sizes_in words.old.places) knots.now records.now (words_in words.new) }
    ensures children { (n : ℕ) (side : Bool) → words_in words.new (ChildOf n side) ≡ 0 }
{
    count_marks(words, records.len());
    words.set_count(count_nodes(knots) as u64);
    words.set_first(0, pack_tree(0, 0));
    write_nodes(words, knots);
    write_records(words, records);
}

/// How many nodes are present.
fn count_nodes(knots: &[Option<Knot>]) -> usize
    ensures { result ≡ count_by is_some knots.now }
{
    knots.iter().filter(|knot| knot.is_some()).count()
}

/// Counts each mark below a limit in the counter of its strip.
fn count_marks(words: &mut RunWords, limit: usize)
    requires strips { 0 < (sizes_in words.old.places).strips }
    requires zeros { (g : ℕ) → g < (sizes_in words.old.places).strips → words_in words.old (Counter g) ≡ 0 }
    requires limit { limit ≤ (sizes_in words.old.places).marks }
    ensures places { words.new.places ≡ words.old.places }
    ensures counted { CountsMarks (sizes_in words.old.places) limit (words_in words.old) (words_in words.new) }
{
    for mark in 0..limit {
        words.count_mark(mark);
    }
}

/// Writes the points, the parents and the kept costs of all nodes that are present.
fn write_nodes(words: &mut RunWords, knots: &[Option<Knot>])
    requires fit { (n : ℕ) (knot : Knot) → IsKnot knots.now n knot → FitsNode (sizes_in words.old.places) n knot }
    ensures places { words.new.places ≡ words.old.places }
    ensures nodes { WritesNodes knots.now (length knots.now) (words_in words.old) (words_in words.new) }
{
    for (node, knot) in knots.iter().enumerate() {
        if let Some(knot) = knot {
            write_node(words, node, *knot);
        }
    }
}

/// Writes the records of all marks, and the first words of the nodes that were placed.
fn write_records(words: &mut RunWords, records: &[Record])
    requires few { length records.now ≤ (sizes_in words.old.places).marks }
    requires fit { (k : ℕ) (entry : Record) → slice_get records.now k ≡ Some entry → FitsRecord entry }
    ensures places { words.new.places ≡ words.old.places }
    ensures records { WritesRecords records.now (length records.now) (words_in words.old) (words_in words.new) }
{
    for (mark, entry) in records.iter().enumerate() {
        write_record(words, mark, entry);
    }
}
