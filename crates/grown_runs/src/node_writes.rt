//! The writes of the words of one node, and of those of one record.

ghost use Rattle.std.specs.Prelude.{◌≡◌, ◌<◌};
ghost use Rattle.grown_runs.specs.Runs.PackedRuns.{ChangesNode, ChangesRecord, FitsNode, FitsRecord, HoldsNode, HoldsRecord};
ghost use Rattle.grown_runs.specs.Table.PlacesOfWords.{sizes_in};
ghost use Rattle.grown_runs.specs.Table.RunWords.{words_in};

use crate::point_words::pack_point;
use crate::record_words::pack_mark;
use crate::run_words::RunWords;
use crate::tree_words::pack_tree;
use plan_model::{Knot, Outcome, Record};

/// Writes the point, the parent and the kept cost of a node.
pub(crate) fn write_node(words: &mut RunWords, node: usize, knot: Knot)
    requires fits { FitsNode (sizes_in words.old.places) node knot }
    ensures places { words.new.places ≡ words.old.places }
    ensures hold { HoldsNode (words_in words.new) node knot }
    ensures others { ChangesNode node (words_in words.old) (words_in words.new) }
{
    words.set_point(node, pack_point(knot.point));
    words.set_tree(node, pack_tree(knot.parent, knot.cost));
}

/// Writes the record of a mark, and the first word of its node if it was placed.
pub(crate) fn write_record(words: &mut RunWords, mark: usize, entry: &Record)
    requires within { mark < (sizes_in words.old.places).marks }
    requires fits { FitsRecord entry.now }
    ensures places { words.new.places ≡ words.old.places }
    ensures hold { HoldsRecord (words_in words.new) mark entry.now }
    ensures others { ChangesRecord mark entry.now (words_in words.old) (words_in words.new) }
{
    words.set_record(mark, pack_mark(entry));
    if let Outcome::Placed = entry.outcome {
        words.set_first(mark + 1, pack_tree(entry.first_parent, entry.first_cost));
    }
}
