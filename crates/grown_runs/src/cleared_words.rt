//! Words that a mark which came to nothing has left for its number, cleared.

ghost use Rattle.std.specs.Prelude.{◌≡◌, ◌≤◌};
ghost use Rattle.grown_runs.specs.Table.RunWords.{ClearsNode, words_in};
ghost use Rattle.grown_runs.specs.Runs.GrownWords.{cleared};
ghost use Rattle.grown_runs.specs.Table.PlacesOfWords.{sizes_in};

use crate::run_words::RunWords;

/// Clears the point, the tree word and the first word of each number without a node. O(n) for n marks.
pub(crate) fn clear(words: &mut RunWords)
    ensures places { words.new.places ≡ words.old.places }
    ensures words { words_in words.new ≡ cleared (words_in words.old) }
{
    let marks = words.places().marks();
    for node in 1..marks + 1 {
        if !words.has_node(node) {
            clear_node(words, node);
        }
    }
}

/// Clears the point, the tree word and the first word of a number.
fn clear_node(words: &mut RunWords, node: usize)
    requires within { node ≤ (sizes_in words.old.places).marks }
    ensures places { words.new.places ≡ words.old.places }
    ensures words { ClearsNode node (words_in words.old) (words_in words.new) }
{
    words.set_point(node, 0);
    words.set_tree(node, 0);
    words.set_first(node, 0);
}
