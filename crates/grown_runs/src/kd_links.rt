//! The kd-tree (Bentley, CACM 1975) of a run's nodes, in their child words: a node is linked at the end of the way of its point.

ghost use Rattle.std.specs.Prelude.{◌≡◌, ◌+◌, IfNone, None, is_some, slice_index_or};
ghost use Rattle.plan_model.specs.Seen.SeenTrees.{FollowWays, IsSeen};
ghost use Rattle.plan_model.specs.Trees.NodeLists.{StandsAt};
ghost use Rattle.grown_runs.specs.Runs.GrownWords.{children_of_words, points_of_words};
ghost use Rattle.grown_runs.specs.Ways.KdLinks.{AreLinkedBelow, AreUnlinked, ChangesChildren, LinksRise, MayLink};
ghost use Rattle.grown_runs.specs.Table.PlacesOfWords.{sizes_in};
ghost use Rattle.grown_runs.specs.Table.RunWords.{words_in};

use crate::kd_trees::KdTree;
use crate::kd_walks::walk;
use crate::point_words::point_in;
use crate::run_words::RunWords;
use plan_model::{Knot, Point};

/// Links all nodes that are present, in rising number. O(n * d) for n nodes, d of them on the longest way.
pub(crate) fn link_all(words: &mut RunWords, knots: &[Option<Knot>])
    requires { AreUnlinked (sizes_in words.old.places) (words_in words.old) (λ n. is_some (slice_index_or knots.now n None)) }
    ensures places { words.new.places ≡ words.old.places }
    ensures ways { FollowWays (children_of_words (words_in words.new)) (points_of_words (sizes_in words.old.places) (words_in words.new)) }
    ensures links { LinksRise (children_of_words (words_in words.new)) }
    ensures others { ChangesChildren (words_in words.old) (words_in words.new) }
{
    for node in 1..knots.len() {
        if knots[node].is_some() {
            link(words, node);
        }
    }
}

/// Links a node that is present, after those of lesser numbers. O(n) for n nodes on its way.
fn link(words: &mut RunWords, node: usize)
    requires { MayLink (sizes_in words.old.places) (words_in words.old) node }
    ensures places { words.new.places ≡ words.old.places }
    ensures linked { AreLinkedBelow (sizes_in words.old.places) (words_in words.new) (node + 1) }
    ensures rise { LinksRise (children_of_words (words_in words.old)) → LinksRise (children_of_words (words_in words.new)) }
    ensures others { ChangesChildren (words_in words.old) (words_in words.new) }
{
    let point = point_in(words.point(node));
    let linked = LinkedNodes { words, below: node };
    let stop = walk(&linked, &mut (), point);
    words.set_child(stop.node as usize, stop.leads_right(point), node as u64);
}

/// The nodes below a number, which are linked, as if there were no others. Nobody changes them meanwhile.
#[derive(Clone, Copy)]
struct LinkedNodes<'a> {
    words: &'a RunWords,
    below: usize,
}

impl KdTree for LinkedNodes<'_> {
    ghost use Rattle.std.specs.Prelude.{◌≡◌, None};
    ghost use Rattle.grown_runs.specs.Ways.KdLinks.{AreLinkedBelow, tree_below};
    ghost use Rattle.grown_runs.specs.Ways.KdLinks.{linked_ways_are_short};
    ghost use Rattle.grown_runs.specs.Table.PlacesOfWords.{sizes_in};
    ghost use Rattle.grown_runs.specs.Table.RunWords.{words_in};

    type Looks = ();

    ghost seen = { λ tree looks. tree_below (sizes_in tree.words.now.places) (words_in tree.words.now) tree.below };

    ghost may_look = { λ tree looks. AreLinkedBelow (sizes_in tree.words.now.places) (words_in tree.words.now) tree.below };

    ghost looked = { λ tree before after. AreLinkedBelow (sizes_in tree.words.now.places) (words_in tree.words.now) tree.below };

    ghost found_empty = { λ tree before after n side. children_of_words (words_in tree.words.now) n side ≡ None };

    fn point(&self, looks: &mut (), node: u32) -> Point {
        point_in(self.words.point(node as usize))
    }

    fn child(&self, looks: &mut (), node: u32, right: bool) -> Option<u32> {
        let child = self.words.child(node as usize, right);
        if child == 0 {
            return None;
        }
        Some(child as u32)
    }

    ghost looks_on = { λ tree before mid after one other. other };

    ghost keeps_seen = { λ tree before after linked. record { children = λ n m side link. link; nodes = λ n p stands. stands } };

    ghost found_since = { λ tree before mid after n side linked empty. empty };

    ghost ways_are_short = { λ tree before after q depth n linked. linked_ways_are_short (sizes_in tree.words.now.places) (words_in tree.words.now) tree.below
        tree.words.now.places.few_marks linked q depth n };
}
