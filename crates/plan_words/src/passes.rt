//! What one worker steps with.

ghost use Rattle.std.specs.Prelude.{◌≡◌, ◌<◌, ◌≤◌, ◌^◌, IfNone, IfSome, IsSome, IsTrue, length};
ghost use Rattle.plan_model.specs.declared.limits.TheConstants.{MOST_MARKS, MOST_WORKERS};
ghost use Rattle.step_core.specs.Stages.{has_point};
ghost use Rattle.step_core.specs.Views.{sees, share};
ghost use Rattle.grown_runs.specs.Table.WordNames.Word.{TreeOf};
ghost use Rattle.grown_runs.specs.Table.Words.{tree_of_word};
ghost use Rattle.plan_words.specs.Nodes.{IsPairIn};
ghost use Rattle.plan_words.specs.States.{turn_of, worker_of};

use crate::openings::Aim;
use crate::scratch::Scratch;
use crate::seen_pairs::SeenPairs;
use atomic_table::Seat;
use plan_model::Point;
use std::marker::Model;
use step_core::{Hand, Member, View, read_tree};

/// The handle of one worker on a shared tree, of several after a join, or of none: then it only looks. A contract sees it
/// as its table, its view, which is what it has seen and has in hand, and its scratch lists.
#[derive(Drop)]
pub struct Pass {
    pub(crate) seat: Seat<Aim, View>,
    /// The worker that it works as, and its next turn.
    pub(crate) member: Option<Member>,
    pub(crate) hand: Option<Hand>,
    /// The tree word of each node as it saw that last, 0 if it did not.
    pub(crate) pairs: SeenPairs,
    pub(crate) lists: Scratch,
}

impl Model for Pass {
    ghost use Rattle.std.specs.Prelude.{◌≡◌, [], vec_capacity};
    ghost use Rattle.plan_words.specs.States.{HasPairs, HasRoom, IsTied, PassState};

    ghost Value = { PassState };

    ghost view = { λ p. record {
      table = p.seat.table_id;
      view = p.seat.me.0;
      lists = record {
        near = p.lists.near.items;
        around = p.lists.around.items;
        waiting = p.lists.waiting.nodes;
        search = p.lists.search.lists;
      };
    } };

    ghost invariant = { λ p. (p.seat.me.1 ≡ []) × IsTied p.seat.me.0 p.member p.hand
        × HasRoom p.seat.me.0.run p.lists.search.room (vec_capacity p.lists.near)
        (vec_capacity p.lists.around) p.lists.waiting.size
        × HasPairs p.seat.me.0 p.pairs };
}

impl Pass {
    /// The number of its worker, if the pass has a share: below that of workers. O(1).
    pub fn worker(&self) -> u32
        requires { 0 < share self.now.view }
        ensures number { result ≡ worker_of self.now.view.crew }
        ensures of_run { result < self.now.view.run.workers }
        ensures few { result < MOST_WORKERS }
    {
        match self.member {
            Some(member) => member.worker,
            None => 0,
        }
    }

    /// Its next turn, which is the number of its worker's records, if the pass has a share. O(1).
    pub fn turn(&self) -> u32
        requires { 0 < share self.now.view }
        ensures number { result ≡ turn_of self.now.view.crew }
        // while a mark is in hand, the turn is below the number of marks
        ensures few { IsSome self.now.view.hand → result < MOST_MARKS }
    {
        match self.member {
            Some(member) => member.turn,
            None => 0,
        }
    }

    /// The parent and the cost, in 256ths of a lattice step, that it saw last of a node, or `None` exactly if it saw none. A
    /// node's number is at most that of marks. This is no step. O(1).
    pub fn pair(&self, node: u32) -> Option<(u32, u64)>
        requires { node ≤ length self.now.view.run.marks }
        ensures word { result ≡ tree_of_word (sees self.now.view (TreeOf node)) }
        ensures found { IfSome result (λ pair. IsPairIn (sees self.now.view (TreeOf node)) pair) }
        ensures none { IfNone result (sees self.now.view (TreeOf node) < 2 ^ 63) }
    {
        read_tree(self.pairs.word(node))
    }

    /// The point for the mark in hand, which is written. O(1).
    pub fn hand_point(&self) -> Point
        requires hand { IsSome self.now.view.hand }
        requires written { IfSome self.now.view.hand (λ hand. IsTrue (has_point hand.stage)) }
        ensures { IfSome self.now.view.hand (λ hand. result ≡ hand.point) }
    {
        let Some(hand) = self.hand else {
            unreachable!()
        };
        hand.point
    }
}
