//! What is left of a pass that has stopped, and how another takes it over.

ghost use Rattle.std.specs.Prelude.{◌≡◌, ◌≢◌, ℕ, ◌+◌, ◌<◌, ◌≤◌, None, Some};
ghost use Rattle.plan_model.specs.Trees.TreeStates.{AreSameRuns};
ghost use Rattle.plan_model.specs.declared.records.Record.{Record};
ghost use Rattle.plan_words.specs.Claims.{HasNoneLeft};
ghost use Rattle.plan_words.specs.States.{BelongsTo, GoesOn, new_pass, with_view};
ghost use Rattle.grown_runs.specs.Runs.GrownRuns.{state_of_grown};
ghost use Rattle.step_core.specs.Histories.{StandsAsSeen};
ghost use Rattle.step_core.specs.Stages.{state_of_links};
ghost use Rattle.step_core.specs.ViewSteps.{joined, loaded};
ghost use Rattle.step_core.specs.Views.{run_sizes, sees, share};
ghost use Rattle.grown_runs.specs.Table.WordKinds.{AreBehind};
ghost use Rattle.grown_runs.specs.Table.WordNames.Word.{Count};

use crate::openings::Aim;
use crate::passes::Pass;
use crate::shared::Shared;
use atomic_table::Seat;
use std::marker::Model;
use step_core::{Grown, View};

/// What is left of a pass that works no more: its share and its view, which contracts alone see. It keeps no lists, so another takes
/// it over in two steps, and no list is walked. A contract sees it as a pass whose lists are empty.
#[derive(Drop)]
pub struct Retired {
    pub(crate) seat: Seat<Aim, View>,
}

impl Model for Retired {
    ghost use Rattle.std.specs.Prelude.{◌≡◌, []};
    ghost use Rattle.plan_words.specs.States.{PassState, new_pass};

    ghost Value = { PassState };

    ghost view = { λ r. new_pass r.seat.table_id r.seat.me.0 };

    ghost invariant = { λ r. r.seat.me.1 ≡ [] };
}

impl Pass {
    /// Gives back the lists of a pass that works no more, with all that it remembers of tree words. With a mark in hand it can neither
    /// be taken over nor end a tree. O(1).
    pub fn retire(self) -> Retired
        ensures { result ≡ new_pass self.table self.view }
    {
        let Pass {
            seat,
            member: _,
            hand: _,
            pairs: _,
            lists: _,
        } = self;
        Retired { seat }
    }
}

impl Shared {
    /// Takes over what is left of another pass: its share, which may be none, and what it has seen. Neither has a mark in hand. The
    /// count of nodes is loaded then, which tells that nothing is lost of what the other had seen. O(1).
    pub fn join_retired(&self, retired: &mut Retired, other: Retired)
        requires belongs { BelongsTo retired.old self.now }
        requires belongs_too { BelongsTo other self.now }
        requires idle { retired.old.view.hand ≡ None }
        requires idle_too { other.view.hand ≡ None }
        ensures view { retired.new ≡ with_view retired.old (loaded (joined retired.old.view other.view) Count (sees retired.new.view Count)) }
        ensures goes_on { GoesOn retired.old.view retired.new.view }
        // it has seen at least what the other had
        ensures others_seen { AreBehind (sees other.view) (sees retired.new.view) }
        ensures share { share retired.new.view ≡ share retired.old.view + share other.view }
        ensures belongs { BelongsTo retired.new self.now }
        ensures idle { retired.new.view.hand ≡ None }
    {
        self.take_over(&mut retired.seat, other.seat);
    }
}
