//! The record of a mark: what became of it.

ghost use Rattle.std.specs.Prelude.{◌≡◌, ◌<◌, true, false, suc, IfSome, IsSome};
ghost use Rattle.plan_model.specs.Runs.Outcomes.{is_placed};
ghost use Rattle.plan_words.specs.States.{BelongsTo};
ghost use Rattle.plan_work.specs.ExtensionSteps.{HasRecorded, own_placed, own_unplaced};
ghost use Rattle.step_core.specs.SeenRecords.{MayRecord};
ghost use Rattle.step_core.specs.Stages.{MayBeRecorded, has_count};
ghost use Rattle.step_core.specs.ViewSteps.{pair_in_hand};
ghost use Rattle.step_core.specs.Views.{sees, share};
ghost use Rattle.grown_runs.specs.Table.WordNames.Word.{FirstOf};

use crate::mark_placing::Hanging;
use plan_model::{Outcome, Record};
use plan_words::{Pass, Shared};

/// Records that no node was placed for the mark in hand.
pub(crate) fn record_unplaced(
    shared: &Shared,
    pass: &mut Pass,
    nearest: u32,
    outcome: Outcome,
) -> Record
    requires belongs { BelongsTo pass.old shared.now }
    requires part { 0 < share pass.old.view }
    requires hand { IsSome pass.old.view.hand }
    requires unplaced { is_placed outcome ≡ false }
    requires stage { IfSome pass.old.view.hand (λ hand. MayBeRecorded hand.stage outcome) }
    requires may { IfSome pass.old.view.hand (λ hand. MayRecord pass.old.view hand (own_unplaced pass.old.view nearest outcome)) }
    ensures recorded { HasRecorded shared.now pass.old pass.new result }
    ensures entry { result ≡ own_unplaced pass.old.view nearest outcome }
{
    let entry = Record::unplaced(pass.worker(), pass.turn(), nearest, outcome);
    shared.finish(pass, entry);
    entry
}

/// Records that the node of the mark in hand was placed.
pub(crate) fn record_placed(
    shared: &Shared,
    pass: &mut Pass,
    nearest: u32,
    hanging: Hanging,
) -> Record
    requires belongs { BelongsTo pass.old shared.now }
    requires part { 0 < share pass.old.view }
    requires hand { IsSome pass.old.view.hand }
    requires counted { IfSome pass.old.view.hand (λ hand. has_count hand.stage ≡ true) }
    requires first { IfSome pass.old.view.hand (λ hand. sees pass.old.view (FirstOf (suc hand.mark)) ≡ pair_in_hand hand) }
    requires may { IfSome pass.old.view.hand (λ hand. MayRecord pass.old.view hand (own_placed pass.old.view nearest hanging)) }
    ensures recorded { HasRecorded shared.now pass.old pass.new result }
    ensures entry { result ≡ own_placed pass.old.view nearest hanging }
{
    let entry = Record {
        worker: pass.worker(),
        turn: pass.turn(),
        nearest,
        outcome: Outcome::Placed,
        first_parent: hanging.parent.node,
        first_cost: hanging.parent.cost,
        class: hanging.class,
    };
    shared.finish(pass, entry);
    entry
}
