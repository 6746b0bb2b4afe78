//! The place of a new node in the kd-tree.

ghost use Rattle.std.specs.Prelude.{◌≡◌, IfSome, IsSome};
ghost use Rattle.kd_shared.specs.Placings.{GoesOnPlacing, IsPlacing, KeepsShare, SeesPlacing, WasPlacedSince};
ghost use Rattle.kd_shared.specs.declared.placing.Placing.TheVariants.{Placed};
ghost use Rattle.plan_model.specs.Trees.NodeLists.{IsFree};
ghost use Rattle.plan_words.specs.States.{BelongsTo, HasWholeShare, with_view};
ghost use Rattle.step_core.specs.Views.{tree_seen};
ghost use Rattle.step_core.specs.declared.views.Stage.TheVariants.{Treed};

use crate::word_walks::walk_by_words;
use plan_words::{Pass, Shared};

/// Where the node of a mark came to.
#[derive(Clone, Copy, Debug, PartialEq, Eq)]
pub enum Placing {
    /// It is linked, at the end of the way of its point, and counted.
    Placed,
    /// Another node, with this number, has that very point, and the node is not linked.
    Same(u32),
}

/// Links the node of the mark in hand, whose words are written, as a child in the kd-tree, and counts it; or tells the node
/// that has its point already, and then the hand is as before. It walks the way of the point from node 0 by loads, which take no
/// word from another worker, and tries an exchange where it found no child. If another's child has come there meanwhile, it goes on
/// to that: so a try that fails leads one node deeper, and no way is longer than the marks. O(d) for a tree of depth d.
pub fn place(shared: &Shared, pass: &mut Pass, _mark: u32) -> Placing
    requires belongs { BelongsTo pass.old shared.now }
    requires hand { IsSome pass.old.view.hand }
    requires mark { IfSome pass.old.view.hand (λ hand. hand.mark ≡ _mark) }
    requires treed { IfSome pass.old.view.hand (λ hand. hand.stage ≡ Treed) }
    ensures belongs { BelongsTo pass.new shared.now }
    ensures goes_on { GoesOnPlacing pass.old.view pass.new.view }
    ensures share { KeepsShare pass.old.view pass.new.view }
    ensures view_alone { pass.new ≡ with_view pass.old pass.new.view }
    ensures placed { IfSome pass.old.view.hand (λ hand. IsPlacing pass.new.view hand result) }
    // it was linked and counted by the last two steps of this call; of one that is not linked no word was shown without a look
    ensures since { IfSome pass.old.view.hand (λ hand. WasPlacedSince pass.old.view pass.new.view hand result) }
    // a pass with the whole share places its node where it has seen none, and sees nothing new but that node
    ensures whole { HasWholeShare pass.old.view
        → IfSome pass.old.view.hand (λ hand. IsFree (tree_seen pass.old.view).points hand.point → result ≡ Placed) }
    ensures whole_seen { HasWholeShare pass.old.view → IfSome pass.old.view.hand (λ hand. SeesPlacing pass.old.view pass.new.view hand result) }
{
    let p = pass.hand_point();
    let mut stop = walk_by_words(shared, pass, p);
    'depths: loop {
        if stop.here == p {
            return Placing::Same(stop.node);
        }
        let Err(child) = shared.link(pass, stop.node, stop.leads_right(p)) else {
            return Placing::Placed;
        };
        let here = shared.point(pass, child);
        stop = stop.next(child, here);
    }
}
