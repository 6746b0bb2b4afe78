//! A lowered cost comes to the subtree of its node.

ghost use Rattle.std.specs.Prelude.{◌≡◌, ◌<◌, IfNone, IfSome};
ghost use Rattle.plan_words.specs.Nodes.{HasPostedGoals};
ghost use Rattle.plan_words.specs.Claims.{SeesAsBefore};
ghost use Rattle.plan_words.specs.States.{BelongsTo, HasWholeShare};
ghost use Rattle.step_core.specs.ViewTrees.{MayLower};
ghost use Rattle.step_core.specs.Views.{share};
ghost use Rattle.tree_rewire.specs.SeenCosts.{NamesPoint, NamesLoweredOrPoint, PassLowers, PassSees, SeesAnew, SeesPair, parent_seen};
ghost use Rattle.tree_rewire.specs.Spreads.{AllTight, AllTightBut, HasSettledChanges, HasSpread, IsWithinSeenParent, KeepsParents, NoneRises, OnlyAt};
ghost use Rattle.tree_rewire.specs.Spreads.{QueuesFallen, SpreadsFrom};

use edge_cost::{Parent, cost, costs_less_through};
use plan_words::{Pass, Shared};

/// Lowers the subtree of a node whose cost fell: each child that costs more than through its parent, both as the pass has seen them
/// last, and so on from each node whose cost falls. Children are those by the parents that were seen last; without any, nothing
/// changes. The node is seen with its parent and its cost. The pass has a share. Each node that is lowered and lies in a goal by which
/// marks are skipped is posted.
///
/// It loads no costs; an exchange that fails shows what the node costs by now, and with whatever parent. The sum of the costs seen
/// falls with each exchange, so it ends. O(k) for k children of the node and of those that fell, if no other pass comes between.
pub fn spread(shared: &Shared, pass: &mut Pass, node: u32)
    requires belongs { BelongsTo pass.old shared.now }
    requires part { 0 < share pass.old.view }
    requires pair { SeesPair pass.old.view node }
    ensures belongs { BelongsTo pass.new shared.now }
    ensures seen { SeesAnew NamesLoweredOrPoint pass.old.view pass.new.view }
    ensures lists { (pass.new.lists.near ≡ pass.old.lists.near) × (pass.new.lists.around ≡ pass.old.lists.around)
        × (pass.new.lists.search ≡ pass.old.lists.search) }
    // by what is seen then, each child of the node, and of each node whose cost fell, costs no more than through its parent
    ensures spread { HasSpread node pass.old.view pass.new.view }
    // and so does each node that is seen with another parent or cost, if its parent is seen with a cost
    ensures settled { HasSettledChanges pass.old.view pass.new.view }
    // the goal nodes that a pass with the whole share sees stay posted
    ensures goals { HasWholeShare pass.old.view → HasPostedGoals pass.old.view → HasPostedGoals pass.new.view }
    // of a pass with the whole share each lower succeeds, so no parent changes
    ensures whole { HasWholeShare pass.old.view → KeepsParents pass.old.view pass.new.view }
    // and where all costs but those of the node's children were exact, all are
    ensures whole_tight { HasWholeShare pass.old.view → AllTightBut node pass.old.view → AllTight pass.new.view }
{
    pass.clear_waiting();
    pass.queue_parent(node);
    'falls: while let Some(fallen) = pass.pop_waiting() {
        lower_below(shared, pass, fallen);
    }
}

/// Lowers the children of a node until each costs no more than through it. Those whose cost fell wait then, if they have children.
fn lower_below(shared: &Shared, pass: &mut Pass, node: u32)
    requires belongs { BelongsTo pass.old shared.now }
    requires part { 0 < share pass.old.view }
    requires pair { SeesPair pass.old.view node }
    ensures steps { PassLowers shared.now pass.old pass.new }
    ensures spreads { SpreadsFrom node pass.old pass.new }
    ensures falls { NoneRises pass.old.view pass.new.view }
    ensures queued { QueuesFallen pass.old pass.new }
    ensures goals { HasWholeShare pass.old.view → HasPostedGoals pass.old.view → HasPostedGoals pass.new.view }
    ensures whole { HasWholeShare pass.old.view → KeepsParents pass.old.view pass.new.view }
{
    'tries: while let Some(child) = shared.lower_children(pass, node) {
        // an exchange failed: another pass has lowered this child, with whatever parent
        settle(shared, pass, child);
        pass.queue_parent(child);
    }
}

/// Lowers a node until it costs no more than through its parent, both as seen last.
fn settle(shared: &Shared, pass: &mut Pass, node: u32)
    requires belongs { BelongsTo pass.old shared.now }
    requires part { 0 < share pass.old.view }
    requires pair { SeesPair pass.old.view node }
    ensures steps { PassSees NamesLoweredOrPoint shared.now pass.old pass.new }
    ensures others { OnlyAt node pass.old.view pass.new.view }
    ensures settled { IsWithinSeenParent pass.new.view node }
{
    'lowers: while let Some(parent) = looser(shared, pass, node) {
        // an exchange that fails finds a lower cost, with whatever parent
        let _found = shared.lower(pass, node, parent.node, parent.cost);
    }
}

/// The parent of a node, and the cost through it, if that is less than the node's cost.
pub(crate) fn looser(shared: &Shared, pass: &mut Pass, node: u32) -> Option<Parent>
    requires belongs { BelongsTo pass.old shared.now }
    requires pair { SeesPair pass.old.view node }
    ensures steps { PassSees NamesPoint shared.now pass.old pass.new }
    ensures some { IfSome result (λ lower. MayLower pass.new.view node lower.node lower.cost) }
    ensures parent { IfSome result (λ lower. lower.node ≡ parent_seen pass.new.view node) }
    ensures none { IfNone result (IsWithinSeenParent pass.new.view node) }
    // a pass with the whole share finds nothing new
    ensures whole { HasWholeShare pass.old.view → SeesAsBefore pass.old.view pass.new.view }
{
    let (parent, kept_cost) = pass.pair(node).unwrap();
    let (_, above) = pass.pair(parent)?;
    let here = shared.point(pass, node);
    let there = shared.point(pass, parent);
    if costs_less_through(above, there, here, kept_cost) {
        Some(Parent {
            node: parent,
            cost: above + cost(there, here),
        })
    } else {
        None
    }
}
