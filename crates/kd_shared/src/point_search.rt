//! The search for a node at a point.

ghost use Rattle.std.specs.Prelude.{◌≡◌, IfNone, IfSome};
ghost use Rattle.kd_shared.specs.Looking.{OnlyLooks};
ghost use Rattle.plan_model.specs.Trees.NodeLists.{IsFree};
ghost use Rattle.plan_model.specs.Seen.Sights.{EndsSince};
ghost use Rattle.plan_words.specs.States.{BelongsTo, with_view};
ghost use Rattle.step_core.specs.ViewTrees.{SeesPoint, sight_in};
ghost use Rattle.step_core.specs.Views.{tree_seen};

use crate::shared_looks::SharedTree;
use plan_model::Point;
use plan_words::{Pass, Shared};
use step_core::walk;

/// The node at a point, which may be any, and which is seen there then. `None` only if none was seen there before the call,
/// and its way ended at a place that this call found empty. It walks that way from node 0, by one load of a point and one of a
/// child for each node: O(d) for a tree of depth d.
pub fn find(shared: &Shared, pass: &mut Pass, p: Point) -> Option<u32>
    requires belongs { BelongsTo pass.old shared.now }
    ensures belongs { BelongsTo pass.new shared.now }
    ensures looks { OnlyLooks pass.old.view pass.new.view }
    ensures view_alone { pass.new ≡ with_view pass.old pass.new.view }
    ensures found { IfSome result (λ node. SeesPoint pass.new.view node p) }
    // its way came to a place that this call found empty
    ensures ends { IfNone result (EndsSince (sight_in pass.new.view) pass.old.view.steps p) }
    ensures missed { IfNone result (IsFree (tree_seen pass.old.view).points p) }
    // nor is one seen there now
    ensures free { IfNone result (IsFree (tree_seen pass.new.view).points p) }
{
    let stop = walk(&SharedTree { shared }, pass, p);
    if stop.here == p {
        return Some(stop.node);
    }
    None
}
