//! The shared tree as a walk looks at it: by steps of a pass.

ghost use Rattle.std.specs.Prelude.{◌≡◌, IfNone};
ghost use Rattle.kd_shared.specs.Looking.{FindsEmpty, PassLooks};
ghost use Rattle.plan_model.specs.Trees.NodeLists.{StandsAt};
ghost use Rattle.plan_words.specs.States.{BelongsTo};
ghost use Rattle.step_core.specs.ViewTrees.{SeesNode, sight_in};
ghost use Rattle.step_core.specs.Views.{tree_seen};

use plan_model::Point;
use plan_words::{Pass, Shared};
use step_core::KdTree;

/// The kd-tree of a shared tree, as far as a pass has seen it.
#[derive(Clone, Copy)]
pub(crate) struct SharedTree<'a> {
    pub(crate) shared: &'a Shared,
}

impl KdTree for SharedTree<'_> {
    ghost use Rattle.kd_shared.specs.Looking.{PassLooks-empty, PassLooks-fills, PassLooks-short, PassLooks-trans};

    type Looks = Pass;

    ghost seen = { λ tree pass. tree_seen pass.view };

    ghost may_look = { λ tree pass. BelongsTo pass tree.shared.now };

    ghost looked = { λ tree before after. PassLooks tree.shared.now before after };

    ghost found_empty = { λ tree before after. FindsEmpty (sight_in before.view) (sight_in after.view) };

    fn point(&self, looks: &mut Pass, node: u32) -> Point {
        self.shared.point(looks, node)
    }

    fn child(&self, looks: &mut Pass, node: u32, right: bool) -> Option<u32> {
        self.shared.child(looks, node, right)
    }

    ghost looks_on = { λ tree. PassLooks-trans tree.shared.now };

    ghost keeps_seen = { λ tree. PassLooks-fills tree.shared.now };

    ghost found_since = { λ tree. PassLooks-empty tree.shared.now };

    ghost ways_are_short = { λ tree. PassLooks-short tree.shared.now };
}
