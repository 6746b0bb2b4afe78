//! What it means that lowered costs were spread. Each law is the contract of a function that does nothing.

ghost use Rattle.std.specs.Prelude.{◌≡◌, ℕ, ◌+◌, ◌<◌, ◌≤◌, Contains, List};
ghost use Rattle.plan_model.specs.declared.configuration_spaces.ConfigurationSpace.{ConfigurationSpace};
ghost use Rattle.plan_model.specs.Geometry.Lengths.{cost_of};
ghost use Rattle.plan_model.specs.Trees.NodeLists.{point_of};
ghost use Rattle.step_core.specs.Views.{tree_seen};
ghost use Rattle.step_core.specs.declared.views.View.{View};
ghost use Rattle.tree_rewire.specs.Spreads.{CostsLess, HasSpreadFalls, IsShortcut, HasSpread};
ghost use Rattle.tree_rewire.specs.SeenCosts.{SeesPair, cost_seen, seen_cost_through, parent_seen};

/// After a spread from a node, its children cost no more than through it, and a grandchild below a child whose cost fell no more
/// than over both edges.
pub fn spreads_reach_grandchildren()
    ensures child { (node c : ℕ) (before after : View) → HasSpread node before after → SeesPair before c → parent_seen after c ≡ node
        → cost_seen after c ≤ seen_cost_through after (point_of (tree_seen after).points c) node }
    ensures grandchild { (node b c : ℕ) (before after : View) → HasSpread node before after → SeesPair before b → SeesPair before c
        → parent_seen after b ≡ node → parent_seen after c ≡ b → cost_seen after b < cost_seen before b
        → cost_seen after c ≤ cost_seen after node + cost_of (point_of (tree_seen after).points node) (point_of (tree_seen after).points b)
        + cost_of (point_of (tree_seen after).points b) (point_of (tree_seen after).points c) }
{}

/// After a rewiring, a node whose cost fell costs no more than through its parent, and so does each child of it. Of a near node to
/// which the new one was a shortcut this holds if it hangs below the new one.
pub fn falls_reach_children()
    ensures fallen { (space : ConfigurationSpace) (near : List ℕ) (node n : ℕ) (before after : View)
        → HasSpreadFalls space (Contains near) node before after → SeesPair before n → SeesPair before (parent_seen after n) → CostsLess before after n
        → (Contains near n → IsShortcut space before after node n → parent_seen after n ≡ node)
        → cost_seen after n ≤ seen_cost_through after (point_of (tree_seen after).points n) (parent_seen after n) }
    ensures child { (space : ConfigurationSpace) (near : List ℕ) (node n c : ℕ) (before after : View)
        → HasSpreadFalls space (Contains near) node before after → SeesPair before n → SeesPair before c → parent_seen after c ≡ n → CostsLess before after n
        → ¬ Contains near c → cost_seen after c ≤ seen_cost_through after (point_of (tree_seen after).points c) n }
{}
