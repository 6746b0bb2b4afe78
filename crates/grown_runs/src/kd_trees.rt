//! Kd-trees, as a walk sees them.

ghost use Rattle.std.specs.Prelude.{◌≡◌, IfNone};
ghost use Rattle.plan_model.specs.Trees.NodeLists.{StandsAt};
ghost use Rattle.plan_model.specs.Seen.SeenTrees.{IsSeen};

use plan_model::Point;

/// A kd-tree of numbered nodes, of which node 0 is the root. Others may add nodes while it is looked at: then what is said of it is said
/// of the nodes that were seen so far.
pub trait KdTree {
    ghost use Rattle.std.specs.Prelude.{ℕ, ◌<◌, Bool};
    ghost use Rattle.plan_model.specs.declared.geometry.Point.{Point};
    ghost use Rattle.plan_model.specs.declared.limits.TheConstants.{MOST_NODES};
    ghost use Rattle.plan_model.specs.Seen.SeenTrees.{SeenTree};
    ghost use Rattle.plan_model.specs.Seen.SeenTrees.{FillsPlaces, IsOnWay};

    /// What a look changes, as what was seen so far.
    type Looks;

    /// The tree as far as it was seen.
    ghost seen: { Self → Self.Looks → SeenTree };

    /// Whether the tree may be looked at.
    ghost may_look: { Self → Self.Looks → Type 0 };

    /// What holds from before some looks to after them.
    ghost looked: { Self → Self.Looks → Self.Looks → Type 0 };

    /// Whether one of the looks in between found that a node has no child on this side.
    ghost found_empty: { Self → Self.Looks → Self.Looks → ℕ → Bool → Type 0 };

    /// The point of a seen node, which is seen there then.
    fn point(&self, looks: &mut Self::Looks, node: u32) -> Point
        requires may { may_look self.now looks.old }
        requires seen_node { IsSeen (seen self.now looks.old) node }
        ensures may { may_look self.now looks.new }
        ensures looks { looked self.now looks.old looks.new }
        ensures stands { StandsAt (seen self.now looks.new).points node result };

    /// The child of a seen node on its left or its right, which is seen then, or `None`, and then none is seen there.
    fn child(&self, looks: &mut Self::Looks, node: u32, right: bool) -> Option<u32>
        requires may { may_look self.now looks.old }
        requires seen_node { IsSeen (seen self.now looks.old) node }
        ensures may { may_look self.now looks.new }
        ensures looks { looked self.now looks.old looks.new }
        ensures child { (seen self.now looks.new).child node right ≡ result }
        ensures empty { IfNone result (found_empty self.now looks.old looks.new node right) };

    /// Looks follow one another.
    ghost looks_on: { (tree : Self) (before mid after : Self.Looks) → looked tree before mid → looked tree mid after → looked tree before after };

    /// What was seen stays seen.
    ghost keeps_seen: { (tree : Self) (before after : Self.Looks) → looked tree before after
        → FillsPlaces (seen tree before).child (seen tree after).child (seen tree before).points (seen tree after).points };

    /// What was found empty later was found so since.
    ghost found_since: { (tree : Self) (before mid after : Self.Looks) (n : ℕ) (side : Bool) → looked tree before mid
        → found_empty tree mid after n side → found_empty tree before after n side };

    /// No way is longer than the nodes are many.
    ghost ways_are_short: { (tree : Self) (before after : Self.Looks) (q : Point) (depth n : ℕ) → looked tree before after
        → IsOnWay (seen tree after).child (seen tree after).points q depth n → depth < MOST_NODES };
}
