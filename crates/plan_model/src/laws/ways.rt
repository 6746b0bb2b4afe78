//! Laws of ways through a kd-tree, each the contract of a function that does nothing.

ghost use Rattle.std.specs.Prelude.{◌≡◌, ℕ, suc, ◌<◌, ◌⊎◌, Bool, Option, Some, None, List};
ghost use Rattle.plan_model.specs.Trees.NodeLists.{AreDistinct, IsFree, IsPresent, StandsAt, node_count};
ghost use Rattle.plan_model.specs.Seen.SeenTrees.{AddsPoint, Children, EndsBelow, FillsPlaces, FollowWays, IsOnWay, LinksAt, goes_right};
ghost use Rattle.plan_model.specs.declared.geometry.Point.{Point};

/// The way of a point is one way: it has one node at each depth and one end. If each node is where its way leads, a
/// node is on ways at one depth only, and no two nodes stand at the same point.
pub fn ways_are_unique()
    ensures node { (child : Children) (points : List (Option Point)) (q : Point) (depth n m : ℕ)
        → IsOnWay child points q depth n → IsOnWay child points q depth m → n ≡ m }
    ensures end { (child : Children) (points : List (Option Point)) (q : Point) (depth n other m : ℕ) (p r : Point)
        → EndsBelow child points q depth n p → EndsBelow child points q other m r → (depth ≡ other) × (n ≡ m) × (p ≡ r) }
    ensures depth { (child : Children) (points : List (Option Point)) → FollowWays child points
        → (q r : Point) (depth other n : ℕ) → IsOnWay child points q depth n → IsOnWay child points r other n → depth ≡ other }
    ensures distinct { (child : Children) (points : List (Option Point)) → FollowWays child points → AreDistinct points }
{}

/// A way passes present nodes, no more than there are. It comes to a node at its point and stops there, or it comes
/// to an end if and only if no node stands there.
pub fn ways_come_to_an_end()
    ensures present { (child : Children) (points : List (Option Point)) → FollowWays child points → IsPresent points 0
        → (q : Point) (depth n : ℕ) → IsOnWay child points q depth n → IsPresent points n × (depth < node_count points) }
    ensures either { (child : Children) (points : List (Option Point)) → FollowWays child points → IsPresent points 0 → (q : Point)
        → ((depth : ℕ) × (n : ℕ) × IsOnWay child points q depth n × StandsAt points n q)
        ⊎ ((depth : ℕ) × (n : ℕ) × (p : Point) × EndsBelow child points q depth n p) }
    ensures ends { (child : Children) (points : List (Option Point)) → FollowWays child points → IsPresent points 0
        → (q : Point) → IsFree points q → (depth : ℕ) × (n : ℕ) × (p : Point) × EndsBelow child points q depth n p }
    ensures stops { (child : Children) (points : List (Option Point)) (q : Point) (depth n : ℕ)
        → IsOnWay child points q depth n → StandsAt points n q
        → (later m : ℕ) → depth < later → ¬ IsOnWay child points q later m }
    ensures free { (child : Children) (points : List (Option Point)) → FollowWays child points
        → (q : Point) (depth n : ℕ) (p : Point) → EndsBelow child points q depth n p → IsFree points q }
{}

/// If a node is linked at the end of the way of its point, each node still is where its way leads, the new one
/// a step after that end. While children and nodes stay, ways go on as before, and an end stays until its place fills.
pub fn links_keep_ways()
    ensures ways { (child after : Children) (points later : List (Option Point)) (q : Point) (depth n m : ℕ) (p : Point)
        → FollowWays child points → EndsBelow child points q depth n p → AddsPoint points later m q
        → LinksAt child after n (goes_right depth p q) m → FollowWays after later }
    ensures linked { (child after : Children) (points later : List (Option Point)) (q : Point) (depth n m : ℕ) (p : Point)
        → EndsBelow child points q depth n p → AddsPoint points later m q
        → LinksAt child after n (goes_right depth p q) m → IsOnWay after later q (suc depth) m }
    ensures fills { (child after : Children) (points later : List (Option Point)) (q : Point) (n m : ℕ) (side : Bool)
        → LinksAt child after n side m → AddsPoint points later m q → FillsPlaces child after points later }
    ensures kept { (child after : Children) (points later : List (Option Point)) → FillsPlaces child after points later
        → (q : Point) (depth n : ℕ) → IsOnWay child points q depth n → IsOnWay after later q depth n }
    ensures ends { (child after : Children) (points later : List (Option Point)) → FillsPlaces child after points later
        → (q : Point) (depth n : ℕ) (p : Point) → EndsBelow child points q depth n p → EndsBelow after later q depth n p
        ⊎ ((m : ℕ) × (after n (goes_right depth p q) ≡ Some m) × IsOnWay after later q (suc depth) m) }
{}

/// In a tree of node 0 alone, without children, each node is where its way leads.
pub fn ways_begin_at_node_0()
    ensures { (child : Children) (points : List (Option Point)) → ((n : ℕ) (side : Bool) → child n side ≡ None)
        → ((n : ℕ) (p : Point) → StandsAt points n p → n ≡ 0) → FollowWays child points }
{}
