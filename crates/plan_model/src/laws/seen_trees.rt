//! Laws of what workers have seen of a tree, each the contract of a function that does nothing.

ghost use Rattle.std.specs.Prelude.{◌≡◌, ℕ, ◌≤◌, Some};
ghost use Rattle.plan_model.specs.Runs.OrderLaw.{KeepsFirstCosts, KeepsOrder};
ghost use Rattle.plan_model.specs.Trees.NodeLists.{AreDistinct, IsFree, IsPresent};
ghost use Rattle.plan_model.specs.Seen.SeenTrees.{AreSeenLawfully, seen_whole, FollowSeenWays, HasSeenAtLeast, IsOnSeenWay, IsRooted, IsSeen, IsTrueOf};
ghost use Rattle.plan_model.specs.Seen.SeenTrees.{SeenTree, SharedTree, TreeGrows, FollowWays, IsOnWay};
ghost use Rattle.plan_model.specs.Seen.Sights.{AgreeOnParents, EndsSince, IsLaterMoment, IsSwept, KeepsSight, Sight, TakesOver};
ghost use Rattle.plan_model.specs.Runs.Textbook.{Setup};
ghost use Rattle.plan_model.specs.Trees.TreeStates.{GrowsInto, TreeState};
ghost use Rattle.plan_model.specs.declared.geometry.Point.{Point};

/// What a worker has seen of a tree stays seen, and what a call has swept stays swept. Each moment counts as later than
/// itself, and what is later than a later moment is later; so with what has been seen at least.
pub fn what_is_seen_stays_seen()
    ensures as_much { (seen : SeenTree) → HasSeenAtLeast seen seen }
    ensures more { (one mid other : SeenTree) → HasSeenAtLeast one mid → HasSeenAtLeast mid other → HasSeenAtLeast one other }
    ensures itself { (sight : Sight) → IsLaterMoment sight sight }
    ensures all_the_while { (one mid other : Sight) → IsLaterMoment one mid → IsLaterMoment mid other → IsLaterMoment one other }
    ensures nodes { (before after : SeenTree) → HasSeenAtLeast before after → (n : ℕ) → IsSeen before n → IsSeen after n }
    ensures swept { (before after : Sight) → IsLaterMoment before after → KeepsSight before
        → (steps : ℕ) (q : Point) → IsSwept before steps q → IsSwept after steps q }
{}

/// If the way of a point comes to a place that a step since some moment found empty, no node was seen at the point at
/// that moment.
pub fn ways_that_end_miss_no_node()
    ensures { (before after : Sight) → IsLaterMoment before after → KeepsSight before → KeepsSight after
        → (q : Point) → EndsSince after before.steps q → IsFree before.seen.points q }
{}

/// What was seen of a tree stays true of it while it grows. Less that was seen is true too.
pub fn what_is_seen_stays_true()
    ensures grows { (seen : SeenTree) (before after : SharedTree) → TreeGrows before after → IsTrueOf seen before → IsTrueOf seen after }
    ensures less { (less seen : SeenTree) (tree : SharedTree) → HasSeenAtLeast less seen → IsTrueOf seen tree → IsTrueOf less tree }
{}

/// What is true of a tree is as in the tree: seen nodes are present, at points of their own, and cost no more than was
/// seen; a way over seen children and points is one through the tree, and a way through the tree to a seen node runs
/// over seen children. So what is seen from node 0 on follows ways if the tree does.
pub fn what_is_true_follows_the_tree()
    ensures nodes { (seen : SeenTree) (tree : SharedTree) → IsTrueOf seen tree → IsRooted seen → FollowWays tree.child tree.state.points
        → (n : ℕ) → IsSeen seen n → IsPresent tree.state.points n }
    ensures distinct { (seen : SeenTree) (tree : SharedTree) → IsTrueOf seen tree → FollowWays tree.child tree.state.points → AreDistinct seen.points }
    ensures costs { (seen : SeenTree) (tree : SharedTree) → IsTrueOf seen tree
        → (n : ℕ) (pair : ℕ × ℕ) → seen.parent_and_cost n ≡ Some pair → tree.state.cost n ≤ pair.1 }
    ensures ways { (seen : SeenTree) (tree : SharedTree) → IsTrueOf seen tree
        → (q : Point) (depth n : ℕ) → IsOnWay seen.child seen.points q depth n → IsOnWay tree.child tree.state.points q depth n }
    ensures seen_ways { (seen : SeenTree) (tree : SharedTree) → IsTrueOf seen tree → IsRooted seen → FollowWays tree.child tree.state.points
        → (q : Point) (depth n : ℕ) → IsSeen seen n → IsOnWay tree.child tree.state.points q depth n → IsOnSeenWay seen q depth n }
    ensures follow { (seen : SeenTree) (tree : SharedTree) → IsTrueOf seen tree → IsRooted seen → FollowWays tree.child tree.state.points
        → FollowSeenWays seen }
{}

/// A worker that takes over what another has seen is at a later moment of its own. If both have seen what is true of one
/// tree, and at one cost of a node one parent, it has seen at least what the other has, and what it has seen is true.
pub fn what_is_taken_over_is_seen()
    ensures own { (before after : Sight) (other : SeenTree) → TakesOver before other after → IsLaterMoment before after }
    ensures other { (before after : Sight) (other : SeenTree) (tree : SharedTree) → TakesOver before other after
        → IsTrueOf before.seen tree → IsTrueOf other tree → AgreeOnParents before.seen other → HasSeenAtLeast other after.seen }
    ensures still_true { (before after : Sight) (other : SeenTree) (tree : SharedTree) → TakesOver before other after
        → IsTrueOf before.seen tree → IsTrueOf other tree → IsTrueOf after.seen tree }
    ensures keeps { (before after : Sight) (other : SeenTree) (tree : SharedTree) → TakesOver before other after
        → IsTrueOf before.seen tree → IsTrueOf other tree → FollowWays tree.child tree.state.points
        → KeepsSight before → IsRooted other → KeepsSight after }
    ensures agree { (before after : Sight) (other third : SeenTree) → TakesOver before other after
        → AgreeOnParents before.seen third → AgreeOnParents other third → AgreeOnParents after.seen third }
{}

/// Parents and costs that are seen of a tree which keeps the order law are lawful. They stay so while the tree grows, and
/// if a worker takes over what another has seen.
pub fn seen_parents_stay_lawful()
    ensures of_tree { (setup : Setup) (tree : SharedTree) → KeepsOrder setup tree.state → KeepsFirstCosts setup tree.state
        → AreSeenLawfully setup (seen_whole tree) tree.state }
    ensures grows { (setup : Setup) (seen : SeenTree) (before after : TreeState) → GrowsInto before after
        → AreSeenLawfully setup seen before → AreSeenLawfully setup seen after }
    ensures taken_over { (setup : Setup) (before after : Sight) (other : SeenTree) (state : TreeState) → TakesOver before other after
        → AreSeenLawfully setup before.seen state → AreSeenLawfully setup other state → AreSeenLawfully setup after.seen state }
{}
