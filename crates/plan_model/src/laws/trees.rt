//! Laws of the order of pairs, of the best node, and of chains and sums, each the contract of a function that does nothing.

ghost use Rattle.std.specs.Prelude.{◌≡◌, ℕ, suc, ◌+◌, ◌<◌, ◌⊎◌, Bool, IsTrue, Option, Some, None, List, [], ◌∷◌, ◌++◌, filter, replicate};
ghost use Rattle.std.specs.List.{range_with_len};
ghost use Rattle.plan_model.specs.Trees.BestNode.{IsBestNode, IsGoalNode, best_node};
ghost use Rattle.plan_model.specs.Trees.Nearness.{IsFirstLeast, IsNotAbove, first_least};
ghost use Rattle.plan_model.specs.Trees.NodeLists.{AreNumberedTo, IsPresent, AreTightAlong, FallAlong, chain, chain_by, edge_by, sum_by, sum_of};
ghost use Rattle.plan_model.specs.Trees.TreeStates.{TreeState};
ghost use Rattle.plan_model.specs.declared.geometry.Point.{Point};
ghost use Rattle.plan_model.specs.declared.geometry.Goal.{Goal};
ghost use Rattle.plan_model.specs.declared.trees.Twig.{Twig};

/// Pairs of key and number are in a total order, in which no two numbers have the same place.
pub fn pairs_are_ordered()
    ensures itself { (key : ℕ → ℕ) (n : ℕ) → IsNotAbove key n n }
    ensures chained { (key : ℕ → ℕ) (l m n : ℕ) → IsNotAbove key l m → IsNotAbove key m n → IsNotAbove key l n }
    ensures either { (key : ℕ → ℕ) (m n : ℕ) → IsNotAbove key m n ⊎ IsNotAbove key n m }
    ensures apart { (key : ℕ → ℕ) (m n : ℕ) → IsNotAbove key m n → IsNotAbove key n m → m ≡ n }
{}

/// At most one number has the least pair among those that pass a test.
pub fn least_pair_is_unique()
    ensures { (key : ℕ → ℕ) (p : ℕ → Bool) (m n : ℕ) → IsFirstLeast key (λ i. IsTrue (p i)) m
        → IsFirstLeast key (λ i. IsTrue (p i)) n → m ≡ n }
{}

/// The first least of the numbers below a limit that pass a test is the one with the least pair; there is none
/// exactly if no such number passes.
pub fn first_least_is_least()
    ensures some { (key : ℕ → ℕ) (p : ℕ → Bool) (n m : ℕ) → first_least key (filter p (range_with_len 0 n)) ≡ Some m
        → IsFirstLeast key (λ i. (i < n) × IsTrue (p i)) m }
    ensures from_least { (key : ℕ → ℕ) (p : ℕ → Bool) (n m : ℕ) → IsFirstLeast key (λ i. (i < n) × IsTrue (p i)) m
        → first_least key (filter p (range_with_len 0 n)) ≡ Some m }
    ensures none { (key : ℕ → ℕ) (p : ℕ → Bool) (n : ℕ) → first_least key (filter p (range_with_len 0 n)) ≡ None
        → (i : ℕ) → ¬ ((i < n) × IsTrue (p i)) }
    ensures from_none { (key : ℕ → ℕ) (p : ℕ → Bool) (n : ℕ) → ((i : ℕ) → ¬ ((i < n) × IsTrue (p i)))
        → first_least key (filter p (range_with_len 0 n)) ≡ None }
{}

/// If no node has a number past the limit, the best node is the goal node with the least pair of sum and number; there is none
/// exactly if no node lies in the goal.
pub fn best_node_is_best()
    ensures some { (goals : List Goal) (limit : ℕ) (state : TreeState) (n : ℕ) → AreNumberedTo limit state.points
        → best_node goals limit state ≡ Some n → IsBestNode goals state n }
    ensures from_best { (goals : List Goal) (limit : ℕ) (state : TreeState) (n : ℕ) → AreNumberedTo limit state.points
        → IsBestNode goals state n → best_node goals limit state ≡ Some n }
    ensures none { (goals : List Goal) (limit : ℕ) (state : TreeState) → AreNumberedTo limit state.points
        → best_node goals limit state ≡ None → (n : ℕ) → ¬ IsGoalNode goals state.points n }
    ensures from_none { (goals : List Goal) (limit : ℕ) (state : TreeState) → ((n : ℕ) → ¬ IsGoalNode goals state.points n)
        → best_node goals limit state ≡ None }
{}

/// With kept costs that fall along parents, the chain of a node is the node and the chain of its parent.
pub fn chains_follow_parents()
    ensures start { (costs : ℕ → ℕ) (points : List (Option Point)) (parents : ℕ → ℕ) → FallAlong costs points parents
        → chain_by points parents 0 ≡ 0 ∷ [] }
    ensures parent { (costs : ℕ → ℕ) (points : List (Option Point)) (parents : ℕ → ℕ) → FallAlong costs points parents
        → (n : ℕ) → IsPresent points (suc n)
        → chain_by points parents (suc n) ≡ suc n ∷ chain_by points parents (parents (suc n)) }
{}

/// With kept costs that fall along parents, the sum of a node is its parent's and the edge, and kept costs that are
/// tight are the sums.
pub fn sums_add_edges()
    ensures start { (costs : ℕ → ℕ) (points : List (Option Point)) (parents : ℕ → ℕ) → FallAlong costs points parents
        → sum_by points parents 0 ≡ 0 }
    ensures parent { (costs : ℕ → ℕ) (points : List (Option Point)) (parents : ℕ → ℕ) → FallAlong costs points parents
        → (n : ℕ) → IsPresent points (suc n)
        → sum_by points parents (suc n) ≡ sum_by points parents (parents (suc n)) + edge_by points parents (suc n) }
    ensures tight { (costs : ℕ → ℕ) (points : List (Option Point)) (parents : ℕ → ℕ) → FallAlong costs points parents
        → AreTightAlong costs points parents → (n : ℕ) → IsPresent points n → sum_by points parents n ≡ costs n }
{}

/// Absent numbers at the end change no chain and no sum.
pub fn absent_numbers_change_nothing()
    ensures chains { (tree : List (Option Twig)) (most n : ℕ) → chain (tree ++ replicate most None) n ≡ chain tree n }
    ensures sums { (tree : List (Option Twig)) (most n : ℕ) → sum_of (tree ++ replicate most None) n ≡ sum_of tree n }
{}
