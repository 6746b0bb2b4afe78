//! Laws of chains of nodes in closed runs, each the contract of a function that does nothing.

ghost use Rattle.std.specs.Prelude.{◌≡◌, ℕ, ◌≤◌, List, ◌∷◌, Option, Some};
ghost use Rattle.plan_model.specs.Runs.ClosedLaw.{IsClosed};
ghost use Rattle.plan_model.specs.Runs.Textbook.{Setup};
ghost use Rattle.plan_model.specs.Trees.BestNode.{IsGoalNode, best_node};
ghost use Rattle.plan_model.specs.Trees.TreeStates.{TreeState, sum_in};
ghost use Rattle.plan_model.specs.declared.geometry.Goal.{Goal};
ghost use Rattle.plan_model.specs.declared.geometry.Point.{Point};
ghost use Rattle.route_laws.specs.Routes.{IsChain, cost_of_chain};

/// In a closed run, of any number of workers, a node is kept at no more than the cost of a chain that ends with it, in 256ths of a
/// lattice step. So is its sum, before and after the run is settled. If the node lies in a goal, then there is a best node, and the
/// path to it, as it is reported, costs no more than the chain.
pub fn chains_bound_costs()
    ensures kept { (setup : Setup) (marks : List Point) (limit : ℕ) (state : TreeState) → IsClosed setup marks limit state
        → (n : ℕ) (earlier : List ℕ) → IsChain setup state n earlier → state.cost n ≤ cost_of_chain state (n ∷ earlier) }
    ensures sum { (setup : Setup) (marks : List Point) (limit : ℕ) (state : TreeState) → IsClosed setup marks limit state
        → (n : ℕ) (earlier : List ℕ) → IsChain setup state n earlier → sum_in state n ≤ cost_of_chain state (n ∷ earlier) }
    ensures path { (setup : Setup) (marks : List Point) (limit : ℕ) (state : TreeState) → IsClosed setup marks limit state
        → (n : ℕ) (earlier : List ℕ) → IsChain setup state n earlier → (goals : List Goal) → IsGoalNode goals state.points n
        → (best : ℕ) × (best_node goals limit state ≡ Some best) × (sum_in state best ≤ cost_of_chain state (n ∷ earlier)) }
{}
