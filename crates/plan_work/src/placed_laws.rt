//! What a node that was placed has, before the nodes near it are rewired. Each law is the contract of a function that does nothing.

ghost use Rattle.std.specs.Prelude.{◌≡◌, ℕ, IfSome, IsSome};
ghost use Rattle.kd_shared.specs.Placings.{IsPlaced};
ghost use Rattle.step_core.specs.declared.views.Hand.{Hand};
ghost use Rattle.step_core.specs.declared.views.View.{View};
ghost use Rattle.tree_rewire.specs.Spreads.{HasPlaced};

/// Once `place` of `kd_shared` has placed the node of mark k, `rewire` of `tree_rewire` may follow: the mark is still in hand, and its
/// node is linked and counted, and seen at its point, with its parent and its cost.
pub fn placed_nodes_may_rewire()
    ensures hand { (view : View) (hand : Hand) → IsPlaced view hand → IsSome view.hand }
    ensures placed { (view : View) (k : ℕ) (hand : Hand) → IsPlaced view hand → hand.mark ≡ k → IfSome view.hand (λ now. HasPlaced view k now) }
{}
