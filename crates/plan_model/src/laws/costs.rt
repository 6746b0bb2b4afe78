//! Laws of roots and costs.

ghost use Rattle.std.specs.Prelude.{◌≡◌, ℕ, ◌+◌, ◌≤◌};
ghost use Rattle.plan_model.specs.Geometry.Lengths.{cost_of, IsRootCeiling, root_ceiling};
ghost use Rattle.plan_model.specs.declared.geometry.Point.{Point};

/// The root of a number is the least whose square reaches it.
pub fn root_is_least()
    ensures { (n : ℕ) → IsRootCeiling n (root_ceiling n) }
{}

/// An edge costs the same in both directions, only one without length costs nothing, and none costs more than
/// two edges over a third point (the triangle law).
pub fn costs_are_distances()
    ensures both_ways { (a b : Point) → cost_of a b ≡ cost_of b a }
    ensures apart { (a b : Point) → cost_of a b ≡ 0 → a ≡ b }
    ensures triangle { (a b c : Point) → cost_of a c ≤ cost_of a b + cost_of b c }
{}
