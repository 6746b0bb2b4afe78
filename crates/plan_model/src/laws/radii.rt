//! Laws of classes and radii.

ghost use Rattle.std.specs.Prelude.{◌≡◌, ℕ, Option, List, [], ◌-◌, ◌*◌, ◌^◌, ◌<◌, ◌≤◌};
ghost use Rattle.plan_model.specs.Geometry.Lengths.{class_of, radius_of_class};
ghost use Rattle.plan_model.specs.Trees.NodeLists.{IsFree};
ghost use Rattle.plan_model.specs.Runs.Textbook.{Setup, near_new};
ghost use Rattle.plan_model.specs.declared.geometry.Point.{Point};

/// Class b holds the numbers from 2 ^ (b - 1) up to 2 ^ b - 1.
pub fn class_holds_powers()
    ensures low { (n : ℕ) → 1 ≤ n → 2 ^ (class_of n - 1) ≤ n }
    ensures high { (n : ℕ) → n < 2 ^ class_of n }
{}

/// The radius of a class is at most the step and meets its inequality, and no greater one does.
pub fn radius_is_greatest()
    ensures within { (step gamma b : ℕ) → radius_of_class step gamma b ≤ step }
    ensures meets { (step gamma b : ℕ) → radius_of_class step gamma b * radius_of_class step gamma b * 2 ^ (b - 1) ≤ gamma * gamma * b }
    ensures greatest { (step gamma b r : ℕ) → r ≤ step → r * r * 2 ^ (b - 1) ≤ gamma * gamma * b → r ≤ radius_of_class step gamma b }
{}

/// With gamma 0 no node is near a point at which none stands: the planner is RRT, which chooses no parents and rewires nothing.
pub fn gamma_0_is_rrt()
    ensures { (setup : Setup) (points : List (Option Point)) (p : Point) → setup.gamma ≡ 0 → IsFree points p → near_new setup points p ≡ [] }
{}
