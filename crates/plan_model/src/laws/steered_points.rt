//! Laws of steering.

ghost use Rattle.std.specs.Prelude.{◌≡◌, ◌≢◌, ℕ, List, Option, ◌+◌, ◌-◌, ◌*◌, ◌/◌, ◌<◌, ◌≤◌, ◌↔◌};
ghost use Rattle.plan_model.specs.Geometry.Plane.{squared_distance};
ghost use Rattle.plan_model.specs.Trees.Nearness.{IsNearest};
ghost use Rattle.plan_model.specs.Trees.NodeLists.{StandsAt, point_of};
ghost use Rattle.plan_model.specs.Geometry.Lengths.{IsStep, advanced, steered};
ghost use Rattle.plan_model.specs.declared.geometry.Point.{Point};

/// Steering moves a coordinate by its share of the way, rounded towards where it stands.
pub fn steering_rounds_to_start()
    ensures forwards { (from to step len : ℕ) → from ≤ to → advanced from to step len ≡ from + (to - from) * step / len }
    ensures backwards { (from to step len : ℕ) → to ≤ from → 0 < len → step ≤ len → advanced from to step len ≡ from - (from - to) * step / len }
{}

/// A step from `a` towards `b` is no longer than a step may be, and ends in their box: at `b` exactly if `b` is that near,
/// and strictly nearer to `b` than `a` is if it moves at all. By two lattice steps or more it does, unless `a` is `b`.
pub fn steps_are_short_and_lead_nearer()
    ensures steps { (a b : Point) (step : ℕ) → IsStep a b step (steered a b step) }
    ensures reached { (a b : Point) (step : ℕ) → (steered a b step ≡ b) ↔ (squared_distance a b ≤ step * step) }
    ensures moves { (a b : Point) (step : ℕ) → 1 < step → steered a b step ≡ a → a ≡ b }
    ensures nearer { (a b : Point) (step : ℕ) → steered a b step ≢ a → squared_distance (steered a b step) b < squared_distance a b }
{}

/// A node that stands where the nearest node steers to stands where the nearest node does, and by two lattice steps or
/// more the mark is there too.
pub fn steps_lead_to_no_other_node()
    ensures stays { (points : List (Option Point)) (q : Point) (step m n : ℕ) → IsNearest points q m
        → StandsAt points n (steered (point_of points m) q step) → steered (point_of points m) q step ≡ point_of points m }
    ensures arrived { (points : List (Option Point)) (q : Point) (step m n : ℕ) → 1 < step → IsNearest points q m
        → StandsAt points n (steered (point_of points m) q step) → point_of points m ≡ q }
{}
