//! Laws of the bound of a mark, each the contract of a function that does nothing.

ghost use Rattle.std.specs.Prelude.{◌≡◌, ℕ, ◌+◌, ◌-◌, ◌<◌, ◌≤◌, IsTrue, List, length};
ghost use Rattle.plan_model.specs.Geometry.Lengths.{cost_of};
ghost use Rattle.plan_model.specs.Spaces.Clearance.{path_point};
ghost use Rattle.plan_model.specs.Trees.BestNode.{lies_in_goals, bound_of};
ghost use Rattle.plan_model.specs.Trees.NodeLists.{length_of_path};
ghost use Rattle.plan_model.specs.declared.geometry.Goal.{Goal};
ghost use Rattle.plan_model.specs.declared.geometry.Point.{Point};

/// The bound of a point is the least cost of two edges, from the start to it, and from it to a lattice point of a goal: none costs less,
/// and one costs as much, if a goal has a lattice point.
pub fn bounds_are_least()
    ensures least { (start : Point) (goals : List Goal) (p z : Point) → IsTrue (lies_in_goals goals z)
        → bound_of start goals p ≤ cost_of start p + cost_of p z }
    ensures reached { (start : Point) (goals : List Goal) (p z : Point) → IsTrue (lies_in_goals goals z)
        → (nearest : Point) × IsTrue (lies_in_goals goals nearest) × (bound_of start goals p ≡ cost_of start p + cost_of p nearest) }
{}

/// No path over a point to a lattice point of a goal costs less than the bound of the point, whatever stands in its way: a path is a list
/// of points, and costs its edges.
pub fn paths_cost_at_least_bounds()
    ensures { (goals : List Goal) (path : List Point) (k : ℕ) → k < length path → IsTrue (lies_in_goals goals (path_point path (length path - 1)))
        → bound_of (path_point path 0) goals (path_point path k) ≤ length_of_path path }
{}
