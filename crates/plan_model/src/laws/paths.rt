//! Laws of paths as lists of points, each the contract of a function that does nothing.

ghost use Rattle.std.specs.Prelude.{◌≡◌, List, reverse};
ghost use Rattle.plan_model.specs.Trees.NodeLists.{length_of_path};
ghost use Rattle.plan_model.specs.declared.geometry.Point.{Point};

/// A path costs the same from both ends.
pub fn paths_cost_the_same_backwards()
    ensures { (path : List Point) → length_of_path (reverse path) ≡ length_of_path path }
{}
