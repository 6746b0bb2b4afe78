//! What it means that a path is smoothed. Each law is the contract of a function that does nothing.

ghost use Rattle.std.specs.Prelude.{◌≡◌, List};
ghost use Rattle.plan_model.specs.Spaces.Clearance.{IsClearPath};
ghost use Rattle.plan_model.specs.declared.configuration_spaces.ConfigurationSpace.{ConfigurationSpace};
ghost use Rattle.plan_model.specs.declared.geometry.Point.{Point};
ghost use Rattle.path_tools.specs.SmoothPaths.{IsSmoothed};

/// There is one smoothed path.
pub fn smoothed_paths_are_unique()
    ensures { (space : ConfigurationSpace) (path a b : List Point) → IsSmoothed space path a → IsSmoothed space path b → a ≡ b }
{}

/// It is clear.
pub fn smoothed_paths_are_clear()
    ensures { (space : ConfigurationSpace) (path smoothed : List Point) → IsSmoothed space path smoothed → IsClearPath space smoothed }
{}
