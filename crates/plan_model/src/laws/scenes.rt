//! Laws of scenes that differ in their ends, each the contract of a function that does nothing.

ghost use Rattle.std.specs.Prelude.{◌≡◌, [], IsTrue, List, if◌then◌else◌};
ghost use Rattle.plan_model.specs.Spaces.ConfigurationSpace.{space_of};
ghost use Rattle.plan_model.specs.Scenes.Limits.{IsBetween, are_goals, most_side};
ghost use Rattle.plan_model.specs.Scenes.MarkPoints.{mark_points};
ghost use Rattle.plan_model.specs.Scenes.ChangedScenes.{with_ends};
ghost use Rattle.plan_model.specs.Runs.Textbook.{setup_of};
ghost use Rattle.plan_model.specs.declared.geometry.Goal.{Goal};
ghost use Rattle.plan_model.specs.declared.geometry.Point.{Point};
ghost use Rattle.plan_model.specs.declared.scenes.Scene.{Scene};

/// A scene with another start and other goals has these, the same configuration space and the same mark points, and its setup differs in
/// the start and, if the scene is informed, in the goals by which marks may be skipped.
pub fn ends_change_neither_space_nor_marks()
    ensures space { (scene : Scene) (start : Point) (start_within : IsBetween 0 (most_side scene.version) start)
        (goals : List Goal) (goals_within : IsTrue (are_goals scene.version goals))
        → space_of (with_ends scene start start_within goals goals_within) ≡ space_of scene }
    ensures marks { (scene : Scene) (start : Point) (start_within : IsBetween 0 (most_side scene.version) start)
        (goals : List Goal) (goals_within : IsTrue (are_goals scene.version goals))
        → mark_points (with_ends scene start start_within goals goals_within) ≡ mark_points scene }
    ensures setup { (scene : Scene) (start : Point) (start_within : IsBetween 0 (most_side scene.version) start)
        (goals : List Goal) (goals_within : IsTrue (are_goals scene.version goals))
        → setup_of (with_ends scene start start_within goals goals_within)
        ≡ record (setup_of scene) { start = start; goals = if scene.informed then goals else [] } }
    ensures goals { (scene : Scene) (start : Point) (start_within : IsBetween 0 (most_side scene.version) start)
        (goals : List Goal) (goals_within : IsTrue (are_goals scene.version goals))
        → (with_ends scene start start_within goals goals_within).goals ≡ goals }
{}
