//! Laws of routes that a textbook run follows, each the contract of a function that does nothing.

ghost use Rattle.std.specs.Prelude.{◌≡◌, ◌⊎◌, ℕ, All, Bool, Contains, IsTrue, List, [], Some, length, map, ◌≤◌};
ghost use Rattle.plan_model.specs.Runs.ClosedLaw.{IsClosed, mark_at};
ghost use Rattle.plan_model.specs.Runs.Textbook.{IsOfTextbookRun, Setup, setup_of};
ghost use Rattle.plan_model.specs.Scenes.MarkPoints.{mark_points};
ghost use Rattle.plan_model.specs.Spaces.Clearance.{ClearAt};
ghost use Rattle.plan_model.specs.Spaces.ConfigurationSpace.{space_of};
ghost use Rattle.plan_model.specs.Trees.BestNode.{best_node, goals_of, lies_in_goals, bound_of};
ghost use Rattle.plan_model.specs.Trees.TreeStates.{IsSettled, TreeState, sum_in};
ghost use Rattle.plan_model.specs.declared.geometry.Point.{Point};
ghost use Rattle.plan_model.specs.declared.records.Outcome.TheVariants.{Skipped};
ghost use Rattle.plan_model.specs.declared.records.Record.{Record};
ghost use Rattle.plan_model.specs.declared.scenes.Scene.{Scene};
ghost use Rattle.route_laws.specs.Routes.{ShowsPath, EndApart, IsNearLink, cost_of_route, end_of, HasGoalNode, IsOpenLink, IsReached, IsRoute};

/// A textbook run from a clear start follows a route of open links: once the mark of a point of the route has been handled, some node
/// stands there, or, where marks may be skipped, the run has a goal node.
pub fn routes_are_followed()
    ensures followed { (setup : Setup) (marks : List Point) (state : TreeState) (numbers : List ℕ) → ClearAt setup.space setup.start
        → IsOfTextbookRun setup marks state → IsRoute setup marks (IsOpenLink setup) numbers
        → All (IsReached marks state.points) numbers ⊎ HasGoalNode setup.goals state.points }
    ensures none_skipped { (setup : Setup) (marks : List Point) (state : TreeState) (numbers : List ℕ) → ClearAt setup.space setup.start
        → IsOfTextbookRun setup marks state → IsRoute setup marks (IsOpenLink setup) numbers → setup.goals ≡ []
        → All (IsReached marks state.points) numbers }
{}

/// If a point of such a route lies in a goal of the scene, then the textbook run of the scene has a goal node, and its report, short or
/// full, shows a path.
pub fn routes_into_goals_give_paths()
    ensures goal { (scene : Scene) (state : TreeState) (numbers : List ℕ) (k : ℕ) → ClearAt (space_of scene) scene.start
        → IsOfTextbookRun (setup_of scene) (mark_points scene) state
        → IsRoute (setup_of scene) (mark_points scene) (IsOpenLink (setup_of scene)) numbers
        → Contains numbers k → IsTrue (lies_in_goals (goals_of scene) (mark_at (mark_points scene) k))
        → HasGoalNode (goals_of scene) state.points }
    ensures report { (scene : Scene) (state : TreeState) (numbers : List ℕ) (k : ℕ) → ClearAt (space_of scene) scene.start
        → IsOfTextbookRun (setup_of scene) (mark_points scene) state
        → IsRoute (setup_of scene) (mark_points scene) (IsOpenLink (setup_of scene)) numbers
        → Contains numbers k → IsTrue (lies_in_goals (goals_of scene) (mark_at (mark_points scene) k))
        → (full : Bool) → ShowsPath full scene (length (mark_points scene)) state }
{}

/// If the links of such a route are no longer than the least radius of the run, its last point lies in a goal of the scene, and no two of its
/// marks that follow each other ended at nodes that stood already, then the path of the textbook run costs no more than the route, in 256ths
/// of a lattice step.
pub fn followed_routes_bound_costs()
    ensures { (scene : Scene) (state : TreeState) (numbers : List ℕ) → ClearAt (space_of scene) scene.start
        → IsOfTextbookRun (setup_of scene) (mark_points scene) state
        → IsRoute (setup_of scene) (mark_points scene) (IsNearLink (setup_of scene) (mark_points scene)) numbers
        → EndApart state.record_of numbers
        → IsTrue (lies_in_goals (goals_of scene) (end_of scene.start (map (mark_at (mark_points scene)) numbers)))
        → (best : ℕ) × (best_node (goals_of scene) (length (mark_points scene)) state ≡ Some best)
        × (sum_in state best ≤ cost_of_route (setup_of scene) (mark_points scene) numbers) }
{}

/// If a mark is skipped in a closed and settled run of a scene, of any number of workers, then the path costs no more than the bound of the
/// mark, and so no more than any path over the mark into a goal.
pub fn skipped_marks_bound_costs()
    ensures { (scene : Scene) (limit : ℕ) (state : TreeState) (k : ℕ) (entry : Record)
        → IsClosed (setup_of scene) (mark_points scene) limit state → IsSettled state
        → state.record_of k ≡ Some entry → entry.outcome ≡ Skipped
        → (best : ℕ) × (best_node (goals_of scene) limit state ≡ Some best)
        × (sum_in state best ≤ bound_of scene.start (goals_of scene) (mark_at (mark_points scene) k)) }
{}
