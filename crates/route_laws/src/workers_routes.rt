//! Laws of routes in runs of several workers, each the contract of a function that does nothing.

ghost use Rattle.std.specs.Prelude.{◌⊎◌, ℕ, All, List, map};
ghost use Rattle.plan_model.specs.Runs.ClosedLaw.{IsClosed, mark_at};
ghost use Rattle.plan_model.specs.Runs.Textbook.{Setup};
ghost use Rattle.plan_model.specs.Trees.TreeStates.{TreeState};
ghost use Rattle.plan_model.specs.declared.geometry.Point.{Point};
ghost use Rattle.route_laws.specs.Routes.{AreLinks, HasGoalNode, IsOpenLink, AreHandledInTurn, HasNodeAt};

/// In a closed run, of any number of workers, a route of open links is followed if one worker handled its marks in turn: each after the
/// start or a node that it had placed itself, at which the mark before ended. Then some node stands at each point of the route, or, where
/// marks may be skipped, the run has a goal node.
pub fn routes_of_one_worker_are_followed()
    ensures { (setup : Setup) (marks : List Point) (limit : ℕ) (state : TreeState) (numbers : List ℕ) → IsClosed setup marks limit state
        → AreLinks (IsOpenLink setup) setup.start (map (mark_at marks) numbers) → AreHandledInTurn state 0 numbers
        → All (λ k. HasNodeAt state.points (mark_at marks k)) numbers ⊎ HasGoalNode setup.goals state.points }
{}
