//! Worked examples of links and routes, each the contract of a function that does nothing.

ghost use Rattle.plan_model_tests.specs.RouteExamples.{DiscVectors, OpenLinkVectors, WorkersTurnVectors, NearRouteVectors, ReachedVectors};
ghost use Rattle.plan_model_tests.specs.RouteExamples.{RouteVectors, UnfollowedVectors};

/// Links that are open, and links that are not: one cut by a corner beside which each lattice point is clear, one a lattice step longer
/// than the step.
pub fn open_links()
    ensures { OpenLinkVectors }
{}

/// Links whose disc is clear since the body keeps far enough from the obstacle and the walls, and links by one lattice step too long, or
/// with a clearance or a wider body.
pub fn discs()
    ensures { DiscVectors }
{}

/// A route, and numbers that are none.
pub fn routes()
    ensures { RouteVectors }
{}

/// Near links and what routes cost, a link longer than the least radius, and marks at older nodes that follow each other.
pub fn near_routes()
    ensures { NearRouteVectors }
{}

/// Points of marks that are reached, and that are not in time.
pub fn reached_marks()
    ensures { ReachedVectors }
{}

/// Runs that do not reach their only mark: the link to it is not open, or it is skipped.
pub fn unfollowed_runs()
    ensures { UnfollowedVectors }
{}

/// Marks of a route that one worker handled in turn, and marks that it did not.
pub fn workers_turns()
    ensures { WorkersTurnVectors }
{}
