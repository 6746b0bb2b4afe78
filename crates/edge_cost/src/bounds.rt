//! What a path over a point costs at least.

ghost use Rattle.std.specs.Prelude.{◌≡◌, ◌^◌, ◌<◌, ◌≤◌, All, IsTrue, length};
ghost use Rattle.plan_model.specs.declared.geometry.Point.{Point};
ghost use Rattle.plan_model.specs.Geometry.Plane.{IsBounded, IsBoundedBox, squared_distance};
ghost use Rattle.plan_model.specs.Trees.BestNode.{is_in_goal, bound_of};

use crate::costs::{cost, cost_of_square};
use plan_model::{Goal, Point};

/// The bound of `p`: what the edge from `start` to it costs, and the least that an edge from it to a lattice point of a goal costs.
///
/// No path from the start over `p` into a goal costs less, whatever stands in its way. There is a goal at least, and no coordinate of a
/// point or a goal is above `MOST_COORDINATE`. In 256ths of a lattice step. O(g) for g goals, with two roots.
pub fn bound(start: Point, goals: &[Goal], p: Point) -> u64
    requires start { IsBounded start }
    requires point { IsBounded p }
    requires goals { All IsBoundedBox goals.now }
    requires some { 0 < length goals.now }
    ensures value { result ≡ bound_of start goals.now p }
    ensures bound { result < 2 ^ 30 }
{
    let mut least = p.squared_distance(nearest_in(goals[0], p));
    for goal in goals {
        least = least.min(p.squared_distance(nearest_in(*goal, p)));
    }
    cost(start, p) + cost_of_square(least)
}

/// The lattice point of the box that is nearest to `p`.
fn nearest_in(goal: Goal, p: Point) -> Point
    requires { IsBoundedBox goal }
    ensures inside { IsTrue (is_in_goal goal result) }
    ensures bounded { IsBounded result }
    ensures nearest { (z : Point) → IsTrue (is_in_goal goal z) → squared_distance p result ≤ squared_distance p z }
{
    Point {
        x: p.x.max(goal.low.x).min(goal.high.x),
        y: p.y.max(goal.low.y).min(goal.high.y),
    }
}

#[cfg(test)]
mod tests {
    use super::*;
    use crate::bounded;

    /// The corners of two goals, the one a single point.
    static GOALS: [Goal; 2] = [
        Goal {
            low: Point { x: 20, y: 40 },
            high: Point { x: 30, y: 60 },
        },
        Goal {
            low: Point { x: 90, y: 40 },
            high: Point { x: 90, y: 40 },
        },
    ];

    /// A start, a point, and the bound of the point.
    static CASES: [((u16, u16), (u16, u16), u64); 8] = [
        // the nearest lattice point is on a side, at a corner, the point itself, and the other goal
        ((50, 50), (35, 50), 5_120),
        ((33, 64), (33, 64), 1_280),
        ((50, 50), (25, 50), 6_400),
        ((90, 0), (90, 35), 10_240),
        // the goals are as near, and one is a lattice step nearer
        ((60, 40), (60, 40), 7_680),
        ((61, 40), (61, 40), 7_424),
        // an edge of its own is rounded up by itself
        ((19, 39), (19, 39), 363),
        ((20, 38), (19, 39), 726),
    ];

    #[test]
    fn adds_the_least_edge_to_a_goal(rt: HostRuntime) {
        for &(start, p, want) in &CASES {
            assert_eq!(rt;
                bound(bounded(start), &GOALS, bounded(p)),
                want,
                "over {p:?}"
            );
        }
    }
}
