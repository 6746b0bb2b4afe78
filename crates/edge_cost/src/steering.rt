//! Steering from a node towards a mark.

ghost use Rattle.std.specs.Prelude.{◌≡◌, ◌*◌, ◌≤◌, min, max};
ghost use Rattle.plan_model.specs.Geometry.Plane.{squared_distance, IsBounded};
ghost use Rattle.plan_model.specs.Geometry.Lengths.{IsStep, advanced, steered};

use crate::roots::root_ceiling;
use plan_model::{LEAST_STEP, MOST_COORDINATE, MOST_STEERING_STEP, Point};

/// Steer of RRT*: the point that a new edge from `a` towards the mark `b` ends at, which is `b` itself
/// if it is at most `step` lattice steps away, and otherwise about `step` along the straight line.
///
/// ```text
///     a ------- result ------------- b        a ----- b
///     |<-- step -->|                          |<- at most step ->|, so the result is b
/// ```
///
/// With a step of 50, (0, 0) steers towards (60, 80) to (30, 40), and towards (70, 70) to (35, 35).
/// The length is rounded up and each coordinate towards `a`, so no edge is longer than the step. The step is `LEAST_STEP` to
/// `MOST_STEERING_STEP`, and no coordinate is above `MOST_COORDINATE`. From a point towards itself it stays there. O(1).
#[tactic(auto, using(plan_model::proofs::SteeringLaws::step_below_root))]
pub fn steer(a: Point, b: Point, step: u32) -> Point
    requires from { IsBounded a }
    requires to { IsBounded b }
    requires low { LEAST_STEP ≤ step }
    requires high { step ≤ MOST_STEERING_STEP }
    ensures value { result ≡ steered a b step }
    ensures left { min a.x b.x ≤ result.x }
    ensures right { result.x ≤ max a.x b.x }
    ensures bottom { min a.y b.y ≤ result.y }
    ensures top { result.y ≤ max a.y b.y }
    ensures short { squared_distance a result ≤ step * step }
{
    let distance = a.squared_distance(b);
    if distance <= u64::from(step) * u64::from(step) {
        return b;
    }
    partway(a, b, step, root_ceiling(distance))
}

/// The point `step / length` of the way from `a` to `b`, each coordinate rounded towards `a`; the distance
/// from `a` to `b` is at most `length`.
fn partway(a: Point, b: Point, step: u32, length: u64) -> Point
    requires from { IsBounded a }
    requires to { IsBounded b }
    requires low { LEAST_STEP ≤ step }
    requires high { step ≤ MOST_STEERING_STEP }
    requires beyond { step ≤ length }
    requires bound { squared_distance a b ≤ length * length }
    ensures horizontal { result.x ≡ advanced a.x b.x step length }
    ensures vertical { result.y ≡ advanced a.y b.y step length }
    ensures steps { IsStep a b step result }
{
    Point {
        x: advanced(a.x, b.x, step, length),
        y: advanced(a.y, b.y, step, length),
    }
}

/// The coordinate `from`, moved by `step / length` of the way to `to` and rounded towards `from`.
fn advanced(from: u32, to: u32, step: u32, length: u64) -> u32
    requires start { from ≤ MOST_COORDINATE }
    requires end { to ≤ MOST_COORDINATE }
    requires low { LEAST_STEP ≤ step }
    requires high { step ≤ MOST_STEERING_STEP }
    requires beyond { step ≤ length }
    ensures { result ≡ advanced from to step length }
{
    let way = (u64::from(from.abs_diff(to)) * u64::from(step) / length) as u32;
    if from <= to { from + way } else { from - way }
}

#[cfg(test)]
mod tests {
    use super::*;
    use crate::bounded;

    #[test]
    fn steers_by_at_most_a_step(rt: HostRuntime) {
        for (a, b, want) in [
            ((0, 0), (30, 40), (30, 40)),
            ((0, 0), (60, 80), (30, 40)),
            ((0, 0), (70, 70), (35, 35)),
            ((100, 100), (0, 0), (65, 65)),
        ] {
            assert_eq!(rt; steer(bounded(a), bounded(b), 50), bounded(want));
        }
    }
}
