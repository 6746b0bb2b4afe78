//! What an edge costs.

ghost use Rattle.std.specs.Prelude.{◌≡◌, ◌^◌, ◌*◌, ◌<◌};
ghost use Rattle.plan_model.specs.Geometry.Lengths.{IsCost, cost_of, IsRootCeiling, root_ceiling};
ghost use Rattle.plan_model.specs.Geometry.Plane.{IsBounded};

use crate::roots::root_ceiling;
use plan_model::Point;
use std::num::f64_to_bits_with_nan;

/// 256 squared: the square of a distance in lattice steps, times this, is the square of that distance in 256ths of a step.
pub(crate) const SQUARED_UNITS: u64 = 65_536;

/// 2 to the 24, less the 2 to the 28th part of 1. From 2 to the 24 up to its double the low 52 bits of a float say how far it is above
/// that, in such parts.
const FINE_FLOATS: f64 = 16_777_215.9999999962747097015380859375;

/// The cost of the edge from `a` to `b`: its length in 256ths of a lattice step, rounded up.
///
/// An edge one lattice step along an axis costs 256, and one along a diagonal of the lattice 363, since 256 times
/// the root of 2 is 362.04. So no edge costs less than its length, and the costs along a path overestimate
/// its length by less than a 256th of a lattice step an edge. From a point to itself it is 0. No coordinate is above
/// `MOST_COORDINATE`, so every cost is below 2^29. O(1).
pub fn cost(a: Point, b: Point) -> u64
    requires from { IsBounded a }
    requires to { IsBounded b }
    ensures value { result ≡ cost_of a b }
    ensures least { IsCost a b result }
    ensures bound { result < 2 ^ 29 }
{
    cost_of_square(a.squared_distance(b))
}

/// The cost of an edge whose length has this square, in square lattice steps, below 2^41: 256 times its root, rounded up. O(1).
///
/// The number before it is guessed by a float, and tested. The guess is wrong for 0 and where the root is hardly above a whole number:
/// only then the root is sought.
#[inline(always)]
pub fn cost_of_square(square: u64) -> u64
    requires { square < 2 ^ 41 }
    ensures value { result ≡ root_ceiling (65536 * square) }
    ensures least { IsRootCeiling (65536 * square) result }
{
    let n = SQUARED_UNITS * square;
    let below = number_below(square);
    if n.wrapping_sub(below * below + 1) <= 2 * below {
        return below + 1;
    }
    root_ceiling(n)
}

/// Mostly the greatest number below 256 times the root of this one.
#[inline(always)]
fn number_below(square: u64) -> u64
    requires { square < 2 ^ 41 }
    ensures { result < 2 ^ 31 }
{
    let raised = ((square as i64) as f64).sqrt() + FINE_FLOATS;
    f64_to_bits_with_nan(raised) >> 20 & 0x7fff_ffff
}

#[cfg(test)]
mod tests {
    use super::*;
    use crate::bounded;

    /// Edges, and the cost of each.
    static EDGES: [((u16, u16), (u16, u16), u64); 9] = [
        ((5, 5), (5, 5), 0),
        ((0, 0), (1, 0), 256),
        ((0, 0), (1, 1), 363),
        ((0, 0), (2, 1), 573),
        ((0, 0), (30, 40), 12_800),
        ((0, 0), (35, 35), 12_672),
        ((0, 50), (40, 79), 12_649),
        ((20, 20), (75, 65), 18_193),
        ((0, 0), (88, 43), 25_074),
    ];

    #[test]
    fn rounds_lengths_up(rt: HostRuntime) {
        for &(a, b, want) in &EDGES {
            assert_eq!(rt; cost(bounded(a), bounded(b)), want);
        }
    }
}
