//! Square roots of whole numbers, rounded up.

ghost use Rattle.std.specs.Prelude.{◌≡◌, ◌*◌, ◌≤◌};
ghost use Rattle.plan_model.specs.Geometry.Lengths.{IsRootCeiling, root_ceiling};

use std::num::{f64_to_bits_with_nan, nearest_u64_to_f64};

/// The greatest number whose square is a `u64`.
const MOST_ROOT: u64 = 0xffff_ffff;

/// 2 to the 52. From here up to its double the floats are the whole numbers, and the low 52 bits of one say how far
/// it is above this.
const WHOLE_FLOATS: f64 = 4_503_599_627_370_496.0;

/// The least number whose square is at least `n`: the square root, rounded up.
pub(crate) fn root_ceiling(n: u64) -> u64
    ensures value { result ≡ root_ceiling n }
    ensures least { IsRootCeiling n result }
{
    if MOST_ROOT * MOST_ROOT < n {
        return MOST_ROOT + 1;
    }
    let reaching = stepped_up(n, guessed_root(n));
    stepped_down(n, reaching)
}

/// About the root of `n`, rounded up: half more than the root, rounded to the nearest whole number.
///
/// A float may be used here, since no contract rests on how near it comes: the two loops after it turn any number into
/// the root. It decides only how often they step, which is seldom, and then once.
fn guessed_root(n: u64) -> u64
    ensures { result ≤ MOST_ROOT }
{
    let rounded = nearest_u64_to_f64(n).sqrt() + 0.5 + WHOLE_FLOATS;
    (f64_to_bits_with_nan(rounded) % (1 << 52)).min(MOST_ROOT)
}

/// The first number from `guess` upwards whose square is at least `n`.
fn stepped_up(n: u64, guess: u64) -> u64
    requires fits { n ≤ MOST_ROOT * MOST_ROOT }
    requires low { guess ≤ MOST_ROOT }
    ensures reaches { n ≤ result * result }
    ensures bound { result ≤ MOST_ROOT }
{
    let mut root = guess;
    while root * root < n {
        root += 1;
    }
    root
}

/// The last number from `reaching` downwards whose square is at least `n`.
#[tactic(auto, using(crate::proofs::RootBounds::first_is_root, crate::proofs::RootBounds::zero_is_root))]
fn stepped_down(n: u64, reaching: u64) -> u64
    requires reaches { n ≤ reaching * reaching }
    requires low { reaching ≤ MOST_ROOT }
    ensures value { result ≡ root_ceiling n }
    ensures least { IsRootCeiling n result }
{
    let mut root = reaching;
    while 0 < root && n <= (root - 1) * (root - 1) {
        root -= 1;
    }
    root
}

#[cfg(test)]
mod tests {
    use super::*;

    /// Roots of squares; 379_624_701 is the greatest cost of an edge.
    static ROOTS: [u64; 12] = [
        2,
        3,
        4,
        255,
        256,
        65_535,
        65_536,
        33_554_431,
        94_906_266,
        379_624_701,
        2_147_483_648,
        MOST_ROOT,
    ];

    #[test]
    fn rounds_up_beside_squares(rt: HostRuntime) {
        for &root in &ROOTS {
            assert!(rt; 2 <= root && root <= MOST_ROOT);
            let square = root * root;
            assert_eq!(rt; root_ceiling(square - 1), root);
            assert_eq!(rt; root_ceiling(square), root);
            assert_eq!(rt; root_ceiling(square + 1), root + 1);
        }
    }

    #[test]
    fn rounds_up_the_least_and_the_greatest(rt: HostRuntime) {
        for (n, want) in [
            (0, 0),
            (1, 1),
            (2, 2),
            (144_114_913_198_080_000, 379_624_701),
            (u64::MAX, 4_294_967_296),
        ] {
            assert_eq!(rt; root_ceiling(n), want, "of {n}");
        }
    }
}
