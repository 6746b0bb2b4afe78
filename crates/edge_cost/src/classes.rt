//! The class of a number of nodes.

ghost use Rattle.std.specs.Prelude.{◌≡◌, ◌-◌, ◌^◌, ◌<◌, ◌≤◌};
ghost use Rattle.plan_model.specs.Geometry.Lengths.{class_of};

/// The class of `n` nodes, of which there is one at least: the number of binary digits of `n`, so that class b holds the
/// numbers from 2 ^ (b - 1) to 2 ^ b - 1. The class of 1 is 1, of 2 and 3 it is 2, and of 262,144 it is 19. O(1).
#[tactic(auto, using(plan_model::proofs::ClassLaws::class_from_powers))]
pub fn class(n: u64) -> u32
    requires { 1 ≤ n }
    ensures value { result ≡ class_of n }
    ensures low { 2 ^ (result - 1) ≤ n }
    ensures high { n < 2 ^ result }
{
    n.ilog2() + 1
}

#[cfg(test)]
mod tests {
    use super::*;

    #[test]
    fn counts_binary_digits(rt: HostRuntime) {
        for (n, want) in [(1, 1), (2, 2), (3, 2), (4, 3), (262_144, 19)] {
            assert!(rt; n >= 1);
            assert_eq!(rt; class(n), want, "at {n}");
        }
    }
}
