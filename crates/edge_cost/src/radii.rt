//! The radii within which nodes are near.

ghost use Rattle.std.specs.Prelude.{◌≡◌, ℕ, ◌<◌, ◌≤◌, slice_index};
ghost use Rattle.plan_model.specs.Geometry.Lengths.{radius_of, radius_of_class};
ghost use Rattle.edge_cost.specs.declared.radii.TheConstants.{CLASSES};

use crate::classes::class;
use plan_model::MOST_NODES;

/// How many classes there are, from 0, of no node, to 19, of `MOST_NODES` nodes.
const CLASSES: usize = 20;

/// The rewiring radii of RRT* for one step and one gamma, in lattice steps: how near a node is to be to count
/// as near, which shrinks as the tree grows.
///
/// At n nodes, whose class is b, the radius is the greatest number r up to the step with
/// r * r * 2 ^ (b - 1) ≤ gamma * gamma * b. So there is one for each class, and [`new`](Radii::new) makes them all.
///
/// With a gamma of 1000 and a step of 4096 the radii of the classes 1 to 5 are 1000, 1000, 866, 707 and 559.
#[derive(Clone, Copy, Debug)]
pub struct Radii {
    step: u32,
    gamma: u32,
    by_class: [u32; CLASSES],
    // each class has its radius
    ghost of_classes: { (class : ℕ) → class < CLASSES → slice_index by_class class ≡ radius_of_class step gamma class },
}

impl Radii {
    /// The radii for any step and any gamma, both in lattice steps. With a gamma or a step of 0 all are 0. O(1), a root for each
    /// class.
    pub fn new(step: u32, gamma: u32) -> Radii
        ensures step { result.step ≡ step }
        ensures gamma { result.gamma ≡ gamma }
    {
        let mut by_class = [0; CLASSES];
        for (class, radius) in by_class.iter_mut().enumerate() {
            *radius = radius_of_class(step, gamma, class as u32);
        }
        Radii {
            step,
            gamma,
            by_class,
        }
    }

    /// The radius at `n` nodes, 1 to `MOST_NODES`, in lattice steps: from the table, without a root. O(1); no memory.
    pub fn at(&self, n: u64) -> u32
        requires some { 1 ≤ n }
        requires most { n ≤ MOST_NODES }
        ensures { result ≡ radius_of self.now.step self.now.gamma n }
    {
        self.by_class[class(n) as usize]
    }
}

/// The radius of a class; 0 of class 0.
#[tactic(auto, using(crate::proofs::RadiusFromRoot::radius_from_root))]
fn radius_of_class(step: u32, gamma: u32, class: u32) -> u32
    requires { class < CLASSES }
    ensures { result ≡ radius_of_class step gamma class }
{
    let gamma = u128::from(gamma);
    let square = (gamma * gamma * u128::from(class)) >> class.saturating_sub(1);
    u128::from(step).min(square.isqrt()) as u32
}

#[cfg(test)]
mod tests {
    use super::*;

    /// A step, gamma, a number of nodes, and the radius.
    static RADII: [(u32, u32, u64, u32); 22] = [
        (4096, 1000, 1, 1000),
        (4096, 1000, 2, 1000),
        (4096, 1000, 3, 1000),
        (4096, 1000, 4, 866),
        (4096, 1000, 7, 866),
        (4096, 1000, 8, 707),
        (4096, 1000, 16, 559),
        (4096, 1000, 32, 433),
        (4096, 1000, 64, 330),
        (4096, 1000, 128, 250),
        (4096, 1000, 256, 187),
        (4096, 1000, 1023, 139),
        (50, 1000, 1, 50),
        (50, 1000, 1023, 50),
        (4096, 0, 1, 0),
        (4096, 0, 262_144, 0),
        (4096, 16_777_215, 262_144, 4096),
        (4_294_967_295, 4_294_967_295, 1, 4_294_967_295),
        (4_294_967_295, 4_294_967_295, 4, 3_719_550_785),
        (4, 1, 1, 1),
        (4, 1, 2, 1),
        (4, 1, 4, 0),
    ];

    #[test]
    fn shrink_as_nodes_become_more(rt: HostRuntime) {
        for &(step, gamma, n, want) in &RADII {
            assert!(rt; 1 <= n && n <= u64::from(MOST_NODES));
            let radii = Radii::new(step, gamma);
            assert_eq!(rt; radii.at(n), want, "step {step}, at {n}");
        }
    }
}
