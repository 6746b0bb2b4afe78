//! Clipping a segment against the half-planes of a polygon.

ghost use Rattle.std.specs.Prelude.{◌↔◌, ℕ, ◌<◌, ◌≤◌, pos, IsTrue, MatchOption, length};
ghost use Rattle.convex_sets.specs.Boxes.{AreBoundedCorners};
ghost use Rattle.plan_model.specs.Geometry.Plane.{IsBounded};
ghost use Rattle.swept_check.specs.Crossings.{IsBetweenFractions, IsAdmitted, Crosses};

use crate::fractions::Fraction;
use convex_sets::{corner_of, next_corner, orientation};
use plan_model::{Point, Vertex};

/// The part of a segment between two parameters; empty if the exit lies before the entry.
#[derive(Clone, Copy)]
pub(crate) struct Part {
    /// The parameter at which it begins.
    pub(crate) entry: Fraction,
    /// The parameter at which it ends.
    pub(crate) exit: Fraction,
}

impl Part {
    /// The part that is also in a half-plane, by the sides of it on which the segment's ends lie; `None` if both lie
    /// strictly outside.
    pub(crate) fn clipped(self, from: i64, to: i64) -> Option<Part>
        ensures { MatchOption result
            ((s d : ℕ) → 0 < d → s ≤ d → ¬ IsAdmitted from to s d)
            (λ part. (s d : ℕ) → 0 < d → s ≤ d → IsBetweenFractions part.entry part.exit s d
            ↔ (IsBetweenFractions self.entry self.exit s d × IsAdmitted from to s d)) }
    {
        match (from >= 0, to >= 0) {
            (true, true) => Some(self),
            (false, false) => None,
            (false, true) => {
                let entry = Fraction::of_parts(from.unsigned_abs(), to.unsigned_abs());
                Some(Part {
                    entry: self.entry.max(entry),
                    exit: self.exit,
                })
            }
            (true, false) => {
                let exit = Fraction::of_parts(from.unsigned_abs(), to.unsigned_abs());
                Some(Part {
                    entry: self.entry,
                    exit: self.exit.min(exit),
                })
            }
        }
    }
}

/// Whether some rational point of the segment from `a` to `b` lies in a convex polygon or on its edge.
///
/// ```text
///          +------+              +------+                 +------+
///     a----|------|----b         |      |                 |      |
///          |      |              |      |   a----b        |      a------b
///          +------+              +------+                 +------+
///     crosses: in at one         does not                 crosses: touching
///     edge, out at another                                at one end
/// ```
///
/// Each edge clips the segment to the part on its inner side, and the segment crosses if a part is left at the end. O(n) for
/// n corners; no memory.
// Few segments come this far. Inlined, it would slow down the loop over the boxes of the zones.
#[inline(never)]
pub(crate) fn crosses_polygon(corners: &[Vertex], a: Point, b: Point) -> bool
    requires corners { AreBoundedCorners corners.now }
    requires from { IsBounded a }
    requires to { IsBounded b }
    ensures { IsTrue result ↔ Crosses corners.now a b }
{
    let (first, last) = (corner_of(a), corner_of(b));
    let mut part = Part {
        entry: Fraction::zero(),
        exit: Fraction::one(),
    };
    for i in 0..corners.len() {
        let next = next_corner(corners.len(), i);
        let from = orientation(corners[i], corners[next], first);
        let to = orientation(corners[i], corners[next], last);
        match part.clipped(from, to) {
            Some(clipped) => part = clipped,
            None => return false,
        }
    }
    part.entry.is_at_most(part.exit)
}
