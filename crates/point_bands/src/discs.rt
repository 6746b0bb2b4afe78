//! Closed discs: all points within a distance of a center.

ghost use Rattle.std.specs.Prelude.{◌≡◌, ◌↔◌, ◌+◌, ◌-◌, ◌*◌, ◌<◌, ◌≤◌, IsTrue, min};
ghost use Rattle.plan_model.specs.Geometry.Plane.{IsBounded};
ghost use Rattle.point_bands.specs.Walks.{IsWithin};

use plan_model::Point;

/// The points within a distance of a center, which is given by its square.
#[derive(Clone, Copy, Debug)]
pub struct Disc {
    /// The center; no coordinate is above `MOST_COORDINATE`.
    center: Point,
    /// The square of the distance, in square lattice steps.
    square: u64,
    /// No coordinate of a point of the disc is farther than this from the center's.
    reach: u32,
    ghost center_bounded: { IsBounded center },
    ghost reached: { reach * reach ≤ square },
    ghost reaches: { square < (reach + 1) * (reach + 1) },
}

impl Disc {
    /// The points at most `radius` lattice steps away from a center. No coordinate of it is above `MOST_COORDINATE`. O(1).
    pub fn of_radius(center: Point, radius: u32) -> Disc
        requires { IsBounded center }
        ensures center { result.center ≡ center }
        ensures square { result.square ≡ radius * radius }
    {
        Disc {
            center,
            square: u64::from(radius) * u64::from(radius),
            reach: radius,
        }
    }

    /// The points whose squared distance to a center is at most `square`. No coordinate of it is above `MOST_COORDINATE`. O(1), with a
    /// root.
    pub fn of_square(center: Point, square: u64) -> Disc
        requires { IsBounded center }
        ensures center { result.center ≡ center }
        ensures square { result.square ≡ square }
    {
        Disc {
            center,
            square,
            reach: square.isqrt() as u32,
        }
    }

    /// Whether a point is in the disc. No coordinate of it is above `MOST_COORDINATE`. O(1).
    pub fn has(self, point: Point) -> bool
        requires { IsBounded point }
        ensures { IsTrue result ↔ IsWithin self.center self.square point }
    {
        point.squared_distance(self.center) <= self.square
    }

    /// No point left of this column is in the disc.
    pub(crate) fn left(self) -> u32
        ensures { result ≡ self.center.x - self.reach }
    {
        self.center.x.saturating_sub(self.reach)
    }

    /// No point right of this column is in the disc.
    pub(crate) fn right(self) -> u32
        ensures { result ≡ min (self.center.x + self.reach) 4294967295 }
    {
        self.center.x.saturating_add(self.reach)
    }

    /// No point below this row is in the disc.
    pub(crate) fn bottom(self) -> u32
        ensures { result ≡ self.center.y - self.reach }
    {
        self.center.y.saturating_sub(self.reach)
    }

    /// No point above this row is in the disc.
    pub(crate) fn top(self) -> u32
        ensures { result ≡ min (self.center.y + self.reach) 4294967295 }
    {
        self.center.y.saturating_add(self.reach)
    }
}
