//! Numbered points in bands.

ghost use Rattle.std.specs.Prelude.{◌≡◌, ◌<◌, ◌≤◌, ◌==◌, All, length};
ghost use Rattle.std.specs.List.Sorted.{IsPermutation};
ghost use Rattle.plan_model.specs.Geometry.Plane.{IsBounded};
ghost use Rattle.point_bands.specs.Walks.{IsNextStretch, numbered_at};

use crate::band_order::{band_rows, height_log_for, key, next_stretch};
use crate::discs::Disc;
use plan_model::Point;
use std::marker::Model;

/// A point with a number, which may be any.
#[derive(Clone, Copy, Debug, PartialEq, Eq)]
pub struct Numbered {
    /// Where it stands.
    pub point: Point,
    /// Its number.
    pub number: u32,
}

/// Positions that follow each other in a band, of points that stand in the columns of a disc. Those points may still lie outside the disc
/// ([`Disc::has`]).
#[derive(Clone, Copy, Debug, PartialEq, Eq)]
pub struct Stretch {
    /// The first position.
    pub start: usize,
    /// The position after the last one; above `start`.
    pub end: usize,
}

/// Numbered points, band by band from the lowest up, and in each band by column. Each band is of the same height, a power of two, at
/// which n points that lie evenly have about twice the root of n in a band. To contracts it is the list of the points in this order.
#[derive(Debug, Drop)]
pub struct Bands {
    points: Vec<Numbered>,
    /// The binary logarithm of the height of a band.
    height_log: u32,
}

impl Model for Bands {
    ghost use Rattle.std.specs.Prelude.{◌<◌, All, List};
    ghost use Rattle.std.specs.List.Sorted.{IsNonDecreasingBy};
    ghost use Rattle.plan_model.specs.Geometry.Plane.{IsBounded};
    ghost use Rattle.point_bands.specs.Walks.{band_key};
    ghost use Rattle.point_bands.specs.declared.bands.Numbered.{Numbered};

    ghost Value = { List Numbered };

    ghost view = { λ s. s.points.items };

    ghost invariant = { λ s. (s.height_log < 32) × All (λ n. IsBounded n.point) s.points.items
        × IsNonDecreasingBy (band_key s.height_log) s.points.items };
}

impl Bands {
    /// Sorts numbered points into bands, in place. Points may be equal, and so may numbers; no coordinate is above `MOST_COORDINATE`.
    /// O(n log n) for n points; no memory.
    pub fn new(points: Vec<Numbered>) -> Bands
        requires { All (λ n. IsBounded n.point) points.items }
        ensures { IsPermutation points.items result }
    {
        let height_log = height_log_for(&points);
        let rows = band_rows(height_log);
        let mut points = points;
        points.sort_unstable_by_key(|numbered| key(numbered.point, rows));
        Bands { points, height_log }
    }

    /// How many points there are. O(1).
    pub fn len(&self) -> usize
        ensures { result ≡ length self.now }
    {
        self.points.len()
    }

    /// Whether there is no point. O(1).
    pub fn is_empty(&self) -> bool
        ensures { result ≡ (length self.now == 0) }
    {
        self.points.is_empty()
    }

    /// The numbered point at a position of the bands. O(1).
    pub fn at(&self, position: usize) -> Numbered
        requires { position < length self.now }
        ensures value { result ≡ numbered_at self.now position }
        ensures bounded { IsBounded result.point }
    {
        self.points[position]
    }

    /// The first stretch of the disc from `from` on; `None` if no point from there on is in the disc. From 0, and then each time from the end of
    /// the stretch before, the stretches have each point of the disc once. No memory.
    ///
    /// All stretches of a disc take O(k + s log n) on average for k points in the disc, of n that lie evenly, and s bands that it meets.
    pub fn next_stretch(&self, from: usize, disc: Disc) -> Option<Stretch>
        ensures { IsNextStretch disc.center disc.square self.now from result }
    {
        next_stretch(&self.points, self.height_log, from, disc)
    }
}

#[cfg(test)]
mod tests {
    use super::*;
    use std::alloc::{AllocError, Global};
    use std::process::Abort;

    /// Points of a test, by column and row; each has its index as its number.
    static POINTS: [(u16, u16); 12] = [
        (50, 50),
        (0, 0),
        (50, 50),
        (53, 54),
        (45, 50),
        (54, 54),
        (50, 44),
        (65_535, 65_535),
        (55, 50),
        (50, 56),
        (44, 50),
        (50, 45),
    ];

    /// A center, a radius, and the numbers of the points within it, one bit each.
    static DISCS: [((u16, u16), u32, u32); 7] = [
        ((50, 50), 0, 0b0000_0000_0101),
        ((50, 50), 5, 0b1001_0001_1101),
        ((50, 50), 6, 0b1111_0111_1101),
        ((0, 0), 1, 0b0000_0000_0010),
        ((65_535, 65_530), 5, 0b0000_1000_0000),
        ((3, 3), u32::MAX, 0b1111_1111_1111),
        ((3, 4), 4, 0),
    ];

    fn bounded(coordinates: (u16, u16)) -> Point
        ensures { IsBounded result }
    {
        Point {
            x: u32::from(coordinates.0),
            y: u32::from(coordinates.1),
        }
    }

    /// The points of the table, sorted.
    fn sorted(alloc: Global) -> Result<Bands, AllocError> {
        let mut points = Vec::new(alloc);
        for number in 0..POINTS.len() {
            points.push(Numbered {
                point: bounded(POINTS[number]),
                number: number as u32,
            })?;
        }
        Ok(Bands::new(points))
    }

    /// The numbers of the points of a stretch that lie in a disc, one bit each.
    fn numbers_of(bands: &Bands, disc: Disc, stretch: Stretch) -> u32
        requires { stretch.end ≤ length bands.now }
    {
        let mut numbers = 0;
        for position in stretch.start..stretch.end {
            let numbered = bands.at(position);
            if disc.has(numbered.point) {
                numbers |= 1 << (numbered.number & 31);
            }
        }
        numbers
    }

    /// The numbers of the points of a disc, one bit each.
    fn numbers_in(bands: &Bands, disc: Disc) -> u32 {
        let mut numbers = 0;
        let mut at = 0;
        'walk: while let Some(stretch) = bands.next_stretch(at, disc) {
            numbers |= numbers_of(bands, disc, stretch);
            at = stretch.end;
        }
        numbers
    }

    /// Asserts which points a walk comes to.
    fn assert_walks<R: Abort>(rt: &R, bands: &Bands, center: (u16, u16), radius: u32, want: u32) {
        let center = bounded(center);
        let square = u64::from(radius) * u64::from(radius);
        assert!(rt; numbers_in(bands, Disc::of_radius(center, radius)) == want);
        assert!(rt; numbers_in(bands, Disc::of_square(center, square)) == want);
    }

    #[test]
    fn walks_over_all_points_within_a_radius(rt: HostRuntime) -> Result<(), AllocError> {
        let bands = sorted(rt.alloc())?;
        assert!(rt; bands.len() == 12 && !bands.is_empty());
        for &(center, radius, want) in &DISCS {
            assert_walks(&rt, &bands, center, radius, want);
        }
        Ok(())
    }
}
