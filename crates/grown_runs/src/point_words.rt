//! Points as words: bit 63 set, y in bits 20 to 39, x in bits 0 to 19. A word is 0 until its point is written.

ghost use Rattle.std.specs.Prelude.{◌≡◌};
ghost use Rattle.plan_model.specs.Geometry.Plane.{IsBounded};
ghost use Rattle.grown_runs.specs.Table.Words.{point_in, point_of_word, point_word};

use crate::layout::{COORDINATE_MASK, WRITTEN, Y_SHIFT};
use plan_model::Point;

/// The word of a point of which no coordinate is above `MOST_COORDINATE`. That of (30, 40) is 2^63 + 40 * 2^20 + 30. O(1).
pub fn pack_point(p: Point) -> u64
    requires { IsBounded p }
    ensures { result ≡ point_word p }
{
    WRITTEN | u64::from(p.y) << Y_SHIFT | u64::from(p.x)
}

/// The point of a word; `None` exactly if bit 63 is 0, as it is until the word is written. O(1).
pub fn read_point(word: u64) -> Option<Point>
    ensures read { result ≡ point_of_word word }
{
    if word < WRITTEN {
        return None;
    }
    Some(point_in(word))
}

/// The point in a word that is written; of any other word what its bits say. O(1).
pub fn point_in(word: u64) -> Point
    ensures { result ≡ point_in word }
{
    Point {
        x: (word & COORDINATE_MASK) as u32,
        y: (word >> Y_SHIFT & COORDINATE_MASK) as u32,
    }
}
