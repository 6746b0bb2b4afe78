//! Points that are packed and read.

ghost use Rattle.plan_model.specs.Geometry.Plane.{IsBounded};

use grown_runs::{pack_point, read_point};
use plan_model::{MOST_COORDINATE, Point};
use std::process::Abort;

/// The point with the greatest coordinates.
const GREATEST: Point = Point {
    x: MOST_COORDINATE,
    y: MOST_COORDINATE,
};

/// Asserts the word of a point.
fn assert_packed<R: Abort>(rt: &R, p: Point, want: u64)
    requires { IsBounded p }
{
    let word = pack_point(p);
    assert!(rt; word == want, "word {word}");
}

/// Asserts that the word of a point is read as that point.
fn assert_read_back<R: Abort>(rt: &R, p: Point)
    requires { IsBounded p }
{
    let word = pack_point(p);
    assert!(rt; read_point(word) == Some(p), "word {word}");
}

#[test]
fn packs_y_above_x(rt: HostRuntime) {
    assert_packed(&rt, Point { x: 30, y: 40 }, (1 << 63) + 40 * (1 << 20) + 30);
    assert_packed(&rt, Point { x: 0, y: 0 }, 1 << 63);
    assert_packed(&rt, GREATEST, (1 << 63) + (1 << 40) - 1);
}

#[test]
fn reads_what_was_packed(rt: HostRuntime) {
    let most = MOST_COORDINATE;
    assert_read_back(&rt, Point { x: 30, y: 40 });
    assert_read_back(&rt, Point { x: 0, y: 0 });
    assert_read_back(&rt, Point { x: most, y: 0 });
    assert_read_back(&rt, Point { x: 0, y: most });
    assert_read_back(&rt, GREATEST);
}

#[test]
fn a_word_without_bit_63_holds_no_point(rt: HostRuntime) {
    assert!(rt; read_point(0).is_none());
    assert!(rt; read_point((1 << 63) - 1).is_none());
}
