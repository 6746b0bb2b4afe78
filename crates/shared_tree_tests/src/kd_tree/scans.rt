//! The answers that searches must give, by looks at all points. Number 0 is the start, and number k + 1 the point of mark k, if
//! no lesser number has that point.

ghost use Rattle.std.specs.Prelude.{◌≤◌, IsTrue, length};
ghost use Rattle.plan_model.specs.Geometry.Plane.{IsBounded};
ghost use Rattle.plan_model.specs.Spaces.ConfigurationSpace.{IsInRoom};
ghost use Rattle.plan_model.specs.Scenes.Limits.{is_plan};
ghost use Rattle.plan_model.specs.declared.scenes.Marks.TheVariants.{Listed};

use plan_model::Point;

/// The point with this number.
fn point_of(start: Point, points: &[Point], number: usize) -> Point
    requires start { IsInRoom (record { x = 65535; y = 65535 }) start }
    requires plan { IsTrue (is_plan 1 (Listed points.now)) }
    requires number { number ≤ length points.now }
    ensures { IsBounded result }
{
    if number == 0 {
        start
    } else {
        points[number - 1]
    }
}

/// The least number at a point.
pub(crate) fn scan_find(start: Point, points: &[Point], p: Point) -> Option<u32>
    requires start { IsInRoom (record { x = 65535; y = 65535 }) start }
    requires plan { IsTrue (is_plan 1 (Listed points.now)) }
{
    'numbers: for number in 0..points.len() + 1 {
        if point_of(start, points, number) == p {
            return Some(number as u32);
        }
    }
    None
}

/// The least number of those that are nearest to a point.
pub(crate) fn scan_nearest(start: Point, points: &[Point], p: Point) -> u32
    requires start { IsInRoom (record { x = 65535; y = 65535 }) start }
    requires plan { IsTrue (is_plan 1 (Listed points.now)) }
    requires bounded { IsBounded p }
{
    let mut best = 0;
    'numbers: for number in 1..points.len() + 1 {
        let here = point_of(start, points, number);
        if here.squared_distance(p) < point_of(start, points, best).squared_distance(p) {
            best = number;
        }
    }
    best as u32
}

/// Whether a list has the numbers within a radius of a point, each point once.
pub(crate) fn is_scan_near(list: &[u32], start: Point, points: &[Point], p: Point, r: u32) -> bool
    requires start { IsInRoom (record { x = 65535; y = 65535 }) start }
    requires plan { IsTrue (is_plan 1 (Listed points.now)) }
    requires bounded { IsBounded p }
{
    let most = u64::from(r) * u64::from(r);
    let mut listed = list.iter();
    'numbers: for number in 0..points.len() + 1 {
        let here = point_of(start, points, number);
        let is_near = here.squared_distance(p) <= most;
        let belongs = is_near && scan_find(start, points, here) == Some(number as u32);
        if belongs && listed.next() != Some(&(number as u32)) {
            return false;
        }
    }
    listed.next().is_none()
}
