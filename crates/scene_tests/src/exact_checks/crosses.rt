//! The exact test of one zone, with a counter.

ghost use Rattle.std.specs.Prelude.{◌≡◌, ◌↔◌, ◌<◌, ◌≤◌, IsTrue};
ghost use Rattle.plan_model.specs.Geometry.Plane.{IsBounded};
ghost use Rattle.plan_model.specs.declared.limits.TheConstants.{MOST_CLEARANCE};
ghost use Rattle.swept_check.specs.Crossings.{Crosses};

use crate::exact_checks::support::sure;
use convex_sets::Zone;
use plan_model::{Memory, Point, Sequence, Vertex};
use std::alloc::Global;
use std::marker::Brand;
use std::process::Abort;
use std::sync::ledger::{Blank, Ledger};
use swept_check::{Steps, crosses};

/// Whether the segment crosses the zone, from either end.
fn is_crossed<L: Ledger>(zone: &Zone, a: Point, b: Point, blank: Blank) -> bool
    requires from { IsBounded a }
    requires to { IsBounded b }
    requires name { blank.name ≡ L.name }
    requires parts { blank.parts ≡ L.parts }
    requires some { 0 < blank.parts }
    ensures { IsTrue result → Crosses zone.now b a }
{
    let mut steps = Steps::<L>::new(blank);
    let there = crosses(zone, a, b, &mut steps);
    let back = crosses(zone, b, a, &mut steps);
    there && back
}

static POINT: [Vertex; 1] = [Vertex { x: 0, y: 0 }];

static SQUARE: [Vertex; 4] = [
    Vertex { x: 8, y: 8 },
    Vertex { x: 12, y: 8 },
    Vertex { x: 12, y: 12 },
    Vertex { x: 8, y: 12 },
];

/// The zone of a point body and a square with a clearance.
fn zone_of_square(alloc: Global, clearance: u32) -> Result<Zone, Memory>
    requires { clearance ≤ MOST_CLEARANCE }
{
    let body = Sequence::from_vec(Vec::from_slice(alloc, &POINT)?);
    let obstacle = Sequence::from_vec(Vec::from_slice(alloc, &SQUARE)?);
    let zone = Zone::sum(alloc, &body, &obstacle, clearance);
    drop(body);
    drop(obstacle);
    zone
}

/// Asserts whether the segment crosses the zone.
fn expect<R: Abort>(rt: &R, zone: &Zone, a: Point, b: Point, want: bool)
    requires from { IsBounded a }
    requires to { IsBounded b }
{
    assert!(rt; is_crossed::<Brand>(zone, a, b, Blank::new(1)) == want);
}

#[test]
fn a_point_body_crosses_the_edge_of_a_square(rt: HostRuntime) {
    let zone = sure(&rt, zone_of_square(rt.alloc(), 0));
    let a = Point { x: 6, y: 10 };
    expect(&rt, &zone, a, Point { x: 10, y: 14 }, true);
    expect(&rt, &zone, a, Point { x: 9, y: 15 }, false);
    drop(zone);
}

#[test]
fn a_point_body_comes_as_close_to_a_square_as_the_clearance(rt: HostRuntime) {
    let zone = sure(&rt, zone_of_square(rt.alloc(), 3));
    let a = Point { x: 2, y: 12 };
    // past the corner (5, 15) of the zone, and further away from it
    expect(&rt, &zone, a, Point { x: 8, y: 18 }, true);
    expect(&rt, &zone, a, Point { x: 7, y: 19 }, false);
    drop(zone);
}
