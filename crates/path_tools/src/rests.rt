//! The ways on from a position of a path to its end, over some of the points that follow.

ghost use Rattle.std.specs.Prelude.{◌≡◌, ◌↔◌, ◌⊎◌, ◌+◌, ◌<◌, IsTrue};
ghost use Rattle.plan_model.specs.Geometry.Plane.{IsBounded};
ghost use Rattle.plan_model.specs.Geometry.Lengths.{cost_of};
ghost use Rattle.path_tools.specs.SmoothPaths.{HasRoom};

use edge_cost::{cost, costs_less_through};
use plan_model::Point;

/// A way on from a position of a path to its end.
#[derive(Clone, Copy)]
pub(crate) struct Rest {
    /// What it costs, in 256ths of a lattice step.
    pub cost: u64,
    /// How many points it has, that at the position and the last one among them.
    pub points: u32,
    /// The position that it goes to next; 0 at the end.
    pub next: u32,
}

impl Rest {
    /// The way on from the last position.
    pub const END: Rest = Rest {
        cost: 0,
        points: 1,
        next: 0,
    };

    /// The way on from a point by a later position, at `to`, and then by the rest from there.
    pub fn through(position: u32, to: Point, rest: Rest, from: Point) -> Rest
        requires room { HasRoom rest }
        requires to { IsBounded to }
        requires from { IsBounded from }
        ensures cost { result.cost ≡ rest.cost + cost_of to from }
        ensures bound { result.cost < rest.cost + 536870912 }
        ensures points { result.points ≡ rest.points + 1 }
        ensures next { result.next ≡ position }
    {
        Rest {
            cost: rest.cost + cost(to, from),
            points: rest.points + 1,
            next: position,
        }
    }

    /// Whether the way on by another position, at `to`, costs less, or as much with fewer points. Without a root.
    pub fn is_beaten_by(self, to: Point, rest: Rest, from: Point) -> bool
        requires own { self.cost < 2305843009213693952 }
        requires room { HasRoom rest }
        requires to { IsBounded to }
        requires from { IsBounded from }
        ensures { IsTrue result ↔ ((rest.cost + cost_of to from < self.cost)
            ⊎ ((rest.cost + cost_of to from ≡ self.cost) × (rest.points + 1 < self.points))) }
    {
        let limit = if rest.points + 1 < self.points {
            self.cost + 1
        } else {
            self.cost
        };
        costs_less_through(rest.cost, to, from, limit)
    }
}
