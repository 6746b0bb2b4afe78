//! A scene, and the plan of its marks.

ghost use Rattle.std.specs.Prelude.{◌≡◌, ◌≤◌, IsTrue};
ghost use Rattle.plan_model.specs.Scenes.Limits.{IsBetween, are_goals, are_obstacles, is_body, is_plan, may_be_informed, most_clearance, most_side, most_step};
ghost use Rattle.plan_model.specs.declared.limits.TheConstants.{LEAST_SIDE, LEAST_STEP, LEAST_STRIPS, MOST_GAMMA, MOST_SEED, MOST_STRIPS};

use crate::geometry::{Goal, Point, Vertex};
use crate::lists::Sequence;

/// The corners of a polygon, counterclockwise.
pub type Poly = Sequence<Vertex>;

/// Polygons.
pub type Polys = Sequence<Poly>;

/// Configurations.
pub type Points = Sequence<Point>;

/// Closed boxes of configurations.
pub type Goals = Sequence<Goal>;

/// Where the marks (the samples) of a scene come from.
#[derive(Debug, Drop)]
pub enum Marks {
    /// So many marks, drawn from the strips of the room by SplitMix64.
    Drawn(u32),
    /// These marks, in this order.
    Listed(Points),
}

/// A planning problem: a translating convex body among convex obstacles.
///
/// Lengths are in lattice steps. The body at a configuration `q` is `body` moved by `q`. Where a range has two ends, the
/// first is that of version 1, and the second that of version 2.
#[derive(Debug, Drop)]
pub struct Scene {
    /// The version of the scene text, 1 or 2: what ranges the other fields have.
    pub version: u8,
    /// The upper right corner of the room, whose lower left corner is (0, 0): each coordinate 1 to 65,535 or 1,048,575.
    pub room: Point,
    /// One corner, or a strictly convex polygon of 3 to 16 corners, each coordinate within 4,096.
    pub body: Poly,
    /// Up to 1,024 strictly convex polygons of 3 to 64 corners.
    pub obstacles: Polys,
    /// Within how many lattice steps of an obstacle, in both coordinates, the body collides: 0, or 0 to 4,096.
    pub clearance: u32,
    /// Where the tree begins, each coordinate 0 to 65,535 or 1,048,575.
    pub start: Point,
    /// The closed boxes of configurations of which one is to be reached: one, or 1 to 16.
    pub goals: Goals,
    /// The longest edge of the tree, 4 to 4,096 or 65,536 (the range of RRT*).
    pub step: u32,
    /// The factor of the rewiring radius (gamma of RRT*, Karaman and Frazzoli 2011), in lattice steps, 0 to 16,777,215; with 0 nothing
    /// is rewired.
    pub gamma: u32,
    /// The seed of drawn marks, 0 to 2^64 - 1.
    pub seed: u64,
    /// Into how many strips the room is cut for drawn marks, 1 to 64.
    pub strips: u32,
    /// Whether marks are skipped that no cheaper path can pass through; in version 1 none is.
    pub informed: bool,
    /// The marks, up to 262,143.
    pub plan: Marks,
    ghost version_low: { 1 ≤ version },
    ghost version_high: { version ≤ 2 },
    ghost room_within: { IsBetween LEAST_SIDE (most_side version) room },
    ghost body_within: { IsTrue (is_body body) },
    ghost obstacles_within: { IsTrue (are_obstacles version obstacles) },
    ghost clearance_high: { clearance ≤ most_clearance version },
    ghost start_within: { IsBetween 0 (most_side version) start },
    ghost goals_within: { IsTrue (are_goals version goals) },
    ghost step_low: { LEAST_STEP ≤ step },
    ghost step_high: { step ≤ most_step version },
    ghost gamma_high: { gamma ≤ MOST_GAMMA },
    ghost seed_high: { seed ≤ MOST_SEED },
    ghost strips_low: { LEAST_STRIPS ≤ strips },
    ghost strips_high: { strips ≤ MOST_STRIPS },
    ghost informed_within: { IsTrue (may_be_informed version informed) },
    ghost plan_within: { IsTrue (is_plan version plan) },
}
