//! Laws of the configuration space.

ghost use Rattle.std.specs.Prelude.{ℕ, List, ◌<◌, ◌≤◌, ◌↔◌};
ghost use Rattle.plan_model.specs.Spaces.Clearance.{Clear, ClearAt, IsClear};
ghost use Rattle.plan_model.specs.declared.configuration_spaces.ConfigurationSpace.{ConfigurationSpace};
ghost use Rattle.plan_model.specs.Scenes.MarkPoints.{BodyFits, IsInSpan, columns, rows};
ghost use Rattle.plan_model.specs.Spaces.Zones.{Meets, SharesPoint};
ghost use Rattle.plan_model.specs.Spaces.ConfigurationSpace.{InRoom, IsSamePoint, Rational, at_lattice, scaled};
ghost use Rattle.plan_model.specs.declared.geometry.Point.{Point};
ghost use Rattle.plan_model.specs.declared.geometry.Vertex.{Vertex};

/// The lattice points of the room of configurations are those in one of its columns and one of its rows. So if the body
/// is clear anywhere on the lattice, it fits into the room.
pub fn lattice_points_have_a_column_and_a_row()
    ensures spans { (space : ConfigurationSpace) (p : Point)
        → InRoom space (at_lattice p) ↔ (IsInSpan (columns space.room space.body) p.x × IsInSpan (rows space.room space.body) p.y) }
    ensures fits { (space : ConfigurationSpace) (p : Point) → ClearAt space p → BodyFits space.room space.body }
{}

/// A rational point may be written with a multiple of its denominator: that is the same point, and the same points are in
/// the room, meet an obstacle, and are clear.
pub fn denominators_do_not_matter()
    ensures same { (k : ℕ) (positive : 0 < k) (q : Rational) → IsSamePoint q (scaled k positive q) }
    ensures in_room { (space : ConfigurationSpace) (q r : Rational) → IsSamePoint q r → InRoom space q ↔ InRoom space r }
    ensures meets { (clearance : ℕ) (body obstacle : List Vertex) (q r : Rational) → IsSamePoint q r
        → Meets clearance body q obstacle ↔ Meets clearance body r obstacle }
    ensures clear { (space : ConfigurationSpace) (q r : Rational) → IsSamePoint q r → IsClear space q ↔ IsClear space r }
{}

/// With clearance 0 the body meets an obstacle exactly if the two have a point in common.
pub fn clearance_0_is_touching()
    ensures { (body obstacle : List Vertex) (q : Rational) → Meets 0 body q obstacle ↔ SharesPoint body q obstacle }
{}

/// With a greater clearance the body meets at least what it meets with a smaller one. So where it is clear, it is clear
/// with each smaller clearance too.
pub fn greater_clearances_meet_more()
    ensures meets { (smaller greater : ℕ) (body obstacle : List Vertex) (q : Rational) → smaller ≤ greater
        → Meets smaller body q obstacle → Meets greater body q obstacle }
    ensures clear { (space : ConfigurationSpace) (smaller : ℕ) (q : Rational) → smaller ≤ space.clearance
        → IsClear space q → IsClear (record space { clearance = smaller }) q }
{}

/// A segment that is clear is so from either end, and its ends are clear; one from a point to itself is clear if the
/// point is.
pub fn segments_are_clear_from_either_end()
    ensures alone { (space : ConfigurationSpace) (a : Point) → Clear space a a ↔ ClearAt space a }
    ensures first { (space : ConfigurationSpace) (a b : Point) → Clear space a b → ClearAt space a }
    ensures last { (space : ConfigurationSpace) (a b : Point) → Clear space a b → ClearAt space b }
    ensures both_ways { (space : ConfigurationSpace) (a b : Point) → Clear space a b ↔ Clear space b a }
{}
