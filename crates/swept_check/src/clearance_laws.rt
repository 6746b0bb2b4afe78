//! What it means that a segment is clear. Each law is the contract of a function that does nothing.

ghost use Rattle.plan_model.specs.Geometry.Plane.{IsBounded};
ghost use Rattle.plan_model.specs.Spaces.Clearance.{Clear};
ghost use Rattle.plan_model.specs.Spaces.ConfigurationSpace.{space_of};
ghost use Rattle.plan_model.specs.declared.configuration_spaces.ConfigurationSpace.{ConfigurationSpace};
ghost use Rattle.plan_model.specs.declared.geometry.Point.{Point};
ghost use Rattle.plan_model.specs.declared.scenes.Scene.{Scene};

/// Both ends of a clear segment lie in the room, so they are within bounds if its corner is, as that of each
/// [`Clearing`](crate::Clearing) and of each scene.
pub fn clear_segments_are_bounded()
    ensures space { (space : ConfigurationSpace) (a b : Point) → IsBounded space.room → Clear space a b → IsBounded a × IsBounded b }
    ensures scene { (scene : Scene) (a b : Point) → Clear (space_of scene) a b → IsBounded a × IsBounded b }
{}
