//! The task that a scene sets.

ghost use Rattle.std.specs.Prelude.{◌≡◌};
ghost use Rattle.std.proofs.Props.{props};
ghost use Rattle.plan_model.specs.Scenes.MarkPoints.{mark_points};

use crate::scenes::{Points, Scene};

/// A scene with its mark points.
#[derive(Debug, Drop)]
pub struct Task {
    /// The scene that is to be planned.
    pub scene: Scene,
    /// The mark points (the samples) of the scene, in the order of their numbers.
    pub marks: Points,
    ghost of_scene: { marks ≡ mark_points scene },
}
