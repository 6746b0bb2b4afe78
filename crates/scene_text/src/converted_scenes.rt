//! A scene of either version as one of version 2.

ghost use Rattle.plan_model.specs.Scenes.ChangedScenes.{IsConverted};

use plan_model::Scene;

/// The scene with version 2, and else as it was, since version 2 has all that version 1 has. One of version 2 stays as it is. O(1), without
/// memory.
pub fn as_version_2(mut scene: Scene) -> Scene
    ensures { IsConverted scene result }
{
    scene.version = 2;
    scene
}
