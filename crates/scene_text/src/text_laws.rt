//! Laws of the reader and the writer together, each the contract of a function that does nothing.

ghost use Rattle.std.specs.Prelude.{◌≡◌, ℕ, ◌≤◌, List, length};
ghost use Rattle.plan_model.specs.declared.scenes.Scene.{Scene};
ghost use Rattle.plan_model.specs.Texts.CanonicalText.{canonical_text, Covers};
ghost use Rattle.plan_model.specs.declared.text_terms.Kind.{Kind};
ghost use Rattle.plan_model.specs.Texts.LineChecks.{Format};
ghost use Rattle.plan_model.specs.Texts.SceneGrammar.{Spells, Refused, supported};
ghost use Rattle.plan_model.specs.Scenes.ChangedScenes.{IsConverted};
ghost use Rattle.plan_model.specs.declared.limits.TheConstants.{MOST_TEXT_BYTES};

/// What is written for a scene is read as the same scene: in each format that has its version and its keys its canonical
/// text spells this scene and no other, and is not refused; and it is never too long to be read. Two scenes with the same
/// canonical text are the same.
pub fn written_scenes_are_read_again()
    ensures spells { (format : Format) (scene : Scene) → Covers format scene → Spells format (canonical_text scene) scene }
    ensures alone { (format : Format) (scene other : Scene) → Covers format scene → Spells format (canonical_text scene) other → other ≡ scene }
    ensures sound { (format : Format) (scene : Scene) (number : ℕ) (kind : Kind) → Covers format scene
        → ¬ Refused format (canonical_text scene) number kind }
    ensures distinct { (scene other : Scene) → canonical_text scene ≡ canonical_text other → scene ≡ other }
    ensures fits { (scene : Scene) → length (canonical_text scene) ≤ MOST_TEXT_BYTES }
{}

/// What is written for a scene that was read is read again as that scene, and what is written for the one that it is converted to is read as
/// the converted one.
pub fn read_scenes_are_read_again()
    ensures again { (text : List ℕ) (scene : Scene) → Spells supported text scene → Spells supported (canonical_text scene) scene }
    ensures converted { (text : List ℕ) (scene converted : Scene) → Spells supported text scene → IsConverted scene converted
        → Spells supported (canonical_text converted) converted }
{}
