//! Laws of scene texts.

ghost use Rattle.std.specs.Prelude.{◌≡◌, ℕ, List, ◌⊎◌};
ghost use Rattle.plan_model.specs.Texts.LineChecks.{Format};
ghost use Rattle.plan_model.specs.Texts.SceneGrammar.{Refused, Spells};
ghost use Rattle.plan_model.specs.declared.scenes.Scene.{Scene};
ghost use Rattle.plan_model.specs.declared.text_terms.Kind.{Kind};

/// A text is refused at one line and for one kind, and no text that spells a scene is refused.
pub fn refusals_are_unique()
    ensures line { (format : Format) (text : List ℕ) (m n : ℕ) (one other : Kind) → Refused format text m one → Refused format text n other → m ≡ n }
    ensures kind { (format : Format) (text : List ℕ) (m n : ℕ) (one other : Kind) → Refused format text m one → Refused format text n other → one ≡ other }
    ensures spelled { (format : Format) (text : List ℕ) (scene : Scene) (n : ℕ) (kind : Kind) → Spells format text scene → ¬ Refused format text n kind }
{}

/// A text spells one scene at most, whichever versions are read and keys are supported.
pub fn scenes_are_unique()
    ensures { (format : Format) (text : List ℕ) (one other : Scene) → Spells format text one → Spells format text other → one ≡ other }
{}

/// Each text, of bytes or of any numbers, spells a scene or is refused, whichever versions are read and keys are supported. With the two
/// laws above it spells exactly one scene, or else is refused at exactly one line and for exactly one kind.
pub fn each_text_is_decided()
    ensures { (format : Format) (text : List ℕ)
        → ((scene : Scene) × Spells format text scene) ⊎ ((number : ℕ) × (kind : Kind) × Refused format text number kind) }
{}
