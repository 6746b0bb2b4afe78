//! Laws of batches of scene texts.

ghost use Rattle.std.specs.Prelude.{◌≡◌, ℕ, List, ◌⊎◌};
ghost use Rattle.plan_model.specs.Texts.LineChecks.{Format};
ghost use Rattle.plan_model.specs.Texts.SceneGrammar.{RefusesBatch, SpellsBatch};
ghost use Rattle.plan_model.specs.declared.scenes.Scene.{Scene};
ghost use Rattle.plan_model.specs.declared.text_terms.Kind.{Kind};

/// A text is refused as a batch at one line and for one kind, and none that spells a batch is refused.
pub fn batch_refusals_are_unique()
    ensures line { (format : Format) (text : List ℕ) (m n : ℕ) (one other : Kind)
        → RefusesBatch format text m one → RefusesBatch format text n other → m ≡ n }
    ensures kind { (format : Format) (text : List ℕ) (m n : ℕ) (one other : Kind)
        → RefusesBatch format text m one → RefusesBatch format text n other → one ≡ other }
    ensures spelled { (format : Format) (text : List ℕ) (scenes : List Scene) (n : ℕ) (kind : Kind)
        → SpellsBatch format text scenes → ¬ RefusesBatch format text n kind }
{}

/// A text spells the scenes of one batch at most, whichever versions are read and keys are supported.
pub fn batches_are_unique()
    ensures { (format : Format) (text : List ℕ) (one other : List Scene) → SpellsBatch format text one → SpellsBatch format text other → one ≡ other }
{}

/// Each text spells a batch or is refused as one, whichever versions are read and keys are supported. With the two laws above it spells
/// the scenes of exactly one batch, or else is refused at exactly one line and for exactly one kind.
pub fn each_batch_is_decided()
    ensures { (format : Format) (text : List ℕ)
        → ((scenes : List Scene) × SpellsBatch format text scenes) ⊎ ((number : ℕ) × (kind : Kind) × RefusesBatch format text number kind) }
{}
