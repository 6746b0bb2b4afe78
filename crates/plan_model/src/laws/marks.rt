//! Laws of strips, quotas, and marks that are drawn.

ghost use Rattle.std.specs.Prelude.{◌≡◌, ℕ, ◌+◌, ◌*◌, ◌/◌, ◌<◌, ◌≤◌, ◌↔◌};
ghost use Rattle.std.specs.List.{range_with_len, sum_by};
ghost use Rattle.plan_model.specs.Spaces.ConfigurationSpace.{space_of, InRoom, at_lattice};
ghost use Rattle.plan_model.specs.Scenes.MarkPoints.{BodyFits, IsInSpan, IsMarkOf, columns, drawn_mark, mark_of, quota_of, rows, strip, strip_of_mark};
ghost use Rattle.plan_model.specs.declared.spans.Span.{Span};
ghost use Rattle.plan_model.specs.declared.scenes.Scene.{Scene};

/// The strips of a span lie one after another from its first column to its last, if there are enough columns.
pub fn strips_make_up_the_span()
    ensures first { (all : Span) (strips : ℕ) → strips ≤ all.count → (strip all strips 0).first ≡ all.first }
    ensures next { (all : Span) (strips g : ℕ) → 0 < strips → strips ≤ all.count
        → (strip all strips (g + 1)).first ≡ (strip all strips g).first + (strip all strips g).count }
    ensures last { (all : Span) (strips : ℕ) → 0 < strips → strips ≤ all.count → (strip all strips strips).first ≡ all.first + all.count }
{}

/// Each strip lies within the span, and has a column if the span has one, however many strips there are.
pub fn strips_have_columns_of_the_span()
    ensures some { (all : Span) (strips g : ℕ) → 0 < all.count → g < strips → 0 < (strip all strips g).count }
    ensures within { (all : Span) (strips g n : ℕ) → g < strips → IsInSpan (strip all strips g) n → IsInSpan all n }
{}

/// A mark is drawn from the columns of its strip and from the rows, so it is in the room of configurations.
pub fn marks_are_drawn_in_the_room()
    ensures column { (scene : Scene) (k : ℕ) → BodyFits scene.room scene.body
        → IsInSpan (strip (columns scene.room scene.body) scene.strips (strip_of_mark scene.strips k)) (drawn_mark scene k).x }
    ensures row { (scene : Scene) (k : ℕ) → BodyFits scene.room scene.body → IsInSpan (rows scene.room scene.body) (drawn_mark scene k).y }
    ensures in_room { (scene : Scene) (k : ℕ) → BodyFits scene.room scene.body → InRoom (space_of scene) (at_lattice (drawn_mark scene k)) }
{}

/// The c-th mark of a strip is below a limit exactly if c is below the quota of the strip.
pub fn quotas_count_the_marks_of_a_strip()
    ensures { (strips g limit c : ℕ) → g < strips → (mark_of strips g c < limit) ↔ (c < quota_of strips g limit) }
{}

/// Each mark below a limit is the c-th of one strip, for one c, which is below the quota of the strip; and
/// each such number is below the limit.
pub fn marks_are_in_one_strip_each()
    ensures some { (strips limit k : ℕ) → 0 < strips → k < limit → IsMarkOf strips limit k (strip_of_mark strips k) (k / strips) }
    ensures strip { (strips limit k g c : ℕ) → IsMarkOf strips limit k g c → g ≡ strip_of_mark strips k }
    ensures place { (strips limit k g c : ℕ) → IsMarkOf strips limit k g c → c ≡ k / strips }
    ensures below { (strips limit k g c : ℕ) → IsMarkOf strips limit k g c → k < limit }
{}

/// The quotas of all strips add up to the limit.
pub fn quotas_add_up_to_the_limit()
    ensures { (strips limit : ℕ) → 0 < strips → sum_by (λ g. quota_of strips g limit) (range_with_len 0 strips) ≡ limit }
{}
