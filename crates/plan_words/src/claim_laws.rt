//! What it means that a claim has loaded all counters. Each law is the contract of a function that does nothing.

ghost use Rattle.std.specs.Prelude.{ℕ, ◌<◌};
ghost use Rattle.plan_words.specs.Claims.{AllLoaded};
ghost use Rattle.step_core.specs.Histories.{IsLawfulView};
ghost use Rattle.step_core.specs.Views.{last_look};
ghost use Rattle.grown_runs.specs.Table.WordNames.Word.{Counter};
ghost use Rattle.step_core.specs.declared.views.View.{View};

/// Where all counters were loaded since a moment, each strip's was looked at by a step after it, and so the pass has stepped since.
pub fn all_counters_were_loaded_since()
    ensures each { (view : View) (moment : ℕ) → AllLoaded view moment → (g : ℕ) → g < view.run.strips → moment < last_look view (Counter g) }
    ensures stepped { (view : View) (moment : ℕ) → IsLawfulView view → AllLoaded view moment → moment < view.steps }
{}
