//! What it means that a search has swept a disc. Each law is the contract of a function that does nothing.

ghost use Rattle.std.specs.Prelude.{◌≡◌, ℕ, ◌≤◌, List};
ghost use lib.ListN.{get_elem?};
ghost use mathlib.Core.Option.{some};
ghost use Rattle.kd_shared.specs.Searches.{SweepsWithin};
ghost use Rattle.plan_model.specs.Geometry.Plane.{squared_distance};
ghost use Rattle.plan_model.specs.Trees.NodeLists.{IsFree};
ghost use Rattle.plan_model.specs.declared.geometry.Point.{Point};
ghost use Rattle.step_core.specs.Histories.{HasCome, WasFree};
ghost use Rattle.step_core.specs.ViewTrees.{sight_in};
ghost use Rattle.step_core.specs.Views.{tree_seen};
ghost use Rattle.grown_runs.specs.Table.WordNames.{Words};
ghost use Rattle.step_core.specs.Worlds.{IsWorld};
ghost use Rattle.step_core.specs.declared.views.SharedRun.{SharedRun};
ghost use Rattle.step_core.specs.declared.views.View.{View};

/// Of the points that a search has swept, each at which no node is seen at return was free at some moment of the search: no linked
/// node stood there then, whatever the other passes did meanwhile.
pub fn swept_discs_were_free()
    ensures { (run : SharedRun) (id : ℕ) (words last : Words) (views lasts : List View) (first end : View) → IsWorld run words views
        → get_elem? views id ≡ some first → HasCome run id words views last lasts → get_elem? lasts id ≡ some end → end.run ≡ run
        → (p : Point) (bound : ℕ) → SweepsWithin (sight_in first) (sight_in end) p bound → (q : Point) → squared_distance q p ≤ bound
        → IsFree (tree_seen end).points q → WasFree run words last q }
{}
