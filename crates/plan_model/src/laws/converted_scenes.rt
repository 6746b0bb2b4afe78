//! Laws of scenes that are converted to version 2, each the contract of a function that does nothing.

ghost use Rattle.std.specs.Prelude.{◌≡◌, ℕ, Bool, List};
ghost use Rattle.plan_model.specs.Reports.ReportText.{report_text, summary};
ghost use Rattle.plan_model.specs.Runs.Textbook.{IsTextbookRun, Nodes, setup_of};
ghost use Rattle.plan_model.specs.Scenes.ChangedScenes.{IsConverted};
ghost use Rattle.plan_model.specs.Scenes.MarkPoints.{mark_points};
ghost use Rattle.plan_model.specs.Spaces.ConfigurationSpace.{space_of};
ghost use Rattle.plan_model.specs.Trees.TreeStates.{TreeState};
ghost use Rattle.plan_model.specs.declared.records.Record.{Record};
ghost use Rattle.plan_model.specs.declared.scenes.Scene.{Scene};

/// A scene is converted to one scene, and one of version 2 to itself.
pub fn converted_scenes_are_unique()
    ensures alone { (scene one other : Scene) → IsConverted scene one → IsConverted scene other → one ≡ other }
    ensures itself { (scene converted : Scene) → scene.version ≡ 2 → IsConverted scene converted → converted ≡ scene }
{}

/// A scene and the one that it is converted to have the same configuration space, the same textbook run, and of each tree the same report,
/// short and full, and the same summary.
pub fn converted_scenes_have_the_same_run()
    ensures space { (scene converted : Scene) → IsConverted scene converted → space_of converted ≡ space_of scene }
    ensures run { (scene converted : Scene) (tree : Nodes) (records : List Record) → IsConverted scene converted
        → IsTextbookRun (setup_of scene) (mark_points scene) tree records
        → IsTextbookRun (setup_of converted) (mark_points converted) tree records }
    ensures back { (scene converted : Scene) (tree : Nodes) (records : List Record) → IsConverted scene converted
        → IsTextbookRun (setup_of converted) (mark_points converted) tree records
        → IsTextbookRun (setup_of scene) (mark_points scene) tree records }
    ensures report { (scene converted : Scene) (limit : ℕ) (state : TreeState) → IsConverted scene converted → (full : Bool)
        → report_text full converted limit state ≡ report_text full scene limit state }
    ensures summary { (scene converted : Scene) (limit : ℕ) (state : TreeState) → IsConverted scene converted
        → summary converted limit state ≡ summary scene limit state }
{}
