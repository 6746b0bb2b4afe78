//! What it means to be the bridge between two trees. The law is the contract of a function that does nothing.

ghost use Rattle.std.specs.Prelude.{◌≡◌, ℕ, Option};
ghost use Rattle.plan_model.specs.Runs.Textbook.{Setup};
ghost use Rattle.plan_model.specs.Trees.TreeStates.{TreeState};
ghost use Rattle.twin_trees.specs.Twins.{IsBridge};

/// There is one bridge between two trees, or none.
pub fn bridges_are_unique()
    ensures { (setup : Setup) (one other : TreeState) (bridge found : Option (ℕ × ℕ)) → IsBridge setup one other bridge
        → IsBridge setup one other found → bridge ≡ found }
{}
