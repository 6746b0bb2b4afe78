//! Worked examples of the definitions, each the contract of a function that does nothing.

ghost use Rattle.shared_tree_tests.specs.SmallRuns.SmallRecords.{AllowedRecordVectors, FreePointVectors, LoweredCostVectors};
ghost use Rattle.shared_tree_tests.specs.SmallRuns.SmallViews.{AllowedStepVectors, LastViewVectors, LaterViewVectors, StepVectors, UnlawfulViewVectors};
ghost use Rattle.shared_tree_tests.specs.SmallRuns.SmallWorlds.{LawfulWorldVectors, UnlawfulWorldVectors};

/// Words of a run and two views that are a lawful world.
pub fn lawful_worlds()
    ensures { LawfulWorldVectors }
{}

/// Words of a run and views that are no lawful world, each for one thing.
pub fn unlawful_worlds()
    ensures { UnlawfulWorldVectors }
{}

/// What a pass may load, steer to, hang, lower, link and record by what it has seen.
pub fn allowed_steps()
    ensures { AllowedStepVectors }
{}

/// What a load, a claim, a join and a split leave of a view, and the first view of a run.
pub fn steps()
    ensures { StepVectors }
{}

/// A later view, and views that are none.
pub fn later_views()
    ensures { LaterViewVectors }
{}

/// Views that are not lawful, each for one thing.
pub fn unlawful_views()
    ensures { UnlawfulViewVectors }
{}

/// Runs in which what a view has seen does not stand, each for one thing.
pub fn last_views()
    ensures { LastViewVectors }
{}

/// Records of a placed mark, of a blocked one and of one at a node, which a pass may make by what it has seen.
pub fn allowed_records()
    ensures { AllowedRecordVectors }
{}

/// A node that costs less, and changes that are no such change, each for one thing.
pub fn lowered_costs()
    ensures { LoweredCostVectors }
{}

/// Points that were not free at any moment of a time.
pub fn free_points()
    ensures { FreePointVectors }
{}
