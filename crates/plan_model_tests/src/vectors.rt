//! Worked examples of the definitions, each the contract of a function that does nothing.

ghost use Rattle.plan_model.specs.Vectors.Runs.{ChoiceVectors, RunVectors, TreeVectors};
ghost use Rattle.plan_model.specs.Vectors.Spaces.{ClearanceVectors, MeetingVectors, OverlapVectors, RoomVectors};
ghost use Rattle.plan_model.specs.Vectors.Geometry.{CostVectors, ConvexityVectors, RadiusVectors, SteeringVectors};
ghost use Rattle.plan_model.specs.Vectors.Marks.{DrawnVectors, StripVectors};
ghost use Rattle.plan_model.specs.Vectors.Limits.{ConstantVectors, LimitVectors, RangeVectors};
ghost use Rattle.plan_model.specs.Vectors.Reports.{ReportVectors};
ghost use Rattle.plan_model.specs.Vectors.SecondVersion.{SecondVersionSpelling, SecondVersionVectors, WideSpelling};
ghost use Rattle.plan_model.specs.Vectors.SeenTrees.{SeenTreeVectors, WayVectors};
ghost use Rattle.plan_model.specs.Vectors.Texts.{StreamVectors, FieldSpellingVector, PolygonSpellingVector, RefusalVectors, SpellingVector, LineVectors};
ghost use Rattle.plan_model.specs.Vectors.Texts.{NumberVectors};
ghost use Rattle.plan_model_tests.specs.BatchTexts.{BatchTextVectors};
ghost use Rattle.plan_model_tests.specs.OpenPaths.{BoundaryVectors, FaultWordVectors, OpenPathVectors, SameInputVectors, CoveringVectors};
ghost use Rattle.plan_model_tests.specs.GrownTrees.{GrownTreeVectors, KeptCostVectors};
ghost use Rattle.plan_model_tests.specs.LesserSights.{LaterSightVectors, SeenAtLeastVectors, SeenParentVectors, LinkVectors};
ghost use Rattle.plan_model_tests.specs.NarrowRuns.{FallingRadiusVectors, RewiredInTurnVectors, UnclosedRunVectors};
ghost use Rattle.plan_model_tests.specs.SkippedMarks.{BoundVectors, SkippedRecordVectors, SkippedRunVectors};
ghost use Rattle.plan_model_tests.specs.UnlawfulRecords.{UnlawfulRecordVectors, UnplacedRecordVectors, CostBoundVectors, UnlawfulTreeVectors};

/// What edges cost.
pub fn costs()
    ensures { CostVectors }
{}

/// Where a step leads.
pub fn steps()
    ensures { SteeringVectors }
{}

/// Classes, and the radii of the first ten.
pub fn radii()
    ensures { RadiusVectors }
{}

/// The first words of SplitMix64, and the mark that they draw.
pub fn drawn_words()
    ensures { DrawnVectors }
{}

/// Three strips and their quotas, and the columns in which a body fits.
pub fn strips()
    ensures { StripVectors }
{}

/// Bodies that touch an obstacle or are as far from it as the clearance, and bodies beside it.
pub fn meetings()
    ensures { MeetingVectors }
{}

/// Points and segments of a point body beside a square, and of one with a clearance beside a pillar.
pub fn clearances()
    ensures { ClearanceVectors }
{}

/// Corners that are strictly convex, and others.
pub fn polygons()
    ensures { ConvexityVectors }
{}

/// Best nodes and reports of small trees.
pub fn reports()
    ensures { ReportVectors }
{}

/// How a text is cut into lines and words.
pub fn lines()
    ensures { LineVectors }
{}

/// Which words are numbers.
pub fn numbers()
    ensures { NumberVectors }
{}

/// Texts that are refused, and why.
pub fn refusals()
    ensures { RefusalVectors }
{}

/// Texts of several scenes.
pub fn batch_texts()
    ensures { BatchTextVectors }
{}

/// A text that spells a scene.
pub fn spelling()
    ensures { SpellingVector }
{}

/// A text with a body and obstacles.
pub fn polygon_spelling()
    ensures { PolygonSpellingVector }
{}

/// A text that gives every field of a scene.
pub fn field_spelling()
    ensures { FieldSpellingVector }
{}

/// Texts that are refused by what differs between the versions.
pub fn second_version()
    ensures { SecondVersionVectors }
{}

/// A text of version 2.
pub fn second_version_spelling()
    ensures { SecondVersionSpelling }
{}

/// A text of version 2 that gives what only version 2 has.
pub fn wide_spelling()
    ensures { WideSpelling }
{}

/// The limits, each as a number.
pub fn constants()
    ensures { ConstantVectors }
{}

/// Lines at the limits of the grammar.
pub fn limits()
    ensures { LimitVectors }
{}

/// Bodies, obstacles, goals and plans at the limits of a scene.
pub fn ranges()
    ensures { RangeVectors }
{}

/// Chains, sums and near nodes of small trees.
pub fn trees()
    ensures { TreeVectors }
{}

/// Ways through a kd-tree of three nodes.
pub fn ways()
    ensures { WayVectors }
{}

/// What two workers have seen of five nodes, points that a call of the one has swept or not, and what it takes over from
/// the other.
pub fn seen_trees()
    ensures { SeenTreeVectors }
{}

/// A body at a wall, and points of a segment.
pub fn rooms()
    ensures { RoomVectors }
{}

/// Counts of faults, and calls on streams in memory.
pub fn streams()
    ensures { StreamVectors }
{}

/// Runs of three marks and their reports: one in which a node is rewired, and one in which it is not, since the cost
/// is equal.
pub fn runs()
    ensures { RunVectors }
{}

/// A closed run of two workers, who handled their first marks at the same time: no order of the marks gives it in the textbook.
pub fn overlapping_marks()
    ensures { OverlapVectors }
{}

/// A run of four marks whose radius is below the step, and falls before the last of them.
pub fn falling_radii()
    ensures { FallingRadiusVectors }
{}

/// A run of four marks in which a near node moves, and the next one then keeps its parent.
pub fn rewired_in_turn()
    ensures { RewiredInTurnVectors }
{}

/// A tree that keeps the order law, and trees each of which breaks one clause of it.
pub fn unlawful_trees()
    ensures { UnlawfulTreeVectors }
{}

/// The bound on the costs of a tree, by the number of its nodes.
pub fn cost_bounds()
    ensures { CostBoundVectors }
{}

/// Records of a placed mark: some are lawful, and each of the others breaks one clause of the record law.
pub fn unlawful_records()
    ensures { UnlawfulRecordVectors }
{}

/// The same of records of marks without a node.
pub fn unplaced_records()
    ensures { UnplacedRecordVectors }
{}

/// Bounds of marks.
pub fn bounds()
    ensures { BoundVectors }
{}

/// Records of skipped marks, and of marks beside a goal node.
pub fn skipped_records()
    ensures { SkippedRecordVectors }
{}

/// A textbook run whose last mark is skipped, and its report.
pub fn skipped_run()
    ensures { SkippedRunVectors }
{}

/// States that are not closed, each for one clause of the closed law: a turn twice or left out, a record too many or too few.
pub fn unclosed_runs()
    ensures { UnclosedRunVectors }
{}

/// Choices from a path of three points, and what they cost.
pub fn choices()
    ensures { ChoiceVectors }
{}

/// The words that name a fault of each kind.
pub fn fault_words()
    ensures { FaultWordVectors }
{}

/// Points, roots, costs and steps at a limit, and just beyond it.
pub fn boundaries()
    ensures { BoundaryVectors }
{}

/// A link of a node into a kd-tree, and changes that are no such link.
pub fn links()
    ensures { LinkVectors }
{}

/// A tree and a later moment of it, and trees that are none, for one thing each; costs alone that change, and runs that are the same.
pub fn grown_trees()
    ensures { GrownTreeVectors }
{}

/// Costs of a branch that is lowered, costs that are tight, and costs that fall.
pub fn kept_costs()
    ensures { KeptCostVectors }
{}

/// What has been seen at least, and what is less; a tree that grows; what two saw of parents.
pub fn seen_at_least()
    ensures { SeenAtLeastVectors }
{}

/// A later moment of a worker, moments that are none, and sights that are not kept.
pub fn later_sights()
    ensures { LaterSightVectors }
{}

/// Parents and costs that were not seen of a lawful tree.
pub fn seen_parents()
    ensures { SeenParentVectors }
{}

/// Nodes with a clear edge to a point, and clear paths; nodes and paths that lead past a wall.
pub fn open_paths()
    ensures { OpenPathVectors }
{}

/// Scenes that have the same run, and a tree that is that of a run.
pub fn same_inputs()
    ensures { SameInputVectors }
{}

/// Formats that cover the canonical text of a scene, and formats that leave out its version or a key.
pub fn coverings()
    ensures { CoveringVectors }
{}
