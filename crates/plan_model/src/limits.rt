//! The limits of scene texts, scenes and runs, each said once.
//!
//! What a scene may have is one thing, by the version of its text (`MOST_SIDE`, `MOST_STEP` and the range of obstacles in
//! version 1; those that end in `_OF_VERSION_2`), and what computing counts on is another, which is as wide or wider
//! (`MOST_COORDINATE`, `MOST_STEERING_STEP`, the range of summands). The lemmas `SceneBounds` lead from the first to the second.

/// The most bytes of a scene text.
pub const MOST_TEXT_BYTES: usize = 16_777_216;

/// The most scenes of a batch.
pub const MOST_SCENES: usize = 64;

/// The most marks (samples) of a plan.
pub const MOST_MARKS: u32 = 262_143;

/// The most nodes of a tree, the start included.
pub const MOST_NODES: u32 = 262_144;

/// The most workers that grow a tree.
pub const MOST_WORKERS: u32 = 64;

/// The fewest strips that a room is cut into.
pub const LEAST_STRIPS: u32 = 1;

/// The most strips that a room is cut into.
pub const MOST_STRIPS: u32 = 64;

/// The most obstacles of a scene.
pub const MOST_OBSTACLES: usize = 1_024;

/// The fewest corners of a polygon.
pub const LEAST_CORNERS: usize = 3;

/// The most corners of an obstacle.
pub const MOST_OBSTACLE_CORNERS: usize = 64;

/// The most corners of a body.
pub const MOST_BODY_CORNERS: usize = 16;

/// The least side of a room, in lattice steps.
pub const LEAST_SIDE: u32 = 1;

/// The greatest side of a room, and the greatest coordinate of a start, a goal and a listed mark, in lattice steps, in
/// version 1.
pub const MOST_SIDE: u32 = 65_535;

/// The same in version 2.
pub const MOST_SIDE_OF_VERSION_2: u32 = 1_048_575;

/// The least step (the longest edge of a tree), in lattice steps.
pub const LEAST_STEP: u32 = 4;

/// The greatest step, in lattice steps, in version 1.
pub const MOST_STEP: u32 = 4_096;

/// The greatest step, in lattice steps, in version 2.
pub const MOST_STEP_OF_VERSION_2: u32 = 65_536;

/// The most goals of a scene of version 2; one of version 1 has one.
pub const MOST_GOALS: usize = 16;

/// The greatest clearance of a scene of version 2, in lattice steps; that of one of version 1 is 0.
pub const MOST_CLEARANCE: u32 = 4_096;

/// The greatest factor of the rewiring radius, in lattice steps.
pub const MOST_GAMMA: u32 = 16_777_215;

/// The greatest seed of drawn marks: a seed has 64 bits.
pub const MOST_SEED: u64 = u64::MAX;

/// The least coordinate of a body's corner, in lattice steps.
pub const LEAST_BODY_COORDINATE: i32 = -4_096;

/// The greatest coordinate of a body's corner, in lattice steps.
pub const MOST_BODY_COORDINATE: i32 = 4_096;

/// The least coordinate of an obstacle's corner, in lattice steps, in version 1.
pub const LEAST_OBSTACLE_COORDINATE: i32 = -131_072;

/// The greatest coordinate of an obstacle's corner, in lattice steps, in version 1.
pub const MOST_OBSTACLE_COORDINATE: i32 = 131_071;

/// The least coordinate of an obstacle's corner, in lattice steps, in version 2.
pub const LEAST_OBSTACLE_COORDINATE_OF_VERSION_2: i32 = -2_097_152;

/// The greatest coordinate of an obstacle's corner, in lattice steps, in version 2.
pub const MOST_OBSTACLE_COORDINATE_OF_VERSION_2: i32 = 2_097_151;

/// The least coordinate of a corner whose orientations are taken, in lattice steps: no product of two coordinates of
/// edges passes 2^46.
pub const LEAST_CORNER_COORDINATE: i32 = -4_194_304;

/// The greatest coordinate of a corner whose orientations are taken, in lattice steps.
pub const MOST_CORNER_COORDINATE: i32 = 4_194_304;

/// The least coordinate of an obstacle's corner in a Minkowski sum, in lattice steps. The range is symmetric, so that it
/// holds for reflected polygons too.
pub const LEAST_SUMMAND_COORDINATE: i32 = -2_097_152;

/// The greatest coordinate of an obstacle's corner in a Minkowski sum, in lattice steps.
pub const MOST_SUMMAND_COORDINATE: i32 = 2_097_152;

/// The greatest coordinate of a point whose distances are taken, in lattice steps: no square of a distance passes 2^41.
pub const MOST_COORDINATE: u32 = 1_048_575;

/// The greatest step that a point is steered by, in lattice steps.
pub const MOST_STEERING_STEP: u32 = 65_536;
