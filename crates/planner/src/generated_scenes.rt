//! Generated scenes: one for each number up to 9,999, to try a planner on.
//!
//! ```text
//!     +-----+-----+--
//!     | #   |     |        The room is cut into eight columns and eight rows of cells. Each cell has one
//!     |     |  |\ |        obstacle, squares and right triangles in turn, whose place and side are drawn
//!     +-----+-----+--      by SplitMix64. No obstacle reaches the start in the first cell.
//! ```

ghost use Rattle.std.specs.Prelude.{◌≡◌, ◌+◌, ◌≤◌, ◌<◌, ◌^◌, IfOk, pos};
ghost use Rattle.plan_model.specs.Spaces.Clearance.{ClearAt};
ghost use Rattle.plan_model.specs.Spaces.ConfigurationSpace.{space_of};
ghost use Rattle.planner.specs.GeneratedScenes as spec;

use plan_model::{Goal, Goals, Marks, Memory, Point, Poly, Polys, Scene, Vertex};
use std::alloc::Global;
use strip_sampler::drawn_words;

/// The greatest number of a generated scene.
pub const MOST_GENERATED: u32 = 9_999;

/// The cells of a generated scene, and its obstacles.
const CELLS: u32 = 64;

/// The generated scene of a number from 0 to `MOST_GENERATED`: a square room of 9,999, a square body of 20, 64 obstacles, and
/// 2,000 to 20,000 drawn marks (samples) by the last digit of the number. Its start is clear. O(1).
///
/// # Errors
///
/// `Memory` if out of memory for the obstacles, the body or the goal.
pub fn gen_scene(alloc: Global, number: u32) -> Result<Scene, Memory>
    requires { number ≤ MOST_GENERATED }
    ensures scene { IfOk result (spec.IsGenerated number) }
    ensures start { IfOk result (λ scene. ClearAt (space_of scene) scene.start) }
{
    Ok(Scene {
        version: 1,
        room: Point { x: 9_999, y: 9_999 },
        body: square_at(alloc, Point { x: 0, y: 0 }, 20)?,
        obstacles: obstacles(alloc, number)?,
        clearance: 0,
        start: Point { x: 100, y: 100 },
        goals: goals(alloc)?,
        step: 400,
        gamma: 6_900,
        seed: u64::from(number),
        strips: 8,
        informed: false,
        plan: Marks::Drawn(2_000 * (1 + number % 10)),
    })
}

/// The goal of each generated scene.
fn goals(alloc: Global) -> Result<Goals, Memory>
    ensures { IfOk result (λ goals. goals ≡ spec.generated_goals) }
{
    let goal = Goal {
        low: Point { x: 9_700, y: 9_700 },
        high: Point { x: 9_900, y: 9_900 },
    };
    Ok(Goals::from_vec(vec![in alloc; goal]?))
}

/// The obstacles of a generated scene, one in each cell.
fn obstacles(alloc: Global, number: u32) -> Result<Polys, Memory>
    requires { number ≤ MOST_GENERATED }
    ensures { IfOk result (λ obstacles. obstacles ≡ spec.generated_obstacles number) }
{
    let mut obstacles = Vec::with_capacity(alloc, CELLS as usize)?;
    for cell in 0..CELLS {
        obstacles.push(obstacle(alloc, number, cell)?)?;
    }
    Ok(Polys::from_vec(obstacles))
}

/// The obstacle of a cell: a square in a cell of even number, a triangle in one of odd number.
fn obstacle(alloc: Global, number: u32, cell: u32) -> Result<Poly, Memory>
    requires number { number ≤ MOST_GENERATED }
    requires cell { cell < CELLS }
    ensures { IfOk result (λ corners. corners ≡ spec.generated_obstacle number cell) }
{
    let (first, second) = drawn_words(64 * u64::from(number), cell);
    let low = Point {
        x: 1_250 * (cell % 8) + 200 + (first % 512) as u32,
        y: 1_250 * (cell / 8) + 200 + (second % 512) as u32,
    };
    let side = 100 + (first / 512 % 256) as u32;
    if cell % 2 == 0 {
        square_at(alloc, low, side)
    } else {
        triangle_at(alloc, low, side)
    }
}

/// The square with this lower left corner.
fn square_at(alloc: Global, at: Point, side: u32) -> Result<Poly, Memory>
    requires right { at.x + side < 2 ^ 31 }
    requires top { at.y + side < 2 ^ 31 }
    ensures { IfOk result (λ corners. corners ≡ spec.square_at at side) }
{
    let (right, top) = (at.x + side, at.y + side);
    let corners = vec![in alloc;
        lattice_corner(at.x, at.y),
        lattice_corner(right, at.y),
        lattice_corner(right, top),
        lattice_corner(at.x, top),
    ]?;
    Ok(Poly::from_vec(corners))
}

/// The lower left half of that square.
fn triangle_at(alloc: Global, at: Point, side: u32) -> Result<Poly, Memory>
    requires right { at.x + side < 2 ^ 31 }
    requires top { at.y + side < 2 ^ 31 }
    ensures { IfOk result (λ corners. corners ≡ spec.triangle_at at side) }
{
    let corners = vec![in alloc;
        lattice_corner(at.x, at.y),
        lattice_corner(at.x + side, at.y),
        lattice_corner(at.x, at.y + side),
    ]?;
    Ok(Poly::from_vec(corners))
}

fn lattice_corner(x: u32, y: u32) -> Vertex
    requires x { x < 2 ^ 31 }
    requires y { y < 2 ^ 31 }
    ensures { result ≡ spec.lattice_corner x y }
{
    Vertex {
        x: x as i32,
        y: y as i32,
    }
}
