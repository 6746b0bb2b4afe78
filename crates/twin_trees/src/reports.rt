//! The report of two trees as text: the path over the bridge, and the counts of each.

ghost use Rattle.std.specs.Prelude.{◌≡◌, ◌++◌, IfOk, IfSome, OnOk, string_bytes};
ghost use Rattle.plan_model.specs.Trees.NodeLists.{IsPresent};
ghost use Rattle.plan_model.specs.Trees.TreeStates.{IsSettled};
ghost use Rattle.grown_runs.specs.Runs.GrownRuns.{state_of_grown};
ghost use Rattle.twin_trees.specs.Twins.{cost_over, bridge_lines, joined_path, twin_text, path_after};

use crate::twin_runs::Twin;
use edge_cost::cost;
use plan_model::{Memory, Point};
use settle_report::{path_back, path_to, push_counts_line, push_path_line, push_point_lines};
use std::alloc::Global;
use step_core::Grown;

/// The report of two settled trees: the path over the bridge from the start into the middle of the first goal, or that there is none, and
/// how many nodes and marks of each outcome there are in each tree. A point that both ends of the bridge share is one point of the path.
/// Costs are in 256ths of a lattice step. O(n) for n marks.
///
/// # Errors
///
/// `Memory` if out of memory for the path or the text.
pub fn twin_report(alloc: Global, twin: &Twin) -> Result<Vec<u8>, Memory>
    requires first { IsSettled (state_of_grown twin.now.from_start) }
    requires second { IsSettled (state_of_grown twin.now.from_goal) }
    requires bridge { IfSome twin.now.bridge (λ pair. IsPresent (state_of_grown twin.now.from_start).points pair.0
        × IsPresent (state_of_grown twin.now.from_goal).points pair.1) }
    ensures { IfOk result (λ text. text.items ≡ twin_text twin.now) }
{
    let mut text = String::new(alloc);
    push_bridge_lines(
        alloc,
        &mut text,
        &twin.from_start,
        &twin.from_goal,
        twin.bridge,
    )?;
    text.push_str("start ")?;
    push_counts_line(&mut text, &twin.from_start)?;
    text.push_str("goal ")?;
    push_counts_line(&mut text, &twin.from_goal)?;
    Ok(text.into_bytes())
}

/// The lines of the path over a bridge, or that there is none.
fn push_bridge_lines(
    alloc: Global,
    text: &mut String,
    first: &Grown,
    second: &Grown,
    bridge: Option<(u32, u32)>,
) -> Result<(), Memory>
    requires first { IsSettled (state_of_grown first.now) }
    requires second { IsSettled (state_of_grown second.now) }
    requires present { IfSome bridge (λ pair. IsPresent (state_of_grown first.now).points pair.0
        × IsPresent (state_of_grown second.now).points pair.1) }
    ensures { OnOk result (string_bytes text.new ≡ string_bytes text.old
        ++ bridge_lines (state_of_grown first.now) (state_of_grown second.now) bridge) }
{
    let Some((one, other)) = bridge else {
        text.push_str("no path\n")?;
        return Ok(());
    };
    let path = joined_path(alloc, first, second, one, other)?;
    let cost = cost_over(first, second, one, other);
    push_path_line(text, &path, cost)?;
    push_point_lines(text, &path)?;
    Ok(())
}

/// What the way over two nodes costs, in 256ths of a lattice step.
fn cost_over(first: &Grown, second: &Grown, one: u32, other: u32) -> u64
    requires first { IsSettled (state_of_grown first.now) }
    requires second { IsSettled (state_of_grown second.now) }
    requires one { IsPresent (state_of_grown first.now).points one }
    requires other { IsPresent (state_of_grown second.now).points other }
    ensures { result ≡ cost_over (state_of_grown first.now) (state_of_grown second.now) one other }
{
    let from = first.point(one).unwrap();
    let to = second.point(other).unwrap();
    first.cost(one) + cost(from, to) + second.cost(other)
}

/// The points of the path over two nodes, a shared one once.
fn joined_path(
    alloc: Global,
    first: &Grown,
    second: &Grown,
    one: u32,
    other: u32,
) -> Result<Vec<Point>, Memory>
    requires one { IsPresent (state_of_grown first.now).points one }
    requires other { IsPresent (state_of_grown second.now).points other }
    ensures { IfOk result (λ path. path.items ≡ joined_path (state_of_grown first.now) (state_of_grown second.now) one other) }
{
    let mut path = path_to(alloc, first, one)?;
    let way = path_back(alloc, second, other)?;
    let end = first.point(one).unwrap();
    path.extend_from_slice(path_after(end, &way))?;
    Ok(path)
}

/// The points that follow a point: without the first one, if it is that point.
fn path_after(point: Point, way: &[Point]) -> &[Point]
    ensures { result.now ≡ path_after point way.now }
{
    if !way.is_empty() && way[0].x == point.x && way[0].y == point.y {
        &way[1..]
    } else {
        way
    }
}
