//! The reports of a settled run as text: the cheapest path into a goal, the counts, and in a full report a line for
//! each node and each mark.

ghost use Rattle.std.specs.Prelude.{◌≡◌, [], ◌∷◌, ◌++◌, IfOk, IfSome, OnOk, codes, decimal, string_bytes};
ghost use Rattle.plan_model.specs.Trees.BestNode.{best_node, goals_of};
ghost use Rattle.plan_model.specs.Trees.NodeLists.{IsPresent};
ghost use Rattle.plan_model.specs.Reports.ReportText as spec;
ghost use Rattle.plan_model.specs.Reports.ReportText.{line, report_text, summary};
ghost use Rattle.plan_model.specs.Trees.TreeStates.{IsSettled};
ghost use Rattle.settle_report.specs.SettledMarks.{AreCounts};
ghost use Rattle.grown_runs.specs.Runs.GrownRuns.{state_of_grown};

use crate::best_node::best;
use crate::mark_lines::push_mark_lines;
use crate::node_lines::push_node_lines;
use crate::outcome_counts::OutcomeCounts;
use crate::paths::path_to;
use grown_runs::Grown;
use plan_model::{Memory, Point};
use std::alloc::{AllocError, Global};

/// The report of a settled run. The short one is the cheapest path from the start into a goal, or that there is none, and
/// how many nodes and marks of each outcome there are; the full one has a line for each node and for each mark besides. Costs
/// are in 256ths of a lattice step. O(n) for n marks below the limit.
///
/// # Errors
///
/// `Memory` if out of memory for the path or the text.
pub fn report(alloc: Global, grown: &Grown, full: bool) -> Result<Vec<u8>, Memory>
    requires { IsSettled (state_of_grown grown.now) }
    ensures { IfOk result (λ text. text.items ≡ report_text full grown.now.task.scene grown.now.limit (state_of_grown grown.now)) }
{
    report_by_best(alloc, grown, best(grown), full)
}

/// [`report`], for a caller that has already found the best node: `best` is what [`best()`](best) returns. O(n) for n marks.
///
/// # Errors
///
/// `Memory` if out of memory for the path or the text.
pub fn report_by_best(
    alloc: Global,
    grown: &Grown,
    best: Option<u32>,
    full: bool,
) -> Result<Vec<u8>, Memory>
    requires settled { IsSettled (state_of_grown grown.now) }
    requires best { best ≡ best_node (goals_of grown.now.task.scene) grown.now.limit (state_of_grown grown.now) }
    ensures { IfOk result (λ text. text.items ≡ report_text full grown.now.task.scene grown.now.limit (state_of_grown grown.now)) }
{
    let mut text = String::new(alloc);
    let path = best_path(alloc, grown, best)?;
    push_head_line(&mut text, grown, best, &path)?;
    push_point_lines(&mut text, &path)?;
    push_counts_line(&mut text, grown)?;
    if full {
        push_node_lines(&mut text, grown)?;
        push_mark_lines(&mut text, grown)?;
    }
    Ok(text.into_bytes())
}

/// The short report of a run along another path than its best one, with this cost in 256ths of a lattice step. O(n) for n marks, and
/// the points of the path.
///
/// # Errors
///
/// `Memory` if out of memory for the text.
pub fn report_along(
    alloc: Global,
    grown: &Grown,
    path: &[Point],
    cost: u64,
) -> Result<Vec<u8>, Memory>
    ensures { IfOk result (λ text. text.items ≡ (spec.path_line path.now cost ++ spec.point_lines path.now)
        ++ spec.counts_line grown.now.task.scene grown.now.limit (state_of_grown grown.now)) }
{
    let mut text = String::new(alloc);
    push_path_line(&mut text, path, cost)?;
    push_point_lines(&mut text, path)?;
    push_counts_line(&mut text, grown)?;
    Ok(text.into_bytes())
}

/// The short report of a settled run without the lines of its path's points. O(n) for n marks.
///
/// # Errors
///
/// `Memory` if out of memory for the path or the text.
pub fn summary(alloc: Global, grown: &Grown) -> Result<Vec<u8>, Memory>
    requires { IsSettled (state_of_grown grown.now) }
    ensures { IfOk result (λ text. text.items ≡ summary grown.now.task.scene grown.now.limit (state_of_grown grown.now)) }
{
    summary_by_best(alloc, grown, best(grown))
}

/// [`summary`], for a caller that has already found the best node: `best` is what [`best()`](best) returns. O(n) for n marks.
///
/// # Errors
///
/// `Memory` if out of memory for the path or the text.
pub fn summary_by_best(alloc: Global, grown: &Grown, best: Option<u32>) -> Result<Vec<u8>, Memory>
    requires settled { IsSettled (state_of_grown grown.now) }
    requires best { best ≡ best_node (goals_of grown.now.task.scene) grown.now.limit (state_of_grown grown.now) }
    ensures { IfOk result (λ text. text.items ≡ summary grown.now.task.scene grown.now.limit (state_of_grown grown.now)) }
{
    let mut text = String::new(alloc);
    push_head_line(&mut text, grown, best, &best_path(alloc, grown, best)?)?;
    push_counts_line(&mut text, grown)?;
    Ok(text.into_bytes())
}

/// The path to the best node; no point if there is none.
fn best_path(alloc: Global, grown: &Grown, best: Option<u32>) -> Result<Vec<Point>, Memory>
    requires { IfSome best (IsPresent (state_of_grown grown.now).points) }
    ensures { IfOk result (λ path. path.items ≡ spec.best_path (state_of_grown grown.now) best) }
{
    match best {
        Some(node) => path_to(alloc, grown, node),
        None => Ok(Vec::new(alloc)),
    }
}

/// The first line: of the path to the best node, or that there is none.
fn push_head_line(
    text: &mut String,
    grown: &Grown,
    best: Option<u32>,
    path: &[Point],
) -> Result<(), AllocError>
    requires settled { IsSettled (state_of_grown grown.now) }
    requires present { IfSome best (IsPresent (state_of_grown grown.now).points) }
    requires path { path.now ≡ spec.best_path (state_of_grown grown.now) best }
    ensures { OnOk result (string_bytes text.new ≡ string_bytes text.old ++ spec.head_line (state_of_grown grown.now) best) }
{
    match best {
        Some(node) => push_path_line(text, path, grown.cost(node)),
        None => text.push_str("no path\n"),
    }
}

/// Adds the line of a path: of how many points, and its cost in 256ths of a lattice step. O(1).
///
/// # Errors
///
/// `AllocError` if out of memory for the line.
pub fn push_path_line(text: &mut String, points: &[Point], cost: u64) -> Result<(), AllocError>
    ensures { OnOk result (string_bytes text.new ≡ string_bytes text.old ++ spec.path_line points.now cost) }
{
    write!(text, "path {} cost {cost}\n", points.len())
}

/// Adds a line for each point. O(n).
///
/// # Errors
///
/// `AllocError` if out of memory for the lines.
pub fn push_point_lines(text: &mut String, points: &[Point]) -> Result<(), AllocError>
    ensures { OnOk result (string_bytes text.new ≡ string_bytes text.old ++ spec.point_lines points.now) }
{
    for point in points {
        push_point_line(text, *point)?;
    }
    Ok(())
}

/// The line of a point.
fn push_point_line(text: &mut String, point: Point) -> Result<(), AllocError>
    ensures { OnOk result (string_bytes text.new ≡ string_bytes text.old ++ spec.point_line point) }
{
    write!(text, "{} {}\n", point.x, point.y)
}

/// The outcomes of the marks below the limit, counted.
fn counts_of(grown: &Grown) -> OutcomeCounts
    ensures { AreCounts (state_of_grown grown.now).record_of grown.now.limit result }
{
    let mut counts = OutcomeCounts::NONE;
    for mark in 0..grown.limit() {
        counts.count(grown.record_of(mark).outcome);
    }
    counts
}

/// Adds the line of the counts of nodes and of marks by their outcomes; skipped marks are counted where the scene is informed, also none.
/// O(n) for n marks below the limit.
///
/// # Errors
///
/// `AllocError` if out of memory for the line.
pub fn push_counts_line(text: &mut String, grown: &Grown) -> Result<(), AllocError>
    ensures { OnOk result (string_bytes text.new ≡ string_bytes text.old ++ spec.counts_line grown.now.task.scene grown.now.limit (state_of_grown grown.now)) }
{
    let counts = counts_of(grown);
    if grown.task().scene.informed {
        push_counts_with_skipped(text, grown.count(), counts)
    } else {
        push_counts(text, grown.count(), counts)
    }
}

/// The counts of a scene in which marks may be skipped.
fn push_counts_with_skipped(
    text: &mut String,
    nodes: u32,
    counts: OutcomeCounts,
) -> Result<(), AllocError>
    ensures { OnOk result (string_bytes text.new ≡ string_bytes text.old ++ line (
        codes "nodes" ∷ decimal nodes ∷ codes "placed" ∷ decimal counts.placed ∷ codes "same" ∷ decimal counts.same
        ∷ codes "blocked" ∷ decimal counts.blocked ∷ codes "skipped" ∷ decimal counts.skipped ∷ [])) }
{
    write!(
        text,
        "nodes {nodes} placed {} same {} blocked {} skipped {}\n",
        counts.placed, counts.same, counts.blocked, counts.skipped
    )
}

/// The counts of a scene in which no mark is skipped.
fn push_counts(text: &mut String, nodes: u32, counts: OutcomeCounts) -> Result<(), AllocError>
    ensures { OnOk result (string_bytes text.new ≡ string_bytes text.old ++ line (
        codes "nodes" ∷ decimal nodes ∷ codes "placed" ∷ decimal counts.placed ∷ codes "same" ∷ decimal counts.same
        ∷ codes "blocked" ∷ decimal counts.blocked ∷ [])) }
{
    write!(
        text,
        "nodes {nodes} placed {} same {} blocked {}\n",
        counts.placed, counts.same, counts.blocked
    )
}
