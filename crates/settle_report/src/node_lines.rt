//! The lines of a full report on the nodes of a settled run.

ghost use Rattle.std.specs.Prelude.{◌≡◌, ◌++◌, OnOk, string_bytes};
ghost use Rattle.plan_model.specs.Trees.NodeLists.{point_at};
ghost use Rattle.plan_model.specs.Reports.ReportText.{node_line_if_present, node_lines};
ghost use Rattle.plan_model.specs.Trees.TreeStates.{IsSettled};
ghost use Rattle.grown_runs.specs.Runs.GrownRuns.{state_of_grown};
ghost use Rattle.settle_report.specs.SettledMarks.{knot_line};

use grown_runs::Grown;
use plan_model::Knot;
use std::alloc::AllocError;

/// A line for each node that is present, in rising number: where it stands, its parent and its cost-to-come. O(n) for n marks
/// below the limit.
///
/// # Errors
///
/// `AllocError` if out of memory for the text.
pub(crate) fn push_node_lines(text: &mut String, grown: &Grown) -> Result<(), AllocError>
    requires { IsSettled (state_of_grown grown.now) }
    ensures { OnOk result (string_bytes text.new ≡ string_bytes text.old ++ node_lines grown.now.limit (state_of_grown grown.now)) }
{
    for node in 0..grown.limit() + 1 {
        push_line_if_present(text, grown, node)?;
    }
    Ok(())
}

/// The line of a node, if it is present.
fn push_line_if_present(text: &mut String, grown: &Grown, node: u32) -> Result<(), AllocError>
    requires { IsSettled (state_of_grown grown.now) }
    ensures { OnOk result (string_bytes text.new ≡ string_bytes text.old
        ++ node_line_if_present (state_of_grown grown.now) node (point_at (state_of_grown grown.now).points node)) }
{
    match grown.point(node) {
        Some(point) => {
            let (parent, cost) = (grown.parent(node), grown.cost(node));
            push_node_line(
                text,
                node,
                Knot {
                    point,
                    parent,
                    cost,
                },
            )
        }
        None => Ok(()),
    }
}

/// Appends the line of one node, as a full report has it: its number, where it stands in lattice steps, the number of its
/// parent, and its cost in 256ths of a lattice step. The line ends with a line feed. O(1).
///
/// The report of a settled run has such a line for each node that is present, with its parent there and its cost-to-come.
/// The numbers are written whatever they are: they need be those of no run.
///
/// # Errors
///
/// `AllocError` if out of memory for the text, which may then end with a part of the line.
pub fn push_node_line(text: &mut String, node: u32, knot: Knot) -> Result<(), AllocError>
    ensures { OnOk result (string_bytes text.new ≡ string_bytes text.old ++ knot_line node knot) }
{
    write!(
        text,
        "node {node} at {} {} parent {} cost {}\n",
        knot.point.x, knot.point.y, knot.parent, knot.cost
    )
}
