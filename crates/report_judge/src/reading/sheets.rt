//! All lines of a report, read into lists, or the first line that breaks the form.

ghost use Rattle.std.specs.Prelude.{◌≡◌, ◌++◌, ◌<◌, ◌≤◌, ◌^◌, suc, IfErr, IfOk, length};
ghost use Rattle.plan_model.specs.declared.limits.TheConstants.{MOST_MARKS};
ghost use Rattle.report_judge.specs.Texts.ReportForms.{BreaksFormFirst};
ghost use Rattle.report_judge.specs.Texts.ReportLines.{Extent, lines_text};
ghost use Rattle.report_judge.specs.Texts.ReportSheets.{FitsOptionalPath, SpellsSheet, path_lines};
ghost use Rattle.report_judge.specs.Texts.ReportCuts.{priced_path, sheet_read};

use crate::costed_paths::CostedPath;
use crate::reading::count_readers::read_counts;
use crate::reading::front_lines::{read_nodes, read_points, read_records};
use crate::reading::line_readers::{read_no_path, read_path};
use crate::tallies::Tally;
use plan_model::{Knot, Memory, Record};
use std::alloc::Global;

/// What all lines of a report say.
#[derive(Drop)]
pub(crate) struct SheetRead {
    /// The path with its cost, if there is one.
    pub path: Option<CostedPath>,
    /// The counts.
    pub tally: Tally,
    /// The nodes by number.
    pub knots: Vec<Option<Knot>>,
    /// The records by mark.
    pub records: Vec<Record>,
}

/// What a report over so many marks says, of a scene that is informed or is not; `Err` with a line, counted from 1, exactly if that line is
/// the first that breaks the form. O(n + m) for n bytes and m marks.
///
/// # Errors
///
/// `Memory` if out of memory.
pub(crate) fn read_sheet(
    alloc: Global,
    report: &[u8],
    marks: u32,
    informed: bool,
) -> Result<Result<SheetRead, usize>, Memory>
    requires few { marks ≤ MOST_MARKS }
    requires short { length report.now < 2 ^ 32 }
    ensures spelled { IfOk result (λ form. IfOk form (λ read.
        SpellsSheet (record { marks = marks; informed = informed }) report.now (sheet_read read))) }
    ensures broken { IfOk result (λ form. IfErr form (λ line. BreaksFormFirst (record { marks = marks; informed = informed }) report.now line)) }
{
    let (path, rest) = match read_path_lines(alloc, report)? {
        Ok(read) => read,
        Err(line) => return Ok(Err(line)),
    };
    let counts_line = path_line_count(&path) + 1;
    let Some((tally, rest)) = read_counts(rest, informed) else {
        return Ok(Err(counts_line));
    };
    let (nodes, rest) = read_nodes(alloc, rest, marks, tally.nodes)?;
    let nodes_end = counts_line + nodes.count as usize;
    if nodes.count == 0 || nodes.count < tally.nodes {
        return Ok(Err(nodes_end + 1));
    }
    let (records, rest) = read_records(alloc, rest, marks, informed)?;
    if records.len() < marks as usize || !rest.is_empty() {
        return Ok(Err(nodes_end + records.len() + 1));
    }
    Ok(Ok(SheetRead {
        path,
        tally,
        knots: nodes.knots,
        records,
    }))
}

/// The path at the front of a report, with its cost, and what stands after its lines; `Err` with a line as `read_sheet` has it.
fn read_path_lines(
    alloc: Global,
    report: &[u8],
) -> Result<Result<(Option<CostedPath>, &[u8]), usize>, Memory>
    requires short { length report.now < 2 ^ 32 }
    ensures fits { IfOk result (λ form. IfOk form (λ read. FitsOptionalPath (priced_path read.0))) }
    ensures text { IfOk result (λ form. IfOk form (λ read. report.now ≡ lines_text (path_lines (priced_path read.0)) ++ read.1.now)) }
    ensures broken { IfOk result (λ form. IfErr form (λ line. (extent : Extent) → BreaksFormFirst extent report.now line)) }
{
    if let Some(rest) = read_no_path(report) {
        return Ok(Ok((None, rest)));
    }
    let Some((line, rest)) = read_path(report) else {
        return Ok(Err(1));
    };
    let (points, rest) = read_points(alloc, rest, line.points)?;
    if (points.len() as u64) < line.points {
        return Ok(Err(points.len() + 2));
    }
    let path = CostedPath {
        points,
        cost: line.cost,
    };
    Ok(Ok((Some(path), rest)))
}

/// How many lines a report has of its path. O(1).
pub(crate) fn path_line_count(path: &Option<CostedPath>) -> usize
    ensures { result ≡ length (path_lines (priced_path path.now)) }
{
    match path {
        Some(path) => path.points.len() + 1,
        None => 1,
    }
}
